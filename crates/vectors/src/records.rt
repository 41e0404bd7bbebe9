// The kind of vectors for feature records: a tree is read, and its record put on one line.
ghost use Rattle.std.specs.Prelude.{◌<◌};

use crate::line::{put_number, put_numbers, put_start};
use record::{Feature, MOST_DEPENDENCIES, MOST_FEATURES, Record, SLOTS};
use std::io;
use std::io::Write;

// The numbers of a feature.
fn numbers_of(f: Feature) -> [u32; 11] {
    [
        f.offset,
        f.given,
        f.isa,
        f.usable_privilege,
        f.hv_support,
        f.os_support,
        f.hfscr_bit_nr,
        f.fscr_bit_nr,
        f.hwcap_bit_nr,
        f.phandle,
        f.dependencies,
    ]
}

// The slots of the feature at a position.
fn slots_of(slots: &[u16; SLOTS], position: usize) -> &[u16]
    requires { position < 64 }
{
    let from = MOST_DEPENDENCIES * position;
    &slots[from..from + MOST_DEPENDENCIES]
}

// Puts a position with the numbers of its feature and its slots; nothing, if these are all zero.
fn put_row(
    out: &mut impl Write,
    position: usize,
    numbers: &[u32],
    slots: &[u16],
) -> io::Result<()> {
    if numbers.iter().all(|number| *number == 0) && slots.iter().all(|slot| *slot == 0) {
        return Ok(());
    }
    put_number(out, position as u64)?;
    put_numbers(out, numbers)?;
    put_numbers(out, slots)
}

// Puts the rows of all positions.
fn put_rows(out: &mut impl Write, record: Record) -> io::Result<()> {
    for i in 0..MOST_FEATURES {
        put_row(
            out,
            i,
            &numbers_of(record.features[i]),
            slots_of(&record.slots, i),
        )?;
    }
    Ok(())
}

// A whole tree: the refusal, its place, the isa, the count, and the rows.
pub(crate) fn record(out: &mut impl Write, value: &[u8]) -> io::Result<bool> {
    let (outcome, place, record) = match reader::read_record(value) {
        Ok(record) => (Ok(()), 0, record),
        Err(refused) => (Err(refused.refusal), refused.place, reader::no_features()),
    };
    put_start(out, b'r', outcome)?;
    put_number(out, place as u64)?;
    put_number(out, record.isa.into())?;
    put_number(out, record.count.into())?;
    put_rows(out, record)?;
    Ok(true)
}
