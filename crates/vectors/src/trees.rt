// The kinds of vectors for trees, for blocks of properties and for lists of strings. Each function puts one line and answers whether the bytes are a vector.
use crate::line::{put_number, put_start};
use lookup::Found;
use refusal::Refusal;
use std::io;
use std::io::Write;
use walk::Containers;

// The three lengths before the parts of a lookup.
const LENGTHS: usize = 12;

// The length before a list of strings.
const LENGTH: usize = 4;

const NO_CONTAINERS: Containers = Containers {
    count: 0,
    first: 0,
    second: 0,
};

// Where the CPU node's block of a lookup ends, its parent's, and the strings block.
#[derive(Clone, Copy)]
struct Ends {
    cpu: usize,
    parent: usize,
    strings: usize,
}

// A whole tree: the refusal, its place, and the containers; none beside a refusal.
pub(crate) fn tree(out: &mut impl Write, value: &[u8]) -> io::Result<bool> {
    let (outcome, place, containers) = match walk::check_tree(value) {
        Ok(layout) => (Ok(()), 0, layout.containers),
        Err(refused) => (Err(refused.refusal), refused.place, NO_CONTAINERS),
    };
    put_start(out, b't', outcome)?;
    put_number(out, place as u64)?;
    put_number(out, containers.count.into())?;
    put_number(out, containers.first as u64)?;
    put_number(out, containers.second as u64)?;
    Ok(true)
}

// The block in which a property is found, and its place there; zeros where it is not found.
fn block_and_place(found: Option<Found>) -> (u64, usize) {
    match found {
        Some(Found::InCpu { from, .. }) => (1, from),
        Some(Found::InParent { from, .. }) => (2, from),
        None => (0, 0),
    }
}

fn looked_up(
    out: &mut impl Write,
    cpu: &[u8],
    parent: &[u8],
    strings: &[u8],
    name: &[u8],
) -> io::Result<bool> {
    let reason = lookup::lookup_reason(cpu, parent, strings, name);
    put_start(out, b'l', reason.map_or(Ok(()), Err))?;
    let (block, place) = block_and_place(lookup::find_property(cpu, parent, strings, name));
    put_number(out, block)?;
    put_number(out, place as u64)?;
    let part = lookup::property_part(cpu, parent, strings, name);
    put_number(out, part.len() as u64)?;
    Ok(true)
}

fn ends_of(value: &[u8]) -> Ends {
    let cpu = LENGTHS + cells::cell_at(value, 0) as usize;
    let parent = cpu + cells::cell_at(value, 4) as usize;
    let strings = parent + cells::cell_at(value, 8) as usize;
    Ends {
        cpu,
        parent,
        strings,
    }
}

// The bytes from a place to another; none, if these are no places of the vector.
fn part(value: &[u8], from: usize, to: usize) -> &[u8] {
    value.get(from..to).unwrap_or(&[])
}

// A lookup: three lengths, then the CPU node's block, its parent's, the strings block, and the name sought. Fewer bytes are no vector.
pub(crate) fn property_lookup(out: &mut impl Write, value: &[u8]) -> io::Result<bool> {
    let ends = ends_of(value);
    if value.len() < ends.strings {
        return Ok(false);
    }
    let cpu = part(value, LENGTHS, ends.cpu);
    let parent = part(value, ends.cpu, ends.parent);
    let strings = part(value, ends.parent, ends.strings);
    let name = part(value, ends.strings, value.len());
    looked_up(out, cpu, parent, strings, name)
}

// The place at which a text stands in a list.
fn put_string_place(out: &mut impl Write, list: &[u8], text: &[u8]) -> io::Result<()> {
    let found = stringlist::string_place(list, text);
    let place = put_start(out, b'm', found.ok_or(Refusal::NotFound))?;
    put_number(out, place as u64)
}

// A text in a list of strings: the list's length, the list, and the text sought. Fewer bytes are no vector.
pub(crate) fn string_place(out: &mut impl Write, value: &[u8]) -> io::Result<bool> {
    let end = LENGTH + cells::cell_at(value, 0) as usize;
    if value.len() < end {
        return Ok(false);
    }
    put_string_place(out, part(value, LENGTH, end), part(value, end, value.len()))?;
    Ok(true)
}
