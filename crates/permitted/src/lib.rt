// Which features are permitted at a level under grants.
#![tactic(auto)]

ghost use Rattle.std.specs.Prelude.{◌≡◌, true, ◌<◌};
ghost use Rattle.positions.specs.Sets.{has};
ghost use Rattle.record.specs.Cells.{low_bit};
ghost use Rattle.form.specs.WellFormed.{bits_fit};
ghost use Rattle.permitted.specs.Permitted.{is_usable, is_supported, is_supported_below, is_permitted};
ghost use Rattle.permitted.specs.Asked.{examined, examined_outcome, permitted as permitted_of, permitted_outcome};

use positions::Set;
use record::{Feature, MOST_FEATURES, Property, Record};
use refusal::Refusal;

// A level stays a number: the public functions take any, and one that is none is refused only after the record (15 after 14).
pub const USER: u32 = 0;

pub const SYSTEM: u32 = 1;

pub const HYPERVISOR: u32 = 2;

// Document 01: "Grants are four 64-bit masks": the features that the hypervisor supports by its own code, the same for the system, and
// the HFSCR and FSCR bits that may be set.
#[repr(C)]
#[derive(Clone, Copy)]
pub struct Grants {
    pub hypervisor: Set,
    pub system: Set,
    pub hfscr: u64,
    pub fscr: u64,
}

// The set of permitted positions, and the number of dependencies of each feature, zero from the count on.
#[derive(Clone, Copy)]
pub struct Examined {
    pub set: Set,
    pub counts: [u8; MOST_FEATURES],
}

fn is_usable(privilege: Option<u32>, level: u32) -> bool
    ensures { result ≡ is_usable privilege level }
{
    privilege.is_some_and(|levels| positions::bit_set(u64::from(levels), level))
}

// Whether a level's support permits the feature at position `i`: absent, or granted, or by the level's own code. The number of the
// register's bit is looked at only where bit 0 of the support is set; it is in range there, and not tested again.
#[tactic(auto, using(positions::proofs::BitLaws::bit_test), unfolding(crate::specs::Permitted::by_register))]
fn is_supported(support: Option<u32>, number: u32, mask: u64, own: Set, i: usize) -> bool
    requires { low_bit support ≡ true → number < 64 }
    ensures { result ≡ is_supported support (Some number) mask (has own.words i) }
{
    match support {
        None => true,
        Some(bits) => {
            (positions::bit_set(u64::from(bits), 0) && (mask >> number) % 2 != 0)
                || positions::member(own, i)
        }
    }
}

// The same, asked only below the level that gives the support.
#[tactic(auto, unfolding(crate::specs::Permitted::is_supported_below))]
fn is_supported_below(
    upper: u32,
    level: u32,
    support: Option<u32>,
    number: u32,
    mask: u64,
    own: Set,
    i: usize,
) -> bool
    requires { low_bit support ≡ true → number < 64 }
    ensures { result ≡ is_supported_below upper level support (Some number) mask (has own.words i) }
{
    upper <= level || is_supported(support, number, mask, own, i)
}

// Whether the feature at position `i` is permitted, if its bit numbers fit: they are then given where they are looked at.
#[tactic(auto, unfolding(crate::specs::Permitted::is_permitted))]
fn is_permitted(f: Feature, level: u32, g: Grants, i: usize) -> bool
    requires { bits_fit f ≡ true }
    ensures { result ≡ is_permitted f level g i }
{
    is_usable(record::cell_of(f, Property::UsablePrivilege), level)
        && is_supported_below(
            HYPERVISOR,
            level,
            record::cell_of(f, Property::HvSupport),
            f.hfscr_bit_nr,
            g.hfscr,
            g.hypervisor,
            i,
        )
        && is_supported_below(
            SYSTEM,
            level,
            record::cell_of(f, Property::OsSupport),
            f.fscr_bit_nr,
            g.fscr,
            g.system,
            i,
        )
}

// What every call asks of a record, a level and grants: 14, then 15; then the permitted set, and how many dependencies each feature has.
// The record is passed over once: two tests a feature, at a known level.
pub fn examine(r: Record, level: u32, g: Grants) -> Result<Examined, Refusal>
    ensures { examined_outcome result ≡ examined r level g }
{
    let count = r.count;
    let n = count as usize;
    if MOST_FEATURES < n {
        return Err(Refusal::RecordForm);
    }
    let known = level.min(HYPERVISOR);
    let mut set = positions::empty();
    let mut counts: [u8; MOST_FEATURES] = [0; MOST_FEATURES];
    for i in 0..n {
        let f = r.features[i];
        if !form::feature_fits(f, &r.slots, count, i) {
            return Err(Refusal::RecordForm);
        }
        counts[i] = record::dependency_count(f) as u8;
        if is_permitted(f, known, g, i) {
            set = positions::insert(set, i);
        }
    }
    if HYPERVISOR < level {
        return Err(Refusal::Level);
    }
    Ok(Examined { set, counts })
}

// The permitted features of a record at a level under grants.
pub fn permitted(r: Record, level: u32, g: Grants) -> Result<Set, Refusal>
    ensures { permitted_outcome result ≡ permitted_of r level g }
{
    Ok(examine(r, level, g)?.set)
}
