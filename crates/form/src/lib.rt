// The form of a feature record: document 01's number 14 is for those that are not well formed.
#![tactic(auto)]

ghost use Rattle.std.specs.Prelude.{◌≡◌, ◌≤◌, ◌<◌};
ghost use Rattle.positions.specs.Below.{every};
ghost use Rattle.record.specs.Record.{most_features, most_dependencies};
ghost use Rattle.form.specs.WellFormed.{bit_fits, bits_fit, slot_below, slots_fit, fits_in, well_formed};
ghost use Rattle.form.specs.Slots.{slots_fit_at, fits_at, SlotsUpTo};

use record::{
    Feature, HIGHEST_FSCR_BIT, HIGHEST_HFSCR_BIT, HIGHEST_HWCAP_BIT, MOST_DEPENDENCIES,
    MOST_FEATURES, Property, Record, SLOTS, cell_of, dependency_count, low_bit,
};

// Up to so many dependencies are tested one by one.
const FEW: usize = 4;

// Whether a bit number is in range where it is given, and given where it is required.
fn bit_fits(number: Option<u32>, required: bool, highest: u32) -> bool
    ensures { result ≡ bit_fits highest required number }
{
    match number {
        Some(n) => n <= highest,
        None => !required,
    }
}

// Whether the three bit numbers of a feature fit: those of HFSCR and FSCR are required where bit 0 of hv-support, of os-support is set,
// and that of a capability never.
#[tactic(auto, unfolding(crate::specs::WellFormed::bits_fit))]
fn bits_fit(f: Feature) -> bool
    ensures { result ≡ bits_fit f }
{
    bit_fits(
        cell_of(f, Property::HfscrBitNr),
        low_bit(cell_of(f, Property::HvSupport)),
        HIGHEST_HFSCR_BIT,
    ) && bit_fits(
        cell_of(f, Property::FscrBitNr),
        low_bit(cell_of(f, Property::OsSupport)),
        HIGHEST_FSCR_BIT,
    ) && bit_fits(cell_of(f, Property::HwcapBitNr), false, HIGHEST_HWCAP_BIT)
}

// A number that none of the sixteen slots of position `i` passes: the largest of them.
fn largest_slot(slots: &[u16; SLOTS], i: usize) -> u32
    requires { i < most_features }
    ensures { SlotsUpTo slots.now i result }
{
    let first = MOST_DEPENDENCIES * i;
    let mut most: u16 = 0;
    for slot in &slots[first..first + MOST_DEPENDENCIES] {
        most = most.max(*slot);
    }
    u32::from(most)
}

// Whether the first `n` slots of position `i` are below the count, slot by slot.
fn each_below(slots: &[u16; SLOTS], count: u32, i: usize, n: usize) -> bool
    requires { (i < most_features) × (n ≤ most_dependencies) }
    ensures { result ≡ every n (slot_below slots.now count i) }
{
    let first = MOST_DEPENDENCIES * i;
    slots[first..first + n]
        .iter()
        .all(|slot| u32::from(*slot) < count)
}

// Whether the feature at position `i` has at most sixteen dependencies, `n`, and each is below the count.
#[tactic(auto, unfolding(crate::specs::WellFormed::slots_fit))]
fn dependencies_fit(slots: &[u16; SLOTS], count: u32, i: usize, n: usize) -> bool
    requires { i < most_features }
    ensures { result ≡ slots_fit slots.now count i n }
{
    n <= MOST_DEPENDENCIES && each_below(slots, count, i, n)
}

// The same. Where the dependencies are many, the largest slot is compared first: it is found without a test a slot.
fn many_fit(slots: &[u16; SLOTS], count: u32, i: usize, n: usize) -> bool
    requires { i < most_features }
    ensures { result ≡ slots_fit slots.now count i n }
{
    if FEW < n && n <= MOST_DEPENDENCIES && largest_slot(slots, i) < count {
        return true;
    }
    dependencies_fit(slots, count, i, n)
}

// Whether position `i`, one of 64, has at most sixteen dependencies, `n`, and each is below the count.
#[tactic(auto, unfolding(crate::specs::Slots::slots_fit_at))]
pub fn slots_fit(slots: &[u16; SLOTS], count: u32, i: usize, n: usize) -> bool
    ensures { result ≡ slots_fit_at slots.now count i n }
{
    i < MOST_FEATURES && dependencies_fit(slots, count, i, n)
}

// Whether a feature fits at position `i` of a record with these slots and this count; none does past the last position.
#[tactic(auto, unfolding(crate::specs::Slots::fits_at))]
pub fn feature_fits(f: Feature, slots: &[u16; SLOTS], count: u32, i: usize) -> bool
    ensures { result ≡ fits_at f slots.now count i }
{
    i < MOST_FEATURES && bits_fit(f) && many_fit(slots, count, i, dependency_count(f) as usize)
}

// Whether a feature fits at a position below the count. It does without `many_fit`, which the compiler puts into the one loop that calls it.
fn fits(f: Feature, slots: &[u16; SLOTS], count: u32, i: usize) -> bool
    requires { i < most_features }
    ensures { result ≡ fits_in f slots.now count i }
{
    bits_fit(f) && dependencies_fit(slots, count, i, dependency_count(f) as usize)
}

// Whether a record is well formed: a test for each feature below the count.
pub fn well_formed(r: Record) -> bool
    ensures { result ≡ well_formed r }
{
    let count = r.count as usize;
    if MOST_FEATURES < count {
        return false;
    }
    for (i, f) in r.features[..count].iter().enumerate() {
        if !fits(*f, &r.slots, r.count, i) {
            return false;
        }
    }
    true
}
