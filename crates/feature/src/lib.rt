// The cells of a feature's properties as read: the first refusal among them, or the feature with its word `given`; and which feature
// carries a phandle.
#![tactic(auto)]

ghost use Rattle.std.specs.Prelude.{◌≡◌, ◌*◌, ◌≤◌, min};
ghost use Rattle.positions.specs.Below.{one_if, first_that};
ghost use Rattle.record.specs.Record.{most_features, no_feature};
ghost use Rattle.refusal.specs.Refusal.{number_in as refusal_number};
ghost use Rattle.record.specs.Cells.{given_in, number_in, given_word};
ghost use Rattle.feature.specs.Feature.{read_as, refused_number, cell_from, cells_from, refusal_of, feature_from, feature_outcome, feature_read};
ghost use Rattle.feature.specs.Phandles.{is_at};

use record::{Feature, MOST_FEATURES};
use refusal::Refusal;

// A property of one cell as read: its refusal, if it is refused, and its number, if it is given.
#[derive(Clone, Copy)]
pub struct CellRead {
    pub refusal: Option<Refusal>,
    pub cell: Option<u32>,
}

// The cells of who may use a feature, and of its supports.
#[derive(Clone, Copy)]
pub struct SupportCells {
    pub usable_privilege: CellRead,
    pub hv_support: CellRead,
    pub os_support: CellRead,
}

// The cells of a feature's bit numbers.
#[derive(Clone, Copy)]
pub struct BitCells {
    pub hfscr_bit_nr: CellRead,
    pub fscr_bit_nr: CellRead,
    pub hwcap_bit_nr: CellRead,
}

// The cells of a feature's properties; of its dependencies, how many.
#[derive(Clone, Copy)]
pub struct FeatureCells {
    pub isa: CellRead,
    pub support: SupportCells,
    pub bits: BitCells,
    pub phandle: CellRead,
    pub dependencies: CellRead,
}

// A refused answer has no cell.
impl From<Result<Option<u32>, Refusal>> for CellRead {
    ghost from_gives = { λ answer read. read ≡ read_as answer };

    fn from(answer: Result<Option<u32>, Refusal>) -> CellRead {
        match answer {
            Ok(cell) => CellRead {
                refusal: None,
                cell,
            },
            Err(refusal) => CellRead {
                refusal: Some(refusal),
                cell: None,
            },
        }
    }
}

// The refusal of a property, if it is refused.
fn unrefused(c: CellRead) -> Result<(), Refusal>
    ensures { refusal_number result ≡ refused_number c.refusal }
{
    match c.refusal {
        Some(refusal) => Err(refusal),
        None => Ok(()),
    }
}

// A bit of the word `given`: set where the cell is given.
fn given_bit(c: CellRead, bit: u32) -> u32
    ensures { (result ≡ one_if (given_in (cell_from c)) * bit) × (result ≤ bit) }
{
    if c.cell.is_some() { bit } else { 0 }
}

// The number of a cell, zero where it is not given.
fn number(c: CellRead) -> u32
    ensures { result ≡ number_in (cell_from c) }
{
    c.cell.unwrap_or(0)
}

// The word `given`, a bit for each property in their order, the first the lowest.
fn given_word(c: FeatureCells) -> u32
    ensures { result ≡ given_word (cells_from c) }
{
    given_bit(c.isa, 1)
        + given_bit(c.support.usable_privilege, 2)
        + given_bit(c.support.hv_support, 4)
        + given_bit(c.support.os_support, 8)
        + given_bit(c.bits.hfscr_bit_nr, 16)
        + given_bit(c.bits.fscr_bit_nr, 32)
        + given_bit(c.bits.hwcap_bit_nr, 64)
        + given_bit(c.phandle, 128)
        + given_bit(c.dependencies, 256)
}

// The first refusal of a feature's properties, in their order.
pub fn refusal_of(c: FeatureCells) -> Result<(), Refusal>
    ensures { refusal_number result ≡ refusal_of c }
{
    unrefused(c.isa)?;
    unrefused(c.support.usable_privilege)?;
    unrefused(c.support.hv_support)?;
    unrefused(c.support.os_support)?;
    unrefused(c.bits.hfscr_bit_nr)?;
    unrefused(c.bits.fscr_bit_nr)?;
    unrefused(c.bits.hwcap_bit_nr)?;
    unrefused(c.phandle)?;
    unrefused(c.dependencies)?;
    Ok(())
}

// The feature at an offset that its cells give.
pub fn feature_of(at: u32, c: FeatureCells) -> Feature
    ensures { result ≡ feature_from at c }
{
    Feature {
        offset: at,
        given: given_word(c),
        isa: number(c.isa),
        usable_privilege: number(c.support.usable_privilege),
        hv_support: number(c.support.hv_support),
        os_support: number(c.support.os_support),
        hfscr_bit_nr: number(c.bits.hfscr_bit_nr),
        fscr_bit_nr: number(c.bits.fscr_bit_nr),
        hwcap_bit_nr: number(c.bits.hwcap_bit_nr),
        phandle: number(c.phandle),
        dependencies: number(c.dependencies),
    }
}

// The feature at an offset that its cells give, or the first refusal among them.
pub fn try_feature_of(at: u32, c: FeatureCells) -> Result<Feature, Refusal>
    ensures { feature_outcome result ≡ feature_read at c }
{
    refusal_of(c)?;
    Ok(feature_of(at, c))
}

// What stands where there is no feature.
pub fn no_feature() -> Feature
    ensures { result ≡ no_feature }
{
    Feature {
        offset: 0,
        given: 0,
        isa: 0,
        usable_privilege: 0,
        hv_support: 0,
        os_support: 0,
        hfscr_bit_nr: 0,
        fscr_bit_nr: 0,
        hwcap_bit_nr: 0,
        phandle: 0,
        dependencies: 0,
    }
}

// The first position below `n` at which a phandle stands, if there is one. No more than 64 are looked at.
pub fn carrier_below(
    phandles: &[Option<u32>; MOST_FEATURES],
    n: usize,
    phandle: u32,
) -> Option<usize>
    ensures { result ≡ first_that (min n most_features) (is_at phandles.now phandle) }
{
    let end = n.min(MOST_FEATURES);
    phandles[..end].iter().position(|p| *p == Some(phandle))
}
