// Properties of one cell.
ghost use Rattle.std.specs.Prelude.{◌≡◌};
ghost use Rattle.characters.specs.Characters.{bytes};
ghost use Rattle.nodes.specs.Values.{value_in};
ghost use Rattle.record.specs.Cells.{low_bit};
ghost use Rattle.feature.specs.Feature.{cell_from};
ghost use Rattle.reader.specs.Parts.{CellIs, at_most, CountIs, BitIs};

use crate::tree::Contents;
use feature::CellRead;
use record::{MOST_DEPENDENCIES, low_bit};
use refusal::Refusal;

// The cell of a property, or its refusal.
pub(crate) type CellResult = Result<Option<u32>, Refusal>;

// A cell, refused where its number is above `high`.
pub(crate) fn at_most(c: CellResult, high: u32) -> CellResult
    ensures { result ≡ at_most high c }
{
    match c {
        Ok(Some(number)) if high < number => Err(Refusal::OutOfRange),
        _ => c,
    }
}

impl Contents<'_> {
    ghost use Rattle.reader.specs.Contents.{tokens_of};

    // The property of a name, one cell; `needed` where it must be given.
    pub(crate) fn read_cell(&self, name: &[u8], needed: bool) -> CellResult
        ensures { CellIs needed (value_in name.now (tokens_of self.now)) result }
    {
        let Some(value) = self.value(name) else {
            return if needed {
                Err(Refusal::PropertyForm)
            } else {
                Ok(None)
            };
        };
        if value.length != 4 {
            return Err(Refusal::PropertyForm);
        }
        Ok(Some(cells::cell_at(self.tree.bytes, value.from)))
    }

    // A bit number, at most `highest`, needed where bit 0 of a support cell is set.
    pub(crate) fn read_bit(&self, name: &[u8], support: CellRead, highest: u32) -> CellResult
        ensures { BitIs
            highest
            (low_bit (cell_from support))
            (value_in name.now (tokens_of self.now))
            result }
    {
        let needed = low_bit(support.cell);
        at_most(self.read_cell(name, needed), highest)
    }

    // The number of a node's dependencies: whole cells, at most sixteen.
    pub(crate) fn read_count(&self) -> CellResult
        ensures { CountIs (value_in (bytes "dependencies") (tokens_of self.now)) result }
    {
        let Some(value) = self.value(b"dependencies") else {
            return Ok(None);
        };
        if value.length % 4 != 0 {
            return Err(Refusal::PropertyForm);
        }
        let n = value.length / 4;
        if MOST_DEPENDENCIES < n {
            return Err(Refusal::TooMany);
        }
        Ok(Some(n as u32))
    }
}
