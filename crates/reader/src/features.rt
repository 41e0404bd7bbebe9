// The properties of a feature, and all features in order.
ghost use Rattle.std.specs.Prelude.{[], ◌≤◌, ◌<◌};
ghost use Rattle.characters.specs.Characters.{bytes};
ghost use Rattle.header.specs.Header.{largest_tree};
ghost use Rattle.record.specs.Record.{most_features};
ghost use Rattle.nodes.specs.Values.{value_in};
ghost use Rattle.reader.specs.Parts.{
  PhandleIs,
  SupportIs,
  BitsAre,
  CellsAre,
  ReadsFeature,
  SomeNodes,
  ArePhandles,
  ReadsFeatures,
};

use crate::cell::{CellResult, at_most};
use crate::phandles::Phandles;
use crate::tree::{Contents, Tree};
use feature::{BitCells, FeatureCells, SupportCells, no_feature, try_feature_of};
use nodes::{ChildPlaces, NodePlace};
use record::{Feature, HIGHEST_FSCR_BIT, HIGHEST_HFSCR_BIT, HIGHEST_HWCAP_BIT, MOST_FEATURES};
use refusal::{Refusal, RefusedAt};

// Neither this nor 0 is a phandle.
const ALL_ONES: u32 = 0xffffffff;

impl Contents<'_> {
    ghost use Rattle.reader.specs.Contents.{tokens_of};

    // A phandle: neither 0 nor all ones, and not one that a feature before carries.
    fn read_phandle(&self, phandles: &Phandles) -> CellResult
        ensures { PhandleIs phandles.now.noted.now phandles.now.count (value_in (bytes "phandle") (tokens_of self.now)) result }
    {
        let Some(phandle) = self.read_cell(b"phandle", false)? else {
            return Ok(None);
        };
        if phandle == 0 || phandle == ALL_ONES {
            return Err(Refusal::OutOfRange);
        }
        if phandles.carrier(phandle).is_some() {
            return Err(Refusal::Repeated);
        }
        Ok(Some(phandle))
    }

    // Who may use a feature, and its supports.
    fn read_support(&self) -> SupportCells
        ensures { SupportIs (tokens_of self.now) result }
    {
        SupportCells {
            usable_privilege: self.read_cell(b"usable-privilege", true).into(),
            hv_support: self.read_cell(b"hv-support", false).into(),
            os_support: self.read_cell(b"os-support", false).into(),
        }
    }

    // A feature's bit numbers: those of HFSCR and FSCR by its supports, that of a capability, which may be missing.
    fn read_bits(&self, s: SupportCells) -> BitCells
        ensures { BitsAre (tokens_of self.now) s result }
    {
        BitCells {
            hfscr_bit_nr: self
                .read_bit(b"hfscr-bit-nr", s.hv_support, HIGHEST_HFSCR_BIT)
                .into(),
            fscr_bit_nr: self
                .read_bit(b"fscr-bit-nr", s.os_support, HIGHEST_FSCR_BIT)
                .into(),
            hwcap_bit_nr: at_most(self.read_cell(b"hwcap-bit-nr", false), HIGHEST_HWCAP_BIT).into(),
        }
    }

    // All properties of a feature, each by itself.
    fn read_cells(&self, phandles: &Phandles) -> FeatureCells
        ensures { CellsAre (tokens_of self.now) phandles.now.noted.now phandles.now.count result }
    {
        let support = self.read_support();
        FeatureCells {
            isa: self.read_cell(b"isa", true).into(),
            support,
            bits: self.read_bits(support),
            phandle: self.read_phandle(phandles).into(),
            dependencies: self.read_count().into(),
        }
    }
}

impl Tree<'_> {
    // The feature at a place, the one at position `i`, by the phandles of those before it; its own is noted.
    fn read_feature(
        &self,
        p: NodePlace,
        phandles: &mut [Option<u32>; MOST_FEATURES],
        i: usize,
    ) -> Result<Feature, Refusal>
        requires { (i < most_features) × (p.at ≤ largest_tree) }
        ensures { ReadsFeature self.now.bytes.now self.now.blocks p phandles.old phandles.new i result }
    {
        let before = Phandles {
            noted: &*phandles,
            count: i,
        };
        let contents = Contents {
            tree: *self,
            first: p.behind,
        };
        let cells = contents.read_cells(&before);
        phandles[i] = cells.phandle.cell;
        try_feature_of(p.at as u32, cells)
    }

    // The features at some places, in order, and what is noted of their phandles.
    pub(crate) fn read_features(
        &self,
        fs: ChildPlaces,
        phandles: &mut [Option<u32>; MOST_FEATURES],
    ) -> Result<[Feature; MOST_FEATURES], RefusedAt>
        requires { SomeNodes self.now.bytes.now self.now.blocks fs × ArePhandles phandles.old [] }
        ensures { ReadsFeatures self.now.bytes.now self.now.blocks fs phandles.new result }
    {
        let mut features = [no_feature(); MOST_FEATURES];
        for (i, p) in fs.places[..fs.count].iter().enumerate() {
            features[i] = self
                .read_feature(*p, phandles, i)
                .map_err(|refusal| refusal.at(p.at))?;
        }
        Ok(features)
    }
}
