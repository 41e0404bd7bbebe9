// Dependencies: each phandle becomes the position of the feature that carries it.
ghost use Rattle.std.specs.Prelude.{◌≡◌, ◌+◌, ◌*◌, ◌≤◌, length as length-of, replicate};
ghost use Rattle.record.specs.Record.{slot_count};
ghost use Rattle.reader.specs.Parts.{RoomFor, ResolvesCells, ResolvesFeature, SomeKnown, ResolvesAll};

use crate::phandles::Phandles;
use crate::tree::{Contents, Tree};
use nodes::ChildPlaces;
use record::{MOST_DEPENDENCIES, MOST_FEATURES, SLOTS};
use refusal::{Refusal, RefusedAt};

impl Contents<'_> {
    // The `n` phandles that begin at `from`, each as the position of the feature that carries it, into the slots from `at` on; refused where
    // no feature carries one.
    fn resolve_cells(
        &self,
        from: usize,
        n: usize,
        phandles: &Phandles,
        slots: &mut [u16; SLOTS],
        at: usize,
    ) -> Result<(), Refusal>
        requires { (from + 4 * n ≤ length-of self.now.tree.bytes.now) × (at + n ≤ slot_count) }
        ensures { ResolvesCells
            self.now.tree.bytes.now
            from
            n
            phandles.now.noted.now
            phandles.now.count
            at
            slots.old
            slots.new
            result }
    {
        for j in 0..n {
            let phandle = cells::cell_at(self.tree.bytes, from + 4 * j);
            let carrier = phandles.carrier(phandle).ok_or(Refusal::UnknownPhandle)?;
            slots[at + j] = carrier as u16;
        }
        Ok(())
    }

    // The dependencies of a feature, into the slots from `at` on.
    fn resolve_feature(
        &self,
        phandles: &Phandles,
        slots: &mut [u16; SLOTS],
        at: usize,
    ) -> Result<(), Refusal>
        requires { RoomFor self.now.tree.bytes.now self.now.tree.blocks self.now.first at }
        ensures { ResolvesFeature
            self.now.tree.bytes.now
            self.now.tree.blocks
            self.now.first
            phandles.now.noted.now
            phandles.now.count
            at
            slots.old
            slots.new
            result }
    {
        match self.value(b"dependencies") {
            None => Ok(()),
            Some(value) => self.resolve_cells(value.from, value.length / 4, phandles, slots, at),
        }
    }
}

impl Tree<'_> {
    // Document 01: "one flat run of 1,024 dependency slots", filled sixteen to a feature.
    pub(crate) fn resolve(
        &self,
        fs: ChildPlaces,
        phandles: &[Option<u32>; MOST_FEATURES],
        slots: &mut [u16; SLOTS],
    ) -> Result<(), RefusedAt>
        requires { SomeKnown self.now.bytes.now self.now.blocks fs phandles.now × (slots.old ≡ replicate slot_count 0) }
        ensures { ResolvesAll self.now.bytes.now self.now.blocks fs phandles.now slots.new result }
    {
        let carriers = Phandles {
            noted: phandles,
            count: fs.count,
        };
        for (i, p) in fs.places[..fs.count].iter().enumerate() {
            let contents = Contents {
                tree: *self,
                first: p.behind,
            };
            contents
                .resolve_feature(&carriers, slots, MOST_DEPENDENCIES * i)
                .map_err(|refusal| refusal.at(p.at))?;
        }
        Ok(())
    }
}
