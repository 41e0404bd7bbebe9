// The feature record of a tree.
#![tactic(auto)]

mod cell;
mod dependencies;
mod features;
mod phandles;
mod tree;

ghost use Rattle.std.specs.Prelude.{◌≡◌};
ghost use Rattle.refusal.specs.Refusal.{placed};
ghost use Rattle.record.specs.Record.{no_features};
ghost use Rattle.walk.specs.Checked.{check_tree};
ghost use Rattle.nodes.specs.Values.{value_in, bytes_of};
ghost use Rattle.reading.specs.Reading.{read_accepted, read_record};
ghost use Rattle.reader.specs.Outcome.{read_outcome};
ghost use Rattle.reader.specs.Parts.{
  is_container,
  ReadsContainer,
  SomeContainer,
  ReadsRecord,
  SomeOpen,
  ReadsChildren,
};

use cell::CellResult;
use feature::no_feature;
use nodes::{ChildPlaces, behind, child_places, repeated_name};
use record::{MOST_FEATURES, Record, SLOTS};
use refusal::{Refusal, RefusedAt};
use tree::{Contents, Tree};
use walk::Containers;

impl Contents<'_> {
    ghost use Rattle.reader.specs.Contents.{tokens_of};

    // The bytes of a property's value; none where it is missing.
    fn value_part(&self, name: &[u8]) -> &[u8]
        ensures { result.now ≡ bytes_of (value_in name.now (tokens_of self.now)) }
    {
        match self.value(name) {
            None => &[],
            Some(value) => &self.tree.bytes[value.from..value.from + value.length],
        }
    }

    // Whether the `device_type` and `compatible` of a node are a container's.
    fn is_container(&self) -> bool
        ensures { result ≡ is_container (tokens_of self.now) }
    {
        container::is_container_type(self.value_part(b"device_type"))
            && container::is_container_compatible(self.value_part(b"compatible"))
    }

    // The `isa` of a container, after its `device_type` and `compatible`.
    fn container_isa(&self) -> CellResult
        ensures { ReadsContainer self.now.tree.bytes.now self.now.tree.blocks self.now.first result }
    {
        if !self.is_container() {
            return Err(Refusal::PropertyForm);
        }
        self.read_cell(b"isa", true)
    }
}

impl Tree<'_> {
    // The features at some places with all that they hold.
    fn read_places(&self, isa: u32, fs: ChildPlaces) -> Result<Record, RefusedAt>
        requires { SomeContainer self.now.bytes.now self.now.blocks isa fs }
        ensures { ReadsRecord self.now.bytes.now self.now.blocks isa fs (read_outcome result) }
    {
        let mut phandles: [Option<u32>; MOST_FEATURES] = [None; MOST_FEATURES];
        let features = self.read_features(fs, &mut phandles)?;
        // Document 01: "one flat run of 1,024 dependency slots".
        let mut slots: [u16; SLOTS] = [0; SLOTS];
        self.resolve(fs, &phandles, &mut slots)?;
        Ok(Record {
            isa,
            count: fs.count as u32,
            features,
            slots,
        })
    }

    // The features of a container whose contents begin at `first`.
    fn read_children(&self, isa: u32, first: usize) -> Result<Record, RefusedAt>
        requires { SomeOpen self.now.bytes.now self.now.blocks isa first }
        ensures { ReadsChildren self.now.bytes.now self.now.blocks isa first (read_outcome result) }
    {
        let fs = child_places(self.bytes, self.blocks, first);
        if let Some(over) = fs.over {
            return Err(Refusal::TooMany.at(over));
        }
        if let Some(later) = repeated_name(self.bytes, self.blocks, fs) {
            return Err(Refusal::Repeated.at(fs.places[later].at));
        }
        self.read_places(isa, fs)
    }

    // The record of an accepted tree, with the containers that the walk noted.
    fn read_container(&self, found: Containers) -> Result<Record, RefusedAt>
        requires { check_tree self.now.bytes.now ≡ placed (record { blocks = self.now.blocks; containers = found }) }
        ensures { read_outcome result ≡ read_accepted self.now.bytes.now self.now.blocks }
    {
        if found.count == 0 {
            return Err(Refusal::NotFound.at(self.blocks.start));
        }
        if found.count != 1 {
            return Err(Refusal::Repeated.at(found.second));
        }
        // The walk noted the container by its name, which ends.
        let first = behind(self.bytes, self.blocks.end, found.first + 4).unwrap();
        let contents = Contents { tree: *self, first };
        let isa = contents
            .container_isa()
            .map_err(|refusal| refusal.at(found.first))?;
        self.read_children(isa.unwrap_or(0), first)
    }
}

// A record of no features, for those who show one beside a refusal.
pub fn no_features() -> Record
    ensures { result ≡ no_features }
{
    Record {
        isa: 0,
        count: 0,
        features: [no_feature(); MOST_FEATURES],
        slots: [0; SLOTS],
    }
}

// The feature record of a tree.
pub fn read_record(tree: &[u8]) -> Result<Record, RefusedAt>
    ensures { read_outcome result ≡ read_record tree.now }
{
    let layout = walk::check_tree(tree)?;
    Tree {
        bytes: tree,
        blocks: layout.blocks,
    }
    .read_container(layout.containers)
}
