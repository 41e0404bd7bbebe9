// A tree that the walk accepted, and the contents of a node of it.
ghost use Rattle.std.specs.Prelude.{◌≤◌, length as length-of};
ghost use Rattle.nodes.specs.Values.{value_in};
ghost use Rattle.nodes.specs.Parts.{Shows};

use header::Blocks;
use nodes::{Extent, value_of};

// An accepted tree and its blocks, which lie in it.
#[derive(Clone, Copy)]
pub(crate) struct Tree<'a> {
    pub(crate) bytes: &'a [u8],
    pub(crate) blocks: Blocks,
    ghost inside: { blocks.end ≤ length-of bytes.now },
}

// The contents of a node, its properties and child nodes, which begin at `first`.
#[derive(Clone, Copy)]
pub(crate) struct Contents<'a> {
    pub(crate) tree: Tree<'a>,
    pub(crate) first: usize,
}

impl Contents<'_> {
    ghost use Rattle.reader.specs.Contents.{tokens_of};

    // Where the value of a property lies.
    pub(crate) fn value(&self, name: &[u8]) -> Option<Extent>
        ensures { Shows self.now.tree.bytes.now (value_in name.now (tokens_of self.now)) result }
    {
        value_of(self.tree.bytes, self.tree.blocks, self.first, name)
    }
}
