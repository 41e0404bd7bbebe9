// The walk over a tree: its header, and then its tokens, nested to sixteen levels.
#![tactic(auto)]

ghost use Rattle.std.specs.Prelude.{◌≡◌, ◌+◌, ◌-◌, ◌<◌, ◌≤◌, length as length-of, take, drop, []};
ghost use Rattle.properties.specs.Properties.{read_properties, properties_outcome};
ghost use Rattle.walk.specs.Walk.{
  before_root,
  in_properties,
  parent_of,
  most_levels,
  walk,
  tree_tokens,
};
ghost use Rattle.walk.specs.Checked.{judge, check_tree, checked_outcome};
ghost use Rattle.walk.specs.Parts.{part_of, child_part, part_at, none, note, Reads, Ends, Closes};

use header::Blocks;
use properties::{Properties, StringsBlock};
use refusal::{Refusal, RefusedAt};
use tokens::{Cursor, Step};

// The most levels of nodes, the root's among them.
pub const MOST_LEVELS: usize = 16;

// How many containers a tree has, up to two, and where their begin tokens stand; zero where there is none.
#[derive(Clone, Copy, Debug, PartialEq, Eq)]
pub struct Containers {
    pub count: u32,
    pub first: usize,
    pub second: usize,
}

// What is known of an accepted tree.
#[derive(Clone, Copy, Debug, PartialEq, Eq)]
pub struct Layout {
    pub blocks: Blocks,
    pub containers: Containers,
}

// A child of a node: its begin token, its name and how many characters that has, and what follows.
#[derive(Clone, Copy)]
struct ChildNode {
    at: usize,
    name: usize,
    length: usize,
    next: Cursor,
}

// What stands next in a node: something to skip, a child, or its end.
#[derive(Clone, Copy)]
enum Item {
    Skip(Cursor),
    Child(ChildNode),
    Close(Cursor),
}

// What was read of a node: what follows it, and the containers up to there.
#[derive(Clone, Copy)]
struct NodeRead {
    next: Cursor,
    found: Containers,
}

// The bytes of a tree, and where its blocks lie in them.
#[derive(Drop)]
struct Tree<'a> {
    bytes: &'a [u8],
    blocks: Blocks,
}

const NO_CONTAINERS: Containers = Containers {
    count: 0,
    first: 0,
    second: 0,
};

impl Tree<'_> {
    // The properties of a node whose contents begin at `from`: the place of the token behind them.
    fn properties_at(&self, from: usize) -> Result<usize, RefusedAt>
        ensures { properties_outcome result ≡ read_properties self.now.blocks.end [] (tree_tokens self.now.bytes.now self.now.blocks from) }
    {
        let strings = StringsBlock {
            bytes: self.bytes,
            from: self.blocks.strings,
            limit: self.blocks.limit,
        };
        let properties = Properties {
            bytes: self.bytes,
            end: self.blocks.end,
            first: from,
            strings,
        };
        properties.read_properties()
    }

    // A child node at `t`, whose name begins at `from`.
    fn child_item(&self, t: usize, from: usize) -> Result<Item, RefusedAt>
        ensures { part_of result ≡ child_part self.now.bytes.now self.now.blocks t from }
    {
        let length = names::node_name(self.bytes, from, self.blocks.end).ok_or(Refusal::Name.at(
            t,
        ))?;
        Ok(Item::Child(ChildNode {
            at: t,
            name: from,
            length,
            next: Cursor {
                at: from + (length + 1).next_multiple_of(4),
            },
        }))
    }

    // What stands at a place in a node, behind its properties.
    #[tactic(auto, using(crate::proofs::PartLaws::parts))]
    fn item_at(&self, at: usize) -> Result<Item, RefusedAt>
        ensures { part_of result ≡ part_at self.now.bytes.now self.now.blocks at }
    {
        let cursor = Cursor { at };
        match cursor.step(self.bytes, self.blocks.end) {
            Step::BeginNode { at, name } => self.child_item(at, name.at),
            Step::EndNode { next, .. } => Ok(Item::Close(next)),
            Step::Nop { next, .. } => Ok(Item::Skip(next)),
            Step::Property { at, .. } | Step::End { at } | Step::Fault { at } => {
                Err(Refusal::Token.at(at))
            }
        }
    }

    // The containers, where a node of the name of `length` bytes from `from` on begins at `at`.
    fn noted(&self, seen: Containers, at: usize, from: usize, length: usize) -> Containers
        requires { from + length ≤ length-of self.now.bytes.now }
        ensures { result ≡ note seen at (take length (drop from self.now.bytes.now)) }
    {
        // `==` is no plainer here: `same_bytes` is it, promised in the words of `note`
        if !strings::same_bytes(
            &self.bytes[from..from + length],
            b"ibm,powerpc-cpu-features",
        ) {
            return seen;
        }
        match seen.count {
            0 => Containers {
                count: 1,
                first: at,
                second: 0,
            },
            1 => Containers {
                count: 2,
                first: seen.first,
                second: at,
            },
            _ => seen,
        }
    }

    // Document 01: "nesting is followed to sixteen levels and no deeper". The contents of a node, to past its end token: its properties,
    // and then a call for each child, the levels left falling by one.
    fn contents(&self, from: usize, levels: usize, seen: Containers) -> Result<NodeRead, RefusedAt>
        requires { levels < most_levels }
        ensures { Reads
            self.now.bytes.now
            self.now.blocks
            (in_properties (most_levels - levels) [])
            from
            seen
            (parent_of (most_levels - levels))
            result }
    {
        let mut at = self.properties_at(from)?;
        let mut found = seen;
        // By a cursor, which each token moves on: no index is counted.
        loop {
            match self.item_at(at)? {
                Item::Skip(next) => at = next.at,
                Item::Child(child) => {
                    if levels == 0 {
                        return Err(Refusal::TooMany.at(child.at));
                    }
                    let now = self.noted(found, child.at, child.name, child.length);
                    let inner = self.contents(child.next.at, levels - 1, now)?;
                    at = inner.next.at;
                    found = inner.found;
                }
                Item::Close(next) => return Ok(NodeRead { next, found }),
            }
        }
    }

    // The root's begin token, with its empty name; NOPs may stand before it.
    fn root_at(&self, start: usize) -> Result<NodeRead, RefusedAt>
        ensures { Reads self.now.bytes.now self.now.blocks before_root start none (in_properties 1 []) result }
    {
        let mut cursor = Cursor { at: start };
        // By a cursor, as above.
        loop {
            match cursor.step(self.bytes, self.blocks.end) {
                Step::Nop { next, .. } => cursor = next,
                Step::BeginNode { at, name } => {
                    if !names::root_name(self.bytes, name.at, self.blocks.end) {
                        return Err(Refusal::Name.at(at));
                    }
                    return Ok(NodeRead {
                        next: Cursor { at: name.at + 4 },
                        found: NO_CONTAINERS,
                    });
                }
                Step::EndNode { at, .. }
                | Step::Property { at, .. }
                | Step::End { at }
                | Step::Fault { at } => return Err(Refusal::Token.at(at)),
            }
        }
    }

    // After the root: the end token, in the last cell of the block; NOPs may stand before it.
    fn last_at(&self, from: usize) -> Result<(), RefusedAt>
        ensures { Ends self.now.bytes.now self.now.blocks from result }
    {
        let end = self.blocks.end;
        let mut cursor = Cursor { at: from };
        // By a cursor, as above.
        loop {
            match cursor.step(self.bytes, end) {
                Step::Nop { next, .. } => cursor = next,
                Step::End { at } => {
                    if at + 4 == end {
                        return Ok(());
                    }
                    return Err(Refusal::Token.at(at));
                }
                Step::BeginNode { at, .. }
                | Step::EndNode { at, .. }
                | Step::Property { at, .. }
                | Step::Fault { at } => return Err(Refusal::Token.at(at)),
            }
        }
    }

    // What follows the root's contents, which found these containers.
    fn closed_tree(&self, at: usize, found: Containers) -> Result<Layout, RefusedAt>
        ensures { Closes self.now.bytes.now self.now.blocks at found (checked_outcome result) }
    {
        self.last_at(at)?;
        Ok(Layout {
            blocks: self.blocks,
            containers: found,
        })
    }

    // The walk over a tree whose blocks lie in it.
    fn walk_tree(&self) -> Result<Layout, RefusedAt>
        ensures { checked_outcome result
            ≡ judge self.now.bytes.now self.now.blocks
            (walk self.now.blocks.end before_root (tree_tokens self.now.bytes.now self.now.blocks self.now.blocks.start)) }
    {
        let root = self.root_at(self.blocks.start)?;
        let inner = self.contents(root.next.at, MOST_LEVELS - 1, root.found)?;
        self.closed_tree(inner.next.at, inner.found)
    }
}

// A tree, checked whole. Refusals: those of the header, and then the first faulty token's, 6, 7, 8 or 9, at its place.
pub fn check_tree(tree: &[u8]) -> Result<Layout, RefusedAt>
    ensures { checked_outcome result ≡ check_tree tree.now }
{
    let blocks = header::read_header(tree)?;
    let tree = Tree {
        bytes: tree,
        blocks,
    };
    tree.walk_tree()
}
