// Nodes in a tree: the value of a property, the direct children, their names. Every public function takes any tree, blocks and place.
#![tactic(auto)]

ghost use Rattle.std.specs.Prelude.{◌≡◌, ◌≤◌, ◌<◌, min, length as length-of};
ghost use Rattle.strings.specs.Strings.{text_at};
ghost use Rattle.record.specs.Record.{most_features};
ghost use Rattle.walk.specs.Walk.{tree_tokens};
ghost use Rattle.nodes.specs.Nodes.{children_at};
ghost use Rattle.nodes.specs.Places.{tokens_in, held_in, behind_of, child_places, same_names, first_repeated};
ghost use Rattle.nodes.specs.Parts.{Moved};

use header::Blocks;
use properties::StringsBlock;
use record::MOST_FEATURES;
use tokens::{Cursor, Step};

// Where a property's value begins, and how many bytes it has.
#[derive(Clone, Copy, Debug, PartialEq, Eq)]
pub struct Extent {
    pub from: usize,
    pub length: usize,
}

// The token at a place of a node's contents: a child begins, with where its name begins and what is behind its begin token; or it is
// passed, with how deep the tokens behind it are inside the node's own nodes.
#[derive(Clone, Copy)]
enum Move {
    Child { at: usize, name: usize, next: usize },
    Past { depth: usize, next: usize },
}

// A node: its begin token's offset, and where its name and its contents begin; if the name does not end, the contents' place is the
// block's end, where no token is left.
#[derive(Clone, Copy, Debug, PartialEq, Eq)]
pub struct NodePlace {
    pub at: usize,
    pub name: usize,
    pub behind: usize,
}

// The children of a node, in tree order: the places of at most 64, and where one more begins. There is no heap, so that the count stands beside
// an array.
#[derive(Clone, Copy)]
pub struct ChildPlaces {
    pub count: usize,
    pub over: Option<usize>,
    pub places: [NodePlace; MOST_FEATURES],
}

fn value_within(tree: &[u8], b: Blocks, first: usize, name: &[u8]) -> Option<Extent>
    requires { b.end ≤ length-of tree.now }
    ensures { result ≡ held_in name.now (tree_tokens tree.now b first) }
{
    let end = b.end;
    let strings = StringsBlock {
        bytes: tree,
        from: b.strings,
        limit: b.limit,
    };
    let mut at = first;
    // A cursor, which each token moves on: no index is counted.
    while at < end {
        let here = Cursor { at };
        match here.step(tree, end) {
            Step::Property {
                value,
                length,
                name: offset,
                next,
                ..
            } => {
                if strings.is_named(offset, name) {
                    return Some(Extent {
                        from: value,
                        length,
                    });
                }
                at = next.at;
            }
            Step::Nop { next, .. } => at = next.at,
            _ => return None,
        }
    }
    None
}

// The value of the property of a name, among those that begin at `first`; none where the blocks do not lie in the tree.
pub fn value_of(tree: &[u8], b: Blocks, first: usize, name: &[u8]) -> Option<Extent>
    ensures { result ≡ held_in name.now (tokens_in tree.now b first) }
{
    if tree.len() < b.end {
        return None;
    }
    value_within(tree, b, first, name)
}

// Where the contents of a node begin, the tokens behind its begin token: its name begins at `from`, in a block that ends at `end`. None
// where the name does not end.
pub fn behind(tree: &[u8], end: usize, from: usize) -> Option<usize>
    ensures { result ≡ behind_of from (text_at tree.now from end) }
{
    let zero = strings::text_end(tree, from, end)?;
    Some(from + ((zero - from) / 4 + 1) * 4)
}

fn move_at(tree: &[u8], b: Blocks, depth: usize, at: usize) -> Move
    requires { (at < b.end) × (depth ≤ at) }
    ensures { Moved tree.now b depth at result }
{
    let end = b.end;
    let here = Cursor { at };
    match here.step(tree, end) {
        Step::BeginNode { at: t, name } => {
            let next = behind(tree, end, name.at).unwrap_or(end);
            if depth == 0 {
                return Move::Child {
                    at: t,
                    name: name.at,
                    next,
                };
            }
            Move::Past {
                depth: depth + 1,
                next,
            }
        }
        Step::EndNode { next, .. } => {
            if depth == 0 {
                return Move::Past { depth, next: end };
            }
            Move::Past {
                depth: depth - 1,
                next: next.at,
            }
        }
        Step::Property { next, .. } | Step::Nop { next, .. } => Move::Past {
            depth,
            next: next.at,
        },
        Step::End { .. } | Step::Fault { .. } => Move::Past { depth, next: end },
    }
}

// The direct children of a node whose contents begin at `first`.
pub fn child_places(tree: &[u8], b: Blocks, first: usize) -> ChildPlaces
    ensures { result ≡ child_places b.end (children_at 0 (tree_tokens tree.now b first)) }
{
    let none = NodePlace {
        at: 0,
        name: 0,
        behind: 0,
    };
    let mut fs = ChildPlaces {
        count: 0,
        over: None,
        places: [none; MOST_FEATURES],
    };
    let mut depth: usize = 0;
    let mut at = first;
    // A cursor, as above.
    while at < b.end {
        match move_at(tree, b, depth, at) {
            Move::Child { at: t, name, next } => {
                let n = fs.count;
                if MOST_FEATURES <= n {
                    fs.over = Some(t);
                    return fs;
                }
                fs.places[n] = NodePlace {
                    at: t,
                    name,
                    behind: next,
                };
                fs.count = n + 1;
                depth = 1;
                at = next;
            }
            Move::Past { depth: d, next } => {
                depth = d;
                at = next;
            }
        }
    }
    fs
}

// Document 01: "the first earlier feature with the same name ends the search". The first position, of at most 64, whose node has the name
// of an earlier one.
pub fn repeated_name(tree: &[u8], b: Blocks, fs: ChildPlaces) -> Option<usize>
    ensures { result ≡ first_repeated
        (same_names tree.now b.end fs.places)
        (min fs.count most_features) }
{
    let count = fs.count.min(MOST_FEATURES);
    let mut found = None;
    'search: for (i, p) in fs.places[..count].iter().enumerate() {
        for q in &fs.places[..i] {
            if matching::same_name(tree, q.name, p.name, b.end) {
                found = Some(i);
                break 'search;
            }
        }
    }
    found
}
