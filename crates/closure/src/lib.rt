// The largest closed part of a set of positions: passes over the slots until none takes a position out.
#![tactic(auto)]

ghost use Rattle.std.specs.Prelude.{◌≡◌, length};
ghost use Rattle.closure.specs.Slots.{closed_part};
ghost use Rattle.closure.specs.Parts.{
  all_members,
  slots_in,
  Tested,
  TestedMember,
  Needy,
  Passes,
  Picks,
};

use positions::{Set, WORDS};
use record::{MOST_FEATURES, SLOTS};
use tables::Graph;

// What is left of a set, and those of it that have dependencies, which were members when they were last tested.
#[derive(Clone, Copy)]
struct Left {
    members: Set,
    needy: Set,
}

// What is left once position `i` is tested, whose dependencies are handed in: it is taken out where one of these is no member. A round for
// each slot, up to the first that is none.
fn tested(slots: &[u16], i: usize, x: Left) -> Left
    ensures { Tested (all_members slots.now x.members.words) i x result }
{
    if slots
        .iter()
        .all(|slot| positions::member(x.members, usize::from(*slot)))
    {
        Left {
            members: x.members,
            needy: positions::insert(x.needy, i),
        }
    } else {
        Left {
            members: positions::remove(x.members, i),
            needy: x.needy,
        }
    }
}

// The same, where only a member that has dependencies is tested.
fn tested_member(slots: &[u16], i: usize, x: Left) -> Left
    ensures { TestedMember (all_members slots.now x.members.words) i (length slots.now) x result }
{
    if slots.is_empty() || !positions::member(x.members, i) {
        return x;
    }
    tested(slots, i, x)
}

// The first pass, over the positions from the first to the last: a round for each, of at most sixteen slots.
fn first_pass(g: Graph, s: Set) -> Left
    ensures { Passes (slots_in g.entry.slots.now g.entry.counts.now) g.entry.n s.words result }
{
    let mut x = Left {
        members: s,
        needy: positions::empty(),
    };
    for i in 0..g.n {
        x = tested_member(g.dependencies(i), i, x);
    }
    x
}

// The highest member of a set, if it has one: one step a word.
fn highest(s: Set) -> Option<usize>
    ensures { Picks s.words result }
{
    for w in (0..WORDS).rev() {
        let word = s.words[w];
        if word != 0 {
            let i = 64 * w + (63 - word.leading_zeros() as usize);
            return Some(i);
        }
    }
    None
}

// The lowest member of a set or the highest, if it has one: one of two calls, which a flag says in fewer words than a closure.
fn outermost(s: Set, lowest: bool) -> Option<usize>
    ensures { Picks s.words result }
{
    if lowest {
        sets::lowest_outside(s, positions::empty())
    } else {
        highest(s)
    }
}

// A later pass, over what has dependencies, from the lowest or from the highest on: a round for each, of at most sixteen slots.
fn next_pass(g: Graph, x: Left, upward: bool) -> Left
    requires { Needy (slots_in g.slots.now g.counts.now) g.n x.members.words x.needy.words }
    ensures { Passes (slots_in g.entry.slots.now g.entry.counts.now) g.entry.n x.members.words result }
{
    let mut todo = x.needy;
    let mut y = Left {
        members: x.members,
        needy: positions::empty(),
    };
    // By the members of a set that are left to do, and not by an index.
    while let Some(i) = outermost(todo, upward) {
        todo = positions::remove(todo, i);
        y = tested(g.dependencies(i), i, y);
    }
    y
}

// The largest part of a set that is closed under dependencies, among the first `n` positions, of at most 64: what passes up and down in turn
// leave, until one takes nothing out. Each pass but the last takes a member out, so there are at most 65 passes, the first of `n` positions and
// each later one of those left that have dependencies, each of at most sixteen slots; a chain of dependencies in one direction falls in the
// first pass or the second.
pub fn closed_part(slots: &[u16; SLOTS], counts: &[u8; MOST_FEATURES], n: usize, p: Set) -> Set
    ensures { result.words ≡ closed_part slots.now counts.now n p.words }
{
    let g = Graph::new(slots, counts, n);
    let mut old = sets::intersection(p, positions::below(g.n));
    let mut x = first_pass(g, old);
    let mut upward = false;
    // Until a pass takes nothing out: how many passes that takes is not known before.
    while !sets::subset(old, x.members) {
        old = x.members;
        x = next_pass(g, x, upward);
        upward = !upward;
    }
    x.members
}
