// Two sets of positions compared and joined, word by word.
#![tactic(auto)]

ghost use Rattle.std.specs.Prelude.{◌≡◌, ◌<◌, ℕ, slice_index};
ghost use Rattle.positions.specs.Below.{first_that};
ghost use Rattle.positions.specs.Sets.{is_subset, common, either, set_words, room, member_outside};

use positions::{Set, WORDS};

// Whether every member of a set is one of another: one test a word.
pub fn subset(a: Set, b: Set) -> bool
    ensures { result ≡ is_subset a.words b.words }
{
    for (w, word) in a.words.iter().enumerate() {
        if *word & b.words[w] != *word {
            return false;
        }
    }
    true
}

// The set of which each word is made by `join` of the words of two sets: one step a word.
fn joined<F: Fn(u64, u64) -> u64>(a: Set, b: Set, join: F) -> Set
    requires { F.IsAlwaysCallable join }
    ensures { (w : ℕ) → w < set_words → F.post join (slice_index a.words w) (slice_index b.words w) (slice_index result.words w) }
{
    let mut words = [0; WORDS];
    for (w, word) in words.iter_mut().enumerate() {
        *word = join(a.words[w], b.words[w]);
    }
    Set { words }
}

// The members of both of two sets.
pub fn intersection(a: Set, b: Set) -> Set
    ensures { result.words ≡ common a.words b.words }
{
    joined(a, b, |x, y| x & y)
}

// The members of either of two sets.
pub fn union(a: Set, b: Set) -> Set
    ensures { result.words ≡ either a.words b.words }
{
    joined(a, b, |x, y| x | y)
}

// The smallest position that is a member of the first set and not of the second, if there is one: one step a word.
pub fn lowest_outside(a: Set, b: Set) -> Option<usize>
    ensures { result ≡ first_that room (member_outside a.words b.words) }
{
    for (w, word) in a.words.iter().enumerate() {
        let outside = *word & !b.words[w];
        if outside != 0 {
            let i = 64 * w + outside.trailing_zeros() as usize;
            return Some(i);
        }
    }
    None
}
