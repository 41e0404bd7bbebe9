// Positions below a bound, the bits of words, and sets of positions.
#![tactic(auto)]

ghost use Rattle.std.specs.Prelude.{◌≡◌, ◌<◌};
ghost use Rattle.positions.specs.Bits.{bit};
ghost use Rattle.positions.specs.Sets.{
  set_words,
  has,
  set_of,
  no_members,
  with_member,
  without_member,
  word_below,
  first_positions,
  member_count,
};

// The bits of a word.
pub const WORD_BITS: u32 = 64;

pub const WORDS: usize = 1;

// Bit i % 64 of word i / 64 is set where position i is a member.
#[repr(C)]
#[derive(Clone, Copy)]
pub struct Set {
    pub words: [u64; WORDS],
}

// Whether a bit of a word is set, the lowest being bit 0.
#[tactic(auto, using(crate::proofs::BitLaws::bit_test))]
pub fn bit_set(word: u64, i: u32) -> bool
    ensures { result ≡ bit word i }
{
    i < WORD_BITS && (word >> i) % 2 != 0
}

// The set with no members.
pub fn empty() -> Set
    ensures { result.words ≡ set_of no_members }
{
    Set { words: [0; WORDS] }
}

// The set with no members, as it stands beside a refusal.
impl Default for Set {
    ghost is_default = { λ set. set.words ≡ set_of no_members };

    fn default() -> Set {
        empty()
    }
}

// Whether a position is a member: none is past the last word.
pub fn member(s: Set, i: usize) -> bool
    ensures { result ≡ has s.words i }
{
    let w = i / 64;
    w < WORDS && (s.words[w] >> (i % 64)) % 2 != 0
}

// A set with a position; the same set where the position is past the last word.
pub fn insert(mut s: Set, i: usize) -> Set
    ensures { result.words ≡ with_member s.words i }
{
    let w = i / 64;
    if w < WORDS {
        s.words[w] |= 1u64 << (i % 64);
    }
    s
}

// A set without a position.
pub fn remove(mut s: Set, i: usize) -> Set
    ensures { result.words ≡ without_member s.words i }
{
    let w = i / 64;
    if w < WORDS {
        s.words[w] &= !(1u64 << (i % 64));
    }
    s
}

// Word `w` of the set of the positions below `n`: all ones, none, or those of the lowest bits.
fn word_below(n: usize, w: usize) -> u64
    requires { w < set_words }
    ensures { result ≡ word_below n w }
{
    let left = n.saturating_sub(64 * w);
    if left < 64 {
        (1u64 << left) - 1
    } else {
        u64::MAX
    }
}

// The positions below a bound: one step a word.
pub fn below(n: usize) -> Set
    ensures { result.words ≡ first_positions n }
{
    let mut t = empty();
    for (w, word) in t.words.iter_mut().enumerate() {
        *word = word_below(n, w);
    }
    t
}

// How many members a set has: one step a word.
pub fn members(s: Set) -> u32
    ensures { result ≡ member_count s.words }
{
    let mut n: u32 = 0;
    for word in s.words {
        n += word.count_ones();
    }
    n
}
