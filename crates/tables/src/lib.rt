// Tables of sets of positions: a row for each position, the rows of dependencies, and the positions whose rows are inside a set.
#![tactic(auto)]

ghost use Rattle.std.specs.Prelude.{◌≡◌, ◌≤◌, min, replicate};
ghost use Rattle.record.specs.Record.{most_features};
ghost use Rattle.tables.specs.Tables.{table_words, row_or_none, dependency_table, rows_inside};
ghost use Rattle.tables.specs.Slots.{used_slots, own_slots};
ghost use Rattle.tables.specs.Parts.{row_put, slot_set, added_in};

use positions::{Set, WORDS};
use record::{MOST_DEPENDENCIES, MOST_FEATURES, SLOTS};

pub const TABLE_WORDS: usize = WORDS * MOST_FEATURES;

// Document 01: "The reach table has 64 rows"; the words of row i are the set at position i.
#[repr(C)]
#[derive(Clone, Copy)]
pub struct Rows {
    pub words: [u64; TABLE_WORDS],
}

// Rows of no members, as they stand beside a refusal.
impl Default for Rows {
    ghost is_default = { λ rows. rows.words ≡ replicate table_words 0 };

    fn default() -> Rows {
        Rows {
            words: [0; TABLE_WORDS],
        }
    }
}

// The rows of the first `n` positions, in the words of a table.
#[derive(Clone, Copy)]
pub struct Table<'a> {
    pub words: &'a [u64; TABLE_WORDS],
    pub n: usize,
    ghost few: { n ≤ most_features },
}

impl<'a> Table<'a> {
    // The rows of the first `n` positions, of at most 64.
    pub fn new(words: &'a [u64; TABLE_WORDS], n: usize) -> Table<'a>
        ensures words { result.words.now ≡ words.now }
        ensures n { result.n ≡ min n most_features }
    {
        let rows = n.min(MOST_FEATURES);
        Table { words, n: rows }
    }

    // Those of the positions whose rows hold only members of `p`: a round a row, each a read and a test a word.
    pub fn inside(self, p: Set) -> Set
        ensures { result.words ≡ rows_inside self.entry.words.now self.entry.n p.words }
    {
        let mut s = positions::empty();
        for i in 0..self.n {
            s = added(s, row(self.words, i), p, i);
        }
        s
    }
}

// The set in a row of a table, empty from row 64 on: a round and one read for each word of a row. A slice copied here costs a quarter of the
// reach table's time.
pub fn row(table: &[u64; TABLE_WORDS], i: usize) -> Set
    ensures { result.words ≡ row_or_none table.now i }
{
    let mut s = positions::empty();
    if i < MOST_FEATURES {
        let first = WORDS * i;
        for w in 0..WORDS {
            s.words[w] = table[first + w];
        }
    }
    s
}

// A row of a table is replaced; there are 64, and none past the last: a round and one write for each word of a row.
pub fn put_row(table: &mut [u64; TABLE_WORDS], i: usize, s: Set)
    ensures { table.new ≡ row_put table.old i s.words }
{
    if i >= MOST_FEATURES {
        return;
    }
    let first = WORDS * i;
    for w in 0..WORDS {
        table[first + w] = s.words[w];
    }
}

// How many of its sixteen slots a position uses; none past the last of 64.
#[tactic(auto, unfolding(crate::specs::Slots::used_slots))]
pub fn used(counts: &[u8; MOST_FEATURES], i: usize) -> usize
    ensures { result ≡ used_slots counts.now i }
{
    counts
        .get(i)
        .map_or(0, |n| usize::from(*n).min(MOST_DEPENDENCIES))
}

// The dependencies of the first `n` positions: the slots, sixteen to a position, and how many of its own each uses.
#[derive(Clone, Copy)]
pub struct Graph<'a> {
    pub slots: &'a [u16; SLOTS],
    pub counts: &'a [u8; MOST_FEATURES],
    pub n: usize,
    ghost few: { n ≤ most_features },
}

impl<'a> Graph<'a> {
    // The graph of the first `n` positions, of at most 64.
    pub fn new(slots: &'a [u16; SLOTS], counts: &'a [u8; MOST_FEATURES], n: usize) -> Graph<'a>
        ensures slots { result.slots.now ≡ slots.now }
        ensures counts { result.counts.now ≡ counts.now }
        ensures n { result.n ≡ min n most_features }
    {
        let n = n.min(MOST_FEATURES);
        Graph { slots, counts, n }
    }

    // The slots that a position uses; none past the last of 64, for which the part begins at the end of all.
    pub fn dependencies(self, i: usize) -> &'a [u16]
        ensures { result.now ≡ own_slots self.entry.slots.now self.entry.counts.now i }
    {
        let slots = self.slots;
        let first = MOST_DEPENDENCIES * i.min(MOST_FEATURES);
        &slots[first..first + used(self.counts, i)]
    }
}

// The set of the slots that a position uses: a round for each slot, which changes one word.
fn dependency_set(g: Graph, i: usize) -> Set
    ensures { result.words ≡ slot_set g.entry.slots.now i (used_slots g.entry.counts.now i) }
{
    let mut s = positions::empty();
    for slot in g.dependencies(i) {
        s = positions::insert(s, usize::from(*slot));
    }
    s
}

// The first slots of each of `n` positions, as many as are counted, as rows: at most 64 rounds, each of at most sixteen slots and one row.
pub fn dependency_rows(slots: &[u16; SLOTS], counts: &[u8; MOST_FEATURES], n: usize) -> Rows
    ensures { result.words ≡ dependency_table slots.now counts.now n }
{
    let g = Graph::new(slots, counts, n);
    let mut words = [0; TABLE_WORDS];
    for i in 0..g.n {
        put_row(&mut words, i, dependency_set(g, i));
    }
    Rows { words }
}

// A set with `i` where the set `x` is inside `p`.
#[tactic(auto, unfolding(crate::specs::Parts::added_in))]
fn added(s: Set, x: Set, p: Set, i: usize) -> Set
    ensures { result.words ≡ added_in s.words x.words p.words i }
{
    if sets::subset(x, p) {
        positions::insert(s, i)
    } else {
        s
    }
}

// Those of the first `n` positions whose rows hold only members of `p`: at most 64 rounds, each of one row: a read and a test a word.
pub fn inside_rows(table: &[u64; TABLE_WORDS], n: usize, p: Set) -> Set
    ensures { result.words ≡ rows_inside table.now (min n most_features) p.words }
{
    Table::new(table, n).inside(p)
}
