// The shortest chain of dependencies from a feature left out to an unpermitted one.
#![tactic(auto)]

ghost use Rattle.std.specs.Prelude.{◌≡◌, ◌≤◌, ◌<◌, length};
ghost use Rattle.cells.specs.Buffer.{written};
ghost use Rattle.record.specs.Record.{most_features};
ghost use Rattle.chain.specs.Layers.{swept, set_at, Falls, way_down, AllBelow, ShowsSome, Tells};
ghost use Rattle.chain.specs.Parts.{BoundedPart};
ghost use Rattle.chain.specs.Chain.{chain as chain_of, after_chain, chain_outcome};
ghost use Rattle.chain.specs.Slots.{chain_by_slots, after_chain_by_slots};

use permitted::Grants;
use positions::Set;
use record::{MOST_FEATURES, Record, SLOTS};
use refusal::Refusal;
use tables::{Graph, TABLE_WORDS, Table};

// What sweeps leave of the permitted set, the set itself first: the first `held` of these layers hold a position, and the next does not. There is
// no heap, so that the number stands beside an array.
#[derive(Clone, Copy)]
struct Layers {
    held: usize,
    sets: [Set; MOST_FEATURES],
}

// The positions whose dependencies are all below a bound, and how many dependencies each of these has; 0 for every other position.
#[derive(Clone, Copy)]
struct Bounded {
    set: Set,
    counts: [u8; MOST_FEATURES],
}

// One sweep: the members of a set among the positions of a table whose rows are inside it. A round a row: each reads it and compares it, two
// steps a word.
fn layer(table: Table, s: Set) -> Set
    ensures { result.words ≡ swept table.entry.words.now table.entry.n s.words }
{
    sets::intersection(s, table.inside(s))
}

// The layers of a set that hold position `i`; a refusal where the position is enabled, so that every layer does. At most a round a row: each
// is one sweep, and compares two sets, a step a word.
fn fall(table: Table, p: Set, i: usize) -> Result<Layers, Refusal>
    requires { i < table.n }
    ensures { Falls table.entry.words.now table.entry.n p.words i result }
{
    let mut sets = [positions::empty(); MOST_FEATURES];
    let mut s = p;
    for k in 0..table.n {
        if !positions::member(s, i) {
            return Ok(Layers { held: k, sets });
        }
        let t = layer(table, s);
        if sets::subset(s, t) {
            return Err(Refusal::FeatureEnabled);
        }
        sets[k] = s;
        s = t;
    }
    if positions::member(s, i) {
        return Err(Refusal::FeatureEnabled);
    }
    Ok(Layers {
        held: table.n,
        sets,
    })
}

// The way from position `i` down the layers that hold it, into the front of a lent buffer: the lowest dependency outside the last of them,
// from there the lowest outside the one before, and so on; it ends where there is none. A round a layer: each reads a row and compares it, two
// steps a word.
fn write_chain(table: &[u64; TABLE_WORDS], l: Layers, i: usize, out: &mut [u8])
    requires { (l.held ≤ most_features)
        × (l.held < length out.old)
        × AllBelow most_features (way_down table.now (set_at l.sets) l.held i) }
    ensures { out.new
        ≡ written out.old 0 (way_down table.now (set_at l.sets) l.held i) }
{
    let mut at = i;
    for place in 0..l.held {
        out[place] = at as u8;
        let s = l.sets[l.held - (place + 1)];
        match sets::lowest_outside(tables::row(table, at), s) {
            Some(next) => at = next,
            None => return,
        }
    }
    out[l.held] = at as u8;
}

// The chain from position `i` of the graph that a table shows, where the members of a set are permitted: at most a sweep a row, each of all
// rows.
fn chain_in(table: Table, p: Set, i: usize, out: &mut [u8]) -> Result<u32, Refusal>
    requires { ShowsSome table.n table.words.now }
    ensures { Tells table.entry.words.now table.entry.n p.words i out.old out.new result }
{
    if table.n <= i {
        return Err(Refusal::Position);
    }
    let layers = fall(table, p, i)?;
    let length = layers.held + 1;
    if out.len() < length {
        return Err(Refusal::BufferLength);
    }
    write_chain(table.words, layers, i, out);
    Ok(length as u32)
}

// The shortest chain of dependencies from a feature that is left out to one that is not permitted, of equally short ones the one with the
// smallest positions: a byte a position, into the front of a lent buffer. Refusals: 14, 15, 16, 17, 18. At most 64 sweeps of 64 rows.
pub fn chain(
    r: Record,
    level: u32,
    g: Grants,
    position: u32,
    out: &mut [u8],
) -> Result<u32, Refusal>
    ensures result_value { chain_outcome result ≡ chain_of r level g position (length out.old) }
    ensures out_after { out.new ≡ after_chain r level g position out.old }
{
    let n = r.count as usize;
    let slots = r.slots;
    let x = permitted::examine(r, level, g)?;
    let rows = tables::dependency_rows(&slots, &x.counts, n);
    chain_in(Table::new(&rows.words, n), x.set, position as usize, out)
}

// Those of the positions of a graph whose dependencies are all among them: a round for each, of at most sixteen slots.
fn bounded_part(g: Graph) -> Bounded
    ensures { BoundedPart g.entry.slots.now g.entry.counts.now g.entry.n result }
{
    let mut set = positions::empty();
    let mut used: [u8; MOST_FEATURES] = [0; MOST_FEATURES];
    for i in 0..g.n {
        if form::slots_fit(g.slots, g.n as u32, i, tables::used(g.counts, i)) {
            set = positions::insert(set, i);
            used[i] = g.counts[i];
        }
    }
    Bounded { set, counts: used }
}

// The same chain by slots, counts and a set of permitted positions that are handed in, among the first `n` positions, of at most 64: one with
// a dependency that is none of these is not permitted. Refusals: 16, 17, 18. A pass over the slots, and at most 64 sweeps of 64 rows.
pub fn chain_by_slots(
    slots: &[u16; SLOTS],
    counts: &[u8; MOST_FEATURES],
    n: usize,
    p: Set,
    i: usize,
    out: &mut [u8],
) -> Result<u32, Refusal>
    ensures result_value { chain_outcome result
        ≡ chain_by_slots slots.now counts.now n p.words i (length out.old) }
    ensures out_after { out.new
        ≡ after_chain_by_slots slots.now counts.now n p.words i out.old }
{
    let g = Graph::new(slots, counts, n);
    let x = bounded_part(g);
    let rows = tables::dependency_rows(slots, &x.counts, n);
    let table = Table::new(&rows.words, n);
    chain_in(table, sets::intersection(p, x.set), i, out)
}
