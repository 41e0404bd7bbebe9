// The reach table of a record: rows of dependencies with each position let through in turn; and the enabled set by a table.
#![tactic(auto)]

ghost use Rattle.std.specs.Prelude.{◌≡◌, ◌≤◌, ◌<◌};
ghost use Rattle.record.specs.Record.{most_features};
ghost use Rattle.tables.specs.Tables.{table_of};
ghost use Rattle.enabled.specs.Answers.{enabled_outcome};
ghost use Rattle.reach.specs.Answers.{reach_of, enable_by_table, reach_outcome};
ghost use Rattle.positions.specs.Sets.{room};
ghost use Rattle.reach.specs.Parts.{with_self, joined as joined_of, Joins, Reaches};

use enabled::Enabled;
use permitted::{Grants, USER};
use positions::Set;
use record::Record;
use refusal::Refusal;
use tables::{Rows, TABLE_WORDS, Table};

// The rows of a table, each with its own position put in: a round a row, each of one row read and one written.
fn with_selves(table: Table) -> Rows
    ensures { result.words ≡ table_of table.entry.n (with_self table.entry.words.now) }
{
    let mut words: [u64; TABLE_WORDS] = [0; TABLE_WORDS];
    for i in 0..table.n {
        tables::put_row(
            &mut words,
            i,
            positions::insert(tables::row(table.words, i), i),
        );
    }
    Rows { words }
}

// A set that has `k` takes in the members of another. By sets, and not by `member`: of this test the compiler makes fewer vector instructions.
fn joined(x: Set, y: Set, k: usize) -> Set
    requires { k < room }
    ensures { result.words ≡ joined_of x.words y.words k }
{
    if sets::subset(positions::insert(positions::empty(), k), x) {
        return sets::union(x, y);
    }
    x
}

// Each of the first `n` rows that has `k` takes in row `k`: `n` rounds, each of a read, a step and a write for each word of a row.
// No `Table`: its rows are only read, and these change.
fn join(table: &mut [u64; TABLE_WORDS], n: usize, k: usize)
    requires { (n ≤ most_features) × (k < n) }
    ensures { Joins n k table.old table.new }
{
    let y = tables::row(table, k);
    for i in 0..n {
        let x = joined(tables::row(table, i), y, k);
        tables::put_row(table, i, x);
    }
}

// The reach table of the rows of a table: each position is let through in turn, a round a row, each of all rows.
fn reach_rows(table: Table) -> Rows
    ensures { Reaches table.entry.words.now table.entry.n result.words }
{
    let mut rows = with_selves(table);
    for k in 0..table.n {
        join(&mut rows.words, table.n, k);
    }
    rows
}

// The reach table of a record, which is examined at user level without grants: only number 14 can refuse that.
pub fn reach_table(r: Record) -> Result<Rows, Refusal>
    ensures { reach_outcome result ≡ reach_of r }
{
    let none = Grants {
        hypervisor: positions::empty(),
        system: positions::empty(),
        hfscr: 0,
        fscr: 0,
    };
    let n = r.count as usize;
    let slots = r.slots;
    let x = permitted::examine(r, USER, none)?;
    let rows = tables::dependency_rows(&slots, &x.counts, n);
    Ok(reach_rows(Table::new(&rows.words, n)))
}

// The enabled set by the rows of a table that is handed in.
pub fn enable_by_table(r: Record, table: Rows, level: u32, g: Grants) -> Result<Enabled, Refusal>
    ensures { enabled_outcome result ≡ enable_by_table r table.words level g }
{
    let n = r.count as usize;
    let x = permitted::examine(r, level, g)?;
    Ok(enabled::counted(tables::inside_rows(&table.words, n, x.set)))
}
