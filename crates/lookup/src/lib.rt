// A property of a CPU node, looked up in the node's own block of properties and then in that of its parent, `/cpus`.
#![tactic(auto)]

ghost use Rattle.std.specs.Prelude.{◌≡◌};
ghost use Rattle.properties.specs.Properties.{name_at};
ghost use Rattle.lookup.specs.Lookup.{
  block_of,
  lookup as lookup_in,
  reason,
  reason_number,
  looked_up,
  looked_outcome,
  part_of,
};
ghost use Rattle.lookup.specs.Parts.{name_in, Stands, Reads};

use properties::{Properties, StringsBlock};
use refusal::Refusal;
use tokens::{Cursor, Step};

// A property's token, the length of its value and its name's offset come before its value.
const HEAD: usize = 12;

// Where a property is: from its token to its value's last byte, in the one block or the other.
#[derive(Clone, Copy, Debug, PartialEq, Eq)]
pub enum Found {
    InCpu { from: usize, to: usize },
    InParent { from: usize, to: usize },
}

// Where a property is in a block: from its token to its value's last byte.
#[derive(Clone, Copy)]
struct Span {
    from: usize,
    to: usize,
}

// What stands at a place of a block: a property whose name is good and new, or a NOP.
#[derive(Clone, Copy)]
enum Entry {
    Named {
        offset: usize,
        span: Span,
        next: Cursor,
    },
    Skip(Cursor),
}

// Bytes that are a strings block as a whole.
fn whole(strings: &[u8]) -> StringsBlock<'_>
    ensures { name_at result.bytes.now result.from result.limit ≡ name_in strings.now }
{
    StringsBlock {
        bytes: strings,
        from: 0,
        limit: strings.len(),
    }
}

// What stands at a place of a block. At one token 6 comes before 7 and 9.
fn entry_at(block: &[u8], strings: &[u8], cursor: Cursor) -> Result<Entry, Refusal>
    ensures { Stands block.now strings.now cursor.at result }
{
    let end = block.len();
    match cursor.step(block, end) {
        Step::Property {
            at,
            length,
            name,
            next,
            ..
        } => {
            let properties = Properties {
                bytes: block,
                end,
                first: 0,
                strings: whole(strings),
            };
            properties.name_refusal(at, name)?;
            let span = Span {
                from: at,
                to: at + HEAD + length,
            };
            Ok(Entry::Named {
                offset: name,
                span,
                next,
            })
        }
        Step::Nop { next, .. } => Ok(Entry::Skip(next)),
        _ => Err(Refusal::Token),
    }
}

// A block, read to its end in one pass: where it has the first property of a name, or why it does not read as properties.
fn read_block(block: &[u8], strings: &[u8], name: &[u8]) -> Result<Option<Span>, Refusal>
    ensures { Reads name.now (block_of block.now strings.now) result }
{
    let all = whole(strings);
    let mut hit = None;
    let mut cursor = Cursor { at: 0 };
    // By a cursor, which each entry moves on: no index is counted.
    while cursor.at < block.len() {
        match entry_at(block, strings, cursor)? {
            Entry::Named { offset, span, next } => {
                if hit.is_none() && all.is_named(offset, name) {
                    hit = Some(span);
                }
                cursor = next;
            }
            Entry::Skip(next) => cursor = next,
        }
    }
    Ok(hit)
}

// Where a property of a name is, or why it is nowhere, in one pass over each block: each is read whole before it counts as found in
// either.
pub fn look_up(cpu: &[u8], parent: &[u8], strings: &[u8], name: &[u8]) -> Result<Found, Refusal>
    ensures { looked_outcome result
        ≡ looked_up cpu.now parent.now strings.now name.now }
{
    let in_cpu = read_block(cpu, strings, name)?;
    let in_parent = read_block(parent, strings, name)?;
    match (in_cpu, in_parent) {
        (Some(span), _) => Ok(Found::InCpu {
            from: span.from,
            to: span.to,
        }),
        (None, Some(span)) => Ok(Found::InParent {
            from: span.from,
            to: span.to,
        }),
        (None, None) => Err(Refusal::NotFound),
    }
}

// Where a property of a name is, in the CPU node's block or in its parent's.
pub fn find_property(cpu: &[u8], parent: &[u8], strings: &[u8], name: &[u8]) -> Option<Found>
    ensures { result ≡ lookup_in cpu.now parent.now strings.now name.now }
{
    look_up(cpu, parent, strings, name).ok()
}

// Document 01: "a part of the one block or of the other". The property of a name, from its token to its value's last byte; the empty
// part where there is none.
pub fn property_part<'a>(cpu: &'a [u8], parent: &'a [u8], strings: &[u8], name: &[u8]) -> &'a [u8]
    ensures { result.now
        ≡ part_of cpu.now parent.now
        (lookup_in cpu.now parent.now strings.now name.now) }
{
    match find_property(cpu, parent, strings, name) {
        Some(Found::InCpu { from, to }) => &cpu[from..to],
        Some(Found::InParent { from, to }) => &parent[from..to],
        None => &cpu[..0],
    }
}

// Why a property is not found: 6, 7 or 9 for a block that does not read as properties, the CPU node's first; then 10.
pub fn lookup_reason(cpu: &[u8], parent: &[u8], strings: &[u8], name: &[u8]) -> Option<Refusal>
    ensures { reason_number result ≡ reason cpu.now parent.now strings.now name.now }
{
    look_up(cpu, parent, strings, name).err()
}
