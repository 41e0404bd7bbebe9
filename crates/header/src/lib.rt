// The header of a flattened tree.
#![tactic(auto)]

ghost use Rattle.std.specs.Prelude.{◌≡◌, ◌<◌, ◌^◌};
ghost use Rattle.cells.specs.Cells.{cell_at};
ghost use Rattle.header.specs.Header.{total_size, block_checks, judged, header, header_outcome};

use refusal::{Refusal, RefusedAt};

// The bytes of the header.
pub const HEADER_BYTES: usize = 40;

// The most bytes of a tree.
pub const LARGEST_TREE: usize = 65536;

const MAGIC: usize = 0xd00dfeed;

const VERSION: usize = 17;

// Where the structure block and the strings block begin and end, as places in the tree.
#[derive(Clone, Copy, Debug, PartialEq, Eq)]
pub struct Blocks {
    pub start: usize,
    pub end: usize,
    pub strings: usize,
    pub limit: usize,
}

// A cell of the header, as a place or a size. By `as`: usize has no From<u32>.
fn cell(tree: &[u8], at: usize) -> usize
    ensures { (result ≡ cell_at tree.now at) × (result < 2 ^ 32) }
{
    cells::cell_at(tree, at) as usize
}

// The blocks of a tree of `total` bytes.
fn read_blocks(tree: &[u8], total: usize) -> Result<Blocks, RefusedAt>
    requires { total ≡ total_size tree.now }
    ensures { header_outcome result ≡ judged (block_checks tree.now) tree.now }
{
    let start = cell(tree, 8);
    let end = start + cell(tree, 36);
    if start < HEADER_BYTES || total < end || start % 4 != 0 || (end - start) % 4 != 0 {
        return Err(Refusal::BlockBounds.at(8));
    }
    let strings = cell(tree, 12);
    let limit = strings + cell(tree, 32);
    if strings < HEADER_BYTES || total < limit {
        return Err(Refusal::BlockBounds.at(12));
    }
    Ok(Blocks {
        start,
        end,
        strings,
        limit,
    })
}

// The structure block and the strings block of a tree. Refusals, in order: 1, 2, 3, 1, 4, 5.
pub fn read_header(tree: &[u8]) -> Result<Blocks, RefusedAt>
    ensures { header_outcome result ≡ header tree.now }
{
    if tree.len() < HEADER_BYTES {
        return Err(Refusal::TreeLength.at(0));
    }
    if cell(tree, 0) != MAGIC {
        return Err(Refusal::Magic.at(0));
    }
    let total = cell(tree, 4);
    if LARGEST_TREE < total {
        return Err(Refusal::TreeSize.at(4));
    }
    if total < HEADER_BYTES || tree.len() < total {
        return Err(Refusal::TreeLength.at(4));
    }
    if cell(tree, 20) < VERSION {
        return Err(Refusal::Version.at(20));
    }
    if VERSION < cell(tree, 24) {
        return Err(Refusal::Version.at(24));
    }
    read_blocks(tree, total)
}
