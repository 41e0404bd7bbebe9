// Big-endian cells in byte slices. Every public function takes any slice and any place.
#![tactic(auto)]

ghost use Rattle.std.specs.Prelude.{◌≡◌};
ghost use Rattle.cells.specs.Cells.{byte_at, cell_at, word_at};

// The byte at a place; zero past the end.
pub fn byte_at(s: &[u8], at: usize) -> u8
    ensures { result ≡ byte_at s.now at }
{
    s.get(at).copied().unwrap_or(0)
}

// The big-endian number of the four bytes from a place on; bytes past the end are zero.
pub fn cell_at(s: &[u8], at: usize) -> u32
    ensures { result ≡ cell_at s.now at }
{
    let Some(rest) = s.get(at..) else {
        return 0;
    };
    match rest {
        [a, b, c, d, ..] => u32::from_be_bytes([*a, *b, *c, *d]),
        _ => u32::from_be_bytes([byte_at(rest, 0), byte_at(rest, 1), byte_at(rest, 2), 0]),
    }
}

// The number of the two cells from a place on, the first the higher.
pub fn word_at(s: &[u8], at: usize) -> u64
    ensures { result ≡ word_at s.now at }
{
    let Some(rest) = s.get(at..) else {
        return 0;
    };
    let high = u64::from(cell_at(rest, 0));
    let low = u64::from(cell_at(rest, 4));
    high * 0x1_0000_0000 + low
}
