// Strings that end in a zero byte, and equal runs of bytes. Every function takes any slices and any place.
#![tactic(auto)]

ghost use Rattle.std.specs.Prelude.{◌≡◌, ◌==◌, position};
ghost use Rattle.strings.specs.Strings.{text_at, ending_of, same_bytes};

// How many bytes stand before the first zero byte.
fn zero_place(bytes: &[u8]) -> Option<usize>
    ensures { result ≡ position (λ b. b == 0) bytes.now }
{
    bytes.iter().position(|b| *b == 0)
}

// Where the string that begins at `from` ends, in a block that ends at `end`.
pub fn text_end(s: &[u8], from: usize, end: usize) -> Option<usize>
    ensures { result ≡ ending_of from (text_at s.now from end) }
{
    let block = s.get(from..end.min(s.len()))?;
    let length = zero_place(block)?;
    Some(from + length)
}

// Whether two runs are the same bytes.
pub fn same_bytes(a: &[u8], b: &[u8]) -> bool
    ensures { result ≡ same_bytes a.now b.now }
{
    a == b
}
