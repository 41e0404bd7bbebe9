// Names in a block of bytes compared, with each other and with given characters.
#![tactic(auto)]

ghost use Rattle.std.specs.Prelude.{◌≡◌};
ghost use Rattle.strings.specs.Strings.{text_at, ended};
ghost use Rattle.names.specs.Names.{same_text};

// Whether the names that begin at `p` and at `q`, in a block that ends at `end`, are the same characters.
pub fn same_name(s: &[u8], p: usize, q: usize, end: usize) -> bool
    ensures { result ≡ same_text (text_at s.now p end) (text_at s.now q end) }
{
    let stop = end.min(s.len());
    let Some(a) = s.get(p..stop) else {
        return false;
    };
    let Some(b) = s.get(q..stop) else {
        return false;
    };
    for (x, y) in a.iter().zip(b) {
        if x != y {
            return false;
        }
        if *x == 0 {
            return true;
        }
    }
    false
}

// Whether the name that begins at `from`, in a block that ends at `end`, has exactly some characters.
pub fn has_name(s: &[u8], from: usize, end: usize, name: &[u8]) -> bool
    ensures { result ≡ same_text (text_at s.now from end) (ended name.now) }
{
    let Some(block) = s.get(from..end.min(s.len())) else {
        return false;
    };
    if block.len() <= name.len() || block[name.len()] != 0 {
        return false;
    }
    for (b, c) in block.iter().zip(name) {
        if b != c || *b == 0 {
            return false;
        }
    }
    true
}
