// Names of nodes and properties in a block of bytes: read once, character by character, no further than their limit.
#![tactic(auto)]

ghost use Rattle.std.specs.Prelude.{◌≡◌, ◌<◌, min, length, MatchOption};
ghost use Rattle.names.specs.Names.{name_outcome, node_name_at, property_name_at, root_name_at};
ghost use Rattle.names.specs.Room.{IsRoom};

// The most characters of a node name, unit address included.
pub const MOST_NODE_NAME: usize = 63;

// The most characters of a property name.
pub const MOST_PROPERTY_NAME: usize = 63;

const AT_SIGN: u8 = b'@';

// The bytes from `from` to its block's end, `most` at most; none where the block ends before `from`.
fn room(s: &[u8], from: usize, end: usize, most: usize) -> Option<&[u8]>
    ensures { MatchOption result (min end (length s.now) < from) (λ room. IsRoom s.now from end most room.now) }
{
    let block = s.get(from..end.min(s.len()))?;
    Some(&block[..most.min(block.len())])
}

// The length of the node name that begins at `from`, in a block that ends at `end`; none where it is not as it should be. Refusal: 7.
// Each part, before and behind the `@`, is `fresh` until it has a character.
pub fn node_name(s: &[u8], from: usize, end: usize) -> Option<usize>
    ensures { name_outcome result ≡ node_name_at s.now from end }
{
    let room = room(s, from, end, MOST_NODE_NAME + 1)?;
    let table = characters::entries();
    let mut split = false;
    let mut fresh = true;
    for (length, c) in room.iter().enumerate() {
        if characters::is_node_entry(table[usize::from(*c)]) {
            fresh = false;
        } else if fresh {
            return None;
        } else if *c == 0 {
            return Some(length);
        } else if *c != AT_SIGN || split {
            return None;
        } else {
            split = true;
            fresh = true;
        }
    }
    None
}

// The length of the property name that begins at `from`, in a block that ends at `end`; none where it is not as it should be. Refusal: 7.
pub fn property_name(s: &[u8], from: usize, end: usize) -> Option<usize>
    ensures { name_outcome result ≡ property_name_at s.now from end }
{
    let room = room(s, from, end, MOST_PROPERTY_NAME + 1)?;
    let table = characters::entries();
    for (length, c) in room.iter().enumerate() {
        if !characters::is_property_entry(table[usize::from(*c)]) {
            return (*c == 0 && 0 < length).then_some(length);
        }
    }
    None
}

// Whether the name that begins at `from`, in a block that ends at `end`, is empty, as the root's is.
pub fn root_name(s: &[u8], from: usize, end: usize) -> bool
    ensures { result ≡ root_name_at s.now from end }
{
    from < end.min(s.len()) && s[from] == 0
}
