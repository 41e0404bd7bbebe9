// The properties of a node or block: their names, and that none is given twice.
#![tactic(auto)]

ghost use Rattle.std.specs.Prelude.{◌≡◌, ◌+◌, ◌<◌, min, [], set, true};
ghost use Rattle.strings.specs.Strings.{text_at, ended};
ghost use Rattle.names.specs.Names.{both, same_text};
ghost use Rattle.refusal.specs.Refusal.{number_in};
ghost use Rattle.tokens.specs.Steps.{pick};
ghost use Rattle.tokens.specs.Tokens.{tokens};
ghost use Rattle.properties.specs.Marks.{mark_from, mark_of, is_set, with_mark};
ghost use Rattle.properties.specs.Properties.{
  name_at,
  given_before,
  name_fault,
  read_properties,
  properties_outcome,
};

use refusal::{Refusal, RefusedAt};
use tokens::{Cursor, Step};

// A strings block: the bytes that hold it, and where it begins and ends in them.
#[derive(Clone, Copy, Debug, PartialEq, Eq)]
pub struct StringsBlock<'a> {
    pub bytes: &'a [u8],
    pub from: usize,
    pub limit: usize,
}

impl StringsBlock<'_> {
    // The place of a name: past the block's end where its offset is.
    fn name_place(&self, offset: usize) -> usize
        ensures { result ≡ min self.now.limit (self.now.from + offset) }
    {
        self.limit.min(self.from.saturating_add(offset))
    }

    // Whether the name at an offset has exactly some characters.
    pub fn is_named(&self, offset: usize, name: &[u8]) -> bool
        ensures { result
            ≡ same_text (name_at self.now.bytes.now self.now.from self.now.limit offset)
            (ended name.now) }
    {
        matching::has_name(self.bytes, self.name_place(offset), self.limit, name)
    }
}

// How many marks there are.
const MARKS: usize = 256;

// The mark of a name, from its length and four of its characters. Equal names have equal marks, and among the names of a real node few
// others have; the factors were chosen for that.
fn mark_of(name: &[u8]) -> usize
    ensures { result ≡ mark_from name.now }
{
    let n = name.len();
    if n == 0 {
        return 0;
    }
    let third = n / 3;
    let low = n - 1 - third;
    let last = n - 1;
    (n % MARKS * 37
        + usize::from(name[0]) * 59
        + usize::from(name[third]) * 5
        + usize::from(name[low]) * 13
        + usize::from(name[last]) * 17)
        % MARKS
}

// Whether a mark is set; it is set from then on. One past the end counts as set.
#[tactic(auto, unfolding(crate::specs::Marks::is_set))]
fn set_mark(marks: &mut [bool], mark: usize) -> bool
    ensures { (result ≡ is_set marks.old mark) × (marks.new ≡ set marks.old mark true) }
{
    if mark < marks.len() {
        let before = marks[mark];
        marks[mark] = true;
        before
    } else {
        true
    }
}

// The properties of one node or block: the block of tokens with its end, where the first of them begins, and the block of their names.
#[derive(Clone, Copy, Debug, PartialEq, Eq)]
pub struct Properties<'a> {
    pub bytes: &'a [u8],
    pub end: usize,
    pub first: usize,
    pub strings: StringsBlock<'a>,
}

impl Properties<'_> {
    // Whether one of them before `t` has the name at `place`.
    fn given(&self, t: usize, place: usize) -> bool
        ensures { result
            ≡ given_before t (text_at self.now.strings.bytes.now place self.now.strings.limit)
            (tokens self.now.bytes.now self.now.end (name_at self.now.strings.bytes.now self.now.strings.from self.now.strings.limit) self.now.first) }
    {
        let mut cursor = Cursor { at: self.first };
        // By a cursor, which each token moves on: no index is counted.
        while cursor.at < t {
            match cursor.step(self.bytes, self.end) {
                Step::Property { name, next, .. } => {
                    let b = self.strings;
                    if matching::same_name(b.bytes, b.name_place(name), place, b.limit) {
                        return true;
                    }
                    cursor = next;
                }
                Step::Nop { next, .. } => cursor = next,
                _ => return false,
            }
        }
        false
    }

    // Refusal 9 where one of them before `t` has the name at `place`.
    fn repetition(&self, t: usize, place: usize) -> Result<(), Refusal>
        ensures { number_in result
            ≡ pick (given_before t (text_at self.now.strings.bytes.now place self.now.strings.limit)
            (tokens self.now.bytes.now self.now.end (name_at self.now.strings.bytes.now self.now.strings.from self.now.strings.limit) self.now.first)) 9 0 }
    {
        if self.given(t, place) {
            return Err(Refusal::Repeated);
        }
        Ok(())
    }

    // The refusal of the name at an offset of the strings block, of a property at `t`: 7, then 9.
    pub fn name_refusal(&self, t: usize, offset: usize) -> Result<(), Refusal>
        ensures { number_in result
            ≡ name_fault (name_at self.now.strings.bytes.now self.now.strings.from self.now.strings.limit offset)
            (given_before t (name_at self.now.strings.bytes.now self.now.strings.from self.now.strings.limit offset)
            (tokens self.now.bytes.now self.now.end (name_at self.now.strings.bytes.now self.now.strings.from self.now.strings.limit) self.now.first)) }
    {
        let b = self.strings;
        let place = b.name_place(offset);
        names::property_name(b.bytes, place, b.limit).ok_or(Refusal::Name)?;
        self.repetition(t, place)
    }

    // The same, where `marks` has the marks of the earlier names: 9 is looked for only if the name's mark is set, and the mark is set then.
    fn marked_refusal(&self, t: usize, offset: usize, marks: &mut [bool]) -> Result<(), Refusal>
        ensures result_value { number_in result
            ≡ name_fault (name_at self.now.strings.bytes.now self.now.strings.from self.now.strings.limit offset)
            (both (is_set marks.old (mark_of (name_at self.now.strings.bytes.now self.now.strings.from self.now.strings.limit offset)))
            (given_before t (name_at self.now.strings.bytes.now self.now.strings.from self.now.strings.limit offset)
            (tokens self.now.bytes.now self.now.end (name_at self.now.strings.bytes.now self.now.strings.from self.now.strings.limit) self.now.first))) }
        ensures marks_after { marks.new ≡ with_mark (name_at self.now.strings.bytes.now self.now.strings.from self.now.strings.limit offset) marks.old }
    {
        let b = self.strings;
        let place = b.name_place(offset);
        let length = names::property_name(b.bytes, place, b.limit).ok_or(Refusal::Name)?;
        if set_mark(marks, mark_of(&b.bytes[place..][..length])) {
            self.repetition(t, place)
        } else {
            Ok(())
        }
    }

    // All of them, up to the first token that is neither a property nor a NOP: that token's place. Refusals: 7, 9, at the property's
    // token. At most 63 bytes of a name are read; the properties before it are looked at again only where one of them has the name's
    // mark.
    pub fn read_properties(&self) -> Result<usize, RefusedAt>
        ensures { properties_outcome result ≡ read_properties self.now.end []
            (tokens self.now.bytes.now self.now.end (name_at self.now.strings.bytes.now self.now.strings.from self.now.strings.limit) self.now.first) }
    {
        let mut marks = [false; MARKS];
        let mut cursor = Cursor { at: self.first };
        // By a cursor, as above; the token that ends the properties ends the loop.
        loop {
            match cursor.step(self.bytes, self.end) {
                Step::Property { at, name, next, .. } => {
                    let read = self.marked_refusal(at, name, &mut marks);
                    read.map_err(|refusal| refusal.at(at))?;
                    cursor = next;
                }
                Step::Nop { next, .. } => cursor = next,
                Step::BeginNode { at, .. }
                | Step::EndNode { at, .. }
                | Step::End { at }
                | Step::Fault { at } => return Ok(at),
            }
        }
    }
}
