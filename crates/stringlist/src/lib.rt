// Lists of strings, each ended by its zero byte (A3). Every function takes any slices.
#![tactic(auto)]

ghost use Rattle.std.specs.Prelude.{◌≡◌};
ghost use Rattle.stringlist.specs.StringList.{is_whole, split_at_zeros, string_place, is_only_string};
ghost use Rattle.stringlist.specs.Parts.{stop_in};

// A string of a list: its place, counted from 0, where it begins, and where its zero byte stands.
#[derive(Clone, Copy)]
struct StringAt {
    place: usize,
    from: usize,
    to: usize,
}

// Whether the last string of a list has its zero byte, if there is any.
fn is_whole(list: &[u8]) -> bool
    ensures { result ≡ is_whole list.now }
{
    list.last().copied().unwrap_or(0) == 0
}

// The first string that is `text` or stands at the place `sought`; else how many strings there are. Nothing is at a place of the list's
// length or more, and a text with a zero byte is no string: with these the scan counts all strings, or finds the one at a place.
fn scan(list: &[u8], text: &[u8], sought: usize) -> Result<StringAt, usize>
    ensures { result ≡ stop_in text.now sought 0 0 (split_at_zeros list.now) }
{
    let mut place = 0;
    // Strings are compared by `same_bytes` here and below: docs/PROMISES.md cites its promise for them.
    // A cursor, which each string moves on; the place is told whether a string is found or not.
    let mut from = 0;
    while let Some(to) = strings::text_end(list, from, list.len()) {
        if strings::same_bytes(&list[from..to], text) || place == sought {
            return Ok(StringAt { place, from, to });
        }
        from = to + 1;
        place += 1;
    }
    Err(place)
}

// At which place of a list a string first stands, counted from 0.
pub fn string_place(list: &[u8], text: &[u8]) -> Option<usize>
    ensures { result ≡ string_place list.now text.now }
{
    if !is_whole(list) {
        return None;
    }
    match scan(list, text, list.len()) {
        Ok(found) => Some(found.place),
        Err(_) => None,
    }
}

// Whether a string is the only one of a list.
pub fn is_only_string(list: &[u8], text: &[u8]) -> bool
    ensures { result ≡ is_only_string list.now text.now }
{
    // The scan stops at the first string, whichever it is.
    match scan(list, text, 0) {
        Ok(first) => first.to + 1 == list.len()
            && strings::same_bytes(&list[first.from..first.to], text),
        Err(_) => false,
    }
}
