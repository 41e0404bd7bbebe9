// The lister's text: the lines of a tree, one at a time.
#![tactic(auto)]

ghost use Rattle.std.specs.Prelude.{◌≡◌, ◌++◌, ◌+◌, ◌*◌, ◌<◌, ◌≤◌, EachIndex, slice_index, map, length as length-of};
ghost use Rattle.listing.specs.Digits.{decimal, hex_word};
ghost use Rattle.listing.specs.Listing.{
  all_granted,
  joined,
  state_text,
  head_line,
  feature_line,
  words_line,
  refused_line,
  write_line,
  after_line,
  line_outcome,
};
ghost use Rattle.listing.specs.Parts.{Puts, Room, name_in, IsRead, Composed};
ghost use Rattle.refusal.specs.Refusal.{number_of, number_in};

use names::MOST_NODE_NAME;
use permitted::{Grants, USER};
use record::{MOST_FEATURES, Record};
use refusal::{Refusal, RefusedAt};

// The most bytes that a line has: two digits, a space, a name, ` off `, and as many names as there may be features, each with the `>` or
// the line's end behind it.
pub const LONGEST_LINE: usize = 2 + 1 + MOST_NODE_NAME + 5 + MOST_FEATURES * (MOST_NODE_NAME + 1);

// All HFSCR and FSCR bits, and no own code.
fn all_granted() -> Grants
    ensures { result ≡ all_granted }
{
    Grants {
        hypervisor: positions::empty(),
        system: positions::empty(),
        hfscr: u64::MAX,
        fscr: u64::MAX,
    }
}

// A line that is composed: what it has so far, at the front of an array.
#[derive(Drop)]
struct Line {
    bytes: [u8; LONGEST_LINE],
    length: usize,
}

impl Line {
    // Puts a text behind what the line has, as each `put_` does.
    #[tactic(auto, using(crate::proofs::PutLaws::put_copied))]
    fn put(&mut self, text: &[u8])
        requires { Room self.old (length-of text.now) }
        ensures { Puts self.old text.now self.new }
    {
        let end = self.length + text.len();
        self.bytes[self.length..end].copy_from_slice(text);
        self.length = end;
    }

    fn put_decimal(&mut self, number: u64)
        requires { Room self.old (length-of (decimal number)) }
        ensures { Puts self.old (decimal number) self.new }
    {
        let mut digits = itoa::Buffer::new();
        self.put(digits.format(number).as_bytes());
    }

    // Puts a word in hexadecimal, its last digit first. No `write!`: it promises its text only on Ok, and `write_line` has no refusal for an Err.
    fn put_hex(&mut self, many: usize, number: u64)
        requires { Room self.old many }
        ensures { Puts self.old (hex_word many number) self.new }
    {
        let end = self.length + many;
        let mut rest = number;
        for place in (self.length..end).rev() {
            self.bytes[place] = characters::hex_digit(rest % 16);
            rest /= 16;
        }
        self.length = end;
    }

    // Puts a text and a number in decimal, of at most twenty digits.
    #[tactic(auto, using(crate::proofs::DigitLaws::decimal_short))]
    fn put_numbered(&mut self, text: &[u8], number: u64)
        requires { Room self.old (length-of text.now + 20) }
        ensures { Puts self.old (text.now ++ decimal number) self.new }
    {
        self.put(text);
        self.put_decimal(number);
    }

    // Puts a text and a word in hexadecimal.
    fn put_worded(&mut self, text: &[u8], many: usize, number: u64)
        requires { Room self.old (length-of text.now + many) }
        ensures { Puts self.old (text.now ++ hex_word many number) self.new }
    {
        self.put(text);
        self.put_hex(many, number);
    }

    #[tactic(auto, using(crate::proofs::DigitLaws::decimal_short))]
    fn put_refusal(&mut self, at: RefusedAt)
        requires { self.old.length ≡ 0 }
        ensures { Puts self.old (refused_line (number_of at.refusal) at.place) self.new }
    {
        self.put_numbered(b"refused ", u64::from(u32::from(at.refusal)));
        self.put_numbered(b" at ", at.place as u64);
        self.put(b"\n");
    }
}

// An accepted tree and its record.
#[derive(Drop)]
struct Accepted<'a> {
    tree: &'a [u8],
    record: Record,
    ghost read: { IsRead tree.now «record» },
}

impl Accepted<'_> {
    // The name of the feature at a position.
    fn name(&self, i: usize) -> &[u8]
        requires { i < self.now.record.count }
        ensures { (result.now ≡ name_in self.now.tree.now self.now.record i) × (length-of result.now ≤ MOST_NODE_NAME) }
    {
        let from = self.record.features[i].offset as usize + 4;
        match strings::text_end(self.tree, from, self.tree.len()) {
            Some(zero) => &self.tree[from..zero],
            None => &[],
        }
    }

    // Puts the names of the features at some positions, with `>` between them.
    fn put_names(&self, line: &mut Line, positions: &[u8])
        requires { Room line.old (length-of positions.now * (MOST_NODE_NAME + 1))
            × EachIndex positions.now (λ j. slice_index positions.now j < self.now.record.count) }
        ensures { Puts line.old (joined (map (name_in self.now.tree.now self.now.record) positions.now)) line.new }
    {
        let Some((first, others)) = positions.split_first() else {
            return;
        };
        line.put(self.name(usize::from(*first)));
        for i in others {
            line.put(b">");
            line.put(self.name(usize::from(*i)));
        }
    }

    // Puts whether a feature is on, and its chain where it is not.
    fn put_state(&self, line: &mut Line, i: u32)
        requires { (i < self.now.record.count) × Room line.old (5 + MOST_FEATURES * (MOST_NODE_NAME + 1)) }
        ensures { Puts line.old (state_text (name_in self.now.tree.now self.now.record) self.now.record i) line.new }
    {
        let mut positions: [u8; MOST_FEATURES] = [0; MOST_FEATURES];
        match chain::chain(self.record, USER, all_granted(), i, &mut positions) {
            Ok(length) => {
                line.put(b" off ");
                self.put_names(line, &positions[..length as usize]);
            }
            Err(_) => line.put(b" on"),
        }
    }

    #[tactic(auto, using(crate::proofs::DigitLaws::decimal_short))]
    fn put_head(&self, line: &mut Line)
        requires { line.old.length ≡ 0 }
        ensures { Puts line.old (head_line self.now.record) line.new }
    {
        let enabled = enabled::enable(self.record, USER, all_granted()).unwrap();
        line.put_numbered(b"isa ", u64::from(self.record.isa));
        line.put_numbered(b" features ", u64::from(self.record.count));
        line.put_numbered(b" enabled ", u64::from(enabled.count));
        line.put(b"\n");
    }

    #[tactic(auto, using(crate::proofs::StateLaws::feature_fits))]
    fn put_feature(&self, line: &mut Line, i: u32)
        requires { (i < self.now.record.count) × (line.old.length ≡ 0) }
        ensures { Puts line.old (feature_line (name_in self.now.tree.now self.now.record) self.now.record i) line.new }
    {
        line.put_decimal(u64::from(i));
        line.put(b" ");
        line.put(self.name(i as usize));
        self.put_state(line, i);
        line.put(b"\n");
    }

    #[tactic(auto, using(crate::proofs::DigitLaws::length_digits))]
    fn put_words(&self, line: &mut Line)
        requires { line.old.length ≡ 0 }
        ensures { Puts line.old (words_line self.now.record) line.new }
    {
        let words = words::words(self.record, USER, all_granted()).unwrap();
        line.put_worded(b"hwcap ", 8, u64::from(words.hwcap_first));
        line.put_worded(b" ", 8, u64::from(words.hwcap_second));
        line.put_worded(b" fscr ", 16, words.fscr);
        line.put_worded(b" hfscr ", 16, words.hfscr);
        line.put(b"\n");
    }

    // Puts line `k` of the tree's list.
    #[tactic(auto, using(crate::proofs::LineLaws::composes))]
    fn put_line(&self, line: &mut Line, k: u32) -> Result<(), Refusal>
        requires { line.old.length ≡ 0 }
        ensures { Composed self.now.tree.now k line.old line.new (number_in result) }
    {
        let count = self.record.count;
        if k == 0 {
            self.put_head(line);
        } else if k <= count {
            self.put_feature(line, k - 1);
        } else if k == count + 1 {
            self.put_words(line);
        } else {
            return Err(Refusal::Position);
        }
        Ok(())
    }
}

// Puts line `k` of the list of any tree into an empty line.
fn compose(line: &mut Line, tree: &[u8], k: u32) -> Result<(), Refusal>
    requires { line.old.length ≡ 0 }
    ensures { Composed tree.now k line.old line.new (number_in result) }
{
    match reader::read_record(tree) {
        Ok(record) => Accepted { tree, record }.put_line(line, k),
        Err(_) if k != 0 => Err(Refusal::Position),
        Err(at) => {
            line.put_refusal(at);
            Ok(())
        }
    }
}

// Line `k` of the list of a tree, counted from 0, into the front of a lent buffer; the list ends where 16 comes. Refusals: 16, 18. A
// buffer of `LONGEST_LINE` bytes is never too short. The tree is read anew for each line, so a whole list costs as many readings as it
// has lines, at most 66.
pub fn write_line(tree: &[u8], k: u32, out: &mut [u8]) -> Result<u32, Refusal>
    ensures result_value { line_outcome result ≡ write_line tree.now k (length-of out.old) }
    ensures out_after { out.new ≡ after_line tree.now k out.old }
{
    let mut line = Line {
        bytes: [0; LONGEST_LINE],
        length: 0,
    };
    compose(&mut line, tree, k)?;
    let length = line.length;
    if out.len() < length {
        return Err(Refusal::BufferLength);
    }
    out[..length].copy_from_slice(&line.bytes[..length]);
    Ok(length as u32)
}
