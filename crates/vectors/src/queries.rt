// What is asked of the resolver, read from the bytes of a vector.
ghost use Rattle.std.specs.Prelude.{◌≤◌, IfSome};

use permitted::Grants;
use positions::Set;
use record::{Feature, MOST_DEPENDENCIES, MOST_FEATURES, Record};
use tables::{Rows, TABLE_WORDS};

// 2^57: a number below it has room for seven bits more.
const SEVEN_LEFT: u64 = 0x200000000000000;

// A place in a vector that moves on with what is read; none, once the vector had something else there. Numbers read at no place are 0.
#[derive(Clone, Copy)]
pub(crate) struct Cursor {
    at: Option<usize>,
}

// A level and grants, asked of a record.
#[derive(Clone, Copy)]
pub(crate) struct Asked {
    pub record: Record,
    pub level: u32,
    pub grants: Grants,
}

// The lowest 32 bits of a number.
pub(crate) fn narrow(number: u64) -> u32 {
    (number % 0x100000000) as u32
}

fn set_of(mask: u64) -> Set {
    let mut set = positions::empty();
    set.words[0] = mask;
    set
}

impl Cursor {
    pub(crate) fn new() -> Cursor {
        Cursor { at: Some(0) }
    }

    // Whether all of a vector is read, and nothing else stood in it.
    pub(crate) fn is_at_end(self, value: &[u8]) -> bool {
        self.at == Some(value.len())
    }

    // A number: seven bits a byte, the highest first, with the top bit set in all bytes but the last.
    pub(crate) fn number(&mut self, value: &[u8]) -> u64 {
        let Some(from) = self.at else {
            return 0;
        };
        let mut number: u64 = 0;
        for at in from..value.len() {
            let byte = u64::from(value[at]);
            number = number % SEVEN_LEFT * 128 + byte % 128;
            if byte < 128 {
                self.at = Some(at + 1);
                return number;
            }
        }
        self.at = None;
        0
    }

    // The bytes of this many, of a vector of `room` bytes: from where to where, if they fit.
    pub(crate) fn bytes(&mut self, length: u64, room: usize) -> Option<(usize, usize)>
        ensures { IfSome result (λ part. (part.0 ≤ part.1) × (part.1 ≤ room)) }
    {
        let start = self.at?;
        if room < start || ((room - start) as u64) < length {
            self.at = None;
            return None;
        }
        let end = start + length as usize;
        self.at = Some(end);
        Some((start, end))
    }

    fn feature(&mut self, value: &[u8]) -> Feature {
        Feature {
            offset: narrow(self.number(value)),
            given: narrow(self.number(value)),
            isa: narrow(self.number(value)),
            usable_privilege: narrow(self.number(value)),
            hv_support: narrow(self.number(value)),
            os_support: narrow(self.number(value)),
            hfscr_bit_nr: narrow(self.number(value)),
            fscr_bit_nr: narrow(self.number(value)),
            hwcap_bit_nr: narrow(self.number(value)),
            phandle: narrow(self.number(value)),
            dependencies: narrow(self.number(value)),
        }
    }

    // One more row of a record: a position, its feature, and some of its slots, from the first on.
    fn row(&mut self, value: &[u8], record: &mut Record) {
        let position = self.number(value);
        if MOST_FEATURES as u64 <= position {
            self.at = None;
            return;
        }
        let feature = self.feature(value);
        let many = self.number(value);
        if (MOST_DEPENDENCIES as u64) < many {
            self.at = None;
            return;
        }
        record.features[position as usize] = feature;
        for j in 0..many as usize {
            let slot = self.number(value) % 65536;
            record.slots[MOST_DEPENDENCIES * position as usize + j] = slot as u16;
        }
    }

    // A record: its isa, its count, how many rows it has, and these; zeros in what no row gives.
    pub(crate) fn record(&mut self, value: &[u8]) -> Record {
        let mut record = reader::no_features();
        record.isa = narrow(self.number(value));
        record.count = narrow(self.number(value));
        for _ in 0..self.number(value) {
            self.row(value, &mut record);
        }
        record
    }

    // A level and grants, asked of a record.
    pub(crate) fn asked(&mut self, value: &[u8], record: Record) -> Asked {
        Asked {
            record,
            level: narrow(self.number(value)),
            grants: Grants {
                hypervisor: set_of(self.number(value)),
                system: set_of(self.number(value)),
                hfscr: self.number(value),
                fscr: self.number(value),
            },
        }
    }

    // The rows of a table.
    pub(crate) fn rows(&mut self, value: &[u8]) -> Rows {
        let mut words: [u64; TABLE_WORDS] = [0; TABLE_WORDS];
        for word in words.iter_mut() {
            *word = self.number(value);
        }
        Rows { words }
    }
}
