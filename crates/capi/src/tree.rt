// The feature record of a tree.
ghost use Rattle.std.specs.Prelude.{◌≡◌};
ghost use Rattle.reading.specs.Reading.{read_record};
ghost use Rattle.capi.specs.Answers.{read_outcome_c};

use record::Record;

// A number with its place, or 0 with the record; a record of no features beside a number.
#[repr(C)]
#[derive(Clone, Copy)]
pub struct YebkuzanRead {
    pub number: u32,
    pub place: u32,
    pub record: Record,
}

// The feature record of a tree: 1 to 13, with a byte offset in the tree.
pub fn yebkuzan_read(tree: &[u8]) -> YebkuzanRead
    ensures { read_outcome_c result ≡ read_record tree.now }
{
    match reader::read_record(tree) {
        Ok(record) => YebkuzanRead {
            number: 0,
            place: 0,
            record,
        },
        Err(refused) => YebkuzanRead {
            number: refused.refusal.into(),
            place: refused.place as u32,
            record: reader::no_features(),
        },
    }
}
