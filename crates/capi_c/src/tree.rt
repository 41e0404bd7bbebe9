// The feature record of a tree.
ghost use Rattle.std.specs.Prelude.{◌≡◌};
ghost use Rattle.reading.specs.Reading.{read_record};
ghost use Rattle.capi.specs.Answers.{read_outcome_c};

use capi::YebkuzanRead;

// The feature record of a tree: 1 to 13, with a byte offset in the tree.
#[unsafe(no_mangle)]
pub extern "C" fn yebkuzan_read(tree: &[u8]) -> YebkuzanRead
    ensures { read_outcome_c result ≡ read_record tree.now }
{
    capi::yebkuzan_read(tree)
}
