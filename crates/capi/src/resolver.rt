// The resolver: what is permitted and enabled, and why a feature is left out.
ghost use Rattle.std.specs.Prelude.{◌≡◌, length};
ghost use Rattle.permitted.specs.Asked.{permitted as permitted_of};
ghost use Rattle.enabled.specs.Answers.{enable};
ghost use Rattle.reach.specs.Answers.{reach_of, enable_by_table};
ghost use Rattle.chain.specs.Chain.{chain as chain_of, after_chain};
ghost use Rattle.words.specs.Words.{words as words_answer};
ghost use Rattle.answers.specs.Answers.{permitted_outcome_c, enabled_outcome_c, reach_outcome_c, written_outcome_c, words_outcome_c};
ghost use Rattle.capi.specs.Answers.{form_number};

use answers::{YebkuzanEnabled, YebkuzanPermitted, YebkuzanReach, YebkuzanWords, YebkuzanWritten};
use permitted::Grants;
use record::Record;
use refusal::Refusal;
use tables::Rows;

// Whether a record is well formed: 0, or 14.
pub fn yebkuzan_well_formed(r: Record) -> u32
    ensures { result ≡ form_number r }
{
    if form::well_formed(r) {
        0
    } else {
        u32::from(Refusal::RecordForm)
    }
}

// The permitted features of a record at a level under grants: 14, 15.
pub fn yebkuzan_permitted(r: Record, level: u32, g: Grants) -> YebkuzanPermitted
    ensures { permitted_outcome_c result ≡ permitted_of r level g }
{
    permitted::permitted(r, level, g).into()
}

// The enabled set, from record, level and grants alone: 14, 15.
pub fn yebkuzan_enable(r: Record, level: u32, g: Grants) -> YebkuzanEnabled
    ensures { enabled_outcome_c result ≡ enable r level g }
{
    enabled::enable(r, level, g).into()
}

// The reach table of a record: 14.
pub fn yebkuzan_reach_table(r: Record) -> YebkuzanReach
    ensures { reach_outcome_c result ≡ reach_of r }
{
    reach::reach_table(r).into()
}

// The enabled set by the rows of a table that is handed in: 14, 15.
pub fn yebkuzan_enable_by_table(r: Record, table: Rows, level: u32, g: Grants) -> YebkuzanEnabled
    ensures { enabled_outcome_c result ≡ enable_by_table r table.words level g }
{
    reach::enable_by_table(r, table, level, g).into()
}

// The chain of a feature that is left out, a byte a position, into the front of a lent buffer: 14, 15, 16, 17, 18.
pub fn yebkuzan_chain(
    r: Record,
    level: u32,
    g: Grants,
    position: u32,
    out: &mut [u8],
) -> YebkuzanWritten
    ensures result_value { written_outcome_c result ≡ chain_of r level g position (length out.old) }
    ensures out_after { out.new ≡ after_chain r level g position out.old }
{
    chain::chain(r, level, g, position, out).into()
}

// The capability words, HFSCR and FSCR of a record at a level under grants: 14, 15.
pub fn yebkuzan_words(r: Record, level: u32, g: Grants) -> YebkuzanWords
    ensures { words_outcome_c result ≡ words_answer r level g }
{
    words::words(r, level, g).into()
}
