// Unit text of a CPU, both ways.
ghost use Rattle.std.specs.Prelude.{◌≡◌, length};
ghost use Rattle.unit.specs.Unit.{read_unit, write_unit, after_unit};
ghost use Rattle.answers.specs.Answers.{written_outcome_c, unit_outcome_c};

use answers::{YebkuzanUnit, YebkuzanWritten};

// The unit number of a text: 20, then 12.
pub fn yebkuzan_read_unit(text: &[u8]) -> YebkuzanUnit
    ensures { unit_outcome_c result ≡ read_unit text.now }
{
    unit::read_unit(text).into()
}

// The shortest lower-case text of a unit number, into the front of a lent buffer: 18.
pub fn yebkuzan_write_unit(unit: u32, out: &mut [u8]) -> YebkuzanWritten
    ensures result_value { written_outcome_c result ≡ write_unit unit (length out.old) }
    ensures out_after { out.new ≡ after_unit unit out.old }
{
    match unit::write_unit(unit, out) {
        Ok(length) => YebkuzanWritten {
            number: 0,
            length: length as u32,
        },
        Err(refusal) => YebkuzanWritten {
            number: u32::from(refusal),
            length: 0,
        },
    }
}
