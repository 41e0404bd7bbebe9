// The enabled set of a record: the largest closed part of the permitted features.
#![tactic(auto)]

ghost use Rattle.std.specs.Prelude.{◌≡◌};
ghost use Rattle.enabled.specs.Answers.{
  members_of,
  members_in,
  nobody,
  enable as enable_of,
  enabled_outcome,
};

use closure::closed_part;
use permitted::Grants;
use positions::Set;
use record::Record;
use refusal::Refusal;

// The enabled set and its count.
#[derive(Clone, Copy)]
pub struct Enabled {
    pub set: Set,
    pub count: u32,
}

// Nobody is enabled, as it stands beside a refusal.
impl Default for Enabled {
    ghost is_default = { λ e. members_in e ≡ nobody };

    fn default() -> Enabled {
        Enabled {
            set: Set::default(),
            count: 0,
        }
    }
}

// Document 01: "the count is the number of ones in the set".
pub fn counted(set: Set) -> Enabled
    ensures { members_in result ≡ members_of set.words }
{
    Enabled {
        set,
        count: positions::members(set),
    }
}

// The enabled set, from record, level and grants alone: all at once where all are permitted. The slots are kept, and the record goes on to
// be examined: what is used once more after a call by value would be copied for it whole.
pub fn enable(r: Record, level: u32, g: Grants) -> Result<Enabled, Refusal>
    ensures { enabled_outcome result ≡ enable_of r level g }
{
    let n = r.count as usize;
    let slots = r.slots;
    let x = permitted::examine(r, level, g)?;
    if sets::subset(positions::below(n), x.set) {
        return Ok(counted(x.set));
    }
    Ok(counted(closed_part(&slots, &x.counts, n, x.set)))
}
