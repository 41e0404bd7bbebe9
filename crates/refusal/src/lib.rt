// The refusals of document 01, as one error enum.
#![tactic(auto)]

ghost use Rattle.std.specs.Prelude.{◌≡◌};
ghost use Rattle.refusal.specs.Refusal.{number_of, number_in, refused_at};

#[derive(Clone, Copy, Debug, PartialEq, Eq)]
pub enum Refusal {
    TreeLength,
    Magic,
    TreeSize,
    Version,
    BlockBounds,
    Token,
    Name,
    TooMany,
    Repeated,
    NotFound,
    PropertyForm,
    OutOfRange,
    UnknownPhandle,
    RecordForm,
    Level,
    Position,
    FeatureEnabled,
    BufferLength,
    NotAscending,
    UnitText,
}

// A refusal of a tree, and the offset in it where it was found.
#[derive(Clone, Copy, Debug, PartialEq, Eq)]
pub struct RefusedAt {
    pub refusal: Refusal,
    pub place: usize,
}

impl Refusal {
    // The refusal, found at a place.
    pub fn at(self, place: usize) -> RefusedAt
        ensures { result ≡ refused_at self place }
    {
        RefusedAt {
            refusal: self,
            place,
        }
    }
}

// The number of a refusal in document 01's table.
impl From<Refusal> for u32 {
    ghost from_gives = { λ refusal number. number ≡ number_of refusal };

    fn from(refusal: Refusal) -> u32 {
        match refusal {
            Refusal::TreeLength => 1,
            Refusal::Magic => 2,
            Refusal::TreeSize => 3,
            Refusal::Version => 4,
            Refusal::BlockBounds => 5,
            Refusal::Token => 6,
            Refusal::Name => 7,
            Refusal::TooMany => 8,
            Refusal::Repeated => 9,
            Refusal::NotFound => 10,
            Refusal::PropertyForm => 11,
            Refusal::OutOfRange => 12,
            Refusal::UnknownPhandle => 13,
            Refusal::RecordForm => 14,
            Refusal::Level => 15,
            Refusal::Position => 16,
            Refusal::FeatureEnabled => 17,
            Refusal::BufferLength => 18,
            Refusal::NotAscending => 19,
            Refusal::UnitText => 20,
        }
    }
}

// The number of the refusal that an outcome is; 0 where it is an answer.
pub fn number<T>(outcome: &Result<T, Refusal>) -> u32
    ensures { result ≡ number_in outcome.now }
{
    match outcome {
        Ok(_) => 0,
        Err(refusal) => u32::from(*refusal),
    }
}
