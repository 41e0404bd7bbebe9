// Answers as C takes them: the number of a refusal in the place of the enum, which cannot cross to C, and the value or zeros beside it.
#![tactic(auto)]

ghost use Rattle.std.specs.Prelude.{◌≡◌};
ghost use Rattle.sizes.specs.Sizes.{sizes_outcome};
ghost use Rattle.segments.specs.Segments.{segments_outcome};
ghost use Rattle.radix.specs.Radix.{radix_outcome};
ghost use Rattle.attributes.specs.Attributes.{pa_outcome, pi_outcome, bus_outcome};
ghost use Rattle.unit.specs.Unit.{unit_outcome};
ghost use Rattle.permitted.specs.Asked.{permitted_outcome};
ghost use Rattle.enabled.specs.Answers.{enabled_outcome};
ghost use Rattle.reach.specs.Answers.{reach_outcome};
ghost use Rattle.chain.specs.Chain.{chain_outcome};
ghost use Rattle.words.specs.Words.{words_outcome};
ghost use Rattle.refusal.specs.Refusal.{number_in};
ghost use Rattle.answers.specs.Answers.{IsNumbered, value_in, sizes_outcome_c, segments_outcome_c, radix_outcome_c, pa_outcome_c, pi_outcome_c, bus_outcome_c, unit_outcome_c, string_place_outcome_c, place_outcome, permitted_outcome_c, enabled_outcome_c, reach_outcome_c, written_outcome_c, words_outcome_c};

use attributes::{PaTable, PiTable};
use enabled::Enabled;
use positions::Set;
use radix::RadixTable;
use refusal::Refusal;
use segments::SegmentTable;
use sizes::SizeTable;
use tables::Rows;
use words::FeatureWords;

// A number, or 0 with the sizes; zeros beside a number.
#[repr(C)]
#[derive(Clone, Copy)]
pub struct YebkuzanSizes {
    pub number: u32,
    pub table: SizeTable,
}

// A number, or 0 with the segments' page sizes; zeros beside a number.
#[repr(C)]
#[derive(Clone, Copy)]
pub struct YebkuzanSegments {
    pub number: u32,
    pub table: SegmentTable,
}

// A number, or 0 with the radix encodings; zeros beside a number.
#[repr(C)]
#[derive(Clone, Copy)]
pub struct YebkuzanRadixEncodings {
    pub number: u32,
    pub table: RadixTable,
}

// A number, or 0 with the attributes; zeros beside a number.
#[repr(C)]
#[derive(Clone, Copy)]
pub struct YebkuzanPaFeatures {
    pub number: u32,
    pub table: PaTable,
}

// A number, or 0 with the bytes; zeros beside a number.
#[repr(C)]
#[derive(Clone, Copy)]
pub struct YebkuzanPiFeatures {
    pub number: u32,
    pub table: PiTable,
}

// A number, or 0 with the frequency; 0 beside a number.
#[repr(C)]
#[derive(Clone, Copy)]
pub struct YebkuzanBusFrequency {
    pub number: u32,
    pub frequency: u64,
}

// A number, or 0 with the unit number; 0 beside a number.
#[repr(C)]
#[derive(Clone, Copy)]
pub struct YebkuzanUnit {
    pub number: u32,
    pub unit: u32,
}

// A number, or 0 with the place of a string in a list; 0 beside a number.
#[repr(C)]
#[derive(Clone, Copy)]
pub struct YebkuzanStringPlace {
    pub number: u32,
    pub place: usize,
}

// A number, or 0 with the set of permitted positions; zeros beside a number.
#[repr(C)]
#[derive(Clone, Copy)]
pub struct YebkuzanPermitted {
    pub number: u32,
    pub set: Set,
}

// A number, or 0 with the enabled set and its count; zeros beside a number.
#[repr(C)]
#[derive(Clone, Copy)]
pub struct YebkuzanEnabled {
    pub number: u32,
    pub count: u32,
    pub set: Set,
}

// A number, or 0 with the reach table; zeros beside a number.
#[repr(C)]
#[derive(Clone, Copy)]
pub struct YebkuzanReach {
    pub number: u32,
    pub rows: Rows,
}

// A number, or 0 with how many bytes were put into the front of a lent buffer; 0 beside a number.
#[repr(C)]
#[derive(Clone, Copy)]
pub struct YebkuzanWritten {
    pub number: u32,
    pub length: u32,
}

// A number, or 0 with the two capability words, HFSCR and FSCR; zeros beside a number.
#[repr(C)]
#[derive(Clone, Copy)]
pub struct YebkuzanWords {
    pub number: u32,
    pub hwcap_first: u32,
    pub hwcap_second: u32,
    pub hfscr: u64,
    pub fscr: u64,
}

// The number of an outcome, 0 for an answer, and the answer, or zeros beside a refusal: the type's default, which makes the value known
// where it can be one value alone.
pub fn numbered<T: Default>(outcome: Result<T, Refusal>) -> (u32, T)
    ensures is_numbered { IsNumbered T.is_default outcome result.0 result.1 }
    ensures number { result.0 ≡ number_in outcome }
    ensures value { (zeros : T) → ((a : T) → T.is_default a → a ≡ zeros) → result.1 ≡ value_in zeros outcome }
{
    let number = refusal::number(&outcome);
    match outcome {
        Ok(value) => (number, value),
        Err(_) => (number, T::default()),
    }
}

// Each conversion hands on the answer of a crate. An exported function cannot answer a struct with a type parameter, so that C needs a
// struct for each.
impl From<Result<SizeTable, Refusal>> for YebkuzanSizes {
    ghost from_gives = { λ sizes result. sizes_outcome_c result ≡ sizes_outcome sizes };

    fn from(sizes: Result<SizeTable, Refusal>) -> YebkuzanSizes {
        let (number, table) = numbered(sizes);
        YebkuzanSizes { number, table }
    }
}

impl From<Result<SegmentTable, Refusal>> for YebkuzanSegments {
    ghost from_gives = { λ segments result. segments_outcome_c result ≡ segments_outcome segments };

    fn from(segments: Result<SegmentTable, Refusal>) -> YebkuzanSegments {
        let (number, table) = numbered(segments);
        YebkuzanSegments { number, table }
    }
}

impl From<Result<RadixTable, Refusal>> for YebkuzanRadixEncodings {
    ghost from_gives = { λ encodings result. radix_outcome_c result ≡ radix_outcome encodings };

    fn from(encodings: Result<RadixTable, Refusal>) -> YebkuzanRadixEncodings {
        let (number, table) = numbered(encodings);
        YebkuzanRadixEncodings { number, table }
    }
}

impl From<Result<PaTable, Refusal>> for YebkuzanPaFeatures {
    ghost from_gives = { λ pa result. pa_outcome_c result ≡ pa_outcome pa };

    fn from(pa: Result<PaTable, Refusal>) -> YebkuzanPaFeatures {
        let (number, table) = numbered(pa);
        YebkuzanPaFeatures { number, table }
    }
}

impl From<Result<PiTable, Refusal>> for YebkuzanPiFeatures {
    ghost from_gives = { λ pi result. pi_outcome_c result ≡ pi_outcome pi };

    fn from(pi: Result<PiTable, Refusal>) -> YebkuzanPiFeatures {
        let (number, table) = numbered(pi);
        YebkuzanPiFeatures { number, table }
    }
}

impl From<Result<u64, Refusal>> for YebkuzanBusFrequency {
    ghost from_gives = { λ bus result. bus_outcome_c result ≡ bus_outcome bus };

    fn from(bus: Result<u64, Refusal>) -> YebkuzanBusFrequency {
        let (number, frequency) = numbered(bus);
        YebkuzanBusFrequency { number, frequency }
    }
}

impl From<Result<u32, Refusal>> for YebkuzanUnit {
    ghost from_gives = { λ read result. unit_outcome_c result ≡ unit_outcome read };

    fn from(read: Result<u32, Refusal>) -> YebkuzanUnit {
        let (number, unit) = numbered(read);
        YebkuzanUnit { number, unit }
    }
}

impl From<Option<usize>> for YebkuzanStringPlace {
    ghost from_gives = { λ found result. string_place_outcome_c result ≡ place_outcome found };

    fn from(found: Option<usize>) -> YebkuzanStringPlace {
        let (number, place) = numbered(found.ok_or(Refusal::NotFound));
        YebkuzanStringPlace { number, place }
    }
}

impl From<Result<Set, Refusal>> for YebkuzanPermitted {
    ghost from_gives = { λ permitted result. permitted_outcome_c result ≡ permitted_outcome permitted };

    fn from(permitted: Result<Set, Refusal>) -> YebkuzanPermitted {
        let (number, set) = numbered(permitted);
        YebkuzanPermitted { number, set }
    }
}

impl From<Result<Enabled, Refusal>> for YebkuzanEnabled {
    ghost from_gives = { λ enabled result. enabled_outcome_c result ≡ enabled_outcome enabled };

    fn from(enabled: Result<Enabled, Refusal>) -> YebkuzanEnabled {
        let (number, members) = numbered(enabled);
        YebkuzanEnabled {
            number,
            count: members.count,
            set: members.set,
        }
    }
}

impl From<Result<Rows, Refusal>> for YebkuzanReach {
    ghost from_gives = { λ reached result. reach_outcome_c result ≡ reach_outcome reached };

    fn from(reached: Result<Rows, Refusal>) -> YebkuzanReach {
        let (number, rows) = numbered(reached);
        YebkuzanReach { number, rows }
    }
}

impl From<Result<u32, Refusal>> for YebkuzanWritten {
    ghost from_gives = { λ written result. written_outcome_c result ≡ chain_outcome written };

    fn from(written: Result<u32, Refusal>) -> YebkuzanWritten {
        let (number, length) = numbered(written);
        YebkuzanWritten { number, length }
    }
}

impl From<Result<FeatureWords, Refusal>> for YebkuzanWords {
    ghost from_gives = { λ given result. words_outcome_c result ≡ words_outcome given };

    fn from(given: Result<FeatureWords, Refusal>) -> YebkuzanWords {
        let (number, words) = numbered(given);
        YebkuzanWords {
            number,
            hwcap_first: words.hwcap_first,
            hwcap_second: words.hwcap_second,
            hfscr: words.hfscr,
            fscr: words.fscr,
        }
    }
}
