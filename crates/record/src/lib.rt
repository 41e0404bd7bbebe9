// The feature record, and the view of its cells.
#![tactic(auto)]

ghost use Rattle.std.specs.Prelude.{◌≡◌};
ghost use Rattle.positions.specs.Bits.{bit as bit_of};
ghost use Rattle.record.specs.Cells.{cell as cell_of, when_given, low_bit, dependency_count};

pub const MOST_FEATURES: usize = 64;

pub const MOST_DEPENDENCIES: usize = 16;

// Document 01: "one flat run of 1,024 dependency slots", sixteen to a feature.
pub const SLOTS: usize = MOST_FEATURES * MOST_DEPENDENCIES;

// The highest bit numbers of a feature: in HFSCR, in FSCR, and among the capability bits.
pub const HIGHEST_HFSCR_BIT: u32 = 63;

pub const HIGHEST_FSCR_BIT: u32 = 63;

pub const HIGHEST_HWCAP_BIT: u32 = 63;

// A feature: its begin token's offset, which properties were given, the cells of its properties, zero where absent, and how many
// dependencies it has. Laid out as C's `YebkuzanFeature`: a word of bits beside the numbers, and no Option.
#[repr(C)]
#[derive(Clone, Copy)]
pub struct Feature {
    pub offset: u32,
    pub given: u32,
    pub isa: u32,
    pub usable_privilege: u32,
    pub hv_support: u32,
    pub os_support: u32,
    pub hfscr_bit_nr: u32,
    pub fscr_bit_nr: u32,
    pub hwcap_bit_nr: u32,
    pub phandle: u32,
    pub dependencies: u32,
}

// Document 01: "a record of at most 64 features with its count"; the dependencies of the feature at a position are in its sixteen slots.
// Laid out as C's `YebkuzanRecord`: a count beside the features.
#[repr(C)]
#[derive(Clone, Copy)]
pub struct Record {
    pub isa: u32,
    pub count: u32,
    pub features: [Feature; MOST_FEATURES],
    pub slots: [u16; SLOTS],
}

// The properties of a feature. Each has its bit in the word `given`, in this order from bit 0 on.
#[derive(Clone, Copy, Debug, PartialEq, Eq)]
pub enum Property {
    Isa,
    UsablePrivilege,
    HvSupport,
    OsSupport,
    HfscrBitNr,
    FscrBitNr,
    HwcapBitNr,
    Phandle,
    Dependencies,
}

// The value, where its bit of the word `given` is set.
fn when_given(given: u32, bit: u32, value: u32) -> Option<u32>
    ensures { result ≡ when_given (bit_of given bit) value }
{
    positions::bit_set(u64::from(given), bit).then_some(value)
}

// What a feature has of a property: a number, where it is given. Absent and zero differ.
pub fn cell_of(f: Feature, p: Property) -> Option<u32>
    ensures { result ≡ cell_of f p }
{
    match p {
        Property::Isa => when_given(f.given, 0, f.isa),
        Property::UsablePrivilege => when_given(f.given, 1, f.usable_privilege),
        Property::HvSupport => when_given(f.given, 2, f.hv_support),
        Property::OsSupport => when_given(f.given, 3, f.os_support),
        Property::HfscrBitNr => when_given(f.given, 4, f.hfscr_bit_nr),
        Property::FscrBitNr => when_given(f.given, 5, f.fscr_bit_nr),
        Property::HwcapBitNr => when_given(f.given, 6, f.hwcap_bit_nr),
        Property::Phandle => when_given(f.given, 7, f.phandle),
        Property::Dependencies => when_given(f.given, 8, f.dependencies),
    }
}

// How many dependencies a feature has.
#[tactic(auto, unfolding(crate::specs::Cells::dependency_count))]
pub fn dependency_count(f: Feature) -> u32
    ensures { result ≡ dependency_count f }
{
    cell_of(f, Property::Dependencies).unwrap_or(0)
}

// Bit 0 of a cell; not set where the cell is absent.
pub fn low_bit(c: Option<u32>) -> bool
    ensures { result ≡ low_bit c }
{
    c.is_some_and(|n| positions::bit_set(u64::from(n), 0))
}
