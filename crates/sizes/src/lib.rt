// Page and segment sizes: cells that are exponents of powers of two, strictly ascending. A cell of segment sizes may say that there is no
// size in its place; one of radix encodings has more than an exponent in it.
#![tactic(auto)]

ghost use Rattle.std.specs.Prelude.{◌≡◌, ℕ, ◌^◌, ◌<◌, Option};
ghost use Rattle.sizes.specs.Sizes.{no_sizes, size_or_none, sizes, page_sizes, segment_sizes, radix_sizes, sizes_outcome};

use refusal::Refusal;

// The most cells of a table of sizes.
pub const MOST_SIZES: usize = 16;

// The largest exponent.
pub const LARGEST_EXPONENT: u32 = 63;

// The cell of segment sizes that says that there is no size in its place.
pub const NO_SIZE: u32 = 0xffffffff;

// A cell of radix encodings has its page exponent below this bit, and the AP encoding from it on.
pub const AP_BIT: u32 = 0x20000000;

// The cells of a table, each in its place, and zeros. Of page sizes each is an exponent; of segment sizes `size_or_none` says what it is;
// of radix encodings the exponent is what is below `AP_BIT`. Laid out for C, so that the count stands beside the array.
#[repr(C)]
#[derive(Clone, Copy)]
pub struct SizeTable {
    pub count: u32,
    pub exponents: [u32; MOST_SIZES],
}

// No sizes, as they stand beside a refusal.
impl Default for SizeTable {
    ghost is_default = { λ table. table ≡ no_sizes };

    #[tactic(auto, unfolding(crate::specs::Sizes::no_sizes))]
    fn default() -> SizeTable {
        SizeTable {
            count: 0,
            exponents: [0; MOST_SIZES],
        }
    }
}

// What a cell of segment sizes says: the exponent of a size, or that there is none.
#[tactic(auto, unfolding(crate::specs::Sizes::size_or_none))]
pub fn size_or_none(exponent: u32) -> Option<u32>
    ensures { result ≡ size_or_none exponent }
{
    if exponent == NO_SIZE {
        return None;
    }
    Some(exponent)
}

// The cells of a value, of which `size` says what each is: the exponent of a size, or none. `least` is the least exponent that may follow: 0
// as long as there is no size.
fn sizes_by<F: Fn(u32) -> Option<u32>>(size: F, value: &[u8]) -> Result<SizeTable, Refusal>
    ghost rule: { ℕ → Option ℕ }
    requires callable { F.IsAlwaysCallable size }
    requires ruled { (cell : ℕ) (exponent : Option ℕ) → cell < 2 ^ 32 → F.post size cell exponent → exponent ≡ rule cell }
    ensures { sizes_outcome result ≡ sizes rule value.now }
{
    if value.is_empty() || value.len() % 4 != 0 {
        return Err(Refusal::PropertyForm);
    }
    let count = value.len() / 4;
    if MOST_SIZES < count {
        return Err(Refusal::TooMany);
    }
    let mut exponents = [0; MOST_SIZES];
    let mut least = 0;
    for i in 0..count {
        let cell = cells::cell_at(value, 4 * i);
        if let Some(exponent) = size(cell) {
            if LARGEST_EXPONENT < exponent {
                return Err(Refusal::OutOfRange);
            }
            if exponent < least {
                return Err(Refusal::NotAscending);
            }
            least = exponent + 1;
        }
        exponents[i] = cell;
    }
    if least == 0 {
        return Err(Refusal::PropertyForm);
    }
    Ok(SizeTable {
        count: count as u32,
        exponents,
    })
}

// The value of `ibm,processor-page-sizes`. Refusals: 11, 8, then cell by cell 12, 19.
pub fn page_sizes(value: &[u8]) -> Result<SizeTable, Refusal>
    ensures { sizes_outcome result ≡ page_sizes value.now }
{
    sizes_by(Some, value)
}

// The value of `ibm,processor-segment-sizes`. Refusals: 11, 8, then cell by cell 12, 19; 11 where no cell is a size.
pub fn segment_sizes(value: &[u8]) -> Result<SizeTable, Refusal>
    ensures { sizes_outcome result ≡ segment_sizes value.now }
{
    sizes_by(size_or_none, value)
}

// The cells of a value of `ibm,processor-radix-AP-encodings`, whole. Refusals: 11, 8, then cell by cell 12, 19, of the exponent in it.
pub fn radix_sizes(value: &[u8]) -> Result<SizeTable, Refusal>
    ensures { sizes_outcome result ≡ radix_sizes value.now }
{
    sizes_by(|cell| Some(cell % AP_BIT), value)
}
