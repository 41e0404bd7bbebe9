// `ibm,processor-radix-AP-encodings`: the page sizes of radix translation, each with its AP encoding.
#![tactic(auto)]

ghost use Rattle.std.specs.Prelude.{◌≡◌};
ghost use Rattle.radix.specs.Radix.{no_encodings, radix_encodings, radix_outcome};
ghost use Rattle.radix.specs.Parts.{encodings_in};

use refusal::Refusal;
use sizes::AP_BIT;

// A page size, by its exponent, and its AP encoding.
#[repr(C)]
#[derive(Clone, Copy)]
pub struct RadixEncoding {
    pub ap: u32,
    pub exponent: u32,
}

// The encodings of a table, and zeros. Laid out for C, so that the count stands beside the array.
#[repr(C)]
#[derive(Clone, Copy)]
pub struct RadixTable {
    pub count: u32,
    pub encodings: [RadixEncoding; 16],
}

// What stands in a place with no encoding.
const NO_ENCODING: RadixEncoding = RadixEncoding { ap: 0, exponent: 0 };

// No encodings, as they stand beside a refusal.
impl Default for RadixTable {
    ghost is_default = { λ table. table ≡ no_encodings };

    #[tactic(auto, unfolding(crate::specs::Radix::no_encodings))]
    fn default() -> RadixTable {
        RadixTable {
            count: 0,
            encodings: [NO_ENCODING; 16],
        }
    }
}

// The encodings in a row of cells: of each its two parts, zeros for a zero.
fn encodings_of(cells: &[u32; 16]) -> [RadixEncoding; 16]
    ensures { result ≡ encodings_in cells.now }
{
    let mut encodings = [NO_ENCODING; 16];
    for (i, &cell) in cells.iter().enumerate() {
        encodings[i] = RadixEncoding {
            ap: cell / AP_BIT,
            exponent: cell % AP_BIT,
        };
    }
    encodings
}

// The value of `ibm,processor-radix-AP-encodings`. Refusals: 11, 8, then cell by cell 12, 19.
pub fn radix_encodings(value: &[u8]) -> Result<RadixTable, Refusal>
    ensures { radix_outcome result ≡ radix_encodings value.now }
{
    let cells = sizes::radix_sizes(value)?;
    Ok(RadixTable {
        count: cells.count,
        encodings: encodings_of(&cells.exponents),
    })
}
