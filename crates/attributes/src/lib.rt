// `ibm,pa-features`, `ibm,pi-features` and `ibm,extended-bus-frequency`.
#![tactic(auto)]

ghost use Rattle.std.specs.Prelude.{◌≡◌, [], ◌≤◌, ◌<◌, length, IfOk};
ghost use Rattle.cells.specs.Buffer.{written};
ghost use Rattle.refusal.specs.Refusal.{number_in};
ghost use Rattle.refusal.specs.Checks.{fault_of};
ghost use Rattle.attributes.specs.Attributes.{
  descriptor_checks,
  attribute_checks,
  attribute_bytes,
  no_attributes,
  later_bytes,
  pa_table,
  known_bytes,
  pa_features,
  pa_outcome,
  pi_table,
  pi_features,
  pi_outcome,
  bus_frequency,
  bus_outcome,
};
ghost use Rattle.attributes.specs.Parts.{known_count};

use refusal::Refusal;

// The most bytes of an attribute descriptor.
pub const MOST_BYTES: usize = 254;

// The editions of `ibm,pa-features`. In the first, bytes from `FIRST_LATER` on are ignored.
// Numbers, as C has them: `pa_features` takes any, and one that is no edition is 15.
pub const EDITION_FIRST: u32 = 0;

pub const EDITION_LATER: u32 = 1;

// The first byte that the later edition adds, and how many it adds.
pub const FIRST_LATER: usize = 24;

pub const LATER_BYTES: usize = 230;

// The attributes of `ibm,pa-features`; each flag is 0 or 1, as C has it. Bytes 0 to 5 are raw, and those from `FIRST_LATER` on.
#[repr(C)]
#[derive(Clone, Copy)]
pub struct PaTable {
    pub raw: [u8; 6],
    pub data_streams: u8,
    pub vector: u8,
    pub vector_scalar: u8,
    pub vector_crypto: u8,
    pub transactional_memory: u8,
    pub copy_paste: u8,
    pub radix_translation: u8,
    pub second_watchpoint: u8,
    pub coprocessor: u64,
    pub raw_later: [u8; LATER_BYTES],
}

// No attributes, as they stand beside a refusal.
impl Default for PaTable {
    ghost is_default = { λ table. table ≡ no_attributes };

    #[tactic(auto, unfolding(crate::specs::Attributes::no_attributes))]
    fn default() -> PaTable {
        PaTable {
            raw: [0; 6],
            data_streams: 0,
            vector: 0,
            vector_scalar: 0,
            vector_crypto: 0,
            transactional_memory: 0,
            copy_paste: 0,
            radix_translation: 0,
            second_watchpoint: 0,
            coprocessor: 0,
            raw_later: [0; LATER_BYTES],
        }
    }
}

// The bytes of `ibm,pi-features`, and zeros. Laid out for C, so that the count stands beside the array.
#[repr(C)]
#[derive(Clone, Copy)]
pub struct PiTable {
    pub count: u32,
    pub bytes: [u8; MOST_BYTES],
}

// No bytes, as they stand beside a refusal.
impl Default for PiTable {
    ghost is_default = { λ table. table ≡ pi_table [] };

    #[tactic(auto, unfolding(crate::specs::Attributes::pi_table))]
    fn default() -> PiTable {
        PiTable {
            count: 0,
            bytes: [0; MOST_BYTES],
        }
    }
}

// Checks the descriptor at a place of the value.
fn check_descriptor(value: &[u8], at: usize) -> Result<(), Refusal>
    requires { at < length value.now }
    ensures { number_in result ≡ fault_of (descriptor_checks value.now at) }
{
    let left = value.len() - at;
    if left < 2 {
        return Err(Refusal::PropertyForm);
    }
    let length = usize::from(value[at]);
    if length == 0 || MOST_BYTES < length {
        return Err(Refusal::OutOfRange);
    }
    if left - 2 < length {
        return Err(Refusal::PropertyForm);
    }
    Ok(())
}

// The bytes of the one descriptor of type 0. Refusals: 11 for no bytes; descriptor by descriptor 11, 12, 11; 10; 9.
fn type_zero(value: &[u8]) -> Result<&[u8], Refusal>
    ensures refusal { number_in result ≡ fault_of (attribute_checks value.now) }
    ensures used { IfOk result (λ bytes. (bytes.now ≡ attribute_bytes value.now) × (length bytes.now ≤ 254)) }
{
    if value.is_empty() {
        return Err(Refusal::PropertyForm);
    }
    // How many descriptors have type 0, and the bytes of the last: an Option would not tell one from more.
    let mut found: usize = 0;
    let mut bytes: &[u8] = &[];
    let mut at = 0;
    // A cursor, which each descriptor moves on by its length: no index is counted.
    while at < value.len() {
        check_descriptor(value, at)?;
        let start = at + 2;
        let next = start + usize::from(value[at]);
        if value[at + 1] == 0 {
            found += 1;
            bytes = &value[start..next];
        }
        at = next;
    }
    match found {
        0 => Err(Refusal::NotFound),
        1 => Ok(bytes),
        _ => Err(Refusal::Repeated),
    }
}

// Puts bytes into the front of a row, for both tables.
fn put_bytes(row: &mut [u8], bytes: &[u8])
    requires { length bytes.now ≤ length row.old }
    ensures { row.new ≡ written row.old 0 bytes.now }
{
    row[..bytes.len()].copy_from_slice(bytes);
}

// The later bytes of a descriptor, and zeros.
fn later_bytes(bytes: &[u8]) -> [u8; LATER_BYTES]
    requires { length bytes.now ≤ 254 }
    ensures { result ≡ later_bytes bytes.now }
{
    let mut later = [0; LATER_BYTES];
    if FIRST_LATER < bytes.len() {
        put_bytes(&mut later, &bytes[FIRST_LATER..]);
    }
    later
}

// The attributes that bytes say; bytes not supplied are zero.
fn attributes(bytes: &[u8]) -> PaTable
    requires { length bytes.now ≤ 254 }
    ensures { result ≡ pa_table bytes.now }
{
    PaTable {
        raw: [
            cells::byte_at(bytes, 0),
            cells::byte_at(bytes, 1),
            cells::byte_at(bytes, 2),
            cells::byte_at(bytes, 3),
            cells::byte_at(bytes, 4),
            cells::byte_at(bytes, 5),
        ],
        data_streams: cells::byte_at(bytes, 6) / 128,
        vector: cells::byte_at(bytes, 16) / 128,
        vector_scalar: cells::byte_at(bytes, 18) / 128,
        vector_crypto: cells::byte_at(bytes, 20) / 128,
        transactional_memory: cells::byte_at(bytes, 22) / 128,
        copy_paste: cells::byte_at(bytes, 38) / 128,
        radix_translation: cells::byte_at(bytes, 40) / 128,
        second_watchpoint: cells::byte_at(bytes, 64) / 128,
        coprocessor: cells::word_at(bytes, 8),
        raw_later: later_bytes(bytes),
    }
}

// How many of a descriptor's bytes an edition knows: the first, those below `FIRST_LATER`.
fn known_count(edition: u32, count: usize) -> usize
    ensures { result ≡ known_count edition count }
{
    if edition == EDITION_FIRST {
        return count.min(FIRST_LATER);
    }
    count
}

// The attributes of a descriptor in an edition.
fn edition_attributes(edition: u32, bytes: &[u8]) -> PaTable
    requires { length bytes.now ≤ 254 }
    ensures { result ≡ pa_table (known_bytes edition bytes.now) }
{
    let known = known_count(edition, bytes.len());
    attributes(&bytes[..known])
}

// The value of `ibm,pa-features`, in an edition. Refusals: 15 for an edition other than the two; 11 for no bytes; descriptor by
// descriptor 11, 12, 11; 10; 9.
pub fn pa_features(value: &[u8], edition: u32) -> Result<PaTable, Refusal>
    ensures { pa_outcome result ≡ pa_features edition value.now }
{
    if EDITION_LATER < edition {
        return Err(Refusal::Level);
    }
    let bytes = type_zero(value)?;
    Ok(edition_attributes(edition, bytes))
}

// The bytes of a descriptor, and zeros.
fn raw_bytes(bytes: &[u8]) -> PiTable
    requires { length bytes.now ≤ 254 }
    ensures { result ≡ pi_table bytes.now }
{
    let mut row = [0; MOST_BYTES];
    put_bytes(&mut row, bytes);
    PiTable {
        count: bytes.len() as u32,
        bytes: row,
    }
}

// The value of `ibm,pi-features`. Refusals as for `ibm,pa-features`.
pub fn pi_features(value: &[u8]) -> Result<PiTable, Refusal>
    ensures { pi_outcome result ≡ pi_features value.now }
{
    let bytes = type_zero(value)?;
    Ok(raw_bytes(bytes))
}

// The value of `ibm,extended-bus-frequency`. Refusal: 11.
pub fn bus_frequency(value: &[u8]) -> Result<u64, Refusal>
    ensures { bus_outcome result ≡ bus_frequency value.now }
{
    if value.len() != 8 {
        return Err(Refusal::PropertyForm);
    }
    Ok(cells::word_at(value, 0))
}
