// `ibm,segment-page-sizes`: for each base page size its SLB encoding, and the page sizes that a segment of it may have.
#![tactic(auto)]

ghost use Rattle.std.specs.Prelude.{◌≡◌, [], ◌+◌, ◌*◌, ◌≤◌, length};
ghost use Rattle.refusal.specs.Refusal.{number_in};
ghost use Rattle.refusal.specs.Checks.{fault_of};
ghost use Rattle.segments.specs.Segments.{
  count_at,
  next_at,
  exponent_checks,
  descriptor_checks,
  descriptor_at,
  table_of,
  segment_pages,
  segments_outcome,
};

use refusal::Refusal;
use sizes::LARGEST_EXPONENT;

// The most descriptors of a table.
pub const MOST_DESCRIPTORS: usize = 8;

// The most pages of a descriptor.
pub const MOST_PAGES: u32 = 8;

// A page size and its encoding in a page table entry.
#[repr(C)]
#[derive(Clone, Copy)]
pub struct Page {
    pub exponent: u32,
    pub encoding: u32,
}

// A base page size, its SLB encoding, and its pages; zeros from the count on. Laid out for C, so that the count stands beside the array.
#[repr(C)]
#[derive(Clone, Copy)]
pub struct Descriptor {
    pub base: u32,
    pub encoding: u32,
    pub count: u32,
    pub pages: [Page; 8],
}

// The descriptors of a table, and zeros. Laid out for C.
#[repr(C)]
#[derive(Clone, Copy)]
pub struct SegmentTable {
    pub count: u32,
    pub descriptors: [Descriptor; 8],
}

// What stands in a place with no page, and in one with no descriptor.
const NO_PAGE: Page = Page {
    exponent: 0,
    encoding: 0,
};

const NO_DESCRIPTOR: Descriptor = Descriptor {
    base: 0,
    encoding: 0,
    count: 0,
    pages: [NO_PAGE; 8],
};

// No descriptors, as they stand beside a refusal.
impl Default for SegmentTable {
    ghost is_default = { λ table. table ≡ table_of [] };

    fn default() -> SegmentTable {
        SegmentTable {
            count: 0,
            descriptors: [NO_DESCRIPTOR; 8],
        }
    }
}

// Checks a descriptor's exponents: the base's and those of its pages.
fn check_exponents(value: &[u8], at: usize, count: usize) -> Result<(), Refusal>
    requires { at + 12 + 8 * count ≤ length value.now }
    ensures { number_in result ≡ fault_of (exponent_checks value.now at count) }
{
    let base = cells::cell_at(value, at);
    if LARGEST_EXPONENT < base {
        return Err(Refusal::OutOfRange);
    }
    for j in 0..count {
        let exponent = cells::cell_at(value, at + 12 + 8 * j);
        if LARGEST_EXPONENT < exponent || exponent < base {
            return Err(Refusal::OutOfRange);
        }
    }
    Ok(())
}

// Checks the descriptor of index `i`, which begins at `at`.
fn check_descriptor(value: &[u8], i: usize, at: usize) -> Result<(), Refusal>
    requires { at ≤ length value.now }
    ensures { number_in result ≡ fault_of (descriptor_checks value.now i at) }
{
    if MOST_DESCRIPTORS <= i {
        return Err(Refusal::TooMany);
    }
    let left = value.len() - at;
    if left < 12 {
        return Err(Refusal::PropertyForm);
    }
    let count = cells::cell_at(value, at + 8);
    if count == 0 {
        return Err(Refusal::OutOfRange);
    }
    if MOST_PAGES < count {
        return Err(Refusal::TooMany);
    }
    let pages = count as usize;
    if left - 12 < 8 * pages {
        return Err(Refusal::PropertyForm);
    }
    check_exponents(value, at, pages)
}

// The descriptor that begins at `at`.
fn descriptor_at(value: &[u8], at: usize) -> Descriptor
    requires { (count_at value.now at ≤ 8) × (next_at value.now at ≤ length value.now) }
    ensures { result ≡ descriptor_at value.now at }
{
    let mut descriptor = Descriptor {
        base: cells::cell_at(value, at),
        encoding: cells::cell_at(value, at + 4),
        count: cells::cell_at(value, at + 8),
        pages: [NO_PAGE; 8],
    };
    for j in 0..descriptor.count as usize {
        descriptor.pages[j] = Page {
            exponent: cells::cell_at(value, at + 12 + 8 * j),
            encoding: cells::cell_at(value, at + 16 + 8 * j),
        };
    }
    descriptor
}

// The value of `ibm,segment-page-sizes`. Refusals: 11 for no bytes, then descriptor by descriptor.
pub fn segment_page_sizes(value: &[u8]) -> Result<SegmentTable, Refusal>
    ensures { segments_outcome result ≡ segment_pages value.now }
{
    if value.is_empty() {
        return Err(Refusal::PropertyForm);
    }
    let mut descriptors = [NO_DESCRIPTOR; 8];
    let mut at = 0;
    let mut i = 0;
    // `at` moves the loop, by what each descriptor says; `i` counts past the array, since a ninth descriptor is refused and not left out.
    while at < value.len() {
        check_descriptor(value, i, at)?;
        let descriptor = descriptor_at(value, at);
        at += 12 + 8 * descriptor.count as usize;
        descriptors[i] = descriptor;
        i += 1;
    }
    Ok(SegmentTable {
        count: i as u32,
        descriptors,
    })
}
