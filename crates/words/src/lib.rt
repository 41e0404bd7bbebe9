// Capability words, HFSCR and FSCR of an enabled set.
#![tactic(auto)]

ghost use Rattle.std.specs.Prelude.{◌≡◌};
ghost use Rattle.words.specs.Words.{values_of, no_words, words as words_answer, words_outcome};
ghost use Rattle.words.specs.Parts.{bit_where, FeatureBits, bits_of_both, below_level, levelled};

use permitted::{Grants, HYPERVISOR, SYSTEM};
use positions::WORD_BITS;
use record::{Feature, Property, Record};
use refusal::Refusal;
use std::ops::BitOr;

// The two capability words, HFSCR and FSCR.
#[derive(Clone, Copy)]
pub struct FeatureWords {
    pub hwcap_first: u32,
    pub hwcap_second: u32,
    pub hfscr: u64,
    pub fscr: u64,
}

// No words, as they stand beside a refusal.
impl Default for FeatureWords {
    ghost is_default = { λ w. values_of w ≡ no_words };

    fn default() -> FeatureWords {
        FeatureWords {
            hwcap_first: 0,
            hwcap_second: 0,
            hfscr: 0,
            fscr: 0,
        }
    }
}

// The bits of all enabled features, before level and grants.
#[derive(Clone, Copy)]
struct Bits {
    hwcap: u64,
    hfscr: u64,
    fscr: u64,
}

// The bits of both.
impl BitOr for Bits {
    type Output = Bits;

    ghost bitor_gives = { λ x y both. both ≡ bits_of_both x y };

    fn bitor(self, other: Bits) -> Bits {
        Bits {
            hwcap: self.hwcap | other.hwcap,
            hfscr: self.hfscr | other.hfscr,
            fscr: self.fscr | other.fscr,
        }
    }
}

// The word with the bit of a number, where `on`.
#[tactic(auto, using(crate::proofs::WordLaws::bits_where))]
fn bit_where(on: bool, number: Option<u32>) -> u64
    ensures { result ≡ bit_where on number }
{
    match number {
        Some(n) if on && n < WORD_BITS => 1u64 << n,
        _ => 0,
    }
}

// The bits of one feature, where it is enabled.
fn feature_bits(f: Feature, on: bool) -> Bits
    ensures { FeatureBits f on result }
{
    let hv = on && record::low_bit(record::cell_of(f, Property::HvSupport));
    let os = on && record::low_bit(record::cell_of(f, Property::OsSupport));
    Bits {
        hwcap: bit_where(on, record::cell_of(f, Property::HwcapBitNr)),
        hfscr: bit_where(hv, record::cell_of(f, Property::HfscrBitNr)),
        fscr: bit_where(os, record::cell_of(f, Property::FscrBitNr)),
    }
}

#[tactic(auto, unfolding(crate::specs::Parts::below_level))]
fn below_level(upper: u32, level: u32, word: u64) -> u64
    ensures { result ≡ below_level upper level word }
{
    if level < upper { word } else { 0 }
}

// The words of the bits of the enabled features, at a level under grants.
#[tactic(auto, unfolding(crate::specs::Parts::levelled))]
fn values_of(bits: Bits, level: u32, g: Grants) -> FeatureWords
    ensures { values_of result ≡ levelled bits level g }
{
    let hwcap = below_level(SYSTEM, level, bits.hwcap);
    FeatureWords {
        hwcap_first: (hwcap % 0x100000000) as u32,
        hwcap_second: (hwcap / 0x100000000) as u32,
        hfscr: below_level(HYPERVISOR, level, bits.hfscr & g.hfscr),
        fscr: below_level(SYSTEM, level, bits.fscr & g.fscr),
    }
}

// The words of a record at a level under grants: the enabled set, and one step a feature.
pub fn words(r: Record, level: u32, g: Grants) -> Result<FeatureWords, Refusal>
    ensures { words_outcome result ≡ words_answer r level g }
{
    let n = r.count as usize;
    let slots = r.slots;
    let x = permitted::examine(r, level, g)?;
    let set = closure::closed_part(&slots, &x.counts, n, x.set);
    let mut bits = Bits {
        hwcap: 0,
        hfscr: 0,
        fscr: 0,
    };
    for i in 0..n {
        bits = bits | feature_bits(r.features[i], positions::member(set, i));
    }
    Ok(values_of(bits, level, g))
}
