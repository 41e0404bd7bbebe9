// Unit text of a CPU: a number in hexadecimal.
#![tactic(auto)]

ghost use Rattle.std.specs.Prelude.{◌≡◌, length};
ghost use Rattle.unit.specs.Hex.{digit_count, read_hex, write_hex, after_hex};
ghost use Rattle.unit.specs.Unit.{read_unit, write_unit, after_unit, hex_outcome, unit_outcome, length_outcome};

use refusal::Refusal;

// The most characters that a number's text may have.
pub const MOST_DIGITS: usize = 16;

// The largest unit number.
pub const LARGEST_UNIT: u64 = 4294967295;

// The number that a text of hex digits of either case stands for, which is at most `largest`.
// Refusals: 20, then 12.
pub fn read_hex(text: &[u8], largest: u64) -> Result<u64, Refusal>
    ensures { hex_outcome result ≡ read_hex largest text.now }
{
    if text.is_empty() || MOST_DIGITS < text.len() {
        return Err(Refusal::UnitText);
    }
    let mut value = 0;
    for &character in text {
        let digit = characters::hex_value(character).ok_or(Refusal::UnitText)?;
        value = value * 16 + u64::from(digit);
    }
    if largest < value {
        return Err(Refusal::OutOfRange);
    }
    Ok(value)
}

// The unit number of a text. Refusals: 20, then 12.
pub fn read_unit(text: &[u8]) -> Result<u32, Refusal>
    ensures { unit_outcome result ≡ read_unit text.now }
{
    let number = read_hex(text, LARGEST_UNIT)?;
    Ok(number as u32)
}

// How many digits a number has in its shortest text.
pub fn digit_count(number: u64) -> usize
    ensures { result ≡ digit_count number }
{
    let mut count = 1;
    let mut rest = number / 16;
    // By what is left of the number: there is no index.
    while 0 < rest {
        count += 1;
        rest /= 16;
    }
    count
}

// Puts the shortest lower-case text of a number into a lent buffer, from place `at` on, which may be any; the answer is its length. Refusal: 18.
pub fn write_hex(number: u64, buffer: &mut [u8], at: usize) -> Result<usize, Refusal>
    ensures result_value { length_outcome result ≡ write_hex number at (length buffer.old) }
    ensures buffer_after { buffer.new ≡ after_hex number at buffer.old }
{
    let count = digit_count(number);
    if buffer.len() < at || buffer.len() - at < count {
        return Err(Refusal::BufferLength);
    }
    let mut rest = number;
    for place in (at..at + count).rev() {
        buffer[place] = characters::hex_digit(rest);
        rest /= 16;
    }
    Ok(count)
}

// Puts the shortest lower-case text of a unit number at the front of a lent buffer; the answer is its length. Refusal: 18.
pub fn write_unit(number: u32, buffer: &mut [u8]) -> Result<usize, Refusal>
    ensures result_value { length_outcome result ≡ write_unit number (length buffer.old) }
    ensures buffer_after { buffer.new ≡ after_unit number buffer.old }
{
    write_hex(u64::from(number), buffer, 0)
}
