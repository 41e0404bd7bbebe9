// A line of output: its kind, and then numbers in decimal, each after a space.
use refusal::Refusal;
use std::io;
use std::io::Write;

// Ends a line.
pub(crate) fn end_line(out: &mut impl Write) -> io::Result<()> {
    out.write_all(b"\n")
}

pub(crate) fn put_number(out: &mut impl Write, number: u64) -> io::Result<()> {
    write!(out, " {number}")
}

// Puts that there is no number in a place.
pub(crate) fn put_none(out: &mut impl Write) -> io::Result<()> {
    out.write_all(b" none")
}

// Puts the number of an outcome, and answers the value beside it: zeros beside a refusal.
pub(crate) fn put_outcome<T: Copy + Default>(
    out: &mut impl Write,
    outcome: Result<T, Refusal>,
) -> io::Result<T> {
    let (number, value) = answers::numbered(outcome);
    put_number(out, number.into())?;
    Ok(value)
}

// Starts a line: its kind, and an outcome.
pub(crate) fn put_start<T: Copy + Default>(
    out: &mut impl Write,
    kind: u8,
    outcome: Result<T, Refusal>,
) -> io::Result<T> {
    out.write_all(&[kind])?;
    put_outcome(out, outcome)
}

// Puts bytes, cells or words as numbers.
pub(crate) fn put_numbers<T: Copy + Into<u64>>(
    out: &mut impl Write,
    numbers: &[T],
) -> io::Result<()> {
    for number in numbers {
        put_number(out, (*number).into())?;
    }
    Ok(())
}
