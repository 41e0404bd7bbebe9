// Runs stored vectors: reads them from standard input and prints a line for each.
//
// A vector is its kind (one byte), its length (four bytes, big-endian) and that many bytes. Its line has the kind, the
// refusal number and the numbers of the answer. `tests/vectors/make.py` makes the vectors and the lines that are to
// come, and its modules list the kinds. Whatever is no vector ends the run with the line `bad vector`.
#![tactic(auto)]

mod cpu;
mod line;
mod queries;
mod records;
mod resolver;
mod trees;

use std::io;
use std::io::{Read, Write};

// The length that the first five bytes of a vector give.
fn length_of(head: &[u8; 5]) -> usize {
    cells::cell_at(head, 1) as usize
}

fn bad_vector(out: &mut impl Write) -> io::Result<bool> {
    out.write_all(b"bad vector\n")?;
    Ok(false)
}

// Puts the line of a vector of unit text, a tree, a lookup, a string in a list or a record; false if it is none.
fn tree_answer(out: &mut impl Write, kind: u8, value: &[u8]) -> io::Result<bool> {
    match kind {
        b'u' => cpu::unit_read(out, value),
        b't' => trees::tree(out, value),
        b'l' => trees::property_lookup(out, value),
        b'm' => trees::string_place(out, value),
        b'r' => records::record(out, value),
        b'n' => resolver::reach_table(out, value),
        _ => Ok(false),
    }
}

// Puts the line of a vector whose bytes are only read; false if it is none.
fn read_answer(out: &mut impl Write, kind: u8, value: &[u8]) -> io::Result<bool> {
    match kind {
        b'p' => cpu::page_sizes(out, value),
        b's' => cpu::segment_sizes(out, value),
        b'g' => cpu::segment_page_sizes(out, value),
        b'x' => cpu::radix_encodings(out, value),
        b'a' => cpu::pa_features(out, value),
        b'i' => cpu::pi_features(out, value),
        b'f' => cpu::bus_frequency(out, value),
        _ => tree_answer(out, kind, value),
    }
}

// Puts the line of a vector, without its end; false if it is no vector.
fn answer(out: &mut impl Write, kind: u8, value: &mut [u8]) -> io::Result<bool> {
    match kind {
        b'w' => cpu::unit_written(out, value),
        b'e' | b'b' | b'c' => resolver::queries(out, kind, value),
        _ => read_answer(out, kind, value),
    }
}

// Reads until the buffer is full or the input ends, and answers how many bytes it put at the buffer's front. The lister has the same: a crate
// of its own for ten lines would be no plainer.
fn read_full(input: &mut impl Read, buffer: &mut [u8]) -> io::Result<usize> {
    let mut done = 0;
    while done < buffer.len() {
        let got = input.read(&mut buffer[done..])?;
        if got == 0 {
            return Ok(done);
        }
        done += got;
    }
    Ok(done)
}

// Reads the bytes of a vector, prints its line, and answers whether to go on.
fn run_value(
    input: &mut impl Read,
    out: &mut impl Write,
    kind: u8,
    value: &mut [u8],
) -> io::Result<bool> {
    if read_full(input, value)? < value.len() {
        return bad_vector(out);
    }
    if answer(out, kind, value)? {
        line::end_line(out)?;
        return Ok(true);
    }
    bad_vector(out)
}

// Runs the next vector, whose bytes go into `bytes`, and answers whether to go on.
fn run_vector(input: &mut impl Read, out: &mut impl Write, bytes: &mut [u8]) -> io::Result<bool> {
    let mut head = [0u8; 5];
    let got = read_full(input, &mut head)?;
    if got == 0 {
        return Ok(false);
    }
    if got < 5 {
        return bad_vector(out);
    }
    let length = length_of(&head);
    if bytes.len() < length {
        return bad_vector(out);
    }
    run_value(input, out, head[0], &mut bytes[..length])
}

// A proved loop has to end, and nothing says that the input does. So the loop has a number of turns that no run uses up.
fn run_vectors(input: &mut impl Read, out: &mut impl Write, bytes: &mut [u8]) -> io::Result<()> {
    for _ in 0..u64::MAX {
        if !run_vector(input, out, bytes)? {
            return Ok(());
        }
    }
    Ok(())
}

fn main(rt: HostRuntime) -> io::Result<()> {
    let mut bytes = [0u8; 70000];
    run_vectors(&mut rt.stdin(), &mut rt.stdout(), &mut bytes)
}
