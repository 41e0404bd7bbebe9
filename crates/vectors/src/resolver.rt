// The kinds of vectors for what a record permits and enables. Each public function puts one line and answers whether the bytes are a vector.
use crate::line::{end_line, put_number, put_numbers, put_outcome, put_start};
use crate::queries::{Asked, Cursor, narrow};
use enabled::Enabled;
use record::Record;
use refusal::Refusal;
use std::io;
use std::io::Write;

fn form_of(record: Record) -> Result<(), Refusal> {
    if form::well_formed(record) {
        Ok(())
    } else {
        Err(Refusal::RecordForm)
    }
}

fn put_permitted(out: &mut impl Write, asked: Asked) -> io::Result<()> {
    let told = permitted::permitted(asked.record, asked.level, asked.grants);
    let set = put_outcome(out, told)?;
    put_numbers(out, &set.words)
}

fn put_enabled(out: &mut impl Write, told: Result<Enabled, Refusal>) -> io::Result<()> {
    let enabled = put_outcome(out, told)?;
    put_numbers(out, &enabled.set.words)?;
    put_number(out, enabled.count.into())
}

fn put_register_words(out: &mut impl Write, asked: Asked) -> io::Result<()> {
    let told = words::words(asked.record, asked.level, asked.grants);
    let words = put_outcome(out, told)?;
    put_numbers(out, &[words.hwcap_first, words.hwcap_second])?;
    put_numbers(out, &[words.hfscr, words.fscr])
}

// Kind `e`: level and grants. Puts what is permitted, what is enabled, and the words.
fn put_sets(out: &mut impl Write, asked: Asked) -> io::Result<()> {
    put_permitted(out, asked)?;
    put_enabled(
        out,
        enabled::enable(asked.record, asked.level, asked.grants),
    )?;
    put_register_words(out, asked)
}

// Kind `b`: level, grants and rows.
fn put_by_table(
    out: &mut impl Write,
    asked: Asked,
    value: &[u8],
    cursor: &mut Cursor,
) -> io::Result<()> {
    let rows = cursor.rows(value);
    put_enabled(
        out,
        reach::enable_by_table(asked.record, rows, asked.level, asked.grants),
    )
}

// Puts the answer to a query of position and buffer. The buffer is the vector's own bytes.
fn put_chain(
    out: &mut impl Write,
    asked: Asked,
    value: &mut [u8],
    cursor: &mut Cursor,
) -> io::Result<()> {
    let position = narrow(cursor.number(value));
    let length = cursor.number(value);
    let Some((start, end)) = cursor.bytes(length, value.len()) else {
        return Ok(());
    };
    let buffer = &mut value[start..end];
    let told = chain::chain(asked.record, asked.level, asked.grants, position, buffer);
    let length = put_outcome(out, told)?;
    put_number(out, length.into())?;
    put_numbers(out, buffer)
}

// Kind `c`: level, grants, and queries of position and buffer.
fn put_chains(
    out: &mut impl Write,
    asked: Asked,
    value: &mut [u8],
    cursor: &mut Cursor,
) -> io::Result<()> {
    for _ in 0..cursor.number(value) {
        put_chain(out, asked, value, cursor)?;
    }
    Ok(())
}

// Puts the answer to the query at a place.
fn put_query(
    out: &mut impl Write,
    kind: u8,
    record: Record,
    value: &mut [u8],
    cursor: &mut Cursor,
) -> io::Result<()> {
    let asked = cursor.asked(value, record);
    match kind {
        b'e' => put_sets(out, asked),
        b'b' => put_by_table(out, asked, value, cursor),
        _ => put_chains(out, asked, value, cursor),
    }
}

// Kinds `e`, `b` and `c`: a record, and queries: how many, and these. What is read before the bytes go wrong is put on a line of its own.
pub(crate) fn queries(out: &mut impl Write, kind: u8, value: &mut [u8]) -> io::Result<bool> {
    let mut cursor = Cursor::new();
    let record = cursor.record(value);
    put_start(out, kind, form_of(record))?;
    for _ in 0..cursor.number(value) {
        put_query(out, kind, record, value, &mut cursor)?;
    }
    if cursor.is_at_end(value) {
        return Ok(true);
    }
    end_line(out)?;
    Ok(false)
}

// Kind `n`: a record, whose reach table is put.
pub(crate) fn reach_table(out: &mut impl Write, value: &[u8]) -> io::Result<bool> {
    let mut cursor = Cursor::new();
    let record = cursor.record(value);
    if !cursor.is_at_end(value) {
        return Ok(false);
    }
    let rows = put_start(out, b'n', reach::reach_table(record))?;
    put_numbers(out, &rows.words)?;
    Ok(true)
}
