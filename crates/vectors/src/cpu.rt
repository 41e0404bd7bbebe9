// The kinds of vectors for CPU properties and unit text. Each function puts one line and answers whether the bytes are a vector.
use crate::line::{put_none, put_number, put_numbers, put_start};
use std::io;
use std::io::Write;

pub(crate) fn unit_read(out: &mut impl Write, text: &[u8]) -> io::Result<bool> {
    let number = put_start(out, b'u', unit::read_unit(text))?;
    put_number(out, number.into())?;
    Ok(true)
}

// The first four bytes are the number, and the others the lent buffer; fewer than four are no vector.
pub(crate) fn unit_written(out: &mut impl Write, value: &mut [u8]) -> io::Result<bool> {
    if value.len() < 4 {
        return Ok(false);
    }
    let number = cells::cell_at(value, 0);
    let buffer = &mut value[4..];
    let length = put_start(out, b'w', unit::write_unit(number, buffer))?;
    put_number(out, length as u64)?;
    put_numbers(out, buffer)?;
    Ok(true)
}

pub(crate) fn page_sizes(out: &mut impl Write, value: &[u8]) -> io::Result<bool> {
    let table = put_start(out, b'p', sizes::page_sizes(value))?;
    put_number(out, table.count.into())?;
    put_numbers(out, &table.exponents)?;
    Ok(true)
}

pub(crate) fn segment_sizes(out: &mut impl Write, value: &[u8]) -> io::Result<bool> {
    let table = put_start(out, b's', sizes::segment_sizes(value))?;
    put_number(out, table.count.into())?;
    for exponent in table.exponents {
        match sizes::size_or_none(exponent) {
            Some(size) => put_number(out, size.into())?,
            None => put_none(out)?,
        }
    }
    Ok(true)
}

pub(crate) fn segment_page_sizes(out: &mut impl Write, value: &[u8]) -> io::Result<bool> {
    let table = put_start(out, b'g', segments::segment_page_sizes(value))?;
    put_number(out, table.count.into())?;
    for descriptor in table.descriptors {
        put_numbers(
            out,
            &[descriptor.base, descriptor.encoding, descriptor.count],
        )?;
        for page in descriptor.pages {
            put_numbers(out, &[page.exponent, page.encoding])?;
        }
    }
    Ok(true)
}

pub(crate) fn radix_encodings(out: &mut impl Write, value: &[u8]) -> io::Result<bool> {
    let table = put_start(out, b'x', radix::radix_encodings(value))?;
    put_number(out, table.count.into())?;
    for encoding in table.encodings {
        put_numbers(out, &[encoding.ap, encoding.exponent])?;
    }
    Ok(true)
}

// The first four bytes are the edition, and the others the value; fewer than four are no vector.
pub(crate) fn pa_features(out: &mut impl Write, bytes: &[u8]) -> io::Result<bool> {
    if bytes.len() < 4 {
        return Ok(false);
    }
    let edition = cells::cell_at(bytes, 0);
    let table = put_start(out, b'a', attributes::pa_features(&bytes[4..], edition))?;
    put_numbers(out, &table.raw)?;
    let flags = [
        table.data_streams,
        table.vector,
        table.vector_scalar,
        table.vector_crypto,
        table.transactional_memory,
        table.copy_paste,
        table.radix_translation,
        table.second_watchpoint,
    ];
    put_numbers(out, &flags)?;
    put_number(out, table.coprocessor)?;
    put_numbers(out, &table.raw_later)?;
    Ok(true)
}

pub(crate) fn pi_features(out: &mut impl Write, value: &[u8]) -> io::Result<bool> {
    let table = put_start(out, b'i', attributes::pi_features(value))?;
    put_number(out, table.count.into())?;
    put_numbers(out, &table.bytes)?;
    Ok(true)
}

pub(crate) fn bus_frequency(out: &mut impl Write, value: &[u8]) -> io::Result<bool> {
    let frequency = put_start(out, b'f', attributes::bus_frequency(value))?;
    put_number(out, frequency)?;
    Ok(true)
}
