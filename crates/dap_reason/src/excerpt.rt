//! What a sentence of a fault is made of, and the bytes that it shows.

ghost use Rattle.std.specs.Prelude.{◌≡◌, ◌++◌, ◌∷◌, [], ◌<◌, flat_map, take, drop, OnOk};
ghost use Rattle.dap_reason.specs.Excerpts.{hex_digit, escaped, quoted, dots, excerpt, before_blank, header_at as header_bytes_at, bytes_at as bytes_of_place, text_of_line, part_text, words_at, words_at_line};

use dap_check::split_line;
use itoa::Buffer;
use std::alloc::AllocError;

/// What a sentence is made of.
#[derive(Clone, Copy)]
pub enum Part<'a> {
    Words(&'a str),
    /// In decimal.
    Number(u64),
    /// In decimal, with a minus where it is below 0.
    Integer(i64),
    /// Bytes of an input, between quotes.
    Excerpt(&'a [u8]),
}

/// How many bytes of an input are shown at most.
const MOST_SHOWN: usize = 60;

/// One byte more than is shown, and room for the end of a header block behind those that are.
const MOST_OF_HEADER: usize = 64;

/// What ends a header block.
const BLANK: &[u8] = b"\r\n\r\n";

fn digit(n: u8) -> u8
    requires { n < 16 }
    ensures { result ≡ hex_digit n }
{
    if n < 10 { b'0' + n } else { b'a' - 10 + n }
}

fn push_escaped(out: &mut Vec<u8>, byte: u8) -> Result<(), AllocError>
    ensures { OnOk result (out.new.items ≡ out.old.items ++ escaped byte) }
{
    match byte {
        b'"' => out.extend_from_slice(b"\\\""),
        b'\\' => out.extend_from_slice(b"\\\\"),
        b'\n' => out.extend_from_slice(b"\\n"),
        b'\r' => out.extend_from_slice(b"\\r"),
        b'\t' => out.extend_from_slice(b"\\t"),
        b' '..=b'~' => out.extend_from_slice(&[byte]),
        _ => out.extend_from_slice(&[b'\\', b'x', digit(byte / 16), digit(byte % 16)]),
    }
}

fn push_each_escaped(out: &mut Vec<u8>, bytes: &[u8]) -> Result<(), AllocError>
    ensures { OnOk result (out.new.items ≡ out.old.items ++ flat_map escaped bytes.now) }
{
    for byte in bytes {
        push_escaped(out, *byte)?;
    }
    Ok(())
}

fn push_quoted(out: &mut Vec<u8>, bytes: &[u8]) -> Result<(), AllocError>
    ensures { OnOk result (out.new.items ≡ out.old.items ++ quoted bytes.now) }
{
    out.extend_from_slice(b"\"")?;
    push_each_escaped(out, bytes)?;
    out.extend_from_slice(b"\"")
}

/// Appends three dots where there are more bytes than are shown.
fn push_dots(out: &mut Vec<u8>, count: usize) -> Result<(), AllocError>
    ensures { OnOk result (out.new.items ≡ out.old.items ++ dots count) }
{
    if count <= MOST_SHOWN {
        return Ok(());
    }
    out.extend_from_slice(b"...")
}

/// Appends bytes between quotes, those of them that are shown, and three dots where there are more.
fn push_excerpt(out: &mut Vec<u8>, bytes: &[u8]) -> Result<(), AllocError>
    ensures { OnOk result (out.new.items ≡ out.old.items ++ excerpt bytes.now) }
{
    push_quoted(out, front(bytes, MOST_SHOWN))?;
    push_dots(out, bytes.len())
}

fn push_part(out: &mut Vec<u8>, part: &Part<'_>) -> Result<(), AllocError>
    ensures { OnOk result (out.new.items ≡ out.old.items ++ part_text part.now) }
{
    match part {
        Part::Words(words) => out.extend_from_slice(words.as_bytes()),
        Part::Number(number) => {
            let mut buffer = Buffer::new();
            out.extend_from_slice(buffer.format(*number).as_bytes())
        }
        Part::Integer(number) => {
            let mut buffer = Buffer::new();
            out.extend_from_slice(buffer.format(*number).as_bytes())
        }
        Part::Excerpt(bytes) => push_excerpt(out, bytes),
    }
}

/// Appends parts, one after the other.
pub fn push(out: &mut Vec<u8>, parts: &[Part<'_>]) -> Result<(), AllocError>
    ensures { OnOk result (out.new.items ≡ out.old.items ++ flat_map part_text parts.now) }
{
    for part in parts {
        push_part(out, part)?;
    }
    Ok(())
}

/// The line of a number, counted from 1; empty where there is none.
pub(crate) fn line_of_number(bytes: &[u8], number: u64) -> &[u8]
    ensures { result.now ≡ text_of_line number bytes.now }
{
    let mut rest = bytes;
    let mut left = number.saturating_sub(1);
    while !rest.is_empty() {
        let (text, later) = split_line(rest);
        if left == 0 {
            return text;
        }
        left -= 1;
        rest = later;
    }
    &[]
}

/// The first so many bytes, or all.
fn front(bytes: &[u8], count: usize) -> &[u8]
    ensures { result.now ≡ take count bytes.now }
{
    if count < bytes.len() {
        &bytes[..count]
    } else {
        bytes
    }
}

/// What comes from an offset on.
fn rest_at(bytes: &[u8], offset: u64) -> &[u8]
    ensures { result.now ≡ drop offset bytes.now }
{
    let offset = offset as usize;
    if offset < bytes.len() {
        &bytes[offset..]
    } else {
        &[]
    }
}

/// So many bytes at an offset, or as many as there are.
pub(crate) fn bytes_at(bytes: &[u8], offset: u64, count: u64) -> &[u8]
    ensures { result.now ≡ bytes_of_place offset count bytes.now }
{
    front(rest_at(bytes, offset), count as usize)
}

fn until_blank(bytes: &[u8]) -> &[u8]
    ensures { result.now ≡ before_blank bytes.now }
{
    for i in 0..bytes.len() {
        if bytes[i..].starts_with(BLANK) {
            return &bytes[..i];
        }
    }
    bytes
}

/// The lines of the header block at an offset; of a long one no more than is shown, and a little more.
pub(crate) fn header_at(bytes: &[u8], offset: u64) -> &[u8]
    ensures { result.now ≡ header_bytes_at offset bytes.now }
{
    until_blank(front(rest_at(bytes, offset), MOST_OF_HEADER))
}

/// Appends an offset in bytes, and what is there.
pub fn push_at(out: &mut Vec<u8>, offset: u64, words: Part<'_>) -> Result<(), AllocError>
    ensures { OnOk result (out.new.items ≡ out.old.items ++ words_at offset (part_text words.entry)) }
{
    push(
        out,
        &[
            Part::Words("at "),
            Part::Number(offset),
            Part::Words(": "),
            words,
        ],
    )
}

/// Appends a line's number, counted from 1, and the text of that line.
pub fn push_at_line(out: &mut Vec<u8>, bytes: &[u8], line: u64) -> Result<(), AllocError>
    ensures { OnOk result (out.new.items ≡ out.old.items ++ words_at_line bytes.now line) }
{
    let text = line_of_number(bytes, line);
    push(
        out,
        &[
            Part::Words("line "),
            Part::Number(line),
            Part::Words(": "),
            Part::Excerpt(text),
        ],
    )
}
