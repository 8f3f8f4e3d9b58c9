//! Help laid out for a terminal: a line that is too long ends at a space, and goes on below its own text.

ghost use Rattle.std.specs.Prelude.{◌≡◌, ◌++◌, IfOk, OnOk, string_bytes, replicate};
ghost use Rattle.dap_words.specs.Layout.{words};

use std::alloc::{AllocError, Global};

/// How many characters a line has at most, where no word is longer than its room.
const WIDTH: usize = 80;

fn width(text: &str) -> usize {
    text.chars().count()
}

/// At how many characters the text of a line begins. An entry, as of an option, is indented, and has a term before its text:
/// two spaces or more are between them, or one, where the entry has no two. Any other line is all text.
fn text_column(line: &str) -> usize {
    let entry = line.trim_start();
    if width(entry) == width(line) {
        return 0;
    }
    let text = match entry.split_once("  ") {
        Some((_, text)) => text.trim_start(),
        None => match entry.split_once(' ') {
            Some((_, text)) => text,
            None => entry,
        },
    };
    width(line).saturating_sub(width(text))
}

fn push_spaces(out: &mut String, count: usize) -> Result<(), AllocError>
    ensures { OnOk result (string_bytes out.new ≡ string_bytes out.old ++ replicate count 32) }
{
    for _step in 0..count {
        out.push_str(" ")?;
    }
    Ok(())
}

/// Adds a word behind those of its line, before which the line ends where it would pass the width. It answers the column behind it.
fn push_word(
    out: &mut String,
    word: &str,
    column: usize,
    indent: usize,
) -> Result<usize, AllocError>
    ensures { OnOk result (words (string_bytes out.new) ≡ words (string_bytes out.old) ++ words word.now) }
{
    let end = column.saturating_add(1).saturating_add(width(word));
    if end > WIDTH && column > indent && !word.is_empty() {
        out.push_str("\n")?;
        push_spaces(out, indent)?;
        out.push_str(word)?;
        return Ok(indent.saturating_add(width(word)));
    }
    out.push_str(" ")?;
    out.push_str(word)?;
    Ok(end)
}

/// Adds a line, which goes on where its text begins.
fn push_line(out: &mut String, line: &str) -> Result<(), AllocError>
    ensures { OnOk result (words (string_bytes out.new) ≡ words (string_bytes out.old ++ line.now)) }
{
    let indent = text_column(line);
    let mut column: usize = 0;
    for (place, word) in line.split(' ').enumerate() {
        if place == 0 {
            out.push_str(word)?;
            column = width(word);
        } else {
            column = push_word(out, word, column, indent)?;
        }
    }
    Ok(())
}

/// The text, with each of its lines laid out.
pub fn laid_out(alloc: Global, text: &str) -> Result<String, AllocError>
    ensures { IfOk result (λ help. words (string_bytes help) ≡ words text.now) }
{
    let mut out = String::new(alloc);
    for (place, line) in text.split('\n').enumerate() {
        if place != 0 {
            out.push_str("\n")?;
        }
        push_line(&mut out, line)?;
    }
    Ok(out)
}
