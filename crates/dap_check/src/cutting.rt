//! The lines of a text, one after the other.
ghost use Rattle.std.specs.Prelude.{◌≡◌, ◌<◌, ◌==◌, ◌∷◌, length, position};
ghost use Rattle.dap_check.specs.Transcript.{StaysFirst};
ghost use Rattle.std.specs.Str.Lines.{lines, strip_carriage_return};

use memchr::memchr;

/// The place of the first line feed.
fn line_end(text: &[u8]) -> Option<usize>
    ensures { result ≡ position (λ byte. byte == 10) text.now }
{
    memchr(b'\n', text)
}

/// A line without the one carriage return at its end, if it has one.
fn without_carriage_return(line: &[u8]) -> &[u8]
    ensures { result.now ≡ strip_carriage_return line.now }
{
    match line {
        [text @ .., b'\r'] => text,
        _ => line,
    }
}

/// The first line of a text that has bytes, and what follows it. A line ends with a line feed, which the last may lack; a
/// carriage return right before it is no part of the line. A line that has its line feed is the first one whatever follows the text.
pub fn split_line(text: &[u8]) -> (&[u8], &[u8])
    requires { 0 < length text.now }
    ensures lines { lines text.now ≡ result.0.now ∷ lines result.1.now }
    ensures whole { StaysFirst text.now result.0.now result.1.now }
    ensures shorter { length result.1.now < length text.now }
{
    let Some(end) = line_end(text) else {
        return (text, &[]);
    };
    (without_carriage_return(&text[..end]), &text[end + 1..])
}
