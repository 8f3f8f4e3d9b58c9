//! Laws of the definitions, each on a function with nothing to run.
ghost use Rattle.dap_envelope.specs.Laws.{EachBodyIsOne, WrittenIsReadAgain, ReadIsSound};
ghost use Rattle.dap_envelope.specs.InRange.{ReadIsInRange};
ghost use Rattle.dap_envelope.specs.OneLine.{CanonIsOneLine};

use dap_json::laws::{put_is_sound, text_is_read_again, what_is_read_is_sound};

/// Each body is one message, or has one first refusal: never both, never two.
pub fn each_body_is_one()
    ensures { EachBodyIsOne }
{}

/// A plain message that a Rust value can hold, once written, is read again as itself.
pub fn written_is_read_again()
    ensures { WrittenIsReadAgain }
{
    text_is_read_again();
    put_is_sound();
}

/// What is read is a message that a Rust value can hold, so that it is read again once written, if
/// it is plain.
pub fn read_is_sound()
    ensures { ReadIsSound }
{
    what_is_read_is_sound();
}

/// What is read has numbers of at most 9007199254740991, and a command of at most 64 bytes.
pub fn read_is_in_range()
    ensures { ReadIsInRange }
{}

/// The canonical text of a message has no control character, so that it is one line of a text.
pub fn canonical_text_is_one_line()
    ensures { CanonIsOneLine }
{}
