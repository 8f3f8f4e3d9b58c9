//! Laws of the definitions, each on a function with nothing to run.
//!
//! A proof that needs a law calls its function.
ghost use Rattle.dap_json.specs.Read.{IsReadAgain, IsReadSound};
ghost use Rattle.dap_json.specs.Sound.{PutIsSound};

/// What a `Value` can hold, without floats and nested at most 127 deep, is read again from its
/// compact text.
pub fn text_is_read_again()
    ensures { IsReadAgain }
{}

/// A member that is put into an object that a `Value` can hold leaves such an object.
pub fn put_is_sound()
    ensures { PutIsSound }
{}

/// What is read of bytes is what a `Value` can hold.
pub fn what_is_read_is_sound()
    ensures { IsReadSound }
{}
