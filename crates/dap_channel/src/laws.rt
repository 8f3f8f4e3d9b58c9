//! Laws of the definitions, each on a function with nothing to run.
ghost use Rattle.dap_channel.specs.Laws.{CallsAddUp, PipeTellsItsBytes, InputsTellTheirBytes};
ghost use Rattle.dap_channel.specs.declared.channel.Input.{Input};

use crate::channel::Channel;
use std::io::{Read, Write};

/// What calls come to that are made one after the other.
pub fn calls_add_up<C: Channel>()
    ensures { CallsAddUp C.goes }
{}

/// What the calls of a pipe read and write is what its reader and its writer know of it.
pub fn pipes_tell_their_bytes<R: Read, W: Write>()
    ensures { PipeTellsItsBytes R.remaining W.contents }
{}

/// What the calls of an input read is what its reader knows of it.
pub fn inputs_tell_their_bytes<R: Read>()
    ensures { InputsTellTheirBytes (λ (p : Input R). R.remaining p.reader) }
{}
