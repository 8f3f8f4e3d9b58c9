//! Laws of the definitions, each on a function with nothing to run.
ghost use Rattle.dap_message.specs.Lengths.{EventsAreShort, FailuresAreShort, FixedResponsesAreShort, TheUsualOfferFits, WhatIsAroundIsShort};

pub use dap_body::laws::{bodies_are_plain, bodies_give_their_numbers};
pub use dap_call::laws::{
    written_call_is_plain, written_call_is_read_again, written_terminal_is_plain,
    written_terminal_is_read_again,
};
pub use dap_envelope::laws::{
    canonical_text_is_one_line, each_body_is_one, read_is_in_range, read_is_sound,
    written_is_read_again,
};

/// What is written of a fixed shape has at most 1024 bytes: each failure, each response
/// without a body or with one of a fixed shape, and each event.
pub fn fixed_messages_are_short()
    ensures failures { FailuresAreShort }
    ensures responses { FixedResponsesAreShort }
    ensures events { EventsAreShort }
{}

/// What a response has around its body has at most 512 bytes, whatever its numbers and its command; so what is offered usually
/// fits wherever a body may have 1024.
pub fn what_is_around_is_short()
    ensures around { WhatIsAroundIsShort }
    ensures usual { TheUsualOfferFits }
{}
