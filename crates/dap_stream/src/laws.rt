//! Laws of the lines of bodies. Each function is empty: its contract is the law.

ghost use Rattle.dap_stream.specs.Unwrapping.{EachBodyIsALine, BodiesAreFramedAgain};

/// What [`unwrap`](crate::unwrap) appends is a line for each body, in order.
pub fn each_body_is_a_line()
    ensures { EachBodyIsALine }
{}

/// A body on one line is the same JSON and the same message. [`wrap`](crate::wrap) accepts these lines, and makes frames of
/// just these bodies.
pub fn bodies_are_framed_again()
    ensures { BodiesAreFramedAgain }
{}
