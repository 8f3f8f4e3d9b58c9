//! A law of the definitions, on a function with nothing to run.
ghost use Rattle.dap_drive.specs.Laws.{NoCommentIsALine};

/// A line that begins with `#` is no order, and is not skipped: a script has no comments.
pub fn no_comment_is_a_line()
    ensures { NoCommentIsALine }
{}
