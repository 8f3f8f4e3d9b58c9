//! What a debuggee and its owner leave for each other.
ghost use Rattle.std.specs.Prelude.{◌≡◌};
ghost use Rattle.dap_debuggee.specs.Shown.{SameButPlaces};

use crate::debuggee::Debuggee;

/// A debuggee with mail: what its owner left for it, and what it left for its owner, both to be looked at between the calls
/// of an adapter. To exchange it is no act: what is shown stays the same, the count of acts and the last one too. Only where
/// breakpoints are, which `verify` answers, may be told by mail.
pub trait HasMail: Debuggee {
    type Mail: Drop;

    /// The mail that there is in a view.
    ghost mail: { Self → Self.Mail };

    /// A view with this mail in place of what there was.
    ghost with_mail: { Self.Mail → Self → Self };

    /// Puts other mail in place of what there is, which it gives. It takes no memory.
    fn exchange(&mut self, given: Self::Mail) -> Self::Mail
        ensures out { result ≡ mail self.old }
        ensures put { self.new ≡ with_mail given self.old };

    /// What is shown does not depend on the mail, but for what `verify` answers.
    ghost shows_the_same: { (m : Self.Mail) (v : Self) → SameButPlaces (Self.shown v) (Self.shown (with_mail m v)) };

    /// The mail that is put in place is there.
    ghost has_what_was_put: { (m : Self.Mail) (v : Self) → mail (with_mail m v) ≡ m };
}
