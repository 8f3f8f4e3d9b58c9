//! Whether a side numbers its messages in a way of its own, and the hint that says so.
ghost use Rattle.std.specs.Prelude.{◌≡◌, ◌+◌, ◌-◌, ◌^◌, ◌<◌, ◌&&◌, nat_le, ◌++◌, OnOk, true, if◌then◌else◌};
ghost use Rattle.dap_check.specs.Lines.{same_side};
ghost use Rattle.dap_check.specs.declared.line.Line.{Line as TheLine};
ghost use Rattle.dap_check.specs.declared.line.Side.{Side as TheSide};
ghost use Rattle.dap_check.specs.declared.rule.AnySeq.{AnySeq};
ghost use Rattle.dap_tool.specs.Hints.{hint_text};
ghost use Rattle.dap_tool.specs.PrivateListed.{breaks_rule_1};

use dap_check::{Broken, Rule, Side};

/// The messages of a side so far.
#[derive(Clone, Copy)]
pub(crate) struct SideNumbers {
    pub(crate) count: u64,
    /// Whether each of them breaks rule 1.
    pub(crate) each_breaks: bool,
}

pub(crate) fn are_same(one: Side, other: Side) -> bool
    ensures { result ≡ same_side one other }
{
    match (one, other) {
        (Side::Client, Side::Client) => true,
        (Side::Adapter, Side::Adapter) => true,
        _ => false,
    }
}

pub(crate) fn is_of_rule_1(broken: &Option<Broken>) -> bool
    ensures { result ≡ breaks_rule_1 broken.now }
{
    matches!(broken, Some(Broken::Rule(Rule::Seq)))
}

impl SideNumbers {
    pub(crate) fn new() -> SideNumbers
        ensures { result ≡ record { count = 0; each_breaks = true } }
    {
        SideNumbers {
            count: 0,
            each_breaks: true,
        }
    }

    /// The same, one line later, which is of the side or not.
    pub(crate) fn after(self, is_its: bool, breaks: bool) -> SideNumbers
        requires { self.count < 2 ^ 64 - 1 }
        ensures { result ≡ (if is_its then record { count = self.count + 1; each_breaks = self.each_breaks && breaks } else self) }
    {
        if !is_its {
            return self;
        }
        SideNumbers {
            count: self.count + 1,
            each_breaks: self.each_breaks && breaks,
        }
    }

    /// Whether there are two, and each breaks rule 1.
    pub(crate) fn are_own(self) -> bool
        ensures { result ≡ (nat_le 2 self.count && self.each_breaks) }
    {
        self.count >= 2 && self.each_breaks
    }
}

/// What is said where the client, or the adapter, numbers its messages in a way of its own.
pub(crate) fn words_of(client: bool, adapter: bool) -> &'static str
    ensures { result.now ≡ hint_text client adapter }
{
    match (client, adapter) {
        (true, true) => {
            "each message breaks rule 1: --any-seq leaves the numbers of both sides untested\n"
        }
        (true, false) => {
            "each message of the client breaks rule 1: --any-seq=client leaves its numbers untested\n"
        }
        (false, true) => {
            "each message of the adapter breaks rule 1: --any-seq=adapter leaves its numbers untested\n"
        }
        (false, false) => "",
    }
}
