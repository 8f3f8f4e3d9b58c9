//! The lines of a transcript that break a rule, listed in one pass: what is printed of them, and what of all together.
ghost use Rattle.std.specs.Prelude.{◌≡◌, ◌+◌, ◌-◌, ◌^◌, ◌<◌, ◌==◌, ◌||◌, ◌∷◌, ◌++◌, [], List, ℕ, length, if◌then◌else◌, is_some, OnOk, IfOk, IfErr};
ghost use Rattle.std.specs.Str.Lines.{lines};
ghost use Rattle.dap_check.specs.Transcript.{Refuses, FirstRefused};
ghost use Rattle.dap_check.specs.declared.line.Line.{Line as TheLine};
ghost use Rattle.dap_explain.specs.Explained.{IsTold, noted_by};
ghost use Rattle.dap_tool.specs.PrivateListed.{mode_of, IsGivenFor, text_told, IsPrinted, IsListed, AreFew};

use crate::finding::push_told;
use crate::numbering::{SideNumbers, are_same, is_of_rule_1};
use crate::verdict::CheckOptions;
use dap_check::{CheckFault, CheckMode, Side, split_line};
use dap_explain::{ExplainedChecker, LineTold};
use std::alloc::{AllocError, Global};

/// What was listed of the lines so far.
#[derive(Drop)]
pub(crate) struct Listing {
    pub(crate) checker: ExplainedChecker,
    /// What is printed of those that break a rule: of all, or of the first.
    pub(crate) text: Vec<u8>,
    /// How many break one.
    pub(crate) count: u64,
    pub(crate) client: SideNumbers,
    pub(crate) adapter: SideNumbers,
}

fn is_shown(all: bool, count: u64) -> bool
    ensures { result ≡ (all || (count == 0)) }
{
    all || count == 0
}

fn push_if(
    alloc: Global,
    text: &mut Vec<u8>,
    shown: bool,
    explained: bool,
    told: &LineTold,
) -> Result<(), AllocError>
    ensures { OnOk result ((line : TheLine) → IsGivenFor line told.now.found → text.new.items ≡ (if shown then text.old.items ++ text_told explained told.now.found.number told.now.reason line told.now.found.broken else text.old.items)) }
{
    if !shown {
        return Ok(());
    }
    push_told(alloc, text, explained, told)
}

fn counted(count: u64, is_one_more: bool) -> u64
    requires { count < 2 ^ 64 - 1 }
    ensures { result ≡ (if is_one_more then count + 1 else count) }
{
    if is_one_more { count + 1 } else { count }
}

impl Listing {
    fn new(alloc: Global, options: CheckOptions) -> Listing
        ensures listed { IsListed options [] [] result }
        ensures few { AreFew 1 result }
        ensures none { noted_by result.checker ≡ 0 }
    {
        let mode = CheckMode {
            any_seq: options.any_seq,
            bodies: options.bodies,
            whole: options.explained,
        };
        let checker = ExplainedChecker::open(alloc, mode);
        let text = Vec::new(alloc);
        let none = SideNumbers::new();
        Listing {
            checker,
            text,
            count: 0,
            client: none,
            adapter: none,
        }
    }

    /// Lists what is told of the next line.
    fn list(
        &mut self,
        alloc: Global,
        options: CheckOptions,
        told: &LineTold,
    ) -> Result<(), AllocError>
        requires { AreFew (2 ^ 64 - 1) self.old }
        ensures printed { OnOk result ((lines : List TheLine) (line : TheLine) → IsTold (mode_of options) lines line told.now → IsPrinted options lines self.old → IsPrinted options (lines ++ line ∷ []) self.new) }
        ensures few { OnOk result ((n : ℕ) → AreFew n self.old → AreFew (n + 1) self.new) }
        ensures same { self.new.checker ≡ self.old.checker }
    {
        let broken = &told.found.broken;
        let shown = is_shown(options.all, self.count);
        push_if(alloc, &mut self.text, shown, options.explained, told)?;
        self.count = counted(self.count, broken.is_some());
        let breaks = is_of_rule_1(broken);
        let side = told.found.side;
        self.client = self.client.after(are_same(Side::Client, side), breaks);
        self.adapter = self.adapter.after(are_same(Side::Adapter, side), breaks);
        Ok(())
    }

    /// Takes the text of the next line.
    fn take(&mut self, alloc: Global, options: CheckOptions, text: &[u8]) -> Result<(), CheckFault>
        requires room { noted_by self.old.checker < 2 ^ 64 - 1 }
        requires few { AreFew (noted_by self.old.checker + 1) self.old }
        ensures listed { OnOk result ((texts : List (List ℕ)) (lines : List TheLine) → IsListed options texts lines self.old → (more : List TheLine) × IsListed options (texts ++ text.now ∷ []) more self.new) }
        ensures few { OnOk result (AreFew (noted_by self.new.checker + 1) self.new) }
        ensures one { OnOk result (noted_by self.new.checker ≡ noted_by self.old.checker + 1) }
        ensures refused { IfErr result (λ fault. Refuses (noted_by self.old.checker + 1) text.now fault × (0 < length text.now)) }
    {
        match self.checker.line(alloc, text)? {
            None => Ok(()),
            Some(told) => match self.list(alloc, options, &told) {
                Ok(()) => Ok(()),
                Err(_) => Err(CheckFault::OutOfMemory),
            },
        }
    }
}

/// Lists all lines.
pub(crate) fn list_lines(
    alloc: Global,
    bytes: &[u8],
    options: CheckOptions,
) -> Result<Listing, CheckFault>
    ensures listed { IfOk result (λ listing. (transcript : List TheLine) × IsListed options (lines bytes.now) transcript listing) }
    ensures refused { IfErr result (FirstRefused (lines bytes.now)) }
{
    let mut listing = Listing::new(alloc, options);
    let mut rest = bytes;
    while !rest.is_empty() {
        let (text, later) = split_line(rest);
        listing.take(alloc, options, text)?;
        rest = later;
    }
    Ok(listing)
}
