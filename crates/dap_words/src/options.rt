//! The options that set limits, and what a parse of the command line found of the options that the program reads here.

ghost use Rattle.std.specs.Prelude.{◌≡◌, IfOk, OnOk, IfErr, Some, None, codes, string_bytes};
ghost use Rattle.dap_frame.specs.Settings.{first_outside};
ghost use Rattle.dap_words.specs.Options.{option_name, option_meaning, usual_value, text_of_option, AreOptionTexts, number_given, longest_line_given, limit_given, settings_given, IsFlagGiven};

use clap::ArgMatches;
use dap_frame::{LimitFault, Limits};
use std::alloc::{AllocError, Global};

/// The option that explains faults, and of `check` findings too.
pub(crate) const EXPLAIN: &str = "explain";

/// The limits in the order of their options.
pub(crate) static LIMITS: [LimitFault; 7] = [
    LimitFault::Header,
    LimitFault::Body,
    LimitFault::Requests,
    LimitFault::References,
    LimitFault::Breakpoints,
    LimitFault::Seq,
    LimitFault::Reference,
];

/// The option that bounds a line of a host.
pub(crate) const MAX_LINE: &str = "max-line";

const USUAL_LINE: u64 = 16777218;

/// The name of the option that sets the limit.
pub(crate) fn name_of(limit: LimitFault) -> &'static str
    ensures { result.now ≡ option_name limit }
{
    match limit {
        LimitFault::Header => "max-header",
        LimitFault::Body => "max-body",
        LimitFault::Requests => "max-requests",
        LimitFault::References => "max-references",
        LimitFault::Breakpoints => "max-breakpoints",
        LimitFault::Seq => "max-seq",
        LimitFault::Reference => "max-reference",
    }
}

/// What the limit counts, as the help names its value.
pub(crate) fn unit_of(limit: LimitFault) -> &'static str {
    match limit {
        LimitFault::Header | LimitFault::Body => "BYTES",
        LimitFault::Requests | LimitFault::References | LimitFault::Breakpoints => "COUNT",
        LimitFault::Seq | LimitFault::Reference => "NUMBER",
    }
}

fn meaning_of(limit: LimitFault) -> &'static str
    ensures { result.now ≡ option_meaning limit }
{
    match limit {
        LimitFault::Header => "Greatest length of a header block",
        LimitFault::Body => "Greatest length of a body",
        LimitFault::Requests => "Requests kept unanswered at once",
        LimitFault::References => "Frames and variables referred to at once",
        LimitFault::Breakpoints => "Breakpoints set at once",
        LimitFault::Seq => "Greatest sequence number given",
        LimitFault::Reference => "Greatest number of a reference",
    }
}

fn usual_value_of(limit: LimitFault) -> u64
    ensures { result ≡ usual_value limit }
{
    Limits::usual().get(limit)
}

fn text_of(alloc: Global, limit: LimitFault) -> Result<String, AllocError>
    ensures { IfOk result (λ text. string_bytes text ≡ text_of_option limit) }
{
    let meaning = meaning_of(limit);
    let least = limit.least();
    let greatest = limit.greatest();
    let default = usual_value_of(limit);
    format!(in alloc; "{meaning}, {least} to {greatest} [default: {default}]")
}

/// What the help says of each option that sets a limit, in order.
pub fn limit_texts(alloc: Global) -> Result<Vec<String>, AllocError>
    ensures { IfOk result AreOptionTexts }
{
    let mut texts = Vec::new(alloc);
    for limit in &LIMITS {
        texts.push(text_of(alloc, *limit)?)?;
    }
    Ok(texts)
}

/// The number that the option gives, else its usual one.
fn number_of(matches: &ArgMatches<'_>, name: &str, usual: u64) -> u64
    ensures { result ≡ number_given matches.now name.now usual }
{
    matches.get_one::<u64>(name).unwrap_or(usual)
}

/// The most bytes that a line of a host may have.
pub fn longest_line(matches: &ArgMatches<'_>) -> u64
    ensures { result ≡ longest_line_given matches.now }
{
    number_of(matches, MAX_LINE, USUAL_LINE)
}

/// The value that its option gives to the limit, else the usual one.
fn limit_of(matches: &ArgMatches<'_>, limit: LimitFault) -> u64
    ensures { result ≡ limit_given matches.now limit }
{
    number_of(matches, name_of(limit), usual_value_of(limit))
}

/// The limits that the options set, and the defaults for the others and for those that the subcommand does not have.
pub fn limits(matches: &ArgMatches<'_>) -> Result<Limits, LimitFault>
    ensures limits { IfOk result (λ l. l ≡ settings_given matches.now) }
    ensures accepted { OnOk result (first_outside (settings_given matches.now) ≡ None) }
    ensures refused { IfErr result (λ f. first_outside (settings_given matches.now) ≡ Some f) }
{
    Limits::new(
        limit_of(matches, LimitFault::Header),
        limit_of(matches, LimitFault::Body),
        limit_of(matches, LimitFault::Requests),
        limit_of(matches, LimitFault::References),
        limit_of(matches, LimitFault::Breakpoints),
        limit_of(matches, LimitFault::Seq),
        limit_of(matches, LimitFault::Reference),
    )
}

/// Whether faults are explained.
pub fn explains(matches: &ArgMatches<'_>) -> bool
    ensures { IsFlagGiven matches.now (codes "explain") result }
{
    matches.get_flag(EXPLAIN)
}
