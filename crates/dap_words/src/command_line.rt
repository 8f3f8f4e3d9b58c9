//! The words of the command line.

ghost use Rattle.std.specs.Prelude.{◌≡◌, IfOk, ◌++◌, [], codes, map, List, ℕ};
ghost use Rattle.clap.specs.Words.{Rule, app_of};
ghost use Rattle.dap_words.specs.CommandLine.{IsCommandLine, explain_rule, file_rule, flag_rule, limit_rule, number_rule, serve_rules, show_rules, wrap_rules, check_rules, drive_rules, host_rules, TakesSides};
ghost use Rattle.dap_words.specs.Options.{least_line, greatest_line};
ghost use Rattle.dap_words.specs.PrivateShapes.{program_alone, IsArgument, IsSubcommand, IsSidesArgument};
ghost use Rattle.clap.specs.declared.builder.value_parser.ValueParser.{ValueParser as TheParser};

use crate::options::{EXPLAIN, LIMITS, MAX_LINE, name_of, unit_of};
use clap::builder::ValueParser;
use clap::{Arg, ArgAction, Command};
use dap_frame::LimitFault;
use std::alloc::{AllocError, Global};

const LEAST_LINE: u64 = 1026;

const GREATEST_LINE: u64 = 1073741826;

/// The limits of a reader of frames.
static FRAME_LIMITS: [LimitFault; 2] = [LimitFault::Header, LimitFault::Body];

/// The option that sets the limit, to a number in its range.
fn limit_option<'a>(alloc: Global, limit: LimitFault, help: Option<&'a String>) -> Arg<'a>
    ensures { IsArgument result (limit_rule limit) }
{
    let option = number_option(
        alloc,
        name_of(limit),
        unit_of(limit),
        limit.least(),
        limit.greatest(),
    );
    match help {
        Some(help) => option.help(help.as_str()),
        None => option,
    }
}

/// An option that takes a number in a range.
fn number_option<'a>(
    alloc: Global,
    name: &'static str,
    unit: &'static str,
    least: u64,
    greatest: u64,
) -> Arg<'a>
    ensures { IsArgument result (number_rule name.now least greatest) }
{
    Arg::new(alloc, name)
        .long(name)
        .value_name(unit)
        .action(ArgAction::Set)
        .allow_negative_numbers(true)
        .value_parser(ValueParser::unsigned(least, greatest))
}

/// The option that explains a fault, with the bytes of a stream where they are kept.
fn explain_faults<'a>(alloc: Global) -> Arg<'a>
    ensures { IsArgument result explain_rule }
{
    flag(
        alloc,
        EXPLAIN,
        "Says in a further line where a fault is, and what is refused there",
    )
}

/// A word that names a file.
fn file_word<'a>(
    alloc: Global,
    name: &'static str,
    value: &'static str,
    help: &'static str,
) -> Arg<'a>
    ensures { IsArgument result (file_rule name.now) }
{
    Arg::new(alloc, name)
        .value_name(value)
        .help(help)
        .required(true)
        .action(ArgAction::Set)
}

/// The recording that a subcommand debugs.
fn recording<'a>(alloc: Global) -> Arg<'a>
    ensures { IsArgument result (file_rule (codes "recording")) }
{
    file_word(
        alloc,
        "recording",
        "RECORDING",
        "The recorded run that is debugged, as JSON, of at most 67108864 bytes",
    )
}

/// The file that a subcommand reads.
fn file_of<'a>(alloc: Global, help: &'static str) -> Arg<'a>
    ensures { IsArgument result (file_rule (codes "file")) }
{
    file_word(alloc, "file", "FILE", help)
}

/// A subcommand with the options that set these limits.
fn with_limits<'a>(
    alloc: Global,
    mut subcommand: Command<'a>,
    limits: &[LimitFault],
    limit_texts: &'a [String],
) -> Result<Command<'a>, AllocError>
    ensures { (name : List ℕ) (rules : List Rule) → IsSubcommand subcommand.entry name rules
        → IfOk result (λ c. IsSubcommand c name (rules ++ map limit_rule limits.now)) }
{
    for (place, limit) in limits.iter().enumerate() {
        subcommand = subcommand.arg(limit_option(alloc, *limit, limit_texts.get(place)))?;
    }
    Ok(subcommand)
}

/// A subcommand with no arguments yet.
fn subcommand<'a>(
    alloc: Global,
    name: &'static str,
    about: &'static str,
    after_help: &'static str,
) -> Command<'a>
    ensures { IsSubcommand result name.now [] }
{
    Command::new(alloc, name)
        .about(about)
        .after_help(after_help)
}

fn serve<'a>(alloc: Global, limit_texts: &'a [String]) -> Result<Command<'a>, AllocError>
    ensures { IfOk result (λ c. IsSubcommand c (codes "serve") serve_rules) }
{
    let serve = subcommand(
        alloc,
        "serve",
        "Debugs a recorded run: answers the Debug Adapter Protocol requests of standard input on standard output",
        "The recording is read before the input. The session ends with `disconnect` or with the input.\n\nStatuses: 0 the session or the input ended, 2 usage, 3 a frame, a body, a message or the recording is refused or no sequence number is left, 4 the input ends within a frame, 5 read or write, 6 memory",
    )
    .arg(recording(alloc))?
    .arg(explain_faults(alloc))?;
    with_limits(alloc, serve, &LIMITS, limit_texts)
}

fn show<'a>(alloc: Global, limit_texts: &'a [String]) -> Result<Command<'a>, AllocError>
    ensures { IfOk result (λ c. IsSubcommand c (codes "show") show_rules) }
{
    let show = subcommand(
        alloc,
        "show",
        "Lists the messages of a stream, one a line",
        "A line has the offset of the frame, the sequence number, then `request` COMMAND, `event` EVENT, `response` COMMAND REQUEST_SEQ `ok` or `failed`, or `other` TYPE. A refused body is OFFSET `refused` CAUSE.\n\nStatuses: 0 all is listed, 2 usage, 3 a frame, a body or the length of the file is refused, 4 the file ends within a frame, 5 read or write, 6 memory",
    )
    .arg(file_of(
        alloc,
        "The stream, as one side wrote it, of at most 67108864 bytes; `-` is standard input",
    ))?
    .arg(flag(
        alloc,
        "json",
        "Writes a JSON object a line, with `offset`, `bytes` and `message`",
    ))?
    .arg(flag(
        alloc,
        "reasons",
        "Says behind `failed` why, where the response has a `message`",
    ))?
    .arg(flag(
        alloc,
        "keep-going",
        "Lists a body that is no message as refused, and goes on; the status is then 3",
    ))?
    .arg(explain_faults(alloc))?;
    with_limits(alloc, show, &FRAME_LIMITS, limit_texts)
}

fn unwrap<'a>(alloc: Global, limit_texts: &'a [String]) -> Result<Command<'a>, AllocError>
    ensures { IfOk result (λ c. IsSubcommand c (codes "unwrap") wrap_rules) }
{
    let unwrap = subcommand(
        alloc,
        "unwrap",
        "Writes the bodies of a stream, one a line, as `wrap` reads them",
        "Line feeds and carriage returns between the tokens of a body are left out. What comes before a fault is written.\n\nStatuses: 0 all is written, 2 usage, 3 a frame, a body or the length of the file is refused, 4 the file ends within a frame, 5 read or write, 6 memory",
    )
    .arg(file_of(
        alloc,
        "The stream, as one side wrote it, of at most 67108864 bytes; `-` is standard input",
    ))?
    .arg(explain_faults(alloc))?;
    with_limits(alloc, unwrap, &FRAME_LIMITS, limit_texts)
}

fn wrap<'a>(alloc: Global, limit_texts: &'a [String]) -> Result<Command<'a>, AllocError>
    ensures { IfOk result (λ c. IsSubcommand c (codes "wrap") wrap_rules) }
{
    subcommand(
        alloc,
        "wrap",
        "Writes the messages of a file, one a line, as a stream of frames",
        "Empty lines are skipped.\n\nStatuses: 0 all is written, 2 usage, 3 a line or the length of the file is refused and nothing is written, 5 read or write, 6 memory",
    )
    .arg(file_of(
        alloc,
        "The messages, as JSON, one a line, of at most 67108864 bytes; `-` is standard input",
    ))?
    .arg(explain_faults(alloc))?
    // No header block is read. The option may be given, since a script gives both tools the same.
    .arg(limit_option(alloc, LimitFault::Header, limit_texts.first()).hide(true))?
    .arg(limit_option(alloc, LimitFault::Body, limit_texts.get(1)))
}

/// A flag that is off where it is not given.
fn flag<'a>(alloc: Global, name: &'static str, help: &'static str) -> Arg<'a>
    ensures { IsArgument result (flag_rule name.now) }
{
    Arg::new(alloc, name)
        .long(name)
        .help(help)
        .action(ArgAction::SetTrue)
}

/// The sides whose numbers may be left untested, and both, which no value means.
static SIDES: [&str; 3] = ["client", "adapter", "both"];

fn any_seq<'a>(alloc: Global) -> Arg<'a>
    ensures { IsSidesArgument result }
{
    Arg::new(alloc, "any-seq")
        .long("any-seq")
        .value_name("SIDE")
        .help(
            "Leaves out rule 1, for one side or for both, since some adapters give every message the number 0",
        )
        .action(ArgAction::Set)
        .num_args(0..=1)
        .require_equals(true)
        .default_missing_value("both")
        .value_parser(SIDES.as_slice())
}

fn check<'a>(alloc: Global) -> Result<Command<'a>, AllocError>
    ensures { IfOk result (λ c. (sides : TheParser) × TakesSides sides × IsSubcommand c (codes "check") (check_rules sides)) }
{
    subcommand(
        alloc,
        "check",
        "Checks a transcript: which line breaks which rule of the protocol",
        "Prints `legal`, or `line L rule K`: the first line that breaks a rule, and the first rule that it breaks; with `--all` each such line, and then `N findings`. A line is judged by all lines before it, also by those that break a rule. With `--open` there follow lines `line L request N COMMAND is not answered`, in the order of the requests; they change no status. Empty lines are skipped, and counted.\n\nRules:\n  1 the messages of each side are numbered from 1, without a gap\n  2 a response answers a request that waits, with its number and command; a request has no number of one that waits\n  3 the first request of the client is `initialize`, and the second comes after its response\n  4 `initialized` comes after `initialize` has succeeded\n  5 the client asks only what the adapter offers\n  6 the client names only references that were given since the debuggee last went on or ended\n  7 once `disconnect` has succeeded, the client asks nothing more, and the adapter writes nothing more\n  8 with `--bodies`: the arguments of a request, and the body of a successful response and of an event, have their required keys, with values of their types\n\nStatuses: 0 legal, 2 usage, 3 a rule is broken, a line is no message, or the file is too long, 5 read or write, 6 memory",
    )
    .arg(file_of(
        alloc,
        "The transcript: one message a line, `> ` before those of the client, `< ` before those of the adapter; of at most 67108864 bytes; `-` is standard input",
    ))?
    .arg(flag(
        alloc,
        "all",
        "Prints every line that breaks a rule, and then how many there are",
    ))?
    .arg(any_seq(alloc))?
    .arg(flag(
        alloc,
        "bodies",
        "Checks rule 8 too: that what a message holds is as the Specification has it",
    ))?
    .arg(flag(
        alloc,
        "explain",
        "Says in a further line why a rule is broken, and against which earlier lines",
    ))?
    .arg(flag(
        alloc,
        "open",
        "Prints after that each request that nothing has answered",
    ))
}

fn drive<'a>(alloc: Global, limit_texts: &'a [String]) -> Result<Command<'a>, AllocError>
    ensures { IfOk result (λ c. IsSubcommand c (codes "drive") drive_rules) }
{
    let drive = subcommand(
        alloc,
        "drive",
        "Runs a client and an adapter against each other by a script, and prints the transcript",
        "A line of the script is one of\n  send COMMAND [ARGUMENTS]  the client sends a request; ARGUMENTS is JSON\n  terminal ok               the client answers the oldest request for a terminal: the debuggee runs in it\n  terminal no               the client answers it: the terminal is refused\n  turn                      the adapter handles the oldest request that waits\n  poll                      the adapter tells what happened to the debuggee, once\n  run                       turns until none waits, then polls until nothing comes or the debuggee stops\nEmpty lines are skipped, and counted. Each message is delivered once it is written. At a fault nothing is printed.\n\nStatuses: 0 the script was run, 2 usage, 3 the recording, a line, a request or a message is refused, a rule is broken, or a file is too long, 5 read or write, 6 memory",
    )
    .arg(recording(alloc))?
    .arg(file_word(
        alloc,
        "script",
        "SCRIPT",
        "What is done, one step a line, of at most 67108864 bytes",
    ))?
    .arg(flag(
        alloc,
        "check",
        "Checks the transcript too, and prints `legal`, or `line L rule K`, on standard error",
    ))?
    .arg(explain_faults(alloc))?;
    with_limits(alloc, drive, &LIMITS, limit_texts)
}

fn host<'a>(alloc: Global, limit_texts: &'a [String]) -> Result<Command<'a>, AllocError>
    ensures { IfOk result (λ c. IsSubcommand c (codes "host") host_rules) }
{
    let host = subcommand(
        alloc,
        "host",
        "Is the adapter of a debugger in another program, over lines of standard input and standard output",
        "Lines in:\n  > MESSAGE  a message of the client\n  ! OBJECT   what the debugger did, with `happened`: output, stopped, continued, exited, learned or loaded; an answer to a request, with `answer`; a request to the client, with `ask`; or a question, with `asked`\nLines out:\n  < MESSAGE  a message for the client\n  ! OBJECT   what the debugger has to do, with `act`: start, resume, pause, setBreakpoints, setVariable or end; a request that waits for an answer, with `lent`; what a number of the client names, with `target`; or the number of a line that is `refused`, and `why`\nEach line is answered whole before the next one is taken. Empty lines are skipped, and counted.\n\nStatuses: 0 the input ended, 2 usage, 3 the sources or a message is refused or no sequence number is left, 5 read or write, 6 memory",
    )
    .arg(file_word(
        alloc,
        "sources",
        "SOURCES",
        "The sources of what is debugged: a JSON object with `sources` as a recording has them, of at most 67108864 bytes",
    ))?
    .arg(explain_faults(alloc))?;
    with_limits(alloc, host, &LIMITS, limit_texts)?.arg(max_line(alloc))
}

/// The option that bounds a line of a host.
fn max_line<'a>(alloc: Global) -> Arg<'a>
    ensures { IsArgument result (number_rule (codes "max-line") least_line greatest_line) }
{
    number_option(alloc, MAX_LINE, "BYTES", LEAST_LINE, GREATEST_LINE).help(
        "Greatest length of a line in, 1026 to 1073741826 [default: 16777218]",
    )
}

/// The program, with no subcommands yet.
fn program<'a>(alloc: Global) -> Command<'a>
    ensures { app_of result ≡ program_alone }
{
    Command::new(alloc, "dap")
        .about("Serves, lists, makes and checks streams of the Debug Adapter Protocol")
        .version("0.1.0")
        .after_help("Statuses: 0 fine, 2 usage, 3 refused, 4 truncated, 5 read or write, 6 memory")
        .subcommand_required(true)
        .arg_required_else_help(true)
}

/// The command line of the program.
pub fn command<'a>(alloc: Global, limit_texts: &'a [String]) -> Result<Command<'a>, AllocError>
    ensures { IfOk result (λ c. IsCommandLine (app_of c)) }
{
    program(alloc)
        .subcommand(serve(alloc, limit_texts)?)?
        .subcommand(show(alloc, limit_texts)?)?
        .subcommand(wrap(alloc, limit_texts)?)?
        .subcommand(unwrap(alloc, limit_texts)?)?
        .subcommand(check(alloc)?)?
        .subcommand(drive(alloc, limit_texts)?)?
        .subcommand(host(alloc, limit_texts)?)
}
