//! The program `dap`: its command line, its streams and its exit statuses. What it does is in
//! `dap_tool`, `dap_adapter` and `dap_host`.
#![tactic(auto)]

ghost use Rattle.std.specs.Prelude.{◌≡◌, IfOk};
ghost use Rattle.dap_debuggee.specs.declared.answers.State.{State};
ghost use Rattle.dap_host.specs.Hearing.{IsGoing};

use clap::ArgMatches;
use clap::error::{Error, ErrorKind};
use dap_adapter::ServeFault;
use dap_channel::{Input, Pipe};
use dap_frame::{End, Limits};
use dap_host::{FileFault as HostFault, Host, OffersFault, host_channel};
use dap_recording::RecordingFault;
use dap_replay::Recorded;
use dap_tool::{
    AnySeq, CheckOptions, Checked, DriveFault, FileFault, FollowFault, Form, MAX_FILE, OpenFault,
    Shown, Style, ToolFault, check_text, drive_and_check, explanation, fault_line, follow,
    most_reads, read_whole, status, verdict_line,
};
use std::alloc::{AllocError, AllocFailed, Global};
use std::fs::File;
use std::io;
use std::io::Write;
use std::process::ExitCode;

/// The status of a wrong command line.
const USAGE: u8 = 2;

/// The status where a transcript breaks a rule, or a refused body is listed.
const FINDING: u8 = 3;

/// What keeps the program from telling how it ended.
#[derive(Debug, Drop)]
enum Failure {
    /// A word of the command line is not UTF-8.
    Words,
    /// Memory was refused before the streams were touched.
    Memory,
    /// Help, a version or a message could not be written.
    Stream,
}

impl From<AllocError> for Failure {
    fn from(_refused: AllocError) -> Failure {
        Failure::Memory
    }
}

impl<T: Drop> From<AllocFailed<T>> for Failure {
    fn from(_refused: AllocFailed<T>) -> Failure {
        Failure::Memory
    }
}

impl From<io::Error> for Failure {
    fn from(failed: io::Error) -> Failure {
        match failed.kind() {
            io::ErrorKind::InvalidData => Failure::Words,
            io::ErrorKind::OutOfMemory => Failure::Memory,
            _ => Failure::Stream,
        }
    }
}

fn main(rt: HostRuntime) -> ExitCode {
    let (line, code) = match run(&rt) {
        Ok(code) => return ExitCode::from(code),
        Err(Failure::Words) => ("dap: a word of the command line is not UTF-8\n", USAGE),
        Err(Failure::Memory) => ("dap: OutOfMemory\n", status(&ToolFault::OutOfMemory)),
        Err(Failure::Stream) => ("dap: Write\n", status(&ToolFault::Write)),
    };
    // Where the line cannot be written either, the status still tells.
    let _ = rt.stderr().write_all(line.as_bytes());
    ExitCode::from(code)
}

/// How much of the stack the deepest work takes, in bytes: both together, as the prover takes no array of so many.
const STACK: usize = 393216;

const MORE_STACK: usize = 196608;

#[inline(never)]
fn fill(room: &mut [u8], byte: u8) {
    room.fill(byte);
}

#[inline(never)]
fn reserve_more(byte: u8) -> bool {
    let mut room = [0; MORE_STACK];
    fill(&mut room, byte);
    room[MORE_STACK - 1] == byte
}

/// Uses so much of the stack, before any memory is taken: where the system has no more for the stack later, it has refused memory
/// before, and that is told.
#[inline(never)]
fn reserve_stack(byte: u8) -> bool {
    let mut room = [0; STACK];
    fill(&mut room, byte);
    reserve_more(byte) && room[STACK - 1] == byte
}

/// Does what the command line asks for, and answers the exit status.
fn run(rt: &HostRuntime) -> Result<u8, Failure> {
    if !reserve_stack(1) {
        return Err(Failure::Memory);
    }
    let words: Vec<String> = std::env::args(rt)?.collect(rt.alloc())?;
    let limit_texts = dap_words::limit_texts(rt.alloc())?;
    run_words(rt, words.as_slice(), limit_texts.as_slice())
}

/// The same for these words, with these texts on the limits in the help.
fn run_words(rt: &HostRuntime, words: &[String], limit_texts: &[String]) -> Result<u8, Failure> {
    let command = dap_words::command(rt.alloc(), limit_texts)?;
    match command.try_get_matches_from(words) {
        Ok(matches) => Ok(run_subcommand(rt, &matches)),
        Err(error) => explain(rt, &error),
    }
}

/// Does what the subcommand is for, and answers the exit status.
fn run_subcommand(rt: &HostRuntime, matches: &ArgMatches<'_>) -> u8 {
    match matches.subcommand() {
        Some(("serve", matches)) => serve(rt, matches),
        Some(("show", matches)) => show(rt, matches),
        Some(("wrap", matches)) => wrap(rt, matches),
        Some(("unwrap", matches)) => unwrap(rt, matches),
        Some(("check", matches)) => check(rt, matches),
        Some(("drive", matches)) => drive(rt, matches),
        Some(("host", matches)) => host(rt, matches),
        _ => USAGE,
    }
}

/// Prints help, laid out, on the stream that is due.
fn print_help(rt: &HostRuntime, error: &Error) -> Result<(), Failure> {
    let text = format!(in rt.alloc(); "{error}")?;
    let help = dap_words::laid_out(rt.alloc(), text.as_str())?;
    let bytes = help.as_str().as_bytes();
    if error.use_stderr() {
        rt.stderr().write_all(bytes)?;
    } else {
        print(rt, bytes)?;
    }
    Ok(())
}

/// Prints what the parse of the command line has to say. What is wrong with it repeats words of the caller's, and stays as it
/// is; help is laid out.
fn print_error(rt: &HostRuntime, error: &Error) -> Result<(), Failure> {
    match error.kind() {
        ErrorKind::DisplayHelp | ErrorKind::DisplayHelpOnMissingArgumentOrSubcommand => {
            print_help(rt, error)
        }
        _ => {
            error.print(rt)?;
            Ok(())
        }
    }
}

/// Prints help, the version, or what is wrong with the command line, and answers the exit status.
fn explain(rt: &HostRuntime, error: &Error) -> Result<u8, Failure> {
    if error.kind() == ErrorKind::OutOfMemory {
        return Err(Failure::Memory);
    }
    let code = error.exit_code() as u8;
    let printed = print_error(rt, error);
    // Help that was asked for has to come out; a usage message may fail to.
    if code == 0 {
        printed?;
    }
    Ok(code)
}

/// What a subcommand reads, as a fault tells it: its name, and what was read of it, or nothing where that is not kept.
#[derive(Clone, Copy)]
struct Subject<'a> {
    name: &'a str,
    bytes: &'a [u8],
}

/// Serves the recording that a file is from standard input to standard output, and answers the exit status. A file that is
/// no recording is told before anything is read of the input.
fn serve(rt: &HostRuntime, matches: &ArgMatches<'_>) -> u8 {
    // The command line took each option in its range, so that the limits are never refused here.
    let Ok(limits) = dap_words::limits(matches) else {
        return USAGE;
    };
    let recording = match read_recording(rt, matches) {
        Ok(recording) => recording,
        Err(code) => return code,
    };
    let mut pipe = Pipe::new(rt.reader(), io::writer(rt));
    let input = Subject {
        name: INPUT,
        bytes: &[],
    };
    match dap_adapter::serve(rt.alloc(), &mut pipe, recording, limits, most_reads()) {
        Ok(served) if served.end == End::Truncated => {
            tell(rt, matches, input, &ToolFault::Truncated)
        }
        Ok(_) => 0,
        Err(ServeFault::Write { written }) => {
            tell_unwritten(
                rt,
                matches,
                &ToolFault::Serve(ServeFault::Write { written }),
            )
        }
        Err(fault) => tell(rt, matches, input, &ToolFault::Serve(fault)),
    }
}

/// Lists the messages of a file on standard output, and answers the exit status.
fn show(rt: &HostRuntime, matches: &ArgMatches<'_>) -> u8 {
    let form = if matches.get_flag("json") {
        Form::Object
    } else if matches.get_flag("reasons") {
        Form::Reasons
    } else {
        Form::Line
    };
    let keeps_going = matches.get_flag("keep-going");
    list(rt, matches, Style { form, keeps_going })
}

/// Writes the bodies of a file on standard output, one a line, and answers the exit status.
fn unwrap(rt: &HostRuntime, matches: &ArgMatches<'_>) -> u8 {
    let style = Style {
        form: Form::Body,
        keeps_going: false,
    };
    list(rt, matches, style)
}

/// Lists a file on standard output, and answers the exit status. What was listed is printed before a fault is told. Standard
/// input is listed while it comes.
fn list(rt: &HostRuntime, matches: &ArgMatches<'_>, style: Style) -> u8 {
    let Ok(limits) = dap_words::limits(matches) else {
        return USAGE;
    };
    if matches.get_str(FILE) == Some("-") {
        return list_input(rt, matches, limits, style);
    }
    let bytes = match read_file(rt, matches, FILE) {
        Ok(bytes) => bytes,
        Err(code) => return code,
    };
    let mut listing = Vec::new(rt.alloc());
    let shown = dap_tool::list(rt.alloc(), &bytes, limits, style, &mut listing);
    if print(rt, &listing).is_err() {
        return tell_unwritten(rt, matches, &ToolFault::Write);
    }
    let input = Subject {
        name: name_of(matches, FILE),
        bytes: &bytes,
    };
    match shown {
        Ok(shown) => tell_shown(rt, matches, input, shown),
        Err(fault) => tell(rt, matches, input, &ToolFault::Show(fault)),
    }
}

/// Lists standard input on standard output while it comes, and answers the exit status.
fn list_input(rt: &HostRuntime, matches: &ArgMatches<'_>, limits: Limits, style: Style) -> u8 {
    let mut pipe = Pipe::new(rt.reader(), io::writer(rt));
    let followed = follow(rt.alloc(), &mut pipe, limits, style, MAX_FILE);
    let input = Subject {
        name: INPUT,
        bytes: &followed.bytes,
    };
    match followed.end {
        Ok(shown) => tell_shown(rt, matches, input, shown),
        Err(FollowFault::Write) => tell_unwritten(rt, matches, &ToolFault::Write),
        Err(FollowFault::Read) => tell(rt, matches, input, &ToolFault::File(FileFault::Read)),
        Err(FollowFault::TooLong) => {
            tell(rt, matches, input, &ToolFault::File(FileFault::FileTooLong))
        }
        Err(FollowFault::Show(fault)) => tell(rt, matches, input, &ToolFault::Show(fault)),
    }
}

/// The exit status of a listing that met no fault, which tells where the stream was cut short.
fn tell_shown(rt: &HostRuntime, matches: &ArgMatches<'_>, input: Subject<'_>, shown: Shown) -> u8 {
    if shown.end == End::Truncated {
        return tell(rt, matches, input, &ToolFault::Truncated);
    }
    if shown.refused { FINDING } else { 0 }
}

/// Writes the lines of a file as frames on standard output, and answers the exit status. At a fault nothing is written.
fn wrap(rt: &HostRuntime, matches: &ArgMatches<'_>) -> u8 {
    let Ok(limits) = dap_words::limits(matches) else {
        return USAGE;
    };
    let bytes = match read_input(rt, matches) {
        Ok(bytes) => bytes,
        Err(code) => return code,
    };
    let input = Subject {
        name: name_of(matches, FILE),
        bytes: &bytes,
    };
    let frames = match dap_tool::wrap(rt.alloc(), &bytes, limits) {
        Ok(frames) => frames,
        Err(fault) => return tell(rt, matches, input, &ToolFault::Wrap(fault)),
    };
    match print(rt, &frames) {
        Ok(()) => 0,
        Err(_) => tell_unwritten(rt, matches, &ToolFault::Write),
    }
}

/// What is to be printed of a transcript.
fn check_options(matches: &ArgMatches<'_>) -> CheckOptions {
    let any_seq = match matches.get_str("any-seq") {
        None => AnySeq::OfNone,
        Some("client") => AnySeq::OfClient,
        Some("adapter") => AnySeq::OfAdapter,
        Some(_) => AnySeq::OfBoth,
    };
    CheckOptions {
        any_seq,
        all: matches.get_flag("all"),
        explained: matches.get_flag("explain"),
        unanswered: matches.get_flag("open"),
        bodies: matches.get_flag("bodies"),
    }
}

/// Prints what the options ask for of the transcript that a file is, and answers the exit status.
fn check(rt: &HostRuntime, matches: &ArgMatches<'_>) -> u8 {
    let bytes = match read_input(rt, matches) {
        Ok(bytes) => bytes,
        Err(code) => return code,
    };
    let input = Subject {
        name: name_of(matches, FILE),
        bytes: &bytes,
    };
    let options = check_options(matches);
    let verdict = match check_text(rt.alloc(), &bytes, options) {
        Ok(verdict) => verdict,
        Err(fault) => return tell(rt, matches, input, &ToolFault::Check(fault)),
    };
    match print(rt, &verdict.text) {
        Ok(()) if verdict.is_legal => 0,
        Ok(()) => FINDING,
        Err(_) => tell_unwritten(rt, matches, &ToolFault::Write),
    }
}

/// Runs both ends by the script that a file is, over the recording that another is, and writes the transcript on standard
/// output, and where it is asked for what is found in it on standard error. At a fault nothing is written.
fn drive(rt: &HostRuntime, matches: &ArgMatches<'_>) -> u8 {
    let Ok(limits) = dap_words::limits(matches) else {
        return USAGE;
    };
    let recording = match read_file(rt, matches, RECORDING) {
        Ok(bytes) => bytes,
        Err(code) => return code,
    };
    let script = match read_file(rt, matches, SCRIPT) {
        Ok(bytes) => bytes,
        Err(code) => return code,
    };
    if matches.get_flag("check") {
        return drive_checked(rt, matches, &recording, &script, limits);
    }
    let transcript = match dap_tool::drive(rt.alloc(), &recording, &script, limits) {
        Ok(transcript) => transcript,
        Err(fault) => return tell_driving(rt, matches, &recording, &script, fault),
    };
    match print(rt, &transcript) {
        Ok(()) => 0,
        Err(_) => tell_unwritten(rt, matches, &ToolFault::Write),
    }
}

/// The same, with what is found in the transcript.
fn drive_checked(
    rt: &HostRuntime,
    matches: &ArgMatches<'_>,
    recording: &[u8],
    script: &[u8],
    limits: Limits,
) -> u8 {
    let found = match drive_and_check(rt.alloc(), recording, script, limits) {
        Ok(found) => found,
        Err(fault) => return tell_driving(rt, matches, recording, script, fault),
    };
    let Ok(line) = verdict_line(rt.alloc(), found.checked) else {
        return tell_line(rt, &ToolFault::OutOfMemory);
    };
    if print(rt, &found.transcript).is_err() {
        return tell_unwritten(rt, matches, &ToolFault::Write);
    }
    // Where the line cannot be written, the status still tells.
    let _ = rt.stderr().write_all(line.as_bytes());
    match found.checked {
        Checked::Legal => 0,
        Checked::Finding { .. } => FINDING,
    }
}

/// Tells why a script is not run to its end: by its recording, or by a line of the script.
fn tell_driving(
    rt: &HostRuntime,
    matches: &ArgMatches<'_>,
    recording: &[u8],
    script: &[u8],
    fault: DriveFault,
) -> u8 {
    let (word, bytes) = match fault {
        DriveFault::Recording => (RECORDING, recording),
        _ => (SCRIPT, script),
    };
    let name = name_of(matches, word);
    tell(
        rt,
        matches,
        Subject { name, bytes },
        &ToolFault::Drive(fault),
    )
}

/// Is the adapter of a debugger in another program, and answers the exit status. A file that has no sources is told before
/// anything is read of the input.
fn host(rt: &HostRuntime, matches: &ArgMatches<'_>) -> u8 {
    let Ok(limits) = dap_words::limits(matches) else {
        return USAGE;
    };
    let host = match read_host(rt, matches, limits) {
        Ok(host) => host,
        Err(code) => return code,
    };
    let mut pipe = Pipe::new(rt.reader(), io::writer(rt));
    match host_channel(rt.alloc(), &mut pipe, host, most_reads()) {
        Ok(()) => 0,
        Err(ServeFault::Write { written }) => {
            tell_unwritten(
                rt,
                matches,
                &ToolFault::Serve(ServeFault::Write { written }),
            )
        }
        Err(fault) => tell(
            rt,
            matches,
            Subject {
                name: INPUT,
                bytes: &[],
            },
            &ToolFault::Serve(fault),
        ),
    }
}

/// The host of the sources that the command line names; or the exit status where the file has none, which is told.
fn read_host(rt: &HostRuntime, matches: &ArgMatches<'_>, limits: Limits) -> Result<Host, u8>
    ensures { IfOk result IsGoing }
{
    let bytes = read_file(rt, matches, SOURCES)?;
    let longest = dap_words::longest_line(matches) as usize;
    match Host::open(rt.alloc(), limits, longest, &bytes) {
        Ok(host) => Ok(host),
        Err(fault) => {
            let file = Subject {
                name: name_of(matches, SOURCES),
                bytes: &bytes,
            };
            match fault {
                HostFault::Sources(fault) => Err(tell_sources(rt, matches, file, fault)),
                HostFault::Offers(fault) => Err(tell_offers(rt, matches, file, fault)),
            }
        }
    }
}

/// The line that explains why what a file offers is refused.
fn offers_line(alloc: Global, name: &str, fault: &OffersFault) -> Result<Vec<u8>, AllocError> {
    let mut line = Vec::new(alloc);
    line.extend_from_slice(name.as_bytes())?;
    match fault {
        OffersFault::BadKey(key) => {
            line.extend_from_slice(b": the key ")?;
            line.extend_from_slice(key.as_str().as_bytes())?;
            line.extend_from_slice(b" of offers is refused: it can't be offered\n")?;
        }
        OffersFault::NotList => {
            line.extend_from_slice(b": the key open is refused: it is no list of names\n")?;
        }
        OffersFault::BadName(name) => {
            line.extend_from_slice(b": the name ")?;
            line.extend_from_slice(name.as_str().as_bytes())?;
            line.extend_from_slice(b" of open is refused: it can't be opened\n")?;
        }
        OffersFault::TooLarge => {
            line.extend_from_slice(
                b": the key offers is refused: it is too long for a response\n",
            )?;
        }
        _ => line.extend_from_slice(b": the key offers is refused: it is no object\n")?,
    }
    Ok(line)
}

/// Tells why what a file offers is refused: as a bad key.
fn tell_offers(
    rt: &HostRuntime,
    matches: &ArgMatches<'_>,
    file: Subject<'_>,
    fault: OffersFault,
) -> u8 {
    if matches!(fault, OffersFault::OutOfMemory) {
        return tell(rt, matches, file, &ToolFault::OutOfMemory);
    }
    let _ = rt.stderr().write_all(b"dap: BadKey\n");
    if dap_words::explains(matches) {
        // Where it finds no memory there is none.
        if let Ok(line) = offers_line(rt.alloc(), file.name, &fault) {
            let _ = rt.stderr().write_all(&line);
        }
    }
    FINDING
}

/// The line that explains why a file has no sources for a host.
fn sources_line(alloc: Global, name: &str, key: &str) -> Result<Vec<u8>, AllocError> {
    let mut line = Vec::new(alloc);
    line.extend_from_slice(name.as_bytes())?;
    line.extend_from_slice(b": the key ")?;
    line.extend_from_slice(key.as_bytes())?;
    line.extend_from_slice(b" is refused: there are sources, each with a name and a text\n")?;
    Ok(line)
}

/// Tells why a file has no sources for a host, as [`tell`] does: what else is in it is not looked at.
fn tell_sources(
    rt: &HostRuntime,
    matches: &ArgMatches<'_>,
    file: Subject<'_>,
    fault: RecordingFault,
) -> u8 {
    let RecordingFault::BadKey { key } = fault else {
        return tell(rt, matches, file, &ToolFault::Recording(fault));
    };
    let code = tell_line(rt, &ToolFault::Recording(fault));
    if dap_words::explains(matches) {
        // Where it finds no memory there is none.
        if let Ok(line) = sources_line(rt.alloc(), file.name, key.name()) {
            let _ = rt.stderr().write_all(&line);
        }
    }
    code
}

/// The recording that the command line names, not started; or the exit status where the file is none, which is told.
fn read_recording(rt: &HostRuntime, matches: &ArgMatches<'_>) -> Result<Recorded, u8>
    ensures { IfOk result (λ recording. recording.state ≡ State.NotStarted) }
{
    let bytes = read_file(rt, matches, RECORDING)?;
    match Recorded::read(rt.alloc(), &bytes) {
        Ok(recording) => Ok(recording),
        Err(fault) => {
            let file = Subject {
                name: name_of(matches, RECORDING),
                bytes: &bytes,
            };
            Err(tell(rt, matches, file, &ToolFault::Recording(fault)))
        }
    }
}

/// How a fault tells the standard streams.
const INPUT: &str = "standard input";

const OUTPUT: &str = "standard output";

/// The words of the command line that name files.
const FILE: &str = "file";

const RECORDING: &str = "recording";

const SCRIPT: &str = "script";

const SOURCES: &str = "sources";

/// The name of the file that a word of the command line names, or of standard input, where that is `-`.
fn name_of<'a>(matches: &'a ArgMatches<'_>, word: &str) -> &'a str {
    match matches.get_str(word) {
        Some("-") if word == FILE => INPUT,
        Some(path) => path,
        None => "",
    }
}

/// The bytes of the file that the command line names, or of standard input, where that is `-`; or the exit status, where it is
/// not read, which is told.
fn read_input(rt: &HostRuntime, matches: &ArgMatches<'_>) -> Result<Vec<u8>, u8> {
    if matches.get_str(FILE) != Some("-") {
        return read_file(rt, matches, FILE);
    }
    let mut input = Input {
        reader: rt.reader(),
    };
    match read_whole(rt.alloc(), &mut input, 0) {
        Ok(bytes) => Ok(bytes),
        Err(fault) => Err(tell_file(rt, matches, FILE, &ToolFault::File(fault))),
    }
}

/// The bytes of the file that a word of the command line names; or the exit status, where it is not read, which is told.
fn read_file(rt: &HostRuntime, matches: &ArgMatches<'_>, word: &str) -> Result<Vec<u8>, u8> {
    match read_named(rt, matches, word) {
        Ok(bytes) => Ok(bytes),
        Err(fault) => Err(tell_file(rt, matches, word, &fault)),
    }
}

/// Tells that a file is not read.
fn tell_file(rt: &HostRuntime, matches: &ArgMatches<'_>, word: &str, fault: &ToolFault) -> u8 {
    let name = name_of(matches, word);
    tell(rt, matches, Subject { name, bytes: &[] }, fault)
}

fn open_fault(error: &io::Error) -> OpenFault {
    match error.kind() {
        io::ErrorKind::NotFound => OpenFault::NotFound,
        io::ErrorKind::IsADirectory => OpenFault::IsDirectory,
        io::ErrorKind::PermissionDenied => OpenFault::PermissionDenied,
        _ => OpenFault::NotOpened,
    }
}

fn read_named(
    rt: &HostRuntime,
    matches: &ArgMatches<'_>,
    word: &str,
) -> Result<Vec<u8>, ToolFault> {
    // The command line has this word, or it was refused.
    let Some(path) = matches.get_str(word) else {
        return Err(ToolFault::Open(OpenFault::NotOpened));
    };
    let file = match File::open(rt, path) {
        Ok(file) => file,
        Err(error) => return Err(ToolFault::Open(open_fault(&error))),
    };
    let expected = match file.metadata() {
        // A directory is opened, and then no read of it succeeds.
        Ok(metadata) if metadata.is_dir() => return Err(ToolFault::Open(OpenFault::IsDirectory)),
        Ok(metadata) => metadata.len(),
        Err(_) => 0,
    };
    match read_whole(rt.alloc(), &mut Input { reader: file }, expected) {
        Ok(bytes) => Ok(bytes),
        Err(fault) => Err(ToolFault::File(fault)),
    }
}

/// Writes all bytes to standard output.
fn print(rt: &HostRuntime, bytes: &[u8]) -> io::Result<()> {
    let mut output = io::writer(rt);
    output.write_all(bytes)?;
    output.flush()
}

/// Writes a fault's line on standard error, and behind it, where it is asked for, the line that explains it. It answers the
/// fault's status, whether or not the lines went out.
fn tell(rt: &HostRuntime, matches: &ArgMatches<'_>, subject: Subject<'_>, fault: &ToolFault) -> u8 {
    let code = tell_line(rt, fault);
    if dap_words::explains(matches) {
        // Where it finds no memory there is none.
        if let Ok(line) = explanation(rt.alloc(), subject.name, subject.bytes, fault) {
            let _ = rt.stderr().write_all(&line);
        }
    }
    code
}

/// Writes a fault's line on standard error, and answers the fault's status.
fn tell_line(rt: &HostRuntime, fault: &ToolFault) -> u8 {
    match fault_line(rt.alloc(), fault) {
        Ok(line) => {
            let _ = rt.stderr().write_all(&line);
        }
        // The line of the fault finds no memory.
        Err(_) => {
            let _ = rt.stderr().write_all(b"dap: OutOfMemory\n");
        }
    }
    status(fault)
}

/// Tells a fault of standard output.
fn tell_unwritten(rt: &HostRuntime, matches: &ArgMatches<'_>, fault: &ToolFault) -> u8 {
    let output = Subject {
        name: OUTPUT,
        bytes: &[],
    };
    tell(rt, matches, output, fault)
}
