//! What the other files share: a recording, and what a debuggee answers to a list of words.
//!
//! What is answered is appended to a text; `false` or nothing comes where memory was refused, or where there is no answer.
//!
//! | a word | asks |
//! |---|---|
//! | `start`, `pause`, `poll`, `end`, `next` and the other five by which it goes on | that act |
//! | `line`, `clear` | sets line 1 of `/a.c`, or none |
//! | `assigned:HOLDER:NAME:TEXT` | what a variable would be set to |
//! | `assign:HOLDER:NAME:TEXT` | the same, and sets it if that is told |
//! | `children:HOLDER`, `value:FRAME:NAME` | the variables of a holder; what a name is worth in a frame |
//! | `all` | all that can be told of the first frame of the thread 1 |

use crate::telling::{add_all, add_children, add_value};
use dap_command::SourceKey;
use dap_debuggee::{ActFault, Debuggee, DebuggeeFault, Frame, Happening, How};
use dap_json::Text;
use dap_replay::Recorded;
use std::alloc::Global;
use std::fmt::Write;

/// Three moments of one thread: in `main`, in `f` below it, and in `main` again, where it waits.
pub(crate) const THREE_MOMENTS: &str =
    r#"{"exit":0,"sources":[{"name":"a.c","path":"/a.c","text":"one\ntwo\nthree\n"}],"moments":[{"thread":1,"output":"go\n","threads":[{"id":1,"name":"main","frames":[{"name":"main","source":0,"line":1,"scopes":[{"name":"Locals","variables":[{"name":"x","value":"1"},{"name":"p","value":"P","variables":[{"name":"a","value":"7"}]}]}]}]}]},{"thread":1,"threads":[{"id":1,"name":"main","frames":[{"name":"f","source":0,"line":3},{"name":"main","source":0,"line":1}]}]},{"thread":1,"waits":true,"threads":[{"id":1,"name":"main","frames":[{"name":"main","source":0,"line":2}]}]}]}"#;

/// The debuggee of it.
pub(crate) fn three_moments(alloc: Global) -> Option<Recorded> {
    read(alloc, THREE_MOMENTS)
}

fn read(alloc: Global, text: &str) -> Option<Recorded> {
    Recorded::read(alloc, text.as_bytes()).ok()
}

/// A fault, as a word.
pub(crate) fn faulted(fault: DebuggeeFault) -> &'static str {
    match fault {
        DebuggeeFault::Refused => "refused",
        DebuggeeFault::OutOfMemory => "memory",
    }
}

/// The answer of an act, as a word.
fn answered(done: Result<(), ActFault>) -> &'static str {
    match done {
        Ok(()) => "done",
        Err(ActFault::Refused(None)) => "refused",
        Err(ActFault::Refused(Some(_))) => "explained",
        Err(ActFault::OutOfMemory) => "memory",
    }
}

/// The line of the newest of some frames, 0 where there is none.
fn first_line(frames: &[Frame]) -> u32 {
    match frames.first() {
        Some(frame) => frame.line,
        None => 0,
    }
}

/// The line of a thread's newest frame.
fn newest_line<D: Debuggee>(alloc: Global, debuggee: &D, thread: i64) -> Option<u32> {
    match debuggee.frames(alloc, thread) {
        Ok(frames) => Some(first_line(&frames)),
        Err(_) => None,
    }
}

fn add_number(told: &mut String, word: &str, number: i64) -> bool {
    write!(told, "{word} {number}").is_ok()
}

/// A text, if it is short.
pub(crate) fn in_short(text: &str) -> &str {
    if text.len() > 20 { "long" } else { text }
}

fn add_output(told: &mut String, category: &str, text: &str) -> bool {
    let (length, text) = (text.len(), in_short(text));
    write!(told, "{category} {length} {text}").is_ok()
}

/// A stop, with the place that is shown by the thread's newest frame.
fn add_stop<D: Debuggee>(
    alloc: Global,
    debuggee: &D,
    reason: &str,
    thread: i64,
    told: &mut String,
) -> bool {
    match newest_line(alloc, debuggee, thread) {
        Some(line) => write!(told, "{reason} {thread} line {line}").is_ok(),
        None => false,
    }
}

/// What a poll gave, in short.
fn add_happening<D: Debuggee>(
    alloc: Global,
    debuggee: &D,
    happening: &Happening,
    told: &mut String,
) -> bool {
    match happening {
        Happening::Nothing => told.push_str("nothing").is_ok(),
        Happening::Output { category, text, .. } => {
            add_output(told, category.name(), text.as_str())
        }
        Happening::Stopped { reason, thread, .. } => {
            add_stop(alloc, debuggee, reason.as_str(), *thread, told)
        }
        Happening::Continued { thread } => add_number(told, "continued", *thread),
        Happening::Exited { code } => add_number(told, "exited", i64::from(*code)),
    }
}

pub(crate) fn add_poll<D: Debuggee>(alloc: Global, debuggee: &mut D, told: &mut String) -> bool {
    match debuggee.poll(alloc) {
        Ok(happening) => add_happening(alloc, debuggee, &happening, told),
        Err(_) => false,
    }
}

/// The source with the path `/a.c`.
pub(crate) fn source(alloc: Global) -> Option<SourceKey> {
    match Text::copied(alloc, "/a.c") {
        Ok(path) => Some(SourceKey::Path(path)),
        Err(_) => None,
    }
}

fn how_of(word: &str) -> Option<How> {
    match word {
        "stepIn" => Some(How::StepIn),
        "next" => Some(How::Next),
        "stepOut" => Some(How::StepOut),
        "continue" => Some(How::Continue),
        "stepBack" => Some(How::StepBack),
        "reverseContinue" => Some(How::ReverseContinue),
        _ => None,
    }
}

fn add_resumed<D: Debuggee>(
    alloc: Global,
    debuggee: &mut D,
    word: &str,
    told: &mut String,
) -> bool {
    match how_of(word) {
        Some(how) => told
            .push_str(answered(debuggee.resume(alloc, how, 1)))
            .is_ok(),
        None => false,
    }
}

fn add_end<D: Debuggee>(debuggee: &mut D, told: &mut String) -> bool {
    debuggee.end();
    told.push_str("ended").is_ok()
}

fn add_set<D: Debuggee>(alloc: Global, debuggee: &mut D, lines: &[u32], told: &mut String) -> bool {
    match source(alloc) {
        Some(source) => {
            debuggee.set_breakpoints(alloc, &source, lines).is_ok() && told.push_str("set").is_ok()
        }
        None => false,
    }
}

/// A variable of a holder, and the text that it is to be set to.
#[derive(Clone, Copy)]
struct Setting<'a> {
    holder: u64,
    name: &'a str,
    text: &'a str,
}

/// `HOLDER:NAME:TEXT`.
fn setting_of(words: &str) -> Option<Setting<'_>> {
    let (holder, rest) = words.split_once(":")?;
    let (name, text) = rest.split_once(":")?;
    let holder = holder.parse::<u64>().ok()?;
    Some(Setting { holder, name, text })
}

/// The value that a variable would be set to.
fn add_assigned<D: Debuggee>(
    alloc: Global,
    debuggee: &D,
    set: Setting<'_>,
    told: &mut String,
) -> bool {
    match debuggee.assigned(alloc, set.holder, set.name, set.text) {
        Ok(assigned) => told.push_str(in_short(assigned.value.as_str())).is_ok(),
        Err(fault) => told.push_str(faulted(fault)).is_ok(),
    }
}

/// A variable is set, where there is one.
fn add_assign<D: Debuggee>(
    alloc: Global,
    debuggee: &mut D,
    set: Setting<'_>,
    told: &mut String,
) -> bool {
    match debuggee.assigned(alloc, set.holder, set.name, set.text) {
        Ok(_) => {
            debuggee
                .assign(alloc, set.holder, set.name, set.text)
                .is_ok()
                && told.push_str("set").is_ok()
        }
        Err(fault) => told.push_str(faulted(fault)).is_ok(),
    }
}

/// What a word with a colon is answered.
fn add_of<D: Debuggee>(
    alloc: Global,
    debuggee: &mut D,
    word: &str,
    rest: &str,
    told: &mut String,
) -> bool {
    match word {
        "assigned" => match setting_of(rest) {
            Some(set) => add_assigned(alloc, debuggee, set, told),
            None => false,
        },
        "assign" => match setting_of(rest) {
            Some(set) => add_assign(alloc, debuggee, set, told),
            None => false,
        },
        "children" => match rest.parse::<u64>() {
            Ok(holder) => add_children(alloc, debuggee, holder, told),
            Err(_) => false,
        },
        "value" => match rest.split_once(":") {
            Some((frame, name)) => add_value(
                alloc,
                debuggee,
                frame.parse::<u64>().ok(),
                name,
                told,
            ),
            None => false,
        },
        _ => false,
    }
}

pub(crate) fn add_answer<D: Debuggee>(
    alloc: Global,
    debuggee: &mut D,
    word: &str,
    told: &mut String,
) -> bool {
    if let Some((word, rest)) = word.split_once(":") {
        return add_of(alloc, debuggee, word, rest, told);
    }
    match word {
        "start" => told.push_str(answered(debuggee.start(alloc))).is_ok(),
        "pause" => told.push_str(answered(debuggee.pause(alloc))).is_ok(),
        "end" => add_end(debuggee, told),
        "line" => add_set(alloc, debuggee, &[1], told),
        "clear" => add_set(alloc, debuggee, &[], told),
        "poll" => add_poll(alloc, debuggee, told),
        "all" => add_all(alloc, debuggee, told),
        _ => add_resumed(alloc, debuggee, word, told),
    }
}

/// What is asked, a word each, and what is answered, `; ` after each answer.
fn add_answers<D: Debuggee>(
    alloc: Global,
    debuggee: &mut D,
    words: &str,
    told: &mut String,
) -> bool {
    for word in words.split(' ') {
        if !add_answer(alloc, debuggee, word, told) || told.push_str("; ").is_err() {
            return false;
        }
    }
    true
}

/// Whether some words are answered so.
pub(crate) fn is_played<D: Debuggee>(
    alloc: Global,
    debuggee: &mut D,
    words: &str,
    wanted: &str,
) -> bool {
    let mut told = String::new(alloc);
    add_answers(alloc, debuggee, words, &mut told) && told.as_str() == wanted
}

/// Whether a fresh run of a recording answers so to some words.
pub(crate) fn is_moved(alloc: Global, recording: &str, words: &str, wanted: &str) -> bool {
    match read(alloc, recording) {
        Some(mut recorded) => {
            let is_so = is_played(alloc, &mut recorded, words, wanted);
            // The proof of a call is shorter than that of a value that goes out of scope.
            drop(recorded);
            is_so
        }
        None => false,
    }
}
