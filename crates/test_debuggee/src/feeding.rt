//! What a debuggee that a host feeds is told, and what it answers then.
//!
//! | a word | what |
//! |---|---|
//! | `!stop`, `!later` | the host tells a stop, whole or with more told later, and the debuggee is polled |
//! | `!empty` | the same with more told later, of a moment whose first scope came with no variables |
//! | `!tell:HOLDER:NAME:VALUE` | the same with a variable of a holder |
//! | `!learn:TEXT:VALUE` | the same with the value of a text, whose parts are those of holder 70 |
//! | `!no:TEXT:WHY` | the same with why a text has no value |
//! | `!why:TEXT` | why a text has no value, why no variable gets it, and why there are no scopes, each `-` where that is not said |
//! | `!sources` | the same with the sources of the recording, once more |
//! | `!dropped` | why what was told last is dropped |
//! | `!acts` | what the host has to do since it was asked last |
//! | `!all-sources`, `!second-text` | the sources; the text of the second |
//! | any other | as in `playing` |

use crate::playing::{add_answer, add_poll};
use crate::telling::{Query, add_told};
use dap_debuggee::{Debuggee, Explanation, HasMail, RefusedQuery, Variable};
use dap_json::{List, More, Text};
use dap_live::{Coming, Dropped, HostAct, Live, Mail};
use dap_recording::{Recording, Snapshot, Sources, Texts};
use std::alloc::Global;
use std::test::Fail;

/// A moment of one frame with two scopes, the first of which comes without its variables.
const TWO_SCOPES: &str =
    r#"{"exit":0,"sources":[{"name":"a.c","path":"/a.c","text":"one\n"}],"moments":[{"thread":1,"threads":[{"id":1,"name":"main","frames":[{"name":"main","source":0,"line":1,"scopes":[{"name":"Locals"},{"name":"Globals","variables":[{"name":"x","value":"1"}]}]}]}]}]}"#;

/// The first moment of a recording.
fn moment_of(alloc: Global, recording: &str) -> Option<Snapshot> {
    match Recording::read(alloc, recording.as_bytes()) {
        Ok(recording) => Some(Snapshot::first_of(recording)),
        Err(_) => None,
    }
}

fn two_scopes(alloc: Global) -> Option<Snapshot> {
    moment_of(alloc, TWO_SCOPES)
}

fn first_scope_empty(alloc: Global) -> Option<Snapshot> {
    let (before, after) = TWO_SCOPES.split_once(r#""Locals""#)?;
    let told = format!(in alloc; r#"{before}"Locals","variables":[]{after}"#).ok()?;
    moment_of(alloc, told.as_str())
}

fn its_sources(alloc: Global) -> Option<Sources> {
    let mut texts = Texts::new(alloc, 0).ok()?;
    Sources::of_file(&mut texts, TWO_SCOPES.as_bytes()).ok()
}

fn text(alloc: Global, text: &str) -> Option<Text> {
    Text::copied(alloc, text).ok()
}

fn stop(alloc: Global, shows: Snapshot, later: bool) -> Option<Coming> {
    Some(Coming::Stopped {
        reason: text(alloc, "step")?,
        thread: 1,
        shows,
        later,
        more: More::none(),
    })
}

fn variable(alloc: Global, name: &str, value: &str) -> Option<Variable> {
    Some(Variable {
        name: text(alloc, name)?,
        value: text(alloc, value)?,
        holder: None,
        more: More::none(),
    })
}

/// `HOLDER:NAME:VALUE`.
fn variables(alloc: Global, words: &str) -> Option<Coming> {
    let (holder, rest) = words.split_once(":")?;
    let (name, value) = rest.split_once(":")?;
    let mut variables = Vec::new(alloc);
    variables.push(variable(alloc, name, value)?).ok()?;
    Some(Coming::Variables {
        holder: holder.parse::<u64>().ok()?,
        variables: List::new(variables),
    })
}

/// `TEXT:VALUE`.
fn learned(alloc: Global, words: &str) -> Option<Coming> {
    let (name, value) = words.split_once(":")?;
    Some(Coming::Learned {
        text: text(alloc, name)?,
        value: Some(text(alloc, value)?),
        holder: Some(70),
        more: None,
    })
}

/// `TEXT:WHY`.
fn no_value(alloc: Global, words: &str) -> Option<Coming> {
    let (name, why) = words.split_once(":")?;
    Some(Coming::NoValue {
        text: text(alloc, name)?,
        why: Explanation {
            text: text(alloc, why)?,
            show_user: true,
        },
    })
}

fn sources(alloc: Global) -> Option<Coming> {
    Some(Coming::Sources(its_sources(alloc)?))
}

/// What a word tells.
fn coming(alloc: Global, word: &str) -> Option<Coming> {
    match word {
        "!stop" => stop(alloc, two_scopes(alloc)?, false),
        "!later" => stop(alloc, two_scopes(alloc)?, true),
        "!empty" => stop(alloc, first_scope_empty(alloc)?, true),
        "!sources" => sources(alloc),
        _ => {
            let (word, rest) = word.split_once(":")?;
            match word {
                "!tell" => variables(alloc, rest),
                "!learn" => learned(alloc, rest),
                "!no" => no_value(alloc, rest),
                _ => None,
            }
        }
    }
}

fn reason(dropped: Option<Dropped>) -> &'static str {
    match dropped {
        None => "heard",
        Some(Dropped::OutOfTurn) => "out of turn",
        Some(Dropped::OutOfRange) => "out of range",
        Some(Dropped::TooManySources) => "too many sources",
        Some(Dropped::Told) => "told",
        Some(Dropped::TooManyHolders) => "too many holders",
    }
}

fn act_name(act: &HostAct) -> &'static str {
    match act {
        HostAct::Start => "start ",
        HostAct::Resume { .. } => "resume ",
        HostAct::Pause => "pause ",
        HostAct::SetBreakpoints { .. } => "lines ",
        HostAct::Assign { .. } => "assign ",
        HostAct::End => "end ",
    }
}

/// The mail of the debuggee, which has none then.
fn mail_of(alloc: Global, live: &mut Live) -> Mail {
    live.exchange(Mail::new(alloc))
}

fn add_acts(alloc: Global, live: &mut Live, answers: &mut String) -> bool {
    let mut mail = mail_of(alloc, live);
    let taken = mail.take_acts(alloc);
    drop(live.exchange(mail));
    let Ok(acts) = taken else {
        return false;
    };
    for act in &acts {
        if answers.push_str(act_name(act)).is_err() {
            return false;
        }
    }
    true
}

fn add_reason(alloc: Global, live: &mut Live, answers: &mut String) -> bool {
    let mut mail = mail_of(alloc, live);
    let why = mail.take_dropped();
    drop(live.exchange(mail));
    answers.push_str(reason(why)).is_ok()
}

fn add_heard(alloc: Global, live: &mut Live, word: &str, answers: &mut String) -> bool {
    match coming(alloc, word) {
        None => false,
        Some(coming) => {
            let mut mail = mail_of(alloc, live);
            mail.post(coming);
            drop(live.exchange(mail));
            add_poll(alloc, live, answers)
        }
    }
}

/// Why a text has no value in no frame, and why no variable gets it.
fn add_why(alloc: Global, live: &Live, text: &str, answers: &mut String) -> bool {
    let (frame, holder, name) = (None, 0, "x");
    let queries = [
        RefusedQuery::Evaluate { frame, text },
        RefusedQuery::Assigned { holder, name, text },
        RefusedQuery::Scopes { frame: 0 },
    ];
    for query in &queries {
        let Ok(told) = live.why(alloc, *query) else {
            return false;
        };
        let is_told = match &told {
            None => answers.push_str("-").is_ok(),
            Some(told) => answers.push_str(told.text.as_str()).is_ok(),
        };
        if !is_told {
            return false;
        }
    }
    true
}

fn add_word(alloc: Global, live: &mut Live, word: &str, answers: &mut String) -> bool {
    match word {
        "!dropped" => add_reason(alloc, live, answers),
        "!acts" => add_acts(alloc, live, answers),
        "!all-sources" => add_told(alloc, live, Query::Sources, answers),
        "!second-text" => add_told(alloc, live, Query::Content(1), answers),
        _ => {
            if let Some(text) = word.strip_prefix("!why:") {
                add_why(alloc, live, text, answers)
            } else if word.starts_with("!") {
                add_heard(alloc, live, word, answers)
            } else {
                add_answer(alloc, live, word, answers)
            }
        }
    }
}

fn add_words(alloc: Global, live: &mut Live, words: &str, answers: &mut String) -> bool {
    for word in words.split(' ') {
        if !add_word(alloc, live, word, answers) || answers.push_str("; ").is_err() {
            return false;
        }
    }
    true
}

fn is_answered(alloc: Global, live: &mut Live, words: &str, wanted: &str) -> bool {
    let mut answers = String::new(alloc);
    add_words(alloc, live, words, &mut answers) && answers.as_str() == wanted
}

/// Whether a fresh debuggee answers so.
fn is_fed(alloc: Global, words: &str, wanted: &str) -> bool {
    let Some(sources) = its_sources(alloc) else {
        return false;
    };
    let mut live = Live::open(alloc, sources);
    let is_so = is_answered(alloc, &mut live, words, wanted);
    drop(live);
    is_so
}

static FEEDS: [(&str, &str); 12] = [
    // A moment that is whole.
    (
        "start !stop children:0 children:1 value:0:x",
        "done; step 1 line 1; ; x=1; ; 1; ",
    ),
    // A scope that is still to be told hides the one behind it, and is told once.
    (
        "start !later children:0 value:0:x !tell:0:x:2 !dropped children:0 value:0:x !tell:0:x:3 !dropped children:0",
        "done; step 1 line 1; refused; refused; nothing; heard; x=2; ; 2; nothing; told; x=2; ; ",
    ),
    // A scope that came with no variables has none, and is not told later.
    (
        "start !empty children:0 value:0:x !tell:0:x:2 !dropped children:0",
        "done; step 1 line 1; ; 1; nothing; told; ; ",
    ),
    // What the moment has is not told again, and nothing is told before a stop, nor once it is gone.
    (
        "start !tell:0:x:2 !dropped !stop !tell:0:x:2 !dropped !tell:1:x:2 !dropped end !tell:5:x:2 !dropped children:1",
        "done; nothing; out of turn; step 1 line 1; nothing; told; nothing; told; ended; nothing; out of turn; refused; ",
    ),
    // The parts of a value.
    (
        "start !stop !learn:p:P value:0:p !tell:70:a:7 value:0:p !learn:p:P value:0:p",
        "done; step 1 line 1; nothing; P of refused; nothing; refused; nothing; P of a=7; ; ",
    ),
    // A value is set in what was told, and in what the moment has.
    (
        "start !later !tell:0:x:2 assigned:0:x:9 !learn:9:9 assign:0:x:9 assign:0:y:9 assign:1:x:9 children:0 children:1 value:0:x",
        "done; step 1 line 1; nothing; refused; nothing; set; refused; set; x=9; ; x=9; ; 9; ",
    ),
    // It stays while the debuggee runs, and goes with the next stop.
    (
        "start !later !tell:0:x:2 next children:0 !tell:7:y:3 children:7 !later children:0 children:7",
        "done; step 1 line 1; nothing; done; x=2; ; nothing; y=3; ; step 1 line 1; refused; refused; ",
    ),
    // Sources come behind those there are, in any state.
    (
        "!second-text !sources !dropped !all-sources !second-text start !stop !sources !all-sources end !sources !all-sources",
        "refused; nothing; heard; a.ca.c; one\n; done; step 1 line 1; nothing; a.ca.ca.c; ended; nothing; a.ca.ca.ca.c; ",
    ),
    // A stop where it is stopped.
    (
        "start !stop !stop !dropped !dropped",
        "done; step 1 line 1; nothing; out of turn; heard; ",
    ),
    // Several acts at once come in the order in which they were asked, each once; what is refused is none.
    (
        "line start start pause next !acts !stop pause !learn:9:9 assign:1:x:9 assign:1:y:9 clear next end !acts !acts",
        "set; done; refused; done; refused; lines start pause ; step 1 line 1; refused; nothing; set; refused; set; done; ended; assign lines resume end ; ; ",
    ),
    // Why a text has no value is of that text alone, also where the moment has one, and is forgotten by the next poll.
    (
        "start !stop !why:q !no:x:gone value:0:x !why:x !why:q !learn:x:5 !why:x !no:q:lost !sources !why:q value:0:x",
        "done; step 1 line 1; ---; nothing; refused; gonegone-; ---; nothing; ---; nothing; nothing; ---; 1; ",
    ),
    // What a text comes to is forgotten by the next poll.
    (
        "start !stop !learn:x:5 value:0:x !sources value:0:x",
        "done; step 1 line 1; nothing; 5 of refused; nothing; 1; ",
    ),
];

#[test]
fn feeds(rt: HostRuntime) {
    for (words, wanted) in &FEEDS {
        assert!(rt; is_fed(rt.alloc(), words, wanted), "{words}");
    }
}
