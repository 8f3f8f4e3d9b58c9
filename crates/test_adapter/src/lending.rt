//! Requests of commands that whoever opened the adapter answers: lent, answered or refused. What the lines of a row say stands
//! in `holding.rt`.

use crate::emitting::text_of;
use crate::holding::{CONFIGURED, Holder, INITIALIZE, LAUNCH, adapter_after, answer, body_in};
use dap_adapter::{
    Adapter, Entry, Offer, Opened, Opening, Outcome, first_body, is_plain_outcome, offers_fit,
};
use dap_frame::{LimitFault, Limits};
use dap_json::{Text, Tree, parse};
use dap_replay::Recorded;
use std::alloc::Global;
use std::marker::Model;
use std::test::Fail;
use test_kit::rows::play_rows;
use test_kit::samples::RECORDING;

pub(crate) static ROWS: [&str; 22] = [
    r#"
row nothing is opened
from stopped
> {"seq":4,"type":"request","command":"completions","arguments":{"text":"to","column":3}}
< unsupported seq 7 to 4 completions
> {"seq":5,"type":"request","command":"readMemory"}
< unknownCommand seq 8 to 5 readMemory
lent
"#,
    r#"
row lent and answered
opened completions!
from stopped
lent
> {"seq":4,"type":"request","command":"completions","arguments":{"text":"to","column":3}}
lent 4
success 4 {"targets":[{"label":"total"}]}
< {"body":{"targets":[{"label":"total"}]},"command":"completions","request_seq":4,"seq":7,"success":true,"type":"response"}
lent
"#,
    r#"
row without a body
opened mine
from ready
> {"seq":2,"type":"request","command":"mine"}
> {"seq":3,"type":"request","command":"mine"}
success 2
< {"command":"mine","request_seq":2,"seq":3,"success":true,"type":"response"}
failure 3 notNow
< {"command":"mine","message":"notNow","request_seq":3,"seq":4,"success":false,"type":"response"}
lent
"#,
    r#"
row a failure
opened readMemory
from ready
> {"seq":2,"type":"request","command":"readMemory","arguments":{"memoryReference":"0x10","count":4}}
failure 2 notNow {"error":{"id":7,"format":"Not now."}}
< {"body":{"error":{"format":"Not now.","id":7}},"command":"readMemory","message":"notNow","request_seq":2,"seq":3,"success":false,"type":"response"}
lent
"#,
    r#"
row what is asked
opened readMemory completions
from ready
> {"seq":2,"type":"request","command":"readMemory","arguments":{"memoryReference":"0x10","count":4}}
> {"seq":3,"type":"request","command":"readMemory","arguments":[1,null]}
> {"seq":4,"type":"request","command":"completions","arguments":{"text":"to","column":3,"more":{}}}
> {"seq":5,"type":"request","command":"readMemory"}
lent 2 3 4 5
echo 2
< {"body":{"count":4,"memoryReference":"0x10"},"command":"readMemory","request_seq":2,"seq":3,"success":true,"type":"response"}
echo 4
< {"body":{"column":3,"more":{},"text":"to"},"command":"completions","request_seq":4,"seq":4,"success":true,"type":"response"}
echo 3
< {"body":[1,null],"command":"readMemory","request_seq":3,"seq":5,"success":true,"type":"response"}
echo 5
< {"command":"readMemory","request_seq":5,"seq":6,"success":true,"type":"response"}
"#,
    r#"
row in the other order
opened completions! readMemory!
from stopped
> {"seq":4,"type":"request","command":"completions","arguments":{"text":"to","column":3}}
> {"seq":5,"type":"request","command":"readMemory"}
lent 4 5
success 5 {"address":"0x10"}
< {"body":{"address":"0x10"},"command":"readMemory","request_seq":5,"seq":7,"success":true,"type":"response"}
lent 4
success 4 {"targets":[]}
< {"body":{"targets":[]},"command":"completions","request_seq":4,"seq":8,"success":true,"type":"response"}
lent
"#,
    r#"
row a pause behind it is served
opened completions
from stopped
> {"seq":4,"type":"request","command":"continue","arguments":{"threadId":1}}
< {"body":{"allThreadsContinued":true},"command":"continue","request_seq":4,"seq":7,"success":true,"type":"response"}
> {"seq":5,"type":"request","command":"completions","arguments":{"text":"to","column":3}}
lent 5
> {"seq":6,"type":"request","command":"pause","arguments":{"threadId":1}}
< {"command":"pause","request_seq":6,"seq":8,"success":true,"type":"response"}
< {"body":{"allThreadsStopped":true,"reason":"pause","threadId":1},"event":"stopped","seq":9,"type":"event"}
lent 5
success 5
< {"command":"completions","request_seq":5,"seq":10,"success":true,"type":"response"}
"#,
    r#"
row cancelled while it is lent
opened completions!
from stopped
> {"seq":4,"type":"request","command":"completions","arguments":{"text":"to","column":3}}
> {"seq":5,"type":"request","command":"completions","arguments":{"text":"t","column":2}}
> {"seq":6,"type":"request","command":"cancel","arguments":{"requestId":4}}
< cancelled seq 7 to 4 completions
< {"command":"cancel","request_seq":6,"seq":8,"success":true,"type":"response"}
lent 5
success 4 {"targets":[]}
! NotLent
success 5 {"targets":[]}
< {"body":{"targets":[]},"command":"completions","request_seq":5,"seq":9,"success":true,"type":"response"}
"#,
    r#"
# By arrival, and not by their numbers.
row disconnect answers what is lent
opened mine
from ready
> {"seq":9,"type":"request","command":"mine"}
> {"seq":5,"type":"request","command":"mine"}
lent 9 5
> {"seq":10,"type":"request","command":"disconnect"}
< cancelled seq 3 to 9 mine
< cancelled seq 4 to 5 mine
< {"command":"disconnect","request_seq":10,"seq":5,"success":true,"type":"response"}
lent
success 9
! NotLent
"#,
    r#"
# Two places are left for others: so `threads` is answered, and `disconnect`.
row two of four are lent
limits 8192 4194304 4 65536 4096 9007199254740991 2147483647
opened mine
from ready
> {"seq":2,"type":"request","command":"mine"}
> {"seq":3,"type":"request","command":"mine"}
lent 2 3
> {"seq":4,"type":"request","command":"mine"}
< busy seq 3 to 4 mine
lent 2 3
> {"seq":5,"type":"request","command":"threads"}
< {"body":{"threads":[]},"command":"threads","request_seq":5,"seq":4,"success":true,"type":"response"}
success 2
< {"command":"mine","request_seq":2,"seq":5,"success":true,"type":"response"}
> {"seq":6,"type":"request","command":"mine"}
lent 3 6
> {"seq":7,"type":"request","command":"disconnect"}
< cancelled seq 6 to 3 mine
< cancelled seq 7 to 6 mine
< {"command":"disconnect","request_seq":7,"seq":8,"success":true,"type":"response"}
"#,
    r#"
row none of two is lent
limits 8192 4194304 2 65536 4096 9007199254740991 2147483647
opened mine
from ready
> {"seq":2,"type":"request","command":"mine"}
< busy seq 3 to 2 mine
lent
"#,
    r#"
# The number of an answered request may come again.
row answered twice
opened mine
from ready
success 2
! NotLent
> {"seq":2,"type":"request","command":"mine"}
success 2 {"first":1}
< {"body":{"first":1},"command":"mine","request_seq":2,"seq":3,"success":true,"type":"response"}
success 2 {"second":2}
! NotLent
failure 2 notNow
! NotLent
> {"seq":2,"type":"request","command":"mine"}
lent 2
success 2 {"third":3}
< {"body":{"third":3},"command":"mine","request_seq":2,"seq":4,"success":true,"type":"response"}
"#,
    r#"
row before initialize
opened completions! mine
> {"seq":1,"type":"request","command":"completions"}
< notInitialized seq 1 to 1 completions
> {"seq":2,"type":"request","command":"mine"}
< notInitialized seq 2 to 2 mine
lent
"#,
    r#"
# A bad key comes before the phase.
row bad arguments
opened completions!
from ready
> {"seq":2,"type":"request","command":"completions","arguments":{"column":3}}
< badArguments text seq 3 to 2 completions
> {"seq":3,"type":"request","command":"completions","arguments":{"text":"to","column":"3"}}
< badArguments column seq 4 to 3 completions
> {"seq":4,"type":"request","command":"completions"}
< badArguments arguments seq 5 to 4 completions
lent
"#,
    r#"
row of stops alone, where there is no debuggee
opened completions! readMemory! mine
from ready
> {"seq":2,"type":"request","command":"completions","arguments":{"text":"to","column":3}}
< wrongPhase seq 3 to 2 completions
> {"seq":3,"type":"request","command":"readMemory"}
< wrongPhase seq 4 to 3 readMemory
> {"seq":4,"type":"request","command":"mine"}
lent 4
"#,
    r#"
row of stops alone, after the end of the debuggee
opened readMemory! mine
from stopped
> {"seq":4,"type":"request","command":"terminate"}
< {"command":"terminate","request_seq":4,"seq":7,"success":true,"type":"response"}
< {"event":"terminated","seq":8,"type":"event"}
> {"seq":5,"type":"request","command":"readMemory"}
< wrongPhase seq 9 to 5 readMemory
> {"seq":6,"type":"request","command":"mine"}
lent 6
"#,
    r#"
row of stops alone, while it runs
opened completions! mine
from stopped
> {"seq":4,"type":"request","command":"continue","arguments":{"threadId":1}}
< {"body":{"allThreadsContinued":true},"command":"continue","request_seq":4,"seq":7,"success":true,"type":"response"}
> {"seq":5,"type":"request","command":"completions","arguments":{"text":"to","column":3}}
< notStopped seq 8 to 5 completions
> {"seq":6,"type":"request","command":"mine"}
lent 6
"#,
    r#"
# Where no more may be lent, an earlier reason is still told.
row busy comes last
limits 8192 4194304 3 65536 4096 9007199254740991 2147483647
opened completions! mine
from ready
> {"seq":2,"type":"request","command":"mine"}
lent 2
> {"seq":3,"type":"request","command":"completions"}
< badArguments arguments seq 3 to 3 completions
> {"seq":4,"type":"request","command":"completions","arguments":{"text":"to","column":3}}
< wrongPhase seq 4 to 4 completions
> {"seq":5,"type":"request","command":"mine"}
< busy seq 5 to 5 mine
lent 2
"#,
    r#"
row it outlives its stop
opened completions!
from stopped
> {"seq":4,"type":"request","command":"completions","arguments":{"text":"to","column":3}}
> {"seq":5,"type":"request","command":"continue","arguments":{"threadId":1}}
< {"body":{"allThreadsContinued":true},"command":"continue","request_seq":5,"seq":7,"success":true,"type":"response"}
lent 4
success 4 {"targets":[]}
< {"body":{"targets":[]},"command":"completions","request_seq":4,"seq":8,"success":true,"type":"response"}
lent
"#,
    r#"
# A parked launch is not lent, and a start answers none that is.
row a start
opened mine
from ready
> {"seq":2,"type":"request","command":"mine"}
> {"seq":3,"type":"request","command":"launch"}
lent 2
success 3
! NotLent
> {"seq":4,"type":"request","command":"configurationDone"}
< {"command":"configurationDone","request_seq":4,"seq":3,"success":true,"type":"response"}
< {"command":"launch","request_seq":3,"seq":4,"success":true,"type":"response"}
< {"body":{"category":"stdout","output":"go\n"},"event":"output","seq":5,"type":"event"}
< {"body":{"allThreadsStopped":true,"reason":"entry","threadId":1},"event":"stopped","seq":6,"type":"event"}
lent 2
success 2
< {"command":"mine","request_seq":2,"seq":7,"success":true,"type":"response"}
"#,
    r#"
row a parked launch is not cancelled, and what is lent is
opened mine
from ready
> {"seq":2,"type":"request","command":"launch"}
> {"seq":3,"type":"request","command":"mine"}
> {"seq":4,"type":"request","command":"cancel","arguments":{"requestId":2}}
< {"command":"cancel","request_seq":4,"seq":3,"success":true,"type":"response"}
> {"seq":5,"type":"request","command":"cancel","arguments":{"requestId":3}}
< cancelled seq 4 to 3 mine
< {"command":"cancel","request_seq":5,"seq":5,"success":true,"type":"response"}
lent
"#,
    r#"
row a closed adapter answers none
opened mine
from ready
> {"seq":2,"type":"request","command":"mine"}
closed
success 2
! Closed
success 3
! Closed
lent 2
"#,
];

#[test]
fn opened_commands_are_lent(rt: HostRuntime) -> Result<(), Fail> {
    play_rows::<Holder>(&rt, &ROWS, usize::MAX)
}

// ---- limits

/// A request, the length of a text, and how the answer that has it as its body ends; or why there is none. The adapter's bodies
/// have at most 1024 bytes, and it has three own numbers. Around the text are 85 bytes.
static LENGTHS: [(u64, usize, &str); 6] = [
    (2, 940, "TooLarge"),
    (
        2,
        939,
        r#"x","command":"mine","request_seq":2,"seq":3,"success":true,"type":"response"}"#,
    ),
    (2, 1, "NotLent"),
    (3, 939, "SeqExhausted"),
    (3, 940, "TooLarge"),
    (4, 940, "NotLent"),
];

/// Whether an answer with a text of so many bytes has 1024 bytes and ends so, or is refused for the reason of this name.
fn is_answered_in(
    alloc: Global,
    adapter: &mut Adapter<Recorded>,
    seq: u64,
    bytes: usize,
    wanted: &str,
) -> bool {
    let Ok(text) = text_of(alloc, bytes) else {
        return false;
    };
    let Ok(body) = body_in(alloc, text.as_str()) else {
        return false;
    };
    let outcome = Outcome::Success(body);
    match answer(alloc, adapter, seq, &outcome) {
        Ok(out) => match first_body(&out) {
            Some((body, _)) => body.len() == 1024 && body.ends_with(wanted.as_bytes()),
            None => false,
        },
        Err(why) => why == wanted,
    }
}

#[test]
fn answers_keep_to_the_limits(rt: HostRuntime) -> Result<(), Fail> {
    let Ok(limits) = Limits::usual().with(LimitFault::Body, 1024) else {
        return Err(Fail::from("limits that are refused"));
    };
    let Ok(limits) = limits.with(LimitFault::Seq, 3) else {
        return Err(Fail::from("limits that are refused"));
    };
    let messages = [
        INITIALIZE,
        r#"{"seq":2,"type":"request","command":"mine"}"#,
        r#"{"seq":3,"type":"request","command":"mine"}"#,
    ];
    let Some(mut adapter) = adapter_after(rt.alloc(), limits, "mine", &messages) else {
        return Err(Fail::from("no adapter"));
    };
    for row in &LENGTHS {
        let (seq, bytes, wanted) = *row;
        assert!(rt; is_answered_in(rt.alloc(), &mut adapter, seq, bytes, wanted));
    }
    Ok(())
}

// ---- a debugger that answers itself

/// A debugger that answers `completions`. The code is that of `docs/OWN_DEBUGGER.md`. A contract sees nothing of it.
#[derive(Drop)]
struct Completing {
    alloc: Global,
    adapter: Adapter<Recorded>,
    /// What goes to the client, as frames.
    out: Vec<u8>,
}

impl Model for Completing {
    ghost use Rattle.std.specs.Prelude.{ℕ};

    ghost Value = { ℕ };

    ghost view = { λ _. 0 };
}

/// What is offered as usual, and `completions`.
fn offer(alloc: Global) -> Option<Offer> {
    let name = Text::copied(alloc, "completions").ok()?;
    let mut commands = Vec::new(alloc);
    commands
        .push(Opened {
            name,
            in_stops: true,
        })
        .ok()?;
    let beside = parse(alloc, b"{}").ok()?;
    let opening = Opening::of(alloc, commands).ok()?;
    Offer::read_opening(alloc, &beside, opening).ok()
}

fn open(alloc: Global, limits: Limits) -> Option<Adapter<Recorded>> {
    let offer = offer(alloc)?;
    let Ok(true) = offers_fit(alloc, limits, &offer) else {
        return None;
    };
    let debuggee = Recorded::read(alloc, RECORDING).ok()?;
    Adapter::open_with(alloc, limits, debuggee, offer).ok()
}

/// How a request that is lent comes out.
fn outcome_of(alloc: Global, request: &Entry) -> Option<Outcome> {
    let body = match request.command.as_str() {
        "completions" => parse(alloc, br#"{"targets":[{"label":"total"}]}"#).ok()?,
        _ => return None,
    };
    Some(Outcome::Success(Some(Tree::new(body))))
}

impl Completing {
    /// Answers each request that is lent, the oldest first.
    fn answer_lent(&mut self) -> Option<()> {
        for _ in 0..self.adapter.kept() {
            let Some(request) = self.adapter.lent().next() else {
                return Some(());
            };
            let seq = request.seq;
            let outcome = outcome_of(self.alloc, request)?;
            if !is_plain_outcome(&outcome) {
                return None;
            }
            self.adapter
                .respond(self.alloc, seq, &outcome, &mut self.out)
                .ok()?;
        }
        Some(())
    }

    /// What goes out for a message, and for what is lent then, is in `out`.
    fn hears(&mut self, message: &str) -> Option<()> {
        self.out.clear();
        self.adapter
            .answer_body(self.alloc, message.as_bytes(), &mut self.out)
            .ok()?;
        self.answer_lent()
    }

    fn hears_all(&mut self, messages: &[&str]) -> Option<()> {
        for message in messages {
            self.hears(message)?;
        }
        Some(())
    }
}

/// Whether just this goes out for the last of these messages.
fn completes(alloc: Global, messages: &[&str], wanted: &str) -> bool {
    let Some(adapter) = open(alloc, Limits::usual()) else {
        return false;
    };
    let mut completing = Completing {
        alloc,
        adapter,
        out: Vec::new(alloc),
    };
    let heard = completing.hears_all(messages).is_some();
    let is_so = match first_body(&completing.out) {
        Some((body, rest)) => body == wanted.as_bytes() && rest.is_empty(),
        None => false,
    };
    // The proof of a call is shorter than that of a value that goes out of scope.
    drop(completing);
    heard && is_so
}

#[test]
fn a_debugger_answers_completions(rt: HostRuntime) -> Result<(), Fail> {
    let messages = [
        INITIALIZE,
        LAUNCH,
        CONFIGURED,
        r#"{"seq":4,"type":"request","command":"completions","arguments":{"text":"to","column":3}}"#,
    ];
    let wanted =
        r#"{"body":{"targets":[{"label":"total"}]},"command":"completions","request_seq":4,"seq":7,"success":true,"type":"response"}"#;
    assert!(rt; completes(rt.alloc(), &messages, wanted));
    Ok(())
}
