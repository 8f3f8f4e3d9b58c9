//! Runs of recordings, poll by poll, and what is told at each stop.

use crate::playing::{THREE_MOMENTS, is_moved, is_played, three_moments};
use crate::telling::{Query, is_told};
use dap_debuggee::Category;
use dap_json::Text;
use dap_replay::Recorded;
use std::alloc::Global;
use std::test::Fail;
use test_kit::stubborn::Stubborn;

static MOVES: [(&str, &str); 11] = [
    (
        "start poll poll poll",
        "done; stdout 3 go\n; entry 1 line 1; nothing; ",
    ),
    (
        "start poll poll next poll poll",
        "done; stdout 3 go\n; entry 1 line 1; done; step 1 line 2; nothing; ",
    ),
    (
        "start poll poll stepIn poll stepOut poll",
        "done; stdout 3 go\n; entry 1 line 1; done; step 1 line 3; done; step 1 line 2; ",
    ),
    (
        "start poll poll stepIn poll stepBack poll stepBack poll",
        "done; stdout 3 go\n; entry 1 line 1; done; step 1 line 3; done; step 1 line 1; done; step 1 line 1; ",
    ),
    (
        "start poll poll next poll line reverseContinue poll",
        "done; stdout 3 go\n; entry 1 line 1; done; step 1 line 2; set; done; breakpoint 1 line 1; ",
    ),
    (
        "start poll poll next poll line clear reverseContinue poll",
        "done; stdout 3 go\n; entry 1 line 1; done; step 1 line 2; set; set; done; entry 1 line 1; ",
    ),
    (
        "start poll poll continue poll poll pause poll continue poll poll",
        "done; stdout 3 go\n; entry 1 line 1; done; nothing; nothing; done; pause 1 line 2; done; exited 0; nothing; ",
    ),
    (
        "start pause poll poll poll",
        "done; done; stdout 3 go\n; entry 1 line 1; nothing; ",
    ),
    (
        "next pause poll start start",
        "refused; refused; nothing; done; refused; ",
    ),
    (
        "start poll poll pause end poll start next",
        "done; stdout 3 go\n; entry 1 line 1; refused; ended; nothing; refused; refused; ",
    ),
    (
        "start poll poll next line poll stepOut poll",
        "done; stdout 3 go\n; entry 1 line 1; done; set; step 1 line 2; done; exited 0; ",
    ),
];

#[test]
fn moves(rt: HostRuntime) {
    for (words, wanted) in &MOVES {
        assert!(rt;
            is_moved(rt.alloc(), THREE_MOMENTS, words, wanted),
            "{words}"
        );
    }
}

/// Five moments: the first, the second, in a function, and the last have a stop of their own; the fourth waits.
const STOPPING: &str =
    r#"{"exit":3,"sources":[{"name":"a.c","path":"/a.c","text":"one\ntwo\nthree\nfour\n"}],"moments":[{"thread":1,"threads":[{"id":1,"name":"main","frames":[{"name":"main","source":0,"line":1}]}],"stop":"library"},{"thread":1,"threads":[{"id":1,"name":"main","frames":[{"name":"f","source":0,"line":3},{"name":"main","source":0,"line":2}]}],"stop":"exception","description":"Thrown.","text":"f"},{"thread":1,"threads":[{"id":1,"name":"main","frames":[{"name":"main","source":0,"line":2}]}]},{"thread":1,"threads":[{"id":1,"name":"main","frames":[{"name":"main","source":0,"line":3}]}],"waits":true},{"thread":1,"threads":[{"id":1,"name":"main","frames":[{"name":"main","source":0,"line":4}]}],"stop":"signal"}]}"#;

static STOPS: [(&str, &str); 5] = [
    // Forward each of them stops a run, the first one too.
    (
        "start poll stepIn poll stepIn poll",
        "done; library 1 line 1; done; exception 1 line 3; done; step 1 line 2; ",
    ),
    // A function in which it stops is not stepped over; a waiting moment comes before a later stop.
    (
        "start poll next poll next poll continue poll pause poll continue poll continue poll",
        "done; library 1 line 1; done; exception 1 line 3; done; step 1 line 2; done; nothing; done; pause 1 line 3; done; signal 1 line 4; done; exited 3; ",
    ),
    // Backward none does, and the moment does not say why.
    (
        "start poll continue poll stepOut poll stepBack poll reverseContinue poll",
        "done; library 1 line 1; done; exception 1 line 3; done; step 1 line 2; done; step 1 line 3; done; entry 1 line 1; ",
    ),
    (
        "start poll continue poll line reverseContinue poll",
        "done; library 1 line 1; done; exception 1 line 3; set; done; breakpoint 1 line 1; ",
    ),
    // On the way out of a function.
    (
        "start poll stepOut poll",
        "done; library 1 line 1; done; exception 1 line 3; ",
    ),
];

#[test]
fn stops(rt: HostRuntime) {
    for (words, wanted) in &STOPS {
        assert!(rt; is_moved(rt.alloc(), STOPPING, words, wanted), "{words}");
    }
}

/// A query, and what it tells.
type Row = (Query, &'static str);

/// Whether a recording stands at its first moment once it was started.
fn is_at_the_first(alloc: Global, recorded: &mut Recorded) -> bool {
    let wanted = "done; stdout 3 go\n; entry 1 line 1; ";
    is_played(alloc, recorded, "start poll poll", wanted)
}

/// Whether a fresh run tells this, at its first moment or before the start.
fn is_right(alloc: Global, is_started: bool, query: Query, wanted: &str) -> bool {
    match three_moments(alloc) {
        Some(mut recorded) => {
            let is_so = (!is_started || is_at_the_first(alloc, &mut recorded))
                && is_told(alloc, &recorded, query, wanted);
            drop(recorded);
            is_so
        }
        None => false,
    }
}

/// The place of the first row that is told otherwise.
fn first_other(alloc: Global, is_started: bool, rows: &[Row]) -> Option<usize> {
    for (place, (query, wanted)) in rows.iter().enumerate() {
        if !is_right(alloc, is_started, *query, wanted) {
            return Some(place);
        }
    }
    None
}

/// Fails the test where a fresh run tells a row otherwise, at its first moment or before the start.
fn expect(rt: &HostRuntime, is_started: bool, rows: &[Row]) -> Result<(), Fail> {
    match first_other(rt.alloc(), is_started, rows) {
        None => Ok(()),
        Some(place) => {
            eprintln!(rt; "row {place} differs")?;
            Err(Fail::from("a row differs"))
        }
    }
}

#[test]
fn nothing_before_the_start(rt: HostRuntime) -> Result<(), Fail> {
    let rows = [
        (Query::Threads, ""),
        (Query::Frames(1), "refused"),
        (Query::Scopes(0), "refused"),
        (Query::Children(0), "refused"),
    ];
    expect(&rt, false, &rows)
}

#[test]
fn threads_told(rt: HostRuntime) -> Result<(), Fail> {
    let rows = [(Query::Threads, "1 main; ")];
    expect(&rt, true, &rows)
}

#[test]
fn frames_told(rt: HostRuntime) -> Result<(), Fail> {
    let rows = [
        (Query::Frames(1), "0 main 0 1; "),
        (Query::Frames(2), "refused"),
    ];
    expect(&rt, true, &rows)
}

#[test]
fn scopes_and_variables(rt: HostRuntime) -> Result<(), Fail> {
    let rows = [
        (Query::Scopes(0), "Locals: x=1; p=P+; "),
        (Query::Scopes(9), "refused"),
        (Query::Children(9), "refused"),
    ];
    expect(&rt, true, &rows)
}

#[test]
fn values(rt: HostRuntime) -> Result<(), Fail> {
    let rows = [
        (Query::Value(Some(0), "p"), "P of a=7; "),
        (Query::Value(Some(0), "q"), "refused"),
        (Query::Value(None, "p"), "refused"),
    ];
    expect(&rt, true, &rows)
}

#[test]
fn sources_told(rt: HostRuntime) -> Result<(), Fail> {
    let rows = [(Query::Sources, "a.c")];
    expect(&rt, false, &rows)
}

#[test]
fn contents(rt: HostRuntime) -> Result<(), Fail> {
    let rows = [
        (Query::Content(0), "one\ntwo\nthree\n"),
        (Query::Content(1), "refused"),
    ];
    expect(&rt, false, &rows)
}

#[test]
fn lines(rt: HostRuntime) -> Result<(), Fail> {
    let rows = [
        (Query::LinesByPath(&[3, 4, 0, 1, 4294967295]), "ynnyn"),
        (Query::LinesByReference(1, &[1, 2, 3, 4]), "yyyn"),
        (Query::LinesByReference(2, &[1, 2, 3, 4]), "nnnn"),
    ];
    expect(&rt, false, &rows)
}

/// Appends a recording of one moment that writes a byte and then a hundred characters of two bytes each.
fn add_recording(text: &mut String) -> bool {
    let front =
        r#"{"exit":-1,"sources":[{"name":"a","text":"x"}],"moments":[{"thread":1,"threads":[{"id":1,"name":"m","frames":[{"name":"f","source":0,"line":1}]}],"output":"a"#;
    if text.push_str(front).is_err() {
        return false;
    }
    for _ in 0..100 {
        if text.push_str("é").is_err() {
            return false;
        }
    }
    text.push_str(r#""}]}"#).is_ok()
}

fn is_cut(alloc: Global) -> bool {
    let mut recording = String::new(alloc);
    add_recording(&mut recording)
        && is_moved(
            alloc,
            recording.as_str(),
            "start poll poll poll stepIn poll",
            "done; stdout 127 long; stdout 74 long; entry 1 line 1; done; exited -1; ",
        )
}

/// Output is cut before a character, not within it.
#[test]
fn pieces_end_a_character(rt: HostRuntime) {
    assert!(rt; is_cut(rt.alloc()));
}

fn are_names(alloc: Global) -> bool {
    let Ok(name) = Text::copied(alloc, "gdb") else {
        return false;
    };
    let own = Category::Other(name);
    Category::Console.name() == "console"
        && Category::Stdout.name() == "stdout"
        && Category::Stderr.name() == "stderr"
        && own.name() == "gdb"
}

#[test]
fn names(rt: HostRuntime) {
    assert!(rt; are_names(rt.alloc()));
}

/// Sets of values, over the three moments: the object number of `Locals` is 1, and that of what `p` has is 0.
static SETS: [(&str, &str); 17] = [
    // What it would be is told, and nothing is set.
    (
        "start poll poll assigned:1:x:9 children:1",
        "done; stdout 3 go\n; entry 1 line 1; 9; x=1; p=P+; ; ",
    ),
    // It is seen among the variables, and as an expression.
    (
        "start poll poll assign:1:x:9 children:1 value:0:x",
        "done; stdout 3 go\n; entry 1 line 1; set; x=9; p=P+; ; 9; ",
    ),
    // What holds its children stays, and so do they.
    (
        "start poll poll assign:1:p:Q children:1 value:0:p children:0",
        "done; stdout 3 go\n; entry 1 line 1; set; x=1; p=Q+; ; Q of a=7; ; a=7; ; ",
    ),
    // Nothing else changes.
    (
        "start poll poll all assign:1:x:9 all",
        "done; stdout 3 go\n; entry 1 line 1; 1 main; : 0 main 0 1; : Locals: x=1; p=P+; : a=7; : x=1; p=P+; : 1: P of a=7; : a.c: one\ntwo\nthree\n: yyn: ; set; 1 main; : 0 main 0 1; : Locals: x=9; p=P+; : a=7; : x=9; p=P+; : 9: P of a=7; : a.c: one\ntwo\nthree\n: yyn: ; ",
    ),
    // Twice the same one; two of a holder; two holders.
    (
        "start poll poll assign:1:x:9 assign:1:x:10 children:1 value:0:x",
        "done; stdout 3 go\n; entry 1 line 1; set; set; x=10; p=P+; ; 10; ",
    ),
    (
        "start poll poll assign:1:x:9 assign:1:p:Q children:1",
        "done; stdout 3 go\n; entry 1 line 1; set; set; x=9; p=Q+; ; ",
    ),
    (
        "start poll poll assign:1:x:9 assign:0:a:8 children:1 children:0 value:0:p",
        "done; stdout 3 go\n; entry 1 line 1; set; set; x=9; p=P+; ; a=8; ; P of a=8; ; ",
    ),
    // A nested holder alone.
    (
        "start poll poll assigned:0:a:8 assign:0:a:8 children:0 children:1 value:0:a",
        "done; stdout 3 go\n; entry 1 line 1; 8; set; a=8; ; x=1; p=P+; ; refused; ",
    ),
    // No text is a value, too.
    (
        "start poll poll assign:1:x: children:1",
        "done; stdout 3 go\n; entry 1 line 1; set; x=; p=P+; ; ",
    ),
    // It is lost where it goes on, be it to the same moment.
    (
        "start poll poll assign:1:x:9 next poll stepBack poll stepBack poll children:1 value:0:x",
        "done; stdout 3 go\n; entry 1 line 1; set; done; step 1 line 2; done; step 1 line 3; done; step 1 line 1; x=1; p=P+; ; 1; ",
    ),
    (
        "start poll poll assign:1:x:9 assign:0:a:8 stepBack children:1 poll children:1 children:0",
        "done; stdout 3 go\n; entry 1 line 1; set; set; done; x=1; p=P+; ; step 1 line 1; x=1; p=P+; ; a=7; ; ",
    ),
    // It is kept where going on is refused, as of what runs; polls and lines take nothing away.
    (
        "start assign:1:x:9 next children:1 poll poll children:1 value:0:x",
        "done; set; refused; x=9; p=P+; ; stdout 3 go\n; entry 1 line 1; x=9; p=P+; ; 9; ",
    ),
    (
        "start poll poll assign:1:x:9 start pause line clear poll children:1",
        "done; stdout 3 go\n; entry 1 line 1; set; refused; refused; set; set; nothing; x=9; p=P+; ; ",
    ),
    // No such variable directly in the holder.
    (
        "start poll poll assigned:1:q:9 assigned:1:X:9 assigned:1::9 assigned:1:a:9 assigned:0:x:9 assign:1:q:9 children:1",
        "done; stdout 3 go\n; entry 1 line 1; refused; refused; refused; refused; refused; refused; x=1; p=P+; ; ",
    ),
    // No such holder.
    (
        "start poll poll assigned:2:x:9 assigned:18446744073709551615:x:9 assign:2:x:9 stepIn poll assigned:1:x:9 assign:1:x:9",
        "done; stdout 3 go\n; entry 1 line 1; refused; refused; refused; done; step 1 line 3; refused; refused; ",
    ),
    // Not before the start, nor once it is gone.
    (
        "assigned:1:x:9 assign:1:x:9 start assigned:1:x:9",
        "refused; refused; done; 9; ",
    ),
    (
        "start poll poll assign:1:x:9 end assigned:1:x:9 assign:1:x:9 children:1",
        "done; stdout 3 go\n; entry 1 line 1; set; ended; refused; refused; refused; ",
    ),
];

#[test]
fn sets(rt: HostRuntime) {
    for (words, wanted) in &SETS {
        assert!(rt;
            is_moved(rt.alloc(), THREE_MOMENTS, words, wanted),
            "{words}"
        );
    }
}

/// A moment with names that repeat: `x` stands twice in the scope `A`, whose object number is 1, and there the first has an `x`
/// of its own, in the holder 0; it stands once more in the scope `B`, which has the number 2.
const REPEATED: &str =
    r#"{"exit":0,"sources":[{"name":"a","text":"x"}],"moments":[{"thread":1,"threads":[{"id":1,"name":"m","frames":[{"name":"f","source":0,"line":1,"scopes":[{"name":"A","variables":[{"name":"y","value":"0"},{"name":"x","value":"1","variables":[{"name":"x","value":"2"}]},{"name":"x","value":"3"}]},{"name":"B","variables":[{"name":"x","value":"4"},{"name":"z","value":"5"}]}]}]}]}]}"#;

static REPEATS: [(&str, &str); 5] = [
    // The first of two of one name.
    (
        "start poll assign:1:x:9 children:0 children:1 children:2 value:0:x",
        "done; entry 1 line 1; set; x=2; ; y=0; x=9+; x=3; ; x=4; z=5; ; 9 of x=2; ; ",
    ),
    (
        "start poll assign:1:x:9 assign:1:x:8 children:1",
        "done; entry 1 line 1; set; set; y=0; x=8+; x=3; ; ",
    ),
    // That of a nested holder, and that of a later scope, which an expression does not name.
    (
        "start poll assign:0:x:9 children:0 children:1 value:0:x",
        "done; entry 1 line 1; set; x=9; ; y=0; x=1+; x=3; ; 1 of x=9; ; ",
    ),
    (
        "start poll assign:2:x:9 children:1 children:2 value:0:x",
        "done; entry 1 line 1; set; y=0; x=1+; x=3; ; x=9; z=5; ; 1 of x=2; ; ",
    ),
    // Expressions name the scopes in order.
    (
        "start poll assign:2:z:9 value:0:z assign:1:y:8 value:0:y stepBack poll value:0:z value:0:y",
        "done; entry 1 line 1; set; 9; set; 8; done; step 1 line 1; 5; 0; ",
    ),
];

#[test]
fn sets_where_names_repeat(rt: HostRuntime) {
    for (words, wanted) in &REPEATS {
        assert!(rt; is_moved(rt.alloc(), REPEATED, words, wanted), "{words}");
    }
}

/// Whether a debuggee answers so to some words.
fn is_answered(alloc: Global, stubborn: Stubborn, words: &str, wanted: &str) -> bool {
    let mut stubborn = stubborn;
    let is_so = is_played(alloc, &mut stubborn, words, wanted);
    drop(stubborn);
    is_so
}

/// How a stubborn debuggee is opened.
#[derive(Clone, Copy)]
enum Opening {
    /// It refuses its first start.
    Stubborn,
    /// It refuses nothing that the recording does not refuse.
    Willing,
    /// It refuses its first start, each pause and each way back, and says why.
    Saying,
}

fn stubborn(alloc: Global, opening: Opening, recorded: Recorded) -> Option<Stubborn> {
    match opening {
        Opening::Stubborn => Some(Stubborn::new(recorded)),
        Opening::Willing => Some(Stubborn::willing(recorded)),
        Opening::Saying => match Text::copied(alloc, "no") {
            Ok(why) => Some(Stubborn::saying(recorded, why)),
            Err(_) => None,
        },
    }
}

/// Whether a debuggee of the three moments answers so.
fn is_stubborn(alloc: Global, opening: Opening, words: &str, wanted: &str) -> bool {
    let Some(recorded) = three_moments(alloc) else {
        return false;
    };
    match stubborn(alloc, opening, recorded) {
        Some(debuggee) => is_answered(alloc, debuggee, words, wanted),
        None => false,
    }
}

/// A second debuggee keeps the laws: it may refuse, with a reason or without, and what is set gets a long value; else it is as the recording.
static STUBBORN: [(Opening, &str, &str); 5] = [
    (
        Opening::Stubborn,
        "start poll line start poll poll next poll end",
        "refused; nothing; set; done; stdout 3 go\n; entry 1 line 1; done; step 1 line 2; ended; ",
    ),
    (
        Opening::Stubborn,
        "start start start poll poll children:1",
        "refused; done; refused; stdout 3 go\n; entry 1 line 1; x=1; p=P+; ; ",
    ),
    (
        Opening::Willing,
        "start poll poll assigned:1:x:9 assigned:1:y:9 assign:1:x:9 children:1 value:0:x",
        "done; stdout 3 go\n; entry 1 line 1; long; refused; set; x=long; p=P+; ; long; ",
    ),
    (
        Opening::Willing,
        "start poll poll assign:1:x:9 stepBack poll children:1",
        "done; stdout 3 go\n; entry 1 line 1; set; done; step 1 line 1; x=1; p=P+; ; ",
    ),
    (
        Opening::Saying,
        "start start pause poll poll stepBack next poll",
        "explained; done; explained; stdout 3 go\n; entry 1 line 1; explained; done; step 1 line 2; ",
    ),
];

#[test]
fn a_stubborn_debuggee(rt: HostRuntime) {
    for (opening, words, wanted) in &STUBBORN {
        assert!(rt; is_stubborn(rt.alloc(), *opening, words, wanted), "{words}");
    }
}
