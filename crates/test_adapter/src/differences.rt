//! Rows that are wrong: each is told to be, in the line that differs.

use crate::playing::Playing;
use dap_replay::Recorded;
use std::alloc::Global;
use std::test::Fail;
use test_kit::outcome::Outcome;
use test_kit::rows::outcome_of;

/// A row, what it comes to, and in which of its lines.
static ROWS: [(&str, Outcome, usize); 11] = [
    (
        r#"row as it is
> {"seq":1,"type":"request","command":"threads"}
kept 1
turn
< notInitialized seq 1 to 1 threads
kept 0
phase Fresh"#,
        Outcome::Right,
        7,
    ),
    (
        r#"row another answer
> {"seq":1,"type":"request","command":"threads"}
turn
< wrongPhase seq 1 to 1 threads"#,
        Outcome::Wrong,
        4,
    ),
    (
        r#"row an answer less
> {"seq":1,"type":"request","command":"threads"}
turn
idle"#,
        Outcome::Wrong,
        4,
    ),
    (
        r#"row an answer more
> {"seq":1,"type":"request","command":"threads"}
turn
< notInitialized seq 1 to 1 threads
< notInitialized seq 1 to 1 threads"#,
        Outcome::Wrong,
        5,
    ),
    (
        r#"row another count
> {"seq":1,"type":"request","command":"threads"}
turn
< notInitialized seq 1 to 1 threads
kept 1"#,
        Outcome::Wrong,
        5,
    ),
    (
        r#"row a turn that is not idle
> {"seq":1,"type":"request","command":"threads"}
idle"#,
        Outcome::Wrong,
        3,
    ),
    (
        r#"row another phase
phase Ready"#,
        Outcome::Wrong,
        2,
    ),
    (
        r#"row a message less
bytes 1 "Content-Length: 46\r\n\r\n""#,
        Outcome::Wrong,
        2,
    ),
    (
        r#"row bytes that nobody takes
> {"seq":1,"type":"request","command":"threads"}
bytes 0 "Content-Length: 46\r\n\r\n{\"seq\":2,\"type\":\"request\",\"command\":\"threads\"}x""#,
        Outcome::Wrong,
        3,
    ),
    (
        r#"row another fault
> {"seq":1,"type":"request","command":"threads"}
> {"seq":1,"type":"request","command":"threads"}
! RepeatedSeq { seq: 2 }"#,
        Outcome::Wrong,
        4,
    ),
    (
        r#"row no fault
> {"seq":1,"type":"request","command":"threads"}
! RepeatedSeq { seq: 1 }"#,
        Outcome::Wrong,
        3,
    ),
];

/// The place of the first row that comes to something else; one that is refused memory comes to nothing.
fn first_difference(alloc: Global) -> Option<usize> {
    for (place, (row, outcome, line)) in ROWS.iter().enumerate() {
        let (found, at) = outcome_of::<Playing<Recorded>>(alloc, row);
        if found != Outcome::Refused && (found != *outcome || at != *line) {
            return Some(place);
        }
    }
    None
}

#[test]
fn wrong_rows_are_wrong(rt: HostRuntime) -> Result<(), Fail> {
    match first_difference(rt.alloc()) {
        None => Ok(()),
        Some(place) => Err(Fail::new(format_args!("row {place} comes to something else"))),
    }
}
