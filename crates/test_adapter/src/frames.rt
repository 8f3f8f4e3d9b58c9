//! Frames that an adapter takes or refuses, in pieces of each size. What the lines of a row say stands in `playing.rt`.

use crate::playing::Playing;
use dap_replay::Recorded;
use std::test::Fail;
use test_kit::rows::play_rows;

pub(crate) static FRAMES: [&str; 13] = [
    r#"
# The length of a frame may stand beside another field, in any case and with zeros before it.
row another header field
bytes 1 "X-Note: hi\r\ncontent-length:0046\r\n\r\n{\"seq\":1,\"type\":\"request\",\"command\":\"threads\"}"
kept 1
turn
< notInitialized seq 1 to 1 threads
"#,
    r#"
row two lengths
bytes 0 "Content-Length: 2\r\nContent-Length: 2\r\n\r\n"
! Frame(FrameFault { cause: TwoLengths, offset: 0 })
"#,
    r#"
row an empty line
bytes 0 "\r\n\r\n"
! Frame(FrameFault { cause: BadHeader, offset: 0 })
"#,
    r#"
row no length
bytes 0 "A: b\r\n\r\n"
! Frame(FrameFault { cause: NoLength, offset: 0 })
"#,
    r#"
row a length that is no number
bytes 0 "Content-Length: 2x\r\n\r\n"
! Frame(FrameFault { cause: BadLength, offset: 0 })
"#,
    r#"
row the longest header block
limits 32 4194304 64 65536 4096 9007199254740991 2147483647
bytes 0 "Content-Length: 000000000002\r\n\r\n{}"
! Body { cause: BadSeq, offset: 0 }
"#,
    r#"
row a header block that is too long
limits 32 4194304 64 65536 4096 9007199254740991 2147483647
bytes 1 "Content-Length: 000000000046\r\n\r\n{\"seq\":1,\"type\":\"request\",\"command\":\"threads\"}"
kept 1
bytes 0 "Content-Length: 0000000000002\r\n\r\n"
! Frame(FrameFault { cause: HeaderTooLong, offset: 78 })
"#,
    r#"
row twenty digits
limits 128 4194304 64 65536 4096 9007199254740991 2147483647
bytes 0 "Content-Length: 99999999999999999999\r\n\r\n"
! Frame(FrameFault { cause: BodyTooLong, offset: 0 })
"#,
    r#"
row sixty digits
limits 128 4194304 64 65536 4096 9007199254740991 2147483647
bytes 0 "Content-Length: 999999999999999999999999999999999999999999999999999999999999\r\n\r\n"
! Frame(FrameFault { cause: BodyTooLong, offset: 0 })
"#,
    r#"
row a body without bytes
bytes 0 "Content-Length: 0\r\n\r\n"
! Body { cause: NotJson, offset: 0 }
"#,
    r#"
row a frame without its last byte
bytes 0 "Content-Length: 46\r\n\r\n{\"seq\":1,\"type\":\"request\",\"command\":\"threads\""
held 45
phase Fresh
"#,
    r#"
row a part of a header block
bytes 0 "Content-Length: 46\r\n"
held 20
phase Fresh
"#,
    r#"
# The longest body is taken, and one that is longer is not.
row a body that is too long
limits 8192 1024 64 65536 4096 9007199254740991 2147483647
bytes 1 "Content-Length: 1024\r\n\r\n{\"seq\":1,\"type\":\"event\",\"event\":\"aaaaaaaaaaaaaaaaaaaaaaaaaaaaaaaaaaaaaaaaaaaaaaaaaaaaaaaaaaaaaaaaaaaaaaaaaaaaaaaaaaaaaaaaaaaaaaaaaaaaaaaaaaaaaaaaaaaaaaaaaaaaaaaaaaaaaaaaaaaaaaaaaaaaaaaaaaaaaaaaaaaaaaaaaaaaaaaaaaaaaaaaaaaaaaaaaaaaaaaaaaaaaaaaaaaaaaaaaaaaaaaaaaaaaaaaaaaaaaaaaaaaaaaaaaaaaaaaaaaaaaaaaaaaaaaaaaaaaaaaaaaaaaaaaaaaaaaaaaaaaaaaaaaaaaaaaaaaaaaaaaaaaaaaaaaaaaaaaaaaaaaaaaaaaaaaaaaaaaaaaaaaaaaaaaaaaaaaaaaaaaaaaaaaaaaaaaaaaaaaaaaaaaaaaaaaaaaaaaaaaaaaaaaaaaaaaaaaaaaaaaaaaaaaaaaaaaaaaaaaaaaaaaaaaaaaaaaaaaaaaaaaaaaaaaaaaaaaaaaaaaaaaaaaaaaaaaaaaaaaaaaaaaaaaaaaaaaaaaaaaaaaaaaaaaaaaaaaaaaaaaaaaaaaaaaaaaaaaaaaaaaaaaaaaaaaaaaaaaaaaaaaaaaaaaaaaaaaaaaaaaaaaaaaaaaaaaaaaaaaaaaaaaaaaaaaaaaaaaaaaaaaaaaaaaaaaaaaaaaaaaaaaaaaaaaaaaaaaaaaaaaaaaaaaaaaaaaaaaaaaaaaaaaaaaaaaaaaaaaaaaaaaaaaaaaaaaaaaaaaaaaaaaaaaaaaaaaaaaaaaaaaaaaaaaaaaaaaaaaaaaaaaaaaaaaaaaaaaaaaaaaaaaaaaaaaaaaaaaaaaaaaaaaaaaaaaaaaaaaaaaaaaaaaaaaaaaaaaaaaaaaaaaaaaaaaaaaaaaaaaaaaaaaaaaaaaaaaaaaaaaaaaaaaaaaaaaaaaaaaaaaaaaaaaaaaaaaaaaaaaaaaaaaaaaaaaaaaaaaaaaaaaaaaa\"}"
held 0
bytes 0 "Content-Length: 1025\r\n\r\n"
! Frame(FrameFault { cause: BodyTooLong, offset: 1048 })
"#,
];

/// The rows. A proof looks at their texts here alone.
fn rows() -> &'static [&'static str] {
    &FRAMES
}

/// The last of them, which has more bytes than the others.
fn last() -> &'static str {
    match rows().last() {
        Some(row) => row,
        None => "",
    }
}

/// A size is past the bytes of each row but the last.
#[test]
fn frames_in_pieces(rt: HostRuntime) -> Result<(), Fail> {
    for size in 1..112 {
        play_rows::<Playing<Recorded>>(&rt, rows(), size)?;
    }
    play_rows::<Playing<Recorded>>(&rt, rows(), usize::MAX)
}

#[test]
fn the_longest_frame(rt: HostRuntime) -> Result<(), Fail> {
    for size in 112..1049 {
        play_rows::<Playing<Recorded>>(&rt, &[last()], size)?;
    }
    Ok(())
}
