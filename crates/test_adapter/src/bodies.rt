//! An adapter behind a transport that has frames of its own: messages come and go by their bodies. The code is that of
//! `docs/OWN_DEBUGGER.md`.

use dap_adapter::{Adapter, AdapterFault, first_body};
use dap_frame::Limits;
use dap_replay::Recorded;
use std::alloc::{AllocError, Global};
use std::fmt::Write;
use std::marker::Model;
use std::test::Fail;
use test_kit::samples::RECORDING;

/// What a row begins with, which is handed in as it is; the body of a message behind that; what is sent, a line each, and what
/// is answered.
type Row = (&'static str, &'static str, &'static str);

static ROWS: [Row; 7] = [
    (
        "",
        r#"{"seq":1,"type":"request","command":"disconnect"}"#,
        r#"{"command":"disconnect","request_seq":1,"seq":1,"success":true,"type":"response"}
Ok(true)"#,
    ),
    (
        "",
        r#"{"seq":1,"type":"request","command":"threads"}"#,
        r#"{"body":{"error":{"format":"The session is not initialized.","id":1001}},"command":"threads","message":"notInitialized","request_seq":1,"seq":1,"success":false,"type":"response"}
Ok(false)"#,
    ),
    // Once the session has ended nothing is taken any more.
    (
        "Content-Length: 49\r\n\r\n{\"seq\":1,\"type\":\"request\",\"command\":\"disconnect\"}",
        r#"{"seq":2,"type":"request","command":"threads"}"#,
        r#"{"command":"disconnect","request_seq":1,"seq":1,"success":true,"type":"response"}
Ok(true)"#,
    ),
    ("", "", "Err(Body { cause: NotJson, offset: 0 })"),
    ("", "{}", "Err(Body { cause: BadSeq, offset: 0 })"),
    // The offset counts the bytes of the frames.
    (
        "Content-Length: 46\r\n\r\n{\"seq\":1,\"type\":\"event\",\"event\":\"initialized\"}",
        "[]",
        "Err(Body { cause: NotObject, offset: 68 })",
    ),
    // Bytes of another frame are held: the frame of the body is what comes next of that.
    (
        "Content-Length: 8\r\n\r\n{",
        r#"{"seq":1,"type":"request","command":"threads"}"#,
        "Err(Body { cause: NotJson, offset: 0 })",
    ),
];

/// A debugger behind a transport. A contract sees nothing of it.
#[derive(Drop)]
struct Behind {
    alloc: Global,
    adapter: Adapter<Recorded>,
    /// What goes to the client, as frames.
    out: Vec<u8>,
    /// What was sent, a line each.
    sent: String,
}

impl Model for Behind {
    ghost use Rattle.std.specs.Prelude.{ℕ};

    ghost Value = { ℕ };

    ghost view = { λ _. 0 };
}

impl Behind {
    fn open(alloc: Global, limits: Limits) -> Option<Behind> {
        let debuggee = Recorded::read(alloc, RECORDING).ok()?;
        let adapter = Adapter::open(alloc, limits, debuggee).ok()?;
        Some(Behind {
            alloc,
            adapter,
            out: Vec::new(alloc),
            sent: String::new(alloc),
        })
    }

    /// A message came from the client: whether the session has ended.
    fn heard(&mut self, body: &[u8]) -> Result<bool, AdapterFault> {
        self.adapter.answer_body(self.alloc, body, &mut self.out)
    }

    /// Sends what is due, a message each.
    fn send_all(&mut self) -> Result<(), AllocError> {
        let mut rest = self.out.as_slice();
        while let Some((body, later)) = first_body(rest) {
            send(&mut self.sent, body)?;
            rest = later;
        }
        self.out.clear();
        Ok(())
    }

    /// What comes of a row.
    fn told(&mut self, before: &[u8], body: &[u8]) -> Option<()> {
        self.adapter.answer(self.alloc, before, &mut self.out).ok()?;
        let answered = self.heard(body);
        self.send_all().ok()?;
        write!(self.sent, "{answered:?}").ok()
    }
}

/// A transport that has frames of its own: a line each.
fn send(sent: &mut String, body: &[u8]) -> Result<(), AllocError> {
    match str::from_utf8(body) {
        Ok(text) => {
            sent.push_str(text)?;
            sent.push_str("\n")
        }
        Err(_) => Err(AllocError),
    }
}

/// Whether this comes of it.
fn tells(alloc: Global, limits: Limits, before: &[u8], body: &[u8], wanted: &str) -> bool {
    let Some(mut behind) = Behind::open(alloc, limits) else {
        return false;
    };
    let is_so = behind.told(before, body).is_some() && behind.sent.as_str() == wanted;
    // The proof of a call is shorter than that of a value that goes out of scope.
    drop(behind);
    is_so
}

#[test]
fn bodies_come_and_go(rt: HostRuntime) -> Result<(), Fail> {
    for row in &ROWS {
        let (before, body, wanted) = *row;
        assert!(rt;
            tells(
                rt.alloc(),
                Limits::usual(),
                before.as_bytes(),
                body.as_bytes(),
                wanted
            )
        );
    }
    Ok(())
}

/// The longest body is taken, and one that is longer is refused as its frame is.
#[test]
fn a_body_that_is_too_long(rt: HostRuntime) -> Result<(), Fail> {
    let Ok(limits) = Limits::new(32, 1024, 64, 65536, 4096, 9007199254740991, 2147483647) else {
        return Err(Fail::from("limits that are refused"));
    };
    let spaces = [b' '; 1025];
    let wanted = "Err(Frame(FrameFault { cause: BodyTooLong, offset: 0 }))";
    assert!(rt; tells(rt.alloc(), limits, b"", &spaces, wanted));
    let wanted = "Err(Body { cause: NotJson, offset: 0 })";
    assert!(rt; tells(rt.alloc(), limits, b"", &spaces[..1024], wanted));
    Ok(())
}
