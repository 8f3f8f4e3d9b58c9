//! The rows, and what runs them.

use dap_command::GatheredReferences;
use dap_envelope::{Kind, read_message};
use dap_json::object_reader::Scratch;
use dap_shape::{
    Choice, Field, Scalar, Shape, TypeName, fields, message_fault, read_heading_and_shape,
    sentence, values,
};
use std::alloc::{AllocError, Global};
use std::test::Fail;

fn rows() -> &'static [&'static str] {
    &[
        r#"{"seq":1,"type":"response","request_seq":1,"success":true,"command":"threads","body":{"threads":[{"id":1,"name":"main"}]}}
nothing"#,
        r#"{"seq":1,"type":"response","request_seq":1,"success":true,"command":"threads","body":{"threads":[{"id":1,"name":"main"},{"id":2}]}}
response to threads: body.threads[1] has no name"#,
        r#"{"seq":1,"type":"response","request_seq":1,"success":true,"command":"threads"}
response to threads has no body"#,
        r#"{"seq":1,"type":"response","request_seq":1,"success":false,"command":"threads","body":{"threads":7}}
nothing"#,
        r#"{"seq":1,"type":"response","request_seq":1,"success":true,"command":"threads","body":[]}
response to threads: body is no object"#,
        r#"{"seq":1,"type":"response","request_seq":1,"success":true,"command":"threads","body":{"threads":{}}}
response to threads: body.threads is no list"#,
        r#"{"seq":1,"type":"response","request_seq":1,"success":true,"command":"stackTrace","body":{"stackFrames":[{"id":1,"name":"f","line":null,"column":1}]}}
response to stackTrace: body.stackFrames[0] has no line"#,
        r#"{"seq":1,"type":"response","request_seq":1,"success":true,"command":"stackTrace","body":{"stackFrames":[{"id":1,"name":"f","line":1.0,"column":1}]}}
response to stackTrace: body.stackFrames[0].line is no whole number"#,
        r#"{"seq":1,"type":"response","request_seq":1,"success":true,"command":"stackTrace","body":{"stackFrames":[{"id":-1,"name":"f","line":1,"column":1,"moduleId":true}]}}
response to stackTrace: body.stackFrames[0].moduleId is no whole number and no text"#,
        r#"{"seq":1,"type":"event","event":"output","body":{"output":"","source":{"sources":[{"sources":[{"path":7}]}]}}}
event output: body.source.sources[0].sources[0].path is no text"#,
        r#"{"seq":1,"type":"event","event":"output","body":{"output":"","group":"x"}}
event output: body.group is none of start startCollapsed end"#,
        r#"{"seq":1,"type":"event","event":"progressUpdate","body":{"progressId":"a","percentage":1.5}}
nothing"#,
        r#"{"seq":1,"type":"event","event":"progressUpdate","body":{"progressId":"a","percentage":"1"}}
event progressUpdate: body.percentage is no number"#,
        r#"{"seq":1,"type":"event","event":"thread","body":{"reason":"x","threadId":1,"own":7}}
nothing"#,
        r#"{"seq":1,"type":"event","event":"own","body":7}
nothing"#,
        r#"{"seq":1,"type":"request","command":"scopes","arguments":{}}
request scopes: arguments has no frameId"#,
        r#"{"seq":1,"type":"request","command":"setBreakpoints","arguments":{"source":{},"sourceModified":0}}
request setBreakpoints: arguments.sourceModified is no boolean"#,
        r#"{"seq":1,"type":"x"}
nothing"#,
    ]
}

/// What is said of a kind of message.
fn told(alloc: Global, kind: &Kind) -> Result<String, AllocError> {
    match message_fault(alloc, kind)? {
        None => String::from_str(alloc, "nothing"),
        Some(fault) => sentence(alloc, kind, &fault),
    }
}

/// Whether a row is right.
fn is_right(alloc: Global, row: &str) -> Result<bool, AllocError> {
    let Some((body, wanted)) = row.split_once('\n') else {
        return Ok(false);
    };
    match read_message(alloc, body.as_bytes()) {
        Ok(message) => {
            let text = told(alloc, &message.kind)?;
            Ok(text.as_str() == wanted)
        }
        Err(_) => Ok(false),
    }
}

#[test]
fn rows_are_right(rt: HostRuntime) -> Result<(), Fail> {
    for row in rows() {
        assert!(rt; is_right(rt.alloc(), row)?, "{row}");
    }
    Ok(())
}

/// Messages without a fault, whose names come before what they hold or after it.
fn sound_messages() -> &'static [&'static str] {
    &[
        r#"{"seq":1,"type":"request","command":"threads"}"#,
        r#"{"seq":1,"type":"request","command":"own","arguments":7}"#,
        r#"{"seq":1,"type":"request","command":"scopes","arguments":{"frameId":1}}"#,
        r#"{"arguments":{"frameId":1},"command":"scopes","seq":1,"type":"request"}"#,
        r#"{"seq":1,"type":"request","command":"next","arguments":{"threadId":1,"granularity":"line","own":{"a":[1.5]}}}"#,
        r#"{"seq":1,"type":"response","request_seq":1,"success":true,"command":"threads","body":{"threads":[{"id":1,"name":"main"}]}}"#,
        r#"{"body":{"threads":[{"name":"main","id":1}]},"command":"threads","request_seq":1,"seq":1,"success":true,"type":"response"}"#,
        r#"{"seq":1,"type":"response","request_seq":1,"success":true,"command":"stackTrace","body":{"stackFrames":[{"id":1,"name":"f","line":1,"column":1,"source":{"name":"a","path":"/a","checksums":[{"algorithm":"MD5","checksum":"00"}]},"endLine":null}],"totalFrames":1}}"#,
        r#"{"body":{"scopes":[{"expensive":false,"name":"x","variablesReference":7}]},"command":"scopes","request_seq":1,"seq":1,"success":true,"type":"response"}"#,
        r#"{"body":{"variables":[{"name":"x","value":"1","variablesReference":0}]},"command":"variables","request_seq":1,"seq":1,"success":true,"type":"response"}"#,
        r#"{"body":{"result":"1","variablesReference":0},"command":"evaluate","request_seq":1,"seq":1,"success":true,"type":"response"}"#,
        r#"{"seq":1,"type":"response","request_seq":1,"success":true,"command":"next"}"#,
        r#"{"seq":1,"type":"response","request_seq":1,"success":false,"command":"threads","message":"no"}"#,
        r#"{"seq":1,"type":"response","request_seq":1,"success":false,"command":"threads","message":"no","body":{"error":{"id":1,"format":"no"}}}"#,
        r#"{"body":{"error":{"format":"no","id":1}},"command":"threads","message":"no","request_seq":1,"seq":1,"success":false,"type":"response"}"#,
        r#"{"seq":1,"type":"event","event":"stopped","body":{"reason":"step","threadId":1,"allThreadsStopped":true}}"#,
        r#"{"body":{"category":"stdout","output":"a\n"},"event":"output","seq":1,"type":"event"}"#,
        r#"{"seq":1,"type":"event","event":"initialized"}"#,
        r#"{"seq":1,"type":"event","event":"own","body":{}}"#,
        r#"{"seq":1,"type":"x"}"#,
    ]
}

/// Whether it is seen on the way that a message has no fault.
fn is_seen(alloc: Global, body: &[u8]) -> bool {
    let mut scratch = Scratch::new(alloc);
    let mut given = GatheredReferences::new(alloc);
    let read = read_heading_and_shape(&mut scratch, &mut given, body);
    matches!(read, Some((_, true)))
}

#[test]
fn most_messages_are_seen_to_be_sound(rt: HostRuntime) {
    for message in sound_messages() {
        assert!(rt; is_seen(rt.alloc(), message.as_bytes()), "{message}");
    }
}

/// The table by its own words.
#[test]
fn table_has_its_rows(rt: HostRuntime) {
    assert_eq!(rt; fields(TypeName::Thread).len(), 2);
    let first = fields(TypeName::Thread).first();
    let is_id = matches!(first, Some(Field::Required("id", _)));
    assert!(rt; is_id);
    assert_eq!(rt; values(Choice::RunInTerminalKind).len(), 2);
    let optional = Field::Optional("a", Shape::One(dap_shape::Kind::Plain(Scalar::Any)));
    assert_eq!(rt; optional.key(), "a");
    let is_one = matches!(optional.shape(), Shape::One(_));
    assert!(rt; is_one);
}
