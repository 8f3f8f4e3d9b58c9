//! The arguments that real clients sent to real debuggers, each once: all are read as calls.

use crate::checks::check;
use dap_call::read_call;
use dap_command::Command;
use serde_json::Value;
use std::alloc::Global;
use std::process::Abort;

/// From recorded conversations of three clients with five debuggers, a line each; an empty one where there were no arguments.
static SENT: [(Command, &str); 15] = [
    (Command::Attach, r#"{"localfs": true}"#),
    (
        Command::ConfigurationDone,
        "\n\
         {}",
    ),
    (
        Command::Continue,
        r#"{"threadId": 1}
{"threadId": 6333}
{"threadId": 6883}"#,
    ),
    (Command::Disconnect, r#"{"terminateDebuggee": true}"#),
    (
        Command::Evaluate,
        r#"{"expression": "a", "frameId": 1, "context": "watch", "format": {}}
{"expression": "a", "frameId": 12, "context": "watch", "format": {}}
{"expression": "a", "frameId": 16, "context": "watch", "format": {}}
{"expression": "a", "frameId": 2, "context": "watch", "format": {}}
{"expression": "a", "frameId": 3, "context": "watch", "format": {}}
{"expression": "a", "frameId": 4, "context": "watch", "format": {}}
{"expression": "a", "frameId": 524288, "context": "watch", "format": {}}
{"expression": "a", "frameId": 8, "context": "watch", "format": {}}
{"expression": "no_such_name", "frameId": 1000, "context": "watch"}"#,
    ),
    (Command::ExceptionInfo, r#"{"threadId": 1}"#),
    (
        Command::Initialize,
        r#"{"clientID": "debugpy-client", "adapterID": "x", "linesStartAt1": true, "columnsStartAt1": true, "pathFormat": "path", "supportsVariableType": true}
{"clientID": "go-dap-client", "adapterID": "generic", "locale": "en-us", "linesStartAt1": true, "columnsStartAt1": true, "pathFormat": "path", "supportsVariableType": true, "supportsRunInTerminalRequest": true}
{"clientID": "go-dap-client", "adapterID": "generic", "locale": "en-us", "linesStartAt1": true, "columnsStartAt1": true, "pathFormat": "path", "supportsVariableType": true}
{"clientID": "vscode", "clientName": "Visual Studio Code", "adapterID": "peer", "pathFormat": "path", "linesStartAt1": true, "columnsStartAt1": true, "supportsVariableType": true, "supportsVariablePaging": true, "supportsRunInTerminalRequest": true, "locale": "en-us"}"#,
    ),
    (
        Command::Launch,
        r#"{"mode": "exec", "program": "/home/user/debuggees/prog_go", "cwd": "/tmp"}
{"program": "/home/user/debuggees/prog", "cwd": "/tmp", "runInTerminal": true}
{"program": "/home/user/debuggees/prog", "cwd": "/tmp"}
{"type": "peer", "request": "launch", "name": "peer", "program": "/home/user/debuggees/prog.py", "cwd": "/tmp", "console": "internalConsole", "python": "/usr/bin/python3"}"#,
    ),
    (
        Command::Next,
        r#"{"threadId": 1}
{"threadId": 6333}
{"threadId": 6883}"#,
    ),
    (
        Command::Scopes,
        r#"{"frameId": 1000}
{"frameId": 12}
{"frameId": 16}
{"frameId": 1}
{"frameId": 2}
{"frameId": 3}
{"frameId": 4}
{"frameId": 524288}
{"frameId": 8}"#,
    ),
    (
        Command::SetBreakpoints,
        r#"{"source": {"name": "prog.py", "path": "/home/user/debuggees/prog.py"}, "breakpoints": [{"line": 6}, {"line": 16}], "sourceModified": false, "lines": [6, 16]}
{"source": {"path": "/home/user/debuggees/prog.c"}, "breakpoints": [{"line": 5}, {"line": 18}]}
{"source": {"path": "/home/user/debuggees/prog.go"}, "breakpoints": [{"line": 11}]}
{"source": {"path": "/home/user/debuggees/prog.rb"}, "breakpoints": [{"line": 2}, {"line": 8}]}"#,
    ),
    (
        Command::SetExceptionBreakpoints,
        r#"{"filters": ["uncaught"]}
{"filters": []}"#,
    ),
    (
        Command::StackTrace,
        r#"{"threadId": 1, "levels": 20, "format": {}}
{"threadId": 1, "startFrame": 0, "levels": 20}
{"threadId": 1}
{"threadId": 6333, "levels": 20, "format": {}}
{"threadId": 6883, "levels": 20, "format": {}}"#,
    ),
    (Command::Threads, "\n"),
    (
        Command::Variables,
        r#"{"variablesReference": 1, "format": {}}
{"variablesReference": 10, "format": {}}
{"variablesReference": 1000}
{"variablesReference": 1001}
{"variablesReference": 1002}
{"variablesReference": 104, "format": {}}
{"variablesReference": 105, "format": {}}
{"variablesReference": 106, "format": {}}
{"variablesReference": 107, "format": {}}
{"variablesReference": 11, "format": {}}
{"variablesReference": 14, "format": {}}
{"variablesReference": 15, "format": {}}
{"variablesReference": 154, "format": {}}
{"variablesReference": 155, "format": {}}
{"variablesReference": 156, "format": {}}
{"variablesReference": 157, "format": {}}
{"variablesReference": 15}
{"variablesReference": 16, "format": {}}
{"variablesReference": 16}
{"variablesReference": 17, "format": {}}
{"variablesReference": 2, "format": {}}
{"variablesReference": 204, "format": {}}
{"variablesReference": 205, "format": {}}
{"variablesReference": 206, "format": {}}
{"variablesReference": 207, "format": {}}
{"variablesReference": 21, "format": {}}
{"variablesReference": 210, "format": {}}
{"variablesReference": 211, "format": {}}
{"variablesReference": 212, "format": {}}
{"variablesReference": 213, "format": {}}
{"variablesReference": 22, "format": {}}
{"variablesReference": 23, "format": {}}
{"variablesReference": 24, "format": {}}
{"variablesReference": 25, "format": {}}
{"variablesReference": 254, "format": {}}
{"variablesReference": 255, "format": {}}
{"variablesReference": 260, "format": {}}
{"variablesReference": 261, "format": {}}
{"variablesReference": 262, "format": {}}
{"variablesReference": 263, "format": {}}
{"variablesReference": 26}
{"variablesReference": 27}
{"variablesReference": 3, "format": {}}
{"variablesReference": 30, "format": {}}
{"variablesReference": 31, "format": {}}
{"variablesReference": 32, "format": {}}
{"variablesReference": 33, "format": {}}
{"variablesReference": 34, "format": {}}
{"variablesReference": 39, "format": {}}
{"variablesReference": 4, "format": {}}
{"variablesReference": 40, "format": {}}
{"variablesReference": 41, "format": {}}
{"variablesReference": 42, "format": {}}
{"variablesReference": 43, "format": {}}
{"variablesReference": 48, "format": {}}
{"variablesReference": 49, "format": {}}
{"variablesReference": 5, "format": {}}
{"variablesReference": 50, "format": {}}
{"variablesReference": 51, "format": {}}
{"variablesReference": 54, "format": {}}
{"variablesReference": 55, "format": {}}
{"variablesReference": 56, "format": {}}
{"variablesReference": 57, "format": {}}
{"variablesReference": 5}
{"variablesReference": 6, "format": {}}
{"variablesReference": 6}
{"variablesReference": 7, "format": {}}
{"variablesReference": 8, "format": {}}
{"variablesReference": 9, "format": {}}"#,
    ),
];

/// Whether arguments, if there are any, are read as a call of a command.
fn is_call(alloc: Global, command: Command, arguments: Option<&Value>) -> bool {
    match read_call(alloc, command, arguments) {
        Ok(call) => {
            drop(call);
            true
        }
        Err(_) => false,
    }
}

/// The same, where none are an empty text.
fn is_read(alloc: Global, command: Command, text: &str) -> bool {
    if text.is_empty() {
        return is_call(alloc, command, None);
    }
    match Value::from_str(alloc, text) {
        Ok(arguments) => {
            let is_so = is_call(alloc, command, Some(&arguments));
            drop(arguments);
            is_so
        }
        Err(_) => false,
    }
}

/// Fails the test at the first of these arguments that are not read, and counts them.
fn count_read(rt: &impl Abort, alloc: Global, command: Command, texts: &str) -> usize {
    let mut count = 0usize;
    for text in texts.lines() {
        count = count.saturating_add(1);
        check(rt, is_read(alloc, command, text), text);
    }
    count
}

#[test]
fn arguments_of_real_clients(rt: HostRuntime) {
    let mut count = 0usize;
    for (command, texts) in &SENT {
        count = count.saturating_add(count_read(&rt, rt.alloc(), *command, texts));
    }
    check(&rt, count == 118, count);
}
