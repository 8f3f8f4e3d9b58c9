//! Changes of one recording, and the key that is bad then.

use crate::reading::refusal;
use dap_recording::RecordingFault;
use std::alloc::Global;

/// Every key of the format, with no two names alike.
const WHOLE: &str =
    r#"{"exit":3,"sources":[{"name":"a","path":"/a","text":"x\ny"}],"moments":[{"threads":[{"id":1,"name":"m","frames":[{"name":"f","source":0,"line":2,"scopes":[{"name":"s","variables":[{"name":"v","value":"1","variables":[{"name":"w","value":"2"}]}]}]}]}],"thread":1,"output":"o","waits":true}]}"#;

/// Whether a refusal is that of this key, or none.
fn is_of(alloc: Global, fault: Option<RecordingFault>, wanted: &str) -> bool {
    match fault {
        None => wanted == "none",
        Some(RecordingFault::BadKey { key }) => match format!(in alloc; "{key:?}") {
            Ok(name) => name.as_str() == wanted,
            Err(_) => false,
        },
        Some(_) => false,
    }
}

/// Whether the whole recording, with a place of it changed, is refused for this key, or taken.
fn is_changed(alloc: Global, from: &str, to: &str, key: &str) -> bool {
    let Some((before, after)) = WHOLE.split_once(from) else {
        return false;
    };
    match format!(in alloc; "{before}{to}{after}") {
        Ok(changed) => is_of(alloc, refusal(alloc, changed.as_str().as_bytes()), key),
        Err(_) => false,
    }
}

/// Whether a row is right: a place of the whole recording, what it is changed to, and the key that is bad then, or `none`,
/// with a bar between them.
fn is_right(alloc: Global, row: &str) -> bool {
    let Some((from, rest)) = row.split_once("|") else {
        return false;
    };
    let Some((to, key)) = rest.split_once("|") else {
        return false;
    };
    is_changed(alloc, from, to, key)
}

/// The first row, a line each, whose recording is refused otherwise.
fn first_wrong(alloc: Global, rows: &'static str) -> &'static str {
    for row in rows.lines() {
        if !is_right(alloc, row) {
            return row;
        }
    }
    ""
}

#[test]
fn takes_the_whole(rt: HostRuntime) {
    assert!(rt; refusal(rt.alloc(), WHOLE.as_bytes()).is_none());
}

static EXIT_AND_SOURCES: &str = r#""exit":3,||Exit
"exit":3|"exit":2147483647|none
"exit":3|"exit":-2147483648|none
"exit":3|"exit":2147483648|Exit
"exit":3|"exit":-2147483649|Exit
"exit":3|"exit":null|Exit
"exit":3|"exit":3.0|Exit
"exit":3|"exit":"3"|Exit
"sources":[{"name":"a","path":"/a","text":"x\ny"}],||Sources
"sources":[{"name":"a","path":"/a","text":"x\ny"}]|"sources":null|Sources
"sources":[{"name":"a","path":"/a","text":"x\ny"}]|"sources":{}|Sources
"sources":[{"name":"a","path":"/a","text":"x\ny"}]|"sources":[7]|Sources
"sources":[{"name":"a","path":"/a","text":"x\ny"}]|"sources":[null]|Sources
"sources":[{"name":"a","path":"/a","text":"x\ny"}]|"sources":[[]]|Sources
"sources":[{"name":"a","path":"/a","text":"x\ny"}]|"sources":[]|Source
"name":"a",||Name
"name":"a"|"name":null|Name
"name":"a"|"name":""|none
"path":"/a",||none
"path":"/a"|"path":null|Path
"path":"/a"|"path":5|Path
,"text":"x\ny"||Text
"text":"x\ny"|"text":null|Text
"text":"x\ny"|"text":""|Line
"text":"x\ny"|"text":"x\n"|Line
"text":"x\ny"|"text":"\n\n"|none
"text":"x\ny"|"text":"\r\n\r"|none
"text":"x\ny"|"text":"x\ny","onDisk":true|none
"text":"x\ny"|"text":"x\ny","onDisk":false|none
"text":"x\ny"|"text":"x\ny","onDisk":null|OnDisk
"text":"x\ny"|"text":"x\ny","onDisk":1|OnDisk
"text":"x\ny"|"text":"x\ny","onDisk":"true"|OnDisk
"text":"x\ny"|"onDisk":null|Text
"path":"/a","text":"x\ny"|"text":"x\ny","onDisk":true|none
"sources":[{"name":"a","path":"/a","text":"x\ny"}]|"sources":[{"name":"a","path":"/a","text":"x\ny","onDisk":0},{"text":"x"}]|OnDisk"#;

/// The exit code and the sources.
#[test]
fn exit_and_sources(rt: HostRuntime) {
    let wrong = first_wrong(rt.alloc(), EXIT_AND_SOURCES);
    assert!(rt; wrong == "", "{wrong}");
}

static MOMENTS_AND_THREADS: &str =
    r#","moments":[{"threads":[{"id":1,"name":"m","frames":[{"name":"f","source":0,"line":2,"scopes":[{"name":"s","variables":[{"name":"v","value":"1","variables":[{"name":"w","value":"2"}]}]}]}]}],"thread":1,"output":"o","waits":true}]||Moments
"moments":[{"threads":[{"id":1,"name":"m","frames":[{"name":"f","source":0,"line":2,"scopes":[{"name":"s","variables":[{"name":"v","value":"1","variables":[{"name":"w","value":"2"}]}]}]}]}],"thread":1,"output":"o","waits":true}]|"moments":null|Moments
"moments":[{"threads":[{"id":1,"name":"m","frames":[{"name":"f","source":0,"line":2,"scopes":[{"name":"s","variables":[{"name":"v","value":"1","variables":[{"name":"w","value":"2"}]}]}]}]}],"thread":1,"output":"o","waits":true}]|"moments":[]|Moments
"moments":[{"threads":[{"id":1,"name":"m","frames":[{"name":"f","source":0,"line":2,"scopes":[{"name":"s","variables":[{"name":"v","value":"1","variables":[{"name":"w","value":"2"}]}]}]}]}],"thread":1,"output":"o","waits":true}]|"moments":{}|Moments
"moments":[{"threads":[{"id":1,"name":"m","frames":[{"name":"f","source":0,"line":2,"scopes":[{"name":"s","variables":[{"name":"v","value":"1","variables":[{"name":"w","value":"2"}]}]}]}]}],"thread":1,"output":"o","waits":true}]|"moments":[null]|Moments
"moments":[{"threads":[{"id":1,"name":"m","frames":[{"name":"f","source":0,"line":2,"scopes":[{"name":"s","variables":[{"name":"v","value":"1","variables":[{"name":"w","value":"2"}]}]}]}]}],"thread":1,"output":"o","waits":true}]|"moments":[[]]|Moments
"moments":[{"threads":[{"id":1,"name":"m","frames":[{"name":"f","source":0,"line":2,"scopes":[{"name":"s","variables":[{"name":"v","value":"1","variables":[{"name":"w","value":"2"}]}]}]}]}],"thread":1,"output":"o","waits":true}]|"moments":["x"]|Moments
"threads":[{"id":1,"name":"m","frames":[{"name":"f","source":0,"line":2,"scopes":[{"name":"s","variables":[{"name":"v","value":"1","variables":[{"name":"w","value":"2"}]}]}]}]}],||Threads
"threads":[{"id":1,"name":"m","frames":[{"name":"f","source":0,"line":2,"scopes":[{"name":"s","variables":[{"name":"v","value":"1","variables":[{"name":"w","value":"2"}]}]}]}]}]|"threads":null|Threads
"threads":[{"id":1,"name":"m","frames":[{"name":"f","source":0,"line":2,"scopes":[{"name":"s","variables":[{"name":"v","value":"1","variables":[{"name":"w","value":"2"}]}]}]}]}]|"threads":{}|Threads
"threads":[{"id":1,"name":"m","frames":[{"name":"f","source":0,"line":2,"scopes":[{"name":"s","variables":[{"name":"v","value":"1","variables":[{"name":"w","value":"2"}]}]}]}]}]|"threads":[null]|Threads
"threads":[{"id":1,"name":"m","frames":[{"name":"f","source":0,"line":2,"scopes":[{"name":"s","variables":[{"name":"v","value":"1","variables":[{"name":"w","value":"2"}]}]}]}]}]|"threads":[[]]|Threads
"threads":[{"id":1,"name":"m","frames":[{"name":"f","source":0,"line":2,"scopes":[{"name":"s","variables":[{"name":"v","value":"1","variables":[{"name":"w","value":"2"}]}]}]}]}]|"threads":[0]|Threads
"threads":[{"id":1,"name":"m","frames":[{"name":"f","source":0,"line":2,"scopes":[{"name":"s","variables":[{"name":"v","value":"1","variables":[{"name":"w","value":"2"}]}]}]}]}]|"threads":[]|Thread
"id":1,||Id
"id":1|"id":null|Id
"id":1|"id":"1"|Id
"id":1|"id":1.0|Id
"id":1|"id":9007199254740992|Id
"id":1|"id":-9007199254740992|Id
"id":1|"id":9007199254740991|Thread
"id":1|"id":-9007199254740991|Thread
"threads":[|"threads":[{"id":1,"name":"n","frames":[{"name":"g","source":0,"line":1}]},|Id
"threads":[|"threads":[{"id":2,"name":"n","frames":[{"name":"g","source":0,"line":1}]},|none
"threads":[|"threads":[{"id":2,"name":"n","frames":[{"name":"g","source":0,"line":1}]},{"id":2,"name":"n","frames":[{"name":"g","source":0,"line":1}]},|Id
"threads":[|"threads":[{"id":2,"name":"n","frames":[]},|Frames
"name":"m",||Name
"name":"m"|"name":null|Name"#;

/// Moments, threads and their ids.
#[test]
fn moments_and_threads(rt: HostRuntime) {
    let wrong = first_wrong(rt.alloc(), MOMENTS_AND_THREADS);
    assert!(rt; wrong == "", "{wrong}");
}

static FRAMES_AND_SCOPES: &str =
    r#","frames":[{"name":"f","source":0,"line":2,"scopes":[{"name":"s","variables":[{"name":"v","value":"1","variables":[{"name":"w","value":"2"}]}]}]}]||Frames
"frames":[{"name":"f","source":0,"line":2,"scopes":[{"name":"s","variables":[{"name":"v","value":"1","variables":[{"name":"w","value":"2"}]}]}]}]|"frames":null|Frames
"frames":[{"name":"f","source":0,"line":2,"scopes":[{"name":"s","variables":[{"name":"v","value":"1","variables":[{"name":"w","value":"2"}]}]}]}]|"frames":[]|Frames
"frames":[{"name":"f","source":0,"line":2,"scopes":[{"name":"s","variables":[{"name":"v","value":"1","variables":[{"name":"w","value":"2"}]}]}]}]|"frames":{}|Frames
"frames":[{"name":"f","source":0,"line":2,"scopes":[{"name":"s","variables":[{"name":"v","value":"1","variables":[{"name":"w","value":"2"}]}]}]}]|"frames":[null]|Frames
"frames":[{"name":"f","source":0,"line":2,"scopes":[{"name":"s","variables":[{"name":"v","value":"1","variables":[{"name":"w","value":"2"}]}]}]}]|"frames":[true]|Frames
"name":"f",||Name
"name":"f"|"name":1|Name
"source":0,||Source
"source":0|"source":1|Source
"source":0|"source":-1|Source
"source":0|"source":null|Source
"source":0|"source":0.0|Source
"source":0|"source":"0"|Source
"line":2,||Line
"line":2|"line":0|Line
"line":2|"line":3|Line
"line":2|"line":1|none
"line":2|"line":null|Line
"line":2|"line":2147483648|Line
,"scopes":[{"name":"s","variables":[{"name":"v","value":"1","variables":[{"name":"w","value":"2"}]}]}]||none
"scopes":[{"name":"s","variables":[{"name":"v","value":"1","variables":[{"name":"w","value":"2"}]}]}]|"scopes":[]|none
"scopes":[{"name":"s","variables":[{"name":"v","value":"1","variables":[{"name":"w","value":"2"}]}]}]|"scopes":null|Scopes
"scopes":[{"name":"s","variables":[{"name":"v","value":"1","variables":[{"name":"w","value":"2"}]}]}]|"scopes":{}|Scopes
"scopes":[{"name":"s","variables":[{"name":"v","value":"1","variables":[{"name":"w","value":"2"}]}]}]|"scopes":[null]|Scopes
"scopes":[{"name":"s","variables":[{"name":"v","value":"1","variables":[{"name":"w","value":"2"}]}]}]|"scopes":[[]]|Scopes
"name":"s",||Name
"name":"s"|"name":null|Name"#;

/// Frames and scopes.
#[test]
fn frames_and_scopes(rt: HostRuntime) {
    let wrong = first_wrong(rt.alloc(), FRAMES_AND_SCOPES);
    assert!(rt; wrong == "", "{wrong}");
}

static VARIABLES_AND_THE_REST: &str =
    r#","variables":[{"name":"v","value":"1","variables":[{"name":"w","value":"2"}]}]||none
"variables":[{"name":"v","value":"1","variables":[{"name":"w","value":"2"}]}]|"variables":[]|none
"variables":[{"name":"v","value":"1","variables":[{"name":"w","value":"2"}]}]|"variables":null|Variables
"variables":[{"name":"v","value":"1","variables":[{"name":"w","value":"2"}]}]|"variables":{}|Variables
"variables":[{"name":"v","value":"1","variables":[{"name":"w","value":"2"}]}]|"variables":[null]|Variables
"variables":[{"name":"v","value":"1","variables":[{"name":"w","value":"2"}]}]|"variables":[3]|Variables
"name":"v",||Name
"value":"1",||Value
"value":"1"|"value":1|Value
,"variables":[{"name":"w","value":"2"}]||none
"variables":[{"name":"w","value":"2"}]|"variables":[]|none
"variables":[{"name":"w","value":"2"}]|"variables":null|Variables
"variables":[{"name":"w","value":"2"}]|"variables":[null]|Variables
"name":"w",||Name
,"value":"2"||Value
"value":"2"|"value":null|Value
"thread":1,||Thread
"thread":1|"thread":2|Thread
"thread":1|"thread":null|Thread
"thread":1|"thread":1.0|Thread
"thread":1|"thread":"1"|Thread
"output":"o",||none
"output":"o"|"output":null|Output
"output":"o"|"output":5|Output
,"waits":true||none
"waits":true|"waits":null|Waits
"waits":true|"waits":"true"|Waits
"waits":true|"waits":false|none
"exit":3,"sources":|"x":null,"exit":null,"sources":|Exit
"exit":3|"other":[1],"exit":3|none
"thread":1,"output":"o","waits":true|"waits":null,"output":null,"thread":null|Thread
"name":"v","value":"1"|"value":1,"name":1|Name
"name":"v","value":"1"|"name":"v","value":"1","more":{"type":"int","name":null}|none
"name":"v","value":"1"|"name":"v","value":"1","more":{"x":[1.5]}|More
"name":"v","value":"1"|"name":"v","value":"1","more":null|More
"name":"v","value":"1"|"name":"v","value":"1","more":["x"]|More
"variables":[{"name":"w","value":"2"}]|"more":1,"variables":[null]|Variables
"variables":[{"name":"w","value":"2"}]|"more":1|More
"waits":true|"waits":true,"more":1|none"#;

/// Variables, the rest of a moment, and the order of keys.
#[test]
fn variables_and_the_rest(rt: HostRuntime) {
    let wrong = first_wrong(rt.alloc(), VARIABLES_AND_THE_REST);
    assert!(rt; wrong == "", "{wrong}");
}

static STOPS: &str = r#""waits":true|"waits":true,"stop":"signal"|none
"waits":true|"waits":true,"stop":""|none
"waits":true|"stop":null|Stop
"waits":true|"stop":1|Stop
"waits":true|"stop":["signal"]|Stop
"waits":true|"stop":"aaaaaaaaaaaaaaaaaaaaaaaaaaaaaaaaaaaaaaaaaaaaaaaaaaaaaaaaaaaaaaaa"|none
"waits":true|"stop":"aaaaaaaaaaaaaaaaaaaaaaaaaaaaaaaaaaaaaaaaaaaaaaaaaaaaaaaaaaaaaaaaa"|Stop
"waits":true|"stop":"éééééééééééééééééééééééééééééééé"|none
"waits":true|"stop":"ééééééééééééééééééééééééééééééééa"|Stop
"waits":true|"stop":"signal","description":"aaaaaaaaaaaaaaaaaaaaaaaaaaaaaaaaaaaaaaaaaaaaaaaaaaaaaaaaaaaaaaaaaaaaaaaaaaaaaaaaaaaaaaaaaaaaaaaaaaaaaaaaaaaaaaaaaaaaaaaaaaaaaaaa"|none
"waits":true|"stop":"signal","description":"aaaaaaaaaaaaaaaaaaaaaaaaaaaaaaaaaaaaaaaaaaaaaaaaaaaaaaaaaaaaaaaaaaaaaaaaaaaaaaaaaaaaaaaaaaaaaaaaaaaaaaaaaaaaaaaaaaaaaaaaaaaaaaaaa"|Description
"waits":true|"stop":"signal","description":null|Description
"waits":true|"stop":"signal","text":"aaaaaaaaaaaaaaaaaaaaaaaaaaaaaaaaaaaaaaaaaaaaaaaaaaaaaaaaaaaaaaaaaaaaaaaaaaaaaaaaaaaaaaaaaaaaaaaaaaaaaaaaaaaaaaaaaaaaaaaaaaaaaaaa"|none
"waits":true|"stop":"signal","text":"aaaaaaaaaaaaaaaaaaaaaaaaaaaaaaaaaaaaaaaaaaaaaaaaaaaaaaaaaaaaaaaaaaaaaaaaaaaaaaaaaaaaaaaaaaaaaaaaaaaaaaaaaaaaaaaaaaaaaaaaaaaaaaaaa"|Text
"waits":true|"stop":"signal","text":7|Text
"waits":true|"description":"d","text":"t"|none
"waits":true|"description":null|Description
"waits":true|"text":null|Text
"waits":true|"text":null,"description":null,"stop":null|Stop
"waits":true|"text":null,"description":null,"stop":"signal"|Description
"waits":true|"stop":null,"waits":null|Waits"#;

/// A stop of a moment's own: its reason, its description and its text.
#[test]
fn stops(rt: HostRuntime) {
    let wrong = first_wrong(rt.alloc(), STOPS);
    assert!(rt; wrong == "", "{wrong}");
}
