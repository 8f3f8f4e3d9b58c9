//! What `initialize` offers where whoever opens an adapter answers commands, and what may not be opened or said then.

use crate::offers::{first_answer, whole};
use dap_adapter::{Offer, OfferFault, Opened, Opening, OpeningFault};
use dap_json::{Text, parse};
use std::alloc::Global;
use std::test::Fail;
use test_kit::given::note;

const USUAL: &str =
    r#"{"supportsCancelRequest":true,"supportsConfigurationDoneRequest":true,"supportsLoadedSourcesRequest":true,"supportsSetVariable":true,"supportsStepBack":true,"supportsTerminateRequest":true}"#;

const WITH_COMPLETIONS: &str =
    r#"{"supportsCancelRequest":true,"supportsCompletionsRequest":true,"supportsConfigurationDoneRequest":true,"supportsLoadedSourcesRequest":true,"supportsSetVariable":true,"supportsStepBack":true,"supportsTerminateRequest":true}"#;

const NAME_OF_64: &str = "xxxxxxxxxxxxxxxxxxxxxxxxxxxxxxxxxxxxxxxxxxxxxxxxxxxxxxxxxxxxxxxx";

const NAME_OF_65: &str = "xxxxxxxxxxxxxxxxxxxxxxxxxxxxxxxxxxxxxxxxxxxxxxxxxxxxxxxxxxxxxxxxx";

/// What is opened, an offer, and the body of the answer to `initialize`; or the name or the key that is refused.
static OFFERS: [(&str, &str, &str); 18] = [
    (
        "completions readMemory",
        "{}",
        r#"{"supportsCancelRequest":true,"supportsCompletionsRequest":true,"supportsConfigurationDoneRequest":true,"supportsLoadedSourcesRequest":true,"supportsReadMemoryRequest":true,"supportsSetVariable":true,"supportsStepBack":true,"supportsTerminateRequest":true}"#,
    ),
    ("gotoTargets", "{}", USUAL),
    (
        "goto gotoTargets",
        "{}",
        r#"{"supportsCancelRequest":true,"supportsConfigurationDoneRequest":true,"supportsGotoTargetsRequest":true,"supportsLoadedSourcesRequest":true,"supportsSetVariable":true,"supportsStepBack":true,"supportsTerminateRequest":true}"#,
    ),
    ("mine locations!", "{}", USUAL),
    (
        "completions!",
        r#"{"supportsCompletionsRequest":true}"#,
        WITH_COMPLETIONS,
    ),
    (
        "completions",
        r#"{"supportsReadMemoryRequest":false}"#,
        WITH_COMPLETIONS,
    ),
    (
        "completions",
        r#"{"supportsCompletionsRequest":false}"#,
        "supportsCompletionsRequest",
    ),
    (
        "completions",
        r#"{"supportsReadMemoryRequest":true}"#,
        "supportsReadMemoryRequest",
    ),
    (
        "gotoTargets",
        r#"{"supportsGotoTargetsRequest":true}"#,
        "supportsGotoTargetsRequest",
    ),
    (
        "setDataBreakpoints",
        r#"{"supportsDataBreakpoints":true}"#,
        "supportsDataBreakpoints",
    ),
    ("completions threads", "{}", "threads"),
    ("initialize", "{}", "initialize"),
    ("setVariable", "{}", "setVariable"),
    ("mine cancel threads", "{}", "cancel"),
    ("mine completions mine threads", "{}", "mine"),
    (NAME_OF_64, "{}", USUAL),
    (NAME_OF_65, "{}", NAME_OF_65),
    (r#"a"b"#, "{}", r#"a"b"#),
];

/// A command by its name, behind which `!` stands where it is of stops alone.
fn opened_as(alloc: Global, word: &str) -> Option<Opened> {
    let (name, in_stops) = match word.strip_suffix('!') {
        Some(name) => (name, true),
        None => (word, false),
    };
    let name = Text::copied(alloc, name).ok()?;
    Some(Opened { name, in_stops })
}

/// What these words open, or the name that is refused.
fn opening_of(alloc: Global, words: &str, refused: &mut String) -> Option<Opening> {
    let mut commands = Vec::new(alloc);
    for word in words.split(' ') {
        if !word.is_empty() {
            commands.push(opened_as(alloc, word)?).ok()?;
        }
    }
    match Opening::of(alloc, commands) {
        Ok(opening) => Some(opening),
        Err(OpeningFault::BadName(name)) => {
            note(refused, name.as_str());
            None
        }
        Err(_) => None,
    }
}

/// Lists, and what each opens, with `!` behind what is of stops alone; or why it is refused.
const LISTS: [(&str, &str); 14] = [
    ("[]", ""),
    (r#"["completions"]"#, "completions "),
    (
        r#"["goto","mine","exceptionInfo","modules"]"#,
        "goto! mine exceptionInfo! modules ",
    ),
    (r#"[{"name":"mine","inStops":true}]"#, "mine! "),
    (r#"[{"name":"goto","inStops":false},"a b"]"#, "goto a b "),
    (
        r#"[{"name":"setExpression","inStops":null,"x":1}]"#,
        "setExpression! ",
    ),
    (r#"{"name":"mine"}"#, "NotList"),
    (r#""mine""#, "NotList"),
    (r#"["mine",7,"threads"]"#, "NotList"),
    (r#"[{"inStops":true}]"#, "NotList"),
    (r#"[{"name":7}]"#, "NotList"),
    (r#"[{"name":"mine","inStops":1}]"#, "NotList"),
    (r#"["mine","threads"]"#, "threads"),
    (r#"["mine",{"name":"mine","inStops":true}]"#, "mine"),
];

/// What a list opens, or why it is refused.
fn listed(alloc: Global, text: &str) -> Option<String> {
    let value = parse(alloc, text.as_bytes()).ok()?;
    let mut found = String::new(alloc);
    match Opening::read(alloc, &value) {
        Ok(opening) => {
            for opened in opening.as_slice() {
                note(&mut found, opened.name.as_str());
                note(&mut found, if opened.in_stops { "! " } else { " " });
            }
        }
        Err(OpeningFault::BadName(name)) => note(&mut found, name.as_str()),
        Err(OpeningFault::NotList) => note(&mut found, "NotList"),
        Err(OpeningFault::OutOfMemory) => return None,
    }
    Some(found)
}

#[test]
fn commands_are_read_from_a_list(rt: HostRuntime) -> Result<(), Fail> {
    for row in &LISTS {
        let (text, wanted) = *row;
        match listed(rt.alloc(), text) {
            Some(found) => assert!(rt; found.as_str() == wanted),
            None => assert!(rt; false),
        }
    }
    Ok(())
}

/// What a text offers where that is opened, or the name or the key that is refused.
pub(crate) fn offer_of(
    alloc: Global,
    words: &str,
    text: &str,
    refused: &mut String,
) -> Option<Offer> {
    let opening = opening_of(alloc, words, refused)?;
    let value = parse(alloc, text.as_bytes()).ok()?;
    match Offer::read_opening(alloc, &value, opening) {
        Ok(offer) => Some(offer),
        Err(OfferFault::BadKey(key)) => {
            note(refused, key.as_str());
            None
        }
        Err(_) => None,
    }
}

/// Whether this comes of an offer where that is opened.
fn comes(alloc: Global, words: &str, text: &str, wanted: &str) -> bool {
    let mut refused = String::new(alloc);
    let Some(offer) = offer_of(alloc, words, text, &mut refused) else {
        return refused.as_str() == wanted;
    };
    match (first_answer(alloc, offer), whole(alloc, wanted)) {
        (Some(answer), Ok(whole)) => answer.as_str() == whole.as_str(),
        _ => false,
    }
}

#[test]
fn initialize_tells_what_is_opened(rt: HostRuntime) -> Result<(), Fail> {
    for row in &OFFERS {
        let (words, text, wanted) = *row;
        assert!(rt; comes(rt.alloc(), words, text, wanted));
    }
    Ok(())
}
