//! What an adapter offers, as who opens it says: what `initialize` is answered then, or the key that is refused.

use dap_adapter::{Adapter, Offer, OfferFault, first_body, offers_fit};
use dap_frame::Limits;
use dap_json::{ParseFault, parse};
use dap_replay::Recorded;
use std::alloc::{AllocError, Global};
use std::test::Fail;
use test_kit::samples::RECORDING;

/// An offer, and the body of the response, or the key.
static ROWS: [(&str, &str); 14] = [
    (
        "{}",
        r#"{"supportsCancelRequest":true,"supportsConfigurationDoneRequest":true,"supportsLoadedSourcesRequest":true,"supportsSetVariable":true,"supportsStepBack":true,"supportsTerminateRequest":true}"#,
    ),
    (
        r#"{"supportsStepBack":false,"supportsRestartRequest":false,"supportsCancelRequest":true}"#,
        r#"{"supportsCancelRequest":true,"supportsConfigurationDoneRequest":true,"supportsLoadedSourcesRequest":true,"supportsSetVariable":true,"supportsTerminateRequest":true}"#,
    ),
    (
        r#"{"exceptionBreakpointFilters":[{"filter":"raised","label":"Raised"}],"supportsLogPoints":true,"supportsConditionalBreakpoints":true}"#,
        r#"{"exceptionBreakpointFilters":[{"filter":"raised","label":"Raised"}],"supportsCancelRequest":true,"supportsConditionalBreakpoints":true,"supportsConfigurationDoneRequest":true,"supportsLoadedSourcesRequest":true,"supportsLogPoints":true,"supportsSetVariable":true,"supportsStepBack":true,"supportsTerminateRequest":true}"#,
    ),
    (
        r#"{"supportsSetVariable":false,"supportsTerminateRequest":false,"supportsCancelRequest":false,"supportsStepBack":false,"supportsLoadedSourcesRequest":false,"supportsConfigurationDoneRequest":false,"z":null}"#,
        r#"{"z":null}"#,
    ),
    (r#"{"supportsStepBack":null}"#, "supportsStepBack"),
    (
        r#"{"supportsRestartRequest":true}"#,
        "supportsRestartRequest",
    ),
    (
        r#"{"supportsCompletionsRequest":1}"#,
        "supportsCompletionsRequest",
    ),
    (r#"{"supportsSetExpression":true}"#, "supportsSetExpression"),
    (
        r#"{"supportsGotoTargetsRequest":true,"supportsDataBreakpoints":true}"#,
        "supportsDataBreakpoints",
    ),
    (r#"{"variablesReference":1}"#, "variablesReference"),
    (r#"{"scopes":false}"#, "scopes"),
    (r#"{"a":0.5}"#, "a"),
    (r#"{"b":[[1,2.5]],"a":true}"#, "b"),
    ("[]", "no object"),
];

/// What a text offers, or the key that is refused.
fn offer_of(alloc: Global, text: &str, refused: &mut String) -> Option<Offer> {
    let value = match parse(alloc, text.as_bytes()) {
        Ok(value) => value,
        Err(ParseFault::NotJson) => return None,
        Err(ParseFault::OutOfMemory) => return None,
    };
    match Offer::read(alloc, &value) {
        Ok(offer) => Some(offer),
        Err(OfferFault::BadKey(key)) => {
            let _ = refused.push_str(key.as_str());
            None
        }
        Err(OfferFault::NotObject) => {
            let _ = refused.push_str("no object");
            None
        }
        Err(OfferFault::OutOfMemory) => None,
    }
}

/// The first message of an adapter that offers this.
pub(crate) fn first_answer(alloc: Global, offer: Offer) -> Option<String> {
    let debuggee = Recorded::read(alloc, RECORDING).ok()?;
    let limits = Limits::usual();
    let Ok(true) = offers_fit(alloc, limits, &offer) else {
        return None;
    };
    let mut adapter = Adapter::open_with(alloc, limits, debuggee, offer).ok()?;
    let mut out = Vec::new(alloc);
    let answered = adapter.answer_body(
        alloc,
        br#"{"seq":1,"type":"request","command":"initialize"}"#,
        &mut out,
    );
    drop(adapter);
    if answered.is_err() {
        return None;
    }
    let (body, _) = first_body(&out)?;
    let mut text = String::new(alloc);
    text.push_str(str::from_utf8(body).ok()?).ok()?;
    Some(text)
}

/// The message that has this body.
pub(crate) fn whole(alloc: Global, body: &str) -> Result<String, AllocError> {
    let mut text = String::new(alloc);
    text.push_str(r#"{"body":"#)?;
    text.push_str(body)?;
    text.push_str(
        r#","command":"initialize","request_seq":1,"seq":1,"success":true,"type":"response"}"#,
    )?;
    Ok(text)
}

/// Whether this comes of an offer.
fn comes(alloc: Global, text: &str, wanted: &str) -> bool {
    let mut refused = String::new(alloc);
    let Some(offer) = offer_of(alloc, text, &mut refused) else {
        return refused.as_str() == wanted;
    };
    match (first_answer(alloc, offer), whole(alloc, wanted)) {
        (Some(answer), Ok(whole)) => answer.as_str() == whole.as_str(),
        _ => false,
    }
}

#[test]
fn initialize_tells_what_is_offered(rt: HostRuntime) -> Result<(), Fail> {
    for row in &ROWS {
        let (text, wanted) = *row;
        assert!(rt; comes(rt.alloc(), text, wanted));
    }
    Ok(())
}
