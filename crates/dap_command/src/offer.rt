//! What an adapter offers, as who opens it says.
//!
//! Specification, "Capabilities" and "InitializeResponse".
ghost use Rattle.std.specs.Prelude.{◌≡◌, IfOk, OnOk, IfSome, IfNone, None, Some, true, option_map, map};
ghost use Rattle.serde_json.specs.Data.{no_members};
ghost use Rattle.serde_json.specs.View.{view, members_view};
ghost use Rattle.dap_json.specs.More.{members_in};
ghost use Rattle.dap_command.specs.Opening.{gated_by, is_offered, further_rows};
ghost use Rattle.dap_command.specs.PrivateOpening.{gated_names};
ghost use Rattle.dap_command.specs.Offer.{is_among, served_flags, unserved_flags, reference_keys, is_said, is_refused, refused_key, with_others, with_flag_of, with_flags, beside_gates};

use crate::capabilities::{Capabilities, updated};
use crate::command::Gate;
use crate::opening::Opening;
use dap_json::plain::is_plain;
use dap_json::{MORE_NESTING, More, Text};
use serde_json::{Map, Value, put};
use std::alloc::{AllocError, Global};

/// What an adapter offers: its flags of what is served, each of which may be taken back, and more members of the body with which
/// `initialize` is answered, such as `supportsConditionalBreakpoints`.
#[derive(Debug, Drop)]
pub struct Offer {
    pub cancel: bool,
    pub configuration_done: bool,
    pub loaded_sources: bool,
    pub set_variable: bool,
    pub step_back: bool,
    pub terminate: bool,
    /// Commands that whoever opens the adapter answers. The flags of those that are among the thirty are offered by this;
    /// [`Offer::read_opening`] puts the others' in `more`.
    pub opened: Opening,
    /// What stands beside these. A flag of a command that is among the thirty, and what a reader would take for references, is
    /// left out.
    pub more: More,
}

/// Why an offer is not read.
#[derive(Debug, Drop)]
pub enum OfferFault {
    NotObject,
    /// At this key, the first in byte order, is what can't be offered.
    BadKey(Text),
    OutOfMemory,
}

impl From<AllocError> for OfferFault {
    ghost use Rattle.std.specs.Prelude.{◌≡◌};
    ghost use Rattle.dap_command.specs.declared.offer.OfferFault.{OfferFault};

    ghost from_gives = { λ _ fault. fault ≡ OfferFault.OutOfMemory };

    fn from(_: AllocError) -> OfferFault {
        OfferFault::OutOfMemory
    }
}

fn is_served(key: &str) -> bool
    ensures { result ≡ is_among key.now served_flags }
{
    match key {
        "supportsCancelRequest" => true,
        "supportsConfigurationDoneRequest" => true,
        "supportsLoadedSourcesRequest" => true,
        "supportsSetVariable" => true,
        "supportsStepBack" => true,
        "supportsTerminateRequest" => true,
        _ => false,
    }
}

fn is_unserved(key: &str) -> bool
    ensures { result ≡ is_among key.now unserved_flags }
{
    match key {
        "supportsBreakpointLocationsRequest" => true,
        "supportsCompletionsRequest" => true,
        "supportsExceptionInfoRequest" => true,
        "supportsFunctionBreakpoints" => true,
        "supportsModulesRequest" => true,
        "supportsRestartRequest" => true,
        "supportsDataBreakpoints" => true,
        "supportsDisassembleRequest" => true,
        "supportsGotoTargetsRequest" => true,
        "supportsInstructionBreakpoints" => true,
        "supportsReadMemoryRequest" => true,
        "supportsRestartFrame" => true,
        "supportsSetExpression" => true,
        "supportsStepInTargetsRequest" => true,
        "supportsTerminateThreadsRequest" => true,
        "supportsWriteMemoryRequest" => true,
        _ => false,
    }
}

/// The commands that a flag gates.
#[derive(Clone, Copy)]
enum Gated {
    One(&'static str),
    Two(&'static str, &'static str),
}

/// What a flag gates, of the commands that are never served.
fn gated_by(flag: &str) -> Option<Gated>
    ensures { option_map gated_names result ≡ gated_by flag.now }
{
    match flag {
        "supportsBreakpointLocationsRequest" => Some(Gated::One("breakpointLocations")),
        "supportsCompletionsRequest" => Some(Gated::One("completions")),
        "supportsExceptionInfoRequest" => Some(Gated::One("exceptionInfo")),
        "supportsFunctionBreakpoints" => Some(Gated::One("setFunctionBreakpoints")),
        "supportsModulesRequest" => Some(Gated::One("modules")),
        "supportsRestartRequest" => Some(Gated::One("restart")),
        "supportsDataBreakpoints" => Some(Gated::Two("dataBreakpointInfo", "setDataBreakpoints")),
        "supportsDisassembleRequest" => Some(Gated::One("disassemble")),
        "supportsGotoTargetsRequest" => Some(Gated::Two("gotoTargets", "goto")),
        "supportsInstructionBreakpoints" => Some(Gated::One("setInstructionBreakpoints")),
        "supportsReadMemoryRequest" => Some(Gated::One("readMemory")),
        "supportsRestartFrame" => Some(Gated::One("restartFrame")),
        "supportsSetExpression" => Some(Gated::One("setExpression")),
        "supportsStepInTargetsRequest" => Some(Gated::One("stepInTargets")),
        "supportsTerminateThreadsRequest" => Some(Gated::One("terminateThreads")),
        "supportsWriteMemoryRequest" => Some(Gated::One("writeMemory")),
        _ => None,
    }
}

/// Whether a key is a flag of commands that are never served, each of which is opened.
fn is_offered(key: &str, opened: &Opening) -> bool
    ensures { result ≡ is_offered opened.now key.now }
{
    match gated_by(key) {
        None => false,
        Some(Gated::One(name)) => opened.contains(name),
        Some(Gated::Two(first, second)) => opened.contains(first) && opened.contains(second),
    }
}

fn names_references(key: &str) -> bool
    ensures { result ≡ is_among key.now reference_keys }
{
    match key {
        "scopes" => true,
        "stackFrames" => true,
        "variables" => true,
        "variablesReference" => true,
        _ => false,
    }
}

/// Whether a value is that truth value.
fn is_said(said: bool, value: &Value) -> bool
    ensures { result ≡ is_said said (view value.now) }
{
    if said {
        value.as_bool().unwrap_or(false)
    } else {
        !value.as_bool().unwrap_or(true)
    }
}

/// Whether what is at a key can't be offered.
fn is_refused(key: &str, value: &Value, opened: &Opening) -> bool
    ensures { result ≡ is_refused opened.now key.now (view value.now) }
{
    if is_served(key) {
        return value.as_bool().is_none();
    }
    if is_unserved(key) {
        return !is_said(is_offered(key, opened), value);
    }
    names_references(key) || !is_plain(value, MORE_NESTING - 1)
}

/// The first key that is refused.
fn refused_key<'a>(map: &'a Map<String, Value>, opened: &Opening) -> Option<&'a str>
    ensures key { IfSome result (λ key. refused_key opened.now (members_view map.now.entries) ≡ Some key.now) }
    ensures none { IfNone result (refused_key opened.now (members_view map.now.entries) ≡ None) }
{
    for (key, value) in map.iter() {
        if is_refused(key.as_str(), value, opened) {
            return Some(key.as_str());
        }
    }
    None
}

/// The members but the flags of commands.
fn others(alloc: Global, map: &Map<String, Value>) -> Result<Map<String, Value>, AllocError>
    ensures { IfOk result (λ kept. members_view kept.entries ≡ with_others no_members (members_view map.now.entries)) }
{
    let mut kept = Map::new(alloc);
    for (key, value) in map.iter() {
        if !(is_served(key.as_str()) || is_unserved(key.as_str())) {
            put(&mut kept, alloc, key.as_str(), value.clone()?)?;
        }
    }
    Ok(kept)
}

/// Puts a flag where it is offered.
fn put_flag(
    alloc: Global,
    members: &mut Map<String, Value>,
    opened: &Opening,
    flag: &str,
) -> Result<(), AllocError>
    ensures { OnOk result (members_view members.new.entries ≡ with_flag_of opened.now flag.now (members_view members.old.entries)) }
{
    if is_offered(flag, opened) {
        put(members, alloc, flag, Value::Bool(true))?;
    }
    Ok(())
}

/// Puts the flags of the protocol's further commands.
fn put_flags(
    alloc: Global,
    members: &mut Map<String, Value>,
    opened: &Opening,
) -> Result<(), AllocError>
    ensures { OnOk result (members_view members.new.entries ≡ with_flags (map (λ r. r.flag) further_rows) opened.now (members_view members.old.entries)) }
{
    put_flag(alloc, members, opened, "supportsDataBreakpoints")?;
    put_flag(alloc, members, opened, "supportsDisassembleRequest")?;
    put_flag(alloc, members, opened, "supportsGotoTargetsRequest")?;
    put_flag(alloc, members, opened, "supportsInstructionBreakpoints")?;
    put_flag(alloc, members, opened, "supportsReadMemoryRequest")?;
    put_flag(alloc, members, opened, "supportsRestartFrame")?;
    put_flag(alloc, members, opened, "supportsSetExpression")?;
    put_flag(alloc, members, opened, "supportsStepInTargetsRequest")?;
    put_flag(alloc, members, opened, "supportsTerminateThreadsRequest")?;
    put_flag(alloc, members, opened, "supportsWriteMemoryRequest")
}

/// What stands beside the flags that gate a command.
fn more_in(alloc: Global, map: &Map<String, Value>, opened: &Opening) -> Result<More, AllocError>
    requires { refused_key opened.now (members_view map.now.entries) ≡ None }
    ensures { IfOk result (λ more. more ≡ members_in (beside_gates opened.now (members_view map.now.entries))) }
{
    let mut kept = others(alloc, map)?;
    put_flags(alloc, &mut kept, opened)?;
    let kept = Value::Object(kept);
    match More::of(alloc, &kept)? {
        Some(more) => Ok(more),
        None => unreachable!(),
    }
}

impl Offer {
    ghost use Rattle.std.specs.Prelude.{◌≡◌, ◌≢◌, IfOk, IfErr, Ok, Err};
    ghost use Rattle.serde_json.specs.View.{view};
    ghost use Rattle.dap_command.specs.Offer.{usual_offer, gates_of, offer_in, opened_offer_in};
    ghost use Rattle.dap_command.specs.declared.offer.OfferFault.{OfferFault};

    /// All that is served, and no more: what an adapter offers if nobody says otherwise.
    pub fn usual() -> Offer
        ensures { result ≡ usual_offer }
    {
        Offer {
            cancel: true,
            configuration_done: true,
            loaded_sources: true,
            set_variable: true,
            step_back: true,
            terminate: true,
            opened: Opening::none(),
            more: More::none(),
        }
    }

    /// The flags that gate a command. Those of commands that are never served are `true` where these are opened.
    pub fn gates(&self) -> Capabilities
        ensures { result ≡ gates_of self.now }
    {
        Capabilities {
            breakpoint_locations: self.opened.contains("breakpointLocations"),
            cancel: self.cancel,
            completions: self.opened.contains("completions"),
            configuration_done: self.configuration_done,
            exception_info: self.opened.contains("exceptionInfo"),
            function_breakpoints: self.opened.contains("setFunctionBreakpoints"),
            loaded_sources: self.loaded_sources,
            modules: self.opened.contains("modules"),
            restart: self.opened.contains("restart"),
            set_variable: self.set_variable,
            step_back: self.step_back,
            terminate: self.terminate,
        }
    }

    /// Reads an object of members of the type "Capabilities". A flag of what is served is offered, unless it is `false`; each
    /// other member stands beside, but flags of commands that are never served.
    ///
    /// # Errors
    /// `BadKey` with the first key, in byte order, at which is what can't be offered: a flag of what is served that is neither
    /// `true` nor `false`; a flag of a command that is never served, such as `supportsRestartFrame`, that is not `false`; a key
    /// that names references, such as `variables`; a float, or what nests more than 99 deep. `NotObject` for another value.
    pub fn read(alloc: Global, value: &Value) -> Result<Offer, OfferFault>
        ensures offer { IfOk result (λ offer. offer_in (view value.now) ≡ Ok offer) }
        ensures fault { IfErr result (λ fault. fault ≢ OfferFault.OutOfMemory → offer_in (view value.now) ≡ Err fault) }
    {
        Offer::read_opening(alloc, value, Opening::none())
    }

    /// The same, with commands that whoever opens the adapter answers. A flag of theirs is offered, whether it is said or not:
    /// that of two commands (`supportsGotoTargetsRequest`, `supportsDataBreakpoints`) where both are opened.
    ///
    /// # Errors
    /// As [`Offer::read`], but a flag of commands that are all opened has to be `true` where it is there.
    pub fn read_opening(alloc: Global, value: &Value, opened: Opening) -> Result<Offer, OfferFault>
        ensures offer { IfOk result (λ offer. opened_offer_in opened (view value.now) ≡ Ok offer) }
        ensures fault { IfErr result (λ fault. fault ≢ OfferFault.OutOfMemory → opened_offer_in opened (view value.now) ≡ Err fault) }
    {
        let Value::Object(map) = value else {
            return Err(OfferFault::NotObject);
        };
        if let Some(key) = refused_key(map, &opened) {
            return Err(OfferFault::BadKey(Text::copied(alloc, key)?));
        }
        let more = more_in(alloc, map, &opened)?;
        Ok(Offer {
            cancel: updated(value, Gate::Cancel, true),
            configuration_done: updated(value, Gate::ConfigurationDone, true),
            loaded_sources: updated(value, Gate::LoadedSources, true),
            set_variable: updated(value, Gate::SetVariable, true),
            step_back: updated(value, Gate::StepBack, true),
            terminate: updated(value, Gate::Terminate, true),
            opened,
            more,
        })
    }
}

impl Clone for Offer {
    ghost use Rattle.std.specs.Prelude.{◌≡◌};

    ghost is_clone = { λ a b. b ≡ a };

    /// It takes no memory.
    fn clone(&self) -> Result<Offer, AllocError> {
        Ok(Offer {
            cancel: self.cancel,
            configuration_done: self.configuration_done,
            loaded_sources: self.loaded_sources,
            set_variable: self.set_variable,
            step_back: self.step_back,
            terminate: self.terminate,
            opened: self.opened.clone()?,
            more: self.more.clone()?,
        })
    }
}
