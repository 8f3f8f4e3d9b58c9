//! Commands that whoever opens an adapter answers.
//!
//! Specification, "Requests" and "Capabilities".
ghost use Rattle.std.specs.Prelude.{◌≡◌, IfOk, IfSome, IfNone, None, Some, IsTrue};
ghost use Rattle.dap_command.specs.Opening.{is_openable, may_be_opened, is_opened, are_openable, refused_name};

use crate::command::Command;
use crate::opening_list::opened_in;
use dap_json::Text;
use dap_json::names::is_name;
use serde_json::Value;
use std::alloc::{AllocError, Global};
use std::marker::Model;
use std::sync::Arc;

/// Whether a command may be opened: it is none that is served, and not `cancel`.
pub fn is_openable(command: Option<Command>) -> bool
    ensures { result ≡ is_openable command }
{
    match command {
        None => true,
        Some(Command::SetFunctionBreakpoints) => true,
        Some(Command::Restart) => true,
        Some(Command::Modules) => true,
        Some(Command::ExceptionInfo) => true,
        Some(Command::BreakpointLocations) => true,
        Some(Command::Completions) => true,
        Some(_) => false,
    }
}

/// A command that whoever opens an adapter answers.
#[derive(Debug, Drop)]
pub struct Opened {
    pub name: Text,
    /// It is of stops alone: in any other state of the debuggee it is refused.
    pub in_stops: bool,
}

/// Why commands are not opened.
#[derive(Debug, Drop)]
pub enum OpeningFault {
    /// It is no list of names, and of objects with a name.
    NotList,
    /// The first name, in their order, that is no name, or that is of a command that is served, or that stands before.
    BadName(Text),
    OutOfMemory,
}

impl From<AllocError> for OpeningFault {
    ghost use Rattle.std.specs.Prelude.{◌≡◌};
    ghost use Rattle.dap_command.specs.declared.opening.OpeningFault.{OpeningFault};

    ghost from_gives = { λ _ fault. fault ≡ OpeningFault.OutOfMemory };

    fn from(_: AllocError) -> OpeningFault {
        OpeningFault::OutOfMemory
    }
}

/// The commands that whoever opens an adapter answers, by their names, of which no two are the same. A contract sees the list.
/// A copy takes no memory.
#[derive(Debug, Drop)]
pub struct Opening {
    /// None where nothing is opened.
    held: Option<Arc<Vec<Opened>>>,
}

impl Model for Opening {
    ghost use Rattle.std.specs.Prelude.{List, IsTrue};
    ghost use Rattle.std.specs.Coded.{codes};
    ghost use Rattle.dap_json.specs.Stored.{coded_data};
    ghost use Rattle.dap_command.specs.Opening.{are_openable};
    ghost use Rattle.dap_command.specs.PrivateOpening.{opened_held};
    ghost use Rattle.dap_command.specs.declared.opening.Opened.{Opened};

    ghost Value = { List Opened };

    ghost coded = { Prim.hlevel (codes, coded_data) };

    ghost view = { λ o. opened_held o.held };

    ghost invariant = { λ o. IsTrue (are_openable (opened_held o.held)) };
}

fn has_name(opened: &[Opened], name: &str) -> bool
    ensures { result ≡ is_opened name.now opened.now }
{
    opened.iter().any(|o| o.name.as_str() == name)
}

fn may_be_opened(name: &str) -> bool
    ensures { result ≡ may_be_opened name.now }
{
    is_name(name) && is_openable(Command::of_name(name))
}

/// The first name that is none that can be opened, or that stands before.
fn refused_name(commands: &[Opened]) -> Option<&str>
    ensures name { IfSome result (λ name. refused_name commands.now ≡ Some name.now) }
    ensures none { IfNone result (refused_name commands.now ≡ None) }
{
    for at in 0..commands.len() {
        let name = commands[at].name.as_str();
        if !may_be_opened(name) || has_name(&commands[..at], name) {
            return Some(name);
        }
    }
    None
}

fn held(alloc: Global, kept: Vec<Opened>) -> Result<Opening, AllocError>
    requires { IsTrue (are_openable kept.items) }
    ensures { IfOk result (λ opening. opening ≡ kept.items) }
{
    Ok(Opening {
        held: Some(Arc::new(alloc, kept)?),
    })
}

impl Opening {
    ghost use Rattle.std.specs.Prelude.{◌≡◌, [], ◌≢◌, IfOk, IsOk, IfErr, IsTrue, None, Some, Ok, Err, option_map};
    ghost use Rattle.serde_json.specs.View.{view};
    ghost use Rattle.dap_command.specs.Opening.{refused_name, is_opened, opened_as, are_openable, opening_in};
    ghost use Rattle.dap_command.specs.declared.opening.OpeningFault.{OpeningFault};
    ghost use Rattle.dap_command.specs.declared.opening.OpeningFault.TheVariants.{BadName};

    /// There are none: what an adapter has if nobody says otherwise.
    pub fn none() -> Opening
        ensures { result ≡ [] }
    {
        Opening { held: None }
    }

    /// Those commands.
    ///
    /// # Errors
    /// `BadName` with the first that has more than 64 bytes, or a control character, quotation mark or backslash; that is of a
    /// command which is served, or `cancel`; or that stands there twice.
    pub fn of(alloc: Global, commands: Vec<Opened>) -> Result<Opening, OpeningFault>
        ensures opening { IfOk result (λ opening. opening ≡ commands.items) }
        ensures none_is_refused { IsOk result → refused_name commands.items ≡ None }
        ensures fault { IfErr result (λ fault. fault ≢ OpeningFault.OutOfMemory → option_map BadName (refused_name commands.items) ≡ Some fault) }
    {
        if let Some(name) = refused_name(&commands) {
            return Err(OpeningFault::BadName(Text::copied(alloc, name)?));
        }
        Ok(held(alloc, commands)?)
    }

    /// Reads a list. An element is a text, a command by its name, or an object: its `name`, and perhaps, at `inStops`, whether it
    /// is of stops alone. Where that is not said, `exceptionInfo`, `setExpression`, `stepInTargets`, `gotoTargets`, `goto` and
    /// `restartFrame` are, and others are not. Other keys are not looked at.
    ///
    /// # Errors
    /// `NotList` for another value, and where an element has no name, or what is no truth value at `inStops`; `BadName` as
    /// [`Opening::of`].
    pub fn read(alloc: Global, value: &Value) -> Result<Opening, OpeningFault>
        ensures opening { IfOk result (λ opening. opening_in (view value.now) ≡ Ok opening) }
        ensures fault { IfErr result (λ fault. fault ≢ OpeningFault.OutOfMemory → opening_in (view value.now) ≡ Err fault) }
    {
        match opened_in(alloc, value)? {
            None => Err(OpeningFault::NotList),
            Some(commands) => Opening::of(alloc, commands),
        }
    }

    /// The commands, lent.
    pub fn as_slice(&self) -> &[Opened]
        ensures { result.now ≡ self.now }
    {
        match &self.held {
            None => &[],
            Some(held) => held.as_slice(),
        }
    }

    /// Whether the command with a name is among them.
    pub fn contains(&self, name: &str) -> bool
        ensures { result ≡ is_opened name.now self.now }
    {
        has_name(self.as_slice(), name)
    }

    /// Whether the command with a name is of stops alone; `None` where it is not among them.
    pub fn in_stops(&self, name: &str) -> Option<bool>
        ensures { result ≡ option_map (λ o. o.in_stops) (opened_as name.now self.now) }
    {
        match self.as_slice().iter().find(|o| o.name.as_str() == name) {
            Some(opened) => Some(opened.in_stops),
            None => None,
        }
    }

    /// What holds of them: each may be opened. There is nothing to run.
    #[inline(always)]
    pub fn opening_is_fit(&self)
        ensures { IsTrue (are_openable self.now) }
    {
        let _ = &self.held;
    }
}

impl Clone for Opening {
    ghost use Rattle.std.specs.Prelude.{◌≡◌};

    ghost is_clone = { λ a b. b ≡ a };

    /// It takes no memory.
    fn clone(&self) -> Result<Opening, AllocError> {
        let held = match &self.held {
            None => None,
            Some(held) => Some(held.clone()?),
        };
        Ok(Opening { held })
    }
}
