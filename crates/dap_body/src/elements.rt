//! The objects in bodies, lent: Specification, "Thread", "StackFrame", "Source", "Scope", "Variable", "Breakpoint" and
//! "EvaluateResponse".
//!
//! Lines and columns are as they came: whether they count from 0 or 1 is what `initialize` has said.
ghost use Rattle.std.specs.Prelude.{◌≡◌, option_map};
ghost use Rattle.serde_json.specs.View.{view};
ghost use Rattle.dap_json.specs.Property.{ok_map};
ghost use Rattle.dap_body.specs.At.{optional_at};
ghost use Rattle.dap_body.specs.Elements.{thread_of, source_in, source_of, stack_frame_of, scope_of, variable_of, breakpoint_of, evaluation_of};
ghost use Rattle.dap_body.specs.Lent.{thread_parts, source_parts, stack_frame_parts, scope_parts, variable_parts, breakpoint_parts, evaluation_parts};

use crate::key::{BodyKey, at};
use serde_json::Value;

/// A thread of the debuggee.
#[derive(Clone, Copy, Debug, PartialEq, Eq, Drop)]
pub struct Thread<'v> {
    /// -9007199254740991 to 9007199254740991.
    pub id: i64,
    pub name: &'v str,
}

/// A source of the debuggee.
#[derive(Clone, Copy, Debug, PartialEq, Eq, Drop)]
pub struct Source<'v> {
    pub name: Option<&'v str>,
    pub path: Option<&'v str>,
    /// 0 to 2147483647. The number by which its text is asked for, 0 where its path says where that is.
    pub source_reference: u32,
}

/// A frame of a thread's stack.
#[derive(Clone, Copy, Debug, PartialEq, Eq, Drop)]
pub struct StackFrame<'v> {
    /// 0 to 2147483647. The number by which its scopes are asked for.
    pub id: u32,
    pub name: &'v str,
    /// 0 to 2147483647.
    pub line: u32,
    /// 0 to 2147483647.
    pub column: u32,
    pub source: Option<Source<'v>>,
}

/// A scope of a frame.
#[derive(Clone, Copy, Debug, PartialEq, Eq, Drop)]
pub struct Scope<'v> {
    pub name: &'v str,
    /// 0 to 2147483647. The number by which its variables are asked for.
    pub variables_reference: u32,
    /// Whether to ask for them takes long.
    pub expensive: bool,
}

/// A variable, with its value as text.
#[derive(Clone, Copy, Debug, PartialEq, Eq, Drop)]
pub struct Variable<'v> {
    pub name: &'v str,
    pub value: &'v str,
    /// 0 to 2147483647. The number by which its parts are asked for, 0 where it has none.
    pub variables_reference: u32,
}

/// A breakpoint as it was answered.
#[derive(Clone, Copy, Debug, PartialEq, Eq, Drop)]
pub struct Breakpoint<'v> {
    /// 0 to 9007199254740991.
    pub id: Option<u64>,
    /// Whether it could be set.
    pub verified: bool,
    /// 0 to 2147483647. Where it was set.
    pub line: Option<u32>,
    /// Why it could not be set, or what else is to be said of it.
    pub message: Option<&'v str>,
}

/// What an expression came to.
#[derive(Clone, Copy, Debug, PartialEq, Eq, Drop)]
pub struct Evaluation<'v> {
    pub result: &'v str,
    /// 0 to 2147483647. The number by which its parts are asked for, 0 where it has none.
    pub variables_reference: u32,
}

impl<'v> Thread<'v> {
    #[tactic(auto, unfolding(crate::specs::Elements::thread_of))]
    pub(crate) fn read(object: &'v Value) -> Result<Thread<'v>, BodyKey>
        ensures { ok_map thread_parts result ≡ thread_of (view object.now) }
    {
        let id = at(object, BodyKey::Id).required_int()?;
        let name = at(object, BodyKey::Name).required_text()?;
        Ok(Thread { id, name })
    }
}

impl<'v> Source<'v> {
    #[tactic(auto, unfolding(crate::specs::Elements::source_in))]
    pub(crate) fn read(object: &'v Value) -> Result<Source<'v>, BodyKey>
        ensures { ok_map source_parts result ≡ source_in (view object.now) }
    {
        if !object.is_object() {
            return Err(BodyKey::Source);
        }
        let name = at(object, BodyKey::Name).optional_text()?;
        let path = at(object, BodyKey::Path).optional_text()?;
        let source_reference = at(object, BodyKey::SourceReference).number_or(0)?;
        Ok(Source {
            name,
            path,
            source_reference,
        })
    }
}

fn source_object(value: &Value) -> Option<Source<'_>>
    ensures { option_map source_parts result ≡ source_of (view value.now) }
{
    match Source::read(value) {
        Ok(source) => Some(source),
        Err(_) => None,
    }
}

fn optional_source(object: &Value) -> Result<Option<Source<'_>>, BodyKey>
    ensures { ok_map (option_map source_parts) result ≡ optional_at source_of BodyKey.Source (view object.now) }
{
    match at(object, BodyKey::Source).found {
        None => Ok(None),
        Some(value) => match source_object(value) {
            None => Err(BodyKey::Source),
            Some(source) => Ok(Some(source)),
        },
    }
}

impl<'v> StackFrame<'v> {
    #[tactic(auto, unfolding(crate::specs::Elements::stack_frame_of))]
    pub(crate) fn read(object: &'v Value) -> Result<StackFrame<'v>, BodyKey>
        ensures { ok_map stack_frame_parts result ≡ stack_frame_of (view object.now) }
    {
        let id = at(object, BodyKey::Id).required_number()?;
        let name = at(object, BodyKey::Name).required_text()?;
        let line = at(object, BodyKey::Line).required_number()?;
        let column = at(object, BodyKey::Column).required_number()?;
        let source = optional_source(object)?;
        Ok(StackFrame {
            id,
            name,
            line,
            column,
            source,
        })
    }
}

impl<'v> Scope<'v> {
    #[tactic(auto, unfolding(crate::specs::Elements::scope_of))]
    pub(crate) fn read(object: &'v Value) -> Result<Scope<'v>, BodyKey>
        ensures { ok_map scope_parts result ≡ scope_of (view object.now) }
    {
        let name = at(object, BodyKey::Name).required_text()?;
        let variables_reference = at(object, BodyKey::VariablesReference).required_number()?;
        let expensive = at(object, BodyKey::Expensive).required_flag()?;
        Ok(Scope {
            name,
            variables_reference,
            expensive,
        })
    }
}

impl<'v> Variable<'v> {
    #[tactic(auto, unfolding(crate::specs::Elements::variable_of))]
    pub(crate) fn read(object: &'v Value) -> Result<Variable<'v>, BodyKey>
        ensures { ok_map variable_parts result ≡ variable_of (view object.now) }
    {
        let name = at(object, BodyKey::Name).required_text()?;
        let value = at(object, BodyKey::Value).required_text()?;
        let variables_reference = at(object, BodyKey::VariablesReference).required_number()?;
        Ok(Variable {
            name,
            value,
            variables_reference,
        })
    }
}

impl<'v> Breakpoint<'v> {
    #[tactic(auto, unfolding(crate::specs::Elements::breakpoint_of))]
    pub(crate) fn read(object: &'v Value) -> Result<Breakpoint<'v>, BodyKey>
        ensures { ok_map breakpoint_parts result ≡ breakpoint_of (view object.now) }
    {
        let id = at(object, BodyKey::Id).optional_whole()?;
        let verified = at(object, BodyKey::Verified).required_flag()?;
        let line = at(object, BodyKey::Line).optional_number()?;
        let message = at(object, BodyKey::Message).optional_text()?;
        Ok(Breakpoint {
            id,
            verified,
            line,
            message,
        })
    }
}

impl<'v> Evaluation<'v> {
    #[tactic(auto, unfolding(crate::specs::Elements::evaluation_of))]
    pub(crate) fn read(object: &'v Value) -> Result<Evaluation<'v>, BodyKey>
        ensures { ok_map evaluation_parts result ≡ evaluation_of (view object.now) }
    {
        let text = at(object, BodyKey::Result).required_text()?;
        let variables_reference = at(object, BodyKey::VariablesReference).required_number()?;
        Ok(Evaluation {
            result: text,
            variables_reference,
        })
    }
}
