//! What a client reads of the body of a response: threads, stack frames, scopes, variables, breakpoints, loaded sources, the
//! result of `evaluate`, the value of `setVariable` and the text of a source, each lent by the JSON tree.
//!
//! Specification, the types whose names end in "Response", and "Types". Keys that are not named here are ignored, and
//! `null` counts as absent. What the body of `initialize` offers is read by [`Capabilities::read`].
ghost use Rattle.std.specs.Prelude.{◌≡◌, map, [], ◌∷◌, ◌++◌, MatchResult};
ghost use Rattle.serde_json.specs.View.{view};
ghost use Rattle.dap_json.specs.Property.{ok_map};
ghost use Rattle.dap_body.specs.View.{Gives, threads_in, stack_frames_in, stack_trace_in, scopes_in, variables_in, breakpoints_in, sources_in, evaluation_in, value_in, content_in, stack_trace_parts};
ghost use Rattle.dap_body.specs.Lent.{thread_parts, source_parts, stack_frame_parts, scope_parts, variable_parts, breakpoint_parts, evaluation_parts};

pub use crate::elements::{Breakpoint, Evaluation, Scope, Source, StackFrame, Thread, Variable};
pub use crate::fault::ViewFault;
pub use crate::key::BodyKey;
use crate::key::at;
pub use dap_command::Capabilities;
use serde_json::Value;
use std::alloc::Global;

/// The frames of a thread's stack that were asked for.
#[derive(Debug, Drop)]
pub struct StackTrace<'v> {
    pub stack_frames: Vec<StackFrame<'v>>,
    /// 0 to 9007199254740991. How many frames there are in all, where the adapter says so.
    pub total_frames: Option<u64>,
}

/// Appends the element of this place, where it could be read.
fn add<T: Drop>(found: &mut Vec<T>, index: usize, read: Result<T, BodyKey>) -> Result<(), ViewFault>
    ensures { MatchResult read
        (λ x. MatchResult result (λ _. found.new.items ≡ found.old.items ++ x ∷ []) (λ fault. fault ≡ ViewFault.OutOfMemory))
        (λ key. result ≡ Err (ViewFault.Element index key)) }
{
    match read {
        Ok(x) => match found.push(x) {
            Ok(()) => Ok(()),
            Err(_) => Err(ViewFault::OutOfMemory),
        },
        Err(key) => Err(ViewFault::Element { index, key }),
    }
}

/// The threads in the body of a response to `threads`.
#[tactic(auto, unfolding(crate::specs::View::threads_in))]
pub fn threads(alloc: Global, body: &Value) -> Result<Vec<Thread<'_>>, ViewFault>
    ensures { Gives (λ found. map thread_parts found.items) result (threads_in (view body.now)) }
{
    let items = at(body, BodyKey::Threads).required_items()?;
    let mut found = Vec::new(alloc);
    for (index, item) in items.iter().enumerate() {
        add(&mut found, index, Thread::read(item))?;
    }
    Ok(found)
}

#[tactic(auto, unfolding(crate::specs::View::stack_frames_in))]
fn stack_frames(alloc: Global, body: &Value) -> Result<Vec<StackFrame<'_>>, ViewFault>
    ensures { Gives (λ found. map stack_frame_parts found.items) result (stack_frames_in (view body.now)) }
{
    let items = at(body, BodyKey::StackFrames).required_items()?;
    let mut found = Vec::new(alloc);
    for (index, item) in items.iter().enumerate() {
        add(&mut found, index, StackFrame::read(item))?;
    }
    Ok(found)
}

/// The frames in the body of a response to `stackTrace`, and how many there are in all.
#[tactic(auto, unfolding(crate::specs::View::stack_trace_in))]
pub fn stack_trace(alloc: Global, body: &Value) -> Result<StackTrace<'_>, ViewFault>
    ensures { Gives stack_trace_parts result (stack_trace_in (view body.now)) }
{
    let stack_frames = stack_frames(alloc, body)?;
    let total_frames = at(body, BodyKey::TotalFrames).optional_whole()?;
    Ok(StackTrace {
        stack_frames,
        total_frames,
    })
}

/// The scopes in the body of a response to `scopes`.
#[tactic(auto, unfolding(crate::specs::View::scopes_in))]
pub fn scopes(alloc: Global, body: &Value) -> Result<Vec<Scope<'_>>, ViewFault>
    ensures { Gives (λ found. map scope_parts found.items) result (scopes_in (view body.now)) }
{
    let items = at(body, BodyKey::Scopes).required_items()?;
    let mut found = Vec::new(alloc);
    for (index, item) in items.iter().enumerate() {
        add(&mut found, index, Scope::read(item))?;
    }
    Ok(found)
}

/// The variables in the body of a response to `variables`.
#[tactic(auto, unfolding(crate::specs::View::variables_in))]
pub fn variables(alloc: Global, body: &Value) -> Result<Vec<Variable<'_>>, ViewFault>
    ensures { Gives (λ found. map variable_parts found.items) result (variables_in (view body.now)) }
{
    let items = at(body, BodyKey::Variables).required_items()?;
    let mut found = Vec::new(alloc);
    for (index, item) in items.iter().enumerate() {
        add(&mut found, index, Variable::read(item))?;
    }
    Ok(found)
}

/// The breakpoints in the body of a response to `setBreakpoints`: an answer to each that was asked for, in order.
#[tactic(auto, unfolding(crate::specs::View::breakpoints_in))]
pub fn breakpoints(alloc: Global, body: &Value) -> Result<Vec<Breakpoint<'_>>, ViewFault>
    ensures { Gives (λ found. map breakpoint_parts found.items) result (breakpoints_in (view body.now)) }
{
    let items = at(body, BodyKey::Breakpoints).required_items()?;
    let mut found = Vec::new(alloc);
    for (index, item) in items.iter().enumerate() {
        add(&mut found, index, Breakpoint::read(item))?;
    }
    Ok(found)
}

/// The sources in the body of a response to `loadedSources`.
#[tactic(auto, unfolding(crate::specs::View::sources_in))]
pub fn loaded_sources(alloc: Global, body: &Value) -> Result<Vec<Source<'_>>, ViewFault>
    ensures { Gives (λ found. map source_parts found.items) result (sources_in (view body.now)) }
{
    let items = at(body, BodyKey::Sources).required_items()?;
    let mut found = Vec::new(alloc);
    for (index, item) in items.iter().enumerate() {
        add(&mut found, index, Source::read(item))?;
    }
    Ok(found)
}

/// What is in the body of a response to `evaluate`. It takes no memory.
pub fn evaluate(body: &Value) -> Result<Evaluation<'_>, ViewFault>
    ensures { ok_map evaluation_parts result ≡ evaluation_in (view body.now) }
{
    Ok(Evaluation::read(body)?)
}

/// The value in the body of a response to `setVariable`. It takes no memory.
pub fn set_variable(body: &Value) -> Result<&str, ViewFault>
    ensures { ok_map (λ value. value.now) result ≡ value_in (view body.now) }
{
    Ok(at(body, BodyKey::Value).required_text()?)
}

/// The text in the body of a response to `source`. It takes no memory.
pub fn source(body: &Value) -> Result<&str, ViewFault>
    ensures { ok_map (λ content. content.now) result ≡ content_in (view body.now) }
{
    Ok(at(body, BodyKey::Content).required_text()?)
}
