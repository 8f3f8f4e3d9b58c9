//! What an adapter asks of a debugger: acts, queries, and the laws that both rest on.
//!
//! The debuggee's own value is its view. `shown` tells what a view shows, and `follows` which views an act may leave with
//! which answer; the laws below the last method tie the two together. An act that is added later adds a case to `Act` and
//! touches no other.
ghost use Rattle.std.specs.Prelude.{◌≡◌, IfOk, OnOk};

use crate::answers::{
    Assigned, DebuggeeFault, Evaluation, Frame, Happening, How, Placement, Scope, Source, Thread,
    Variable,
};
use crate::explanation::{ActFault, Explanation, RefusedQuery};
use dap_command::SourceKey;
use dap_json::Text;
use std::alloc::{AllocError, Global};

/// A debugger with what it debugs.
///
/// There are acts, by a `&mut`, which may change what is shown, and queries, by a `&`, which tell it. Each act is counted and
/// remembered, a refused one too, so keep a number and the last act with its answer, but not why you refused it. Once memory
/// was refused nothing is said of the view, but where `assign` says so: a call that is refused memory may leave anything.
///
/// How a program runs, how far a step goes and at which lines it stops, is yours: no law speaks of it. The laws say when what
/// may be answered, and what stays the same meanwhile. `docs/OWN_DEBUGGER.md` goes through a small debugger, call by call.
pub trait Debuggee {
    ghost use Rattle.std.specs.Prelude.{◌≡◌, IfOk, OnOk, OnErr, IsTrue, option_map};
    ghost use Rattle.std.specs.List.{slice_get};
    ghost use Rattle.std.specs.Option.{IsSome};
    ghost use Rattle.dap_debuggee.specs.Shown.{Shown, Act, Reply, to_start, to_resume, to_pause, to_poll, to_set_breakpoints, to_assign, to_end, done, happened, query_lent, window};
    ghost use Rattle.dap_debuggee.specs.Laws.{Replies, AnswersQuery, Counts, Remembers, Answers, Moves, SetsLines, SetsValues, KeepsAnswers, KeepsFrames, KeepsSources, Stands, is_short, NoThreads, ThreadsInRange, FramesInRange, NamesOneFrame, SourcesInRange, VerifiesEach, AssignsVariables};

    /// What a view shows.
    ghost shown: { Self → Shown };

    /// The views that an act with an answer may leave.
    ghost follows: { Self → Act → Reply → Self → Type 0 };

    /// Starts what is not started, or refuses. Asked once the client has sent `launch` or `attach`, and its breakpoints; a
    /// refusal fails that request, and another one may ask again: say why, such as that there is no such program. What is
    /// started runs: a stop at its first line is told by a poll. Refuse where it runs, is stopped or is gone.
    fn start(&mut self, alloc: Global) -> Result<(), ActFault>
        ensures { Replies result (λ reply. follows self.old to_start reply self.new) };

    /// Lets what is stopped go on, or refuses. `thread` is the one that was asked for; all threads run. Note how far it is to
    /// go, and return: the polls run it, and tell where it stopped. Refuse the ways that you do not have, such as back; refuse
    /// all where it is not stopped.
    fn resume(&mut self, alloc: Global, how: How, thread: i64) -> Result<(), ActFault>
        ensures { Replies result (λ reply. follows self.old (to_resume how thread) reply self.new) };

    /// Asks what runs to stop, or refuses. Note it, and return: nothing that is shown may change. That it has stopped is told
    /// by a poll.
    fn pause(&mut self, alloc: Global) -> Result<(), ActFault>
        ensures { Replies result (λ reply. follows self.old to_pause reply self.new) };

    /// What happened next, without waiting: run a bounded while, and tell one thing. `Nothing` says that there is no news by
    /// now. What runs may give output, stop or exit; what is stopped may give output, go on by itself or exit; before the
    /// start and once gone there is nothing. Only a stop, a going on and an exit may change the frames, scopes and variables that
    /// you gave: where you show the frames of what runs, keep those of the last stop, or show none. Those that you refused may
    /// come by any poll: so a large value can be fetched once it is asked for.
    fn poll(&mut self, alloc: Global) -> Result<Happening, AllocError>
        ensures follows { IfOk result (λ h. follows self.old to_poll (happened h) self.new) }
        ensures in_range { IfOk result (λ h. IsTrue (is_short h)) };

    /// Replaces the breakpoints of a source, in every state. Lines are counted from 1, and may be any; the source may be one
    /// that you do not have. Keep them all, by the source's name: `lines` of what is shown tells the last ones of each. Whether
    /// one can stand at a line is told by `verify`, and none is refused here.
    fn set_breakpoints(
        &mut self,
        alloc: Global,
        source: &SourceKey,
        lines: &[u32],
    ) -> Result<(), AllocError>
        ensures { OnOk result (follows self.old (to_set_breakpoints source.now lines.now) done self.new) };

    /// Sets the first variable of a name directly in a holder, by its object number, to the value that `assigned` tells of it,
    /// with what that says beside it, such as another type. No other variable changes, nor what `assigned` tells of any text: a
    /// debuggee for which that is not so refuses in `assigned`. One that always refuses there is never asked this. It gives this
    /// call clauses of its own, those of the trait without the `requires`, which no caller could meet, and answers `AllocError`.
    ///
    /// # Errors
    /// `AllocError` where memory is refused. All is then as it was, but the count of acts and the last one.
    fn assign(
        &mut self,
        alloc: Global,
        holder: u64,
        name: &str,
        text: &str,
    ) -> Result<(), AllocError>
        requires { IsSome ((shown self.old).assigned holder name.now text.now) }
        ensures follows { OnOk result (follows self.old (to_assign holder name.now text.now) done self.new) }
        ensures memory { OnErr result (Stands (shown self.old) (shown self.new)) };

    /// Ends the debuggee, in every state: asked where the client terminates the session or leaves. From then on it is gone.
    fn end(&mut self)
        ensures { follows self.old to_end done self.new };

    /// The threads, in order; none before the start and once gone. One that has a single thread gives that one in between. A
    /// client is answered by this in every state, and a request that names another thread is refused before you are asked.
    fn threads(&self, alloc: Global) -> Result<Vec<Thread>, AllocError>
        ensures threads { IfOk result (λ threads. threads.items ≡ (shown self.now).threads) }
        ensures in_range { ThreadsInRange (shown self.now) };

    /// The frames of a thread, the newest first. `Refused` where there is no such thread. Asked in a stop. An object number is
    /// yours to choose, such as the depth, but within one stop it names one frame of one thread.
    fn frames(&self, alloc: Global, thread: i64) -> Result<Vec<Frame>, DebuggeeFault>
        ensures frames { AnswersQuery result (λ frames. frames.items) ((shown self.now).frames thread) }
        ensures in_range { FramesInRange (shown self.now) }
        ensures one_name { NamesOneFrame (shown self.now) };

    /// The scopes of a frame, by its object number. `Refused` where there is no such frame. Each names what holds its variables
    /// by a number, which is yours to choose too; numbers of frames and of holders are apart.
    fn scopes(&self, alloc: Global, frame: u64) -> Result<Vec<Scope>, DebuggeeFault>
        ensures { AnswersQuery result (λ scopes. scopes.items) ((shown self.now).scopes frame) };

    /// A part of the variables of a holder, by its object number: from the place `start` on, counted from 0, at most `count` of
    /// them where `count` is above 0, else all. Where there are fewer, those that there are. `Refused` where there is no such
    /// holder. A variable that has children names another holder.
    fn children(
        &self,
        alloc: Global,
        holder: u64,
        start: u32,
        count: u32,
    ) -> Result<Vec<Variable>, DebuggeeFault>
        ensures { AnswersQuery result (λ children. children.items) (option_map (window start count) ((shown self.now).children holder)) };

    /// The value of a text, in a frame by its object number or in none. `Refused` where it has none; a debugger that can't
    /// evaluate always refuses.
    fn evaluate(
        &self,
        alloc: Global,
        frame: Option<u64>,
        text: &str,
    ) -> Result<Evaluation, DebuggeeFault>
        ensures { AnswersQuery result (λ value. value) ((shown self.now).evaluate frame text.now) };

    /// The value that `assign` gives the first variable of a name directly in a holder, by its object number. `Refused` where
    /// there is no such variable, and wherever the debuggee does not take the text for it; a debugger that can set none always
    /// refuses. It is a query: nothing is set yet.
    fn assigned(
        &self,
        alloc: Global,
        holder: u64,
        name: &str,
        text: &str,
    ) -> Result<Assigned, DebuggeeFault>
        ensures { AnswersQuery result (λ assigned. assigned) ((shown self.now).assigned holder name.now text.now) };

    /// The sources, in order, at most 65536. A frame names one by its place here. Each stays at its place before the start,
    /// through all of the run and after it; those of code that is loaded later come behind them.
    fn sources(&self, alloc: Global) -> Result<Vec<Source>, AllocError>
        ensures sources { IfOk result (λ sources. sources.items ≡ (shown self.now).sources) }
        ensures in_range { SourcesInRange (shown self.now) };

    /// A source, by its index from 0. `Refused` where there is none.
    fn source(&self, alloc: Global, index: u32) -> Result<Source, DebuggeeFault>
        ensures source { AnswersQuery result (λ source. source) (slice_get (shown self.now).sources index) }
        ensures in_range { SourcesInRange (shown self.now) };

    /// The text of a source, by its index from 0. `Refused` where there is none to tell. Asked of a source that is not on disk.
    fn content(&self, alloc: Global, index: u32) -> Result<Text, DebuggeeFault>
        ensures { AnswersQuery result (λ text. text) ((shown self.now).content index) };

    /// Of each line, counted from 1, where a breakpoint is that is set there, and whether it can stop: one answer for each, in
    /// order. One that you move has the line where it is; `lines` still has the one that was asked for. A source or a line that you
    /// do not have is not verified, perhaps with a message. `Refused` where it cannot be told: that fails the whole request.
    fn verify(
        &self,
        alloc: Global,
        source: &SourceKey,
        lines: &[u32],
    ) -> Result<Vec<Placement>, DebuggeeFault>
        ensures { AnswersQuery result (λ answers. answers.items) ((shown self.now).verify source.now lines.now) };

    /// Why a query was refused, which the client is told with the failure. Asked once that query was refused, with nothing asked
    /// meanwhile: say why in words, of just what was asked, or give `None`. Nothing rests on it, and it may change at any time.
    fn why(&self, alloc: Global, query: RefusedQuery<'_>) -> Result<Option<Explanation>, AllocError>
        ensures { IfOk result (λ told. told ≡ (shown self.now).why (query_lent query.entry)) };

    /// Each act is counted, modulo 18446744073709551616.
    ghost counts: { Counts shown follows };

    /// Each act is remembered, with its answer, but not why it was refused.
    ghost remembers: { Remembers shown follows };

    /// Only what may be answered in a state is answered.
    ghost answers: { Answers shown follows };

    /// What an act does to the state.
    ghost moves: { Moves shown follows };

    /// Lines change by being set.
    ghost sets_lines: { SetsLines shown follows };

    /// Only what `assigned` tells is set, and it is the value of that variable then.
    ghost sets_values: { SetsValues shown follows };

    /// A refused act, a pause and the setting of breakpoints change no answer.
    ghost keeps_answers: { KeepsAnswers shown follows };

    /// Frames, scopes and variables that were given stay until a value is set, or the debuggee starts, goes on, stops, exits or
    /// is ended. What was refused may be given later, by a poll.
    ghost keeps_frames: { KeepsFrames shown follows };

    /// Each source stays at its place, with its text. More may come behind, but not by a refused act, a pause, breakpoints that
    /// are set or a value that is.
    ghost keeps_sources: { KeepsSources shown follows };

    /// No threads before the start and once gone.
    ghost no_threads: { NoThreads shown };

    /// One answer for each line asked.
    ghost verifies_each: { VerifiesEach shown };

    /// Only a variable that is there can be set.
    ghost assigns_variables: { AssignsVariables shown };
}
