//! The body that answers a query: what the debuggee shows, with a number for each object that it names.
ghost use Rattle.std.specs.Prelude.{◌≡◌, List, IfOk, OnErr};
ghost use Rattle.dap_debuggee.specs.Shown.{window};
ghost use Rattle.dap_debuggee.specs.declared.answers.Variable.{Variable};
ghost use Rattle.dap_body.specs.Body.{data_in};
ghost use Rattle.dap_call.specs.declared.call.Call.{Call};
ghost use Rattle.dap_query.specs.Bodies.{query_result, page};
ghost use Rattle.dap_query.specs.QueryResults.{AnswersCall, AnswersWith, IsQueryResult, OnlyGives};

use crate::bodies::{
    frames_named, holder_in, protocol_frames, protocol_scopes, protocol_sources, protocol_threads,
    protocol_variables, scopes_named, variables_named, window,
};
use crate::no_answer::NoAnswer;
use crate::queries::Queries;
use dap_body::{Body, Failure};
use dap_call::{Call, Evaluate, StackTrace, Variables};
use dap_debuggee::{Debuggee, Evaluation};
use std::alloc::{AllocError, Global};

impl Queries {
    #[tactic(auto, unfolding(crate::specs::Bodies::query_result))]
    fn answer_threads<D: Debuggee>(
        &self,
        alloc: Global,
        debuggee: &D,
    ) -> Result<Option<Body>, AllocError>
        ensures told { IfOk result (λ body. AnswersWith (query_result (D.shown debuggee.now) self.now Call.Threads) (data_in body) self.now.references) }
    {
        let threads = protocol_threads(alloc, debuggee.threads(alloc)?)?;
        Ok(Some(Body::Threads { threads }))
    }

    #[tactic(auto, unfolding(crate::specs::Bodies::query_result))]
    fn answer_stack_trace<D: Debuggee>(
        &mut self,
        alloc: Global,
        debuggee: &D,
        asked: StackTrace,
    ) -> Result<Option<Body>, NoAnswer>
        ensures told { IsQueryResult result (query_result (D.shown debuggee.now) self.old (Call.StackTrace asked)) self.new.references }
        ensures only { OnlyGives self.old self.new }
    {
        let all = debuggee.frames(alloc, asked.thread_id)?;
        let total = all.len() as u64;
        let frames = window(alloc, asked.start_frame, asked.levels, all)?;
        let named = frames_named(alloc, &frames)?;
        let ids = self.number_each(alloc, &named)?;
        let frames = protocol_frames(alloc, self.options, debuggee, ids, frames)?;
        Ok(Some(Body::StackTrace {
            stack_frames: frames,
            total_frames: total,
        }))
    }

    #[tactic(auto, unfolding(crate::specs::Bodies::query_result))]
    fn answer_scopes<D: Debuggee>(
        &mut self,
        alloc: Global,
        debuggee: &D,
        frame_id: u32,
    ) -> Result<Option<Body>, NoAnswer>
        ensures told { IsQueryResult result (query_result (D.shown debuggee.now) self.old (Call.Scopes frame_id)) self.new.references }
        ensures only { OnlyGives self.old self.new }
    {
        let Some(frame) = self.object(frame_id) else {
            return Err(NoAnswer::Fails(Failure::Debuggee));
        };
        let scopes = debuggee.scopes(alloc, frame)?;
        let named = scopes_named(alloc, &scopes)?;
        let numbers = self.number_each(alloc, &named)?;
        let scopes = protocol_scopes(alloc, numbers, scopes)?;
        Ok(Some(Body::Scopes { scopes }))
    }

    /// Which part of the variables is asked for, by its start and its count: all, where the client did not say that it pages
    /// them.
    fn part(&self, asked: Variables) -> (u32, u32)
        ensures { (variables : List Variable) → window result.0 result.1 variables ≡ page self.now.options asked.start asked.count variables }
    {
        if self.options.supports_variable_paging {
            (asked.start, asked.count)
        } else {
            (0, 0)
        }
    }

    #[tactic(auto, unfolding(crate::specs::Bodies::query_result))]
    fn answer_variables<D: Debuggee>(
        &mut self,
        alloc: Global,
        debuggee: &D,
        asked: Variables,
    ) -> Result<Option<Body>, NoAnswer>
        ensures told { IsQueryResult result (query_result (D.shown debuggee.now) self.old (Call.Variables asked)) self.new.references }
        ensures only { OnlyGives self.old self.new }
    {
        let Some(holder) = self.object(asked.variables_reference) else {
            return Err(NoAnswer::Fails(Failure::Debuggee));
        };
        let (start, count) = self.part(asked);
        let variables = debuggee.children(alloc, holder, start, count)?;
        let named = variables_named(alloc, &variables)?;
        let numbers = self.number_each(alloc, &named)?;
        let variables = protocol_variables(alloc, numbers, variables)?;
        Ok(Some(Body::Variables { variables }))
    }

    #[tactic(auto, unfolding(crate::specs::Bodies::query_result))]
    fn answer_evaluate<D: Debuggee>(
        &mut self,
        alloc: Global,
        debuggee: &D,
        asked: &Evaluate,
    ) -> Result<Option<Body>, NoAnswer>
        ensures told { IsQueryResult result (query_result (D.shown debuggee.now) self.old (Call.Evaluate asked.now)) self.new.references }
        ensures only { OnlyGives self.old self.new }
    {
        let frame = match asked.frame_id {
            None => None,
            Some(number) => self.object(number),
        };
        let told = debuggee.evaluate(alloc, frame, asked.expression.as_str())?;
        let Evaluation {
            value,
            holder,
            more,
        } = told;
        let number = self.number(holder_in(holder))?;
        Ok(Some(Body::Evaluate {
            result: value,
            variables_reference: number,
            more,
        }))
    }

    #[tactic(auto, unfolding(crate::specs::Bodies::query_result))]
    fn answer_source<D: Debuggee>(
        &self,
        alloc: Global,
        debuggee: &D,
        number: u32,
    ) -> Result<Option<Body>, NoAnswer>
        ensures told { IsQueryResult result (query_result (D.shown debuggee.now) self.now (Call.Source number)) self.now.references }
    {
        let content = debuggee.content(alloc, number.saturating_sub(1))?;
        Ok(Some(Body::Source { content }))
    }

    #[tactic(auto, unfolding(crate::specs::Bodies::query_result))]
    fn answer_loaded_sources<D: Debuggee>(
        &self,
        alloc: Global,
        debuggee: &D,
    ) -> Result<Option<Body>, AllocError>
        ensures told { IfOk result (λ body. AnswersWith (query_result (D.shown debuggee.now) self.now Call.LoadedSources) (data_in body) self.now.references) }
    {
        let sources = protocol_sources(alloc, debuggee.sources(alloc)?)?;
        Ok(Some(Body::LoadedSources { sources }))
    }

    /// The same as `answer`, but where it fails some numbers may be given.
    #[tactic(auto, unfolding(crate::specs::Bodies::query_result))]
    fn answer_call<D: Debuggee>(
        &mut self,
        alloc: Global,
        debuggee: &D,
        call: &Call,
    ) -> Result<Option<Body>, NoAnswer>
        ensures told { AnswersCall (D.shown debuggee.now) call.now self.old self.new result }
        ensures only { OnlyGives self.old self.new }
    {
        match call {
            Call::Threads => Ok(self.answer_threads(alloc, debuggee)?),
            Call::StackTrace(asked) => self.answer_stack_trace(alloc, debuggee, *asked),
            Call::Scopes { frame_id } => self.answer_scopes(alloc, debuggee, *frame_id),
            Call::Variables(asked) => self.answer_variables(alloc, debuggee, *asked),
            Call::Evaluate(asked) => self.answer_evaluate(alloc, debuggee, asked),
            Call::Source { source_reference } => self.answer_source(
                alloc,
                debuggee,
                *source_reference,
            ),
            Call::LoadedSources => Ok(self.answer_loaded_sources(alloc, debuggee)?),
            _ => Ok(None),
        }
    }

    /// The body that answers a call, with a number for each object that it names; `None` where the call asks for nothing that
    /// the debuggee shows. What the call names is tested before, by an adapter: that its number is a live one of its kind, and
    /// its source one of the debuggee's. A number that is not live is answered as `debuggee`, and a frame of `evaluate` as none.
    ///
    /// # Errors
    /// `NoAnswer::Fails` with `debuggee` where the debuggee refuses what is asked, `tooManyReferences` where more references
    /// would be live than there is room for, `referencesExhausted` where no number is left; `OutOfMemory` where memory is
    /// refused. Then no number is given.
    pub fn answer<D: Debuggee>(
        &mut self,
        alloc: Global,
        debuggee: &D,
        call: &Call,
    ) -> Result<Option<Body>, NoAnswer>
        ensures told { AnswersCall (D.shown debuggee.now) call.now self.old self.new result }
        ensures only { OnlyGives self.old self.new }
        ensures err { OnErr result (self.new ≡ self.old) }
    {
        let mark = self.mark();
        match self.answer_call(alloc, debuggee, call) {
            Ok(body) => Ok(body),
            Err(fault) => {
                self.back_to(mark);
                Err(fault)
            }
        }
    }
}
