//! A request of a command that whoever opened the adapter answers: in its turn it is lent, or refused.
ghost use Rattle.std.specs.Prelude.{◌≡◌, ◌+◌, ◌≤◌, IfOk, IfErr, OnOk, OnErr, IsTrue};
ghost use Rattle.dap_decision.specs.Failures.{command_of};
ghost use Rattle.dap_outbox.specs.Outbox.{IsReady};
ghost use Rattle.dap_plan.specs.Lending.{bad_key_refused, lending_refused, may_lend, opened_in, plan_of_lending};
ghost use Rattle.dap_plan.specs.Plan.{messages_due};
ghost use Rattle.dap_plan.specs.Session.{numbers_of};
ghost use Rattle.dap_plan.specs.SessionState.{Carries, IsRefusedFor};
ghost use Rattle.dap_tables.specs.Outstanding.{contains_seq};

use crate::polling::has_debuggee;
use crate::session::Session;
use dap_body::Failure;
use dap_call::CallFault;
use dap_command::Command;
use dap_debuggee::Debuggee;
use dap_decision::{Phase, call_in};
use dap_outbox::{Outbox, lent_count};
use dap_plan::AdapterFault;
use dap_tables::Entry;
use std::alloc::{AllocError, Global};

/// The failure for the first bad key of the arguments of a command that is one of the thirty.
fn bad_key_refused(alloc: Global, request: &Entry) -> Result<Option<Failure>, AllocError>
    ensures { IfOk result (λ failure. failure ≡ bad_key_refused request.now (command_of request.now)) }
{
    let Some(command) = Command::of_name(request.command.as_str()) else {
        return Ok(None);
    };
    match call_in(alloc, request, command) {
        Ok(_) => Ok(None),
        Err(CallFault::BadArguments { key }) => Ok(Some(Failure::BadArguments { key })),
        Err(CallFault::OutOfMemory) => Err(AllocError),
    }
}

impl<D: Debuggee + Drop> Session<D> {
    /// Whether the command of a request is of stops alone; `None` where it is not opened.
    pub(crate) fn opened_in(&self, request: &Entry) -> Option<bool>
        ensures { result ≡ opened_in self.now.session request.now }
    {
        self.offers().opened.in_stops(request.command.as_str())
    }

    /// Whether two places are left once one more request is lent.
    fn may_lend(&self) -> bool
        ensures { result ≡ may_lend self.now.session }
    {
        // Its range is what the proof needs: the sum is no greater than a number may be.
        let most = self.limits().requests();
        lent_count(&self.kept) + 3 <= most
    }

    /// Why a request is not lent, if it is not.
    fn lending_refused(
        &self,
        alloc: Global,
        request: &Entry,
        in_stops: bool,
    ) -> Result<Option<Failure>, AllocError>
        ensures { IfOk result (λ failure. failure ≡ lending_refused self.now.session request.now in_stops) }
    {
        let phase = self.phase();
        if phase == Phase::Fresh {
            return Ok(Some(Failure::NotInitialized));
        }
        if let Some(failure) = bad_key_refused(alloc, request)? {
            return Ok(Some(failure));
        }
        if in_stops && !has_debuggee(phase) {
            return Ok(Some(Failure::WrongPhase));
        }
        if in_stops && phase == Phase::Running {
            return Ok(Some(Failure::NotStopped));
        }
        if !self.may_lend() {
            return Ok(Some(Failure::Busy));
        }
        Ok(None)
    }

    /// Lends a request whose command is opened, or refuses it.
    pub(crate) fn lend(
        &mut self,
        alloc: Global,
        out: &mut Outbox,
        request: &Entry,
        in_stops: bool,
    ) -> Result<(), AdapterFault>
        requires ready { IsReady out.old (numbers_of self.old.session) }
        requires kept { IsTrue (contains_seq request.now.seq self.old.session.kept) }
        ensures carries { OnOk result (Carries D.follows (plan_of_lending self.old.session request.now in_stops) self.old self.new out.new.bytes) }
        ensures within { OnOk result (self.old.session.used + messages_due (plan_of_lending self.old.session request.now in_stops) ≤ self.old.session.limits.seq) }
        ensures refused { IfErr result (λ fault. IsRefusedFor fault (plan_of_lending self.old.session request.now in_stops) self.old self.new) }
        ensures err { OnErr result (self.new.session ≡ self.old.session) }
        ensures before { out.new.before ≡ out.old.before }
    {
        match self.lending_refused(alloc, request, in_stops)? {
            Some(failure) => self.refuse(alloc, out, request, failure),
            None => {
                self.room(0)?;
                self.park(request.seq);
                Ok(())
            }
        }
    }
}
