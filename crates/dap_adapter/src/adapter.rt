//! An adapter, call by call.
ghost use Rattle.std.specs.Prelude.{◌≡◌, ◌≢◌, ℕ, ◌+◌, List, ◌<◌, ◌≤◌, [], length, max, IfOk, IfErr, OnOk, OnErr, IfSome, Some, None, Ok, Err, IsTrue, false};
ghost use Rattle.dap_debuggee.specs.declared.answers.State.{State};
ghost use Rattle.dap_frame.specs.Ends.{EndsWith};
ghost use Rattle.dap_frame.specs.Intake.{StandsFor as StandsForStream};
ghost use Rattle.dap_frame.specs.declared.frames.End.{End};
ghost use Rattle.dap_plan.specs.declared.fault.AdapterFault.{AdapterFault};
ghost use Rattle.dap_adapter.specs.Calls.{Exchanges, IdlesWithNone, KeepsDebuggee, KeepsDebuggeeUnlessAsked, NotAsked, NotEmitted, NotResponded, PieceNotTakenUp, PollNotMade, PollsWithNone, TakeRefused, TurnNotMade};
ghost use Rattle.dap_frame.specs.Closed.{StaysClosed};
ghost use Rattle.dap_adapter.specs.PrivateReceives.{HasReceived, IsBy};
ghost use Rattle.dap_reader.specs.declared.fault.ReadFault.{ReadFault};
ghost use Rattle.std.specs.Option.{option_copied};
ghost use Rattle.dap_tables.specs.References.{target_of};
ghost use Rattle.dap_tables.specs.SourceMap.{count, set_of};
ghost use Rattle.dap_plan.specs.Session.{fresh_session, opened_session, offers_fit, oldest, own_requests, to_handle};
ghost use Rattle.dap_plan.specs.SessionState.{AppendsSome};
ghost use Rattle.dap_json.specs.Writable.{is_plain_tree};
ghost use Rattle.dap_message.specs.MessageParts.{is_plain_outcome};
ghost use Rattle.dap_outbox.specs.Waiting.{lent_ones};
ghost use Rattle.dap_tables.specs.Outstanding.{entries};
ghost use Rattle.dap_decision.specs.Table.{is_phase};
ghost use Rattle.dap_decision.specs.declared.phase.Phase.TheVariants.{Asked};

use crate::taken::{Came, Taken, Turned};
use dap_command::{Offer, SourceKey};
use dap_debuggee::{Debuggee, HasMail};
use dap_envelope::laws::read_is_in_range;
use dap_frame::{End, Limits};
use dap_history::laws::histories_grow;
use dap_json::Tree;
use dap_message::Outcome;
use dap_plan::laws::{each_step_goes_on, each_step_stays_within};
use dap_plan::{AdapterFault, AskFault, EmitFault, RespondFault};
use dap_reader::{MessageReader, Next, ReadFault};
use dap_session::{Lent, Phase, Session, usual_offers};
use dap_tables::Target;
use std::alloc::{AllocError, Global};
use std::marker::Model;

/// The adapter's end of a session, over a debuggee.
#[derive(Drop)]
pub struct Adapter<D: Debuggee + Drop> {
    session: Session<D>,
    reader: MessageReader,
    fault: Option<AdapterFault>,
}

impl<D: Debuggee + Drop> Model for Adapter<D> {
    ghost use Rattle.std.specs.Coded.{codes};
    ghost use Rattle.dap_json.specs.Stored.{coded_data};
    ghost use Rattle.dap_adapter.specs.AdapterState.{AdapterState};
    ghost use Rattle.dap_adapter.specs.Calls.{IsAdapter};

    ghost Value = { AdapterState D };

    ghost coded = { Prim.hlevel (codes, coded_data, D.code) };

    ghost view = { λ a. record { session = a.session.session; intake = a.reader.intake; fault = a.fault; debuggee = a.session.debuggee } };

    ghost invariant = { λ a. IsAdapter a.session.session.limits a.reader a.fault };
}

impl<D: Debuggee + Drop> Adapter<D> {
    ghost use Rattle.dap_adapter.specs.Calls.{Takes, TakesUp, TurnGives, GivesTurn, Handled, LeavesFewer, Saw, Asks, Emits, Responds};
    ghost use Rattle.dap_adapter.specs.StandsFor.{StandsFor};
    ghost use Rattle.dap_adapter.specs.declared.taken.Turned.{Turned};

    /// A fresh end. The debuggee is not started. All that is served is offered, and no more.
    pub fn open(alloc: Global, limits: Limits, debuggee: D) -> Result<Adapter<D>, AllocError>
        requires { (D.shown debuggee).state ≡ State.NotStarted }
        ensures session { IfOk result (λ a. a.session ≡ fresh_session limits) }
        ensures debuggee { IfOk result (λ a. a.debuggee ≡ debuggee) }
        ensures fault { IfOk result (λ a. a.fault ≡ None) }
        ensures stands { IfOk result (λ a. StandsFor a [] []) }
    {
        Adapter::open_with(alloc, limits, debuggee, usual_offers(limits))
    }

    /// The same, with these offers. They fit within the limits where [`offers_fit`](crate::offers_fit) says so.
    pub fn open_with(
        alloc: Global,
        limits: Limits,
        debuggee: D,
        offers: Offer,
    ) -> Result<Adapter<D>, AllocError>
        requires not_started { (D.shown debuggee).state ≡ State.NotStarted }
        requires fit { IsTrue (offers_fit limits offers) }
        ensures session { IfOk result (λ a. a.session ≡ opened_session limits offers) }
        ensures debuggee { IfOk result (λ a. a.debuggee ≡ debuggee) }
        ensures fault { IfOk result (λ a. a.fault ≡ None) }
        ensures stands { IfOk result (λ a. StandsFor a [] []) }
    {
        histories_grow();
        // For the proof: a request may be kept.
        let _ = limits.requests();
        let reader = MessageReader::open(alloc, &limits)?;
        let session = Session::open_with(alloc, limits, debuggee, offers)?;
        Ok(Adapter {
            session,
            reader,
            fault: None,
        })
    }

    /// How far the session is.
    pub fn phase(&self) -> Phase
        ensures { result ≡ self.now.session.phase }
    {
        self.session.phase()
    }

    /// How many requests are kept.
    pub fn kept(&self) -> usize
        ensures kept { result ≡ length self.now.session.kept }
        ensures bound { result ≤ self.now.session.limits.requests }
    {
        self.session.len()
    }

    /// How many references are live.
    pub fn references(&self) -> usize
        ensures live { result ≡ length self.now.session.references.live }
        ensures bound { result ≤ self.now.session.limits.references }
    {
        self.session.references()
    }

    /// The frame, or what holds variables, that a number of the client names: a `frameId` or a `variablesReference`, while it is
    /// live. `None` for 0, for one that was never given, and for one of an earlier stop. The object is the debuggee's own number.
    pub fn target(&self, number: u32) -> Option<&Target>
        ensures { option_copied result ≡ target_of self.now.session.references number }
    {
        self.session.target(number)
    }

    /// How many breakpoints are set, those of all sources together.
    pub fn breakpoints(&self) -> usize
        ensures set { result ≡ count self.now.session.breakpoints.sources }
        ensures bound { result ≤ self.now.session.limits.breakpoints }
    {
        self.session.breakpoints()
    }

    /// Those of a source, in the order in which they were asked for: the id of each, which its client knows it by, and the line,
    /// counted from 1, that was asked for. A path and a reference are two names of a source.
    pub fn breakpoints_of(&self, source: &SourceKey) -> &[(u64, u32)]
        ensures { result.now ≡ set_of source.now self.now.session.breakpoints.sources }
    {
        self.session.breakpoints_of(source)
    }

    /// How many requests for a terminal are not answered: at most one.
    pub fn asked(&self) -> usize
        ensures asked { result ≡ length (own_requests self.now.session.asked) }
        ensures bound { result ≤ 1 }
    {
        self.session.asked()
    }

    /// How many requests that were asked by [`ask`](Adapter::ask) are not answered.
    pub fn asked_by_name(&self) -> usize
        ensures own { result ≡ length self.now.session.own }
        ensures bound { result < self.now.session.limits.requests }
    {
        self.session.asked_by_name()
    }

    /// The debuggee, as the calls left it.
    pub fn debuggee(&self) -> &D
        ensures { result.now ≡ self.now.debuggee }
    {
        self.session.debuggee()
    }

    /// The same, given out. Nothing is told to the client any more.
    pub fn into_debuggee(self) -> D
        ensures { result ≡ self.debuggee }
    {
        let Adapter { session, .. } = self;
        session.into_debuggee()
    }

    /// The bytes held of the frame under way. After a fault there are none.
    pub fn held(&self) -> usize
        ensures held { result ≡ length self.now.intake.held }
        ensures bounded { result ≤ max self.now.session.limits.header self.now.session.limits.body }
        ensures closed { IfSome self.now.fault (λ fault. result ≡ 0) }
    {
        let _ = &self.fault;
        self.reader.held()
    }

    /// Uses the bytes of a piece up to the end of one frame at most, and delivers the message that becomes whole.
    ///
    /// A request is kept, or answered at once: a `cancel`, with what it cancels, and `busy` where as many requests are kept
    /// as may be. A response to the request for a terminal starts the debuggee, or fails the `launch` that waits for it. Where
    /// none waits any more, and to a request of [`ask`](Adapter::ask), it ends that request's waiting, and nothing else. Any
    /// other message has no effect.
    ///
    /// # Errors
    /// `Frame` and `Body` where the framing or a body is refused, at the offset of the refused frame; `Ended` for a request
    /// after `disconnect` was answered; `RepeatedSeq` for a request with the number of one that is kept; `Unmatched` for a
    /// response that answers no request of the adapter, or one that is answered; `CommandMismatch` for one to another command;
    /// `SeqExhausted` where more answers are due at once than own numbers are left; `OutOfMemory` where memory is refused once
    /// a body is whole: a piece that makes no frame whole takes none. The debuggee is as it was, unless memory is refused to a
    /// response that lets it start.
    pub fn take(&mut self, alloc: Global, piece: &[u8]) -> Result<Taken, AdapterFault>
        ensures takes { IfOk result (TakesUp D.follows self.old piece.now self.new) }
        ensures progress { IfOk result (λ taken. 0 < length piece.now → 0 < taken.used) }
        ensures within { IfOk result (λ taken. taken.used ≤ length piece.now) }
        ensures open { OnOk result (self.new.fault ≡ None) }
        ensures limits { self.new.session.limits ≡ self.old.session.limits }

        // Why it is refused; then the tables are as they were, and nothing is held.
        ensures refused { IfErr result (PieceNotTakenUp self.old piece.now self.new) }
        ensures tables { OnErr result (self.new.session ≡ self.old.session) }
        ensures debuggee { IfErr result (KeepsDebuggee self.old self.new) }
        ensures unasked { KeepsDebuggeeUnlessAsked self.old self.new result }
        ensures held { OnErr result (self.new.intake.held ≡ []) }
        ensures latches { IfErr result (λ fault. self.new.fault ≡ Some fault) }
        ensures latched { StaysClosed self.old.fault result self.old self.new }
    {
        let mut bytes = Vec::new(alloc);
        match self.take_into(alloc, piece, &mut bytes) {
            Ok(Came { used, delivered }) => Ok(Taken {
                used,
                delivered,
                bytes,
            }),
            Err(fault) => Err(fault),
        }
    }

    /// The same, with what is to be written appended to a buffer, which stays as it was where the call is refused.
    pub(crate) fn take_into(
        &mut self,
        alloc: Global,
        piece: &[u8],
        out: &mut Vec<u8>,
    ) -> Result<Came, AdapterFault>
        ensures takes { IfOk result (λ came. AppendsSome (λ bytes. Takes D.follows self.old piece.now came.used bytes came.delivered self.new) out.old.items out.new.items) }
        ensures progress { IfOk result (λ came. 0 < length piece.now → 0 < came.used) }
        ensures within { IfOk result (λ came. came.used ≤ length piece.now) }
        ensures open { OnOk result (self.new.fault ≡ None) }
        ensures limits { self.new.session.limits ≡ self.old.session.limits }
        ensures refused { IfErr result (PieceNotTakenUp self.old piece.now self.new) }
        ensures tables { OnErr result (self.new.session ≡ self.old.session) }
        ensures debuggee { IfErr result (KeepsDebuggee self.old self.new) }
        ensures unasked { KeepsDebuggeeUnlessAsked self.old self.new result }
        ensures held { OnErr result (self.new.intake.held ≡ []) }
        ensures latches { IfErr result (λ fault. self.new.fault ≡ Some fault) }
        ensures latched { StaysClosed self.old.fault result self.old self.new }
        ensures buffer { OnErr result (out.new.items ≡ out.old.items) }
    {
        if let Some(fault) = self.fault {
            return Err(fault);
        }
        histories_grow();
        read_is_in_range();
        each_step_goes_on();
        each_step_stays_within();
        match receive(alloc, &mut self.reader, &mut self.session, piece, out) {
            Ok(came) => Ok(came),
            Err(fault) => {
                self.reader.close();
                self.fault = Some(fault);
                Err(fault)
            }
        }
    }

    /// Handles the request that came first of those that are not parked, or lends it where its command is opened: one that is
    /// parked now, or lent, is not answered yet, any other is.
    ///
    /// # Errors
    /// `SeqExhausted` where more messages are due than own numbers are left: then neither the session nor the debuggee has
    /// changed. `OutOfMemory` where memory is refused: then the debuggee has not changed either, unless the request is one
    /// that starts, resumes or pauses it, or sets its breakpoints. Where no request waits, no memory is asked for.
    pub fn turn(&mut self, alloc: Global) -> Result<Turned, AdapterFault>
        ensures gives { IfOk result (GivesTurn D.shown D.follows self.old self.new) }
        ensures open { OnOk result (self.new.fault ≡ None) }
        ensures limits { self.new.session.limits ≡ self.old.session.limits }

        // Why it is refused; then the tables are as they were, and nothing is held.
        ensures refused { IfErr result (TurnNotMade D.shown self.old self.new) }
        ensures tables { OnErr result (self.new.session ≡ self.old.session) }
        ensures held { OnErr result (self.new.intake.held ≡ []) }
        ensures latches { IfErr result (λ fault. self.new.fault ≡ Some fault) }
        ensures latched { StaysClosed self.old.fault result self.old self.new }

        // Fewer requests wait to be handled, unless none did.
        ensures fewer { IfOk result (LeavesFewer self.old self.new) }

        // Where no request waits, memory is not asked for.
        ensures idle { IdlesWithNone self.old result }
    {
        let mut bytes = Vec::new(alloc);
        match self.turn_into(alloc, &mut bytes) {
            Ok(true) => Ok(Turned::Done { bytes }),
            Ok(false) => Ok(Turned::Idle),
            Err(fault) => Err(fault),
        }
    }

    /// The same, with what is to be written appended to a buffer, which stays as it was where the call is refused: whether a
    /// request was handled.
    pub(crate) fn turn_into(
        &mut self,
        alloc: Global,
        out: &mut Vec<u8>,
    ) -> Result<bool, AdapterFault>
        ensures idle { IfOk result (λ done. done ≡ false → TurnGives D.shown D.follows self.old Turned.Idle self.new × (out.new.items ≡ out.old.items)) }
        ensures done { IfOk result (λ done. IsTrue done → AppendsSome (λ bytes. Handled D.shown D.follows self.old bytes self.new) out.old.items out.new.items) }
        ensures open { OnOk result (self.new.fault ≡ None) }
        ensures limits { self.new.session.limits ≡ self.old.session.limits }
        ensures refused { IfErr result (TurnNotMade D.shown self.old self.new) }
        ensures tables { OnErr result (self.new.session ≡ self.old.session) }
        ensures held { OnErr result (self.new.intake.held ≡ []) }
        ensures latches { IfErr result (λ fault. self.new.fault ≡ Some fault) }
        ensures latched { StaysClosed self.old.fault result self.old self.new }
        ensures fewer { IfOk result (λ done. IsTrue done → to_handle self.new.session.kept < to_handle self.old.session.kept) }
        ensures none { self.old.fault ≡ None → oldest self.old.session.kept ≡ None → result ≡ Ok false }
        ensures buffer { OnErr result (out.new.items ≡ out.old.items) }
    {
        if let Some(fault) = self.fault {
            return Err(fault);
        }
        histories_grow();
        read_is_in_range();
        each_step_goes_on();
        each_step_stays_within();
        match self.session.turn(alloc, out) {
            Ok(done) => Ok(done),
            Err(fault) => {
                self.close(fault);
                Err(fault)
            }
        }
    }

    /// Asks a debuggee that runs or is stopped what happened, once, and tells it. Where nothing happened, and in every
    /// other phase, there are no bytes.
    ///
    /// # Errors
    /// `SeqExhausted` where more events are due than own numbers are left: the debuggee was asked, and what happened is
    /// lost. `OutOfMemory` where memory is refused; where there is no debuggee to ask, none is asked for.
    pub fn poll(&mut self, alloc: Global) -> Result<Vec<u8>, AdapterFault>
        ensures saw { IfOk result (λ bytes. Saw D.follows self.old bytes.items self.new) }
        ensures open { OnOk result (self.new.fault ≡ None) }
        ensures limits { self.new.session.limits ≡ self.old.session.limits }

        // Why it is refused; then the tables are as they were, and nothing is held.
        ensures refused { IfErr result (PollNotMade D.follows self.old self.new) }
        ensures tables { OnErr result (self.new.session ≡ self.old.session) }
        ensures held { OnErr result (self.new.intake.held ≡ []) }
        ensures latches { IfErr result (λ fault. self.new.fault ≡ Some fault) }
        ensures latched { StaysClosed self.old.fault result self.old self.new }

        // Where there is no debuggee to ask, memory is not asked for.
        ensures apart { PollsWithNone self.old result }
    {
        let mut bytes = Vec::new(alloc);
        match self.poll_into(alloc, &mut bytes) {
            Ok(()) => Ok(bytes),
            Err(fault) => Err(fault),
        }
    }

    /// The same, with what is to be written appended to a buffer, which stays as it was where the call is refused.
    pub(crate) fn poll_into(&mut self, alloc: Global, out: &mut Vec<u8>) -> Result<(), AdapterFault>
        ensures saw { OnOk result (AppendsSome (λ bytes. Saw D.follows self.old bytes self.new) out.old.items out.new.items) }
        ensures open { OnOk result (self.new.fault ≡ None) }
        ensures limits { self.new.session.limits ≡ self.old.session.limits }
        ensures refused { IfErr result (PollNotMade D.follows self.old self.new) }
        ensures tables { OnErr result (self.new.session ≡ self.old.session) }
        ensures held { OnErr result (self.new.intake.held ≡ []) }
        ensures latches { IfErr result (λ fault. self.new.fault ≡ Some fault) }
        ensures latched { StaysClosed self.old.fault result self.old self.new }
        ensures apart { PollsWithNone self.old result }
        ensures buffer { OnErr result (out.new.items ≡ out.old.items) }
    {
        if let Some(fault) = self.fault {
            return Err(fault);
        }
        histories_grow();
        read_is_in_range();
        each_step_goes_on();
        each_step_stays_within();
        match self.session.poll(alloc, out) {
            Ok(()) => Ok(()),
            Err(fault) => {
                self.close(fault);
                Err(fault)
            }
        }
    }

    /// Tells an event by its name, such as `module` or `progressStart`, with a body or none: it is appended to `out`, with the next
    /// own number. The debuggee is asked nothing, and all else stays as it is. A refused event changes nothing, and the adapter
    /// goes on.
    ///
    /// # Errors
    /// The first of these that holds: `Closed` after a fault; `WrongPhase` before `initialize` and once `disconnect` was
    /// answered; `Reserved` for the six that say what a client may do next: `initialized`, `stopped`, `continued`, `exited` and
    /// `terminated`, which the adapter tells by itself, and `capabilities`; `TooLarge` where the body of the message would be
    /// longer than its limit; `SeqExhausted` where no own number is left. `OutOfMemory` where memory is refused: never where one
    /// of the first three holds.
    pub fn emit(
        &mut self,
        alloc: Global,
        event: &str,
        body: &Option<Tree>,
        out: &mut Vec<u8>,
    ) -> Result<(), EmitFault>
        requires plain { IsTrue (is_plain_tree body.now) }
        ensures emits { OnOk result (AppendsSome (λ bytes. Emits D.follows event.now body.now self.old bytes self.new) out.old.items out.new.items) }
        ensures limits { self.new.session.limits ≡ self.old.session.limits }

        // Why it is refused; then nothing has changed.
        ensures refused { IfErr result (NotEmitted event.now body.now self.old) }
        ensures unchanged { OnErr result (self.new ≡ self.old) }
        ensures buffer { OnErr result (out.new.items ≡ out.old.items) }
    {
        histories_grow();
        read_is_in_range();
        each_step_goes_on();
        each_step_stays_within();
        let closed = self.fault.is_some();
        self.session.emit(alloc, closed, event, body, out)
    }

    /// The requests that are lent, by arrival: those of commands that were opened, which had their turn and wait for an answer. Each
    /// stays lent until [`respond`](Adapter::respond), a `cancel` that names it or `disconnect` answers it, as a law of
    /// `dap_plan` says.
    pub fn lent(&self) -> Lent<'_>
        ensures { result ≡ entries (lent_ones self.now.session.kept) }
    {
        self.session.lent()
    }

    /// Answers the lent request with this number as it came out: the response is appended to `out`, with the next own number, and
    /// the request is kept no more. The debuggee is asked nothing, and all else stays as it is. Lent requests may be answered in
    /// any order. A refused call changes nothing, and the adapter goes on. A client may use the number of an answered request
    /// again; the answer is then to the request that has it now.
    ///
    /// # Errors
    /// The first of these that holds: `Closed` after a fault; `NotLent` where no request with this number is lent; `TooLarge`
    /// where the body of the message would be longer than its limit; `SeqExhausted` where no own number is left. `OutOfMemory`
    /// where memory is refused: never where one of the first two holds.
    pub fn respond(
        &mut self,
        alloc: Global,
        seq: u64,
        outcome: &Outcome,
        out: &mut Vec<u8>,
    ) -> Result<(), RespondFault>
        requires plain { IsTrue (is_plain_outcome outcome.now) }
        ensures responds { OnOk result (AppendsSome (λ bytes. Responds D.follows seq outcome.now self.old bytes self.new) out.old.items out.new.items) }
        ensures limits { self.new.session.limits ≡ self.old.session.limits }

        // Why it is refused; then nothing has changed.
        ensures refused { IfErr result (NotResponded seq outcome.now self.old) }
        ensures unchanged { OnErr result (self.new ≡ self.old) }
        ensures buffer { OnErr result (out.new.items ≡ out.old.items) }
    {
        histories_grow();
        read_is_in_range();
        each_step_goes_on();
        each_step_stays_within();
        let closed = self.fault.is_some();
        self.session.respond(alloc, closed, seq, outcome, out)
    }

    /// Asks the client by a request of this name, as `startDebugging`, or `runInTerminal` with words of one's own: the request is
    /// appended to `out`, and its number is given, which is the next own number. The client's response has it as `request_seq`; it
    /// is handed out with the other messages, as by [`take`](Adapter::take), and the request waits no more. A response with
    /// another command closes the adapter (`CommandMismatch`), and so does a second one (`Unmatched`). Requests may be answered in
    /// any order, and never have to be. Whether the client knows the request is for the caller to see in what `initialize` says.
    /// The debuggee is asked nothing, and all else stays as it is. A refused call changes nothing but that `arguments` are used up,
    /// and the adapter goes on.
    ///
    /// # Errors
    /// The first of these that holds: `Closed` after a fault; `WrongPhase` before `initialize` is answered and after `disconnect`
    /// is; `BadName` where the command has more than 64 bytes; `Full` where as many wait for their response as requests may be
    /// kept, less one, which is left for the request for a terminal; `TooLarge` where the body of the message would be longer than
    /// its limit; `SeqExhausted` where no own number is left. `OutOfMemory` where memory is refused: never where one of the first
    /// four holds.
    pub fn ask(
        &mut self,
        alloc: Global,
        command: &str,
        arguments: Option<Tree>,
        out: &mut Vec<u8>,
    ) -> Result<u64, AskFault>
        requires plain { IsTrue (is_plain_tree arguments) }
        ensures asks { OnOk result (AppendsSome (λ bytes. Asks D.follows command.now arguments self.old bytes self.new) out.old.items out.new.items) }
        ensures number { IfOk result (λ seq. seq ≡ self.old.session.used + 1) }
        ensures limits { self.new.session.limits ≡ self.old.session.limits }

        // Why it is refused; then nothing has changed.
        ensures refused { IfErr result (NotAsked command.now arguments self.old) }
        ensures unchanged { OnErr result (self.new ≡ self.old) }
        ensures buffer { OnErr result (out.new.items ≡ out.old.items) }
    {
        histories_grow();
        read_is_in_range();
        each_step_goes_on();
        each_step_stays_within();
        let closed = self.fault.is_some();
        self.session.ask(alloc, closed, command, arguments, out)
    }

    /// How the client's bytes end, if no more come.
    pub(crate) fn finish(&self) -> End
        ensures ends { (s : List ℕ) (xs : List (List ℕ)) (rest : List ℕ) → StandsForStream self.now.intake s xs rest → EndsWith self.now.intake rest result }
        ensures open { self.now.fault ≡ None → result ≢ End.Refused }
    {
        let _ = &self.fault;
        self.reader.finish()
    }

    /// Why it is closed.
    pub(crate) fn fault(&self) -> Option<AdapterFault>
        ensures fault { result ≡ self.now.fault }
        ensures closed { IfSome result (λ fault. self.now.intake.held ≡ []) }
    {
        let _ = &self.reader;
        self.fault
    }

    /// Nothing more is taken or handed out.
    pub(crate) fn close(&mut self, fault: AdapterFault)
        ensures session { self.new.session ≡ self.old.session }
        ensures debuggee { self.new.debuggee ≡ self.old.debuggee }
        ensures held { self.new.intake.held ≡ [] }
        ensures fault { self.new.fault ≡ Some fault }
    {
        self.reader.close();
        self.fault = Some(fault);
    }
}

impl<D: HasMail + Drop> Adapter<D> {
    /// Exchanges the debuggee's mail: it has what is given then, and what it had is handed out. A host of a debuggee does so
    /// between two calls, also after a fault. The debuggee is asked nothing, nothing is written, and no memory is taken.
    pub fn exchange(&mut self, given: D::Mail) -> D::Mail
        ensures out { result ≡ D.mail self.old.debuggee }
        ensures put { self.new.debuggee ≡ D.with_mail given self.old.debuggee }
        ensures exchanges { Exchanges D.shown self.old self.new }
    {
        self.session.exchange(given)
    }
}

/// The fault of an adapter whose stream is refused.
fn refused_by(fault: ReadFault) -> AdapterFault
    requires { fault ≢ ReadFault.Closed }
    ensures { IsBy fault result }
{
    match fault {
        ReadFault::Frame(fault) => AdapterFault::Frame(fault),
        ReadFault::Body { cause, offset } => AdapterFault::Body { cause, offset },
        ReadFault::OutOfMemory => AdapterFault::OutOfMemory,
        ReadFault::Closed => unreachable!(),
    }
}

/// Takes bytes up to the end of a frame at most, and hands its message to the session, which appends to a buffer.
fn receive<D: Debuggee + Drop>(
    alloc: Global,
    reader: &mut MessageReader,
    session: &mut Session<D>,
    piece: &[u8],
    out: &mut Vec<u8>,
) -> Result<Came, AdapterFault>
    requires { reader.old.fault ≡ None }
    ensures bounds { reader.new.intake.bounds ≡ reader.old.intake.bounds }
    ensures open { OnOk result (reader.new.fault ≡ None) }
    ensures received { IfOk result (λ came. AppendsSome (λ bytes. HasReceived D.follows reader.old.intake reader.new.intake session.old session.new piece.now came.used bytes came.delivered) out.old.items out.new.items) }
    ensures progress { IfOk result (λ came. 0 < length piece.now → 0 < came.used) }
    ensures within { IfOk result (λ came. came.used ≤ length piece.now) }
    ensures refused { IfErr result (λ fault. TakeRefused reader.old.intake session.old piece.now fault session.new.debuggee) }
    ensures err { OnErr result (session.new.session ≡ session.old.session) }
    ensures debuggee { IfErr result (λ fault. fault ≢ AdapterFault.OutOfMemory → session.new.debuggee ≡ session.old.debuggee) }
    ensures unasked { is_phase Asked session.old.session.phase ≡ false → OnErr result (session.new.debuggee ≡ session.old.debuggee) }
    ensures limits { session.new.session.limits ≡ session.old.session.limits }
    ensures buffer { OnErr result (out.new.items ≡ out.old.items) }
{
    let Next { used, message } = match reader.next(alloc, piece) {
        Ok(next) => next,
        Err(fault) => return Err(refused_by(fault)),
    };
    let Some(message) = message else {
        return Ok(Came {
            used,
            delivered: None,
        });
    };
    session.take(alloc, &message, out)?;
    Ok(Came {
        used,
        delivered: Some(message),
    })
}
