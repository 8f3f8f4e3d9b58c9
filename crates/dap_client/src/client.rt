//! A client, call by call.
ghost use Rattle.std.specs.Prelude.{◌≡◌, ◌≢◌, ◌+◌, ◌<◌, ◌≤◌, [], ◌++◌, length, max, IfOk, IfErr, OnOk, OnErr, IfSome, IsTrue, None, Some, Ok, Err};
ghost use Rattle.dap_frame.specs.Closed.{StaysClosed};
ghost use Rattle.dap_history.specs.History.{Came, Went, waiting};
ghost use Rattle.dap_call.specs.PlainCall.{is_plain_call};
ghost use Rattle.dap_client.specs.Calls.{refusal_of, answer_refusal_of, NotSent, NotAnswered, PieceNotTaken, NextNotGiven, Takes, TakeRefused, NextIs, request_bytes, client_after_sending, IsRequestReadBack, GoesOnBySending, answer_bytes, client_after_answering, IsAnswerReadBack, GoesOnByAnswering, oldest_asked, Shortens, WhereIdle};
ghost use Rattle.dap_client.specs.PrivateReceives.{HasReceived, IsBy};
ghost use Rattle.dap_reader.specs.Reader.{ShortensWith};
ghost use Rattle.dap_reader.specs.declared.fault.ReadFault.{ReadFault};
ghost use Rattle.dap_client.specs.Seen.{phase_in, ready_in, capabilities_in, references_in};
ghost use Rattle.dap_client.specs.Session.{fresh_session, oldest_of};
ghost use Rattle.dap_client.specs.TerminalResponse.{is_plain_terminal};
ghost use Rattle.dap_client.specs.StandsFor.{StandsFor, OfEachHistory};

use crate::fault::{AnswerFault, ClientFault, SendFault};
use crate::got::{Got, Sent};
use crate::laws::{each_step_goes_on, each_step_stays_within};
use crate::phase::Phase;
use crate::session::Session;
use crate::terminal::Terminal;
use dap_call::Call;
use dap_command::Capabilities;
use dap_envelope::Message;
use dap_envelope::laws::read_is_in_range;
use dap_frame::Limits;
use dap_history::laws::histories_grow;
use dap_reader::{MessageReader, Next, ReadFault};
use std::alloc::{AllocError, Global};
use std::marker::Model;

/// A client: it sends requests, and takes what the adapter writes.
#[derive(Drop)]
pub struct Client {
    session: Session,
    reader: MessageReader,
    fault: Option<ClientFault>,
}

impl Model for Client {
    ghost use Rattle.std.specs.Coded.{codes};
    ghost use Rattle.dap_json.specs.Stored.{coded_data};
    ghost use Rattle.dap_client.specs.ClientState.{ClientState};
    ghost use Rattle.dap_client.specs.Calls.{IsClient};

    ghost Value = { ClientState };

    ghost coded = { Prim.hlevel (codes, coded_data) };

    ghost view = { λ c. record { session = c.session; intake = c.reader.intake; fault = c.fault } };

    ghost invariant = { λ c. IsClient c.session.limits c.reader c.fault };
}

impl Client {
    /// A fresh end: nothing was sent, and nothing came.
    pub fn open(alloc: Global, limits: Limits) -> Result<Client, AllocError>
        ensures session { IfOk result (λ c. c.session ≡ fresh_session limits) }
        ensures fault { IfOk result (λ c. c.fault ≡ None) }
        ensures stands { IfOk result (λ c. StandsFor c [] []) }
    {
        each_step_goes_on();
        each_step_stays_within();
        let reader = MessageReader::open(alloc, &limits)?;
        let session = Session::open(alloc, limits)?;
        Ok(Client {
            session,
            reader,
            fault: None,
        })
    }

    /// How many requests that were sent are not answered yet.
    pub fn outstanding(&self) -> usize
        ensures count { result ≡ length self.now.session.outstanding }
        ensures bound { result ≤ self.now.session.limits.requests }
        ensures waiting { OfEachHistory self.now (λ h. result ≡ length (waiting Went h)) }
    {
        self.session.outstanding()
    }

    /// How many requests of the adapter are kept, which wait for `answer`.
    pub fn incoming(&self) -> usize
        ensures count { result ≡ length self.now.session.incoming }
        ensures bound { result ≤ self.now.session.limits.requests }
        ensures waiting { OfEachHistory self.now (λ h. result ≡ length (waiting Came h)) }
    {
        self.session.incoming()
    }

    /// The number of the oldest one, if one is kept; `answer` takes any of them.
    pub fn oldest_incoming(&self) -> Option<u64>
        ensures oldest { result ≡ oldest_of self.now.session.incoming }
        ensures waiting { OfEachHistory self.now (λ h. result ≡ oldest_asked (waiting Came h)) }
    {
        self.session.oldest_incoming()
    }

    /// How many references are known: those that the adapter gave in this stop, each counted once by kind and number.
    pub fn references(&self) -> usize
        ensures count { result ≡ length self.now.session.seen.known }
        ensures bound { result ≤ self.now.session.limits.references }
        ensures given { OfEachHistory self.now (λ h. result ≡ length (references_in h)) }
    {
        self.session.references()
    }

    /// The flags of the last success of `initialize`, changed by each `capabilities` event after it; before a success,
    /// those that such events named.
    pub fn capabilities(&self) -> Capabilities
        ensures value { result ≡ self.now.session.seen.capabilities }
        ensures seen { OfEachHistory self.now (λ h. result ≡ capabilities_in h) }
    {
        self.session.capabilities()
    }

    /// Whether the event `initialized` came.
    pub fn ready(&self) -> bool
        ensures value { result ≡ self.now.session.seen.ready }
        ensures seen { OfEachHistory self.now (λ h. result ≡ ready_in h) }
    {
        self.session.ready()
    }

    /// How far the session is. A fault leaves the phase as it was.
    pub fn phase(&self) -> Phase
        ensures value { result ≡ self.now.session.seen.phase }
        ensures seen { OfEachHistory self.now (λ h. result ≡ phase_in h) }
    {
        self.session.phase()
    }

    /// The bytes held of the frame under way. After a fault there are none.
    pub fn held(&self) -> usize
        ensures held { result ≡ length self.now.intake.held }
        ensures bounded { result ≤ max self.now.session.limits.header self.now.session.limits.body }
        ensures closed { IfSome self.now.fault (λ fault. result ≡ 0) }
    {
        let _ = &self.fault;
        self.reader.held()
    }

    /// Sends a call: the framed request, with the next own number. A refused call changes nothing, and the client goes on.
    ///
    /// # Errors
    /// The first of these that holds: `Ended` after `disconnect` was sent or a fault closed the client; `WrongPhase` where
    /// the phase does not let the command be sent, and it does not merely wait for a stop; `NotSupported` where the adapter
    /// does not offer it; `NotStopped` where it is sent in a stop alone and the debuggee runs or resumes;
    /// `UnknownReference` where a reference among the arguments is not known; `TooLarge` where the body would be longer than
    /// its limit; `Full` where as many requests are outstanding as may be; `SeqExhausted` where no own number is left.
    /// `OutOfMemory` where memory for the request is refused: never where one of the first five holds.
    pub fn send(&mut self, alloc: Global, call: &Call) -> Result<Sent, SendFault>
        requires plain { IsTrue (is_plain_call call.now) }
        ensures sent { OnOk result (refusal_of call.now self.old ≡ None) }
        ensures seq { IfOk result (λ sent. sent.seq ≡ self.old.session.used + 1) }
        ensures bytes { IfOk result (λ sent. sent.bytes.items ≡ request_bytes self.old call.now) }
        ensures session { OnOk result (self.new ≡ client_after_sending call.now self.old) }
        ensures reads_back { OnOk result (IsRequestReadBack self.old call.now) }
        ensures goes_on { OnOk result (GoesOnBySending self.old call.now self.new) }

        // Why it is refused; then nothing has changed.
        ensures refused { IfErr result (λ fault. NotSent fault call.now self.old) }
        ensures unchanged { OnErr result (self.new ≡ self.old) }
    {
        histories_grow();
        each_step_goes_on();
        each_step_stays_within();
        let closed = self.fault.is_some();
        self.session.send(alloc, closed, call)
    }

    /// Answers a request of the adapter that is kept: the framed response, with the next own number. It is kept no longer. A
    /// refused answer changes nothing, and the client goes on. What it asks is told by [`Terminal::plain`].
    ///
    /// # Errors
    /// The first of these that holds: `Ended` after a fault closed the client (not after `disconnect` was sent); `NotKept`
    /// where no request of the adapter with that number is kept; `SeqExhausted` where no own number is left.
    /// `OutOfMemory` where memory for the response is refused: never where one of the others holds.
    pub fn answer(
        &mut self,
        alloc: Global,
        request_seq: u64,
        terminal: Terminal,
    ) -> Result<Vec<u8>, AnswerFault>
        requires plain { IsTrue (is_plain_terminal terminal) }
        ensures answered { OnOk result (answer_refusal_of request_seq self.old ≡ None) }
        ensures bytes { IfOk result (λ b. b.items ≡ answer_bytes self.old request_seq terminal) }
        ensures session { OnOk result (self.new ≡ client_after_answering request_seq self.old) }
        ensures reads_back { OnOk result (IsAnswerReadBack self.old request_seq terminal) }
        ensures goes_on { OnOk result (GoesOnByAnswering self.old request_seq terminal self.new) }

        // Why it is refused; then nothing has changed.
        ensures refused { IfErr result (λ fault. NotAnswered fault request_seq self.old) }
        ensures unchanged { OnErr result (self.new ≡ self.old) }
    {
        histories_grow();
        each_step_goes_on();
        each_step_stays_within();
        let closed = self.fault.is_some();
        self.session.answer(alloc, closed, request_seq, terminal)
    }

    /// Uses the bytes of a piece up to the end of one frame at most, and delivers the message that becomes whole.
    ///
    /// A response ends the waiting of the request that it answers, and a success in a stop makes its references known. A
    /// request of the adapter is kept for `answer`, in every phase, where it asks for a terminal, the last `initialize` that
    /// was sent says that the client runs terminals, its arguments are good, and fewer are kept than may be. Else it is
    /// answered at once, by the first of `unsupported`, `badArguments` and `busy` that holds. An event changes what it says.
    /// Any other message has no effect.
    ///
    /// # Errors
    /// `Frame` and `Body` where the framing or a body is refused, at the offset of the refused frame; `Unmatched` for a
    /// response to a number that no outstanding request has; `CommandMismatch` where that request has another command;
    /// `ReferenceLimit` where more references would be known than may be; `RepeatedSeq` for a request of the adapter with the
    /// number of one that is kept; `SeqExhausted` where one is to be answered at once and no own number is left; `OutOfMemory` where memory is refused once a body is whole: a piece that
    /// makes no frame whole takes none. Then the tables are as they were, every later `take` answers it again, and `send`
    /// and `answer` answer `Ended`.
    pub fn take(&mut self, alloc: Global, piece: &[u8]) -> Result<Got, ClientFault>
        ensures takes { IfOk result (λ got. Takes self.old piece.now got got.delivered self.new) }
        ensures progress { IfOk result (λ got. 0 < length piece.now → 0 < got.used) }
        ensures within { IfOk result (λ got. got.used ≤ length piece.now) }
        ensures open { OnOk result (self.new.fault ≡ None) }
        ensures limits { self.new.session.limits ≡ self.old.session.limits }

        // Why it is refused; then the tables are as they were, and nothing is held.
        ensures refused { IfErr result (PieceNotTaken self.old piece.now) }
        ensures tables { OnErr result (self.new.session ≡ self.old.session) }
        ensures held { OnErr result (self.new.intake.held ≡ []) }
        ensures latches { IfErr result (λ fault. self.new.fault ≡ Some fault) }
        ensures latched { StaysClosed self.old.fault result self.old self.new }
    {
        if let Some(fault) = self.fault {
            return Err(fault);
        }
        histories_grow();
        each_step_goes_on();
        each_step_stays_within();
        read_is_in_range();
        match receive(alloc, &mut self.reader, &mut self.session, piece) {
            Ok(got) => Ok(got),
            Err(fault) => {
                self.reader.close();
                self.fault = Some(fault);
                Err(fault)
            }
        }
    }

    /// Takes bytes of a piece up to its next message, and delivers that; `piece` is what is left. `None` where all is used.
    /// What is to be written is appended to `out`. A program calls it until it answers `None`, for each piece that comes.
    ///
    /// # Errors
    /// Those of [`Client::take`], at which the tables are as they were; and `OutOfMemory` where memory is refused for `out`:
    /// the message was taken, and is not delivered, and what was to be written for it is lost. At each, `out` and `piece` are
    /// as they were, and the client is closed.
    pub fn next(
        &mut self,
        alloc: Global,
        piece: &mut &[u8],
        out: &mut Vec<u8>,
    ) -> Result<Option<Message>, ClientFault>
        ensures gives { IfOk result (NextIs self.old piece.old out.old self.new piece.new out.new) }
        ensures progress { OnOk result (Shortens piece.old.now piece.new.now) }
        ensures some { IfOk result (ShortensWith piece.old.now piece.new.now) }
        ensures none { WhereIdle self.old piece.old.now (result ≡ Ok None) }
        ensures idle { WhereIdle self.old piece.old.now (self.new ≡ self.old) }
        ensures idle_piece { WhereIdle self.old piece.old.now (piece.new ≡ piece.old) }
        ensures idle_out { WhereIdle self.old piece.old.now (out.new ≡ out.old) }
        ensures all { IfOk result (λ message. message ≡ None → piece.new.now ≡ []) }
        ensures open { OnOk result (self.new.fault ≡ None) }
        ensures limits { self.new.session.limits ≡ self.old.session.limits }

        // Why it is refused; then nothing is appended, and nothing is held.
        ensures refused { IfErr result (NextNotGiven self.old piece.old.now self.new) }
        ensures piece { OnErr result (piece.new.now ≡ piece.old.now) }
        ensures out { OnErr result (out.new.items ≡ out.old.items) }
        ensures held { OnErr result (self.new.intake.held ≡ []) }
        ensures latches { IfErr result (λ fault. self.new.fault ≡ Some fault) }
        ensures latched { StaysClosed self.old.fault result self.old self.new }
    {
        if let Some(fault) = self.fault {
            return Err(fault);
        }
        if piece.is_empty() {
            return Ok(None);
        }
        let got = match self.take(alloc, piece) {
            Ok(got) => got,
            Err(fault) => return Err(fault),
        };
        let Got {
            used,
            delivered,
            bytes,
        } = got;
        if let Err(_) = append(out, &bytes) {
            self.reader.close();
            self.fault = Some(ClientFault::OutOfMemory);
            return Err(ClientFault::OutOfMemory);
        }
        let (_, rest) = piece.split_at(used);
        *piece = rest;
        Ok(delivered)
    }
}

/// Appends bytes. Where there are none, no memory is asked for.
fn append(out: &mut Vec<u8>, bytes: &[u8]) -> Result<(), AllocError>
    ensures ok { OnOk result (out.new.items ≡ out.old.items ++ bytes.now) }
    ensures some { OnErr result (bytes.now ≢ []) }
    ensures err { OnErr result (out.new.items ≡ out.old.items) }
{
    if bytes.is_empty() {
        return Ok(());
    }
    out.extend_from_slice(bytes)
}

/// The fault of a client whose stream is refused.
fn refused_by(fault: ReadFault) -> ClientFault
    requires { fault ≢ ReadFault.Closed }
    ensures { IsBy fault result }
{
    match fault {
        ReadFault::Frame(fault) => ClientFault::Frame(fault),
        ReadFault::Body { cause, offset } => ClientFault::Body { cause, offset },
        ReadFault::OutOfMemory => ClientFault::OutOfMemory,
        ReadFault::Closed => unreachable!(),
    }
}

/// Takes bytes up to the end of a frame at most, and hands its message to the session.
fn receive(
    alloc: Global,
    reader: &mut MessageReader,
    session: &mut Session,
    piece: &[u8],
) -> Result<Got, ClientFault>
    requires { reader.old.fault ≡ None }
    ensures bounds { reader.new.intake.bounds ≡ reader.old.intake.bounds }
    ensures open { OnOk result (reader.new.fault ≡ None) }
    ensures received { IfOk result (λ got. HasReceived reader.old.intake reader.new.intake session.old session.new piece.now got got.delivered) }
    ensures progress { IfOk result (λ got. 0 < length piece.now → 0 < got.used) }
    ensures within { IfOk result (λ got. got.used ≤ length piece.now) }
    ensures refused { IfErr result (λ fault. TakeRefused reader.old.intake session.old piece.now fault) }
    ensures err { OnErr result (session.new ≡ session.old) }
    ensures limits { session.new.limits ≡ session.old.limits }
{
    let Next { used, message } = match reader.next(alloc, piece) {
        Ok(next) => next,
        Err(fault) => return Err(refused_by(fault)),
    };
    let Some(message) = message else {
        return Ok(Got {
            used,
            delivered: None,
            bytes: Vec::new(alloc),
        });
    };
    // A law for the proof: what is read is in range.
    read_is_in_range();
    let bytes = session.take(alloc, &message)?;
    Ok(Got {
        used,
        delivered: Some(message),
        bytes,
    })
}
