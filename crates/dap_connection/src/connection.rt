//! A connection, call by call.
ghost use Rattle.std.specs.Prelude.{◌≡◌, ◌≢◌, ℕ, ◌+◌, ◌<◌, ◌≤◌, List, [], ◌∷◌, ◌++◌, length, IfOk, IfErr, OnOk, OnErr, IfSome, IfNone, IsTrue, Some, None, Ok, Err, true, false};
ghost use Rattle.dap_frame.specs.Closed.{StaysClosed};
ghost use Rattle.dap_channel.specs.Sent.{Sends, saturating_count};
ghost use Rattle.dap_client.specs.Session.{fresh_session};
ghost use Rattle.dap_call.specs.PlainCall.{is_plain_call};
ghost use Rattle.dap_client.specs.TerminalResponse.{is_plain_terminal};
ghost use Rattle.dap_connection.specs.PrivateSteps.{Steps, FailsToWrite};
ghost use Rattle.dap_connection.specs.declared.fault.ConnectionFault.{ConnectionFault};
ghost use Rattle.dap_connection.specs.ConnectionState.{IsUnused};
ghost use Rattle.dap_connection.specs.Connection.{DoesSend, SendsAnswer, TakesOne, ReadsMore, Hears, HearsEnd, GivesNext, AwaitsResponse, Asks};
ghost use Rattle.dap_connection.specs.Connection.{FallsShort, StepFails, HearFails, AwaitsInVain, StaysOrCloses, FailsToGive, FailsToSend, FailsToAnswer, FailsToAsk};

use crate::fault::ConnectionFault;
use dap_call::Call;
use dap_channel::{Channel, send};
use dap_client::{Client, Sent, Terminal};
use dap_envelope::Message;
use dap_frame::Limits;
use std::alloc::{AllocError, Global};
use std::collections::VecDeque;
use std::marker::Model;

/// As many bytes are read at once.
const ROOM: usize = 4096;

/// As many messages are kept that come before a response.
const MAX_MESSAGES: usize = 65536;

/// A client, the channel to its adapter, and what came and was not asked for yet.
#[derive(Drop)]
pub struct Connection<C: Channel + Drop> {
    alloc: Global,
    client: Client,
    channel: C,
    read: Vec<u8>,
    at: usize,
    passed: VecDeque<Message>,
    written: u64,
    fault: Option<ConnectionFault>,
}

/// What a step came to.
#[derive(Drop)]
enum Step {
    /// This message.
    Came(Message),
    /// Nothing yet.
    More,
    /// The end of the input.
    End,
}

impl<C: Channel + Drop> Model for Connection<C> {
    ghost use Rattle.std.specs.Prelude.{drop};
    ghost use Rattle.std.specs.Coded.{codes};
    ghost use Rattle.dap_json.specs.Stored.{coded_data};
    ghost use Rattle.dap_connection.specs.ConnectionState.{Wire, ConnectionState, IsConnection};

    ghost Value = { ConnectionState C };

    ghost coded = { Prim.hlevel (codes, coded_data, C.code) };

    ghost view = { λ c. record { wire = record { client = c.client; channel = c.channel; unread = drop c.at c.read.items; written = c.written }; passed = c.passed.items; fault = c.fault } };

    ghost invariant = { λ c. IsConnection c.read.items c.at c.client c.fault };
}

impl<C: Channel + Drop> Connection<C> {
    /// A fresh client at this end of a channel.
    pub fn open(alloc: Global, channel: C, limits: Limits) -> Result<Connection<C>, AllocError>
        ensures session { IfOk result (λ c. c.wire.client.session ≡ fresh_session limits) }
        ensures channel { IfOk result (λ c. c.wire.channel ≡ channel) }
        ensures none { IfOk result IsUnused }
    {
        let client = Client::open(alloc, limits)?;
        Ok(Connection {
            alloc,
            client,
            channel,
            read: Vec::new(alloc),
            at: 0,
            passed: VecDeque::new(alloc),
            written: 0,
            fault: None,
        })
    }

    /// The client: its phase, what it knows, and what the adapter offers.
    pub fn client(&self) -> &Client
        ensures is { result.now ≡ self.now.wire.client }
        ensures open { self.now.fault ≡ None → result.now.fault ≡ None }
    {
        let _ = &self.fault;
        &self.client
    }

    /// Why it is closed.
    pub fn fault(&self) -> Option<ConnectionFault>
        ensures { result ≡ self.now.fault }
    {
        self.fault
    }

    /// Closes it.
    fn fail(&mut self, fault: ConnectionFault) -> ConnectionFault
        ensures fault { result ≡ fault }
        ensures latches { self.new ≡ record self.old { fault = Some fault } }
    {
        self.fault = Some(fault);
        fault
    }

    /// Sends bytes.
    fn write(&mut self, bytes: &[u8]) -> Result<(), ConnectionFault>
        ensures same { (self.new.wire.client ≡ self.old.wire.client) × (self.new.wire.unread ≡ self.old.wire.unread) × (self.new.passed ≡ self.old.passed) }
        ensures sent { OnOk result (Sends C.goes self.old.wire.channel self.new.wire.channel bytes.now) }
        ensures written { OnOk result (self.new.wire.written ≡ saturating_count (self.old.wire.written + length bytes.now)) }
        ensures open { OnOk result (self.new.fault ≡ self.old.fault) }
        ensures short { IfErr result (λ fault. FailsToWrite C.goes self.old.wire bytes.now fault self.new.wire) }
        ensures latches { IfErr result (λ fault. self.new.fault ≡ Some fault) }
    {
        match send(&mut self.channel, bytes, self.written) {
            Ok(written) => {
                self.written = written;
                Ok(())
            }
            Err(written) => Err(self.fail(ConnectionFault::Write { written })),
        }
    }

    /// Reads, where all that was read is taken: whether bytes came.
    fn read_more(&mut self) -> Result<bool, ConnectionFault>
        requires none { self.old.wire.unread ≡ [] }
        ensures read { OnOk result (ReadsMore C.goes self.old.wire self.new.wire) }
        ensures open { OnOk result (self.new.fault ≡ self.old.fault) }
        ensures none { IfOk result (λ more. more ≡ false → self.new.wire.unread ≡ []) }
        ensures some { IfOk result (λ more. more ≡ true → self.new.wire.unread ≢ []) }
        ensures fails { IfErr result (λ fault. StepFails C.goes self.old.wire fault self.new.wire) }
        ensures passed { self.new.passed ≡ self.old.passed }
        ensures latches { IfErr result (λ fault. self.new.fault ≡ Some fault) }
    {
        let mut buffer = [0; ROOM];
        let Ok(n) = self.channel.read(&mut buffer) else {
            return Err(self.fail(ConnectionFault::Read));
        };
        self.read.clear();
        self.at = 0;
        let (bytes, _) = buffer.split_at(n);
        if let Err(_) = self.read.extend_from_slice(bytes) {
            return Err(self.fail(ConnectionFault::OutOfMemory));
        }
        Ok(n > 0)
    }

    /// Takes bytes that were read, up to the next message, and sends what the client writes for it.
    fn take_one(&mut self) -> Result<Option<Message>, ConnectionFault>
        requires some { 0 < length self.old.wire.unread }
        ensures took { IfOk result (λ message. TakesOne C.goes self.old.wire message self.new.wire) }
        ensures open { OnOk result (self.new.fault ≡ self.old.fault) }
        ensures fails { self.old.fault ≡ None → IfErr result (λ fault. StepFails C.goes self.old.wire fault self.new.wire) }
        ensures passed { self.new.passed ≡ self.old.passed }
        ensures latches { IfErr result (λ fault. self.new.fault ≡ Some fault) }
    {
        let mut out = Vec::new(self.alloc);
        let (_, unread) = self.read.split_at(self.at);
        let mut piece = unread;
        let message = match self.client.next(self.alloc, &mut piece, &mut out) {
            Ok(message) => message,
            Err(fault) => {
                let fault = ConnectionFault::Client(fault);
                self.fault = Some(fault);
                return Err(fault);
            }
        };
        self.at = self.read.len() - piece.len();
        match self.write(&out) {
            Ok(()) => Ok(message),
            Err(fault) => Err(fault),
        }
    }

    /// Takes bytes that were read, or reads where none is left.
    fn step(&mut self) -> Result<Step, ConnectionFault>
        ensures steps { IfOk result (λ step. Steps C.goes self.old.wire step self.new.wire) }
        ensures open { OnOk result (self.new.fault ≡ self.old.fault) }
        ensures fails { self.old.fault ≡ None → IfErr result (λ fault. StepFails C.goes self.old.wire fault self.new.wire) }
        ensures passed { self.new.passed ≡ self.old.passed }
        ensures latches { IfErr result (λ fault. self.new.fault ≡ Some fault) }
    {
        if self.at < self.read.len() {
            return match self.take_one() {
                Ok(Some(message)) => Ok(Step::Came(message)),
                Ok(None) => Ok(Step::More),
                Err(fault) => Err(fault),
            };
        }
        match self.read_more() {
            Ok(true) => Ok(Step::More),
            Ok(false) => Ok(Step::End),
            Err(fault) => Err(fault),
        }
    }

    /// The next message that comes.
    fn hear(&mut self) -> Result<Option<Message>, ConnectionFault>
        ensures some { IfOk result (λ message. IfSome message (λ m. Hears C.goes self.old.wire (m ∷ []) self.new.wire)) }
        ensures none { IfOk result (λ message. IfNone message (HearsEnd C.goes self.old.wire self.new.wire)) }
        ensures open { OnOk result (self.new.fault ≡ self.old.fault) }
        ensures fails { self.old.fault ≡ None → IfErr result (λ fault. HearFails C.goes self.old.wire fault self.new.wire) }
        ensures passed { self.new.passed ≡ self.old.passed }
        ensures latches { IfErr result (λ fault. self.new.fault ≡ Some fault) }
    {
        for _step in 0..u64::MAX {
            match self.step() {
                Ok(Step::Came(message)) => return Ok(Some(message)),
                Ok(Step::End) => return Ok(None),
                Ok(Step::More) => {}
                Err(fault) => return Err(fault),
            }
        }
        Err(self.fail(ConnectionFault::TooManyReads))
    }

    /// The next message of the adapter: the first of those that came before a response which `ask` waited for, or the next
    /// that comes, for which it reads and waits. `None` at the end of the input.
    ///
    /// # Errors
    /// `Client` where what came closes the client; `Read` and `Write` where the channel failed; `OutOfMemory`; `TooManyReads`
    /// after 18446744073709551615 steps. Each stays.
    pub fn next(&mut self) -> Result<Option<Message>, ConnectionFault>
        ensures gives { IfOk result (λ m. GivesNext C.goes self.old self.old.passed m self.new) }
        ensures open { OnOk result (self.new.fault ≡ None) }

        // Why none comes: what was read and written, and which client met it. Then it is closed.
        ensures fails { FailsToGive C.goes self.old self.new result }
        ensures latches { IfErr result (λ fault. self.new.fault ≡ Some fault) }
        ensures latched { StaysClosed self.old.fault result self.old self.new }
    {
        if let Some(fault) = self.fault {
            return Err(fault);
        }
        match self.passed.pop_front() {
            Some(message) => Ok(Some(message)),
            None => self.hear(),
        }
    }

    /// Sends a call, whole, and answers its number, which the response names.
    ///
    /// # Errors
    /// `Send` where the client refuses the call: then nothing has changed, and it goes on. `Write` where the channel failed,
    /// which stays.
    pub fn send(&mut self, call: &Call) -> Result<u64, ConnectionFault>
        requires plain { IsTrue (is_plain_call call.now) }
        ensures sent { IfOk result (λ n. DoesSend C.goes self.old.wire call.now n self.new.wire) }
        ensures kept { OnOk result (self.new.passed ≡ self.old.passed) }
        ensures open { OnOk result (self.new.fault ≡ None) }

        // Why it is not sent, and what of it was written.
        ensures fails { FailsToSend C.goes self.old call.now self.new result }
        ensures closes { IfErr result (λ fault. StaysOrCloses self.old fault self.new) }
        ensures latched { StaysClosed self.old.fault result self.old self.new }
    {
        if let Some(fault) = self.fault {
            return Err(fault);
        }
        let Sent { seq, bytes } = match self.client.send(self.alloc, call) {
            Ok(sent) => sent,
            Err(fault) => return Err(ConnectionFault::Send(fault)),
        };
        match self.write(&bytes) {
            Ok(()) => Ok(seq),
            Err(fault) => Err(fault),
        }
    }

    /// Answers a request of the adapter, which asks for a terminal.
    ///
    /// # Errors
    /// `Answer` where the client refuses it: then nothing has changed, and it goes on. `Write` where the channel failed, which
    /// stays.
    pub fn answer(&mut self, request_seq: u64, terminal: Terminal) -> Result<(), ConnectionFault>
        requires plain { IsTrue (is_plain_terminal terminal) }
        ensures answered { OnOk result (SendsAnswer C.goes self.old request_seq terminal self.new) }
        ensures kept { OnOk result (self.new.passed ≡ self.old.passed) }
        ensures open { OnOk result (self.new.fault ≡ None) }

        // Why it is not answered, and what of the response was written.
        ensures fails { FailsToAnswer C.goes self.old request_seq terminal self.new result }
        ensures closes { IfErr result (λ fault. StaysOrCloses self.old fault self.new) }
        ensures latched { StaysClosed self.old.fault result self.old self.new }
    {
        if let Some(fault) = self.fault {
            return Err(fault);
        }
        let bytes = match self.client.answer(self.alloc, request_seq, terminal) {
            Ok(bytes) => bytes,
            Err(fault) => return Err(ConnectionFault::Answer(fault)),
        };
        match self.write(&bytes) {
            Ok(()) => Ok(()),
            Err(fault) => Err(fault),
        }
    }

    /// Messages up to the response to this request. Those before it are kept.
    fn response(&mut self, seq: u64) -> Result<Message, ConnectionFault>
        ensures response { IfOk result (λ m. AwaitsResponse C.goes self.old seq m self.new) }
        ensures open { OnOk result (self.new.fault ≡ self.old.fault) }
        ensures fails { self.old.fault ≡ None → IfErr result (λ fault. AwaitsInVain C.goes self.old seq fault self.new) }
        ensures latches { IfErr result (λ fault. self.new.fault ≡ Some fault) }
    {
        for _message in 0..MAX_MESSAGES {
            let message = match self.hear() {
                Ok(Some(message)) => message,
                Ok(None) => return Err(self.fail(ConnectionFault::Ended)),
                Err(fault) => return Err(fault),
            };
            if message.response_to(seq).is_some() {
                return Ok(message);
            }
            if let Err(_) = self.passed.push_back(message) {
                return Err(self.fail(ConnectionFault::OutOfMemory));
            }
        }
        Err(self.fail(ConnectionFault::TooManyMessages))
    }

    /// Sends a call, and answers with the message that is its response, for which it reads and waits. Messages that come
    /// before it, at most 65536, are kept for `next`.
    ///
    /// # Errors
    /// Those of `send` and `next`; `Ended` where the input ended before the response came; `TooManyMessages` where 65536 came
    /// and it is none of them. The last two stay.
    pub fn ask(&mut self, call: &Call) -> Result<Message, ConnectionFault>
        requires plain { IsTrue (is_plain_call call.now) }
        ensures asks { IfOk result (λ m. Asks C.goes self.old call.now m self.new) }
        ensures open { OnOk result (self.new.fault ≡ None) }

        // Why the response does not come, what was read and written, and which messages are kept.
        ensures fails { FailsToAsk C.goes self.old call.now self.new result }
        ensures closes { IfErr result (λ fault. StaysOrCloses self.old fault self.new) }
        ensures latched { StaysClosed self.old.fault result self.old self.new }
    {
        let seq = match self.send(call) {
            Ok(seq) => seq,
            Err(fault) => return Err(fault),
        };
        match self.response(seq) {
            Ok(message) => Ok(message),
            Err(fault) => Err(fault),
        }
    }
}
