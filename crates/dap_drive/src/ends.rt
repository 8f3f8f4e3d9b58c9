//! Both ends, and what one call of either leads to: each message that is written becomes a line, and is delivered.
ghost use Rattle.std.specs.Prelude.{◌≡◌, ℕ, ◌+◌, ◌==◌, ◌||◌, ◌<◌, ◌≤◌, List, [], length, drop, IfOk, IfErr, OnOk, Some, IsTrue, true};
ghost use Rattle.dap_debuggee.specs.declared.answers.State.{State};
ghost use Rattle.dap_frame.specs.Intake.{IsUnderWay};
ghost use Rattle.dap_frame.specs.Settings.{AreInRange, Settings};
ghost use Rattle.dap_call.specs.PlainCall.{is_plain_call};
ghost use Rattle.dap_client.specs.TerminalResponse.{is_plain_terminal};
ghost use Rattle.dap_decision.specs.Table.{is_phase};
ghost use Rattle.dap_drive.specs.PrivateHeld.{Spends, left_to_do};
ghost use Rattle.dap_drive.specs.PrivateFaults.{FrameLaws, fault_of_adapter, fault_of_answer, fault_of_client};
ghost use Rattle.dap_drive.specs.declared.fault.DriveFault.{DriveFault};
ghost use Rattle.dap_drive.specs.declared.script.Order.{Order};
ghost use Rattle.dap_drive.specs.declared.writing.Unwritten.{Unwritten};

use crate::fault::DriveFault;
use crate::writing::{Unwritten, write_lines};
use dap_adapter::{Adapter, AdapterFault, Phase, Taken, Turned};
use dap_call::Call;
use dap_check::Side;
use dap_client::{AnswerFault, Client, ClientFault, Got, SendFault, Terminal};
use dap_debuggee::Debuggee;
use dap_envelope::laws::each_body_is_one;
use dap_frame::{Frames, Limits, each_stream_has_one_split, written_is_read_again};
use dap_world::laws::{each_schedule_agrees, moves_are_in_order};
use std::alloc::{AllocError, Global};

/// After a `run` has handled all requests, the debuggee is asked at most so often what happened.
const MAX_POLLS: u32 = 65536;

/// The laws of frames and of bodies, for the proofs.
fn frames_keep_their_laws()
    ensures { FrameLaws }
{
    each_stream_has_one_split();
    moves_are_in_order();
    written_is_read_again();
    each_body_is_one();
}

/// That limits are in their ranges, for the proofs.
fn limits_are_in_range(limits: &Limits)
    ensures { AreInRange limits.now }
{
    let _header = limits.header();
    let _body = limits.body();
    let _requests = limits.requests();
    let _references = limits.references();
    let _breakpoints = limits.breakpoints();
    let _seq = limits.seq();
    let _reference = limits.reference();
}

fn client_fault(fault: ClientFault) -> DriveFault
    ensures { result ≡ fault_of_client fault }
{
    match fault {
        ClientFault::OutOfMemory => DriveFault::OutOfMemory,
        _ => DriveFault::Client,
    }
}

/// A request that is kept is not answered only where the client has no own number left, or memory is refused.
fn answer_fault(fault: AnswerFault) -> DriveFault
    ensures { result ≡ fault_of_answer fault }
{
    match fault {
        AnswerFault::OutOfMemory => DriveFault::OutOfMemory,
        _ => DriveFault::Client,
    }
}

fn adapter_fault(fault: AdapterFault) -> DriveFault
    ensures { result ≡ fault_of_adapter fault }
{
    match fault {
        AdapterFault::OutOfMemory => DriveFault::OutOfMemory,
        _ => DriveFault::Adapter,
    }
}

/// Bytes of one end that are no frames would close the other. There are none, as the callers show.
fn unwritten(side: Side, fault: Unwritten) -> DriveFault
    ensures { fault ≡ Unwritten.OutOfMemory → result ≡ DriveFault.OutOfMemory }
{
    match fault {
        Unwritten::OutOfMemory => DriveFault::OutOfMemory,
        Unwritten::Frames => match side {
            Side::Client => DriveFault::Adapter,
            Side::Adapter => DriveFault::Client,
        },
    }
}

/// How many bytes a client used, and what it wrote.
fn of_client(got: Got) -> (usize, Vec<u8>)
    ensures used { result.0 ≡ got.used }
    ensures bytes { result.1 ≡ got.bytes }
{
    let Got { used, bytes, .. } = got;
    (used, bytes)
}

/// How many bytes an adapter used, and what it wrote.
fn of_adapter(taken: Taken) -> (usize, Vec<u8>)
    ensures used { result.0 ≡ taken.used }
    ensures bytes { result.1 ≡ taken.bytes }
{
    let Taken { used, bytes, .. } = taken;
    (used, bytes)
}

fn is_stopped(phase: Phase) -> bool
    ensures { result ≡ is_phase Phase.Stopped phase }
{
    matches!(phase, Phase::Stopped)
}

/// Whether the debuggee is asked no more, after a poll that handed out these bytes.
fn is_last(bytes: &[u8], phase: Phase) -> bool
    ensures { result ≡ (length bytes.now == 0) || is_phase Phase.Stopped phase }
{
    bytes.is_empty() || is_stopped(phase)
}

/// Both ends, a reader that tells where messages end, and the transcript so far.
#[derive(Drop)]
pub(crate) struct Drive<D: Debuggee + Drop> {
    client: Client,
    adapter: Adapter<D>,
    reader: Frames,
    transcript: Vec<u8>,
}

impl<D: Debuggee + Drop> Drive<D> {
    ghost use Rattle.dap_world.specs.World.{World, fresh_world};
    ghost use Rattle.dap_drive.specs.Orders.{DoesSend, DoesAnswer, RunsTo, Reaches};
    ghost use Rattle.dap_drive.specs.PrivateHeld.{driven_by, both_of, HasDelivered, HasSettled, IsQuiet, HasDone, HasTurned, HasPolled, StopsOn, Delivering, StopsOrder};
    ghost use Rattle.dap_adapter.specs.Run.{to_take, to_turn, to_poll};

    /// Two fresh ends. The debuggee is not started.
    pub(crate) fn open(alloc: Global, limits: Limits, debuggee: D) -> Result<Drive<D>, AllocError>
        requires { (D.shown debuggee).state ≡ State.NotStarted }
        ensures reading { IfOk result (λ d. IsUnderWay d.reader) }
        ensures fresh { IfOk result (λ d. IsQuiet (driven_by D.shown D.follows limits debuggee) (both_of d) (fresh_world limits debuggee)) }
    {
        // Laws for the proof: both ends agree, and bytes are frames in one way only.
        each_schedule_agrees::<D>();
        frames_keep_their_laws();
        limits_are_in_range(&limits);
        let client = Client::open(alloc, limits)?;
        let adapter = Adapter::open(alloc, limits, debuggee)?;
        let reader = Frames::open(alloc, &limits)?;
        Ok(Drive {
            client,
            adapter,
            reader,
            transcript: Vec::new(alloc),
        })
    }

    /// The debuggee, as the adapter left it.
    pub(crate) fn into_debuggee(self) -> D
        ensures { result ≡ self.adapter.debuggee }
    {
        let Drive { adapter, .. } = self;
        adapter.into_debuggee()
    }

    /// The transcript, and the debuggee.
    pub(crate) fn into_parts(self) -> (Vec<u8>, D)
        ensures transcript { result.0 ≡ self.transcript }
        ensures debuggee { result.1 ≡ self.adapter.debuggee }
    {
        let Drive {
            adapter,
            transcript,
            ..
        } = self;
        (transcript, adapter.into_debuggee())
    }

    /// Delivers the first message on the way down, and answers how many bytes its frame has. What the client writes is
    /// under way up.
    fn take_down(
        &mut self,
        alloc: Global,
        rest: &[u8],
        up: &mut Vec<u8>,
    ) -> Result<usize, DriveFault>
        requires reading { IsUnderWay self.old.reader }
        ensures reading { OnOk result (IsUnderWay self.new.reader) }
        ensures progress { IfOk result (λ n. 0 < length rest.now → 0 < n) }
        ensures within { IfOk result (λ n. n ≤ length rest.now) }
        ensures delivered { IfOk result (λ n. 0 < length rest.now → (limits : Settings) (debuggee : D) (start : World D)
            → HasDelivered (driven_by D.shown D.follows limits debuggee) start (both_of self.old) up.old.items rest.now
            → HasDelivered (driven_by D.shown D.follows limits debuggee) start (both_of self.new) up.new.items (drop n rest.now)) }
        ensures spends { OnOk result (Spends self.old.client.session self.new.client.session (length up.old.items) (length up.new.items)) }
        ensures adapter { self.new.adapter ≡ self.old.adapter }
        ensures stops { IfErr result (λ fault. (limits : Settings) (debuggee : D) (start : World D)
            → HasDelivered (driven_by D.shown D.follows limits debuggee) start (both_of self.old) up.old.items rest.now
            → 0 < length rest.now → StopsOn D.shown D.follows (Delivering D.follows start) fault self.new.adapter.debuggee) }
    {
        // Laws for the proof: both ends agree, and bytes are frames in one way only.
        each_schedule_agrees::<D>();
        frames_keep_their_laws();
        let got = match self.client.take(alloc, rest) {
            Ok(got) => got,
            Err(fault) => return Err(client_fault(fault)),
        };
        let (used, bytes) = of_client(got);
        match write_lines(&mut self.reader, &mut self.transcript, Side::Client, &bytes) {
            Ok(()) => {}
            Err(fault) => return Err(unwritten(Side::Client, fault)),
        }
        up.extend_from_slice(&bytes)?;
        Ok(used)
    }

    /// Delivers all that is under way down, and hands out what is under way up then.
    fn deliver_down(&mut self, alloc: Global, down: &[u8]) -> Result<Vec<u8>, DriveFault>
        requires reading { IsUnderWay self.old.reader }
        ensures reading { OnOk result (IsUnderWay self.new.reader) }
        ensures delivered { IfOk result (λ up. (limits : Settings) (debuggee : D) (start : World D)
            → HasDelivered (driven_by D.shown D.follows limits debuggee) start (both_of self.old) [] down.now
            → HasDelivered (driven_by D.shown D.follows limits debuggee) start (both_of self.new) up.items []) }
        ensures spends { IfOk result (λ up. Spends self.old.client.session self.new.client.session 0 (length up.items)) }
        ensures adapter { OnOk result (self.new.adapter ≡ self.old.adapter) }
        ensures stops { IfErr result (λ fault. (limits : Settings) (debuggee : D) (start : World D)
            → HasDelivered (driven_by D.shown D.follows limits debuggee) start (both_of self.old) [] down.now
            → StopsOn D.shown D.follows (Delivering D.follows start) fault self.new.adapter.debuggee) }
    {
        let mut up = Vec::new(alloc);
        let mut at = 0;
        while at < down.len() {
            let (_, rest) = down.split_at(at);
            at += self.take_down(alloc, rest, &mut up)?;
        }
        Ok(up)
    }

    /// Delivers the first message on the way up, and answers how many bytes its frame has. What the adapter writes is
    /// under way down.
    fn take_up(
        &mut self,
        alloc: Global,
        rest: &[u8],
        down: &mut Vec<u8>,
    ) -> Result<usize, DriveFault>
        requires reading { IsUnderWay self.old.reader }
        ensures reading { OnOk result (IsUnderWay self.new.reader) }
        ensures progress { IfOk result (λ n. 0 < length rest.now → 0 < n) }
        ensures within { IfOk result (λ n. n ≤ length rest.now) }
        ensures delivered { IfOk result (λ n. 0 < length rest.now → (limits : Settings) (debuggee : D) (start : World D)
            → HasDelivered (driven_by D.shown D.follows limits debuggee) start (both_of self.old) rest.now down.old.items
            → HasDelivered (driven_by D.shown D.follows limits debuggee) start (both_of self.new) (drop n rest.now) down.new.items) }
        ensures client { self.new.client ≡ self.old.client }
        ensures limits { OnOk result (self.new.adapter.session.limits ≡ self.old.adapter.session.limits) }
        ensures stops { IfErr result (λ fault. (limits : Settings) (debuggee : D) (start : World D)
            → HasDelivered (driven_by D.shown D.follows limits debuggee) start (both_of self.old) rest.now down.old.items
            → 0 < length rest.now → StopsOn D.shown D.follows (Delivering D.follows start) fault self.new.adapter.debuggee) }
    {
        // Laws for the proof: both ends agree, and bytes are frames in one way only.
        each_schedule_agrees::<D>();
        frames_keep_their_laws();
        let taken = match self.adapter.take(alloc, rest) {
            Ok(taken) => taken,
            Err(fault) => return Err(adapter_fault(fault)),
        };
        let (used, bytes) = of_adapter(taken);
        match write_lines(
            &mut self.reader,
            &mut self.transcript,
            Side::Adapter,
            &bytes,
        ) {
            Ok(()) => {}
            Err(fault) => return Err(unwritten(Side::Adapter, fault)),
        }
        down.extend_from_slice(&bytes)?;
        Ok(used)
    }

    /// Delivers all that is under way up, and hands out what is under way down then.
    fn deliver_up(&mut self, alloc: Global, up: &[u8]) -> Result<Vec<u8>, DriveFault>
        requires reading { IsUnderWay self.old.reader }
        ensures reading { OnOk result (IsUnderWay self.new.reader) }
        ensures delivered { IfOk result (λ down. (limits : Settings) (debuggee : D) (start : World D)
            → HasDelivered (driven_by D.shown D.follows limits debuggee) start (both_of self.old) up.now []
            → HasDelivered (driven_by D.shown D.follows limits debuggee) start (both_of self.new) [] down.items) }
        ensures client { OnOk result (self.new.client ≡ self.old.client) }
        ensures limits { OnOk result (self.new.adapter.session.limits ≡ self.old.adapter.session.limits) }
        ensures stops { IfErr result (λ fault. (limits : Settings) (debuggee : D) (start : World D)
            → HasDelivered (driven_by D.shown D.follows limits debuggee) start (both_of self.old) up.now []
            → StopsOn D.shown D.follows (Delivering D.follows start) fault self.new.adapter.debuggee) }
    {
        let mut down = Vec::new(alloc);
        let mut at = 0;
        while at < up.len() {
            let (_, rest) = up.split_at(at);
            at += self.take_up(alloc, rest, &mut down)?;
        }
        Ok(down)
    }

    /// Delivers what is under way down, and all that is written then, until nothing is under way.
    fn settle(&mut self, alloc: Global, first: Vec<u8>) -> Result<(), DriveFault>
        requires reading { IsUnderWay self.old.reader }
        ensures reading { OnOk result (IsUnderWay self.new.reader) }
        ensures settled { OnOk result ((limits : Settings) (debuggee : D) (start : World D)
            → HasDelivered (driven_by D.shown D.follows limits debuggee) start (both_of self.old) [] first.items
            → HasSettled (driven_by D.shown D.follows limits debuggee) start (both_of self.new)) }
        ensures less { OnOk result (left_to_do self.new.client self.new.adapter ≤ left_to_do self.old.client self.old.adapter) }
        ensures stops { IfErr result (λ fault. (limits : Settings) (debuggee : D) (start : World D)
            → HasDelivered (driven_by D.shown D.follows limits debuggee) start (both_of self.old) [] first.items
            → StopsOn D.shown D.follows (Delivering D.follows start) fault self.new.adapter.debuggee) }
    {
        // Laws for the proof: both ends agree, and bytes are frames in one way only.
        each_schedule_agrees::<D>();
        frames_keep_their_laws();
        let mut down = first;
        'settle: loop {
            let up = self.deliver_down(alloc, &down)?;
            if up.is_empty() {
                return Ok(());
            }
            down = self.deliver_up(alloc, &up)?;
            // What an adapter keeps is bounded.
            let _kept = self.adapter.kept();
        }
    }

    /// The client sends the call that the line of this number asks for.
    pub(crate) fn send(&mut self, alloc: Global, call: &Call, line: u64) -> Result<(), DriveFault>
        requires reading { IsUnderWay self.old.reader }
        requires plain { IsTrue (is_plain_call call.now) }
        ensures reading { OnOk result (IsUnderWay self.new.reader) }
        ensures sent { OnOk result ((limits : Settings) (debuggee : D) (start : World D)
            → IsQuiet (driven_by D.shown D.follows limits debuggee) (both_of self.old) start
            → HasDone (driven_by D.shown D.follows limits debuggee) (DoesSend D.follows call.now) start (both_of self.new)) }
        ensures stops { IfErr result (λ fault. (limits : Settings) (debuggee : D) (start : World D)
            → IsQuiet (driven_by D.shown D.follows limits debuggee) (both_of self.old) start
            → StopsOrder D.shown D.follows line (Order.Send call.now) fault start self.new.adapter.debuggee) }
    {
        // Laws for the proof: both ends agree, and bytes are frames in one way only.
        each_schedule_agrees::<D>();
        frames_keep_their_laws();
        let sent = match self.client.send(alloc, call) {
            Ok(sent) => sent,
            Err(SendFault::OutOfMemory) => return Err(DriveFault::OutOfMemory),
            Err(cause) => return Err(DriveFault::Send { line, cause }),
        };
        match write_lines(
            &mut self.reader,
            &mut self.transcript,
            Side::Client,
            &sent.bytes,
        ) {
            Ok(()) => {}
            Err(fault) => return Err(unwritten(Side::Client, fault)),
        }
        let down = self.deliver_up(alloc, &sent.bytes)?;
        self.settle(alloc, down)?;
        Ok(())
    }

    /// The client answers the oldest request of the adapter that it keeps, as the line of this number asks for.
    pub(crate) fn answer(
        &mut self,
        alloc: Global,
        terminal: Terminal,
        line: u64,
    ) -> Result<(), DriveFault>
        requires reading { IsUnderWay self.old.reader }
        requires plain { IsTrue (is_plain_terminal terminal) }
        ensures reading { OnOk result (IsUnderWay self.new.reader) }
        ensures answered { OnOk result ((limits : Settings) (debuggee : D) (start : World D)
            → IsQuiet (driven_by D.shown D.follows limits debuggee) (both_of self.old) start
            → HasDone (driven_by D.shown D.follows limits debuggee) (DoesAnswer D.follows terminal) start (both_of self.new)) }
        ensures stops { IfErr result (λ fault. (limits : Settings) (debuggee : D) (start : World D)
            → IsQuiet (driven_by D.shown D.follows limits debuggee) (both_of self.old) start
            → StopsOrder D.shown D.follows line (Order.Answer terminal) fault start self.new.adapter.debuggee) }
    {
        // Laws for the proof: both ends agree, and bytes are frames in one way only.
        each_schedule_agrees::<D>();
        frames_keep_their_laws();
        let Some(request_seq) = self.client.oldest_incoming() else {
            return Err(DriveFault::Call { line });
        };
        let response = match self.client.answer(alloc, request_seq, terminal) {
            Ok(response) => response,
            Err(fault) => return Err(answer_fault(fault)),
        };
        match write_lines(
            &mut self.reader,
            &mut self.transcript,
            Side::Client,
            &response,
        ) {
            Ok(()) => {}
            Err(fault) => return Err(unwritten(Side::Client, fault)),
        }
        let down = self.deliver_up(alloc, &response)?;
        self.settle(alloc, down)?;
        Ok(())
    }

    /// The adapter handles the oldest request that waits: whether there was one.
    pub(crate) fn turn(&mut self, alloc: Global) -> Result<bool, DriveFault>
        requires reading { IsUnderWay self.old.reader }
        ensures reading { OnOk result (IsUnderWay self.new.reader) }
        ensures turned { IfOk result (λ more. (limits : Settings) (debuggee : D) (start : World D)
            → IsQuiet (driven_by D.shown D.follows limits debuggee) (both_of self.old) start
            → HasDone (driven_by D.shown D.follows limits debuggee) (HasTurned D.shown D.follows more) start (both_of self.new)) }
        ensures less { IfOk result (λ more. more ≡ true → left_to_do self.new.client self.new.adapter < left_to_do self.old.client self.old.adapter) }
        ensures stops { IfErr result (λ fault. (limits : Settings) (debuggee : D) (start : World D)
            → IsQuiet (driven_by D.shown D.follows limits debuggee) (both_of self.old) start
            → StopsOn D.shown D.follows (Reaches D.shown D.follows Order.Turn start) fault self.new.adapter.debuggee) }
    {
        // Laws for the proof: both ends agree, and bytes are frames in one way only.
        each_schedule_agrees::<D>();
        frames_keep_their_laws();
        let bytes = match self.adapter.turn(alloc) {
            Ok(Turned::Idle) => return Ok(false),
            Ok(Turned::Done { bytes }) => bytes,
            Err(fault) => return Err(adapter_fault(fault)),
        };
        match write_lines(
            &mut self.reader,
            &mut self.transcript,
            Side::Adapter,
            &bytes,
        ) {
            Ok(()) => {}
            Err(fault) => return Err(unwritten(Side::Adapter, fault)),
        }
        self.settle(alloc, bytes)?;
        Ok(true)
    }

    /// The adapter tells what happened to the debuggee, once: whether that is all for now.
    pub(crate) fn poll(&mut self, alloc: Global) -> Result<bool, DriveFault>
        requires reading { IsUnderWay self.old.reader }
        ensures reading { OnOk result (IsUnderWay self.new.reader) }
        ensures polled { IfOk result (λ last. (limits : Settings) (debuggee : D) (start : World D)
            → IsQuiet (driven_by D.shown D.follows limits debuggee) (both_of self.old) start
            → HasDone (driven_by D.shown D.follows limits debuggee) (HasPolled D.follows last) start (both_of self.new)) }
        ensures stops { IfErr result (λ fault. (limits : Settings) (debuggee : D) (start : World D)
            → IsQuiet (driven_by D.shown D.follows limits debuggee) (both_of self.old) start
            → StopsOn D.shown D.follows (Reaches D.shown D.follows Order.Poll start) fault self.new.adapter.debuggee) }
    {
        // Laws for the proof: both ends agree, and bytes are frames in one way only.
        each_schedule_agrees::<D>();
        frames_keep_their_laws();
        let bytes = match self.adapter.poll(alloc) {
            Ok(bytes) => bytes,
            Err(fault) => return Err(adapter_fault(fault)),
        };
        let last = is_last(&bytes, self.adapter.phase());
        match write_lines(
            &mut self.reader,
            &mut self.transcript,
            Side::Adapter,
            &bytes,
        ) {
            Ok(()) => {}
            Err(fault) => return Err(unwritten(Side::Adapter, fault)),
        }
        self.settle(alloc, bytes)?;
        Ok(last)
    }

    /// The adapter handles all requests, then tells what happens until nothing does or the debuggee stops.
    pub(crate) fn run(&mut self, alloc: Global) -> Result<(), DriveFault>
        requires reading { IsUnderWay self.old.reader }
        ensures reading { OnOk result (IsUnderWay self.new.reader) }
        ensures ran { OnOk result ((limits : Settings) (debuggee : D) (start : World D)
            → IsQuiet (driven_by D.shown D.follows limits debuggee) (both_of self.old) start
            → HasDone (driven_by D.shown D.follows limits debuggee) (λ old new. RunsTo D.shown D.follows old to_take new) start (both_of self.new)) }
        ensures stops { IfErr result (λ fault. (limits : Settings) (debuggee : D) (start : World D)
            → IsQuiet (driven_by D.shown D.follows limits debuggee) (both_of self.old) start
            → StopsOn D.shown D.follows (Reaches D.shown D.follows Order.Run start) fault self.new.adapter.debuggee) }
    {
        self.turns(alloc)?;
        self.polls(alloc)?;
        Ok(())
    }

    fn turns(&mut self, alloc: Global) -> Result<(), DriveFault>
        requires reading { IsUnderWay self.old.reader }
        ensures reading { OnOk result (IsUnderWay self.new.reader) }
        ensures ran { OnOk result ((limits : Settings) (debuggee : D) (start : World D)
            → IsQuiet (driven_by D.shown D.follows limits debuggee) (both_of self.old) start
            → HasDone (driven_by D.shown D.follows limits debuggee) (λ old new. RunsTo D.shown D.follows old (to_poll 0) new) start (both_of self.new)) }
        ensures stops { IfErr result (λ fault. (limits : Settings) (debuggee : D) (start : World D)
            → IsQuiet (driven_by D.shown D.follows limits debuggee) (both_of self.old) start
            → StopsOn D.shown D.follows (Reaches D.shown D.follows Order.Run start) fault self.new.adapter.debuggee) }
    {
        // Laws for the proof: both ends agree, and bytes are frames in one way only.
        each_schedule_agrees::<D>();
        frames_keep_their_laws();
        'turns: loop {
            let more = self.turn(alloc)?;
            if !more {
                return Ok(());
            }
        }
    }

    fn polls(&mut self, alloc: Global) -> Result<(), DriveFault>
        requires reading { IsUnderWay self.old.reader }
        ensures reading { OnOk result (IsUnderWay self.new.reader) }
        ensures ran { OnOk result ((limits : Settings) (debuggee : D) (start : World D)
            → HasDone (driven_by D.shown D.follows limits debuggee) (λ old new. RunsTo D.shown D.follows old (to_poll 0) new) start (both_of self.old)
            → HasDone (driven_by D.shown D.follows limits debuggee) (λ old new. RunsTo D.shown D.follows old to_take new) start (both_of self.new)) }
        ensures stops { IfErr result (λ fault. (limits : Settings) (debuggee : D) (start : World D)
            → HasDone (driven_by D.shown D.follows limits debuggee) (λ old new. RunsTo D.shown D.follows old (to_poll 0) new) start (both_of self.old)
            → StopsOn D.shown D.follows (Reaches D.shown D.follows Order.Run start) fault self.new.adapter.debuggee) }
    {
        // Laws for the proof: both ends agree, and bytes are frames in one way only.
        each_schedule_agrees::<D>();
        frames_keep_their_laws();
        for _poll in 0..MAX_POLLS {
            let last = self.poll(alloc)?;
            if last {
                return Ok(());
            }
        }
        Ok(())
    }
}
