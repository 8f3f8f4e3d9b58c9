//! The steps of a world of bytes, each as the call that it is: a function makes it, and its contract says that it is a step,
//! whatever is on the ways, or why it is refused. What else is to be known of a call stands with the call.
ghost use Rattle.std.specs.Prelude.{◌≡◌, [], IfErr, IfOk, OnErr, OnOk, IsTrue};
ghost use Rattle.dap_client.specs.Calls.{NotAnswered, NotSent, PieceNotTaken};
ghost use Rattle.dap_client.specs.TerminalResponse.{is_plain_terminal};
ghost use Rattle.dap_debuggee.specs.declared.answers.State.{State};
ghost use Rattle.dap_call.specs.PlainCall.{is_plain_call};
ghost use Rattle.dap_ways.specs.ByteWorld.{IsFreshAdapter, IsFreshClient};
ghost use Rattle.dap_ways.specs.Steps.{AdapterSteps, TurnSteps, SendSteps, AnswerSteps, TakeDownSteps, TakeUpSteps, PollSteps, EmitSteps};
ghost use Rattle.dap_adapter.specs.Calls.{NotEmitted, PieceNotTakenUp, TurnNotMade, PollNotMade};
ghost use Rattle.dap_json.specs.Writable.{is_plain_tree};

use dap_adapter::{Adapter, AdapterFault, EmitFault, Taken, Turned};
use dap_call::Call;
use dap_client::{AnswerFault, Client, ClientFault, Got, SendFault, Sent, Terminal};
use dap_debuggee::{Debuggee, HasMail};
use dap_frame::Limits;
use dap_json::Tree;
use std::alloc::{AllocError, Global};

/// A client with which a schedule starts: [`Client::open`].
pub fn open_client(alloc: Global, limits: Limits) -> Result<Client, AllocError>
    ensures { IfOk result (λ c. IsFreshClient limits c) }
{
    Client::open(alloc, limits)
}

/// An adapter with which a schedule starts: [`Adapter::open`].
pub fn open_adapter<D: Debuggee + Drop>(
    alloc: Global,
    limits: Limits,
    debuggee: D,
) -> Result<Adapter<D>, AllocError>
    requires { (D.shown debuggee).state ≡ State.NotStarted }
    ensures { IfOk result (λ a. IsFreshAdapter limits debuggee a) }
{
    Adapter::open(alloc, limits, debuggee)
}

/// [`Client::send`]. Where it is refused nothing has changed.
pub fn send<D: Debuggee>(client: &mut Client, alloc: Global, call: &Call) -> Result<Sent, SendFault>
    requires plain { IsTrue (is_plain_call call.now) }
    ensures step { IfOk result (SendSteps D.shown D.follows client.old client.new) }
    ensures refused { IfErr result (λ fault. NotSent fault call.now client.old) }
    ensures unchanged { OnErr result (client.new ≡ client.old) }
{
    client.send(alloc, call)
}

/// [`Client::answer`]. Where it is refused nothing has changed.
pub fn answer<D: Debuggee>(
    client: &mut Client,
    alloc: Global,
    request_seq: u64,
    terminal: Terminal,
) -> Result<Vec<u8>, AnswerFault>
    requires plain { IsTrue (is_plain_terminal terminal) }
    ensures step { IfOk result (AnswerSteps D.shown D.follows client.old client.new) }
    ensures refused { IfErr result (λ fault. NotAnswered fault request_seq client.old) }
    ensures unchanged { OnErr result (client.new ≡ client.old) }
{
    client.answer(alloc, request_seq, terminal)
}

/// [`Client::take`], of any piece off the front of its way.
pub fn take_down<D: Debuggee>(
    client: &mut Client,
    alloc: Global,
    piece: &[u8],
) -> Result<Got, ClientFault>
    ensures step { IfOk result (TakeDownSteps D.shown D.follows client.old piece.now client.new) }
    ensures refused { IfErr result (PieceNotTaken client.old piece.now) }
{
    client.take(alloc, piece)
}

/// [`Adapter::take`], of any piece off the front of its way.
pub fn take_up<D: Debuggee + Drop>(
    adapter: &mut Adapter<D>,
    alloc: Global,
    piece: &[u8],
) -> Result<Taken, AdapterFault>
    ensures step { IfOk result (TakeUpSteps D.shown D.follows adapter.old piece.now adapter.new) }
    ensures refused { IfErr result (PieceNotTakenUp adapter.old piece.now adapter.new) }
{
    adapter.take(alloc, piece)
}

/// [`Adapter::turn`]: a step, or where no request waits nothing has changed.
pub fn turn<D: Debuggee + Drop>(
    adapter: &mut Adapter<D>,
    alloc: Global,
) -> Result<Turned, AdapterFault>
    ensures step { IfOk result (λ t. TurnSteps D.shown D.follows adapter.old t adapter.new) }
    ensures refused { IfErr result (TurnNotMade D.shown adapter.old adapter.new) }
{
    adapter.turn(alloc)
}

/// [`Adapter::poll`].
pub fn poll<D: Debuggee + Drop>(
    adapter: &mut Adapter<D>,
    alloc: Global,
) -> Result<Vec<u8>, AdapterFault>
    ensures step { IfOk result (PollSteps D.shown D.follows adapter.old adapter.new) }
    ensures refused { IfErr result (PollNotMade D.follows adapter.old adapter.new) }
{
    adapter.poll(alloc)
}

/// [`Adapter::emit`]. Where it is refused nothing has changed.
pub fn emit<D: Debuggee + Drop>(
    adapter: &mut Adapter<D>,
    alloc: Global,
    event: &str,
    body: &Option<Tree>,
    out: &mut Vec<u8>,
) -> Result<(), EmitFault>
    requires plain { IsTrue (is_plain_tree body.now) }
    ensures step { OnOk result (EmitSteps D.shown D.follows adapter.old adapter.new out.old out.new) }
    ensures refused { IfErr result (NotEmitted event.now body.now adapter.old) }
    ensures unchanged { OnErr result (adapter.new ≡ adapter.old) }
    ensures buffer { OnErr result (out.new.items ≡ out.old.items) }
{
    adapter.emit(alloc, event, body, out)
}

/// [`Adapter::exchange`], which writes nothing.
pub fn exchange<D: HasMail + Drop>(adapter: &mut Adapter<D>, given: D::Mail) -> D::Mail
    ensures out { result ≡ D.mail adapter.old.debuggee }
    ensures put { adapter.new.debuggee ≡ D.with_mail given adapter.old.debuggee }
    ensures step { AdapterSteps D.shown D.follows adapter.old [] adapter.new }
{
    adapter.exchange(given)
}
