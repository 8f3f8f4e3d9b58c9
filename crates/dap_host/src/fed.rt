//! An adapter over a fed debuggee: what is told goes into the debuggee's mail before a call, and what is to be done, with why
//! something was dropped, is fetched from it behind the call. It knows the mail; it must not know lines.
ghost use Rattle.std.specs.Prelude.{◌≡◌, ◌≢◌, [], IfOk, IfErr, OnOk, None, true};
ghost use Rattle.dap_adapter.specs.Parts.{StopsAfter};
ghost use Rattle.dap_adapter.specs.Run.{to_take, to_poll};
ghost use Rattle.dap_frame.specs.Written.{frame_of};
ghost use Rattle.dap_live.specs.LiveLaws.{FollowsLive};
ghost use Rattle.dap_live.specs.LiveShown.{shown_live};
ghost use Rattle.dap_live.specs.MailState.{no_mail, with_coming};
ghost use Rattle.dap_plan.specs.Polling.{has_debuggee};
ghost use Rattle.dap_plan.specs.declared.fault.AdapterFault.{AdapterFault};
ghost use Rattle.dap_host.specs.Fed.{AnswersFed, TellsFed, mail_ahead, over_mail};

use dap_adapter::{Adapter, AdapterFault, tell_polls_first};
use dap_live::{Ahead, Coming, Dropped, HostAct, Live, Mail};
use std::alloc::Global;

/// Puts what comes into the debuggee's mail, in place of all that is there.
fn put_coming(alloc: Global, adapter: &mut Adapter<Live>, coming: Coming)
    ensures { adapter.new ≡ over_mail (with_coming coming no_mail) adapter.old }
{
    let mut mail = Mail::new(alloc);
    mail.post(coming);
    let _ = adapter.exchange(mail);
}

/// Puts what is said of the next message into the debuggee's mail, in place of all that is there.
fn put_ahead(alloc: Global, adapter: &mut Adapter<Live>, ahead: Ahead)
    ensures { adapter.new ≡ over_mail (mail_ahead ahead) adapter.old }
{
    let mut mail = Mail::new(alloc);
    mail.prepare(ahead);
    let _ = adapter.exchange(mail);
}

/// Fetches the acts from the debuggee's mail. Nothing is left there.
fn fetch_acts(alloc: Global, adapter: &mut Adapter<Live>) -> Result<Vec<HostAct>, AdapterFault>
    ensures acts { IfOk result (λ acts. acts.items ≡ adapter.old.debuggee.mail.acts) }
    ensures fetched { OnOk result (adapter.new ≡ over_mail no_mail adapter.old) }
    ensures memory { IfErr result (λ fault. fault ≡ AdapterFault.OutOfMemory) }
{
    let mut mail = adapter.exchange(Mail::new(alloc));
    match mail.take_acts(alloc) {
        Ok(acts) => Ok(acts),
        Err(_) => Err(AdapterFault::OutOfMemory),
    }
}

/// Fetches why something is dropped from the debuggee's mail. Nothing is left there.
fn fetch_dropped(alloc: Global, adapter: &mut Adapter<Live>) -> Option<Dropped>
    ensures why { result ≡ adapter.old.debuggee.mail.dropped }
    ensures fetched { adapter.new ≡ over_mail no_mail adapter.old }
{
    let mut mail = adapter.exchange(Mail::new(alloc));
    mail.take_dropped()
}

/// Answers a message, of which this was said before, and fetches the acts that were asked meanwhile.
pub(crate) fn answer_fed(
    alloc: Global,
    adapter: &mut Adapter<Live>,
    ahead: Ahead,
    body: &[u8],
    bytes: &mut Vec<u8>,
) -> Result<Vec<HostAct>, AdapterFault>
    requires empty { bytes.old.items ≡ [] }
    requires open { adapter.old.fault ≡ None }
    ensures answers { IfOk result (λ acts. AnswersFed adapter.old ahead body.now bytes.new.items acts.items adapter.new) }
    ensures stops { IfErr result (λ fault. fault ≢ AdapterFault.OutOfMemory → StopsAfter shown_live FollowsLive (over_mail (mail_ahead ahead) adapter.old) to_take (frame_of body.now) [] fault adapter.new bytes.new.items) }
{
    put_ahead(alloc, adapter, ahead);
    match adapter.answer_body(alloc, body, bytes) {
        Ok(_ended) => fetch_acts(alloc, adapter),
        Err(fault) => Err(fault),
    }
}

/// Tells what comes, and fetches why it is dropped, if it is.
pub(crate) fn tell_fed(
    alloc: Global,
    adapter: &mut Adapter<Live>,
    coming: Coming,
    bytes: &mut Vec<u8>,
) -> Result<Option<Dropped>, AdapterFault>
    requires empty { bytes.old.items ≡ [] }
    requires open { adapter.old.fault ≡ None }
    requires in_a_run { has_debuggee adapter.old.session.phase ≡ true }
    ensures tells { IfOk result (λ dropped. TellsFed adapter.old coming bytes.new.items dropped adapter.new) }
    ensures stops { IfErr result (λ fault. StopsAfter shown_live FollowsLive (over_mail (with_coming coming no_mail) adapter.old) (to_poll 0) [] [] fault adapter.new bytes.new.items) }
{
    // For the proof: the first poll alone hears what comes.
    tell_polls_first::<Live>();
    put_coming(alloc, adapter, coming);
    match adapter.tell(alloc, bytes) {
        Ok(()) => Ok(fetch_dropped(alloc, adapter)),
        Err(fault) => Err(fault),
    }
}
