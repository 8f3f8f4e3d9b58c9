//! A session with its debuggee: what is kept, and how it changes.
ghost use Rattle.dap_session.specs.SessionCalls.{fresh_state, opened_state, over_debuggee};
ghost use Rattle.std.specs.Prelude.{◌≡◌, ◌+◌, ◌≤◌, ◌<◌, [], ◌∷◌, ◌++◌, length, IfOk, OnErr, OnOk, IsTrue, true, false, not, nat_lt, None};
ghost use Rattle.std.specs.Option.{option_copied};
ghost use Rattle.dap_outbox.specs.Outbox.{IsReady};
ghost use Rattle.dap_tables.specs.Outstanding.{entries, without, with_mark, contains_seq, kept_unparked, IsOrderlyRequests};
ghost use Rattle.dap_outbox.specs.Waiting.{lent_ones, not_starting_ones};
ghost use Rattle.dap_tables.specs.References.{target_of};
ghost use Rattle.dap_tables.specs.SourceMap.{count, set_of};
ghost use Rattle.dap_query.specs.Queries.{object_of};
ghost use Rattle.dap_plan.specs.Session.{offers_fit, own_requests, numbers_of};
ghost use Rattle.dap_debuggee.specs.Laws.{is_short};
ghost use Rattle.dap_debuggee.specs.Shown.{to_start, to_resume, to_pause, to_poll, to_end, done, happened};

use crate::offers::usual_offers;
use crate::own::OwnRequests;
use crate::reply::ActReply;
use dap_command::{Offer, SourceKey};
use dap_debuggee::{ActFault, Debuggee, Happening, HasMail, How};
use dap_decision::Phase;
use dap_frame::Limits;
use dap_outbox::{Lent, Outbox, clear_starting, lent_in_order};
use dap_query::{Options, Queries};
use dap_tables::{Breakpoints, Entry, Outstanding, PutFault, Seq, Target};
use std::alloc::{AllocError, Global};
use std::marker::Model;
use std::mem;

/// A session with its debuggee.
#[derive(Drop)]
pub struct Session<D: Debuggee + Drop> {
    pub(crate) phase: Phase,
    /// The limits, what the client said of itself, and the references.
    pub(crate) queries: Queries,
    pub(crate) kept: Outstanding,
    pub(crate) breakpoints: Breakpoints,
    /// The number of the request for a terminal that is not answered.
    pub(crate) asked: Option<u64>,
    /// Those of whoever holds the session that are not answered. They leave a place for the one for a terminal.
    pub(crate) own: OwnRequests,
    pub(crate) numbers: Seq,
    /// What it offers.
    offers: Offer,
    pub(crate) debuggee: D,
}

impl<D: Debuggee + Drop> Model for Session<D> {
    ghost use Rattle.std.specs.Coded.{codes};
    ghost use Rattle.dap_json.specs.Stored.{coded_data};
    ghost use Rattle.dap_plan.specs.SessionState.{SessionState, IsSession};

    ghost Value = { SessionState D };

    ghost coded = { Prim.hlevel (codes, coded_data, D.code) };

    ghost view = { λ a. record {
      session = record {
        limits = a.queries.limits;
        offers = a.offers;
        phase = a.phase;
        options = a.queries.options;
        kept = a.kept.kept;
        references = a.queries.references;
        breakpoints = a.breakpoints.breakpoints;
        asked = a.asked;
        own = a.own.kept;
        used = a.numbers.used;
      };
      debuggee = a.debuggee;
    } };

    ghost invariant = { λ a. IsSession a.queries.limits a.offers a.kept a.breakpoints a.numbers a.own };
}

impl<D: Debuggee + Drop> Session<D> {
    ghost use Rattle.dap_session.specs.PrivateReplies.{reply_of};
    ghost use Rattle.dap_tables.specs.References.{without_references};

    /// A fresh session. It offers all that is served, and no more.
    pub fn open(alloc: Global, limits: Limits, debuggee: D) -> Result<Session<D>, AllocError>
        ensures { IfOk result (λ state. state ≡ fresh_state limits debuggee) }
    {
        Session::open_with(alloc, limits, debuggee, usual_offers(limits))
    }

    /// A fresh session with these offers, which fit.
    pub fn open_with(
        alloc: Global,
        limits: Limits,
        debuggee: D,
        offers: Offer,
    ) -> Result<Session<D>, AllocError>
        requires fits { IsTrue (offers_fit limits offers) }
        ensures { IfOk result (λ state. state ≡ opened_state limits offers debuggee) }
    {
        let kept = Outstanding::open(alloc, limits.requests())?;
        let breakpoints = Breakpoints::open(alloc, limits.breakpoints())?;
        let numbers = Seq::open(limits.seq());
        let queries = Queries::open(alloc, limits)?;
        Ok(Session {
            phase: Phase::Fresh,
            queries,
            kept,
            breakpoints,
            asked: None,
            own: OwnRequests::none(limits.requests() - 1),
            numbers,
            offers,
            debuggee,
        })
    }

    pub fn phase(&self) -> Phase
        ensures { result ≡ self.now.session.phase }
    {
        self.phase
    }

    /// How many requests are kept.
    pub fn len(&self) -> usize
        ensures kept { result ≡ length self.now.session.kept }
        ensures bound { result ≤ self.now.session.limits.requests }
    {
        self.kept.len()
    }

    /// How many references are live.
    pub fn references(&self) -> usize
        ensures live { result ≡ length self.now.session.references.live }
        ensures bound { result ≤ self.now.session.limits.references }
    {
        self.queries.len()
    }

    /// How many breakpoints are set.
    pub fn breakpoints(&self) -> usize
        ensures set { result ≡ count self.now.session.breakpoints.sources }
        ensures bound { result ≤ self.now.session.limits.breakpoints }
    {
        self.breakpoints.len()
    }

    /// Those of a source, each its id and its line as the debuggee counts.
    pub fn breakpoints_of(&self, source: &SourceKey) -> &[(u64, u32)]
        ensures { result.now ≡ set_of source.now self.now.session.breakpoints.sources }
    {
        self.breakpoints.of_source(source)
    }

    /// How many requests for a terminal are not answered.
    pub fn asked(&self) -> usize
        ensures { result ≡ length (own_requests self.now.session.asked) }
    {
        match self.asked {
            None => 0,
            Some(_) => 1,
        }
    }

    /// How many requests of whoever holds the session are not answered.
    pub fn asked_by_name(&self) -> usize
        ensures own { result ≡ length self.now.session.own }
        ensures bound { result < self.now.session.limits.requests }
    {
        self.own.len()
    }

    /// The requests that are lent, by arrival: each is answered by [`Session::respond`].
    pub fn lent(&self) -> Lent<'_>
        ensures { result ≡ entries (lent_ones self.now.session.kept) }
    {
        lent_in_order(&self.kept)
    }

    /// What a live reference names.
    pub fn target(&self, number: u32) -> Option<&Target>
        ensures { option_copied result ≡ target_of self.now.session.references number }
    {
        self.queries.target(number)
    }

    /// The debuggee, as it is now.
    pub fn debuggee(&self) -> &D
        ensures { result.now ≡ self.now.debuggee }
    {
        &self.debuggee
    }

    /// The same, given out.
    pub fn into_debuggee(self) -> D
        ensures { result ≡ self.debuggee }
    {
        let Session { debuggee, .. } = self;
        debuggee
    }

    pub(crate) fn limits(&self) -> Limits
        ensures { result ≡ self.now.session.limits }
    {
        self.queries.limits()
    }

    /// What it offers, which fits.
    pub(crate) fn offers(&self) -> &Offer
        ensures value { result.now ≡ self.now.session.offers }
        ensures fits { IsTrue (offers_fit self.now.session.limits self.now.session.offers) }
    {
        let _ = &self.queries;
        &self.offers
    }

    pub(crate) fn options(&self) -> Options
        ensures { result ≡ self.now.session.options }
    {
        self.queries.options()
    }

    /// The object of a live number.
    pub(crate) fn object(&self, number: u32) -> Option<u64>
        ensures { result ≡ object_of self.now.session.references number }
    {
        self.queries.object(number)
    }

    /// Whether there is no room for one more request.
    pub(crate) fn is_full(&self) -> bool
        ensures { result ≡ not (nat_lt (length self.now.session.kept) self.now.session.limits.requests) }
    {
        self.kept.len() >= self.limits().requests()
    }

    /// Keeps a request.
    pub(crate) fn put(&mut self, request: Entry)
        requires new { contains_seq request.seq self.old.session.kept ≡ false }
        requires room { length self.old.session.kept < self.old.session.limits.requests }
        ensures { self.new ≡ record self.old { session = record self.old.session { kept = self.old.session.kept ++ kept_unparked request ∷ [] } } }
    {
        put_in(&mut self.kept, request);
    }

    /// The own numbers.
    pub(crate) fn numbers(&self) -> Seq
        ensures numbers { result ≡ record { last = self.now.session.limits.seq; used = self.now.session.used } }
        ensures used { self.now.session.used ≤ self.now.session.limits.seq }
    {
        self.numbers
    }

    /// Ends with a request, and with what was written: nothing of it was there before.
    pub(crate) fn commit(&mut self, seq: u64, out: &Outbox)
        requires last { out.now.numbers.last ≡ self.old.session.limits.seq }
        ensures session { self.new ≡ record self.old { session = record self.old.session { kept = without seq self.old.session.kept; used = out.now.numbers.used } } }
    {
        let _ = self.kept.take(seq);
        self.numbers = out.numbers();
    }

    /// Ends with what was written: nothing of it was there before.
    pub(crate) fn spend(&mut self, out: &Outbox)
        requires last { out.now.numbers.last ≡ self.old.session.limits.seq }
        ensures session { self.new ≡ record self.old { session = record self.old.session { used = out.now.numbers.used } } }
    {
        self.numbers = out.numbers();
    }

    /// Ends with all requests, and with what was written.
    pub(crate) fn commit_all(&mut self, out: &Outbox)
        requires last { out.now.numbers.last ≡ self.old.session.limits.seq }
        ensures session { self.new ≡ record self.old { session = record self.old.session { kept = []; used = out.now.numbers.used } } }
    {
        self.kept.clear();
        self.numbers = out.numbers();
    }

    /// Ends with those that wait for the debuggee to start, and with what was written.
    pub(crate) fn commit_asked(&mut self, out: &Outbox)
        requires last { out.now.numbers.last ≡ self.old.session.limits.seq }
        ensures session { self.new ≡ record self.old { session = record self.old.session { kept = not_starting_ones self.old.session.kept; asked = None; used = out.now.numbers.used } } }
    {
        clear_starting(&mut self.kept);
        self.asked = None;
        self.numbers = out.numbers();
    }

    /// Ends with a request and with those that wait for the debuggee to start, and with what was written.
    pub(crate) fn commit_parked(&mut self, seq: u64, out: &Outbox)
        requires last { out.now.numbers.last ≡ self.old.session.limits.seq }
        ensures session { self.new ≡ record self.old { session = record self.old.session { kept = not_starting_ones (without seq self.old.session.kept); used = out.now.numbers.used } } }
    {
        let _ = self.kept.take(seq);
        clear_starting(&mut self.kept);
        self.numbers = out.numbers();
    }

    /// Ends with a request that was asked, and with what was written.
    pub(crate) fn commit_own(
        &mut self,
        alloc: Global,
        out: &Outbox,
        request: Entry,
    ) -> Result<(), AllocError>
        requires last { out.now.numbers.last ≡ self.old.session.limits.seq }
        requires new { contains_seq request.seq self.old.session.own ≡ false }
        requires room { length self.old.session.own + 1 < self.old.session.limits.requests }
        ensures ok { OnOk result (self.new ≡ record self.old { session = record self.old.session { own = self.old.session.own ++ kept_unparked request ∷ []; used = out.now.numbers.used } }) }
        ensures err { OnErr result (self.new ≡ self.old) }
    {
        self.own.put(alloc, request)?;
        self.numbers = out.numbers();
        Ok(())
    }

    /// A request of whoever holds the session waits no more.
    pub(crate) fn end_own(&mut self, request_seq: u64)
        ensures { self.new ≡ record self.old { session = record self.old.session { own = without request_seq self.old.session.own } } }
    {
        self.own.take(request_seq);
    }

    /// The outbox of a step, behind what a buffer has, which is empty until it is given back.
    pub(crate) fn outbox_behind(&self, alloc: Global, out: &mut Vec<u8>) -> Outbox
        ensures ready { IsReady result (numbers_of self.now.session) }
        ensures before { result.before ≡ out.old.items }
    {
        let buffer = mem::replace(out, Vec::new(alloc));
        Outbox::behind(buffer, self.numbers())
    }

    pub(crate) fn set_phase(&mut self, phase: Phase)
        ensures { self.new ≡ record self.old { session = record self.old.session { phase = phase } } }
    {
        self.phase = phase;
    }

    pub(crate) fn set_asked(&mut self, asked: Option<u64>)
        ensures { self.new ≡ record self.old { session = record self.old.session { asked = asked } } }
    {
        self.asked = asked;
    }

    pub(crate) fn set_options(&mut self, options: Options)
        ensures { self.new ≡ record self.old { session = record self.old.session { options = options } } }
    {
        self.queries.set_options(options);
    }

    /// All references die.
    pub(crate) fn clear_references(&mut self)
        ensures { self.new ≡ record self.old { session = record self.old.session { references = without_references self.old.session.references } } }
    {
        self.queries.clear();
    }

    pub(crate) fn park(&mut self, seq: u64)
        requires { IsTrue (contains_seq seq self.old.session.kept) }
        ensures { self.new ≡ record self.old { session = record self.old.session { kept = with_mark seq true self.old.session.kept } } }
    {
        self.kept.park(seq);
    }

    /// Asks the debuggee to start: what it replies.
    pub(crate) fn ask_start(&mut self, alloc: Global) -> Result<ActReply, AllocError>
        ensures follows { IfOk result (λ reply. D.follows self.old.debuggee to_start (reply_of reply) self.new.debuggee) }
        ensures session { self.new.session ≡ self.old.session }
    {
        match self.debuggee.start(alloc) {
            Ok(()) => Ok(ActReply::Done),
            Err(ActFault::Refused(why)) => Ok(ActReply::Refused(why)),
            Err(ActFault::OutOfMemory) => Err(AllocError),
        }
    }

    /// Asks the debuggee to go on: what it replies.
    pub(crate) fn ask_resume(
        &mut self,
        alloc: Global,
        how: How,
        thread: i64,
    ) -> Result<ActReply, AllocError>
        ensures follows { IfOk result (λ reply. D.follows self.old.debuggee (to_resume how thread) (reply_of reply) self.new.debuggee) }
        ensures session { self.new.session ≡ self.old.session }
    {
        match self.debuggee.resume(alloc, how, thread) {
            Ok(()) => Ok(ActReply::Done),
            Err(ActFault::Refused(why)) => Ok(ActReply::Refused(why)),
            Err(ActFault::OutOfMemory) => Err(AllocError),
        }
    }

    /// Asks the debuggee to stop: what it replies.
    pub(crate) fn ask_pause(&mut self, alloc: Global) -> Result<ActReply, AllocError>
        ensures follows { IfOk result (λ reply. D.follows self.old.debuggee to_pause (reply_of reply) self.new.debuggee) }
        ensures session { self.new.session ≡ self.old.session }
    {
        match self.debuggee.pause(alloc) {
            Ok(()) => Ok(ActReply::Done),
            Err(ActFault::Refused(why)) => Ok(ActReply::Refused(why)),
            Err(ActFault::OutOfMemory) => Err(AllocError),
        }
    }

    pub(crate) fn end(&mut self)
        ensures follows { D.follows self.old.debuggee to_end done self.new.debuggee }
        ensures session { self.new.session ≡ self.old.session }
    {
        self.debuggee.end();
    }

    /// What the debuggee is asked first.
    pub(crate) fn ask_poll(&mut self, alloc: Global) -> Result<Happening, AllocError>
        ensures follows { IfOk result (λ h. D.follows self.old.debuggee to_poll (happened h) self.new.debuggee) }
        ensures in_range { IfOk result (λ h. IsTrue (is_short h)) }
        ensures session { self.new.session ≡ self.old.session }
    {
        self.debuggee.poll(alloc)
    }
}

impl<D: HasMail + Drop> Session<D> {
    /// Exchanges the debuggee's mail: it has what is given then, and what it had is handed out. It takes no memory.
    pub fn exchange(&mut self, given: D::Mail) -> D::Mail
        ensures out { result ≡ D.mail self.old.debuggee }
        ensures put { self.new ≡ over_debuggee (D.with_mail given self.old.debuggee) self.old }
    {
        self.debuggee.exchange(given)
    }
}

/// Gives a buffer back: with what a step wrote, where it was made.
pub(crate) fn give_back(outbox: Outbox, is_made: bool, out: &mut Vec<u8>)
    ensures made { IsTrue is_made → out.new.items ≡ outbox.before ++ outbox.bytes }
    ensures not_made { is_made ≡ false → out.new.items ≡ outbox.before }
{
    *out = if is_made {
        outbox.into_buffer()
    } else {
        outbox.into_front()
    };
}

/// Keeps a request in a table that has room for it.
pub(crate) fn put_in(kept: &mut Outstanding, request: Entry)
    requires new { contains_seq request.seq kept.old.kept ≡ false }
    requires room { length kept.old.kept < kept.old.room }
    ensures kept { kept.new ≡ record kept.old { kept = kept.old.kept ++ kept_unparked request ∷ [] } }
    ensures orderly { IsOrderlyRequests kept.new }
{
    match kept.put(request) {
        Ok(()) => {}
        Err(PutFault::Repeated(_)) => unreachable!(),
        Err(PutFault::Full(_)) => unreachable!(),
    }
}
