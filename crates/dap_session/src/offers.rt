//! Which offers fit, so that a session may have them.
ghost use Rattle.std.specs.Prelude.{◌≡◌, IfOk, IsTrue};
ghost use Rattle.dap_command.specs.Offer.{usual_offer};
ghost use Rattle.dap_plan.specs.Session.{offers_fit};

use dap_command::Offer;
use dap_frame::Limits;
use dap_message::laws::what_is_around_is_short;
use dap_message::offer_fits;
use std::alloc::{AllocError, Global};

/// Whether a session within these limits may have the offers: whether their text leaves 512 bytes of the longest body for what is
/// around it in the response to `initialize`.
pub fn offers_fit(alloc: Global, limits: Limits, offers: &Offer) -> Result<bool, AllocError>
    ensures { IfOk result (λ fit. fit ≡ offers_fit limits offers.now) }
{
    offer_fits(alloc, offers, limits.body())
}

/// All that is served, and no more. It fits within any limits.
pub fn usual_offers(limits: Limits) -> Offer
    ensures usual { result ≡ usual_offer }
    ensures fit { IsTrue (offers_fit limits result) }
{
    // For the proof: a body may have 1024 bytes at least.
    let _ = limits.body();
    what_is_around_is_short();
    Offer::usual()
}
