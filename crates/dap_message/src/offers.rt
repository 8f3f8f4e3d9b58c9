//! What an adapter offers, as the body of the response to `initialize`, and whether that fits.
//!
//! Specification, "InitializeResponse".
ghost use Rattle.std.specs.Prelude.{◌≡◌, IfOk, Some};
ghost use Rattle.dap_body.specs.Body.{data_in};
ghost use Rattle.dap_body.specs.ResponseBody.{offer_body};
ghost use Rattle.dap_message.specs.Lengths.{offer_fits};

use dap_body::{Body, append_body};
use dap_command::Offer;
use std::alloc::{AllocError, Global};

/// The bytes that what is around a body has at most.
const AROUND: usize = 512;

/// What is offered, as a body. It takes no memory.
pub fn body_of_offer(offer: &Offer) -> Result<Body, AllocError>
    ensures { IfOk result (λ body. data_in (Some body) ≡ Some (offer_body offer.now)) }
{
    Ok(Body::Initialize {
        capabilities: offer.gates(),
        more: offer.more.clone()?,
    })
}

/// Whether a response that offers this has at most so many bytes, whatever its numbers: whether its body leaves 512 of them.
pub fn offer_fits(alloc: Global, offer: &Offer, most: usize) -> Result<bool, AllocError>
    ensures { IfOk result (λ fits. fits ≡ offer_fits most offer.now) }
{
    let body = body_of_offer(offer)?;
    let mut text = Vec::new(alloc);
    append_body(alloc, &mut text, &body)?;
    Ok(most >= AROUND && text.len() <= most - AROUND)
}
