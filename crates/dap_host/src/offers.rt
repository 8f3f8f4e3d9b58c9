//! What a host's file says that its adapter offers, and which commands the host answers.
ghost use Rattle.std.specs.Prelude.{◌≡◌, ◌≢◌, IfOk, IfErr, Some, Ok, Err, IsTrue, codes};
ghost use Rattle.dap_command.specs.declared.opening.OpeningFault.TheVariants as opening;
ghost use Rattle.dap_json.specs.Field.{tree_at};
ghost use Rattle.serde_json.specs.View.{view};
ghost use Rattle.dap_plan.specs.Session.{offers_fit};
ghost use Rattle.dap_host.specs.Offers.{opening_at, offers_at, or_fault, offers_of, file_offers, RefusesOffers};
ghost use Rattle.dap_host.specs.declared.offers.OffersFault.{OffersFault};

use dap_adapter::{Offer, OfferFault, Opening, OpeningFault, offers_fit};
use dap_frame::Limits;
use dap_json::{ParseFault, Text, field, parse};
use serde_json::{Map, Value};
use std::alloc::{AllocError, Global};

/// Why what a file offers or opens is refused.
#[derive(Debug, Drop)]
pub enum OffersFault {
    /// What stands at `open` is no list of names, and of objects with a name.
    NotList,
    /// At `open` is this name, the first that can't be opened, or that stands before.
    BadName(Text),
    /// What stands at `offers` is no object.
    NotObject,
    /// At this key of `offers`, the first in byte order, is what can't be offered.
    BadKey(Text),
    /// The response that tells them would be too long: they take more than the limit on bodies has beyond 512 bytes.
    TooLarge,
    OutOfMemory,
}

impl From<OpeningFault> for OffersFault {
    ghost use Rattle.std.specs.Prelude.{◌≡◌};
    ghost use Rattle.dap_host.specs.Offers.{of_opening};

    ghost from_gives = { λ from fault. fault ≡ of_opening from };

    fn from(fault: OpeningFault) -> OffersFault {
        match fault {
            OpeningFault::NotList => OffersFault::NotList,
            OpeningFault::BadName(name) => OffersFault::BadName(name),
            OpeningFault::OutOfMemory => OffersFault::OutOfMemory,
        }
    }
}

impl From<OfferFault> for OffersFault {
    ghost use Rattle.std.specs.Prelude.{◌≡◌};
    ghost use Rattle.dap_host.specs.Offers.{of_offer};

    ghost from_gives = { λ from fault. fault ≡ of_offer from };

    fn from(fault: OfferFault) -> OffersFault {
        match fault {
            OfferFault::NotObject => OffersFault::NotObject,
            OfferFault::BadKey(key) => OffersFault::BadKey(key),
            OfferFault::OutOfMemory => OffersFault::OutOfMemory,
        }
    }
}

/// The commands that stand at `open` in an object.
fn opening_beside(alloc: Global, file: &Value) -> Result<Opening, OpeningFault>
    ensures opening { IfOk result (λ opened. opening_at (tree_at (codes "open") (view file.now)) ≡ Ok opened) }
    ensures fault { IfErr result (λ fault. fault ≢ opening.OutOfMemory → opening_at (tree_at (codes "open") (view file.now)) ≡ Err fault) }
{
    match field::present(file, "open") {
        None => Ok(Opening::none()),
        Some(given) => Opening::read(alloc, given),
    }
}

/// What stands at `offers` in an object, with these commands opened.
fn offers_with(alloc: Global, file: &Value, opened: Opening) -> Result<Offer, OffersFault>
    ensures offers { IfOk result (λ offers. or_fault (offers_at opened (tree_at (codes "offers") (view file.now))) ≡ Ok offers) }
    ensures fault { IfErr result (λ fault. fault ≢ OffersFault.OutOfMemory → or_fault (offers_at opened (tree_at (codes "offers") (view file.now))) ≡ Err fault) }
{
    let none = Value::Object(Map::new(alloc));
    let given = field::present(file, "offers").unwrap_or(&none);
    Ok(Offer::read_opening(alloc, given, opened)?)
}

/// What stands at `offers` in an object, with what stands at `open` opened.
fn offers_beside(alloc: Global, file: &Value) -> Result<Offer, OffersFault>
    ensures offers { IfOk result (λ offers. offers_of (Some (view file.now)) ≡ Ok offers) }
    ensures fault { IfErr result (λ fault. fault ≢ OffersFault.OutOfMemory → offers_of (Some (view file.now)) ≡ Err fault) }
{
    let opened = opening_beside(alloc, file)?;
    offers_with(alloc, file, opened)
}

/// The same of the JSON value that bytes are.
fn offers_in(alloc: Global, bytes: &[u8]) -> Result<Offer, OffersFault>
    ensures offers { IfOk result (λ offers. file_offers bytes.now ≡ Ok offers) }
    ensures fault { IfErr result (λ fault. fault ≢ OffersFault.OutOfMemory → file_offers bytes.now ≡ Err fault) }
{
    match parse(alloc, bytes) {
        Ok(file) => offers_beside(alloc, &file),
        Err(ParseFault::NotJson) => Ok(Offer::usual()),
        Err(ParseFault::OutOfMemory) => Err(OffersFault::OutOfMemory),
    }
}

/// What a file offers, which fits: the object at `offers`, as [`Offer::read_opening`] takes it, with the commands of the list at
/// `open`, as [`Opening::read`] takes it. Where nothing is at `offers` nothing is taken back, and where nothing is at `open`
/// nothing is opened; of what is no JSON it is all that is served.
pub fn read_offers(alloc: Global, limits: Limits, bytes: &[u8]) -> Result<Offer, OffersFault>
    ensures offers { IfOk result (λ offers. file_offers bytes.now ≡ Ok offers) }
    ensures fit { IfOk result (λ offers. IsTrue (offers_fit limits offers)) }
    ensures refused { IfErr result (RefusesOffers limits (file_offers bytes.now)) }
{
    let offers = offers_in(alloc, bytes)?;
    match offers_fit(alloc, limits, &offers) {
        Ok(true) => Ok(offers),
        Ok(false) => Err(OffersFault::TooLarge),
        Err(_) => Err(OffersFault::OutOfMemory),
    }
}
