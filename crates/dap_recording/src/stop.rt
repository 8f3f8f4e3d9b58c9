//! Why the rows of keys are not read to their end: a place is bad, or memory is refused.
ghost use Rattle.std.specs.Prelude.{◌≡◌, IfOk};
ghost use Rattle.serde_json.specs.View.{view};
ghost use Rattle.dap_recording.specs.Places.{here as here_of, within as within_of, element as element_of, other_than};
ghost use Rattle.dap_recording.specs.PrivateStops.{IfBad, Finds, StopsWithin};

use crate::causes;
use crate::place::{BadCause, BadPlace, Element, JsonKind};
use crate::reading::{RecordingFault, RecordingKey};
use dap_json::List;
use serde_json::Value;
use std::alloc::{AllocError, AllocFailed, Global};

/// Why a row of keys is not read. A text is read often, so the place is behind a pointer.
#[derive(Debug, Drop)]
pub(crate) enum Stop {
    Bad(Box<BadPlace>),
    OutOfMemory,
}

impl From<AllocError> for Stop {
    ghost use Rattle.dap_recording.specs.declared.stop.Stop.TheVariants.{OutOfMemory};

    ghost from_gives = { λ _ e. e ≡ OutOfMemory };

    fn from(_refused: AllocError) -> Stop {
        Stop::OutOfMemory
    }
}

impl<T: Drop> From<AllocFailed<T>> for Stop {
    ghost use Rattle.dap_recording.specs.declared.stop.Stop.TheVariants.{OutOfMemory};

    ghost from_gives = { λ _ e. e ≡ OutOfMemory };

    fn from(_refused: AllocFailed<T>) -> Stop {
        Stop::OutOfMemory
    }
}

impl From<Stop> for RecordingFault {
    ghost use Rattle.dap_recording.specs.StopFaults.{fault_of_stop};

    ghost from_gives = { λ stop e. e ≡ fault_of_stop stop };

    fn from(stop: Stop) -> RecordingFault {
        match stop {
            Stop::Bad(place) => RecordingFault::BadKey { key: place.key },
            Stop::OutOfMemory => RecordingFault::OutOfMemory,
        }
    }
}

fn bad(alloc: Global, place: BadPlace) -> Stop
    ensures { IfBad result (λ found. found ≡ place) }
{
    match Box::new(alloc, place) {
        Ok(place) => Stop::Bad(place),
        Err(_) => Stop::OutOfMemory,
    }
}

/// At a key of this very object.
pub(crate) fn here(alloc: Global, key: RecordingKey, cause: BadCause) -> Stop
    ensures { IfBad result (λ place. place ≡ here_of key cause) }
{
    let place = BadPlace {
        within: List::new(Vec::new(alloc)),
        key,
        element: None,
        cause,
    };
    bad(alloc, place)
}

/// What stands at a key is of another kind than is due.
pub(crate) fn other(alloc: Global, key: RecordingKey, found: &Value, due: JsonKind) -> Stop
    ensures { IfBad result (λ place. place ≡ here_of key (other_than due (view found.now))) }
{
    here(alloc, key, causes::other(found, due))
}

/// An element of the array at a key is an object.
pub(crate) fn element(
    alloc: Global,
    value: &Value,
    key: RecordingKey,
    index: usize,
) -> Result<(), Stop>
    ensures { Finds result (element_of key index (view value.now)) }
{
    if value.is_object() {
        return Ok(());
    }
    let place = BadPlace {
        within: List::new(Vec::new(alloc)),
        key,
        element: Some(index as u64),
        cause: causes::other(value, JsonKind::Object),
    };
    Err(bad(alloc, place))
}

/// A place in an element of an array.
fn place_within(place: BadPlace, array: RecordingKey, index: usize) -> Result<BadPlace, AllocError>
    ensures { IfOk result (λ outer. outer ≡ within_of array index place) }
{
    let BadPlace {
        within,
        key,
        element,
        cause,
    } = place;
    let mut elements = within.into_vec();
    let outer = Element {
        array,
        index: index as u64,
    };
    elements.insert(0, outer)?;
    Ok(BadPlace {
        within: List::new(elements),
        key,
        element,
        cause,
    })
}

/// What stops the reading of an element of an array.
pub(crate) fn within(alloc: Global, stop: Stop, array: RecordingKey, index: usize) -> Stop
    ensures { StopsWithin array index stop result }
{
    match stop {
        Stop::Bad(place) => match place_within(Box::into_inner(place), array, index) {
            Ok(outer) => bad(alloc, outer),
            Err(_) => Stop::OutOfMemory,
        },
        Stop::OutOfMemory => Stop::OutOfMemory,
    }
}
