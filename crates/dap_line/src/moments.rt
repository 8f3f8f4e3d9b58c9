//! Moments and sources, as they are told, and what comes of them.
ghost use Rattle.std.specs.Prelude.{◌≡◌, IfOk, IfErr, Ok};
ghost use Rattle.dap_recording.specs.Reading.{read_moment, sources_of};
ghost use Rattle.dap_line.specs.Moments.{IsComing, Fails, IfRefused, IsBadMoment, AreBadSources};

use crate::refusal::Refusal;
use crate::told::{Told, Unread};
use dap_json::Tree;
use dap_live::Coming;
use dap_recording::{RecordingFault, Snapshot, Sources, Texts};

/// The moment that is told, over the sources.
fn moment_in(texts: &mut Texts, sources: &Sources, moment: &Tree) -> Result<Snapshot, Unread>
    ensures is { IfOk result (λ shows. read_moment sources.now moment.now ≡ Ok shows) }
    ensures fails { IfErr result (IfRefused (IsBadMoment sources.now moment.now)) }
{
    match Snapshot::read(texts, sources, moment) {
        Ok(shows) => Ok(shows),
        Err(RecordingFault::BadKey { key }) => Err(Unread::Refused(Refusal::BadMoment(key))),
        // What is JSON is refused for a key alone.
        Err(_) => Err(Unread::OutOfMemory),
    }
}

/// The sources that are told.
fn sources_in(texts: &mut Texts, sources: &Tree) -> Result<Sources, Unread>
    ensures are { IfOk result (λ read. sources_of sources.now ≡ Ok read) }
    ensures fails { IfErr result (IfRefused (AreBadSources sources.now)) }
{
    match Sources::read(texts, sources) {
        Ok(read) => Ok(read),
        Err(RecordingFault::BadKey { key }) => Err(Unread::Refused(Refusal::BadSources(key))),
        Err(_) => Err(Unread::OutOfMemory),
    }
}

/// What comes of what is told. A moment is read over the sources.
pub fn coming_of(texts: &mut Texts, sources: &Sources, told: Told) -> Result<Coming, Unread>
    ensures comes { IfOk result (IsComing sources.now told) }
    ensures fails { IfErr result (Fails sources.now told) }
{
    match told {
        Told::Output {
            category,
            text,
            more,
        } => Ok(Coming::Output {
            category,
            text,
            more,
        }),
        Told::Stopped {
            reason,
            thread,
            moment,
            later,
            more,
        } => match moment_in(texts, sources, &moment) {
            Ok(shows) => Ok(Coming::Stopped {
                reason,
                thread,
                shows,
                later,
                more,
            }),
            Err(unread) => Err(unread),
        },
        Told::Continued { thread } => Ok(Coming::Continued { thread }),
        Told::Exited { code } => Ok(Coming::Exited { code }),
        Told::Learned {
            text,
            value,
            holder,
            more,
        } => Ok(Coming::Learned {
            text,
            value,
            holder,
            more,
        }),
        Told::NoValue { text, why } => Ok(Coming::NoValue { text, why }),
        Told::Variables { holder, variables } => Ok(Coming::Variables { holder, variables }),
        Told::Loaded { sources: more } => match sources_in(texts, &more) {
            Ok(read) => Ok(Coming::Sources(read)),
            Err(unread) => Err(unread),
        },
    }
}
