//! What an adapter offers, written as the body of the response to `initialize`: a flag for each of its gates that is set, and
//! what stands beside.
//!
//! Specification, "InitializeResponse" and "Capabilities".
ghost use Rattle.std.specs.Prelude.{◌≡◌, IfOk, OnOk};
ghost use Rattle.dap_body.specs.PrivateText.{wrote_row, HasNoFloats, HasSoundFields, IsSoundRow, PutsFlags};
ghost use Rattle.dap_body.specs.ResponseBody.{flag_fields, initialize_row};

use crate::beside::{fit_members, put_before, put_left, put_none};
use crate::row::put_flag_if_set;
use dap_command::{Capabilities, Gate};
use dap_json::{Member, More};
use json::Writer;
use std::alloc::AllocError;

/// Writes the flags of these gates, each at its place among the members, and gives the members that come behind.
fn put_flags<'m>(
    out: &mut Writer,
    capabilities: &Capabilities,
    gates: &[Gate],
    members: &'m [Member],
) -> Result<&'m [Member], AllocError>
    requires { HasNoFloats members.now }
    ensures puts { IfOk result (λ left. PutsFlags capabilities.now gates.now members.now out.old.tokens left.now out.new.tokens) }
    ensures sound { OnOk result (HasSoundFields (flag_fields capabilities.now gates.now)) }
    ensures plain { IfOk result (λ left. HasNoFloats left.now) }
    ensures before { out.new.before ≡ out.old.before }
{
    let mut left = members;
    for gate in gates {
        left = put_before(out, gate.flag(), left)?;
        put_flag_if_set(out, gate.flag(), capabilities.has(*gate))?;
    }
    Ok(left)
}

/// Writes the fields of a body that offers these.
pub(crate) fn write_offers(
    out: &mut Writer,
    capabilities: &Capabilities,
    more: &More,
) -> Result<(), AllocError>
    ensures adds { OnOk result (out.new.tokens ≡ wrote_row (initialize_row capabilities.now more.now) out.old.tokens) }
    ensures before { out.new.before ≡ out.old.before }
    ensures sound { OnOk result (IsSoundRow (initialize_row capabilities.now more.now)) }
{
    let gates = [
        Gate::BreakpointLocations,
        Gate::Cancel,
        Gate::Completions,
        Gate::ConfigurationDone,
        Gate::ExceptionInfo,
        Gate::FunctionBreakpoints,
        Gate::LoadedSources,
        Gate::Modules,
        Gate::Restart,
        Gate::SetVariable,
        Gate::StepBack,
        Gate::Terminate,
    ];
    let left = put_none(out, "scopes", fit_members(more))?;
    let left = put_none(out, "stackFrames", left)?;
    let left = put_flags(out, capabilities, &gates, left)?;
    let left = put_none(out, "variables", left)?;
    let left = put_none(out, "variablesReference", left)?;
    put_left(out, left)
}
