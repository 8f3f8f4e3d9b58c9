//! A run of a recording that is under way: what it writes, and how it ends.
ghost use Rattle.std.specs.Prelude.{◌≡◌, ◌⊎◌, ◌≤◌, ◌-◌, length, take, drop, IfSome, Some, None};
ghost use Rattle.std.specs.Str.{IsCharBoundary};
ghost use Rattle.dap_replay.specs.PrivateHeld.{output_left, output_in, IsOutputWhole, IsReady};
ghost use Rattle.dap_replay.specs.Played.{first_piece};

use crate::recorded::Going;
use dap_recording::{Moment, piece_length};

/// The run past the moments whose output is used up.
pub(crate) fn skipped(moments: &[Moment], going: Going) -> Going
    requires { IsOutputWhole moments.now (Some going) }
    ensures whole { IsOutputWhole moments.now (Some result) }
    ensures same { first_piece (output_left moments.now result) ≡ first_piece (output_left moments.now going) }
    ensures kept { (result.to ≡ going.to) × (result.paused ≡ going.paused) }
    ensures ready { IsReady moments.now result }
{
    let mut going = going;
    while going.moment <= going.last
        && let Some(moment) = moments.get(going.moment)
    {
        if going.told < moment.output.len() {
            return going;
        }
        going.moment += 1;
        going.told = 0;
    }
    going
}

/// The text without the bytes that were told.
fn rest(text: &str, told: usize) -> &str
    requires { (told ≡ 0) ⊎ IsCharBoundary text.now told }
    ensures { result.now ≡ drop told text.now }
{
    if told == 0 {
        return text;
    }
    text.split_at(told).1
}

/// The next piece of output, and the run after it.
pub(crate) fn next_piece(moments: &[Moment], going: Going) -> Option<(&str, Going)>
    requires whole { IsOutputWhole moments.now (Some going) }
    requires ready { IsReady moments.now going }
    ensures piece { IfSome result (λ r. first_piece (output_left moments.now going) ≡ Some (r.0.now, output_left moments.now r.1)) }
    ensures none { result ≡ None → first_piece (output_left moments.now going) ≡ None }
    ensures whole { IfSome result (λ r. IsOutputWhole moments.now (Some r.1)) }
    ensures kept { IfSome result (λ r. (r.1.to ≡ going.to) × (r.1.paused ≡ going.paused)) }
    ensures text { IfSome result (λ r. r.0.now ≡ take (r.1.told - going.told) (drop going.told (output_in moments.now going.moment))) }
    ensures short { IfSome result (λ r. length r.0.now ≤ 128) }
{
    if going.moment > going.last {
        return None;
    }
    let moment = moments.get(going.moment)?;
    let rest = rest(moment.output.as_str(), going.told);
    let n = piece_length(rest);
    let (piece, _) = rest.split_at(n);
    let told = going.told + n;
    Some((piece, Going { told, ..going }))
}
