//! How a server catches up.
ghost use Rattle.std.specs.Prelude.{◌≡◌, if◌then◌else◌, nat_lt};
ghost use Rattle.pf_server_leader.specs.declared.ways.SubmitPlan.TheVariants.{Image, Stream};

use crate::ways::SubmitPlan;
use pf_base::Slot;

/// How a server catches up that has applied each slot up to `known`, with a leader whose checkpoint is at `base`: one that has not
/// applied all that the checkpoint has needs the sectors, any other the entries above the checkpoint.
pub fn plan(known: Slot, base: Slot) -> SubmitPlan
    ensures { result ≡ (if nat_lt known base then Image else Stream) }
{
    if known < base {
        return SubmitPlan::Image;
    }
    SubmitPlan::Stream
}
