//! Events that touch no disk.
ghost use Rattle.std.specs.Prelude.{◌≡◌};
ghost use Rattle.pf_group_network.specs.Going.{is_quiet_event};

use pf_protocol::Event;

/// Whether the event touches no disk, whatever it is answered: a packet is lost, a server stops, or a job is claimed or comes back.
pub fn is_quiet(event: &Event) -> bool
    ensures { result ≡ is_quiet_event event.now }
{
    matches!(
        event,
        Event::Lose(_)
            | Event::Stop(_)
            | Event::Claim
            | Event::Finish { .. }
            | Event::GiveBack { .. }
    )
}
