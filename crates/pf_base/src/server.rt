//! The servers of a group.
ghost use Rattle.std.specs.Prelude.{◌↔◌, ◌<◌, IsTrue};

/// The number of a server of a group. Every call and event that takes one has the condition that it is below 3.
pub type ServerId = u8;

/// The count of servers of a group.
const SERVERS: u8 = 3;

/// Whether a number is that of a server. What reads bytes refuses any other.
pub fn is_server(number: u8) -> bool
    ensures { IsTrue result ↔ (number < 3) }
{
    number < SERVERS
}
