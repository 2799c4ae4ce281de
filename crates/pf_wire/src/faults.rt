//! What a packet's bytes are refused with.
ghost use Rattle.std.specs.Prelude.{◌≡◌};
ghost use Rattle.pf_wire.specs.Faults.{wire_fault_number};

use thiserror::Error;

/// Why bytes were not read as a packet.
#[derive(Clone, Copy, Debug, PartialEq, Eq, Error)]
pub enum WireFault {
    /// Memory has run out.
    #[error("no memory")]
    NoMemory,
    /// No packet is spelled so.
    #[error("bad packet")]
    BadPacket,
}

impl WireFault {
    /// The number of this refusal.
    pub fn number(&self) -> u32
        ensures { result ≡ wire_fault_number self.now }
    {
        match self {
            WireFault::NoMemory => 1,
            WireFault::BadPacket => 31,
        }
    }
}
