//! What the crates of the simulator share: numbers, sectors, ranges, the bytes of a write, and what clients ask.
#![tactic(auto)]

mod asks;
mod bytes;
mod calls;
mod data;
mod errors;
mod filled;
mod live_end;
mod numbers;
mod payload;
mod range;
mod server;
mod shared;
mod sizes;
mod value;

pub use asks::{Ask, Reply};
pub use bytes::{Bytes, Names};
pub use calls::{Call, CallName};
pub use data::Data;
pub use errors::{BadRange, NoMemory};
pub use filled::{Filled, Sectors};
pub use live_end::LiveEnd;
pub use numbers::{get_u16, get_u32, get_u64, put_u16, put_u32, put_u64};
pub use payload::{Payload, PayloadPlace};
pub use range::Range;
pub use server::{ServerId, is_server};
pub use shared::{Piece, Shared};
pub use sizes::{FIRST_DATA_BLOCK, HALF_BYTES, MOST_FILE_BYTES, SECTOR_BYTES};
pub use value::Value;

/// A place in the log of a group. The first is 1.
pub type Slot = u64;

/// A term of leadership. The first is 1.
pub type Term = u64;

/// The bytes of a sector.
pub type Sector = [u8; 512];
