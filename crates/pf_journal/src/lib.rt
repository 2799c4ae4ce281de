//! The journal of a volume: where the block of each mount lies in each position, and its bytes.
#![tactic(auto)]

mod blocks;
mod journal;
mod laws;
mod layouts;
mod places;

pub use blocks::{read_block, spell_block};
pub use journal::{Journal, JournalFull};
pub use laws::{
    journals_in_chunks_have_one_list, layouts_have_homes, places_are_apart, places_are_homes,
    rooms_have_layouts, spelled_blocks_are_read, spellings_are_apart,
};
pub use layouts::Layout;
pub use places::place_of;
