//! Entries, votes and the records of a chunk log as bytes, both ways.
#![tactic(auto)]

mod bodies;
mod bounds;
mod entries;
mod faults;
mod keys;
mod laws;
mod reader;
mod reading;
mod sizes;
mod spelled;
mod tables;
mod thin;
mod votes;
mod writer;
mod writing;

pub use bodies::{spell_entry, spell_image, spell_merged};
pub use bounds::Bounds;
pub use entries::read_entry;
pub use faults::ReadFault;
pub use laws::{
    bodies_have_their_sizes, bodies_tell_their_records, parts_are_exact,
    second_format_has_the_first,
};
pub use reader::ByteReader;
pub use reading::read_record;
pub use sizes::{entry_size, vote_size};
pub use spelled::Spelled;
pub use tables::{read_sectors, read_slots};
pub use thin::ThinSectors;
pub use votes::read_vote;
pub use writer::Writer;
pub use writing::{spell_record, write_entry, write_sectors, write_slots, write_vote};
