//! Numbers, bytes, runs of bytes and words as text: how a script spells them, and how a report does.
#![tactic(auto)]

mod put;
mod read;
mod words;
mod zeros;

pub use put::{put_decimal, put_runs, put_text};
pub use read::{decimal, hex_byte};
pub use words::{first_words, trim};
pub use zeros::put_runs_and_zeros;
