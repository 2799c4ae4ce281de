//! The cell and its passes.
use crate::view::{LeaderView, Published};
use crossbeam_utils::atomic::seq_cell::{Pass, RuledSeqCell};
use pf_base::{ServerId, Term};

/// The leader that was published last.
#[derive(Drop)]
pub struct LeaderCell {
    pub(crate) cell: RuledSeqCell<[u64; 2], LeaderView, Published, 2>,
}

/// What one thread has seen of a leader cell. The first pass keeps the pair that it published last.
#[derive(Drop)]
pub struct LeaderPass {
    pub(crate) pass: Pass<[u64; 2], LeaderView>,
    pub(crate) term: Term,
    pub(crate) server: ServerId,
}
