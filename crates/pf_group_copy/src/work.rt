//! A job on its way.
use pf_base::Filled;
use pf_entry::Job;

/// A job that was claimed, and its sectors once they are copied.
#[derive(Drop)]
pub struct CopyWork {
    pub job: Job,
    pub filled: Option<Filled>,
}
