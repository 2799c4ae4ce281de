//! What is called round the copying of a job.

/// Called round the copying of one job, outside of any turn. `worker` is the job's place in its round.
pub trait Gate {
    fn before(&self, worker: u32);

    fn after(&self, worker: u32);
}

/// A gate that does nothing.
#[derive(Clone, Copy, Debug)]
pub struct OpenGate;

impl Gate for OpenGate {
    fn before(&self, _worker: u32) {}

    fn after(&self, _worker: u32) {}
}
