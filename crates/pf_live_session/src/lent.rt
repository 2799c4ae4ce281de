//! A gate that its owner lends to a line.
use pf_group_copy::Gate;

/// A gate that its owner lends to a line.
#[derive(Clone, Copy)]
pub(crate) struct LentGroup<'a, G>(pub(crate) &'a G);

impl<G: Gate> Gate for LentGroup<'_, G> {
    fn before(&self, worker: u32) {
        self.0.before(worker);
    }

    fn after(&self, worker: u32) {
        self.0.after(worker);
    }
}
