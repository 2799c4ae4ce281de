//! Memory for the body of the next record.
use std::alloc::Global;
use std::marker::Model;

/// The most bytes of memory that is kept: the body of an entry has fewer.
const MOST: usize = 8192;

/// Memory for the body of the next record, so that not each takes its own. Contracts see nothing of it.
#[derive(Drop)]
pub(crate) struct SpareBytes {
    memory: Option<Vec<u8>>,
}

impl Model for SpareBytes {
    ghost Value = { Unit {0} };

    ghost view = { λ _. tt };
}

impl SpareBytes {
    /// None is kept yet.
    pub(crate) fn none() -> SpareBytes {
        SpareBytes { memory: None }
    }

    /// The memory that was kept last, whatever stands in it; else new one, which takes none before it is used.
    pub(crate) fn take(&mut self, alloc: Global) -> Vec<u8> {
        match self.memory.take() {
            Some(memory) => memory,
            None => Vec::new(alloc),
        }
    }

    /// Keeps the memory, unless it is large.
    pub(crate) fn keep(&mut self, memory: Vec<u8>) {
        if memory.capacity() <= MOST {
            self.memory = Some(memory);
        }
    }
}
