//! A source and a sink that remember what passed through them, so that a refused line can be shown.
ghost use Rattle.std.specs.Prelude.{◌≡◌, ◌≤◌, IfOk, length};

use pf_base::NoMemory;
use pf_io::{Failed, Sink, Source};
use std::alloc::Global;

/// The most bytes that a tail keeps. Half of them are forgotten at once.
const KEPT: usize = 16_384;

const HALF: usize = 8_192;

/// The bytes of the first line of what is written, as far as they are kept.
const FRONT: usize = 64;

/// The last bytes of a text.
#[derive(Drop)]
struct Window {
    kept: Vec<u8>,
    count: usize,
    /// The line feeds before the bytes that are kept.
    lines: u64,
    ghost room: { length kept.items ≡ 16384 },
    ghost within: { count ≤ 16384 },
}

impl Window {
    /// Forgets the first half.
    fn forget_half(&mut self)
        ensures { self.new.count ≤ 8192 }
    {
        let first = self.kept.iter().take(HALF);
        let lines = first.filter(|byte| **byte == b'\n').count();
        self.lines = self.lines.saturating_add(lines as u64);
        self.kept.copy_within(HALF.., 0);
        self.count = self.count.saturating_sub(HALF);
    }

    /// At most 8,192 bytes more.
    fn add(&mut self, bytes: &[u8])
        requires { length bytes.now ≤ 8192 }
    {
        if bytes.len() > KEPT - self.count {
            self.forget_half();
        }
        self.kept[self.count..self.count + bytes.len()].copy_from_slice(bytes);
        self.count += bytes.len();
    }

    /// More bytes.
    fn keep(&mut self, bytes: &[u8]) {
        for piece in bytes.chunks(HALF) {
            self.add(piece);
        }
    }
}

/// A source that keeps the last bytes which it gave: at least 8,192, if it gave so many.
#[derive(Drop)]
pub struct Tail<S> {
    inner: S,
    window: Window,
}

impl<S: Source + Drop> Tail<S> {
    /// A source that gave nothing yet. The one error is `NoMemory` (1).
    pub fn new(alloc: Global, inner: S) -> Result<Tail<S>, NoMemory>
        ensures left { IfOk result (λ tail. ⟦<Tail<S> as Source>⟧.left tail ≡ S.left inner) }
        ensures faults { IfOk result (λ tail. ⟦<Tail<S> as Source>⟧.faults tail ≡ S.faults inner) }
    {
        let kept = vec![in alloc; 0u8; KEPT]?;
        Ok(Tail {
            inner,
            window: Window {
                kept,
                count: 0,
                lines: 0,
            },
        })
    }

    /// A line of what was given, from 1 on, without its line feed. `None` where it is forgotten or did not come.
    pub fn line(&self, number: u64) -> Option<&[u8]> {
        let before = number.checked_sub(self.window.lines.saturating_add(1))?;
        let kept = &self.window.kept[..self.window.count];
        kept.split(|byte| *byte == b'\n').nth(before as usize)
    }
}

impl<S: Source> Source for Tail<S> {
    ghost left = { λ tail. S.left tail.inner };

    ghost faults = { λ tail. S.faults tail.inner };

    fn read(&mut self, buf: &mut [u8]) -> Result<usize, Failed> {
        let count = self.inner.read(buf)?;
        self.window.keep(&buf[..count]);
        Ok(count)
    }
}

/// The first bytes of a text.
#[derive(Drop)]
struct Beginning {
    kept: [u8; FRONT],
    count: usize,
    ghost within: { count ≤ 64 },
}

impl Beginning {
    /// More bytes, as far as there is room.
    fn keep(&mut self, bytes: &[u8]) {
        let count = bytes.len().min(FRONT - self.count);
        self.kept[self.count..self.count + count].copy_from_slice(&bytes[..count]);
        self.count += count;
    }
}

/// A sink that keeps the first 64 bytes which it took.
#[derive(Drop)]
pub struct Front<K> {
    inner: K,
    beginning: Beginning,
}

impl<K: Sink> Front<K> {
    /// A sink that took nothing yet.
    pub fn new(inner: K) -> Front<K>
        ensures taken { ⟦<Front<K> as Sink>⟧.taken result ≡ K.taken inner }
        ensures faults { ⟦<Front<K> as Sink>⟧.faults result ≡ K.faults inner }
    {
        Front {
            inner,
            beginning: Beginning {
                kept: [0; FRONT],
                count: 0,
            },
        }
    }

    /// The first bytes that were taken.
    pub fn bytes(&self) -> &[u8] {
        &self.beginning.kept[..self.beginning.count]
    }
}

impl<K: Sink> Sink for Front<K> {
    ghost taken = { λ front. K.taken front.inner };

    ghost faults = { λ front. K.faults front.inner };

    fn write(&mut self, bytes: &[u8]) -> Result<usize, Failed> {
        let count = self.inner.write(bytes)?;
        self.beginning.keep(&bytes[..count]);
        Ok(count)
    }
}
