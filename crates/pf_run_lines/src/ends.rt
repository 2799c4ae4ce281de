//! Writing all of a text, and writing it nowhere.
ghost use Rattle.std.specs.Prelude.{◌≤◌, None, OnOk, OnErr};
ghost use Rattle.std.specs.Io.KnownBytes.{Appends};
ghost use Rattle.pf_io.specs.Causes.{Rose};
ghost use Rattle.pf_run_lines.specs.Ends.{AppendsFront};

use pf_io::{Failed, Sink};

/// Writes all the bytes. At `Err` the sink has failed, and took a front of them.
pub fn write_all<K: Sink>(sink: &mut K, bytes: &[u8]) -> Result<(), Failed>
    ensures ok { OnOk result (Appends (K.taken sink.old) (K.taken sink.new) bytes.now) }
    ensures front { OnErr result (AppendsFront (K.taken sink.old) (K.taken sink.new) bytes.now) }
    ensures later { K.faults sink.old ≤ K.faults sink.new }
    ensures cause { OnErr result (Rose (K.faults sink.old) (K.faults sink.new)) }
{
    let mut rest = bytes;
    while !rest.is_empty() {
        let count = sink.write(rest)?;
        rest = &rest[count..];
    }
    Ok(())
}

/// A sink that takes all bytes, and keeps none.
#[derive(Drop)]
pub struct Nowhere;

impl Sink for Nowhere {
    ghost taken = { λ _. None };

    ghost faults = { λ _. 0 };

    fn write(&mut self, bytes: &[u8]) -> Result<usize, Failed> {
        Ok(bytes.len())
    }
}
