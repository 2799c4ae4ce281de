//! The label of a mark: short enough to stand beside it.
ghost use Rattle.std.specs.Prelude.{◌≡◌, ◌++◌, OnOk};
ghost use Rattle.pf_draw_marks.specs.Labels.{kind_text, mount_label, named, passage_text, server_label};

use crate::{MountMark, PacketKind, Passage, ServerMark};
use pf_base::NoMemory;
use pf_text::{put_decimal, put_text};

/// Puts words, and a number behind them.
pub(crate) fn put_named(out: &mut Vec<u8>, words: &[u8], number: u64) -> Result<(), NoMemory>
    ensures { OnOk result (out.new.items ≡ out.old.items ++ named words.now number) }
{
    put_text(out, words)?;
    put_decimal(out, number)
}

impl PacketKind {
    fn put(&self, out: &mut Vec<u8>) -> Result<(), NoMemory>
        ensures { OnOk result (out.new.items ≡ out.old.items ++ kind_text self.now) }
    {
        match self {
            PacketKind::RequestVote => put_text(out, b"vote?"),
            PacketKind::Vote => put_text(out, b"vote"),
            PacketKind::Accept(slot) => put_named(out, b"accept ", *slot),
            PacketKind::Ack(slot) => put_named(out, b"ack ", *slot),
            PacketKind::Nack => put_text(out, b"nack"),
            PacketKind::Commit(slot) => put_named(out, b"commit ", *slot),
            PacketKind::Probe(number) => put_named(out, b"probe ", *number),
            PacketKind::ProbeOk(number) => put_named(out, b"probe ok ", *number),
            PacketKind::Image(slot) => put_named(out, b"image ", *slot),
        }
    }
}

impl Passage {
    /// Puts the number of the packet, and its kind.
    pub(crate) fn put(&self, out: &mut Vec<u8>) -> Result<(), NoMemory>
        ensures { OnOk result (out.new.items ≡ out.old.items ++ passage_text self.now) }
    {
        put_decimal(out, u64::from(self.packet))?;
        put_text(out, b" ")?;
        self.kind.put(out)
    }

    /// Puts it with words behind it.
    fn put_with(&self, out: &mut Vec<u8>, words: &[u8]) -> Result<(), NoMemory>
        ensures { OnOk result (out.new.items ≡ out.old.items ++ passage_text self.now ++ words.now) }
    {
        self.put(out)?;
        put_text(out, words)
    }

    /// Puts it with words and a number behind it.
    fn put_to(&self, out: &mut Vec<u8>, words: &[u8], number: u64) -> Result<(), NoMemory>
        ensures { OnOk result (out.new.items ≡ out.old.items ++ passage_text self.now ++ named words.now number) }
    {
        self.put(out)?;
        put_named(out, words, number)
    }
}

/// Puts where a lane ends.
fn put_end(out: &mut Vec<u8>, base: u64, upto: u64) -> Result<(), NoMemory>
    ensures { OnOk result (out.new.items ≡ out.old.items ++ server_label (ServerMark.Ends base upto)) }
{
    put_named(out, b"base ", base)?;
    put_named(out, b", applied ", upto)
}

impl ServerMark {
    /// Puts the label of the mark. `NoMemory` (1) may have put a part of it.
    pub fn put_label(&self, out: &mut Vec<u8>) -> Result<(), NoMemory>
        ensures { OnOk result (out.new.items ≡ out.old.items ++ server_label self.now) }
    {
        match self {
            ServerMark::Sends(passage) => passage.put_to(out, b" to ", u64::from(passage.to)),
            ServerMark::Takes(passage) => passage.put(out),
            ServerMark::Refuses(passage) => passage.put_with(out, b" refused"),
            ServerMark::Misses(passage) => passage.put_with(out, b" lost"),
            ServerMark::Awaits(passage) => passage.put_with(out, b" left"),
            ServerMark::Stores { slot, .. } => put_named(out, b"store ", *slot),
            ServerMark::Commits(slot) => put_named(out, b"commit ", *slot),
            ServerMark::Applies(slot) => put_named(out, b"apply ", *slot),
            ServerMark::Acknowledges(slot) => put_named(out, b"tell ", *slot),
            ServerMark::Stands(term) => put_named(out, b"stands ", *term),
            ServerMark::Leads(term) => put_named(out, b"leads ", *term),
            ServerMark::Serves(term) => put_named(out, b"serves ", *term),
            ServerMark::Follows(term) => put_named(out, b"follows ", *term),
            ServerMark::Stops => put_text(out, b"stops"),
            ServerMark::Halts => put_text(out, b"halts"),
            ServerMark::Restarts => put_text(out, b"restarts"),
            ServerMark::Checkpoint(slot) => put_named(out, b"checkpoint ", *slot),
            ServerMark::Image(slot) => put_named(out, b"image ", *slot),
            ServerMark::Snapshot(slot) => put_named(out, b"snapshot ", *slot),
            ServerMark::IsDown => put_text(out, b"down"),
            ServerMark::Ends { base, upto } => put_end(out, *base, *upto),
        }
    }
}

impl MountMark {
    /// Puts the label of the mark. `NoMemory` (1) may have put a part of it.
    pub fn put_label(&self, out: &mut Vec<u8>) -> Result<(), NoMemory>
        ensures { OnOk result (out.new.items ≡ out.old.items ++ mount_label self.now) }
    {
        match self {
            MountMark::Mounts => put_text(out, b"mounts"),
            MountMark::Ends => put_text(out, b"killed"),
            MountMark::Begins(call) => put_text(out, call.as_slice()),
            MountMark::Answers(answer) => put_text(out, answer.as_slice()),
            MountMark::Ballot(position) => put_named(out, b"ballot ", *position),
            MountMark::Decides(position) => put_named(out, b"decided ", *position),
        }
    }
}
