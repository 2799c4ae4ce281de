//! The title of a mark: what a reader who points at it is told.
ghost use Rattle.std.specs.Prelude.{◌≡◌, ◌++◌, OnOk};
ghost use Rattle.pf_draw_marks.specs.Titles.{content_text, deed_text, end_deed, mount_deed, mount_title, packet_deed, sectors_text, server_title, store_deed};

use crate::labels::put_named;
use crate::{Content, MountMark, Passage, ServerMark};
use pf_base::{NoMemory, ServerId, Slot, Term};
use pf_text::put_text;

/// Puts what is done to a packet: words, the packet with its term, and the server at its other end behind more words.
fn put_packet(
    out: &mut Vec<u8>,
    does: &[u8],
    passage: &Passage,
    end: &[u8],
    server: ServerId,
) -> Result<(), NoMemory>
    ensures { OnOk result (out.new.items ≡ out.old.items ++ packet_deed does.now passage.now end.now server) }
{
    put_text(out, does)?;
    passage.put(out)?;
    put_named(out, b" of term ", passage.term)?;
    put_named(out, end, u64::from(server))
}

fn put_sectors(out: &mut Vec<u8>, first: u64, count: u64) -> Result<(), NoMemory>
    ensures { OnOk result (out.new.items ≡ out.old.items ++ sectors_text first count) }
{
    put_named(out, b": ", count)?;
    put_named(out, b" sectors from ", first)
}

impl Content {
    fn put(&self, out: &mut Vec<u8>) -> Result<(), NoMemory>
        ensures { OnOk result (out.new.items ≡ out.old.items ++ content_text self.now) }
    {
        match self {
            Content::Sectors { first, count } => put_sectors(
                out,
                u64::from(*first),
                u64::from(*count),
            ),
            Content::Mark => put_text(out, b": a mark"),
            Content::Noop => put_text(out, b": nothing"),
        }
    }
}

fn put_store(out: &mut Vec<u8>, slot: Slot, term: Term, content: &Content) -> Result<(), NoMemory>
    ensures { OnOk result (out.new.items ≡ out.old.items ++ store_deed slot term content.now) }
{
    put_named(out, b" stores slot ", slot)?;
    put_named(out, b" of term ", term)?;
    content.put(out)
}

fn put_end(out: &mut Vec<u8>, base: Slot, upto: Slot) -> Result<(), NoMemory>
    ensures { OnOk result (out.new.items ≡ out.old.items ++ end_deed base upto) }
{
    put_named(out, b" ends with checkpoint ", base)?;
    put_named(out, b" and all slots applied up to ", upto)
}

impl ServerMark {
    /// Puts what the server does.
    fn put_deed(&self, out: &mut Vec<u8>) -> Result<(), NoMemory>
        ensures { OnOk result (out.new.items ≡ out.old.items ++ deed_text self.now) }
    {
        match self {
            ServerMark::Sends(passage) => put_packet(
                out,
                b" sends packet ",
                passage,
                b" to server ",
                passage.to,
            ),
            ServerMark::Takes(passage) => put_packet(
                out,
                b" takes packet ",
                passage,
                b" from server ",
                passage.from,
            ),
            ServerMark::Refuses(passage) => put_packet(
                out,
                b" refuses packet ",
                passage,
                b" from server ",
                passage.from,
            ),
            ServerMark::Misses(passage) => put_packet(
                out,
                b" misses packet ",
                passage,
                b" from server ",
                passage.from,
            ),
            ServerMark::Awaits(passage) => put_packet(
                out,
                b" awaits packet ",
                passage,
                b" from server ",
                passage.from,
            ),
            ServerMark::Stores {
                slot,
                term,
                content,
            } => put_store(out, *slot, *term, content),
            ServerMark::Commits(slot) => put_named(
                out,
                b" knows that the entry is chosen of slot ",
                *slot,
            ),
            ServerMark::Applies(slot) => put_named(out, b" applies slot ", *slot),
            ServerMark::Acknowledges(slot) => put_named(out, b" tells a host of slot ", *slot),
            ServerMark::Stands(term) => put_named(out, b" stands for election in term ", *term),
            ServerMark::Leads(term) => put_named(
                out,
                b" merges logs as the leader of term ",
                *term,
            ),
            ServerMark::Serves(term) => put_named(out, b" serves hosts in term ", *term),
            ServerMark::Follows(term) => put_named(out, b" follows in term ", *term),
            ServerMark::Stops => put_text(out, b" stops"),
            ServerMark::Halts => put_text(out, b" halts, as a disk failed"),
            ServerMark::Restarts => put_text(out, b" restarts from its disks"),
            ServerMark::Checkpoint(slot) => put_named(out, b" has its checkpoint at slot ", *slot),
            ServerMark::Image(slot) => put_named(
                out,
                b" takes a leader's sectors up to slot ",
                *slot,
            ),
            ServerMark::Snapshot(slot) => put_named(
                out,
                b" has a snapshot at the mark in slot ",
                *slot,
            ),
            ServerMark::IsDown => put_text(out, b" does not run as the picture ends"),
            ServerMark::Ends { base, upto } => put_end(out, *base, *upto),
        }
    }

    /// Puts the title of the mark on the lane of this server of this group. `NoMemory` (1) may have put a part of it.
    pub fn put_title(&self, out: &mut Vec<u8>, group: u8, server: ServerId) -> Result<(), NoMemory>
        ensures { OnOk result (out.new.items ≡ out.old.items ++ server_title group server self.now) }
    {
        put_named(out, b"server ", u64::from(server))?;
        put_named(out, b" of group ", u64::from(group))?;
        self.put_deed(out)
    }
}

/// Puts words, and a text behind them.
fn put_said(out: &mut Vec<u8>, words: &[u8], text: &[u8]) -> Result<(), NoMemory>
    ensures { OnOk result (out.new.items ≡ out.old.items ++ words.now ++ text.now) }
{
    put_text(out, words)?;
    put_text(out, text)
}

impl MountMark {
    /// Puts what the mount does.
    fn put_deed(&self, out: &mut Vec<u8>) -> Result<(), NoMemory>
        ensures { OnOk result (out.new.items ≡ out.old.items ++ mount_deed self.now) }
    {
        match self {
            MountMark::Mounts => put_text(out, b" is made"),
            MountMark::Ends => put_text(out, b" is no more"),
            MountMark::Begins(call) => put_said(out, b" begins ", call.as_slice()),
            MountMark::Answers(answer) => put_said(out, b" answers ", answer.as_slice()),
            MountMark::Ballot(position) => put_named(
                out,
                b" asks for a ballot on position ",
                *position,
            ),
            MountMark::Decides(position) => put_named(
                out,
                b" knows what is decided at position ",
                *position,
            ),
        }
    }

    /// Puts the title of the mark on the lane of this mount. `NoMemory` (1) may have put a part of it.
    pub fn put_title(&self, out: &mut Vec<u8>, mount: u8) -> Result<(), NoMemory>
        ensures { OnOk result (out.new.items ≡ out.old.items ++ mount_title mount self.now) }
    {
        put_named(out, b"mount ", u64::from(mount))?;
        self.put_deed(out)
    }
}
