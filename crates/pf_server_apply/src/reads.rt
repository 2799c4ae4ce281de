//! Reads.
ghost use Rattle.std.specs.Prelude.{◌≡◌, ◌≤◌, ◌++◌, filter, length, map, not};
ghost use Rattle.pf_entry.specs.Records.{Durable};
ghost use Rattle.pf_entry.specs.Sets as set;
ghost use Rattle.pf_election.specs.Reads.{confirmed_in, is_read_ready};
ghost use Rattle.pf_protocol.specs.Rows.{ready_reads, settled};
ghost use Rattle.pf_server_memory.specs.Standing.{server_of, read_in_memory, IsCached};
ghost use Rattle.pf_protocol.specs.Asked.{AreAsked};
ghost use Rattle.pf_server_apply.specs.Reads.{read_answered, read_reply};
ghost use Rattle.pf_server_memory.specs.Turns.{IsAfter};

use pf_election::Probes;
use pf_holes::SlotSet;
use pf_server_memory::{Replies, Running};
use pf_server_tables::SectorTable;

/// Answers each read that is ready.
fn answer_ready(reads: &mut Probes, applied: &SlotSet, sectors: &SectorTable, replies: &mut Replies)
    requires asked { AreAsked (length sectors.now) (map read_in_memory reads.old) }
    requires room { confirmed_in reads.old ≤ replies.old.rooms }
    ensures left { reads.new ≡ filter (λ r. not (is_read_ready (set.contains applied.now.slots) r)) reads.old }
    ensures answers { replies.new.answers ≡ replies.old.answers ++ map (read_reply sectors.now)
        (filter (is_read_ready (set.contains applied.now.slots)) reads.old) }
    ensures room { confirmed_in reads.new ≤ replies.new.rooms }
{
    while let Some(read) = reads.take_ready(applied) {
        let (number, range) = read;
        replies.answer(number, range, sectors);
    }
}

/// Answers each read that is confirmed and whose named slots are applied, in the order in which they were asked, from the sectors
/// as they are. Each step of a server ends with it. It takes no memory.
pub fn settle(me: &mut Running)
    requires cached { (d : Durable) × IsCached d me.old }
    requires asked { AreAsked (length me.old.sectors) (map read_in_memory me.old.reads) }
    ensures after { (d : Durable) → IsCached d me.old → IsAfter d me.old me.new (settled (server_of d me.old)) }
    ensures answers { (d : Durable) → IsCached d me.old → (let s = server_of d me.old in
        me.new.replies.answers ≡ me.old.replies.answers ++ map (read_answered s) (ready_reads s)) }
{
    answer_ready(&mut me.reads, &me.applied, &me.sectors, &mut me.replies);
}
