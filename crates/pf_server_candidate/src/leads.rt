//! A candidate becomes a leader.
ghost use Rattle.std.specs.Prelude.{◌≡◌, ◌<◌, ◌≤◌};
ghost use Rattle.pf_entry.specs.Lists.{Every};
ghost use Rattle.pf_entry.specs.Records.{add_merged_start, put_entries};
ghost use Rattle.pf_server_candidate.specs.Merging.{EntryIsPlaced, led_role};

use crate::merges::Takeover;
use pf_base::{Slot, Term};
use pf_entry::Entry;
use pf_holes::HoleLog;
use pf_server_memory::{Leader, Role, Running};
use pf_server_tables::{Acks, Known, StartTable};

/// Puts the entries into the log.
fn put_all(log: &mut HoleLog, entries: Vec<Entry>)
    requires { Every (EntryIsPlaced log.old.base) entries.items }
    ensures { log.new ≡ record log.old { entries = put_entries log.old.entries entries.items } }
{
    for entry in entries {
        log.put(entry);
    }
}

/// Puts the term's start where a slot was merged.
fn put_start(starts: &mut StartTable, term: Term, first: Slot, merged: &[Entry])
    requires { 1 ≤ starts.old.spare }
    ensures { starts.new.starts ≡ add_merged_start starts.old.starts term first merged.now }
{
    if !merged.is_empty() {
        starts.put(term, first);
    }
}

/// The role of a leader whose merged slots no other server has acknowledged yet. It serves at once where it merged none.
fn led_role(first: Slot, acks: Acks) -> Role
    requires { acks.base < first }
    ensures { result ≡ led_role first acks }
{
    let settled = acks.base();
    let leader = Leader {
        first,
        next: first,
        acks,
        known: Known::nothing(),
        settled,
    };
    if settled + 1 < first {
        Role::Merging(leader)
    } else {
        Role::Serving(leader)
    }
}

/// Takes over what was planned. It takes no memory.
pub fn lead(me: &mut Running, takeover: Takeover)
    requires placed { Every (EntryIsPlaced me.old.log.base) takeover.entries.items }
    requires above { takeover.acks.base < takeover.first }
    requires room { 1 ≤ me.old.starts.spare }
    ensures starts { me.new.starts.starts ≡ add_merged_start me.old.starts.starts me.old.term takeover.first takeover.entries.items }
    ensures others { me.new ≡ record me.old {
      starts = me.new.starts;
      role = led_role takeover.first takeover.acks;
      log = record me.old.log { entries = put_entries me.old.log.entries takeover.entries.items };
    } }
{
    let Takeover {
        first,
        entries,
        acks,
    } = takeover;
    put_start(&mut me.starts, me.term, first, &entries);
    put_all(&mut me.log, entries);
    me.role = led_role(first, acks);
}
