//! Jobs in hand.
ghost use Rattle.std.specs.Prelude.{◌≡◌, ◌≤◌, length};
ghost use Rattle.std.specs.FinMap as finite;
ghost use Rattle.pf_entry.specs.Records.{Durable};
ghost use Rattle.pf_protocol.specs.Saving.{applied_op, changed, four_greatest, on_finish, on_give_back, snapshots_after};
ghost use Rattle.pf_server_memory.specs.Standing.{server_of, IsBounded, IsCached};
ghost use Rattle.pf_server_apply.specs.Jobs.{HasRoomForMark, IsFilledFor, OpIsInside, IsJobOf};
ghost use Rattle.pf_server_memory.specs.Turns.{IsAfter, IsTurn};

use pf_base::{Filled, Slot};
use pf_entry::Op;
use pf_protocol::{Answer, Refusal};
use pf_server_memory::Running;
use pf_server_tables::{CopyRoom, SectorTable, Snapshots};

/// Keeps the sectors as they are at a mark, in the memory that was taken for them.
fn keep_snapshot(sectors: &SectorTable, mark: Slot, room: CopyRoom, snapshots: &mut Snapshots)
    requires { length sectors.now ≤ room }
    ensures { snapshots.new ≡ four_greatest (finite.insert snapshots.old mark sectors.now) }
{
    snapshots.keep(mark, sectors.copied_into(room));
}

/// Does to the sectors what the op says, and keeps them where it is a mark.
fn carry_out(
    op: Op,
    filled: &mut Filled,
    room: Option<CopyRoom>,
    sectors: &mut SectorTable,
    snapshots: &mut Snapshots,
)
    requires filled { IsFilledFor op filled.old }
    requires inside { OpIsInside (length sectors.old) op }
    requires room { HasRoomForMark op room (length sectors.old) }
    ensures sectors { sectors.new ≡ changed op sectors.old }
    ensures snapshots { snapshots.new ≡ snapshots_after op filled.old.slot sectors.old snapshots.old }
{
    match op {
        Op::Write { range, .. } => sectors.swap_in(range, filled),
        Op::Noop => {}
        Op::Mark => {
            if let Some(room) = room {
                keep_snapshot(sectors, filled.slot, room, snapshots);
            }
        }
    }
}

/// Applies the op of a job in hand, which is no longer in hand then.
fn apply(me: &mut Running, mut filled: Filled)
    requires cached { (d : Durable) × IsCached d me.old }
    requires bounded { IsBounded me.old }
    requires job { IsJobOf me.old filled }
    ensures { (d : Durable) → IsCached d me.old → IsAfter d me.old me.new
        (applied_op (server_of d me.old) filled.slot (finite.get me.old.in_hand filled.slot)) }
{
    let slot = filled.slot;
    let room = me.rooms.take(slot);
    let Some(op) = me.in_hand.take(slot) else {
        return;
    };
    me.jobs -= 1;
    carry_out(op, &mut filled, room, &mut me.sectors, &mut me.snapshots);
    me.applied.add(slot);
}

/// A job comes back done, and its op is applied: the filled sectors of a write become those of the chunk, and a mark leaves a
/// snapshot. It takes no memory.
///
/// `Stale` (61) exactly where the job is of another life of the server, which is then as it was; the refusal tells the life
/// that the server has now.
pub fn finish(me: &mut Running, filled: Filled) -> Answer
    requires cached { (d : Durable) × IsCached d me.old }
    requires bounded { IsBounded me.old }
    requires job { filled.life ≡ me.old.life → IsJobOf me.old filled }
    ensures { (d : Durable) → IsCached d me.old → IsTurn d me.old me.new (on_finish (server_of d me.old) filled.life filled.slot) result }
{
    if filled.life != me.life {
        return Answer::Refused(Refusal::Stale(me.life));
    }
    apply(me, filled);
    Answer::Done
}

/// Takes a job out of hand.
fn drop_job(me: &mut Running, slot: Slot)
    requires { (d : Durable) × IsCached d me.old }
    ensures { (d : Durable) → IsCached d me.old → IsAfter d me.old me.new (record (server_of d me.old) { in_hand = finite.remove me.old.in_hand slot }) }
{
    if !me.in_hand.has(slot) {
        return;
    }
    me.jobs -= 1;
    me.in_hand.remove(slot);
    me.rooms.remove(slot);
}

/// A job comes back undone, and its slot can be claimed again. A job of another life of the server changes nothing.
pub fn give_back(me: &mut Running, life: u64, slot: Slot) -> Answer
    requires { (d : Durable) × IsCached d me.old }
    ensures { (d : Durable) → IsCached d me.old → IsTurn d me.old me.new (on_give_back (server_of d me.old) life slot) result }
{
    if life != me.life {
        return Answer::Done;
    }
    drop_job(me, slot);
    Answer::Done
}
