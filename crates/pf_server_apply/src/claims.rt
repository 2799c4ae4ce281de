//! Claiming what can be applied.
ghost use Rattle.std.specs.Prelude.{ℕ, ◌≡◌, ◌+◌, ◌<◌, ◌≤◌, IfOk, MatchOption, None, OnErr, OnOk, false, length, map, true};
ghost use Rattle.pf_entry.specs.Records.{Durable};
ghost use Rattle.pf_base.specs.Span.{Span};
ghost use Rattle.pf_entry.specs.Applying.{is_free, passes};
ghost use Rattle.pf_entry.specs.Sets as set;
ghost use Rattle.pf_entry.specs.Tables.{ascends};
ghost use Rattle.pf_protocol.specs.Saving.{claimable, claimed};
ghost use Rattle.pf_server_memory.specs.Standing.{server_of, IsBounded, IsCached};
ghost use Rattle.pf_server_apply.specs.Jobs.{HasRoomForMark};
ghost use Rattle.pf_server_apply.specs.Claims.{IsClaimAnswer, IsLeastClaim, IsClaimPlan, EntryIsReady, PlansClaim, can_claim, can_claim_here, with_room};
ghost use Rattle.pf_server_memory.specs.Turns.{IsAfter};

use pf_base::{NoMemory, Slot};
use pf_entry::{Entry, Job, Named, Op};
use pf_holes::{SlotSet, is_free};
use pf_server_memory::Running;
use pf_server_tables::{CopyRoom, Few, SectorTable};
use std::alloc::Global;

/// Whether the slots that are named all lie past the one next to this.
fn names_past_next(look: &[Named], slot: Slot) -> bool
    requires { ascends (map (λ n. n.slot) look.now) ≡ true }
    ensures { result ≡ true → (range : Span) → passes look.now (slot + 1) range ≡ false }
{
    let Some(least) = look.first() else {
        return true;
    };
    slot < least.slot.saturating_sub(1)
}

/// Whether the slot next to the applied prefix lies below the entry's and below all that it names, so that it cannot be passed. Above a hole
/// most entries are so.
fn is_stopped(applied: &SlotSet, entry: &Entry) -> bool
    requires { ascends (map (λ n. n.slot) entry.now.look) ≡ true }
    ensures { result ≡ true → is_free (set.contains applied.now.slots) entry.now ≡ false }
{
    let upto = applied.upto();
    if upto < entry.slot.saturating_sub(1) {
        return names_past_next(entry.look.as_slice(), upto);
    }
    false
}

/// Whether the entry, which the log has in its slot and which is not applied, can be applied next, and nobody does so yet.
fn is_claimable(me: &Running, entry: &Entry) -> bool
    requires left { set.contains me.now.applied.slots entry.now.slot ≡ false }
    requires ascending { ascends (map (λ n. n.slot) entry.now.look) ≡ true }
    ensures { result ≡ can_claim_here me.now entry.now }
{
    !is_stopped(&me.applied, entry)
        && me.log.is_committed(entry.slot)
        && !me.in_hand.has(entry.slot)
        && is_free(entry, &me.applied)
}

/// The entry of the slot, which is not applied, where the slot can be claimed.
fn claimable_at(me: &Running, slot: Slot) -> Option<&Entry>
    requires bounded { IsBounded me.now }
    requires some { 0 < slot }
    requires left { set.contains me.now.applied.slots slot ≡ false }
    ensures { MatchOption result ((d : Durable) → IsCached d me.now → can_claim d me.now slot ≡ false) (λ e. EntryIsReady me.now slot e.now) }
{
    let entry = me.log.get(slot)?;
    if !is_claimable(me, entry) {
        return None;
    }
    Some(entry)
}

/// Whether the slot is applied, where none above `end` is; `behind` is as in `SlotSet::has_behind`.
fn is_applied(applied: &SlotSet, end: Slot, slot: Slot, behind: usize) -> bool
    requires { (q : ℕ) → end < q → set.contains applied.now.slots q ≡ false }
    ensures { result ≡ set.contains applied.now.slots slot }
{
    slot <= end && applied.has_behind(slot, behind)
}

/// The entry of the least slot that can be claimed, `None` exactly where there is none.
///
/// What can be claimed names each slot below it that is not applied, and an entry names few. So the walk ends once it has passed more
/// slots that are not applied than an entry names.
fn least_claimable(me: &Running) -> Option<&Entry>
    requires cached { (d : Durable) × IsCached d me.now }
    requires bounded { IsBounded me.now }
    ensures { MatchOption result ((d : Durable) → IsCached d me.now → claimable 4096 (server_of d me.now) ≡ None) (λ e. IsLeastClaim me.now e.now) }
{
    let mut passed = 0;
    let mut behind: usize = 0;
    let from = me.log.base().max(me.applied.upto());
    let end = me.applied.last();
    for below in from..me.log.last() {
        let slot = below + 1;
        if is_applied(&me.applied, end, slot, behind) {
            behind = behind.saturating_add(1);
        } else {
            if let Some(entry) = claimable_at(me, slot) {
                return Some(entry);
            }
            if passed == me.names {
                return None;
            }
            passed += 1;
        }
    }
    None
}

/// Memory for the snapshot of a mark; for another op none.
fn room_for(alloc: Global, op: &Op, sectors: &SectorTable) -> Result<Option<CopyRoom>, NoMemory>
    ensures { IfOk result (λ room. HasRoomForMark op.now room (length sectors.now)) }
{
    match op {
        Op::Mark => {
            let room = CopyRoom::new(alloc, sectors.len())?;
            Ok(Some(room))
        }
        Op::Write { .. } | Op::Noop => Ok(None),
    }
}

/// A job, and what stays with the server while it is in hand.
#[derive(Drop)]
pub struct ClaimPlan {
    job: Job,
    kept: Op,
    /// The memory of its snapshot, of a mark.
    room: Option<CopyRoom>,
}

/// The job of the least slot that can be claimed, `None` exactly where there is none.
fn prepare(alloc: Global, me: &Running) -> Result<Option<ClaimPlan>, NoMemory>
    requires cached { (d : Durable) × IsCached d me.now }
    requires bounded { IsBounded me.now }
    ensures { IfOk result (λ planned. (d : Durable) → IsCached d me.now → PlansClaim d me.now planned) }
{
    let Some(entry) = least_claimable(me) else {
        return Ok(None);
    };
    let op = entry.op.try_clone()?;
    let kept = entry.op.try_clone()?;
    let room = room_for(alloc, &kept, &me.sectors)?;
    let job = Job {
        server: me.number,
        life: me.life,
        slot: entry.slot,
        op,
    };
    Ok(Some(ClaimPlan { job, kept, room }))
}

/// Keeps the memory of the snapshot of a mark.
fn keep_room(rooms: &mut Few<CopyRoom>, slot: Slot, room: Option<CopyRoom>) -> Result<(), NoMemory>
    ensures ok { OnOk result (rooms.new ≡ with_room rooms.old slot room) }
    ensures err { OnErr result (rooms.new ≡ rooms.old) }
{
    match room {
        Some(room) => rooms.put(slot, room),
        None => Ok(()),
    }
}

/// Takes the planned job in hand. `NoMemory` (1) leaves the server as it was.
fn take_in_hand(me: &mut Running, plan: ClaimPlan) -> Result<Job, NoMemory>
    requires bounded { IsBounded me.old }
    requires planned { (d : Durable) × IsCached d me.old × IsClaimPlan d me.old plan }
    requires room { me.old.jobs + 1 ≤ me.old.applied.spare }
    ensures job { IfOk result (λ job. job ≡ plan.job) }
    ensures after { OnOk result ((d : Durable) → IsCached d me.old → IsClaimPlan d me.old plan
        → IsAfter d me.old me.new (claimed (server_of d me.old) plan.job.slot)) }
    ensures err { OnErr result (me.new ≡ me.old) }
{
    let ClaimPlan { job, kept, room } = plan;
    let slot = job.slot;
    keep_room(&mut me.rooms, slot, room)?;
    if let Err(fault) = me.in_hand.put(slot, kept) {
        me.rooms.remove(slot);
        return Err(fault);
    }
    me.jobs += 1;
    Ok(job)
}

/// Claims the least slot that is committed, not applied, not in hand, and can pass every slot below it that is not applied.
/// `None` exactly where there is none. Its job is in hand until it comes back, and what that will need of memory is taken.
///
/// `NoMemory` (1) where there is no memory for it; no job is then taken in hand.
pub fn claim(alloc: Global, me: &mut Running) -> Result<Option<Job>, NoMemory>
    requires cached { (d : Durable) × IsCached d me.old }
    requires bounded { IsBounded me.old }
    ensures ok { IfOk result (λ job. (d : Durable) → IsCached d me.old → IsClaimAnswer d me.old me.new job) }
    ensures err { OnErr result ((d : Durable) → IsCached d me.old → IsAfter d me.old me.new (server_of d me.old)) }
{
    let Some(plan) = prepare(alloc, me)? else {
        return Ok(None);
    };
    me.applied.reserve(me.jobs + 1)?;
    let job = take_in_hand(me, plan)?;
    Ok(Some(job))
}
