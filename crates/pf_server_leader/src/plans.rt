//! What a leader proposes.
ghost use Rattle.std.specs.Prelude.{◌≡◌, ◌≤◌, ◌-◌, ◌&&◌, ◌==◌, IfOk, MatchResult, Option, Some, length, map, nat_lt};
ghost use Rattle.std.specs.List.{filter, range_with_len};
ghost use Rattle.pf_entry.specs.Ops.{range_of};
ghost use Rattle.pf_protocol.specs.Answers.{is_mark};
ghost use Rattle.pf_protocol.specs.Leading.{op_at};
ghost use Rattle.pf_protocol.specs.declared.answers.Refusal.{Refusal as RefusalIs};
ghost use Rattle.pf_server_memory.specs.Standing.{server_of, setup_of, state_in_memory};
ghost use Rattle.pf_server_leader.specs.Submitting.{PlansEntry, look_in, range_named_at, refused_first, MayPropose};

use pf_base::{NoMemory, Range, Slot};
use pf_entry::{Entry, Look, Named, Op};
use pf_holes::HoleLog;
use pf_protocol::Refusal;
use pf_server_memory::{Leader, Role, Running, StepFault};
use std::alloc::Global;

/// Whether the op is a mark in a volume of the first format.
fn is_early_mark(me: &Running, op: &Op) -> bool
    ensures { result ≡ (is_mark op.now && me.now.format == 1) }
{
    matches!(op, Op::Mark) && me.format == 1
}

/// The leader, where it may propose the op. Refused with `OldFormat` (97), `BadRange` (10), `NotLeader` (50) or `WindowFull`
/// (30), the first of them that holds.
fn judge<'a>(me: &'a Running, op: &Op) -> Result<&'a Leader, Refusal>
    requires { length me.now.sectors ≤ 4096 }
    ensures { MatchResult result (λ leader. MayPropose me.now op.now leader.now)
        (λ refusal. (rest : Option RefusalIs) → refused_first (setup_of me.now) (server_of (state_in_memory me.now) me.now) op.now rest ≡ Some refusal) }
{
    if is_early_mark(me, op) {
        return Err(Refusal::OldFormat);
    }
    if !op.range().fits(me.sectors.len() as u32) {
        return Err(Refusal::BadRange);
    }
    let Role::Serving(leader) = &me.role else {
        return Err(Refusal::NotLeader);
    };
    match me.log.room(leader.next) {
        Err(_) => Err(Refusal::WindowFull),
        Ok(()) => Ok(leader),
    }
}

/// The range of the slot's op, the empty one where the log has none.
fn range_at(log: &HoleLog, slot: Slot) -> Range
    ensures { result ≡ range_of (op_at log.now.entries slot) }
{
    match log.get(slot) {
        Some(entry) => entry.op.range(),
        None => Range::none(),
    }
}

/// The slots from `from` to before `next` that are above the base, each with the range that the log has there.
fn name_above(
    alloc: Global,
    log: &HoleLog,
    base: Slot,
    from: Slot,
    next: Slot,
) -> Result<Look, NoMemory>
    requires { from ≤ next }
    ensures { IfOk result (λ look. look ≡ map (range_named_at log.now.entries) (filter (nat_lt base) (range_with_len from (next - from)))) }
{
    let mut look = Look::with_room(alloc, (next - from) as usize)?;
    for slot in from..next {
        if base < slot {
            let range = range_at(log, slot);
            look.push(Named { slot, range })?;
        }
    }
    Ok(look)
}

/// The slots before `next`, at most so many, that are above the checkpoint, each with the range that the log has there.
fn look_behind(alloc: Global, log: &HoleLog, names: u8, next: Slot) -> Result<Look, NoMemory>
    ensures { IfOk result (λ look. look ≡ look_in log.now names next) }
{
    let from = next.saturating_sub(u64::from(names));
    name_above(alloc, log, log.base(), from, next)
}

/// The entry of the leader's next proposal. Refused with `OldFormat` (97), `BadRange` (10), `NotLeader` (50) or `WindowFull`
/// (30), the first of them that holds. `NoMemory` (1) where there is no memory for it.
pub fn plan(alloc: Global, me: &Running, op: Op) -> Result<Entry, StepFault>
    requires { length me.now.sectors ≤ 4096 }
    ensures { PlansEntry me.now op result }
{
    let leader = judge(me, &op)?;
    Ok(Entry {
        slot: leader.next,
        term: me.term,
        first: leader.first,
        look: look_behind(alloc, &me.log, me.names, leader.next)?,
        op,
    })
}
