//! An image comes.
ghost use Rattle.std.specs.Prelude.{◌≡◌, ℕ, ◌<◌, ◌≤◌, ◌+◌, ◌^◌, [], IfOk, None, nat_lt};
ghost use Rattle.std.specs.FinMap as finite;
ghost use Rattle.pf_entry.specs.Sets as set;
ghost use Rattle.pf_entry.specs.declared.packets.Body.TheVariants.{Image as ImageIs};
ghost use Rattle.pf_protocol.specs.Servers.{upto};
ghost use Rattle.pf_protocol.specs.Outcomes.{nothing};
ghost use Rattle.pf_protocol.specs.Following.{ack, installed, on_image};
ghost use Rattle.pf_server_memory.specs.Bounds.{far};
ghost use Rattle.pf_server_memory.specs.Standing.{CanStep, IsBounded, StepsBy, StepsQuietly};
ghost use Rattle.pf_server_memory.specs.Coming.{IsComing};
ghost use Rattle.pf_server_follower.specs.Halves.{IsNewHalf};

use crate::accepts::ack;
use crate::replies::{meet_and_reply, reply};
use pf_base::{NoMemory, Sectors, ServerId, Slot, Term};
use pf_election::Probes;
use pf_entry::{Body, Op, Slots};
use pf_holes::SlotSet;
use pf_protocol::Answer;
use pf_server_memory::{Outbox, Role, Running, StepFault, save, send, spell_imaged};
use pf_server_store::Store;
use pf_server_tables::{CopyRoom, Few, SectorTable};
use std::alloc::Global;

/// An image that is to be saved, and what memory takes over with it.
#[derive(Drop)]
struct NewHalf {
    body: Vec<u8>,
    applied: SlotSet,
    sectors: SectorTable,
    in_hand: Few<Op>,
    rooms: Few<CopyRoom>,
}

/// Takes all the memory that an image wants.
fn prepare(
    alloc: Global,
    me: &Running,
    term: Term,
    base: Slot,
    applied: Slots,
    sectors: Sectors,
) -> Result<NewHalf, NoMemory>
    requires coming { (from : ℕ) × IsComing me.now from term (ImageIs base applied sectors) }
    requires bounded { IsBounded me.now }
    requires reached { me.now.log.base ≤ base }
    ensures half { IfOk result (λ half. IsNewHalf me.now term base half) }
    ensures applied { IfOk result (λ half. set.retain half.applied.slots (nat_lt base) ≡ applied) }
    ensures sectors { IfOk result (λ half. half.sectors ≡ sectors) }
{
    let sectors = SectorTable::from_sectors(sectors);
    let body = spell_imaged(alloc, me, term, base, &applied, &sectors)?;
    Ok(NewHalf {
        body,
        applied: SlotSet::with_prefix(base, applied),
        sectors,
        in_hand: Few::new(alloc),
        rooms: Few::new(alloc),
    })
}

/// Begins a new life over the image's state. It takes no memory.
fn begin(alloc: Global, me: &mut Running, term: Term, base: Slot, half: NewHalf)
    requires reached { me.old.log.base ≤ base }
    requires life { me.old.life < far }
    requires generation { me.old.generation < far }
    ensures { me.new ≡ record me.old {
      life = me.old.life + 1;
      term = term;
      generation = me.old.generation + 1;
      role = Role.Follower;
      reads = [];
      log = record { base = base; entries = finite.retain_keys me.old.log.entries (nat_lt base); committed = set.retain me.old.log.committed (nat_lt base) };
      applied = half.applied;
      sectors = half.sectors;
      in_hand = half.in_hand;
      rooms = half.rooms;
      jobs = 0;
      snapshots = finite.empty;
    } }
{
    let NewHalf {
        body: _,
        applied,
        sectors,
        in_hand,
        rooms,
    } = half;
    me.life += 1;
    me.term = term;
    me.generation += 1;
    me.role = Role::Follower;
    me.reads = Probes::new(alloc);
    me.log.trim(base);
    me.applied = applied;
    me.sectors = sectors;
    me.in_hand = in_hand;
    me.jobs = 0;
    me.rooms = rooms;
    me.snapshots.clear();
}

/// Saves the image in the other half, and sends nothing.
fn save_half<S: Store>(
    alloc: Global,
    store: &mut S,
    me: &mut Running,
    term: Term,
    base: Slot,
    half: NewHalf,
) -> Result<Answer, StepFault>
    requires stands { CanStep S.model store.old me.old }
    requires bounded { IsBounded me.old }
    requires reached { me.old.log.base ≤ base }
    requires half { IsNewHalf me.old term base half }
    ensures { StepsQuietly S.model (λ s. nothing (installed s term base (set.retain half.applied.slots (nat_lt base)) half.sectors)) store.old me.old store.new
        me.new result }
{
    save(store, &half.body)?;
    begin(alloc, me, term, base, half);
    Ok(Answer::Done)
}

/// Installs the image, and acknowledges its checkpoint.
fn install<S: Store>(
    alloc: Global,
    store: &mut S,
    me: &mut Running,
    from: ServerId,
    term: Term,
    base: Slot,
    applied: Slots,
    sectors: Sectors,
    out: &mut Outbox,
) -> Result<Answer, StepFault>
    requires stands { CanStep S.model store.old me.old }
    requires bounded { IsBounded me.old }
    requires fresh { out.old.acked ≡ None }
    requires coming { IsComing me.old from term (ImageIs base applied sectors) }
    requires reached { me.old.log.base ≤ base }
    ensures { StepsBy S.model (λ s. ack (installed s term base applied sectors) from base) store.old me.old out.old store.new me.new out.new result }
{
    let half = prepare(alloc, me, term, base, applied, sectors)?;
    let upto = half.applied.upto();
    send(
        alloc,
        out,
        me.number,
        from,
        term,
        Body::Ack { slot: base, upto },
    )?;
    save_half(alloc, store, me, term, base, half)
}

/// A leader sends its state. The answer is `Nack` where its term is lower than the server's, and else `Ack` of its checkpoint.
/// Where not all slots up to the checkpoint are applied here, the state is saved in the other half, the server becomes a
/// follower and begins a new life, and its jobs, snapshots and reads are dropped; else a higher term is stored.
///
/// `NoMemory` (1) where there is no memory, `PacketsFull` (55) where the answer does not fit the outbox, and `LogFull` (41)
/// where the image does not fit a half of 67,108,864 bytes, or the term the current one, leave the server and the store as
/// they were. `Halted` (52) where a disk failed: a restart finds the image, or the term, or neither.
pub fn image<S: Store>(
    alloc: Global,
    store: &mut S,
    me: &mut Running,
    from: ServerId,
    term: Term,
    base: Slot,
    applied: Slots,
    sectors: Sectors,
    out: &mut Outbox,
) -> Result<Answer, StepFault>
    requires stands { CanStep S.model store.old me.old }
    requires bounded { IsBounded me.old }
    requires fresh { out.old.acked ≡ None }
    requires coming { IsComing me.old from term (ImageIs base applied sectors) }
    ensures step { StepsBy S.model (λ s. on_image s from term base applied sectors) store.old me.old out.old store.new me.new out.new result }
{
    if term < me.term {
        let own = me.term;
        return reply(alloc, store, me, from, own, Body::Nack, out);
    }
    if base <= me.upto() {
        let body = ack(me, base);
        return meet_and_reply(alloc, store, me, from, term, body, out);
    }
    install(alloc, store, me, from, term, base, applied, sectors, out)
}
