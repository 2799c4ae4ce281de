//! Checkpoints.
ghost use Rattle.std.specs.Prelude.{◌≡◌, ℕ, ◌+◌, ◌≤◌, ◌<◌, ◌^◌, IfOk, None, nat_lt};
ghost use Rattle.std.specs.FinMap as finite;
ghost use Rattle.pf_entry.specs.Sets as set;
ghost use Rattle.pf_entry.specs.Records.{Durable, image_of};
ghost use Rattle.pf_codec.specs.Spelling.{body_bytes};
ghost use Rattle.pf_protocol.specs.Saving.{is_short_of, on_checkpoint, trimmed};
ghost use Rattle.pf_protocol.specs.Servers.{upto};
ghost use Rattle.pf_protocol.specs.Outcomes.{only_answers};
ghost use Rattle.pf_protocol.specs.declared.answers.Answer.TheVariants.{Base as BaseIs};
ghost use Rattle.pf_server_memory.specs.Bounds.{far};
ghost use Rattle.pf_server_memory.specs.Outgoing.{Outgoing};
ghost use Rattle.pf_server_memory.specs.Standing.{server_of, role_in_memory, room_refusal, CanStep, IsBounded, Stands, Steps, StepsQuietly};
ghost use Rattle.pf_server_apply.specs.Saving.{state_saved_at};

use pf_base::{NoMemory, Slot};
use pf_protocol::Answer;
use pf_server_memory::{Role, Running, StepFault, save, spell_imaged};
use pf_server_store::Store;
use std::alloc::Global;

/// The body of the image of the server's state with its checkpoint there.
fn spell_state(alloc: Global, me: &Running, base: Slot) -> Result<Vec<u8>, NoMemory>
    requires bounded { IsBounded me.now }
    requires reached { me.now.log.base ≤ base }
    requires small { base < far }
    ensures { IfOk result (λ body. body.items ≡ body_bytes (image_of (state_saved_at me.now base))) }
{
    let applied = me.applied.above(alloc, base)?;
    spell_imaged(alloc, me, me.term, base, &applied, &me.sectors)
}

/// Moves the checkpoint in memory. It takes no memory.
fn pass(me: &mut Running, base: Slot)
    requires reached { me.old.log.base ≤ base }
    requires generation { me.old.generation < far }
    ensures { me.new ≡ record me.old {
      generation = me.old.generation + 1;
      log = record { base = base; entries = finite.retain_keys me.old.log.entries (nat_lt base); committed = set.retain me.old.log.committed (nat_lt base) };
    } }
{
    me.generation += 1;
    me.log.trim(base);
}

/// Saves the state with its checkpoint there in the other half.
fn save_state<S: Store>(
    alloc: Global,
    store: &mut S,
    me: &mut Running,
    base: Slot,
) -> Result<Answer, StepFault>
    requires stands { (d : Durable) × Stands S.model d store.old me.old × (base ≡ upto (server_of d me.old)) }
    requires bounded { IsBounded me.old }
    requires reached { me.old.log.base ≤ base }
    requires small { base < far }
    ensures { (d : Durable) (out : Outgoing) → Stands S.model d store.old me.old → out.acked ≡ None → base ≡ upto (server_of d me.old)
        → (let o = only_answers (trimmed (server_of d me.old)) (BaseIs base) in
        Steps S.model d store.old me.old out store.new me.new out (room_refusal out o) o result) }
{
    let body = spell_state(alloc, me, base)?;
    save(store, &body)?;
    pass(me, base);
    Ok(Answer::Base(base))
}

/// Whether a leader is not yet past the slot.
fn is_short_of(role: &Role, slot: Slot) -> bool
    ensures { result ≡ is_short_of (role_in_memory role.now) slot }
{
    match role {
        Role::Follower => false,
        Role::Candidate(_) => false,
        Role::Merging(leader) => leader.next <= slot,
        Role::Serving(leader) => leader.next <= slot,
    }
}

/// Takes a checkpoint at the greatest slot up to which all are applied: the state is saved in the other half, in format 2, and
/// the log forgets what the checkpoint has. It answers with the checkpoint. Nothing is stored where that slot is the checkpoint
/// already, or where the server leads and has not proposed past it.
///
/// `NoMemory` (1), and `LogFull` (41) where the image does not fit a half of 67,108,864 bytes, leave the server and the store as
/// they were. After `Halted` (52) a restart finds the image or the state before it.
pub fn checkpoint<S: Store>(
    alloc: Global,
    store: &mut S,
    me: &mut Running,
) -> Result<Answer, StepFault>
    requires stands { CanStep S.model store.old me.old }
    requires bounded { IsBounded me.old }
    ensures step { StepsQuietly S.model on_checkpoint store.old me.old store.new me.new result }
{
    let base = me.upto();
    let before = me.log.base();
    if base == before {
        return Ok(Answer::Base(before));
    }
    if is_short_of(&me.role, base) {
        return Ok(Answer::Base(before));
    }
    save_state(alloc, store, me, base)
}
