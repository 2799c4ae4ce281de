//! Steps that answer one packet, with a record or without.
ghost use Rattle.std.specs.Prelude.{◌≡◌, ◌<◌, ◌≤◌, ◌+◌, [], ◌∷◌, None};
ghost use Rattle.pf_entry.specs.Canonical.{IsCanonicalPacket};
ghost use Rattle.pf_entry.specs.Records.{add_start};
ghost use Rattle.pf_entry.specs.declared.records.Record.TheVariants.{Entry as EntryRecord};
ghost use Rattle.pf_codec.specs.Spelling.{body_bytes};
ghost use Rattle.pf_server_store.specs.Stores.{IsSpelledAs};
ghost use Rattle.pf_protocol.specs.Outcomes.{sends, nothing, raise_term};
ghost use Rattle.pf_protocol.specs.Following.{meets_term, accepted};
ghost use Rattle.pf_server_memory.specs.Packets.{packet};
ghost use Rattle.pf_server_memory.specs.Standing.{CanStep, StepsBy, StepsQuietly};
ghost use Rattle.std.specs.FinMap as finite;

use pf_base::{ServerId, Term};
use pf_election::Probes;
use pf_entry::{Body, Entry, Record};
use pf_protocol::Answer;
use pf_server_memory::{Outbox, Role, Running, StepFault, add, add_entry, send};
use pf_server_store::Store;
use std::alloc::Global;

/// Sends one packet, and stores nothing.
pub fn reply<S: Store>(
    alloc: Global,
    _store: &S,
    me: &Running,
    to: ServerId,
    term: Term,
    body: Body,
    out: &mut Outbox,
) -> Result<Answer, StepFault>
    requires stands { CanStep S.model _store.now me.now }
    requires fresh { out.old.acked ≡ None }
    requires canonical { IsCanonicalPacket (packet me.now.number to term body) }
    ensures { StepsBy S.model (λ s. sends s (packet me.now.number to term body ∷ [])) _store.now me.now out.old _store.now me.now out.new result }
{
    send(alloc, out, me.number, to, term, body)?;
    Ok(Answer::Done)
}

/// Takes over a term, as a follower. A follower has no reads.
fn follow(alloc: Global, me: &mut Running, term: Term)
    ensures { me.new ≡ record me.old { term = term; role = Role.Follower; reads = [] } }
{
    me.term = term;
    me.role = Role::Follower;
    me.reads = Probes::new(alloc);
}

/// Stores a higher term, and sends nothing.
pub fn raise<S: Store>(
    alloc: Global,
    store: &mut S,
    me: &mut Running,
    term: Term,
) -> Result<Answer, StepFault>
    requires { CanStep S.model store.old me.old }
    ensures { StepsQuietly S.model (λ s. nothing (raise_term s term)) store.old me.old store.new me.new result }
{
    add(alloc, store, &Record::Term(term))?;
    follow(alloc, me, term);
    Ok(Answer::Done)
}

/// Stores a higher term, and sends one packet.
pub fn raise_and_reply<S: Store>(
    alloc: Global,
    store: &mut S,
    me: &mut Running,
    to: ServerId,
    term: Term,
    body: Body,
    out: &mut Outbox,
) -> Result<Answer, StepFault>
    requires stands { CanStep S.model store.old me.old }
    requires fresh { out.old.acked ≡ None }
    requires canonical { IsCanonicalPacket (packet me.old.number to term body) }
    ensures { StepsBy S.model (λ s. sends (raise_term s term) (packet me.old.number to term body ∷ [])) store.old me.old out.old store.new me.new out.new
        result }
{
    send(alloc, out, me.number, to, term, body)?;
    raise(alloc, store, me, term)
}

/// Takes over the term if it is higher, and sends one packet.
pub fn meet_and_reply<S: Store>(
    alloc: Global,
    store: &mut S,
    me: &mut Running,
    to: ServerId,
    term: Term,
    body: Body,
    out: &mut Outbox,
) -> Result<Answer, StepFault>
    requires stands { CanStep S.model store.old me.old }
    requires fresh { out.old.acked ≡ None }
    requires no_lower { me.old.term ≤ term }
    requires canonical { IsCanonicalPacket (packet me.old.number to term body) }
    ensures { StepsBy S.model (λ s. sends (meets_term s term) (packet me.old.number to term body ∷ [])) store.old me.old out.old store.new me.new out.new
        result }
{
    if me.term < term {
        raise_and_reply(alloc, store, me, to, term, body, out)
    } else {
        reply(alloc, store, me, to, term, body, out)
    }
}

/// Takes over an entry and its term, as a follower. It takes no memory.
fn keep(alloc: Global, me: &mut Running, entry: Entry)
    requires above { me.old.log.base < entry.slot }
    requires window { entry.slot ≤ me.old.log.base + 4096 }
    requires room { 1 ≤ me.old.starts.spare }
    ensures starts { me.new.starts.starts ≡ add_start me.old.starts.starts entry.term entry.first }
    ensures others { me.new ≡ record me.old {
      term = entry.term;
      role = Role.Follower;
      reads = [];
      starts = me.new.starts;
      log = record me.old.log { entries = finite.insert me.old.log.entries entry.slot entry };
    } }
{
    follow(alloc, me, entry.term);
    me.starts.put(entry.term, entry.first);
    me.log.put(entry);
}

/// Stores an entry, and sends nothing.
fn store_entry<S: Store>(
    alloc: Global,
    store: &mut S,
    me: &mut Running,
    entry: Entry,
) -> Result<Answer, StepFault>
    requires stands { CanStep S.model store.old me.old }
    requires spelled { IsSpelledAs (S.model.format store.old) (EntryRecord entry) (body_bytes (EntryRecord entry)) }
    requires above { me.old.log.base < entry.slot }
    requires window { entry.slot ≤ me.old.log.base + 4096 }
    requires room { 1 ≤ me.old.starts.spare }
    ensures { StepsQuietly S.model (λ s. nothing (accepted s entry)) store.old me.old store.new me.new result }
{
    add_entry(alloc, store, &entry)?;
    keep(alloc, me, entry);
    Ok(Answer::Done)
}

/// Stores an entry of this term or a higher one, and sends one packet.
pub fn take_and_reply<S: Store>(
    alloc: Global,
    store: &mut S,
    me: &mut Running,
    to: ServerId,
    entry: Entry,
    body: Body,
    out: &mut Outbox,
) -> Result<Answer, StepFault>
    requires stands { CanStep S.model store.old me.old }
    requires fresh { out.old.acked ≡ None }
    requires canonical { IsCanonicalPacket (packet me.old.number to entry.term body) }
    requires spelled { IsSpelledAs (S.model.format store.old) (EntryRecord entry) (body_bytes (EntryRecord entry)) }
    requires above { me.old.log.base < entry.slot }
    requires window { entry.slot ≤ me.old.log.base + 4096 }
    ensures { StepsBy S.model (λ s. sends (accepted s entry) (packet me.old.number to entry.term body ∷ [])) store.old me.old out.old store.new me.new out.new
        result }
{
    me.starts.reserve()?;
    send(alloc, out, me.number, to, entry.term, body)?;
    store_entry(alloc, store, me, entry)
}
