//! What a group keeps in every history beside its safety.
ghost use Rattle.std.specs.Prelude.{◌≡◌, ℕ, ◌<◌, ◌≤◌, List, [], ◌∷◌, ◌++◌, Some, length, slice_get, sum_by, true};
ghost use Rattle.pf_entry.specs.Lists.{Every};
ghost use Rattle.std.specs.FinMap as finite;
ghost use Rattle.pf_entry.specs.Maps.{Numbers};
ghost use Rattle.pf_entry.specs.Sets as set;
ghost use Rattle.pf_entry.specs.Ops.{Sector};
ghost use Rattle.pf_entry.specs.Applying.{is_applied};
ghost use Rattle.pf_entry.specs.Records.{Durable};
ghost use Rattle.pf_entry.specs.Canonical.{IsCanonicalPacket};
ghost use Rattle.pf_entry.specs.Sizes.{packet_size};
ghost use Rattle.pf_entry.specs.declared.ops.Op.{Op};
ghost use Rattle.pf_entry.specs.declared.entries.Entry.{Entry};
ghost use Rattle.pf_entry.specs.declared.entries.VoteLog.{VoteLog};
ghost use Rattle.pf_entry.specs.declared.packets.Body.TheVariants.{Vote, Ack, Commit, Image};
ghost use Rattle.pf_protocol.specs.Servers.{Setup, Server, has_applied};
ghost use Rattle.pf_protocol.specs.Groups.{Sent, ending, happens};
ghost use Rattle.pf_protocol.specs.declared.events.Happening.{Happening};
ghost use Rattle.pf_protocol.specs.Histories.{History, IsPrefix, replay, RunsAs, HasAccepted, IsProposal, HasSource, HasVoted};
ghost use Rattle.pf_protocol.specs.Kept.{MayHold, IsKeptIn, IsCommittedIn, IsCovered, IsInHand, IsChosenIn, MayAck, HasCommitted};
ghost use Rattle.pf_protocol.specs.Answers.{IsLegalNext, IsLegal, ClaimIsOpen, claims_of, most_packets, most_packet_bytes};
ghost use Rattle.pf_protocol.specs.Fitting.{GroupFits};
ghost use Rattle.pf_protocol.specs.Asked.{Asks};
ghost use Rattle.pf_protocol.specs.LastWriters.{HoldLastWrites};

/// Each entry that a server ever held was made by a step of the leader of its term, and its op comes from a new proposal
/// of its slot, through the merges that took it over, or is a no-op by which a merge filled a slot. What a server
/// accepted is under its checkpoint, or followed by an entry of no lower term; no entry's term is above its server's.
pub fn held_entries_are_proposals()
    ensures made { (setup : Setup) (history : History) (i : ℕ) (e : Entry) → HasAccepted setup history i e → IsProposal setup history e }
    ensures source { (setup : Setup) (history : History) (e : Entry) → IsProposal setup history e → HasSource setup history e }
    ensures kept { (setup : Setup) (history : History) (i : ℕ) (e : Entry) (d : Durable) → HasAccepted setup history i e → MayHold (replay setup history) i d
        → IsKeptIn d e }
    ensures within { (setup : Setup) (history : History) (i : ℕ) (d : Durable) (slot : ℕ) (e : Entry) → MayHold (replay setup history) i d
        → finite.get d.log slot ≡ Some e → (e.slot ≡ slot) × (e.term ≤ d.term) }
{}

/// A server holds the start of the term of every entry that it ever accepted, through restarts and images.
pub fn starts_are_kept()
    ensures { (setup : Setup) (history : History) (i : ℕ) (e : Entry) (d : Durable) → HasAccepted setup history i e → MayHold (replay setup history) i d
        → finite.get d.starts e.term ≡ Some e.first }
{}

/// A committed slot has a held entry whose op is chosen, in a term not above the entry's, and in its own term
/// where it is new.
pub fn committed_slots_stand_on_chosen_ops()
    ensures { (setup : Setup) (history : History) (i : ℕ) (s : Server) (slot : ℕ) → RunsAs (replay setup history) i s → set.contains s.committed slot ≡ true
        → IsCommittedIn setup history s slot }
{}

/// Each applied slot has an op that is chosen in a term not above the server's, each unapplied slot below one can be
/// passed by it, and the sectors are the ops in slot order: at running servers, on disks, and in packets with an image.
pub fn applied_slots_are_covered()
    ensures servers { (setup : Setup) (history : History) (i : ℕ) (s : Server) → RunsAs (replay setup history) i s
        → IsCovered setup history s.durable.term (has_applied s) s.sectors }
    ensures disks { (setup : Setup) (history : History) (i : ℕ) (d : Durable) → MayHold (replay setup history) i d
        → IsCovered setup history d.term (is_applied d.base d.saved) d.sectors }
    ensures images { (setup : Setup) (history : History) (k : ℕ) (sent : Sent) (base : ℕ) (applied : Numbers) (sectors : List Sector)
        → slice_get (replay setup history).packets k ≡ Some sent → sent.packet.body ≡ Image base applied sectors
        → IsCovered setup history sent.packet.term (is_applied base applied) sectors }
{}

/// The jobs in hand of a server are of unapplied slots with chosen ops, can pass each unapplied slot below them, and
/// share no sector with each other.
pub fn jobs_in_hand_are_apart()
    ensures { (setup : Setup) (history : History) (i : ℕ) (s : Server) (slot : ℕ) (op : Op) → RunsAs (replay setup history) i s
        → finite.get s.in_hand slot ≡ Some op → IsInHand setup history s slot op }
{}

/// A vote shows what its sender held before the event that sent it, in a lower term. An acknowledgement says that its sender
/// accepted the proposal of that slot and term, or that each slot up to it has an op that is chosen in a term not above this
/// one. A commit says that the slot was proposed in this term, and that the proposal's op is chosen so.
pub fn packets_tell_the_truth()
    ensures votes { (setup : Setup) (history : History) (k : ℕ) (sent : Sent) (v : VoteLog) → slice_get (replay setup history).packets k ≡ Some sent
        → sent.packet.body ≡ Vote v → HasVoted setup history k sent.packet.from sent.packet.term v }
    ensures acks { (setup : Setup) (history : History) (k : ℕ) (sent : Sent) (slot upto : ℕ) → slice_get (replay setup history).packets k ≡ Some sent
        → sent.packet.body ≡ Ack slot upto → 0 < slot → MayAck setup history sent.packet.from slot sent.packet.term }
    ensures commits { (setup : Setup) (history : History) (k : ℕ) (sent : Sent) (slot : ℕ) → slice_get (replay setup history).packets k ≡ Some sent
        → sent.packet.body ≡ Commit slot → HasCommitted setup history slot sent.packet.term }
{}

/// In a legal history every entry fits the chunk and lies in the window above its checkpoint; no slot, life, generation
/// or read number is above the length of the history, and no term above one more than its elections. So each packet
/// has a spelling, and a server has at most 65 starts.
pub fn legal_histories_fit()
    ensures fits { (setup : Setup) (history : History) → IsLegal setup history → GroupFits setup (length history) (replay setup history) }
    ensures packets { (setup : Setup) (history : History) → IsLegal setup history → (k : ℕ) (sent : Sent)
        → slice_get (replay setup history).packets k ≡ Some sent → IsCanonicalPacket sent.packet }
    ensures starts { (setup : Setup) (history : History) → IsLegal setup history → (i : ℕ) (s : Server) → RunsAs (replay setup history) i s
        → finite.len s.durable.starts ≤ 65 }
{}

/// In a legal history the job of each claim that was neither finished nor given back is in hand at its server, with the
/// op that was answered, as long as that server's life lasts. A claim is never of a life that has not begun.
pub fn open_claims_are_in_hand()
    ensures { (setup : Setup) (history : History) → IsLegal setup history → Every (ClaimIsOpen (replay setup history).servers) (claims_of [] history) }
{}

/// A history goes on by one event after another, and each part of a legal history from its beginning is one.
pub fn histories_go_on()
    ensures replay { (setup : Setup) (history : History) (h : Happening)
        → replay setup (history ++ h ∷ []) ≡ happens setup (replay setup history) h.event (ending h.answer) }
    ensures legal { (setup : Setup) (history : History) (h : Happening) → IsLegal setup history
        → IsLegalNext setup (replay setup history) (claims_of [] history) h → IsLegal setup (history ++ h ∷ []) }
    ensures before { (setup : Setup) (earlier history : History) → IsPrefix earlier history → IsLegal setup history → IsLegal setup earlier }
{}

/// Each sector holds what the greatest applied slot that writes it wrote there, and zeros where no applied slot writes it: at
/// running servers, on disks, and in packets with an image.
pub fn sectors_hold_last_writes()
    ensures servers { (setup : Setup) (history : History) (i : ℕ) (s : Server) → RunsAs (replay setup history) i s
        → HoldLastWrites setup history (has_applied s) s.sectors }
    ensures disks { (setup : Setup) (history : History) (i : ℕ) (d : Durable) → MayHold (replay setup history) i d
        → HoldLastWrites setup history (is_applied d.base d.saved) d.sectors }
    ensures images { (setup : Setup) (history : History) (k : ℕ) (sent : Sent) (base : ℕ) (applied : Numbers) (sectors : List Sector)
        → slice_get (replay setup history).packets k ≡ Some sent → sent.packet.body ≡ Image base applied sectors
        → HoldLastWrites setup history (is_applied base applied) sectors }
{}

/// In a legal history each read that waits is of 1 to 8 sectors of the chunk and waits for slots above 0, the numbers of
/// a server's reads ascend, and each is below the number that the group gives its next read.
pub fn waiting_reads_are_asked()
    ensures { (setup : Setup) (history : History) → IsLegal setup history → (i : ℕ) (s : Server) → RunsAs (replay setup history) i s
        → Asks setup.chunk (replay setup history).reads s }
{}

/// In a legal history no more than 65,536 packets were ever sent, and they take no more than 134,217,728 bytes: a step
/// whose packets have no room is refused.
pub fn packets_have_room()
    ensures count { (setup : Setup) (history : History) → IsLegal setup history → length (replay setup history).packets ≤ most_packets }
    ensures bytes { (setup : Setup) (history : History) → IsLegal setup history
        → sum_by (λ sent. packet_size sent.packet) (replay setup history).packets ≤ most_packet_bytes }
{}
