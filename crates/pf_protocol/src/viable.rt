//! The laws of groups in which a restart may have begun from any state that fits its server, as over disks that tell nothing.
ghost use Rattle.std.specs.Prelude.{◌≡◌, ◌+◌, ◌≤◌, List, ℕ, suc, [], ◌∷◌, length, Some, slice_get};
ghost use Rattle.std.specs.FinMap as finite;
ghost use Rattle.pf_entry.specs.Maps.{Map};
ghost use Rattle.pf_entry.specs.Canonical.{IsCanonicalPacket};
ghost use Rattle.pf_protocol.specs.Servers.{Setup, Server};
ghost use Rattle.pf_protocol.specs.Groups.{Ending, Group, Sent, ending, happens, opening};
ghost use Rattle.pf_protocol.specs.declared.events.Happening.{Happening};
ghost use Rattle.pf_protocol.specs.Histories.{RunsAs};
ghost use Rattle.pf_protocol.specs.Answers.{Claimed, IsSetup, IsLegalNext, claims_after};
ghost use Rattle.pf_protocol.specs.Elected.{FewBeside};
ghost use Rattle.pf_protocol.specs.Viable.{BeginsAnew, IsViable};

/// But for at most 65 terms, a server has starts of terms in which somebody stood for election alone.
pub fn starts_stay_few()
    ensures { (terms : List ℕ) (starts : Map ℕ) → FewBeside terms starts → finite.len starts ≤ 65 + length terms }
{}

/// Where a restart may have begun from any state that fits its server, no number, list or packet becomes too large: a new group is
/// viable, each legal event leaves a viable group, and so does a restart that finds whatever fits. Each packet of one has a spelling,
/// and a server has at most 130 starts.
pub fn groups_stay_viable()
    ensures opening { (setup : Setup) (top n : ℕ) → IsViable setup top n (1 ∷ []) [] (opening setup) }
    ensures goes { (setup : Setup) → IsSetup setup → (top n : ℕ) (terms : List ℕ) (claims : List Claimed) (g : Group) → IsViable setup top n terms claims g
        → (h : Happening) → IsLegalNext setup g claims h → (later : List ℕ)
        × IsViable setup top (suc n) later (claims_after claims h.event h.answer) (happens setup g h.event (ending h.answer)) }
    ensures begins { (setup : Setup) (top n : ℕ) (terms : List ℕ) (claims : List Claimed) (g : Group) → IsViable setup top n terms claims g
        → (i : ℕ) (how : Ending) (after : Group) → BeginsAnew setup top n g i how after → IsViable setup top (suc n) terms claims after }
    ensures packets { (setup : Setup) → IsSetup setup → (top n : ℕ) (terms : List ℕ) (claims : List Claimed) (g : Group) → IsViable setup top n terms claims g
        → (k : ℕ) (sent : Sent) → slice_get g.packets k ≡ Some sent → IsCanonicalPacket sent.packet }
    ensures starts { (setup : Setup) (top n : ℕ) (terms : List ℕ) (claims : List Claimed) (g : Group) → IsViable setup top n terms claims g
        → (i : ℕ) (s : Server) → RunsAs g i s → finite.len s.durable.starts ≤ 130 }
{}
