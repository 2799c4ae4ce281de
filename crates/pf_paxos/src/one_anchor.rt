//! A ballot over one anchor beside a proposer.
ghost use Rattle.std.specs.Prelude.{◌≡◌, ℕ, List, Option};
ghost use Rattle.pf_paxos.specs.declared.block.Block.{Block};
ghost use Rattle.pf_paxos.specs.declared.proposer.ProposerPhase.TheVariants.{Idle};
ghost use Rattle.pf_paxos.specs.declared.parts.AnchorAsk.TheVariants.{OwnBlock, Half};
ghost use Rattle.pf_paxos.specs.declared.ballot.BallotStep.TheVariants.{Go};
ghost use Rattle.pf_paxos.specs.Proposers.{ProposerIs, IsWriting, IsReadingHalf, new_proposer, written_in, proposer_read};
ghost use Rattle.pf_paxos.specs.Proposers as proposers;
ghost use Rattle.pf_paxos.specs.Parts.{part_at};
ghost use Rattle.pf_paxos.specs.Ballots.{BallotIs, new_ballot, started, written_at, read_at};
ghost use Rattle.pf_paxos.specs.Deciding.{Decides};
ghost use Rattle.pf_paxos.specs.Quorums.{AnchorTurn, DecidesOver, turns_on};
ghost use Rattle.pf_paxos.specs.OneAnchor.{BallotFollows, Matches, LacksValue, EndsWithNoValue};

/// Over one anchor, of which a ballot needs one, a ballot makes the steps of a proposer: it begins as one, each of its calls with the next
/// ask makes of it what the proposer's call makes of that, and tells the same. But where phase 1 ends with neither an own input nor a
/// nonzero bal, of which a proposer is not asked, the ballot ends with no value.
pub fn ballots_over_one_anchor_are_proposers()
    ensures begins { (mount : ℕ) (own : Block) → BallotFollows (new_ballot 1 1 mount own) (new_proposer mount own) }
    ensures writes { (b : BallotIs) (p : ProposerIs) → BallotFollows b p → IsWriting p.phase → (part_at b.parts 0).asked ≡ OwnBlock }
    ensures reads { (b : BallotIs) (p : ProposerIs) (half : ℕ) → BallotFollows b p → IsReadingHalf p.phase half → (part_at b.parts 0).asked ≡ Half half }
    ensures start { (b : BallotIs) (p : ProposerIs) (above : ℕ) (input : Option (List ℕ)) → BallotFollows b p → p.phase ≡ Idle
        → Matches (record { ballot = started b above input; step = Go }) (proposers.started p above input) }
    ensures written { (b : BallotIs) (p : ProposerIs) → BallotFollows b p → IsWriting p.phase
        → Matches (record { ballot = written_at b 0; step = Go }) (written_in p.phase p) }
    ensures read { (b : BallotIs) (p : ProposerIs) (half : ℕ) (blocks : List Block) → BallotFollows b p → IsReadingHalf p.phase half → (LacksValue p blocks → ⊥)
        → Matches (read_at b 0 blocks) (proposer_read p.phase p blocks) }
    ensures lacks { (b : BallotIs) (p : ProposerIs) (blocks : List Block) → BallotFollows b p → LacksValue p blocks → EndsWithNoValue (read_at b 0 blocks) }
{}

/// What decides over one anchor, of which a ballot needs one, is what decides there.
pub fn decisions_over_one_anchor_are_its()
    ensures over { (history : List AnchorTurn) (ballot : ℕ) (value : List ℕ) → DecidesOver 1 1 history ballot value
        → Decides (turns_on 0 history) ballot value }
    ensures its { (history : List AnchorTurn) (ballot : ℕ) (value : List ℕ) → Decides (turns_on 0 history) ballot value → DecidesOver 1 1 history ballot value }
{}
