//! A history over three anchors in which one never answers, and one in which a ballot has no value.
ghost use Rattle.std.specs.Prelude.{◌≡◌, [], ◌∷◌, Some, take};
ghost use Rattle.pf_paxos.specs.Examples.{zero_half};
ghost use Rattle.pf_paxos.specs.declared.ballot.BallotStep.TheVariants.{NoValue};
ghost use Rattle.pf_paxos.specs.BallotRuns.{At, Calls, GetsRead, Move, anchor_history, ballot_move, ballots_opening, run_ballots};
ghost use Rattle.pf_paxos.specs.Quorums.{AreAllRegisters, IsDecidedOver};
ghost use Rattle.pf_paxos.specs.BallotExamples.{empty_events, silent_events};

/// Anchor 2 never answers, and a value is decided. So there are histories over registers in which a position is decided.
pub fn two_anchors_decide()
    ensures registers { AreAllRegisters 3 (anchor_history 3 2 silent_events) }
    ensures decided { IsDecidedOver 3 2 (anchor_history 3 2 silent_events) 25 (7 ∷ []) }
{}

/// A ballot with no input that finds nothing on two anchors ends with no value.
pub fn ballots_may_lack_values()
    ensures { (move : Move) × ((ballot_move (run_ballots (ballots_opening 3 2) (take 12 empty_events)) (Calls 1 (At 1 (GetsRead zero_half))) ≡ Some move)
        × (move.step ≡ NoValue)) }
{}
