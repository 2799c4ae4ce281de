//! Laws of every history of a position over some anchors, of which each ballot needs a quorum.
ghost use Rattle.std.specs.Prelude.{◌≡◌, ◌≢◌, ℕ, ◌*◌, ◌<◌, ◌≤◌, List, [], Some, slice_get, take};
ghost use Rattle.pf_paxos.specs.declared.block.Block.{Block};
ghost use Rattle.pf_paxos.specs.declared.ballot.BallotStep.TheVariants.{Decided};
ghost use Rattle.pf_paxos.specs.BallotRuns.{BallotEvent, Calls, BallotCall, Move, ballots_opening, run_ballots, ballot_move, anchor_history, WasPutIn};
ghost use Rattle.pf_paxos.specs.Registers.{Turn, AsksWrite};
ghost use Rattle.pf_paxos.specs.Quorums.{turns_on, AreAllRegisters, DecidesOver, IsDecidedOver, FindsNothingOver, IsOpenAt};

/// Agreement: where the blocks of each anchor are registers and any two quorums share an anchor, no position is decided with two values,
/// whichever anchors each ballot used, whatever the inputs, and whichever mounts are killed.
pub fn no_two_decisions_over()
    ensures { (anchors quorum : ℕ) → anchors < 2 * quorum → (events : List BallotEvent) → AreAllRegisters anchors (anchor_history anchors quorum events)
        → (a b : ℕ) (v w : List ℕ) → DecidesOver anchors quorum (anchor_history anchors quorum events) a v
        → DecidesOver anchors quorum (anchor_history anchors quorum events) b w → v ≡ w }
{}

/// Once a ballot decides, each write of phase 2 in this ballot and in every later one has its value, at whichever anchor, also where it was
/// asked before the decision. More: each block with such a bal has it.
pub fn later_ballots_keep_the_value_over()
    ensures { (anchors quorum : ℕ) → anchors < 2 * quorum → (events : List BallotEvent) → AreAllRegisters anchors (anchor_history anchors quorum events)
        → (ballot : ℕ) (value : List ℕ) → DecidesOver anchors quorum (anchor_history anchors quorum events) ballot value
        → (anchor moment : ℕ) (turn : Turn) (block : Block) → slice_get (turns_on anchor (anchor_history anchors quorum events)) moment ≡ Some turn
        → turn.client < 16 → turn.ask ≡ Some (AsksWrite block) → ballot ≤ block.bal → block.value ≡ value }
{}

/// Where a sync finds no nonzero bal on a quorum of the anchors, no ballot that decides had its write of phase 2 answered on all of its own
/// quorum by the time at which the sync's first read was asked. So the position was not decided then.
pub fn quiet_positions_were_undecided_over()
    ensures { (anchors quorum : ℕ) → anchors < 2 * quorum → (events : List BallotEvent) → AreAllRegisters anchors (anchor_history anchors quorum events)
        → (from ballot : ℕ) (value : List ℕ) → FindsNothingOver anchors quorum (anchor_history anchors quorum events) from
        → (d : DecidesOver anchors quorum (anchor_history anchors quorum events) ballot value) → IsOpenAt d from }
{}

/// What a mount tells as decided is decided, by what was answered and asked at the anchors alone. This holds over any memory, and of any
/// count of anchors.
pub fn told_values_are_decided_over()
    ensures { (anchors quorum : ℕ) (events : List BallotEvent) (moment mount : ℕ) (call : BallotCall) (move : Move) (value : List ℕ)
        → slice_get events moment ≡ Some (Calls mount call) → ballot_move (run_ballots (ballots_opening anchors quorum) (take moment events)) (Calls mount call)
        ≡ Some move → move.step ≡ Decided value → IsDecidedOver anchors quorum (anchor_history anchors quorum events) moment value }
{}

/// A decided value was put in by some mount, in this position.
pub fn decided_values_were_put_in_over()
    ensures { (anchors quorum : ℕ) → 0 < quorum → (events : List BallotEvent) → AreAllRegisters anchors (anchor_history anchors quorum events)
        → (ballot : ℕ) (value : List ℕ) → DecidesOver anchors quorum (anchor_history anchors quorum events) ballot value → value ≢ [] → WasPutIn events value }
{}
