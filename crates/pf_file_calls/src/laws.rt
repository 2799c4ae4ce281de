//! Laws of plans, and of the asks for file data.
ghost use Rattle.std.specs.Prelude.{◌≡◌, ℕ, ◌/◌, ◌<◌, List, Some, length};
ghost use Rattle.pf_volume.specs.Volumes.{Extent, IsVolume, size_of};
ghost use Rattle.pf_base.specs.declared.asks.Reply.{Reply};
ghost use Rattle.pf_tree.specs.Calls.{FileCall};
ghost use Rattle.pf_tree_tables.specs.declared.changes.Txn.{Txn};
ghost use Rattle.pf_tree_tables.specs.Tables.{TablesAreWhole, Tables};
ghost use Rattle.pf_tree.specs.Trees.{Data, Tree, changed, refusal, tree_sight};
ghost use Rattle.pf_tree.specs.Standing.{PlanFollows, IsCall, TablesStandFor};
ghost use Rattle.pf_txn.specs.Spelling.{CanSpell, IsShortCall};
ghost use Rattle.pf_file_calls.specs.declared.calls.Pending.{Pending};
ghost use Rattle.pf_file_calls.specs.declared.calls.Planned.TheVariants.{Proposes, Refuses};
ghost use Rattle.pf_file_calls.specs.Calls.{planned};
ghost use Rattle.pf_file_calls.specs.Faults.{call_fault_of};
ghost use Rattle.pf_file_calls.specs.declared.moving.DataMoving.{DataMoving};
ghost use Rattle.pf_file_calls.specs.Blocks.{AskIsInside, reads_block, writes_block};
ghost use Rattle.pf_file_calls.specs.Moving.{AsksInside, IsTreeOf, data_moves, moves_on};

use pf_volume::places_are_apart;

/// Each ask for a block of the volume is valid, and its sectors lie in one chunk of it.
pub fn blocks_are_asked_inside()
    ensures reads { (v : Extent) (block : ℕ) → IsVolume v → block < size_of v / 8 → AskIsInside v (reads_block v block) }
    ensures writes { (v : Extent) (block : ℕ) (bytes : List ℕ) → IsVolume v → block < size_of v / 8 → AskIsInside v (writes_block v block bytes) }
{
    places_are_apart();
}

/// Each ask for file data is valid, and its sectors lie in one chunk of the volume, on whatever tables.
pub fn data_are_asked_inside()
    ensures first { (v : Extent) (tables : Tables) (size : ℕ) (call : FileCall) → IsVolume v → IsTreeOf v tables
        → AsksInside v (data_moves v tables size call) }
    ensures next { (v : Extent) (tables : Tables) (moving : DataMoving) (reply : Reply) → IsVolume v → IsTreeOf v tables
        → AsksInside v (moves_on v tables moving reply) }
{
    blocks_are_asked_inside();
}

/// Tables that stand for a tree are whole. On them a call is refused exactly as the tree refuses it, and what it proposes gives tables
/// that stand for the tree after the call. What is planned on whole tables has a spelling.
pub fn planned_calls_follow_the_tree()
    ensures whole { (d : Data) (tables : Tables) (tree : Tree) → TablesStandFor d tables tree → TablesAreWhole tables }
    ensures refused { (mount : ℕ) (v : Extent) (d : Data) (tables : Tables) (tree : Tree) (p : Pending) (number : ℕ) → TablesStandFor d tables tree
        → refusal (tree_sight d tree) p.call ≡ Some number → planned mount v d tables p ≡ Refuses (call_fault_of number) }
    ensures proposed { (mount : ℕ) (v : Extent) (d : Data) (tables : Tables) (tree : Tree) (p : Pending) (txn : Txn) → TablesStandFor d tables tree
        → IsCall p.call → planned mount v d tables p ≡ Proposes txn → PlanFollows d tables txn.changes tree (changed d tree p.call) }
    ensures spelled { (mount : ℕ) (v : Extent) (d : Data) (tables : Tables) (p : Pending) (txn : Txn) → TablesAreWhole tables → length tables.inodes ≡ 1024
        → IsShortCall p.call → planned mount v d tables p ≡ Proposes txn → CanSpell txn }
{}
