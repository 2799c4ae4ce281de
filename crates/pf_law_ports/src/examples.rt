//! The definitions at a worked history of a group.
ghost use Rattle.std.specs.Prelude.{Some};
ghost use Rattle.pf_base.specs.declared.asks.Reply.TheVariants.{Written};
ghost use Rattle.pf_entry.specs.Ops.{Sector};
ghost use Rattle.pf_protocol.specs.Answers.{IsLegal};
ghost use Rattle.pf_protocol.specs.Shown.{IsSector, small_group};
ghost use Rattle.pf_law_ports.specs.Driven.{IsDriven, IsUndisturbedStep};
ghost use Rattle.pf_law_ports.specs.Worked.{its_ask, its_past, waiting_port, answered_port};

use pf_protocol::slots_are_committed_out_of_order;

/// At the history in which slots are committed out of order, a port hands on one write, others go on, and its next step replies that
/// the write is written.
pub fn a_write_is_acknowledged()
    ensures legal { (first second : Sector) → IsSector first → IsSector second → IsLegal small_group (its_past first second).history }
    ensures driven { (first second : Sector) → IsDriven small_group (its_past first second) (waiting_port first) }
    ensures replies { (first second : Sector) → IsUndisturbedStep small_group (its_past first second) (waiting_port first) (its_ask first) (Some Written)
        (its_past first second) answered_port }
{
    slots_are_committed_out_of_order();
}
