//! What holds of every live line that is judged.
ghost use Rattle.pf_base.specs.declared.live_end.LiveEnd.{LiveEnd};
ghost use Rattle.pf_live_seats.specs.pf_group.specs.GroupIs.{GroupIs};
ghost use Rattle.pf_live_seats.specs.declared.plan.LinePlan.{LinePlan};
ghost use Rattle.pf_live_seats.specs.Deliveries.{LiveTrace};
ghost use Rattle.pf_live_seats.specs.Ends.{HasEnd};
ghost use Rattle.pf_live_line.specs.Judging.{HasNewLeader, MayGoOn};

/// A line that can go on, and whose leader is that of before it was judged, has none of the three ends.
pub fn lines_that_go_on_have_no_end()
    ensures { (plan : LinePlan) (root : GroupIs) (before list : LiveTrace) → (HasNewLeader root before list → ⊥) → MayGoOn plan root before list → (e : LiveEnd)
        → HasEnd plan root list e → ⊥ }
{}
