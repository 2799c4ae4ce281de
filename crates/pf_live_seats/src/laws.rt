//! What holds of the ends of every live line.
ghost use Rattle.std.specs.Prelude.{◌≡◌};
ghost use Rattle.pf_base.specs.declared.live_end.LiveEnd.{LiveEnd};
ghost use Rattle.pf_shared.specs.pf_group.specs.GroupIs.{GroupIs};
ghost use Rattle.pf_live_seats.specs.declared.plan.LinePlan.{LinePlan};
ghost use Rattle.pf_live_seats.specs.Deliveries.{LiveTrace};
ghost use Rattle.pf_live_seats.specs.Ends.{HasEnd};

/// Of the three ends of a line at most one holds.
pub fn ends_exclude_each_other()
    ensures { (plan : LinePlan) (root : GroupIs) (list : LiveTrace) (d e : LiveEnd) → HasEnd plan root list d → HasEnd plan root list e → d ≡ e }
{}
