//! Looks: what the group shows, each in one turn. Those that the program takes are here, and others may be had by the same calls.
//!
//! A look adds one entry of the seat to the list, and tells what is so of the group where that entry stands, if its disks tell their
//! content. Where there is no memory for the entry or for what the look tells (`NoMemory`, 1), nothing is told and there is no entry.
ghost use Rattle.std.specs.Prelude.{◌≡◌, ◌<◌, ◌≤◌, ◌++◌, ◌∷◌, [], IfOk, IfSome, None, Ok, OnErr, OnOk};
ghost use Rattle.pf_group_rounds.specs.pf_group_network.specs.Shown.{IsLeader, is_acked};
ghost use Rattle.pf_group_rounds.specs.pf_group.specs.Packets.{least_from};
ghost use Rattle.pf_shared.specs.declared.moment.SeatMoment.TheVariants.{Look};
ghost use Rattle.pf_shared.specs.Behinds.{list_of, start_of};
ghost use Rattle.pf_shared.specs.Calls.{IsHistory};
ghost use Rattle.pf_shared.specs.Moments.{entry};
ghost use Rattle.pf_shared.specs.Seats.{IsInTurn, IsSameSeat, IsSeatOf, number_of, root_in, seen_by};
ghost use Rattle.pf_shared.specs.Telling.{Tells};

use crate::{Behind, GroupSeat, SharedGroup};
use pf_base::{NoMemory, ServerId, Slot, Term};
use pf_disk::Disk;
use pf_turn::Turn;
use std::alloc::Global;
use std::sync::Wait;

impl<D: Disk + Drop> SharedGroup<D> {
    /// Ends the turn of a look that tells this.
    pub fn end_look<T: Drop>(
        &self,
        seat: &mut GroupSeat<D>,
        mut turn: Turn<Behind<D>>,
        told: Result<T, NoMemory>,
    ) -> Result<T, NoMemory>
        requires seat { IsInTurn self.now seat.old }
        requires root { start_of turn.value ≡ root_in self.now }
        requires found { seen_by seat.old ≡ list_of turn.value }
        ensures seat { IsSeatOf self.now seat.new × IsSameSeat seat.old seat.new }
        ensures told { IfOk result (λ it. told ≡ Ok it) }
        ensures ok { OnOk result (seen_by seat.new ≡ list_of turn.value ++ entry (number_of seat.old) (Look None) ∷ []) }
        ensures err { OnErr result (seen_by seat.new ≡ list_of turn.value) }
        ensures history { IsHistory (root_in self.now) (seen_by seat.new) }
    {
        let number = seat.seat.number();
        let told = turn.value.looked(number, told);
        self.end(seat, turn);
        told
    }

    /// Whether the slot was acknowledged to a host in this term. `NoMemory` (1) is no entry.
    pub fn is_acked<R: Wait>(
        &self,
        rt: &R,
        _alloc: Global,
        seat: &mut GroupSeat<D>,
        term: Term,
        slot: Slot,
    ) -> Result<bool, NoMemory>
        requires { IsSeatOf self.now seat.old }
        ensures { Tells self.now seat.old seat.new result (λ is g. is ≡ is_acked g term slot) }
    {
        let turn = self.begin(rt, seat);
        let told = Ok(turn.value.group.is_acked(term, slot));
        self.end_look(seat, turn, told)
    }

    /// Of the running servers that serve the one of the greatest term: that term, and its number. `None` exactly where none serves.
    /// `NoMemory` (1) is no entry.
    pub fn leader<R: Wait>(
        &self,
        rt: &R,
        _alloc: Global,
        seat: &mut GroupSeat<D>,
    ) -> Result<Option<(Term, ServerId)>, NoMemory>
        requires { IsSeatOf self.now seat.old }
        ensures told { Tells self.now seat.old seat.new result (λ leader g. IsLeader g leader) }
        ensures low { IfOk result (λ leader. IfSome leader (λ served. served.1 < 3)) }
    {
        let turn = self.begin(rt, seat);
        let told = Ok(turn.value.group.leader());
        self.end_look(seat, turn, told)
    }

    /// The least packet from `from` on that is left, `None` exactly where none is. `NoMemory` (1) is no entry.
    pub fn left_from<R: Wait>(
        &self,
        rt: &R,
        _alloc: Global,
        seat: &mut GroupSeat<D>,
        from: u32,
    ) -> Result<Option<u32>, NoMemory>
        requires { IsSeatOf self.now seat.old }
        ensures told { Tells self.now seat.old seat.new result (λ left g. left ≡ least_from from g) }
        ensures few { IfOk result (λ left. IfSome left (λ k. (from ≤ k) × (k < 65536))) }
    {
        let turn = self.begin(rt, seat);
        let told = Ok(turn.value.least_from(from));
        self.end_look(seat, turn, told)
    }
}
