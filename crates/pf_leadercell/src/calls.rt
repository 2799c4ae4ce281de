//! What a leader cell does.
ghost use Rattle.std.specs.Prelude.{◌≡◌, ◌≤◌, ◌<◌, [], ◌∷◌, ◌++◌, IfOk};
ghost use Rattle.pf_leadercell.specs.Published.{Begins, last_of, AllUpTo};
ghost use Rattle.pf_leadercell.specs.Passes.{seen_by, IsFirstPass, IsPassOf};

use crate::cell::{LeaderCell, LeaderPass};
use crate::view::{CellTell, Hint, Publish};
use crossbeam_utils::atomic::seq_cell::RuledSeqCell;
use pf_base::{NoMemory, ServerId, Term};
use std::alloc::Global;
use std::sync::Wait;

impl LeaderCell {
    /// A cell in which term 1 of server 0 counts as published, and its first pass. `NoMemory` (1) where memory runs out.
    pub fn new(alloc: Global) -> Result<(LeaderCell, LeaderPass), NoMemory>
        ensures pass { IfOk result (λ made. IsPassOf made.0 made.1 × IsFirstPass made.1) }
        ensures seen { IfOk result (λ made. seen_by made.1 ≡ (1, 0) ∷ []) }
    {
        let (cell, pass) = RuledSeqCell::ruled(alloc, [1, 0])?;
        Ok((
            LeaderCell { cell },
            LeaderPass {
                pass,
                term: 1,
                server: 0,
            },
        ))
    }

    /// Another pass, which has seen what this one has. Takes no memory.
    pub fn split(&self, pass: &mut LeaderPass) -> LeaderPass
        requires { IsPassOf self.now pass.old }
        ensures kept { IsPassOf self.now pass.new × (seen_by pass.new ≡ seen_by pass.old) × (IsFirstPass pass.old → IsFirstPass pass.new) }
        ensures given { IsPassOf self.now result × (seen_by result ≡ seen_by pass.old) }
    {
        let other = self.cell.split_pass::<CellTell>(&mut pass.pass);
        LeaderPass {
            pass: other,
            term: 0,
            server: 0,
        }
    }

    /// Publishes a leader. A term below the one that stands changes nothing; after either the pass has seen a term that is
    /// not below `term`. Only the first pass publishes. May wait for calls of other threads.
    pub fn publish<R: Wait>(&self, rt: &R, pass: &mut LeaderPass, term: Term, server: ServerId)
        requires pass { IsPassOf self.now pass.old × IsFirstPass pass.old }
        requires server { server < 3 }
        ensures pass { IsPassOf self.now pass.new × IsFirstPass pass.new }
        ensures published { (last_of (seen_by pass.old)).0 ≤ term → seen_by pass.new ≡ seen_by pass.old ++ (term, server) ∷ [] }
        ensures lower { term < (last_of (seen_by pass.old)).0 → seen_by pass.new ≡ seen_by pass.old }
        ensures reached { term ≤ (last_of (seen_by pass.new)).0 }
    {
        if term < pass.term {
            return;
        }
        self.cell
            .swap_as::<Publish, R>(rt, &mut pass.pass, [term, u64::from(server)]);
        pass.term = term;
        pass.server = server;
    }

    /// The leader that was published last, as far as the pass has now seen. No term that the pass has seen is above its
    /// term. May wait for calls of other threads.
    pub fn hint<R: Wait>(&self, rt: &R, pass: &mut LeaderPass) -> (Term, ServerId)
        requires { IsPassOf self.now pass.old }
        ensures pass { IsPassOf self.now pass.new × (IsFirstPass pass.old → IsFirstPass pass.new × (seen_by pass.new ≡ seen_by pass.old)) }
        ensures seen { Begins (seen_by pass.old) (seen_by pass.new) × (last_of (seen_by pass.new) ≡ result) }
        ensures top { AllUpTo result.0 (seen_by pass.new) }
        ensures server { result.1 < 3 }
    {
        let words = self.cell.load_as::<Hint, R>(rt, &mut pass.pass);
        (words[0], words[1] as u8)
    }
}
