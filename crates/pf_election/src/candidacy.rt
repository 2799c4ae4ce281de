//! The votes of an election.
ghost use Rattle.std.specs.Prelude.{◌≡◌, ◌<◌, ◌==◌, ◌&&◌, MatchOption, None, Some, is_some, not, if◌then◌else◌};

use pf_base::ServerId;
use pf_entry::VoteLog;
use std::marker::Model;

/// The votes that the candidate of this number holds: its own, and that of one other server. With three servers in a
/// group these two are a majority.
#[derive(Drop)]
pub struct Candidacy {
    number: ServerId,
    own: VoteLog,
    other: Option<VoteLog>,
}

impl Model for Candidacy {
    ghost use Rattle.pf_election.specs.Votes.{Votes, votes_code};

    ghost Value = { Votes };

    ghost coded = { votes_code };

    ghost view = { λ a. record { number = a.number; own = a.own; other = a.other } };
}

impl Candidacy {
    /// A candidacy of this server with the own vote alone.
    pub fn new(number: ServerId, own: VoteLog) -> Candidacy
        requires { number < 3 }
        ensures { result ≡ record { number = number; own = own; other = None } }
    {
        Candidacy {
            number,
            own,
            other: None,
        }
    }

    /// Takes a vote. The first one of another server makes a majority, and is kept; it answers true at that one
    /// exactly. A later one, and the candidate's own, is dropped.
    pub fn add(&mut self, from: ServerId, vote: VoteLog) -> bool
        requires { from < 3 }
        ensures first { result ≡ (not (from == self.old.number) && not (is_some self.old.other)) }
        ensures kept { self.new ≡ record self.old { other = if result then Some vote else self.old.other } }
    {
        let is_first = from != self.number && self.other.is_none();
        if is_first {
            self.other = Some(vote);
        }
        is_first
    }

    /// The candidate's own vote.
    pub fn own(&self) -> &VoteLog
        ensures { result.now ≡ self.now.own }
    {
        &self.own
    }

    /// The vote of another server, `None` exactly before the first.
    pub fn other(&self) -> Option<&VoteLog>
        ensures { MatchOption result (self.now.other ≡ None) (λ vote. self.now.other ≡ Some vote.now) }
    {
        self.other.as_ref()
    }
}
