//! One event, and what follows on it.
ghost use Rattle.std.specs.Prelude.{◌≡◌, [], IfOk, OnErr, OnOk, false};
ghost use Rattle.pf_protocol.specs.Answers.{claims_of};
ghost use Rattle.pf_group_rounds.specs.pf_group.specs.Events.{rule_event};
ghost use Rattle.pf_group_rounds.specs.Agreeing.{chunk_standing};
ghost use Rattle.pf_group_rounds.specs.Rounds.{applied};
ghost use Rattle.pf_chunk.specs.Happenings.{happened};
ghost use Rattle.pf_chunk.specs.Events.{IsChunkStep};
ghost use Rattle.pf_chunk.specs.Steps.{EventHasFailed, HasFollowed, HasHappened};
ghost use Rattle.pf_chunk.specs.Views.{IsListed, ChunkIsReady, run_of};

use crate::ChunkGroup;
use crate::telling::tell_reads;
use pf_base::NoMemory;
use pf_disk::Disk;
use pf_group_copy::{Gate, Workers};
use pf_group_rounds::apply_all;
use pf_group_rounds::pf_group::GroupEvent;
use pf_protocol::Answer;
use std::thread::Threads;

impl<D: Disk + Drop> ChunkGroup<D> {
    /// One event, and what follows on it. After `NoMemory` (1) a beginning of that has happened.
    pub(crate) fn happen<R: Threads + Sync, G: Gate + Sync>(
        &mut self,
        workers: &Workers<'_, R, G>,
        event: GroupEvent,
        out: &mut Vec<u8>,
    ) -> Result<Answer, NoMemory>
        requires ready { ChunkIsReady self.old }
        requires event { IsChunkStep event }
        ensures went { IfOk result (λ answer. HasHappened (λ halts c. happened halts c (rule_event event false)) self.old out.old.items answer out.new.items
            self.new) }
        ensures next { OnOk result (self.new.next ≡ self.old.next) }
        ensures err { OnErr result (EventHasFailed (λ halts. (happened halts (run_of halts self.old) (rule_event event false)).chunk.group) self.old.group
            self.new.group) }
    {
        let answer = self.group.step(workers.alloc, event)?;
        self.follow(workers, out)?;
        Ok(answer)
    }

    /// What follows on an event.
    pub(crate) fn follow<R: Threads + Sync, G: Gate + Sync>(
        &mut self,
        workers: &Workers<'_, R, G>,
        out: &mut Vec<u8>,
    ) -> Result<(), NoMemory>
        requires none { claims_of [] self.old.group.history ≡ [] }
        requires listed { IsListed self.old.group.taken self.old.waiting }
        ensures went { OnOk result (HasFollowed self.old out.old.items out.new.items self.new) }
        ensures err { OnErr result (EventHasFailed (λ halts. applied halts (chunk_standing halts self.old.group)) self.old.group self.new.group) }
    {
        apply_all(workers, &mut self.group)?;
        // That the history is legal is asked of the proof alone.
        self.group.laws();
        tell_reads(&mut self.group, &mut self.waiting, self.number, out)
    }
}
