//! A chunk as its ports see it.
ghost use Rattle.std.specs.Prelude.{◌≡◌, length};
ghost use Rattle.pf_entry.specs.Lists.{Every};
ghost use Rattle.pf_chunk.specs.Asks.{CountsSectors, ChunkSays};

use crate::ChunkGroup;
use pf_asks::Desk;
use pf_base::{Data, NoMemory, Payload, Range, Sector, ServerId, Slot, Term};
use pf_disk::Disk;
use pf_group_rounds::pf_group::GroupEvent;
use pf_protocol::Answer;
use std::alloc::Global;

/// Each sector has 512 bytes: its type says so, and after this the list that contracts see does too.
fn are_whole(sectors: &[Sector])
    ensures { Every (λ bytes. length bytes ≡ 512) sectors.now }
{
    let _count = sectors.len();
}

/// Each call is one step of the group at most, and what follows on it is left to the caller.
impl<D: Disk + Drop> Desk for ChunkGroup<D> {
    ghost says = { ChunkSays };

    ghost counts = { CountsSectors };

    fn leader(&mut self, _alloc: Global) -> Result<Option<(Term, ServerId)>, NoMemory> {
        // That no term has two leaders is asked of the proof alone.
        self.group.laws();
        Ok(self.group.leader())
    }

    fn submit(
        &mut self,
        alloc: Global,
        server: ServerId,
        range: Range,
        payload: &Payload,
    ) -> Result<Option<Slot>, NoMemory> {
        let payload = payload.try_clone()?;
        are_whole(payload.as_slice());
        let event = GroupEvent::Submit {
            server,
            range,
            payload,
        };
        match self.group.step(alloc, event)? {
            Answer::Slot(slot) => Ok(Some(slot)),
            _ => Ok(None),
        }
    }

    fn fetch(
        &mut self,
        alloc: Global,
        server: ServerId,
        range: Range,
    ) -> Result<Option<u64>, NoMemory> {
        match self.group.step(alloc, GroupEvent::Fetch { server, range })? {
            Answer::Read(number) => Ok(Some(number)),
            _ => Ok(None),
        }
    }

    fn acked(&mut self, _alloc: Global, term: Term, slot: Slot) -> Result<bool, NoMemory> {
        Ok(self.group.is_acked(term, slot))
    }

    fn take_read(&mut self, _alloc: Global, number: u64) -> Result<Option<Data>, NoMemory> {
        // That the history is legal is asked of the proof alone.
        self.group.laws();
        Ok(self.group.take_read(number))
    }
}
