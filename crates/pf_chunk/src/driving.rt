//! Ports of hosts, and of the mover of a chunk, into a group.
ghost use Rattle.std.specs.Prelude.{◌≡◌, ◌<◌, IfOk, IfSome, IsSome, List, None, OnErr, OnOk, Some, map};
ghost use Rattle.std.specs.Option.{option_and_then};
ghost use Rattle.pf_asks.specs.Desks.{DeskCall, CallsLead, CallIsLook};
ghost use Rattle.pf_asks.specs.Ports.{ReadIsCounted, IsOfKind, rehomed};
ghost use Rattle.pf_base.specs.Asks.{Answers, IsValid};
ghost use Rattle.pf_base.specs.Span.{IsWritable};
ghost use Rattle.pf_base.specs.declared.asks.Ask.{Ask as AskIs};
ghost use Rattle.pf_entry.specs.Lists.{Every};
ghost use Rattle.pf_group_rounds.specs.Halts.{Halt};
ghost use Rattle.pf_chunk.specs.Driving.{HasDriven, ChunkHasGone, HasHeard, HasLed, HandsOn, Heeds, PortDrove, StepsBy, ask_at_port, port_asked, driven, led, range_read, run_by};
ghost use Rattle.pf_chunk.specs.Runs.{left_by_ports, most_ports, new_ports, taking_ports};
ghost use Rattle.pf_chunk.specs.Steps.{EventHasFailed};
ghost use Rattle.pf_chunk.specs.Views.{ChunkIsReady, run_of};

use crate::ChunkGroup;
use pf_asks::{Desk, Port};
use pf_base::{Ask, NoMemory, Range, Reply};
use pf_disk::Disk;
use pf_group_copy::{Gate, Workers};
use std::alloc::Global;
use std::mem::{replace, swap};
use std::thread::Threads;

/// A step of a port, or a half of it: its reply is heard, its ask is handed on, or where there is no reply its ask is handed on.
#[derive(Clone, Copy)]
pub enum PortStep {
    Hear,
    Lead,
    Drive,
}

/// The port takes the step over the rest of its chunk. `NoMemory` (1) leaves the port as it was; the chunk was asked nothing but how things
/// stand.
fn take_step<K: Desk>(
    port: &mut Port,
    step: PortStep,
    alloc: Global,
    desk: &mut K,
) -> Result<Option<Reply>, NoMemory>
    requires pending { (ask : AskIs) × (port.old.ask ≡ Some ask) }
    ensures stepped { IfOk result (λ reply. (ask : AskIs) → port.old.ask ≡ Some ask
        → (calls : List DeskCall) × CallsLead K.says desk.old calls desk.new × StepsBy step port.old ask calls reply port.new) }
    ensures kind { IfOk result (λ reply. IfSome reply (λ r. (ask : AskIs) → port.old.ask ≡ Some ask → IsOfKind ask r)) }
    ensures whole { ReadIsCounted (K.counts desk.old) port.old.sent port.old.ask
        → IfOk result (λ reply. IfSome reply (λ r. (ask : AskIs) → port.old.ask ≡ Some ask → Answers ask r)) }
    ensures err { OnErr result ((port.new ≡ port.old) × ((calls : List DeskCall) × CallsLead K.says desk.old calls desk.new × Every CallIsLook calls)) }
{
    match step {
        PortStep::Hear => port.hear(alloc, desk),
        PortStep::Lead => {
            port.lead(alloc, desk)?;
            Ok(None)
        }
        PortStep::Drive => port.drive(alloc, desk),
    }
}

/// The chunk and the range of a pending read.
fn pending_read(port: &Port) -> Option<(u8, Range)>
    ensures read { result ≡ option_and_then range_read port.now.ask }
    ensures valid { IfSome result (λ read. IsWritable read.1.first read.1.count) }
{
    let Some(Ask::Read { chunk, range }) = port.ask() else {
        return None;
    };
    Some((*chunk, *range))
}

/// The reply to a port's ask, of which this is known if it was a read. An answer of other sectors than were asked for is dropped, and the
/// read is pending again.
fn heed(port: &mut Port, read: Option<(u8, Range)>, reply: Option<Reply>) -> Option<Reply>
    requires none { IsSome reply → port.old.ask ≡ None }
    requires valid { IfSome read (λ read. IsWritable read.1.first read.1.count) }
    ensures { (ask : AskIs) → read ≡ range_read ask → IfSome reply (IsOfKind ask) → Heeds ask reply port.old result port.new }
{
    let Some((chunk, range)) = read else {
        return reply;
    };
    let Some(Reply::Bytes(data)) = &reply else {
        return reply;
    };
    if data.len() == range.count() as usize {
        return reply;
    }
    port.put(Ask::Read { chunk, range });
    None
}

impl<D: Disk + Drop> ChunkGroup<D> {
    /// Puts an ask into the port of a mount, or of the mover, which has none. Nothing happens to the group yet.
    pub fn put(&mut self, mount: u8, ask: Ask)
        requires ready { ChunkIsReady self.old }
        requires mount { mount < most_ports }
        requires none { ask_at_port self.old.ports mount ≡ None }
        requires valid { IsValid ask }
        ensures put { (halts : List Halt) → run_of halts self.new ≡ port_asked (run_of halts self.old) mount ask }
        ensures ready { ChunkIsReady self.new }
        ensures same { self.new ≡ record self.old { ports = self.new.ports } }
    {
        let port = &mut self.ports[mount as usize];
        port.put(ask);
    }

    /// The chunk of this group goes to `next`, a new group: with it go all ports, which begin anew there. Their pending asks count as not
    /// submitted, so that no answer of this group is a reply to them; this group has new ports. It takes no memory.
    pub fn hand_ports(&mut self, next: &mut ChunkGroup<D>)
        requires from { ChunkIsReady self.old }
        requires to { ChunkIsReady next.old }
        requires new { next.old.ports ≡ new_ports }
        ensures from { self.new ≡ record self.old { ports = new_ports } }
        ensures to { next.new ≡ record next.old { ports = map rehomed self.old.ports } }
        ensures run { (halts : List Halt) → (run_of halts self.new ≡ left_by_ports (run_of halts self.old))
            × (run_of halts next.new ≡ taking_ports (run_of halts self.old) (run_of halts next.old)) }
        ensures ready { ChunkIsReady self.new × ChunkIsReady next.new }
    {
        swap(&mut self.ports, &mut next.ports);
        for port in next.ports.iter_mut() {
            port.rehome();
        }
    }

    /// One step of the port of a mount, or of the mover, for its pending ask: its reply, if the group has answered its last submission. Else the ask is
    /// handed to the leader of the greatest term, if it goes there, which is one event of the group; what follows on it is as in `ask`.
    /// A reply is of its ask's kind, and has as many sectors: disks that do not tell their content may lead a group to answer a read with
    /// others, which is not heeded.
    ///
    /// After `NoMemory` (1) the group stands after its last whole step, with no job in hand: a beginning of what would have happened.
    pub fn drive<R: Threads + Sync, G: Gate + Sync>(
        &mut self,
        workers: &Workers<'_, R, G>,
        mount: u8,
        out: &mut Vec<u8>,
    ) -> Result<Option<Reply>, NoMemory>
        requires ready { ChunkIsReady self.old }
        requires mount { mount < most_ports }
        requires pending { IsSome (ask_at_port self.old.ports mount) }
        ensures went { IfOk result (λ reply. HasDriven mount self.old out.old.items reply out.new.items self.new) }
        ensures answers { IfOk result (λ reply. IfSome reply (λ r. (ask : AskIs) → ask_at_port self.old.ports mount ≡ Some ask → Answers ask r)) }
        ensures next { OnOk result (self.new.next ≡ self.old.next) }
        ensures port { IfOk result (λ reply. PortDrove mount reply self.old self.new) }
        ensures err { OnErr result (EventHasFailed (λ halts. (driven halts (run_of halts self.old) mount).chunk.group) self.old.group self.new.group) }
    {
        self.advance(PortStep::Drive, workers, mount, out)
    }

    /// The first half of a step alone: the reply to the pending ask of a mount, or of the mover, if the group has answered its last
    /// submission, which is pending no more then; one that does not fit is not heeded, as in `drive`. Else nothing is different. It is no
    /// event of the group.
    ///
    /// `NoMemory` (1) leaves the chunk as it was.
    pub fn hear(&mut self, alloc: Global, mount: u8) -> Result<Option<Reply>, NoMemory>
        requires ready { ChunkIsReady self.old }
        requires mount { mount < most_ports }
        requires pending { IsSome (ask_at_port self.old.ports mount) }
        ensures went { IfOk result (λ reply. HasHeard mount self.old reply self.new) }
        ensures answers { IfOk result (λ reply. IfSome reply (λ r. (ask : AskIs) → ask_at_port self.old.ports mount ≡ Some ask → Answers ask r)) }
        ensures next { OnOk result (self.new.next ≡ self.old.next) }
        ensures port { IfOk result (λ reply. PortDrove mount reply self.old self.new) }
        ensures err { OnErr result (self.new ≡ self.old) }
    {
        // That the history is legal is asked of the proof alone.
        self.laws();
        self.hand_on(PortStep::Hear, alloc, mount)
    }

    /// The other half of a step alone: the pending ask is handed to the leader of the greatest term, if it goes there, and no answer is looked
    /// for. It is one event of the group; what follows on it is as in `ask`.
    ///
    /// After `NoMemory` (1) the group stands after its last whole step, with no job in hand: a beginning of what would have happened.
    pub fn lead<R: Threads + Sync, G: Gate + Sync>(
        &mut self,
        workers: &Workers<'_, R, G>,
        mount: u8,
        out: &mut Vec<u8>,
    ) -> Result<(), NoMemory>
        requires ready { ChunkIsReady self.old }
        requires mount { mount < most_ports }
        requires pending { IsSome (ask_at_port self.old.ports mount) }
        ensures went { OnOk result (HasLed mount self.old out.old.items out.new.items self.new) }
        ensures next { OnOk result (self.new.next ≡ self.old.next) }
        ensures port { OnOk result (PortDrove mount None self.old self.new) }
        ensures err { OnErr result (EventHasFailed (λ halts. (led halts (run_of halts self.old) mount).chunk.group) self.old.group self.new.group) }
    {
        self.advance(PortStep::Lead, workers, mount, out)?;
        Ok(())
    }

    /// A step, and what follows on it. After `NoMemory` (1) a beginning of that has happened.
    fn advance<R: Threads + Sync, G: Gate + Sync>(
        &mut self,
        step: PortStep,
        workers: &Workers<'_, R, G>,
        mount: u8,
        out: &mut Vec<u8>,
    ) -> Result<Option<Reply>, NoMemory>
        requires ready { ChunkIsReady self.old }
        requires mount { mount < most_ports }
        requires pending { IsSome (ask_at_port self.old.ports mount) }
        ensures went { IfOk result (λ reply. ChunkHasGone step mount self.old out.old.items reply out.new.items self.new) }
        ensures none { IfOk result (λ reply. step ≡ PortStep.Lead → reply ≡ None) }
        ensures answers { IfOk result (λ reply. IfSome reply (λ r. (ask : AskIs) → ask_at_port self.old.ports mount ≡ Some ask → Answers ask r)) }
        ensures next { OnOk result (self.new.next ≡ self.old.next) }
        ensures port { IfOk result (λ reply. PortDrove mount reply self.old self.new) }
        ensures err { OnErr result (EventHasFailed (λ halts. (run_by step halts (run_of halts self.old) mount).chunk.group) self.old.group self.new.group) }
    {
        // That the history is legal is asked of the proof alone.
        self.laws();
        let before = self.happened();
        let reply = self.hand_on(step, workers.alloc, mount)?;
        if self.happened() == before {
            return Ok(reply);
        }
        self.follow(workers, out)?;
        Ok(reply)
    }

    /// The step itself; what follows on it is left to the caller. `NoMemory` (1) leaves the chunk as it was.
    fn hand_on(
        &mut self,
        step: PortStep,
        alloc: Global,
        mount: u8,
    ) -> Result<Option<Reply>, NoMemory>
        requires ready { ChunkIsReady self.old }
        requires mount { mount < most_ports }
        requires pending { IsSome (ask_at_port self.old.ports mount) }
        ensures went { IfOk result (λ reply. HandsOn step mount self.old reply self.new) }
        ensures answers { IfOk result (λ reply. IfSome reply (λ r. (ask : AskIs) → ask_at_port self.old.ports mount ≡ Some ask → Answers ask r)) }
        ensures err { OnErr result (self.new ≡ self.old) }
    {
        let mut port = replace(&mut self.ports[mount as usize], Port::new());
        let read = pending_read(&port);
        let reply = match take_step(&mut port, step, alloc, self) {
            Ok(reply) => reply,
            Err(fault) => {
                self.ports[mount as usize] = port;
                return Err(fault);
            }
        };
        let reply = heed(&mut port, read, reply);
        self.ports[mount as usize] = port;
        Ok(reply)
    }
}
