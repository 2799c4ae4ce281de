//! One group, as a host sees it.
ghost use Rattle.std.specs.Prelude.{◌≡◌, ℕ, ◌<◌, IfOk, IfSome, OnErr, length};
ghost use Rattle.pf_base.specs.Span.{IsWritable};
ghost use Rattle.pf_asks.specs.Desks.{DeskCall, Led, Submitted, Fetched, WasAcked, Took};

use pf_base::{Data, NoMemory, Payload, Range, ServerId, Slot, Term};
use std::alloc::Global;

/// One group of servers. Others may use it between two calls, and each call is at most one event of the group. After `NoMemory` (1)
/// nothing was asked.
pub trait Desk {
    /// The desk before a call, the call with what it answered, and the desk after it.
    ghost says: { Self → DeskCall → Self → Type 0 };

    /// The read of this number was asked for so many sectors.
    ghost counts: { Self → ℕ → ℕ → Type 0 };

    /// The greatest term in which a running server serves, and the number of that server. `None` exactly where no running server
    /// serves.
    fn leader(&mut self, alloc: Global) -> Result<Option<(Term, ServerId)>, NoMemory>
        ensures ok { IfOk result (λ leader. Self.says self.old (Led leader) self.new) }
        ensures server { IfOk result (λ leader. IfSome leader (λ one. one.1 < 3)) }
        ensures err { OnErr result (self.new ≡ self.old) };

    /// Hands a write to a server. The answer is its slot. `None` exactly where that was refused or halted.
    fn submit(
        &mut self,
        alloc: Global,
        server: ServerId,
        range: Range,
        payload: &Payload,
    ) -> Result<Option<Slot>, NoMemory>
        requires server { server < 3 }
        requires range { IsWritable range.first range.count }
        requires payload { length payload.now ≡ range.count }
        ensures ok { IfOk result (λ slot. Self.says self.old (Submitted server range payload.now slot) self.new) }
        ensures err { OnErr result (self.new ≡ self.old) };

    /// Asks a server for the sectors of a range. The answer is the number of the read. `None` exactly where that was refused.
    fn fetch(
        &mut self,
        alloc: Global,
        server: ServerId,
        range: Range,
    ) -> Result<Option<u64>, NoMemory>
        requires server { server < 3 }
        requires range { IsWritable range.first range.count }
        ensures ok { IfOk result (λ number. Self.says self.old (Fetched server range number) self.new) }
        ensures err { OnErr result (self.new ≡ self.old) };

    /// Whether the slot was acknowledged to hosts in this term.
    fn acked(&mut self, alloc: Global, term: Term, slot: Slot) -> Result<bool, NoMemory>
        ensures ok { IfOk result (λ is. Self.says self.old (WasAcked term slot is) self.new) }
        ensures err { OnErr result (self.new ≡ self.old) };

    /// Takes out the answer of a read: as many sectors as were asked for. `None` exactly where the read is not answered or its answer was
    /// taken before.
    fn take_read(&mut self, alloc: Global, number: u64) -> Result<Option<Data>, NoMemory>
        ensures whole { IfOk result (λ answer. IfSome answer (λ sectors. (count : ℕ) → Self.counts self.old number count → length sectors ≡ count)) }
        ensures ok { IfOk result (λ answer. Self.says self.old (Took number answer) self.new) }
        ensures err { OnErr result (self.new ≡ self.old) };
}
