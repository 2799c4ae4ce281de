//! A port of a host into one group.
ghost use Rattle.std.specs.Prelude.{◌≡◌, ◌↔◌, ◌<◌, ◌≤◌, List, None, Some, IsSome, IsTrue, IfOk, IfSome, OnErr};
ghost use Rattle.std.specs.Option.{option_copied};
ghost use Rattle.pf_entry.specs.Lists.{Every};
ghost use Rattle.pf_base.specs.Asks.{Answers, IsValid};
ghost use Rattle.pf_base.specs.declared.asks.Ask.{Ask as AskIs};
ghost use Rattle.pf_asks.specs.Desks.{DeskCall, CallsLead, CallIsLook};
ghost use Rattle.pf_asks.specs.Ports.{Drives, Hands, Hears, ReadIsCounted, IsLed, IsOfKind, IsSentOf, LooksFor, NeverLower, goes_to, new_port, rehomed};

use crate::Desk;
use pf_base::{Ask, NoMemory, Reply, ServerId, Slot, Term};
use std::alloc::Global;
use std::marker::Model;

/// What tells the answer of an ask that was taken up: the slot of a write, or the number of a read.
#[derive(Clone, Copy, Debug, PartialEq, Eq)]
pub enum Sent {
    Slot(Slot),
    Number(u64),
}

/// One host's way to one group, with at most one ask at a time.
#[derive(Drop)]
pub struct Port {
    ask: Option<Ask>,
    sent: Option<Sent>,
    /// The term of the last leader to which it submitted.
    last: Term,
}

impl Model for Port {
    ghost use Rattle.std.specs.Prelude.{IfSome};
    ghost use Rattle.pf_base.specs.Asks.{IsValid};
    ghost use Rattle.pf_asks.specs.Ports.{IsSentOf, PortIs};

    ghost Value = { PortIs };

    ghost view = { λ p. record { ask = p.ask; sent = p.sent; last = p.last } };

    ghost invariant = { λ p. IfSome p.ask IsValid × IsSentOf p.ask p.sent };
}

impl Port {
    /// A port with nothing to ask.
    pub fn new() -> Port
        ensures { result ≡ new_port }
    {
        Port {
            ask: None,
            sent: None,
            last: 0,
        }
    }

    /// Takes up an ask. Nothing is handed to the group yet.
    pub fn put(&mut self, ask: Ask)
        requires none { self.old.ask ≡ None }
        requires valid { IsValid ask }
        ensures { self.new ≡ record self.old { ask = Some ask; sent = None } }
    {
        self.ask = Some(ask);
        self.sent = None;
    }

    /// The ask that is pending.
    pub fn ask(&self) -> Option<&Ask>
        ensures ask { option_copied result ≡ self.now.ask }
        ensures valid { IfSome self.now.ask IsValid }
    {
        self.ask.as_ref()
    }

    /// Whether an ask is pending.
    pub fn is_pending(&self) -> bool
        ensures { IsTrue result ↔ IsSome self.now.ask }
    {
        self.ask.is_some()
    }

    /// Goes to another group, which serves the chunk from here on: the pending ask, if there is one, counts as not submitted, so no
    /// answer of the old group is taken for its reply, and the terms begin anew.
    pub fn rehome(&mut self)
        ensures { self.new ≡ rehomed self.old }
    {
        self.last = 0;
        self.sent = None;
    }

    /// The reply to the pending ask, if the group has answered its last submission: then it is pending no more. Else nothing is different.
    ///
    /// `NoMemory` (1) leaves the port and the group as they were.
    pub fn hear<K: Desk>(&mut self, alloc: Global, desk: &mut K) -> Result<Option<Reply>, NoMemory>
        ensures heard { IfOk result (λ reply. (calls : List DeskCall) × CallsLead K.says desk.old calls desk.new × Hears self.old calls reply self.new) }
        ensures kind { IfOk result (λ reply. IfSome reply (λ r. (ask : AskIs) → self.old.ask ≡ Some ask → IsOfKind ask r)) }
        // The bytes of a read are as many sectors as its range has, at a desk that was asked for it.
        ensures whole { ReadIsCounted (K.counts desk.old) self.old.sent self.old.ask
            → IfOk result (λ reply. IfSome reply (λ r. (ask : AskIs) → self.old.ask ≡ Some ask → Answers ask r)) }
        ensures err { OnErr result ((self.new ≡ self.old) × (desk.new ≡ desk.old)) }
    {
        let Some(sent) = self.sent else {
            return Ok(None);
        };
        let Some(reply) = answer_of(alloc, desk, sent, self.last)? else {
            return Ok(None);
        };
        self.ask = None;
        self.sent = None;
        Ok(Some(reply))
    }

    /// One step for the pending ask: its reply, if the group has answered its last submission. Else the ask is handed to the leader of
    /// the greatest term, where it was not submitted, or was refused, or was submitted to a leader of a lower term; never to a leader
    /// of a lower term than the port's last.
    ///
    /// `NoMemory` (1) leaves the port as it was; the group was asked nothing but how things stand.
    pub fn drive<K: Desk>(&mut self, alloc: Global, desk: &mut K) -> Result<Option<Reply>, NoMemory>
        requires pending { (ask : AskIs) × (self.old.ask ≡ Some ask) }
        ensures drove { IfOk result (λ reply. (ask : AskIs) → self.old.ask ≡ Some ask
            → (calls : List DeskCall) × CallsLead K.says desk.old calls desk.new × Drives self.old ask calls reply self.new) }
        ensures kind { IfOk result (λ reply. IfSome reply (λ r. (ask : AskIs) → self.old.ask ≡ Some ask → IsOfKind ask r)) }
        // The bytes of a read are as many sectors as its range has, at a desk that was asked for it.
        ensures whole { ReadIsCounted (K.counts desk.old) self.old.sent self.old.ask
            → IfOk result (λ reply. IfSome reply (λ r. (ask : AskIs) → self.old.ask ≡ Some ask → Answers ask r)) }
        ensures never_lower { IfOk result (λ _. (calls : List DeskCall) × CallsLead K.says desk.old calls desk.new × NeverLower self.old.last None calls) }
        ensures rises { IfOk result (λ _. self.old.last ≤ self.new.last) }
        ensures err { OnErr result ((self.new ≡ self.old) × ((calls : List DeskCall) × CallsLead K.says desk.old calls desk.new × Every CallIsLook calls)) }
    {
        if let Some(reply) = self.hear(alloc, desk)? {
            return Ok(Some(reply));
        }
        self.lead(alloc, desk)?;
        Ok(None)
    }

    /// The other half of a step: the pending ask is handed to the leader of the greatest term, if it goes there, whether its last submission
    /// was answered or not; never to a leader of a lower term than the port's last.
    ///
    /// `NoMemory` (1) leaves the port as it was; the group was asked nothing but how things stand.
    pub fn lead<K: Desk>(&mut self, alloc: Global, desk: &mut K) -> Result<(), NoMemory>
        requires pending { (ask : AskIs) × (self.old.ask ≡ Some ask) }
        ensures led { IfOk result (λ _. (ask : AskIs) → self.old.ask ≡ Some ask
            → (calls : List DeskCall) × CallsLead K.says desk.old calls desk.new × IsLed self.old ask calls self.new) }
        ensures never_lower { IfOk result (λ _. (calls : List DeskCall) × CallsLead K.says desk.old calls desk.new × NeverLower self.old.last None calls) }
        ensures rises { IfOk result (λ _. self.old.last ≤ self.new.last) }
        ensures err { OnErr result ((self.new ≡ self.old) × ((calls : List DeskCall) × CallsLead K.says desk.old calls desk.new × Every CallIsLook calls)) }
    {
        let Some((term, server)) = desk.leader(alloc)? else {
            return Ok(());
        };
        if let Some(ask) = &self.ask {
            if goes(self.sent, self.last, term) {
                let sent = hand(alloc, desk, server, ask)?;
                self.sent = sent;
                self.last = term;
            }
        }
        Ok(())
    }
}

/// Whether an ask goes to the leader of a term.
fn goes(sent: Option<Sent>, last: Term, term: Term) -> bool
    ensures { result ≡ goes_to sent last term }
{
    match sent {
        None => last <= term,
        Some(_) => last < term,
    }
}

/// Hands an ask to a server, and gives what tells its answer. `None` exactly where it was refused.
fn hand<K: Desk>(
    alloc: Global,
    desk: &mut K,
    server: ServerId,
    ask: &Ask,
) -> Result<Option<Sent>, NoMemory>
    requires server { server < 3 }
    requires valid { IsValid ask.now }
    ensures handed { IfOk result (λ sent. (call : DeskCall) × K.says desk.old call desk.new × Hands ask.now server call sent) }
    ensures kind { IfOk result (λ sent. IsSentOf (Some ask.now) sent) }
    ensures err { OnErr result (desk.new ≡ desk.old) }
{
    match ask {
        Ask::Write { range, payload, .. } => {
            let slot = desk.submit(alloc, server, *range, payload)?;
            Ok(slot.map(|slot| Sent::Slot(slot)))
        }
        Ask::Read { range, .. } => {
            let number = desk.fetch(alloc, server, *range)?;
            Ok(number.map(|number| Sent::Number(number)))
        }
    }
}

/// Looks for the answer of what was taken up in a term.
fn answer_of<K: Desk>(
    alloc: Global,
    desk: &mut K,
    sent: Sent,
    term: Term,
) -> Result<Option<Reply>, NoMemory>
    ensures whole { IfOk result (λ reply. IfSome reply (λ r. (ask : AskIs) → IsSentOf (Some ask) (Some sent)
        → ReadIsCounted (K.counts desk.old) (Some sent) (Some ask) → Answers ask r)) }
    ensures looked { IfOk result (λ reply. (look : DeskCall) × K.says desk.old look desk.new × LooksFor sent term look reply) }
    ensures err { OnErr result (desk.new ≡ desk.old) }
{
    match sent {
        Sent::Slot(slot) => {
            let is = desk.acked(alloc, term, slot)?;
            Ok(is.then_some(Reply::Written))
        }
        Sent::Number(number) => {
            let data = desk.take_read(alloc, number)?;
            Ok(data.map(|data| Reply::Bytes(data)))
        }
    }
}
