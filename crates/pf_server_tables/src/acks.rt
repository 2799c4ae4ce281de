//! Acknowledgements by slot.
ghost use Rattle.std.specs.Prelude.{◌≡◌, ◌+◌, ◌<◌, ◌≤◌, OnErr, OnOk};
ghost use Rattle.std.specs.FinMap as finite;
ghost use Rattle.pf_protocol.specs.Leading.{acknowledged};
ghost use Rattle.pf_server_tables.specs.AckTables.{table_has_acked};

use pf_base::{NoMemory, ServerId, Slot};
use std::alloc::Global;
use std::marker::Model;

/// The servers that acknowledged each proposal of a leader, whose slots follow each other from the one above its checkpoint as
/// it began. None is forgotten while the leader lasts. Contracts see the map from slots to sets of servers, how many slots it
/// has, and how many more it takes before it wants memory.
#[derive(Drop)]
pub struct Acks {
    /// The slot before the first of them.
    base: Slot,
    /// For each slot, whether server 0, 1, 2 has acknowledged it.
    rows: Vec<[bool; 3]>,
}

impl Model for Acks {
    ghost use Rattle.std.specs.Prelude.{◌-◌, length, vec_capacity, vec_len};
    ghost use Rattle.pf_server_tables.specs.AckTables.{AckTable, ack_table_code, acks_of, AreTriples};

    ghost Value = { AckTable };

    ghost coded = { ack_table_code };

    ghost view = { λ a. record {
      base = a.base;
      count = length a.rows.items;
      acks = acks_of a.base a.rows.items;
      spare = vec_capacity a.rows - vec_len a.rows;
    } };

    ghost invariant = { λ a. AreTriples a.rows.items };
}

impl Acks {
    /// No acknowledgement; the first proposal will be that of the slot above `base`.
    pub fn new(alloc: Global, base: Slot) -> Acks
        ensures base { result.base ≡ base }
        ensures count { result.count ≡ 0 }
        ensures acks { result.acks ≡ finite.empty }
    {
        Acks {
            base,
            rows: Vec::new(alloc),
        }
    }

    /// The slot before the first of them.
    pub fn base(&self) -> Slot
        ensures { result ≡ self.now.base }
    {
        self.base
    }

    /// Takes memory for `more` slots more, where there is not room for them. The rest is the same afterwards, whatever it
    /// answers: `NoMemory` (1) comes only where there is not room.
    pub fn reserve(&mut self, more: usize) -> Result<(), NoMemory>
        ensures room { OnOk result (more ≤ self.new.spare) }
        ensures short { OnErr result (self.old.spare < more) }
        ensures base { self.new.base ≡ self.old.base }
        ensures count { self.new.count ≡ self.old.count }
        ensures acks { self.new.acks ≡ self.old.acks }
        ensures kept { self.old.spare ≤ self.new.spare }
    {
        Ok(self.rows.reserve(more)?)
    }

    /// The server is the first that has acknowledged the next slot. It takes no memory.
    pub fn begin(&mut self, server: ServerId)
        requires server { server < 3 }
        requires room { 1 ≤ self.old.spare }
        ensures base { self.new.base ≡ self.old.base }
        ensures count { self.new.count ≡ self.old.count + 1 }
        ensures acks { self.new.acks ≡ acknowledged self.old.acks server (self.old.base + self.old.count + 1) }
        ensures spare { self.old.spare ≤ self.new.spare + 1 }
    {
        let mut row = [false; 3];
        row[server as usize] = true;
        // There is room, so this does not fail.
        let _ = self.rows.push(row);
    }

    /// The server has acknowledged this slot, which was begun.
    pub fn add(&mut self, server: ServerId, slot: Slot)
        requires server { server < 3 }
        requires above { self.old.base < slot }
        requires begun { slot ≤ self.old.base + self.old.count }
        ensures base { self.new.base ≡ self.old.base }
        ensures count { self.new.count ≡ self.old.count }
        ensures acks { self.new.acks ≡ acknowledged self.old.acks server slot }
        ensures spare { self.old.spare ≤ self.new.spare }
    {
        let place = (slot - self.base - 1) as usize;
        self.rows[place][server as usize] = true;
    }

    /// Whether the server has acknowledged the slot; of a slot that was not begun, `false`.
    pub fn has(&self, server: ServerId, slot: Slot) -> bool
        requires server { server < 3 }
        ensures { result ≡ table_has_acked self.now.acks server slot }
    {
        if slot <= self.base {
            return false;
        }
        match self.rows.get((slot - self.base - 1) as usize) {
            Some(row) => row[server as usize],
            None => false,
        }
    }
}
