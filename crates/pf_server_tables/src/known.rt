//! What a leader knows of the other servers.
ghost use Rattle.std.specs.Prelude.{◌≡◌, ◌<◌};
ghost use Rattle.std.specs.Option.{unwrap_or};
ghost use Rattle.std.specs.FinMap as finite;

use pf_base::{ServerId, Slot};
use std::marker::Model;

/// For each server that told it, the slot up to which it had applied all. Seen as a map.
#[derive(Drop)]
pub struct Known {
    upto: [Option<Slot>; 3],
}

impl Model for Known {
    ghost use Rattle.std.specs.Prelude.{◌≡◌, ℕ, length};
    ghost use Rattle.std.specs.Ordering.{nat_cmp};
    ghost use Rattle.std.specs.Coded.{coded_ℕ};
    ghost use Rattle.std.specs.FinMap as finite;
    ghost use Rattle.pf_server_tables.specs.KnownTables.{known_of};

    ghost Value = { finite.FinMap nat_cmp ℕ };

    ghost coded = { finite.code coded_ℕ coded_ℕ };

    ghost view = { λ a. known_of a.upto };

    ghost invariant = { λ a. length a.upto ≡ 3 };
}

impl Known {
    /// Nothing is known.
    pub fn nothing() -> Known
        ensures { result ≡ finite.empty }
    {
        Known { upto: [None; 3] }
    }

    /// The server has applied all slots up to this one, whatever was known of it before.
    pub fn put(&mut self, server: ServerId, upto: Slot)
        requires { server < 3 }
        ensures { self.new ≡ finite.insert self.old server upto }
    {
        self.upto[server as usize] = Some(upto);
    }

    /// What is known of the server, 0 where nothing is.
    pub fn get(&self, server: ServerId) -> Slot
        requires { server < 3 }
        ensures { result ≡ unwrap_or (finite.get self.now server) 0 }
    {
        self.upto[server as usize].unwrap_or(0)
    }
}
