//! The ops that a merge takes.
ghost use Rattle.std.specs.Prelude.{◌≡◌};

use pf_entry::Op;
use std::marker::Model;

/// Ops of slots in a row, seen as a list.
#[derive(Drop)]
pub struct Ops {
    rows: Vec<Op>,
}

impl Model for Ops {
    ghost use Rattle.std.specs.Prelude.{List};
    ghost use Rattle.pf_entry.specs.declared.ops.Op.{Op};
    ghost use Rattle.pf_entry.specs.EntryMaps.{op_code};
    ghost use Rattle.std.specs.Coded.{coded_list};

    ghost Value = { List Op };

    ghost coded = { coded_list op_code };

    ghost view = { λ a. a.rows.items };
}

impl Ops {
    pub fn new(rows: Vec<Op>) -> Ops
        ensures { result ≡ rows.items }
    {
        Ops { rows }
    }

    pub fn as_slice(&self) -> &[Op]
        ensures { result.now ≡ self.now }
    {
        &self.rows
    }

    pub fn into_vec(self) -> Vec<Op>
        ensures { result.items ≡ self }
    {
        let Ops { rows } = self;
        rows
    }
}
