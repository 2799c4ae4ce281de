//! Transactions as lines of hexadecimal digits.
ghost use Rattle.std.specs.Prelude.{◌≡◌, IfOk};
ghost use Rattle.pf_check.specs.HexLines.{ReadsHex, txn_in_hex};

use hex::FromHexError;
use pf_base::{NoMemory, Value};
use pf_tree_tables::Txn;
use pf_txn::read_txn;
use std::alloc::Global;

/// The most bytes of a transaction.
const MOST_BYTES: usize = 400;

/// The transaction whose bytes, at most 400, a line spells in hexadecimal digits of either case; `None` exactly where it spells none.
/// The one error is `NoMemory` (1).
pub fn read_hex(alloc: Global, line: &[u8]) -> Result<Option<Txn>, NoMemory>
    ensures reads { IfOk result (ReadsHex line.now) }
    ensures txn { IfOk result (λ found. found ≡ txn_in_hex line.now) }
{
    let bytes = match hex::decode(alloc, line) {
        Ok(bytes) => bytes,
        Err(FromHexError::OutOfMemory) => return Err(NoMemory),
        Err(_) => return Ok(None),
    };
    if bytes.len() > MOST_BYTES {
        return Ok(None);
    }
    read_txn(alloc, &Value::copied(&bytes))
}
