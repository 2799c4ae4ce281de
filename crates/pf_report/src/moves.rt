//! Lines of chunks that move.
ghost use Rattle.std.specs.Prelude.{◌≡◌, ◌++◌, OnErr, OnOk};
ghost use Rattle.pf_report.specs.Texts.{event_line, report_line};
ghost use Rattle.pf_report.specs.Moves.{moved_text, moving_text};

use crate::lines::{put_ended, put_numbered};
use pf_base::NoMemory;

/// Puts the line of a chunk that begins to move: the line's number, `moving`, and the number of its new group.
pub fn put_moving(out: &mut Vec<u8>, line: u32, group: u8) -> Result<(), NoMemory>
    ensures ok { OnOk result (out.new.items ≡ out.old.items ++ report_line line (moving_text group)) }
    ensures err { OnErr result (out.new.items ≡ out.old.items) }
{
    put_numbered(out, line, b"moving ", u64::from(group))
}

/// Puts the event line of a chunk that has moved.
pub fn put_moved(out: &mut Vec<u8>, chunk: u8) -> Result<(), NoMemory>
    ensures ok { OnOk result (out.new.items ≡ out.old.items ++ event_line (moved_text chunk)) }
    ensures err { OnErr result (out.new.items ≡ out.old.items) }
{
    put_ended(out, b"move ", u64::from(chunk))
}
