//! Lines of mounts and of their calls.
ghost use Rattle.std.specs.Prelude.{◌≡◌, ◌++◌, OnErr, OnOk};
ghost use Rattle.std.specs.List.{flat_map, join_with_byte};
ghost use Rattle.pf_text.specs.Kept.{KeepsText};
ghost use Rattle.pf_report.specs.Texts.{event_line, report_line};
ghost use Rattle.pf_report.specs.Mounts.{call_answer_text, call_text, listed_text, mount_text, name_text, names_text, ready_text, started_text, state_text, tree_lines};

use crate::answers::put_refusal_text;
use crate::lines::{put_ended, put_number, put_numbered, put_spaced, put_words, settled};
use pf_base::{Bytes, CallName, NoMemory};
use pf_file_calls::CallAnswer;
use pf_text::{put_decimal, put_runs, put_text};
use pf_tree::{Listed, Listing};

/// Puts the line of a mount that was made: the line's number, `mount`, and the mount's number.
pub fn put_mount(out: &mut Vec<u8>, line: u32, mount: u8) -> Result<(), NoMemory>
    ensures ok { OnOk result (out.new.items ≡ out.old.items ++ report_line line (mount_text mount)) }
    ensures err { OnErr result (out.new.items ≡ out.old.items) }
{
    put_numbered(out, line, b"mount ", u64::from(mount))
}

/// Puts the line of a call that began: the line's number and `started`.
pub fn put_started(out: &mut Vec<u8>, line: u32) -> Result<(), NoMemory>
    ensures ok { OnOk result (out.new.items ≡ out.old.items ++ report_line line started_text) }
    ensures err { OnErr result (out.new.items ≡ out.old.items) }
{
    put_words(out, line, b"started")
}

/// Puts the event line of a mount that is ready.
pub fn put_ready(out: &mut Vec<u8>, mount: u8) -> Result<(), NoMemory>
    ensures ok { OnOk result (out.new.items ≡ out.old.items ++ event_line (ready_text mount)) }
    ensures err { OnErr result (out.new.items ≡ out.old.items) }
{
    put_ended(out, b"mount ", u64::from(mount))
}

/// The word of a call.
fn word_of(name: CallName) -> &'static [u8]
    ensures { result.now ≡ name_text name }
{
    match name {
        CallName::Mkdir => b"mkdir",
        CallName::Create => b"create",
        CallName::Write => b"write",
        CallName::Read => b"read",
        CallName::Truncate => b"truncate",
        CallName::Rename => b"rename",
        CallName::Unlink => b"unlink",
        CallName::Rmdir => b"rmdir",
        CallName::Stat => b"stat",
        CallName::List => b"list",
    }
}

/// Puts names with a space between each two.
fn put_joined(out: &mut Vec<u8>, names: &[Bytes]) -> Result<(), NoMemory>
    ensures ok { OnOk result (out.new.items ≡ out.old.items ++ join_with_byte 32 names.now) }
    ensures kept { KeepsText out.old.items out.new.items }
{
    let Some((name, rest)) = names.split_first() else {
        return Ok(());
    };
    put_text(out, name.as_slice())?;
    if rest.is_empty() {
        return Ok(());
    }
    put_text(out, b" ")?;
    put_joined(out, rest)
}

/// Puts names, or `none`.
fn put_names(out: &mut Vec<u8>, names: &[Bytes]) -> Result<(), NoMemory>
    ensures ok { OnOk result (out.new.items ≡ out.old.items ++ names_text names.now) }
    ensures kept { KeepsText out.old.items out.new.items }
{
    if names.is_empty() {
        return put_text(out, b"none");
    }
    put_joined(out, names)
}

/// Puts the text of an answer.
fn put_call_answer(out: &mut Vec<u8>, answer: &CallAnswer) -> Result<(), NoMemory>
    ensures ok { OnOk result (out.new.items ≡ out.old.items ++ call_answer_text answer.now) }
    ensures kept { KeepsText out.old.items out.new.items }
{
    match answer {
        CallAnswer::Fine => put_text(out, b"ok"),
        CallAnswer::Bytes(bytes) => put_runs(out, bytes.as_slice()),
        CallAnswer::Directory => put_text(out, b"dir"),
        CallAnswer::File { size } => {
            put_text(out, b"file ")?;
            put_decimal(out, u64::from(*size))
        }
        CallAnswer::Names(names) => put_names(out, names.as_slice()),
        CallAnswer::Refused(fault) => put_refusal_text(out, fault.number()),
    }
}

fn write_call(
    out: &mut Vec<u8>,
    mount: u8,
    name: CallName,
    answer: &CallAnswer,
) -> Result<(), NoMemory>
    ensures ok { OnOk result (out.new.items ≡ out.old.items ++ event_line (call_text mount name answer.now)) }
    ensures kept { KeepsText out.old.items out.new.items }
{
    put_text(out, b"- call ")?;
    put_decimal(out, u64::from(mount))?;
    put_text(out, b" ")?;
    put_text(out, word_of(name))?;
    put_text(out, b" ")?;
    put_call_answer(out, answer)?;
    put_text(out, b"\n")
}

/// Puts the event line of a call that ends, with its answer.
pub fn put_call(
    out: &mut Vec<u8>,
    mount: u8,
    name: CallName,
    answer: &CallAnswer,
) -> Result<(), NoMemory>
    ensures ok { OnOk result (out.new.items ≡ out.old.items ++ event_line (call_text mount name answer.now)) }
    ensures err { OnErr result (out.new.items ≡ out.old.items) }
{
    let before = out.len();
    let put = write_call(out, mount, name, answer);
    settled(out, before, put)
}

fn write_state(
    out: &mut Vec<u8>,
    line: u32,
    mount: u8,
    upto: u32,
    pending: bool,
) -> Result<(), NoMemory>
    ensures ok { OnOk result (out.new.items ≡ out.old.items ++ report_line line (state_text mount upto pending)) }
    ensures kept { KeepsText out.old.items out.new.items }
{
    put_number(out, line)?;
    put_text(out, b"mount ")?;
    put_decimal(out, u64::from(mount))?;
    put_text(out, b" upto")?;
    put_spaced(out, u64::from(upto))?;
    let word: &[u8] = if pending { b" pending" } else { b" idle" };
    put_text(out, word)?;
    put_text(out, b"\n")
}

/// Puts how far a mount is: the line's number, `mount`, its number, `upto`, how many transactions it has applied, and `idle` or `pending`.
pub fn put_state(
    out: &mut Vec<u8>,
    line: u32,
    mount: u8,
    upto: u32,
    pending: bool,
) -> Result<(), NoMemory>
    ensures ok { OnOk result (out.new.items ≡ out.old.items ++ report_line line (state_text mount upto pending)) }
    ensures err { OnErr result (out.new.items ≡ out.old.items) }
{
    let before = out.len();
    let put = write_state(out, line, mount, upto, pending);
    settled(out, before, put)
}

/// Puts a path of a tree, and what stands there.
fn put_listed(out: &mut Vec<u8>, row: &Listed) -> Result<(), NoMemory>
    ensures ok { OnOk result (out.new.items ≡ out.old.items ++ event_line (listed_text row.now)) }
    ensures kept { KeepsText out.old.items out.new.items }
{
    put_text(out, b"- ")?;
    put_text(out, row.path.as_slice())?;
    if row.is_dir {
        put_text(out, b" d")?;
    } else {
        put_text(out, b" f")?;
        put_spaced(out, u64::from(row.size))?;
    }
    put_text(out, b"\n")
}

/// Puts an event line for each of these rows.
fn put_rows(out: &mut Vec<u8>, rows: &[Listed]) -> Result<(), NoMemory>
    ensures ok { OnOk result (out.new.items ≡ out.old.items ++ tree_lines rows.now) }
    ensures kept { KeepsText out.old.items out.new.items }
{
    for row in rows {
        put_listed(out, row)?;
    }
    Ok(())
}

/// Puts an event line for each path of a tree, in their order: the path, and `d` for a directory, or `f` and the size of a file in bytes.
pub fn put_tree(out: &mut Vec<u8>, listing: &Listing) -> Result<(), NoMemory>
    ensures ok { OnOk result (out.new.items ≡ out.old.items ++ tree_lines listing.now) }
    ensures err { OnErr result (out.new.items ≡ out.old.items) }
{
    let before = out.len();
    let put = put_rows(out, listing.as_slice());
    settled(out, before, put)
}
