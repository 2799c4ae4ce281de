//! What a status leaves unsaid, on standard error.
use pf_io::Source;
use pf_run_lines::Status;
use pf_run_messages::{Refused, Tail, memory, reading, refusal, usage, writing};
use std::io::Write;

/// Writes a message; that it can't be written changes nothing.
fn say(rt: &HostRuntime, text: &[u8]) {
    let _ = rt.stderr().write_all(text);
}

/// Says that memory ran out before anything was done.
pub fn say_memory(rt: &HostRuntime) {
    say(rt, memory());
}

/// The message of a refused line.
fn say_refused<S: Source + Drop>(
    rt: &HostRuntime,
    refused: Refused,
    is_list: bool,
    source: &Tail<S>,
) {
    match refusal(rt.alloc(), refused, is_list, source.line(refused.line)) {
        Ok(text) => say(rt, &text),
        Err(_) => say_memory(rt),
    }
}

/// Says what the status of a run leaves unsaid: nothing where all went well, and else what is wrong, in whole sentences. The refused line is
/// the one that was written of a refused script.
pub fn explain<S: Source + Drop>(
    rt: &HostRuntime,
    words: &[String],
    status: Status,
    source: &Tail<S>,
    refused: Option<Refused>,
) {
    match status {
        Status::Ok => {}
        Status::NoMemory => say_memory(rt),
        Status::Usage => say(rt, usage()),
        Status::Script => {
            if let Some(refused) = refused {
                let is_list = words.first().is_some_and(|word| word.as_str() == "check");
                say_refused(rt, refused, is_list, source);
            }
        }
        Status::ReadFault => say(rt, reading()),
        Status::WriteFault => say(rt, writing()),
    }
}
