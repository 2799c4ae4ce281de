//! Lines that tell how an event ended.
ghost use Rattle.std.specs.Prelude.{◌≡◌, ◌++◌, [], IfSome, IsSome, MatchOption, None, OnErr, OnOk, Some, unwrap_or};
ghost use Rattle.pf_text.specs.Kept.{KeepsText};
ghost use Rattle.pf_report.specs.Refusals.{line_refusal_text, refusal_text};
ghost use Rattle.pf_report.specs.Texts.{answer_text, report_line, settle_text};

use crate::LineRefusal;
use crate::lines::{put_numbered, put_words};
use pf_base::NoMemory;
use pf_protocol::Answer;
use pf_text::put_text;

/// The text of the refusal of a number.
fn text_of(number: u32) -> Option<&'static [u8]>
    ensures { MatchOption result (refusal_text number ≡ None) (λ text. refusal_text number ≡ Some text.now) }
{
    Some(match number {
        10 => b"bad range",
        30 => b"window full",
        41 => b"log full",
        42 => b"not ours",
        50 => b"not leader",
        51 => b"down",
        52 => b"halted",
        53 => b"no packet",
        54 => b"lost packet",
        55 => b"packets full",
        56 => b"elections full",
        80 => b"bad name",
        81 => b"bad super",
        82 => b"no entry",
        83 => b"exists",
        84 => b"not dir",
        85 => b"is dir",
        86 => b"not empty",
        87 => b"no space",
        88 => b"too large",
        89 => b"into itself",
        90 => b"journal full",
        91 => b"call pending",
        92 => b"mounts full",
        93 => b"small volume",
        94 => b"mounted",
        95 => b"raw",
        96 => b"no mount",
        97 => b"old format",
        98 => b"no anchors",
        99 => b"too late",
        100 => b"no spare",
        101 => b"moving",
        102 => b"no group",
        _ => return None,
    })
}

/// Puts the text of the refusal of a number, if it has one.
pub(crate) fn put_refusal_text(out: &mut Vec<u8>, number: u32) -> Result<(), NoMemory>
    ensures ok { OnOk result (out.new.items ≡ out.old.items ++ unwrap_or (refusal_text number) []) }
    ensures kept { KeepsText out.old.items out.new.items }
{
    match text_of(number) {
        Some(text) => put_text(out, text),
        None => Ok(()),
    }
}

/// Puts a refusal, by its number: the line's number and the refusal's text. Numbers without a text are not for this call.
pub fn put_refusal(out: &mut Vec<u8>, line: u32, number: u32) -> Result<(), NoMemory>
    requires { IsSome (refusal_text number) }
    ensures ok { OnOk result (IfSome (refusal_text number) (λ text. out.new.items ≡ out.old.items ++ report_line line text)) }
    ensures err { OnErr result (out.new.items ≡ out.old.items) }
{
    let Some(text) = text_of(number) else {
        unreachable!()
    };
    put_words(out, line, text)
}

/// Puts the refusal of a line: the line's number and the refusal's text.
pub fn put_line_refusal(out: &mut Vec<u8>, line: u32, refusal: LineRefusal) -> Result<(), NoMemory>
    ensures ok { OnOk result (out.new.items ≡ out.old.items ++ report_line line (line_refusal_text refusal)) }
    ensures err { OnErr result (out.new.items ≡ out.old.items) }
{
    put_refusal(out, line, refusal.number())
}

/// Puts the answer to an event: the line's number and the answer's text. A job, the refusal of a claim where no slot is free, and
/// that of a job of an earlier life have no text, and are not for this call.
pub fn put_answer(out: &mut Vec<u8>, line: u32, answer: &Answer) -> Result<(), NoMemory>
    requires { IsSome (answer_text answer.now) }
    ensures ok { OnOk result (IfSome (answer_text answer.now) (λ text. out.new.items ≡ out.old.items ++ report_line line text)) }
    ensures err { OnErr result (out.new.items ≡ out.old.items) }
{
    match answer {
        Answer::Done => put_words(out, line, b"ok"),
        Answer::Slot(slot) => put_numbered(out, line, b"slot ", *slot),
        Answer::Term(term) => put_numbered(out, line, b"term ", *term),
        Answer::Read(number) => put_numbered(out, line, b"read ", *number),
        Answer::Base(base) => put_numbered(out, line, b"base ", *base),
        Answer::Job(_) => unreachable!(),
        Answer::Refused(refusal) => put_refusal(out, line, refusal.number()),
    }
}

/// Puts how a settling ended: `stopped` where the limit of deliveries did it, `quiet` where no packet was left.
pub fn put_settle(out: &mut Vec<u8>, line: u32, stopped: bool) -> Result<(), NoMemory>
    ensures ok { OnOk result (out.new.items ≡ out.old.items ++ report_line line (settle_text stopped)) }
    ensures err { OnErr result (out.new.items ≡ out.old.items) }
{
    if stopped {
        put_words(out, line, b"stopped")
    } else {
        put_words(out, line, b"quiet")
    }
}
