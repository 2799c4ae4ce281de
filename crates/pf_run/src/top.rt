//! The top call.
ghost use Rattle.std.specs.Prelude.{◌≡◌, ◌≤◌, ◌⊎◌, ℕ, List, true, false, map, None, IfSome, IsTrue, string_bytes, length};
ghost use Rattle.std.specs.Io.KnownBytes.{Appends, IsAtEnd};
ghost use Rattle.pf_io.specs.Causes.{Rose};
ghost use Rattle.pf_run_words.specs.Words.{is_accepted};
ghost use Rattle.pf_run_words.specs.Tasks.{IfCheck, IfGen, IfLog, IfRun, KeepsTask, task_of};
ghost use Rattle.pf_run.specs.Generating.{HasGenerated, IsAccepted, IsPlainSum};
ghost use Rattle.pf_run.specs.Scripts.{script_of, script_rules};
ghost use Rattle.pf_run_lines.specs.Lists.{list_of, list_rules};
ghost use Rattle.pf_run_lines.specs.Checking.{IsChecked, LineTellsOf};
ghost use Rattle.pf_run.specs.Listing.{ListEnds};
ghost use Rattle.pf_run_lines.specs.Runs.{IsUndecided};
ghost use Rattle.pf_world.specs.Headline.{AreFaultless};
ghost use Rattle.pf_run.specs.Outcomes.{Completes, HasHeadline, IsPlain, IsReported, JudgesScript, Outcome};

use crate::generate::generate;
use crate::lines::run_lines;
use crate::list::list;
use crate::script::read_script;
use pf_disk::Disk;
use pf_group_copy::{Gate, Workers};
use pf_io::{Sink, Source};
use pf_run_lines::{Status, check, end_at, write_all};
use pf_run_words::{Task, read_task};
use std::alloc::Global;
use std::sync::Wait;
use std::thread::Threads;

/// Does what the words ask, with the one clause from which those of [`run`] follow.
fn run_words<S: Source, K: Sink, D: Disk + Drop + Send, R: Threads + Wait + Sync, G: Gate + Sync>(
    rt: &R,
    alloc: Global,
    words: &[String],
    source: &mut S,
    sink: &mut K,
    disks: &mut Vec<D>,
    gate: &G,
) -> Status
    requires disks { 48 ≤ length disks.old.items }
    ensures { Outcome D.seen D.may_leave D.faults D.moment D.left_since D.tells D.tells_moments result (task_of (map string_bytes words.now))
        (S.left source.old) (S.left source.new) (Rose (S.faults source.old) (S.faults source.new))
        (K.taken sink.old) (K.taken sink.new) (Rose (K.faults sink.old) (K.faults sink.new)) disks.old.items disks.new.items }
{
    let Ok(told) = read_task(alloc, words) else {
        return Status::NoMemory;
    };
    let Some(task) = told else {
        if write_all(sink, b"usage\n").is_err() {
            return Status::WriteFault;
        }
        return Status::Usage;
    };
    let count = match task {
        Task::Run { workers } => workers,
        Task::Gen { number, workers } => {
            let workers = Workers {
                rt,
                alloc,
                gate,
                count: workers,
            };
            return generate(&workers, number, sink, disks);
        }
        Task::Check => return check(alloc, source, sink),
        Task::Log { group, server } => return list(alloc, group, server, sink, disks),
    };
    let workers = Workers {
        rt,
        alloc,
        gate,
        count,
    };
    match read_script(alloc, source) {
        Ok(lines) => run_lines(&workers, &lines, sink, disks).0,
        Err(stop) => end_at(alloc, stop, sink),
    }
}

/// Runs the script that the source gives, and writes its report to the sink: these are the words `run`. Or runs the script that a number
/// generates, and writes one line of it: these are `gen N`, with N below 2^64. Or reads a list of transactions from the source, and writes
/// one line of what is wrong in the tables that they make, or that nothing is: this is `check`. Or lists the records that a restart of
/// server I of group G would find on its two disks: these are `log G I`, with G up to 7 and I up to 2. The first two have the option
/// `--workers W` with W from 1 to 8: sectors are copied on at most so many threads, else on 2, and `gate` is called round each copy. A line of
/// threads has its own, and `gate` is called round each of their steps.
///
/// Both `run` and `log` take `--dir PATH` too: it names the folder of the disks, and who calls this has made them of it (`dir_of`).
///
/// Disk 6g + 2i + h is half h of server i of group g. There are at least 48. They come back in their order, with what the groups of the
/// volume left on them; a disk that fails does not change the status. What they hold, what the text tells, and that all went by the rules is
/// said of disks that tell their content; all else of any disks.
///
/// The script is read and judged whole before its first line runs. The text of a line of the source's script is written after it has run,
/// and that of a generated script dropped: its one line is written at the end.
pub fn run<S: Source, K: Sink, D: Disk + Drop + Send, R: Threads + Wait + Sync, G: Gate + Sync>(
    rt: &R,
    alloc: Global,
    words: &[String],
    source: &mut S,
    sink: &mut K,
    disks: &mut Vec<D>,
    gate: &G,
) -> Status
    requires disks { 48 ≤ length disks.old.items }
    ensures outcome { Outcome D.seen D.may_leave D.faults D.moment D.left_since D.tells D.tells_moments result (task_of (map string_bytes words.now))
        (S.left source.old) (S.left source.new) (Rose (S.faults source.old) (S.faults source.new))
        (K.taken sink.old) (K.taken sink.new) (Rose (K.faults sink.old) (K.faults sink.new)) disks.old.items disks.new.items }
    // One run stands behind status, text and disks: the headline holds of the lines that it did. One list holds of it with the whole next line
    // too: where memory ran out in the middle of that, what stands is a beginning of what it would have done. With status 0 these are all, and
    // the sink took the whole text of the source's script.
    ensures headline { (tell : IsTrue D.tells) → IfSome (S.left source.old) (λ bytes.
        HasHeadline D.seen D.may_leave D.faults D.moment D.left_since D.tells D.tells_moments tell result (task_of (map string_bytes words.now)) bytes
        (S.left source.old) (S.left source.new) (Rose (S.faults source.old) (S.faults source.new))
        (K.taken sink.old) (K.taken sink.new) (Rose (K.faults sink.old) (K.faults sink.new)) disks.old.items disks.new.items) }
    // With status 0 the whole script was read, all its lines were run, and the sink took their whole text, which is that of the run where
    // disks tell their content.
    ensures report { result ≡ Status.Ok → IfRun (task_of (map string_bytes words.now)) (IfSome (S.left source.old) (λ bytes.
        IsAtEnd (S.left source.new) × IsReported D.seen D.may_leave D.faults D.moment D.left_since D.tells D.tells_moments bytes (K.taken sink.old)
        (K.taken sink.new) disks.old.items disks.new.items)) }
    // Where no disk failed meanwhile, the text is a function of the script and of what the threads of its live lines did: so of the script
    // alone where it has none.
    ensures faultless { IsTrue D.tells → result ≡ Status.Ok → AreFaultless D.faults disks.old.items disks.new.items
        → IfRun (task_of (map string_bytes words.now)) (IfSome (S.left source.old) (λ bytes. IsPlain bytes (K.taken sink.old) (K.taken sink.new))) }
    // Status 2 comes where the words are not accepted, unless memory runs out before they are read, or the sink fails.
    ensures usage { is_accepted (map string_bytes words.now) ≡ false
        → (result ≡ Status.Usage) ⊎ ((result ≡ Status.NoMemory) ⊎ ((result ≡ Status.WriteFault) × Rose (K.faults sink.old) (K.faults sink.new))) }
    // And only there.
    ensures usage_only { result ≡ Status.Usage → is_accepted (map string_bytes words.now) ≡ false }
    // Words that were accepted before there was `log`, or `--dir`, ask for the same, and name no folder.
    ensures kept { KeepsTask (map string_bytes words.now) }
    // Status 3 comes exactly where a line is refused, unless memory runs out, the sink fails, or the source failed
    // before that line was whole.
    ensures judged { IfRun (task_of (map string_bytes words.now)) (IfSome (S.left source.old) (λ bytes. JudgesScript result (script_of bytes)
        (Rose (S.faults source.old) (S.faults source.new) × IsUndecided script_rules None (S.left source.old) (S.left source.new))
        (Rose (K.faults sink.old) (K.faults sink.new)))) }
    // Where neither end fails, nothing but memory keeps a script from its report, or from the fault of its line.
    ensures complete { (Rose (S.faults source.old) (S.faults source.new) → ⊥)
        → (Rose (K.faults sink.old) (K.faults sink.new) → ⊥)
        → IfRun (task_of (map string_bytes words.now)) (IfSome (S.left source.old) (λ bytes. Completes result (script_of bytes))) }
    // A generated script: it is always accepted, and nothing is read. With status 0 all its lines were run, and the sink took the one line that
    // tells of the world to which they led, where disks tell their content. Only memory or the sink keep it from that.
    ensures generated { IfGen (task_of (map string_bytes words.now)) (λ number. IsAccepted number × (S.left source.new ≡ S.left source.old)
        × HasGenerated D.seen D.may_leave D.faults D.moment D.left_since D.tells D.tells_moments result number (K.taken sink.old) (K.taken sink.new)
        (Rose (K.faults sink.old) (K.faults sink.new)) disks.old.items disks.new.items) }
    // Where no disk failed meanwhile, this line is a function of the number alone.
    ensures generated_plain { IsTrue D.tells → result ≡ Status.Ok → AreFaultless D.faults disks.old.items disks.new.items
        → IfGen (task_of (map string_bytes words.now)) (λ number. IsPlainSum number (K.taken sink.old) (K.taken sink.new)) }
    // A list of transactions. With status 0 the whole list was read, and the sink took the line of a right verdict on the tables that its
    // transactions make, in their order, of the empty ones.
    ensures checked { result ≡ Status.Ok → IfCheck (task_of (map string_bytes words.now)) (IfSome (S.left source.old) (λ bytes.
        IsAtEnd (S.left source.new) × IsChecked bytes (K.taken sink.old) (K.taken sink.new))) }
    // This line is a function of the list alone: whichever right verdict gives a line, it is the one that was taken.
    ensures checked_plain { result ≡ Status.Ok → IfCheck (task_of (map string_bytes words.now)) (IfSome (S.left source.old) (λ bytes.
        (line : List ℕ) → LineTellsOf (list_of bytes) line → Appends (K.taken sink.old) (K.taken sink.new) line)) }
    // Its statuses have the causes that those of a script have, and no disk is called.
    ensures checked_judged { IfCheck (task_of (map string_bytes words.now)) (IfSome (S.left source.old) (λ bytes. JudgesScript result (list_of bytes)
        (Rose (S.faults source.old) (S.faults source.new) × IsUndecided list_rules tt (S.left source.old) (S.left source.new))
        (Rose (K.faults sink.old) (K.faults sink.new)))) }
    ensures checked_complete { (Rose (S.faults source.old) (S.faults source.new) → ⊥)
        → (Rose (K.faults sink.old) (K.faults sink.new) → ⊥)
        → IfCheck (task_of (map string_bytes words.now)) (IfSome (S.left source.old) (λ bytes. Completes result (list_of bytes))) }
    ensures checked_disks { IfCheck (task_of (map string_bytes words.now)) (disks.new.items ≡ disks.old.items) }
    // The records of a server: nothing was read from the source. With status 0 the sink took the listing of what its two disks tell, which were
    // only read; all disks stand where they stood.
    ensures listed { IfLog (task_of (map string_bytes words.now)) (λ group server. (S.left source.new ≡ S.left source.old)
        × ListEnds D.seen D.may_leave D.faults group server result (K.taken sink.old) (K.taken sink.new) (Rose (K.faults sink.old) (K.faults sink.new))
        disks.old.items disks.new.items) }
    ensures read_fault { result ≡ Status.ReadFault → Rose (S.faults source.old) (S.faults source.new) }
    ensures write_fault { result ≡ Status.WriteFault → Rose (K.faults sink.old) (K.faults sink.new) }
{
    run_words(rt, alloc, words, source, sink, disks, gate)
}
