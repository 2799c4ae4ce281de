//! What no stored run shows: ends and disks that fail, and copies that are made at once.
ghost use Rattle.std.specs.Prelude.{◌≡◌, ◌≤◌, IfOk, length};

use pf_disk::MemDisk;
use pf_group_copy::{Gate, OpenGate};
use pf_io::{MemSink, MemSource};
use pf_run::run;
use pf_run_lines::Status;
use std::alloc::{AllocError, Global};
use std::sync::Wait;
use std::sync::atomic::{AtomicU64, Ordering};
use std::test::Fail;
use std::thread::{self, Threads};

/// A sink of this room, the read and the write that fail, and the disk that fails in one of its calls. Each disk has that many bytes.
#[derive(Clone, Copy)]
struct Ends {
    room: u64,
    read: u64,
    write: u64,
    half: u64,
    disk: usize,
    call: u64,
}

/// No end fails.
const SOUND: Ends = Ends {
    room: 1_000,
    read: 999,
    write: 999,
    half: 20_000,
    disk: 0,
    call: 999,
};

/// The first half of server 1 fails in its call 8, from 0 on, or in one of the next three.
const FAILS_AT_8: Ends = Ends {
    disk: 2,
    call: 8,
    ..SOUND
};

const FAILS_AT_9: Ends = Ends {
    call: 9,
    ..FAILS_AT_8
};

const FAILS_AT_10: Ends = Ends {
    call: 10,
    ..FAILS_AT_8
};

const FAILS_AT_11: Ends = Ends {
    call: 11,
    ..FAILS_AT_8
};

/// 48 disks that count their calls.
fn disks_of(alloc: Global, ends: &Ends) -> Result<Vec<MemDisk>, AllocError>
    ensures { IfOk result (λ disks. length disks.items ≡ 48) }
{
    let mut disks = Vec::new(alloc);
    for number in 0..48_usize {
        let fails = if number == ends.disk { ends.call } else { 999 };
        disks.push(MemDisk::new(alloc, ends.half, 99, vec![in alloc; fails]?)?)?;
    }
    Ok(disks)
}

/// A command line of these words.
fn words_of(alloc: Global, words: &[&str]) -> Result<Vec<String>, AllocError> {
    let mut all = Vec::new(alloc);
    for word in words {
        all.push(String::from_str(alloc, word)?)?;
    }
    Ok(all)
}

/// The status of a run of these words over these disks, and what its sink took.
fn ran_over<R: Threads + Wait + Sync, G: Gate + Sync>(
    rt: &R,
    alloc: Global,
    words: &[&str],
    script: &str,
    ends: &Ends,
    disks: &mut Vec<MemDisk>,
    gate: &G,
) -> Result<(Status, MemSink), Fail>
    requires { 48 ≤ length disks.old.items }
{
    let words = words_of(alloc, words)?;
    let mut source = MemSource::new(script.as_bytes().to_vec(alloc)?, vec![in alloc; ends.read]?);
    let mut sink = MemSink::new(alloc, ends.room, vec![in alloc; ends.write]?)?;
    let status = run(rt, alloc, &words, &mut source, &mut sink, disks, gate);
    Ok((status, sink))
}

/// The status of a run, what its sink took, how many disks hold a spare half that server 1 of group 0 began in the second format, and
/// what `log 0 1` writes over the same disks.
fn ran<R: Threads + Wait + Sync>(
    rt: &R,
    alloc: Global,
    word: &str,
    script: &str,
    ends: &Ends,
) -> Result<(Status, MemSink, usize, MemSink), Fail> {
    let mut disks = disks_of(alloc, ends)?;
    let (status, sink) = ran_over(rt, alloc, &[word], script, ends, &mut disks, &OpenGate)?;
    let spare = disks
        .iter()
        .filter(|disk| disk.bytes().starts_with(b"PFCL\x02\x00\x01\x01"))
        .count();
    if disks.len() < 48 {
        return Err(Fail::from("disks are lost"));
    }
    let log = &["log", "0", "1"];
    let (_, records) = ran_over(rt, alloc, log, "", &SOUND, &mut disks, &OpenGate)?;
    Ok((status, sink, spare, records))
}

const SHORT: &str = "volume 1 16\nsubmit 0 0 0 41 1\n";

const ONCE: &str =
    "volume 1 16\nsubmit 0 0 0 41 1\ndeliver 0 0\nshow log 0 1\nrestart 0 1\nshow log 0 1\ndeliver 0 0\nshow log 0 1\n";

const SETTLED: &str = "volume 1 16\nsubmit 0 0 0 41 1\nsettle 100\nrestart 0 1\nshow log 0 1\n";

const UNFORMATTED: &str = "volume 1 16\nsubmit 0 0 0 41 1\nrestart 0 0\nelect 0 1\n";

const OLD: &str = "volume 1 16 2 1\nsubmit 0 0 0 41 1\nsettle 100\nrestart 0 1\nshow log 0 1\n";

/// One transaction, which makes a directory in the root.
const LISTED: &str = "010000000102010001010000000002000000010161\n";

const NOT_OURS: &str = "not ours\n";

const IMAGE: &str = "image 0 1 0\n";

const ENTRY: &str = "image 0 1 0\nentry 1:1:w0x1\n";

const WITHOUT: &str = "1 ok\n2 slot 1\n3 quiet\n4 ok\n5 log 1 0\n";

const WITH: &str = "1 ok\n2 slot 1\n3 quiet\n4 ok\n5 log 1 0 1:1:w0x1-\n";

/// Words that are not accepted, a script that is refused, and a source and a sink that fail. Then disks: their formatting takes eight
/// calls and a record four more. Where the last of these four fails, a restart finds the record, and where another fails it does not.
/// Then a half of the first format, which a restart saves anew in the second; and a disk that fails when its records are listed. Last
/// lists of transactions, over the same ends. Behind each stands what is listed of server 1 then.
const ROWS: [(&str, &str, Ends, Status, &str, &str); 22] = [
    ("walk", SHORT, SOUND, Status::Usage, "usage\n", NOT_OURS),
    (
        "walk",
        SHORT,
        Ends { room: 3, ..SOUND },
        Status::WriteFault,
        "usa",
        NOT_OURS,
    ),
    (
        "run",
        "mark 0 0\n",
        SOUND,
        Status::Script,
        "fault 1 24\n",
        NOT_OURS,
    ),
    (
        "run",
        "mark 0 0\n",
        Ends { room: 3, ..SOUND },
        Status::WriteFault,
        "fau",
        NOT_OURS,
    ),
    (
        "run",
        SHORT,
        Ends { read: 0, ..SOUND },
        Status::ReadFault,
        "",
        NOT_OURS,
    ),
    (
        "run",
        SHORT,
        Ends { read: 1, ..SOUND },
        Status::ReadFault,
        "",
        NOT_OURS,
    ),
    (
        "run",
        SHORT,
        Ends { room: 1, ..SOUND },
        Status::WriteFault,
        "1",
        IMAGE,
    ),
    (
        "run",
        SHORT,
        Ends { write: 1, ..SOUND },
        Status::WriteFault,
        "1 ok\n",
        IMAGE,
    ),
    (
        "run",
        SHORT,
        Ends { half: 100, ..SOUND },
        Status::Ok,
        "1 halted\n2 down\n",
        NOT_OURS,
    ),
    (
        "run",
        ONCE,
        FAILS_AT_8,
        Status::Ok,
        "1 ok\n2 slot 1\n3 halted\n4 down\n5 ok\n6 log 1 0\n7 ok\n8 log 1 0 1:1:w0x1-\n",
        ENTRY,
    ),
    ("run", SETTLED, FAILS_AT_8, Status::Ok, WITHOUT, IMAGE),
    ("run", SETTLED, FAILS_AT_9, Status::Ok, WITHOUT, IMAGE),
    ("run", SETTLED, FAILS_AT_10, Status::Ok, WITHOUT, IMAGE),
    ("run", SETTLED, FAILS_AT_11, Status::Ok, WITH, ENTRY),
    (
        "run",
        UNFORMATTED,
        Ends {
            disk: 0,
            call: 0,
            ..SOUND
        },
        Status::Ok,
        "1 halted\n2 down\n3 not ours\n4 term 2\n",
        "image 0 1 0\nterm 2\n",
    ),
    ("run", OLD, SOUND, Status::Ok, WITH, "image 1 1 0\n"),
    (
        "run",
        SHORT,
        FAILS_AT_8,
        Status::Ok,
        "1 ok\n2 slot 1\n",
        "disk fault\n",
    ),
    ("check", LISTED, SOUND, Status::Ok, "clean 2 1\n", NOT_OURS),
    (
        "check",
        "01\n",
        SOUND,
        Status::Script,
        "fault 1 20\n",
        NOT_OURS,
    ),
    (
        "check",
        LISTED,
        Ends { read: 1, ..SOUND },
        Status::ReadFault,
        "",
        NOT_OURS,
    ),
    (
        "check",
        LISTED,
        Ends { room: 3, ..SOUND },
        Status::WriteFault,
        "cle",
        NOT_OURS,
    ),
    (
        "check",
        "01\n",
        Ends { room: 3, ..SOUND },
        Status::WriteFault,
        "fau",
        NOT_OURS,
    ),
];

#[test]
fn ends_and_disks_that_fail(rt: HostRuntime) -> Result<(), Fail> {
    for (word, script, ends, status, report, listing) in ROWS {
        let (told, sink, spare, records) = ran(&rt, rt.alloc(), word, script, &ends)?;
        assert_eq!(rt; sink.bytes(), report.as_bytes(), "{report}");
        assert_eq!(rt; told, status, "{report}");
        assert_eq!(rt; spare == 1, script == OLD, "{report}");
        assert_eq!(rt; records.bytes(), listing.as_bytes(), "{report}");
    }
    Ok(())
}

/// How often the second copy looks for the third one.
const TURNS: u32 = 20_000;

/// Holds the second copy until the third has begun.
#[derive(Drop)]
struct Meeting {
    begun: AtomicU64,
    met: AtomicU64,
}

impl Gate for Meeting {
    fn before(&self, _worker: u32) {
        if self.begun.fetch_add(1, Ordering::SeqCst) != 1 {
            return;
        }
        for _ in 0..TURNS {
            if self.begun.load(Ordering::SeqCst) > 2 {
                self.met.store(1, Ordering::SeqCst);
                return;
            }
            thread::yield_now();
        }
    }

    fn after(&self, _worker: u32) {}
}

/// Two committed writes that share no sector wait for one that covers them: it is copied alone, and the next round copies both.
const BESIDE: &str =
    "volume 1 16\nsubmit 0 0 0 41 8\nsubmit 0 0 0 42 1\nsubmit 0 0 4 43 1\ndeliver 0 0\ndeliver 0 2\ndeliver 0 4\ndeliver 0 7\ndeliver 0 8\ndeliver 0 6\n";

/// On one thread the third copy would not begin before the second has ended.
#[test]
fn copies_of_one_round_meet(rt: HostRuntime) -> Result<(), Fail> {
    let alloc = rt.alloc();
    let gate = Meeting {
        begun: AtomicU64::new(0),
        met: AtomicU64::new(0),
    };
    let words = &["run", "--workers", "2"];
    let mut disks = disks_of(alloc, &SOUND)?;
    let (status, _) = ran_over(&rt, alloc, words, BESIDE, &SOUND, &mut disks, &gate)?;
    assert_eq!(rt; status, Status::Ok);
    assert_eq!(rt; gate.met.load(Ordering::SeqCst), 1);
    Ok(())
}
