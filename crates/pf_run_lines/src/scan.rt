//! The lines of a source.
ghost use Rattle.std.specs.Prelude.{◌≡◌, ◌+◌, ◌<◌, ◌≤◌, [], All, IfOk, IfErr, OnOk, false, length};
ghost use Rattle.std.specs.List.{position};
ghost use Rattle.pf_io.specs.Causes.{Rose};
ghost use Rattle.pf_script.specs.Lines.{LineGives};
ghost use Rattle.pf_run_lines.specs.LineScans.{LineRules, Open, is_feed, read_line, fed, fed_all, fed_line, close, ended};
ghost use Rattle.pf_run_lines.specs.Runs.{IsText, IsReadUpto, IsRefused, IsUndecided, StopSays};

use pf_io::Source;
use pf_script::LineFault;
use std::alloc::Global;
use std::mem::replace;

/// Why no lines were read.
#[derive(Clone, Copy, Debug, PartialEq, Eq)]
pub enum Stop {
    NoMemory,
    Refused { line: u32, fault: LineFault },
    Failed,
}

/// Lines that a source may have.
const LINES: u32 = 100_000;

/// Bytes that a line may have before its end.
const LINE_BYTES: usize = 1024;

/// Reads lines in their order.
pub trait LineReader: Drop {
    /// What is kept of a line.
    type Item: Drop;

    ghost rules: { LineRules Self Self.Item };

    /// What the line of this number says, without its line feed. `None` is a line that does nothing.
    fn read(
        &mut self,
        alloc: Global,
        number: u32,
        line: &[u8],
    ) -> Result<Option<Self::Item>, LineFault>
        ensures said { LineGives (rules.says number self.old line.now) result }
        ensures next { IfOk result (λ said. self.new ≡ rules.next self.old said) };

    /// Whether the lines may end here.
    fn may_end(&self) -> Result<(), LineFault>
        ensures { result ≡ rules.end self.now };
}

/// Where the first line feed of these bytes stands.
fn line_end(bytes: &[u8]) -> Option<usize>
    ensures { result ≡ position is_feed bytes.now }
{
    bytes.iter().position(|byte| *byte == b'\n')
}

/// Lines that are read: what they said so far, and the line that has begun.
#[derive(Drop)]
struct Scan<R: LineReader> {
    items: Vec<R::Item>,
    reader: R,
    number: u32,
    begun: Vec<u8>,
    ghost numbered: { number ≤ 100001 },
    ghost short: { length begun.items ≤ 1024 },
    ghost started: { 0 < length begun.items → number ≤ 100000 },
}

impl<R: LineReader> Scan<R> {
    ghost use Rattle.pf_run_lines.specs.ScanView.{scanned, Told, ScanEnds, room};

    fn new(alloc: Global, reader: R) -> Scan<R>
        ensures { scanned result ≡ Open [] 1 reader [] }
    {
        Scan {
            items: Vec::new(alloc),
            reader,
            number: 1,
            begun: Vec::new(alloc),
        }
    }

    /// This is a whole line, and none has begun before it.
    fn read_line(&mut self, alloc: Global, line: &[u8]) -> Result<(), Stop>
        requires { self.old.begun.items ≡ [] }
        ensures told { Told result (fed_line R.rules self.old.items.items self.old.number self.old.reader
            (read_line R.rules self.old.number self.old.reader line.now)) (scanned self.new) }
        ensures stays { self.new.begun.items ≡ [] }
        ensures room { OnOk result (room self.new + length line.now < room self.old) }
    {
        if self.number > LINES {
            return Err(Stop::Refused {
                line: self.number,
                fault: LineFault::TooManyLines,
            });
        }
        if line.len() > LINE_BYTES {
            return Err(Stop::Refused {
                line: self.number,
                fault: LineFault::LineTooLong,
            });
        }
        match self.reader.read(alloc, self.number, line) {
            Ok(Some(item)) => {
                if self.items.push(item).is_err() {
                    return Err(Stop::NoMemory);
                }
            }
            Ok(None) => {}
            Err(LineFault::NoMemory) => return Err(Stop::NoMemory),
            Err(fault) => {
                return Err(Stop::Refused {
                    line: self.number,
                    fault,
                });
            }
        }
        self.number += 1;
        Ok(())
    }

    /// The line that has begun is whole.
    fn end_line(&mut self, alloc: Global) -> Result<(), Stop>
        ensures told { Told result (fed R.rules (scanned self.old) 10) (scanned self.new) }
        ensures room { OnOk result (room self.new < room self.old) }
    {
        let mut line = replace(&mut self.begun, Vec::new(alloc));
        let ended = self.read_line(alloc, &line);
        line.clear();
        self.begun = line;
        ended
    }

    /// More bytes of the line that has begun.
    fn grow(&mut self, bytes: &[u8]) -> Result<(), Stop>
        requires { All (λ byte. is_feed byte ≡ false) bytes.now }
        ensures told { Told result (fed_all R.rules (scanned self.old) bytes.now) (scanned self.new) }
        ensures room { OnOk result (room self.new + length bytes.now ≤ room self.old) }
    {
        if bytes.is_empty() {
            return Ok(());
        }
        if self.number > LINES {
            return Err(Stop::Refused {
                line: self.number,
                fault: LineFault::TooManyLines,
            });
        }
        if bytes.len() > LINE_BYTES - self.begun.len() {
            return Err(Stop::Refused {
                line: self.number,
                fault: LineFault::LineTooLong,
            });
        }
        if self.begun.extend_from_slice(bytes).is_err() {
            return Err(Stop::NoMemory);
        }
        Ok(())
    }

    /// The line that has begun ends behind these bytes. It is copied only where some of it was read before.
    fn take_line(&mut self, alloc: Global, bytes: &[u8]) -> Result<(), Stop>
        requires { All (λ byte. is_feed byte ≡ false) bytes.now }
        ensures told { Told result (fed R.rules (fed_all R.rules (scanned self.old) bytes.now) 10) (scanned self.new) }
        ensures room { OnOk result (room self.new + length bytes.now < room self.old) }
    {
        if self.begun.is_empty() {
            return self.read_line(alloc, bytes);
        }
        if let Err(stop) = self.grow(bytes) {
            return Err(stop);
        }
        self.end_line(alloc)
    }

    /// More bytes.
    fn feed(&mut self, alloc: Global, bytes: &[u8]) -> Result<(), Stop>
        ensures told { Told result (fed_all R.rules (scanned self.old) bytes.now) (scanned self.new) }
        ensures room { OnOk result (room self.new + length bytes.now ≤ room self.old) }
    {
        let mut rest = bytes;
        while let Some(count) = line_end(rest) {
            if let Err(stop) = self.take_line(alloc, &rest[..count]) {
                return Err(stop);
            }
            rest = &rest[count + 1..];
        }
        self.grow(rest)
    }

    /// The source ends here.
    fn end(mut self, alloc: Global) -> Result<Vec<R::Item>, Stop>
        ensures { ScanEnds result (close R.rules (scanned self)) }
    {
        if self.begun.is_empty() {
            return self.finish();
        }
        if let Err(stop) = self.end_line(alloc) {
            return Err(stop);
        }
        self.finish()
    }

    /// No line has begun, and none follows.
    fn finish(self) -> Result<Vec<R::Item>, Stop>
        ensures { ScanEnds result (ended R.rules self.items.items self.number self.reader) }
    {
        match self.reader.may_end() {
            Ok(()) => {
                let Scan { items, .. } = self;
                Ok(items)
            }
            Err(fault) => Err(Stop::Refused {
                line: self.number,
                fault,
            }),
        }
    }
}

/// Reads the lines of a source to its end, or to the first that is refused, in pieces of at most 4,096 bytes. It stops behind the piece in
/// which the refused line became whole.
pub fn read_lines<S: Source, R: LineReader>(
    alloc: Global,
    source: &mut S,
    reader: R,
) -> Result<Vec<R::Item>, Stop>
    ensures accepted { IfOk result (λ items. IsText R.rules reader (S.left source.old) (S.left source.new) items.items) }
    ensures stopped { IfErr result (λ stop. StopSays stop (IsRefused R.rules reader (S.left source.old))
        (Rose (S.faults source.old) (S.faults source.new) × IsUndecided R.rules reader (S.left source.old) (S.left source.new))) }
    // Nothing is read behind the piece in which the refused line became whole.
    ensures piece { IfErr result (λ stop. StopSays stop (IsReadUpto R.rules reader (S.left source.old) (S.left source.new)) (Unit {0})) }
    ensures later { S.faults source.old ≤ S.faults source.new }
{
    let mut scan = Scan::new(alloc, reader);
    let mut buffer = [0u8; 4096];
    loop {
        let Ok(count) = source.read(&mut buffer) else {
            return Err(Stop::Failed);
        };
        if count == 0 {
            return scan.end(alloc);
        }
        if let Err(stop) = scan.feed(alloc, &buffer[..count]) {
            return Err(stop);
        }
    }
}
