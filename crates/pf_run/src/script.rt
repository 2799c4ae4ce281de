//! The lines of a script, as commands.
ghost use Rattle.std.specs.Prelude.{◌≤◌, None, IfOk, IfErr};
ghost use Rattle.pf_io.specs.Causes.{Rose};
ghost use Rattle.pf_run_lines.specs.Runs.{IsText, IsReadUpto, IsRefused, IsUndecided, StopSays};
ghost use Rattle.pf_run.specs.Scripts.{script_rules};

use pf_io::Source;
use pf_run_lines::{LineReader, Stop, read_lines};
use pf_script::{LineFault, Reader};
use pf_world::Line;
use std::alloc::Global;
use std::marker::Model;

/// Reads the lines of a script, whose first command makes the volume that the later ones name.
#[derive(Drop)]
struct ScriptReader {
    reader: Reader,
}

impl Model for ScriptReader {
    ghost use Rattle.std.specs.Prelude.{Option};
    ghost use Rattle.pf_script.specs.declared.named.NamedVolume.{NamedVolume};

    ghost Value = { Option NamedVolume };

    ghost view = { λ r. r.reader };
}

impl LineReader for ScriptReader {
    type Item = Line;

    ghost rules = { script_rules };

    fn read(&mut self, alloc: Global, number: u32, line: &[u8]) -> Result<Option<Line>, LineFault> {
        match self.reader.line(alloc, line) {
            Ok(Some(command)) => Ok(Some(Line { number, command })),
            Ok(None) => Ok(None),
            Err(fault) => Err(fault),
        }
    }

    fn may_end(&self) -> Result<(), LineFault> {
        self.reader.end()
    }
}

/// Reads the script to its end, or to its first refused line.
pub fn read_script<S: Source>(alloc: Global, source: &mut S) -> Result<Vec<Line>, Stop>
    ensures accepted { IfOk result (λ lines. IsText script_rules None (S.left source.old) (S.left source.new) lines.items) }
    ensures stopped { IfErr result (λ stop. StopSays stop (IsRefused script_rules None (S.left source.old))
        (Rose (S.faults source.old) (S.faults source.new) × IsUndecided script_rules None (S.left source.old) (S.left source.new))) }
    // Nothing is read behind the piece in which the refused line became whole.
    ensures piece { IfErr result (λ stop. StopSays stop (IsReadUpto script_rules None (S.left source.old) (S.left source.new)) (Unit {0})) }
    ensures later { S.faults source.old ≤ S.faults source.new }
{
    let reader = ScriptReader {
        reader: Reader::new(),
    };
    read_lines(alloc, source, reader)
}
