//! The end of a run.
ghost use Rattle.std.specs.Prelude.{◌≡◌};

/// How a run ended.
#[derive(Clone, Copy, Debug, PartialEq, Eq)]
pub enum Status {
    /// 0: the whole script was read, and its whole report was written.
    Ok,
    /// 1: memory has run out. The report of the lines that were run was written.
    NoMemory,
    /// 2: the words are not accepted, and the usage was written.
    Usage,
    /// 3: a line of the script is refused. Its number and the number of the refusal were written, and nothing was run.
    Script,
    /// 4: the source failed before a refused line was whole. Nothing was written, and nothing was run.
    ReadFault,
    /// 5: the sink failed. It took a front of what was to be written.
    WriteFault,
}

impl Status {
    ghost use Rattle.pf_run_lines.specs.Statuses.{code_of};

    /// The exit status of the process.
    pub fn code(&self) -> u8
        ensures { result ≡ code_of self.now }
    {
        match self {
            Status::Ok => 0,
            Status::NoMemory => 1,
            Status::Usage => 2,
            Status::Script => 3,
            Status::ReadFault => 4,
            Status::WriteFault => 5,
        }
    }
}
