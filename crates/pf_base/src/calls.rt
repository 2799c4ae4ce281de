//! Calls of the file system, and their names.
ghost use Rattle.std.specs.Prelude.{◌≡◌};
ghost use Rattle.pf_base.specs.CallNames.{call_name_of};

/// A call of a mount, over what it has as a path: a `Call<Bytes>` has the bytes of a word, of which it is judged as the call starts whether
/// they spell a path; a `Call<Names>` has paths that are read, each listing its names from the last to the first.
#[derive(Debug, Drop)]
pub enum Call<P> {
    /// Makes a directory.
    Mkdir {
        path: P,
    },
    /// Makes an empty file.
    Create {
        path: P,
    },
    /// Writes `count` bytes `byte` from `offset` on.
    Write {
        path: P,
        offset: u32,
        byte: u8,
        count: u32,
    },
    /// Reads up to `count` bytes from `offset` on.
    Read {
        path: P,
        offset: u32,
        count: u32,
    },
    /// Sets a file's size, in bytes.
    Truncate {
        path: P,
        size: u32,
    },
    /// Gives a file or a directory another path.
    Rename {
        from: P,
        to: P,
    },
    /// Removes a file.
    Unlink {
        path: P,
    },
    /// Removes an empty directory.
    Rmdir {
        path: P,
    },
    /// Tells whether a path is a file, and of what size, or a directory.
    Stat {
        path: P,
    },
    /// Tells the names in a directory.
    List {
        path: P,
    },
}

/// What a call is called.
#[derive(Clone, Copy, Debug, PartialEq, Eq)]
pub enum CallName {
    Mkdir,
    Create,
    Write,
    Read,
    Truncate,
    Rename,
    Unlink,
    Rmdir,
    Stat,
    List,
}

impl<P> Call<P> {
    /// The name of the call.
    pub fn name(&self) -> CallName
        ensures { result ≡ call_name_of self.now }
    {
        match self {
            Call::Mkdir { .. } => CallName::Mkdir,
            Call::Create { .. } => CallName::Create,
            Call::Write { .. } => CallName::Write,
            Call::Read { .. } => CallName::Read,
            Call::Truncate { .. } => CallName::Truncate,
            Call::Rename { .. } => CallName::Rename,
            Call::Unlink { .. } => CallName::Unlink,
            Call::Rmdir { .. } => CallName::Rmdir,
            Call::Stat { .. } => CallName::Stat,
            Call::List { .. } => CallName::List,
        }
    }
}
