//! Symbols of what happens on a lane. Each is told from the others by its form, without its colour.
ghost use Rattle.std.specs.Prelude.{◌≡◌};
ghost use Rattle.pf_draw_shapes.specs.Symbols.{symbol_class, symbol_path};

/// The form of a symbol.
#[derive(Clone, Copy)]
pub enum Symbol {
    /// A triangle that points to the right.
    Sent,
    /// A filled circle.
    Taken,
    /// A circle with a slash.
    Refused,
    /// A thin cross.
    Lost,
    /// An empty circle.
    Left,
    /// An empty square.
    Stored,
    /// A filled square.
    Chosen,
    /// A filled triangle that points up.
    Applied,
    /// A tick.
    Told,
    /// A flag.
    Asks,
    /// A crown.
    Leads,
    /// A filled rhombus.
    Serves,
    /// An empty rhombus.
    Follows,
    /// A thick bar.
    Stops,
    /// A bolt.
    Fails,
    /// An arrow that points up.
    Starts,
    /// Two bars.
    Kept,
    /// A square with a diagonal.
    Image,
}

impl Symbol {
    /// The class of its colour.
    pub(crate) fn class(self) -> &'static [u8]
        ensures { result.now ≡ symbol_class self }
    {
        match self {
            Symbol::Sent | Symbol::Refused | Symbol::Left => b"a",
            Symbol::Taken => b"b",
            Symbol::Stored | Symbol::Told | Symbol::Image => b"c",
            Symbol::Chosen | Symbol::Applied => b"d",
            Symbol::Lost | Symbol::Stops | Symbol::Fails => b"e",
            Symbol::Asks | Symbol::Follows | Symbol::Starts | Symbol::Kept => b"g",
            Symbol::Leads | Symbol::Serves => b"h",
        }
    }

    /// Its path, around the point 0 0.
    pub(crate) fn path(self) -> &'static [u8]
        ensures { result.now ≡ symbol_path self }
    {
        match self {
            Symbol::Sent => b"M-4-4L4 0L-4 4z",
            Symbol::Taken | Symbol::Left => b"M-4 0a4 4 0 1 0 8 0a4 4 0 1 0-8 0",
            Symbol::Refused => b"M-4 0a4 4 0 1 0 8 0a4 4 0 1 0-8 0M-5 5L5-5",
            Symbol::Lost => b"M-4-4L4 4M4-4L-4 4",
            Symbol::Stored | Symbol::Chosen => b"M-4-4h8v8h-8z",
            Symbol::Applied => b"M0-5L5 4H-5z",
            Symbol::Told => b"M-4 0L-1 4L5-5",
            Symbol::Asks => b"M-3 5V-5L5-2L-3 1",
            Symbol::Leads => b"M-5 4V-4L-2 0L0-5L2 0L5-4V4z",
            Symbol::Serves | Symbol::Follows => b"M0-5L5 0L0 5L-5 0z",
            Symbol::Stops => b"M-6 0H6",
            Symbol::Fails => b"M2-6L-3 1H3L-2 6",
            Symbol::Starts => b"M0 5V-5M-4-1L0-5L4-1",
            Symbol::Kept => b"M-6-2H6M-6 2H6",
            Symbol::Image => b"M-4-4h8v8h-8zL4 4",
        }
    }
}
