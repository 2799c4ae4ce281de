//! The halves of a pair, and the heads that their files begin with.
ghost use Rattle.std.specs.Prelude.{◌≡◌};
ghost use Rattle.pf_image.specs.Halves.{half_head, half_number, other};

/// One of the two halves of a pair.
#[derive(Clone, Copy, Debug, PartialEq, Eq)]
pub enum Half {
    Zero,
    One,
}

impl Half {
    /// Its number, which is the last byte of its head.
    pub fn number(self) -> u8
        ensures { result ≡ half_number self }
    {
        match self {
            Half::Zero => 0,
            Half::One => 1,
        }
    }

    /// The other half.
    pub fn other(self) -> Half
        ensures { result ≡ other self }
    {
        match self {
            Half::Zero => Half::One,
            Half::One => Half::Zero,
        }
    }

    /// The head of this half in a format. The fifth byte of the pair's head, its own format, does not count.
    pub(crate) fn head(self, head: &[u8; 7], format: u8) -> [u8; 8]
        ensures { result ≡ half_head head.now format self }
    {
        let [a, b, c, d, _, group, server] = *head;
        [a, b, c, d, format, group, server, self.number()]
    }
}
