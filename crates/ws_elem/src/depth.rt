//! How far below a resource something reaches.
ghost use Rattle.std.specs.Prelude.{◌≡◌};
ghost use Rattle.ws_elem.specs.Depths.{depth_number};

/// How far below a resource something reaches (`IResource.DEPTH_ZERO` and so on).
#[derive(Clone, Copy, Debug, PartialEq, Eq)]
pub enum Depth {
    /// The resource alone.
    Zero,
    /// The resource and what is right below it.
    One,
    /// The resource and all below it.
    Infinite,
}

impl Depth {
    /// The platform's number: 0, 1 or 2.
    pub fn number(self) -> u8
        ensures { result ≡ depth_number self }
    {
        match self {
            Depth::Zero => 0,
            Depth::One => 1,
            Depth::Infinite => 2,
        }
    }
}
