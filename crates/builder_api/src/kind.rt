//! What a build asks for.
ghost use Rattle.std.specs.Prelude.{◌≡◌};
ghost use Rattle.builder_api.specs.Kinds.{build_number};

/// What a build asks for: all anew, what an automatic build or a caller finds changed, or that what was built goes.
#[derive(Clone, Copy, Debug, PartialEq, Eq)]
pub enum BuildKind {
    Full,
    Auto,
    Incremental,
    Clean,
}

impl BuildKind {
    /// The platform's number: 6 for full, 9 for auto, 10 for incremental, 15 for clean
    /// (`IncrementalProjectBuilder.FULL_BUILD` and so on).
    pub fn number(self) -> u8
        ensures { result ≡ build_number self }
    {
        match self {
            BuildKind::Full => 6,
            BuildKind::Auto => 9,
            BuildKind::Incremental => 10,
            BuildKind::Clean => 15,
        }
    }
}
