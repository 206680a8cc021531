ghost use Rattle.std.specs.Prelude.{◌≡◌};
ghost use Rattle.ak_memory.specs.Versions.{other};

/// Which of the two that are kept: what is held now, or what was held at the mark.
#[derive(Clone, Copy, Debug, PartialEq, Eq)]
pub(crate) enum Version {
    Now,
    Mark,
}

impl Version {
    /// The other of the two.
    pub(crate) fn other(self) -> Version
        ensures { result ≡ other self }
    {
        match self {
            Version::Now => Version::Mark,
            Version::Mark => Version::Now,
        }
    }
}
