ghost use Rattle.std.specs.Prelude.{◌≡◌};
ghost use Rattle.std.specs.Option.{option_map};
ghost use Rattle.ak_made_collections.specs.Sizes.{IsSize, size_in};

/// The most notes of a collection that is made of a seed.
pub const LARGEST_SIZE: u64 = 20_000;

/// How many notes a collection has that is made of a seed: 1 to 20,000.
#[derive(Clone, Copy, Debug, PartialEq, Eq)]
pub struct MakeSize {
    pub notes: u64,
    pub ghost few: { IsSize notes },
}

/// Of which seed a collection is made, and how large it is.
#[derive(Clone, Copy, Debug, PartialEq, Eq)]
pub struct MakePlan {
    pub seed: u64,
    pub size: MakeSize,
}

impl MakeSize {
    /// The size that a number is. It takes no memory.
    pub fn of(notes: u64) -> Option<MakeSize>
        ensures { option_map (λ size. size.notes) result ≡ size_in notes }
    {
        if notes < 1 {
            return None;
        }
        if LARGEST_SIZE < notes {
            return None;
        }
        Some(MakeSize { notes })
    }
}
