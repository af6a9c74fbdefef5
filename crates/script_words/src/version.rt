ghost use Rattle.std.specs.Prelude.{◌≡◌, ◌+◌};
ghost use Rattle.script_words.specs.Calls.{items_of, variables_of};

/// The version of the grammar of scripts.
#[derive(Clone, Copy, Debug, PartialEq, Eq)]
pub enum Version {
    One,
    Two,
}

impl Version {
    /// How many variables a script has.
    pub fn variables(self) -> u32
        ensures { result ≡ variables_of self }
    {
        match self {
            Version::One => 64,
            Version::Two => 1_024,
        }
    }

    /// The number of the last variable.
    pub fn last_variable(self) -> u32
        ensures { result + 1 ≡ variables_of self }
    {
        match self {
            Version::One => 63,
            Version::Two => 1_023,
        }
    }

    /// How many tests a `select` has at most.
    pub fn select_items(self) -> usize
        ensures { result ≡ items_of self }
    {
        match self {
            Version::One => 32,
            Version::Two => 1_024,
        }
    }
}
