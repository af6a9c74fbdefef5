ghost use Rattle.std.specs.Prelude.{◌≡◌};
ghost use Rattle.lw_scripts.specs.Forms.{takes_pair, takes_single, takes_version};
ghost use Rattle.script_words.specs.declared.version.Version.{Version};

use script_words::Version;

/// Which kinds of scripts are read.
#[derive(Clone, Copy, Debug, PartialEq, Eq)]
pub enum Wanted {
    /// Scripts of one stack.
    One,
    /// Pair scripts.
    Two,
    /// Both.
    Either,
    /// Both, of version 1.
    First,
}

impl Wanted {
    // Whether scripts of this version are read.
    pub fn takes_version(self, version: Version) -> bool
        ensures { result ≡ takes_version self version }
    {
        match version {
            Version::One => true,
            Version::Two => self.takes_second(),
        }
    }

    // Whether scripts of version 2 are read.
    fn takes_second(self) -> bool
        ensures { result ≡ takes_version self Version.Two }
    {
        match self {
            Wanted::One => true,
            Wanted::Two => true,
            Wanted::Either => true,
            Wanted::First => false,
        }
    }

    // Whether scripts of one stack are read.
    pub fn takes_single(self) -> bool
        ensures { result ≡ takes_single self }
    {
        match self {
            Wanted::One => true,
            Wanted::Two => false,
            Wanted::Either => true,
            Wanted::First => true,
        }
    }

    // Whether pair scripts are read.
    pub fn takes_pair(self) -> bool
        ensures { result ≡ takes_pair self }
    {
        match self {
            Wanted::One => false,
            Wanted::Two => true,
            Wanted::Either => true,
            Wanted::First => true,
        }
    }
}
