ghost use Rattle.std.specs.Prelude.{◌≡◌};
ghost use Rattle.lw_script.specs.Parts.{call_text, limits_of, profile_word};

use lw_base::{Limits, Net, Series};

/// The sizes that a script chooses for its stack, by one word.
#[derive(Clone, Copy, Debug, PartialEq, Eq)]
pub enum Profile {
    Default,
    Small,
    Wide,
}

impl Profile {
    /// The word of a script that chooses this profile.
    pub fn word(self) -> &'static str
        ensures { result.now ≡ profile_word self }
    {
        match self {
            Profile::Default => "default",
            Profile::Small => "small",
            Profile::Wide => "wide",
        }
    }

    /// The sizes of a stack of this profile.
    pub fn limits(self) -> Limits
        ensures { result ≡ limits_of self }
    {
        let default = Limits {
            ram: 256,
            pool: 256,
            rom: 16,
            reference: 64,
            mailbox: 8,
            tcpip: 64,
            descriptors: 32,
            window: 5_840,
            live: 64,
            ends: 128,
            variables: 64,
        };
        match self {
            Profile::Default => default,
            Profile::Small => Limits {
                ram: 8,
                pool: 4,
                rom: 4,
                reference: 4,
                mailbox: 2,
                tcpip: 4,
                descriptors: 8,
                ..default
            },
            Profile::Wide => Limits {
                pool: 1_024,
                window: 1_048_576,
                ..default
            },
        }
    }
}

/// One thing that an actor or the driver of a script does.
#[derive(Clone, Copy, Debug, PartialEq, Eq)]
pub enum Call {
    /// Feeds the frames of the capture that are left, in their order.
    FeedAll,
    /// Ends the run.
    Stop,
}

impl Call {
    /// The text of this call, as in a script and in a transcript.
    pub fn text(self) -> &'static str
        ensures { result.now ≡ call_text self }
    {
        match self {
            Call::FeedAll => "feed all",
            Call::Stop => "stop",
        }
    }
}

/// The calls of an actor, in their order.
pub type CallList = Series<Call>;

/// What a script says: where its stack stands, how large it is, and what the driver does.
#[derive(Drop)]
pub struct Script {
    pub net: Net,
    pub profile: Profile,
    pub commands: CallList,
}
