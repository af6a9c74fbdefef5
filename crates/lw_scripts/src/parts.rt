ghost use Rattle.std.specs.Prelude.{◌≡◌, ◌≤◌, ◌*◌, max};
ghost use Rattle.std.specs.Option.{unwrap_or};
ghost use Rattle.lw_scripts.specs.Limits.{limits_of, profile_limits, profile_word};
ghost use Rattle.lw_scripts.specs.Parts.{AreSizes};
ghost use Rattle.script_words.specs.declared.version.Version.{Version};

use call_types::{Call, Side};
use lw_base::{Limits, Net, Octets, Series};
use script_words::Version;

/// The sizes that a script chooses for a stack, by one word.
#[derive(Clone, Copy, Debug, PartialEq, Eq)]
pub enum Profile {
    Default,
    Small,
    Wide,
}

impl Profile {
    /// The word of a script that chooses this profile.
    pub fn word(self) -> &'static str
        ensures { result.now ≡ profile_word self }
    {
        match self {
            Profile::Default => "default",
            Profile::Small => "small",
            Profile::Wide => "wide",
        }
    }
}

/// The sizes that a script names one by one; for each that is missing the profile's stands.
#[derive(Clone, Copy, Debug, PartialEq, Eq)]
pub struct Sizes {
    pub ram: Option<u32>,
    pub pool: Option<u32>,
    pub rom: Option<u32>,
    pub reference: Option<u32>,
    pub mailbox: Option<u32>,
    pub tcpip: Option<u32>,
    pub descriptors: Option<u32>,
    pub window: Option<u32>,
}

/// The name of a size.
#[derive(Clone, Copy, Debug, PartialEq, Eq)]
pub enum SizeName {
    Ram,
    Pool,
    Rom,
    Reference,
    Mailbox,
    Tcpip,
    Descriptors,
    Window,
}

/// How an actor's calls reach the core: under its lock, or as a message to the thread that serves it.
#[derive(Clone, Copy, Debug, PartialEq, Eq)]
pub enum Way {
    Direct,
    Message,
}

/// The calls of an actor or of the driver, in their order.
pub type CallList = Series<Call>;

/// An actor: its name, how its calls reach the core, and the calls.
#[derive(Drop)]
pub struct ActorScript {
    pub name: Octets,
    pub way: Way,
    pub calls: CallList,
}

/// The actors of a stack, in their order.
pub type ActorList = Series<ActorScript>;

/// A stack: where it stands, its sizes, and its actors.
#[derive(Drop)]
pub struct Stack {
    pub net: Net,
    pub profile: Profile,
    pub sizes: Sizes,
    pub actors: ActorList,
}

/// What becomes of a frame on the wire that isn't passed on once.
#[derive(Clone, Copy, Debug, PartialEq, Eq)]
pub enum Change {
    Lose,
    Twice,
}

/// What becomes of the frame that a side sends as its so-many-th, counted from 1.
#[derive(Clone, Copy, Debug, PartialEq, Eq)]
pub struct Fault {
    pub change: Change,
    pub side: Side,
    pub frame: u32,
}

/// What becomes of frames on the wire.
pub type FaultList = Series<Fault>;

/// One stack, and what its driver does; without a part for the driver it feeds all frames.
#[derive(Drop)]
pub struct Single {
    pub stack: Stack,
    pub driver: Option<CallList>,
}

/// Two stacks and the wire between them.
#[derive(Drop)]
pub struct Pair {
    pub a: Stack,
    pub b: Stack,
    pub faults: FaultList,
    pub commands: CallList,
}

/// Which kind of script it is.
#[derive(Drop)]
pub enum Body {
    One(Single),
    Two(Pair),
}

/// What a script says.
#[derive(Drop)]
pub struct Script {
    pub version: Version,
    pub body: Body,
}

/// The sizes of a profile in a script of this version.
fn profile_limits(version: Version, profile: Profile) -> Limits
    ensures { result ≡ profile_limits version profile }
{
    let default = Limits {
        ram: 256,
        pool: 256,
        rom: 16,
        reference: 64,
        mailbox: 8,
        tcpip: 64,
        descriptors: 32,
        window: 5_840,
        live: 64,
        ends: 128,
        variables: version.variables(),
    };
    match profile {
        Profile::Default => default,
        Profile::Small => Limits {
            ram: 8,
            pool: 4,
            rom: 4,
            reference: 4,
            mailbox: 2,
            tcpip: 4,
            descriptors: 8,
            ..default
        },
        Profile::Wide => Limits {
            pool: 1_024,
            window: 1_048_576,
            ..default
        },
    }
}

// How many connections may be live where there are so many descriptors.
fn live_for(descriptors: u32) -> u32
    ensures { result ≡ max 64 descriptors }
{
    if descriptors > 64 { descriptors } else { 64 }
}

// How many ends of TCP there may be where there are so many descriptors.
fn ends_for(descriptors: u32) -> u32
    requires { descriptors ≤ 1024 }
    ensures { result ≡ max 128 (2 * descriptors) }
{
    if descriptors > 64 {
        2 * descriptors
    } else {
        128
    }
}

impl Stack {
    /// The sizes of this stack in a script of this version.
    pub fn limits(&self, version: Version) -> Limits
        requires { AreSizes version self.now.sizes }
        ensures { result ≡ limits_of version self.now.profile self.now.sizes }
    {
        let limits = profile_limits(version, self.profile);
        let descriptors = self.sizes.descriptors.unwrap_or(limits.descriptors);
        Limits {
            ram: self.sizes.ram.unwrap_or(limits.ram),
            pool: self.sizes.pool.unwrap_or(limits.pool),
            rom: self.sizes.rom.unwrap_or(limits.rom),
            reference: self.sizes.reference.unwrap_or(limits.reference),
            mailbox: self.sizes.mailbox.unwrap_or(limits.mailbox),
            tcpip: self.sizes.tcpip.unwrap_or(limits.tcpip),
            descriptors,
            window: self.sizes.window.unwrap_or(limits.window),
            live: live_for(descriptors),
            ends: ends_for(descriptors),
            variables: limits.variables,
        }
    }
}
