use call_types::{Outcome, Sight};
use lw_base::{Octets, Series};
use lw_events::Entry;

/// The version of the grammar.
#[derive(Clone, Copy, Debug, PartialEq, Eq)]
pub enum Version {
    One,
    Two,
}

/// The sizes of a stack, in the order of its line: pbufs of RAM, POOL, ROM and REF, places of a
/// connection's mailbox and of the tcpip mailbox, descriptors, and the limit of the receive window.
#[derive(Clone, Copy, Debug, PartialEq, Eq)]
pub struct Sizes {
    pub ram: u32,
    pub pool: u32,
    pub rom: u32,
    pub reference: u32,
    pub mailbox: u32,
    pub tcpip: u32,
    pub descriptors: u32,
    pub window: u32,
}

/// One event of the core: its number, counted from 1, and its entry.
#[derive(Drop)]
pub struct CoreLine {
    pub number: u32,
    pub entry: Entry,
}

/// A list of core lines.
pub type CoreLineList = Series<CoreLine>;

/// What tells of a call: the number of a core line that it made, or what it saw of the stack.
#[derive(Drop)]
pub enum Evidence {
    At(u32),
    Saw(Sight),
}

/// A list of evidence.
pub type EvidenceList = Series<Evidence>;

/// One call of an actor: the script's line, what tells of it, and what it gave. Its number is its
/// place, counted from 1.
#[derive(Drop)]
pub struct CallPart {
    pub text: Octets,
    pub seen: EvidenceList,
    pub result: Outcome,
}

/// A list of calls.
pub type CallPartList = Series<CallPart>;

/// The calls of one actor. Its number is its place, counted from 0.
#[derive(Drop)]
pub struct ActorPart {
    pub calls: CallPartList,
}

/// A list of actors.
pub type ActorPartList = Series<ActorPart>;

/// A ticket that no call took whole, and its first octet that none took.
#[derive(Clone, Copy, Debug, PartialEq, Eq)]
pub struct Left {
    pub conn: u32,
    pub ticket: u32,
    pub from: u32,
}

/// A list of what was left.
pub type LeftList = Series<Left>;

/// How many pbufs of a kind are free, and how many there are.
#[derive(Clone, Copy, Debug, PartialEq, Eq)]
pub struct Share {
    pub free: u32,
    pub all: u32,
}

/// The pbufs of each kind.
#[derive(Clone, Copy, Debug, PartialEq, Eq)]
pub struct Pools {
    pub ram: Share,
    pub pool: Share,
    pub rom: Share,
    pub reference: Share,
}

/// How many core lines and how many frames sent there were, and the pbufs, where they are counted.
#[derive(Clone, Copy, Debug, PartialEq, Eq)]
pub struct EndLine {
    pub core: u32,
    pub out: u32,
    pub pools: Option<Pools>,
}

/// The sizes of the stack in version 2, the core lines in the order in which the core took them, the
/// actors, what they left, and the end.
#[derive(Drop)]
pub struct Body {
    pub sizes: Option<Sizes>,
    pub core: CoreLineList,
    pub actors: ActorPartList,
    pub left: LeftList,
    pub end: EndLine,
}

/// The command that wrote the transcript, with what it wrote: one body, or those of two stacks on a
/// wire.
#[derive(Drop)]
pub enum Form {
    Serial(Body),
    Run(Body),
    Pair(Body, Body),
}

/// What a run did, line by line.
#[derive(Drop)]
pub struct Transcript {
    pub version: Version,
    pub form: Form,
}
