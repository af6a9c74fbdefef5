//! A mailbox's event word, and the flags that stand in it.
ghost use Rattle.std.specs.Prelude.{◌≡◌};
ghost use Rattle.lw_base.specs.EventWord.{bit_of, is_set};

/// What a mailbox's owner shows its readers besides the counts.
#[derive(Clone, Copy, Debug, PartialEq, Eq)]
pub enum Flag {
    /// A send would find room.
    Writable,
    /// A reader keeps octets of an item that it took.
    Rest,
    /// The other side has ended its sending.
    Ended,
    /// The connection has failed.
    Fault,
    /// No more is posted, and nothing more is fetched.
    Closed,
    /// The items are connections to accept.
    Listen,
    /// The connection has neither a state nor a fault.
    Idle,
}

impl Flag {
    /// The flag's bit: 1, 2, 4, 8, 16, 32 or 64.
    pub fn bit(self) -> u8
        ensures { result ≡ bit_of self }
    {
        match self {
            Flag::Writable => 1,
            Flag::Rest => 2,
            Flag::Ended => 4,
            Flag::Fault => 8,
            Flag::Closed => 16,
            Flag::Listen => 32,
            Flag::Idle => 64,
        }
    }
}

/// An event word: how many items were posted, how many of those were claimed, and the flags.
#[derive(Clone, Copy, Debug, PartialEq, Eq)]
pub struct Word {
    pub posted: u32,
    pub claimed: u32,
    /// The bits of the flags that stand.
    pub flags: u8,
}

impl Word {
    /// Whether the flag stands.
    pub fn has(self, flag: Flag) -> bool
        ensures { result ≡ is_set flag self.flags }
    {
        self.flags & flag.bit() != 0
    }
}
