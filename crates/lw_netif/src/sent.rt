ghost use Rattle.std.specs.Prelude.{◌≡◌, ◌≤◌, ◌++◌, [], length};
ghost use Rattle.lw_netif.specs.Frames.{frames_left};

use lw_base::{FrameLog, Octets};
use std::marker::Model;

/// The frames that were sent by an interface. Contracts see it as their list, in order; what is kept
/// of it is how many there were.
#[derive(Drop)]
pub struct Sent {
    count: u32,
    log: FrameLog,
}

impl Model for Sent {
    ghost use Rattle.std.specs.Prelude.{◌≡◌, ℕ, List, length};

    ghost Value = { List (List ℕ) };

    ghost view = { λ s. s.log.frames };

    ghost invariant = { λ s. s.count ≡ length s.log.frames };
}

impl Sent {
    /// No frame was sent.
    pub fn new() -> Sent
        ensures { result ≡ [] }
    {
        Sent {
            count: 0,
            log: FrameLog::new(),
        }
    }

    /// How many frames were sent.
    pub fn len(&self) -> u32
        ensures { result ≡ length self.now }
    {
        self.count
    }

    /// How many frames may still be sent: a count of 2^32 - 1 is the last.
    pub fn left(&self) -> u32
        ensures { result ≡ frames_left self.now }
    {
        u32::MAX - self.count
    }

    /// Sends frames, no more than may still be sent. Takes no memory.
    pub fn send(&mut self, frames: &[Octets])
        requires { length frames.now ≤ frames_left self.old }
        ensures { self.new ≡ self.old ++ frames.now }
    {
        for frame in frames {
            self.log = self.log.then(frame);
        }
        self.count += frames.len() as u32;
    }
}
