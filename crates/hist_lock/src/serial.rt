//! What a lock with a history is over.
ghost use Rattle.std.specs.Prelude.{◌≡◌, ℕ, IfOk, IfErr};

use std::alloc::AllocError;

/// An object that changes in single steps, each of which gives an entry of the history.
/// An event that finds no memory comes back `same`: for most objects that is the event itself, and for one whose events own memory, as packet buffers, the event with other room in that memory.
pub trait Serial {
    /// What a caller asks of a step.
    type Ev;
    /// What the caller gets.
    type Reply;
    /// What the history keeps of the step.
    type Entry;

    // What contracts see of the object.
    ghost State: { Type 0 };

    // What no step changes.
    ghost Tag: { Type 0 };

    // What contracts see of the object now.
    ghost state: { Self → State };

    // Its tag.
    ghost tag: { Self → Tag };

    // Whether the event may be asked of an object with this tag.
    ghost fits: { Tag → Self.Ev → Type 0 };

    // The number of the caller that made the entry.
    ghost by: { Self.Entry → ℕ };

    // The second event is what may come back of the first.
    ghost same: { Self.Ev → Self.Ev → Type 0 };

    // Under this tag the entry tells the event and the reply.
    ghost tells: { Tag → Self.Entry → Self.Ev → Self.Reply → Type 0 };

    // The entry is a step from the first state to the second.
    ghost steps: { State → Self.Entry → State → Type 0 };

    /// Makes one step for the caller of this number. Without memory the state is as before, and the event comes back.
    fn step(
        &mut self,
        actor: u32,
        ev: Self::Ev,
    ) -> Result<(Self::Entry, Self::Reply), (AllocError, Self::Ev)>
        requires { fits (tag self.old) ev }
        ensures ok { IfOk result (λ r. steps (state self.old) r.0 (state self.new) × (by r.0 ≡ actor) × tells (tag self.old) r.0 ev r.1) }
        ensures err { IfErr result (λ r. (state self.new ≡ state self.old) × same ev r.1) }
        ensures tag { tag self.new ≡ tag self.old };

    // An event that comes back as it was is the same.
    ghost itself: { (ev : Self.Ev) → same ev ev };
}
