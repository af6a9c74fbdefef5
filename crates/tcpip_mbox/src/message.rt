//! What a mailbox carries.
ghost use Rattle.std.specs.Prelude.{ℕ, List};

/// A kind of message. `K` is what a mailbox is told once, when it is made.
pub trait Message<K> {
    /// Whether the Put of this number may put the message in after those that it has put in before, in a mailbox with this key.
    ghost fits: { K → ℕ → List Self → Self → Type 0 };
}
