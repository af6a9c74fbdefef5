//! What a reply place carries.
ghost use Rattle.std.specs.Prelude.{ℕ, ◌+◌, length};

use tcpip_mbox::Message;

/// A kind of reply. `K` is what a place is told once, when it is made.
pub trait Answer<K> {
    /// Whether the reply answers the question of this number, counted from 0, in a place with this key.
    ghost answers: { K → ℕ → Self → Type 0 };
}

/// A reply on its way.
#[derive(Drop)]
pub struct Carried<R> {
    pub reply: R,
}

impl<R: Answer<K>, K> Message<K> for Carried<R> {
    ghost fits = { λ key _ earlier m. R.answers key (length earlier) m.reply };
}
