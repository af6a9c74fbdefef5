//! The event word as one `u64`: the posts in 28 bits, the claims in 28, the flags in 8.
ghost use Rattle.std.specs.Prelude.{◌≡◌};
ghost use Rattle.lw_mbox.specs.Rule.{word_of};

use lw_base::Word;

/// What announces one post.
pub(crate) const POST: u64 = 68_719_476_736;

/// What claims one ticket.
pub(crate) const CLAIM: u64 = 256;

/// The bit of REST.
pub(crate) const REST: u64 = 2;

pub(crate) fn read(word: u64) -> Word
    ensures { result ≡ word_of word }
{
    Word {
        posted: (word / POST) as u32,
        claimed: (word / CLAIM % 268_435_456) as u32,
        flags: (word % CLAIM) as u8,
    }
}
