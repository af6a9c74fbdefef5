ghost use Rattle.std.specs.Prelude.{◌≡◌, ◌≢◌, ◌+◌, ◌<◌, ◌≤◌, ◌^◌, ℕ, Bool, true, false, OnOk, OnErr};
ghost use Rattle.lw_base.specs.EventWord.{is_set};
ghost use Rattle.lw_base.specs.declared.event_word.Flag.TheVariants.{Rest, Closed};
ghost use Rattle.lw_boxes.specs.declared.item.Item.{Item};
ghost use Rattle.lw_boxes.specs.Shelf.{HasFlag, HasNoFlag, IsAsked, IsMade, IsPosted, Shelf};

use crate::{Item, NoMemory};
use lw_base::Flag;

/// The mailboxes of connections, by the numbers of these from 1. There is one that posts: a place that
/// was found stays until the posts before it and its own are made.
pub trait Boxes<P> {
    /// What contracts see.
    ghost seen: { Self → Shelf P };

    /// What `has_place` may answer: the mailboxes before, the connection, how many posts ahead, the answer,
    /// and the mailboxes after.
    ghost offers: { Self → ℕ → ℕ → Bool → Self → Type 0 };

    /// What the mailboxes are made for. No call changes it.
    ghost Terms: { Type 0 };

    /// What these mailboxes are made for.
    ghost terms: { Self → Terms };

    /// What may be posted.
    ghost fits: { Terms → Item P → Type 0 };

    /// How many untaken items each mailbox has room for.
    ghost capacity: { Terms → ℕ };

    /// Makes the mailbox of the next number, or leaves one that is there.
    fn make(&mut self, conn: u32) -> Result<(), NoMemory>
        requires next { (0 < conn) × (conn ≤ (seen self.old).made + 1) }
        ensures ok { OnOk result (IsMade (seen self.old) conn (seen self.new)) }
        ensures err { OnErr result (seen self.new ≡ seen self.old) }
        ensures terms { terms self.new ≡ terms self.old };

    /// Whether, after `ahead` more posts, one more has a place.
    fn has_place(&mut self, conn: u32, ahead: u32) -> bool
        requires made { (0 < conn) × (conn ≤ (seen self.old).made) }
        ensures asked { IsAsked (seen self.old) conn ahead result (seen self.new) }
        ensures offers { offers self.old conn ahead result self.new }
        ensures terms { terms self.new ≡ terms self.old };

    /// Posts an item at a place that was found, and gives its ticket: how many were posted before.
    fn post(&mut self, conn: u32, item: Item<P>) -> u32
        requires made { (0 < conn) × (conn ≤ (seen self.old).made) }
        requires found { (seen self.old).found conn ((seen self.old).box conn).posted ≡ true }
        requires open { is_set Closed ((seen self.old).box conn).flags ≡ false }
        requires fits { fits (terms self.old) item }
        ensures ticket { result ≡ ((seen self.old).box conn).posted }
        ensures posted { IsPosted (seen self.old) conn item (seen self.new) }
        ensures terms { terms self.new ≡ terms self.old };

    /// Sets a flag of a connection.
    fn set(&mut self, conn: u32, flag: Flag)
        requires made { (0 < conn) × (conn ≤ (seen self.old).made) }
        requires own { flag ≢ Rest }
        ensures set { HasFlag (seen self.old) conn flag (seen self.new) }
        ensures terms { terms self.new ≡ terms self.old };

    /// Clears a flag of a connection.
    fn clear(&mut self, conn: u32, flag: Flag)
        requires made { (0 < conn) × (conn ≤ (seen self.old).made) }
        requires own { (flag ≢ Rest) × (flag ≢ Closed) }
        ensures cleared { HasNoFlag (seen self.old) conn flag (seen self.new) }
        ensures terms { terms self.new ≡ terms self.old };
}
