ghost use Rattle.std.specs.Prelude.{◌≡◌, ◌<◌};
ghost use Rattle.lw_board.specs.Tokens.{origin};

use crate::{Board, Forms, Look, Writer};
use std::test::Fail;
use std::thread::join;

const ROUNDS: u64 = 2000;

// Any value may stand in any word.
struct Free;

impl Forms for Free {
    ghost may = { λ _ _ _. Unit {0} };
}

// Stores 1, 2, 3 and so on, each in the first word and then in the second.
fn count_up(mut w: Writer<Free>, b: &Board<Free>) -> Writer<Free>
    requires own { w.board ≡ origin b.now }
    requires two { 1 < b.now.words }
    ensures { result.board ≡ origin b.now }
{
    for v in 1..ROUNDS + 1 {
        w.store(b, 0, v);
        w.store(b, 1, v);
    }
    w
}

// Looks at the second word and then at the first: no value falls, and the first word is never behind.
fn watch(mut l: Look<Free>, b: &Board<Free>) -> (Look<Free>, bool)
    requires own { l.board ≡ origin b.now }
    requires two { 1 < b.now.words }
    ensures { result.0.board ≡ origin b.now }
{
    let mut steady = true;
    let mut low = (0, 0);
    for _ in 0..ROUNDS {
        let second = l.look(b, 1);
        let first = l.look(b, 0);
        steady = steady && low.0 <= first && low.1 <= second && second <= first;
        low = (first, second);
    }
    (l, steady)
}

#[test]
fn values_never_fall(rt: HostRuntime) -> Result<(), Fail> {
    let (board, w, l) = Board::new(rt.alloc(), 2, &Free)?;
    let b = &board;
    let (first, second) = l.split(b);
    let (mut w, (first, steady)) = join(&rt, || count_up(w, b), || watch(first, b));
    assert!(rt; steady);
    let mut last = first.join(b, second).join(b, w.note(b));
    assert_eq!(rt; (last.look(b, 0), last.look(b, 1)), (ROUNDS, ROUNDS));
    w.gather(b, last);
    Ok(())
}
