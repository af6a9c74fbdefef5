//! The answers by their kind.
ghost use Rattle.std.specs.Prelude.{◌≡◌};
ghost use Rattle.lw_calls.specs.Answers.{reply_of, var_of, fd_of, number_of, whether_of, word_of, piece_of, emptied_of, feeding_of, turn_of};

use call_places::{Answer, ConnList, FdWord, Feeding, Named, Piece, Turn};
use lw_base::Word;
use lw_events::Reply;

/// A reply.
pub(crate) fn reply_of(answer: Answer) -> Option<Reply>
    ensures { result ≡ reply_of answer }
{
    match answer {
        Answer::Reply(x) => Some(x),
        _ => None,
    }
}

/// A variable's word.
pub(crate) fn var_of(answer: Answer) -> Option<Option<Named>>
    ensures { result ≡ var_of answer }
{
    match answer {
        Answer::Var(x) => Some(x),
        _ => None,
    }
}

/// A descriptor's word.
pub(crate) fn fd_of(answer: Answer) -> Option<FdWord>
    ensures { result ≡ fd_of answer }
{
    match answer {
        Answer::Fd(x) => Some(x),
        _ => None,
    }
}

/// A number.
pub(crate) fn number_of(answer: Answer) -> Option<u32>
    ensures { result ≡ number_of answer }
{
    match answer {
        Answer::Number(x) => Some(x),
        _ => None,
    }
}

/// Whether something is so.
pub(crate) fn whether_of(answer: Answer) -> Option<bool>
    ensures { result ≡ whether_of answer }
{
    match answer {
        Answer::Whether(x) => Some(x),
        _ => None,
    }
}

/// An event word.
pub(crate) fn word_of(answer: Answer) -> Option<Word>
    ensures { result ≡ word_of answer }
{
    match answer {
        Answer::Word(x) => Some(x),
        _ => None,
    }
}

/// What a take found.
pub(crate) fn piece_of(answer: Answer) -> Option<Piece>
    ensures { result ≡ piece_of answer }
{
    match answer {
        Answer::Took(x) => Some(x),
        _ => None,
    }
}

/// The connections among what was emptied.
pub(crate) fn emptied_of(answer: Answer) -> Option<ConnList>
    ensures { result ≡ emptied_of answer }
{
    match answer {
        Answer::Emptied(x) => Some(x),
        _ => None,
    }
}

/// What became of a frame.
pub(crate) fn feeding_of(answer: Answer) -> Option<Feeding>
    ensures { result ≡ feeding_of answer }
{
    match answer {
        Answer::Feeding(x) => Some(x),
        _ => None,
    }
}

/// A turn.
pub(crate) fn turn_of(answer: Answer) -> Option<Turn>
    ensures { result ≡ turn_of answer }
{
    match answer {
        Answer::Turn(x) => Some(x),
        _ => None,
    }
}
