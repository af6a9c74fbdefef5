ghost use Rattle.std.specs.Prelude.{◌≡◌, ℕ, true, List, IfOk};
ghost use Rattle.call_places.specs.declared.asks.Ask.{Ask as AskValue};
ghost use Rattle.call_places.specs.declared.asks.Answer.{Answer as AnswerValue};
ghost use Rattle.lw_calls.specs.Fits.{fits};

use lw_calls::{Answer, Ask, NoMemory};
use std::alloc::Global;

/// A stack that answers what calls ask. `gives` relates the state before an answer, the actor, what was
/// asked, the answer, and the state after it.
pub trait Api {
    ghost State: { Type 0 };

    ghost state: { Self → State };

    ghost gives: { State → ℕ → AskValue → AnswerValue → State → Type 0 };

    /// Answers what a call of an actor asks.
    fn answer(&mut self, alloc: Global, actor: u32, asked: Ask) -> Result<Answer, NoMemory>
        ensures gives { IfOk result (λ x. gives (state self.old) actor asked x (state self.new)) }
        ensures fits { IfOk result (λ x. fits asked x ≡ true) };
}
