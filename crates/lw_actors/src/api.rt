ghost use Rattle.std.specs.Prelude.{◌≡◌, ◌++◌, ℕ, Bool, List, IfOk};
ghost use Rattle.lw_script.specs.declared.parts.Call.{Call as CallValue};
ghost use Rattle.lw_transcript.specs.declared.lines.Evidence.{Evidence as EvidenceValue};
ghost use Rattle.lw_actors.specs.declared.api.Step.{Step as StepValue};
ghost use Rattle.lw_actors.specs.Calls.{Goes};

use call_types::Outcome;
use lw_script::Call;
use lw_transcript::Evidence;
pub use std::alloc::AllocError as NoMemory;
use std::alloc::Global;

/// How far a try of a call came: it ended with this result.
#[derive(Drop)]
pub enum Step {
    Did(Outcome),
}

/// What can make the calls of a script. `gives` relates the state before a call, the actor, the call,
/// whether it was begun before, the evidence that it saw, how far it came, and the state after it.
pub trait Api {
    ghost State: { Type 0 };

    ghost state: { Self → State };

    ghost gives: { State → ℕ → CallValue → Bool → List EvidenceValue → StepValue → State → Type 0 };

    /// Makes a call of an actor, and adds what it saw to `seen`.
    fn call(
        &mut self,
        alloc: Global,
        actor: u32,
        call: Call,
        begun: bool,
        seen: &mut Vec<Evidence>,
    ) -> Result<Step, NoMemory>
        ensures { IfOk result (λ step. Goes (λ added. gives (state self.old) actor call begun added step (state self.new)) seen.old.items seen.new.items) };
}
