//! A stack whose sizes and actors are being read.
ghost use Rattle.std.specs.Prelude.{◌≡◌, [], ◌∷◌, ◌++◌, List, IfOk, nat_lt, length, Option};
ghost use Rattle.call_types.specs.declared.call.Call.{Call};
ghost use Rattle.lw_scripts.specs.Filling.{new_stack, to_last, with_actor, with_call, with_more, with_size};

use crate::kinds::{is_actors, speaks_tcp};
use crate::parts::{ActorList, ActorScript, CallList, Profile, SizeName, Sizes, Stack, Way};
use call_types::Call;
use lw_base::{Net, NoMemory, Octets, Series};
use std::alloc::Global;

/// How many actors a stack has at most.
const ACTORS: usize = 16;

/// A list and one more call.
pub fn push_call(calls: CallList, call: Call) -> Result<CallList, NoMemory>
    ensures { IfOk result (λ more. more ≡ calls ++ call ∷ []) }
{
    let mut calls = calls.into_vec();
    calls.push(call)?;
    Ok(Series::from_vec(calls))
}

// A list and one more actor.
fn push_actor(actors: ActorList, actor: ActorScript) -> Result<ActorList, NoMemory>
    ensures { IfOk result (λ more. more ≡ actors ++ actor ∷ []) }
{
    let mut actors = actors.into_vec();
    actors.push(actor)?;
    Ok(Series::from_vec(actors))
}

impl ActorScript {
    // This actor with one more call.
    fn with_call(self, call: Call) -> Result<ActorScript, NoMemory>
        ensures { IfOk result (λ more. more ≡ with_more self call) }
    {
        let ActorScript { name, way, calls } = self;
        let calls = push_call(calls, call)?;
        Ok(ActorScript { name, way, calls })
    }
}

// The actors with one more call of the last; nothing where there is none.
fn to_last(actors: ActorList, call: Call) -> Result<Option<ActorList>, NoMemory>
    ensures { IfOk result (λ o. o ≡ to_last actors call) }
{
    let mut actors = actors.into_vec();
    let Some(last) = actors.pop() else {
        return Ok(None);
    };
    actors.push(last.with_call(call)?)?;
    Ok(Some(Series::from_vec(actors)))
}

impl Stack {
    /// A stack of which the addresses and the profile were read.
    pub fn new(alloc: Global, net: Net, profile: Profile) -> Stack
        ensures { result ≡ new_stack net profile }
    {
        Stack {
            net,
            profile,
            sizes: Sizes::NONE,
            actors: Series::from_vec(Vec::new(alloc)),
        }
    }

    /// This stack and one more size, where it stands before the actors and behind the sizes that are named.
    pub fn with_size(self, name: SizeName, size: u32) -> Option<Stack>
        ensures { result ≡ with_size self name size }
    {
        if !self.actors.is_empty() {
            return None;
        }
        let sizes = self.sizes.with(name, size)?;
        Some(Stack {
            net: self.net,
            profile: self.profile,
            sizes,
            actors: self.actors,
        })
    }

    /// This stack and one more actor, where it has fewer than there may be.
    pub fn with_actor(
        self,
        alloc: Global,
        name: Octets,
        way: Way,
    ) -> Result<Option<Stack>, NoMemory>
        ensures { IfOk result (λ o. o ≡ with_actor self name way) }
    {
        if self.actors.len() >= ACTORS {
            return Ok(None);
        }
        let calls = Series::from_vec(Vec::new(alloc));
        let Stack {
            net,
            profile,
            sizes,
            actors,
        } = self;
        let actors = push_actor(actors, ActorScript { name, way, calls })?;
        Ok(Some(Stack {
            net,
            profile,
            sizes,
            actors,
        }))
    }

    /// This stack and one more call of its last actor.
    pub fn with_call(self, call: Call) -> Result<Option<Stack>, NoMemory>
        ensures { IfOk result (λ o. o ≡ with_call self call) }
    {
        if !is_actors(&call) || speaks_tcp(&call) {
            return Ok(None);
        }
        let Stack {
            net,
            profile,
            sizes,
            actors,
        } = self;
        let Some(actors) = to_last(actors, call)? else {
            return Ok(None);
        };
        Ok(Some(Stack {
            net,
            profile,
            sizes,
            actors,
        }))
    }
}
