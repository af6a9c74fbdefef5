ghost use Rattle.std.specs.Prelude.{◌≡◌, ◌++◌, ◌∷◌, [], IfOk, OnOk, length, false};
ghost use Rattle.lw_script.specs.Driver.{driver_calls};
ghost use Rattle.lw_actors.specs.Runs.{Ran};
ghost use Rattle.lw_serial.specs.Rounds.{Ends, IsSerialRun};

use lw_actors::{Api, DoneCall, Progress, Step};
use lw_base::Series;
use lw_script::{Call, Script};
pub use std::alloc::AllocError as NoMemory;
use std::alloc::{AllocError, Global};

/// Runs the actors of a script to their end, and answers what each did, the driver first.
pub fn run_serial<A: Api>(
    alloc: Global,
    api: &mut A,
    script: &Script,
) -> Result<Vec<Progress>, NoMemory>
    ensures { IfOk result (λ all. IsSerialRun A.gives script.now (A.state api.old) all.items (A.state api.new)) }
{
    let done = all_calls(alloc, api, script)?;
    let driver = ended(alloc, done)?;
    let mut all = Vec::new(alloc);
    all.push(driver)?;
    Ok(all)
}

/// The place of an actor whose calls have all ended.
fn ended(alloc: Global, done: Vec<DoneCall>) -> Result<Progress, NoMemory>
    ensures { IfOk result (λ p. p ≡ record { next = length done.items; begun = false; seen = []; done = done.items }) }
{
    let next = u32::try_from(done.len()).map_err(|_| AllocError)?;
    Ok(Progress {
        next,
        begun: false,
        seen: Series::from_vec(Vec::new(alloc)),
        done: Series::from_vec(done),
    })
}

/// Makes the driver's commands, and then its stop.
fn all_calls<A: Api>(alloc: Global, api: &mut A, script: &Script) -> Result<Vec<DoneCall>, NoMemory>
    ensures { IfOk result (λ done. Ran A.gives 0 (A.state api.old) (driver_calls script.now) done.items (A.state api.new)) }
{
    let mut done = driver_commands(alloc, api, script.commands.as_slice())?;
    end_call(alloc, api, Call::Stop, &mut done)?;
    Ok(done)
}

/// Makes the driver's commands one after another.
fn driver_commands<A: Api>(
    alloc: Global,
    api: &mut A,
    commands: &[Call],
) -> Result<Vec<DoneCall>, NoMemory>
    ensures { IfOk result (λ done. Ran A.gives 0 (A.state api.old) commands.now done.items (A.state api.new)) }
{
    let mut done = Vec::new(alloc);
    for command in commands {
        end_call(alloc, api, *command, &mut done)?;
    }
    Ok(done)
}

/// Makes one call of the driver to its end.
fn end_call<A: Api>(
    alloc: Global,
    api: &mut A,
    call: Call,
    done: &mut Vec<DoneCall>,
) -> Result<(), NoMemory>
    ensures { OnOk result (Ends A.gives (A.state api.old) call done.old.items done.new.items (A.state api.new)) }
{
    let mut seen = Vec::new(alloc);
    let Step::Did(result) = api.call(alloc, 0, call, false, &mut seen)?;
    done.push(DoneCall {
        seen: Series::from_vec(seen),
        result,
    })?;
    Ok(())
}
