//! What has been read of a script, and what one more line makes of it.
ghost use Rattle.std.specs.Prelude.{◌≡◌, IfOk};
ghost use Rattle.std.specs.Option.{option_map};
ghost use Rattle.script_words.specs.declared.version.Version.{Version};
ghost use Rattle.lw_scripts.specs.Reading.{accept, begin_side, behind_a, behind_begin, behind_net, behind_pair, behind_side, behind_start, in_driver, in_stack, on_wire, script_of, single_of, stack_end, version_of};

use crate::begun::{OpenDriver, OpenWire};
use crate::part::Part;
use crate::parts::{Body, Pair, Script, Single, Stack};
use crate::wanted::Wanted;
use call_types::Side;
use lw_base::{Net, NoMemory};
use script_words::Version;
use std::alloc::Global;

/// Which stack of a script is read.
#[derive(Drop)]
pub enum Whose {
    /// The only one.
    Alone,
    OfA,
    /// Side b's, behind side a's.
    OfB(Stack),
}

/// What has been read of a script.
#[derive(Drop)]
pub enum Place {
    /// Nothing.
    Begin,
    /// The head line.
    Started(Version),
    /// The line `pair` behind it.
    Paired(Version),
    /// All in front of a stack.
    Sided(Version, Whose),
    /// A stack's addresses, and all in front of them.
    Addressed(Version, Whose, Net),
    /// A stack's sizes, and some of what stands behind them.
    Filling(Version, Whose, Stack),
    /// A stack, and some of the driver's part.
    Driving(Version, Stack, OpenDriver),
    /// Both stacks, and some of the wire's part.
    Wiring(Version, Stack, Stack, OpenWire),
}

// Behind nothing: the head line.
fn behind_begin(wanted: Wanted, part: Part) -> Option<Place>
    ensures { result ≡ behind_begin wanted part }
{
    match part {
        Part::Head(version) => wanted
            .takes_version(version)
            .then_some(Place::Started(version)),
        _ => None,
    }
}

// Behind the head line: the line `pair`, or the addresses of the only stack.
fn behind_start(wanted: Wanted, version: Version, part: Part) -> Option<Place>
    ensures { result ≡ behind_start wanted version part }
{
    match part {
        Part::Pair => wanted.takes_pair().then_some(Place::Paired(version)),
        Part::Net(net) => {
            wanted
                .takes_single()
                .then_some(Place::Addressed(version, Whose::Alone, net))
        }
        Part::Head(_)
        | Part::Side(_)
        | Part::Limits(_)
        | Part::Size(_, _)
        | Part::Actor(_, _)
        | Part::Call(_)
        | Part::Driver
        | Part::Wire
        | Part::Fault(_) => None,
    }
}

// Behind the line `pair`: the line `side a`.
fn behind_pair(version: Version, part: Part) -> Option<Place>
    ensures { result ≡ behind_pair version part }
{
    match part {
        Part::Side(side) => begin_side(version, side),
        _ => None,
    }
}

// The line `side a`.
fn begin_side(version: Version, side: Side) -> Option<Place>
    ensures { result ≡ begin_side version side }
{
    match side {
        Side::A => Some(Place::Sided(version, Whose::OfA)),
        Side::B => None,
    }
}

// Where a stack begins: its addresses.
fn behind_side(version: Version, whose: Whose, part: Part) -> Option<Place>
    ensures { result ≡ behind_side version whose part }
{
    match part {
        Part::Net(net) => Some(Place::Addressed(version, whose, net)),
        _ => None,
    }
}

// Behind a stack's addresses: its profile.
fn behind_net(alloc: Global, version: Version, whose: Whose, net: Net, part: Part) -> Option<Place>
    ensures { result ≡ behind_net version whose net part }
{
    match part {
        Part::Limits(profile) => {
            let stack = Stack::new(alloc, net, profile);
            Some(Place::Filling(version, whose, stack))
        }
        _ => None,
    }
}

// More of a stack, or what stands behind it.
fn in_stack(
    alloc: Global,
    version: Version,
    whose: Whose,
    stack: Stack,
    part: Part,
) -> Result<Option<Place>, NoMemory>
    ensures { IfOk result (λ o. o ≡ in_stack version whose stack part) }
{
    match part {
        Part::Size(name, size) => Ok(filling(version, whose, stack.with_size(name, size))),
        Part::Actor(name, way) => {
            let more = stack.with_actor(alloc, name, way)?;
            Ok(filling(version, whose, more))
        }
        Part::Call(call) => {
            let more = stack.with_call(call)?;
            Ok(filling(version, whose, more))
        }
        Part::Head(_)
        | Part::Pair
        | Part::Side(_)
        | Part::Net(_)
        | Part::Limits(_)
        | Part::Driver
        | Part::Wire
        | Part::Fault(_) => Ok(stack_end(alloc, version, whose, stack, part)),
    }
}

// A stack with more of it read, if it can have this.
fn filling(version: Version, whose: Whose, more: Option<Stack>) -> Option<Place>
    ensures { result ≡ option_map (Place.Filling version whose) more }
{
    match more {
        Some(stack) => Some(Place::Filling(version, whose, stack)),
        None => None,
    }
}

// Behind a stack: the driver's part, the other side, or the wire's part.
fn stack_end(
    alloc: Global,
    version: Version,
    whose: Whose,
    stack: Stack,
    part: Part,
) -> Option<Place>
    ensures { result ≡ stack_end version whose stack part }
{
    match whose {
        Whose::Alone => match part {
            Part::Driver => Some(Place::Driving(version, stack, OpenDriver::new(alloc))),
            _ => None,
        },
        Whose::OfA => match part {
            Part::Side(side) => behind_a(version, stack, side),
            _ => None,
        },
        Whose::OfB(a) => match part {
            Part::Wire => Some(Place::Wiring(version, a, stack, OpenWire::new(alloc))),
            _ => None,
        },
    }
}

// Behind side a's stack: the line `side b`.
fn behind_a(version: Version, stack: Stack, side: Side) -> Option<Place>
    ensures { result ≡ behind_a version stack side }
{
    match side {
        Side::A => None,
        Side::B => Some(Place::Sided(version, Whose::OfB(stack))),
    }
}

// More of the driver's part.
fn in_driver(
    version: Version,
    stack: Stack,
    driver: OpenDriver,
    part: Part,
) -> Result<Option<Place>, NoMemory>
    ensures { IfOk result (λ o. o ≡ in_driver version stack driver part) }
{
    match part {
        Part::Call(command) => match driver.with(command)? {
            Some(driver) => Ok(Some(Place::Driving(version, stack, driver))),
            None => Ok(None),
        },
        _ => Ok(None),
    }
}

// More of the wire's part.
fn on_wire(
    version: Version,
    a: Stack,
    b: Stack,
    wire: OpenWire,
    part: Part,
) -> Result<Option<Place>, NoMemory>
    ensures { IfOk result (λ o. o ≡ on_wire version a b wire part) }
{
    match part {
        Part::Fault(fault) => {
            let more = wire.with_fault(fault)?;
            Ok(wiring(version, a, b, more))
        }
        Part::Call(command) => {
            let more = wire.with_command(command)?;
            Ok(wiring(version, a, b, more))
        }
        Part::Head(_)
        | Part::Pair
        | Part::Side(_)
        | Part::Net(_)
        | Part::Limits(_)
        | Part::Size(_, _)
        | Part::Actor(_, _)
        | Part::Driver
        | Part::Wire => Ok(None),
    }
}

// The wire's part with more of it read, if it can have this.
fn wiring(version: Version, a: Stack, b: Stack, more: Option<OpenWire>) -> Option<Place>
    ensures { result ≡ option_map (Place.Wiring version a b) more }
{
    match more {
        Some(wire) => Some(Place::Wiring(version, a, b, wire)),
        None => None,
    }
}

impl Place {
    /// The version of the script; any, where the head line isn't read yet.
    pub fn version(&self) -> Version
        ensures { result ≡ version_of self.now }
    {
        match self {
            Place::Begin => Version::One,
            Place::Started(version) => *version,
            Place::Paired(version) => *version,
            Place::Sided(version, _) => *version,
            Place::Addressed(version, _, _) => *version,
            Place::Filling(version, _, _) => *version,
            Place::Driving(version, _, _) => *version,
            Place::Wiring(version, _, _, _) => *version,
        }
    }

    /// What was read with one more line; nothing where no script that is wanted has this line here.
    pub fn accept(
        self,
        alloc: Global,
        wanted: Wanted,
        part: Part,
    ) -> Result<Option<Place>, NoMemory>
        ensures { IfOk result (λ o. o ≡ accept wanted self part) }
    {
        match self {
            Place::Begin => Ok(behind_begin(wanted, part)),
            Place::Started(version) => Ok(behind_start(wanted, version, part)),
            Place::Paired(version) => Ok(behind_pair(version, part)),
            Place::Sided(version, whose) => Ok(behind_side(version, whose, part)),
            Place::Addressed(version, whose, net) => {
                Ok(behind_net(alloc, version, whose, net, part))
            }
            Place::Filling(version, whose, stack) => in_stack(alloc, version, whose, stack, part),
            Place::Driving(version, stack, driver) => in_driver(version, stack, driver, part),
            Place::Wiring(version, a, b, wire) => on_wire(version, a, b, wire, part),
        }
    }

    /// The script, where what was read is one.
    pub fn script(self) -> Option<Script>
        ensures { result ≡ script_of self }
    {
        match self {
            Place::Filling(version, whose, stack) => single_of(version, whose, stack),
            Place::Driving(version, stack, driver) => {
                let driver = Some(driver.commands);
                let body = Body::One(Single { stack, driver });
                Some(Script { version, body })
            }
            Place::Wiring(version, a, b, wire) => {
                let OpenWire { faults, commands } = wire;
                let faults = faults.into_list();
                let body = Body::Two(Pair {
                    a,
                    b,
                    faults,
                    commands,
                });
                Some(Script { version, body })
            }
            Place::Begin
            | Place::Started(_)
            | Place::Paired(_)
            | Place::Sided(_, _)
            | Place::Addressed(_, _, _) => None,
        }
    }
}

// The script of one stack without a driver's part.
fn single_of(version: Version, whose: Whose, stack: Stack) -> Option<Script>
    ensures { result ≡ single_of version whose stack }
{
    match whose {
        Whose::Alone => {
            let driver = None;
            let body = Body::One(Single { stack, driver });
            Some(Script { version, body })
        }
        Whose::OfA => None,
        Whose::OfB(_) => None,
    }
}
