//! Where a call may stand: with an actor, with the driver, or on the wire.
ghost use Rattle.std.specs.Prelude.{◌≡◌};
ghost use Rattle.lw_scripts.specs.Kinds.{is_actors, is_drivers, is_wires};
ghost use Rattle.lw_scripts.specs.Parts.{speaks_tcp, ticks_of};

use call_types::Call;
use lw_events::Proto;

/// Whether a call is one that actors make.
pub fn is_actors(call: &Call) -> bool
    ensures { result ≡ is_actors call.now }
{
    match call {
        Call::New(_, _, _) => true,
        Call::Bind(_, _, _, _) => true,
        Call::Connect(_, _, _, _) => true,
        Call::Listen(_, _) => true,
        Call::Accept(_, _, _) => true,
        Call::Send(_, _, _) => true,
        Call::SendTo(_, _, _, _, _) => true,
        Call::Recv(_, _) => true,
        Call::RecvAll(_, _) => true,
        Call::RecvFrom(_, _) => true,
        Call::RecvItem(_) => true,
        Call::TryItem(_) => true,
        Call::Shutdown(_, _) => true,
        Call::Close(_, _) => true,
        Call::NonBlock(_, _) => true,
        Call::NoDelay(_, _) => true,
        Call::Timeout(_, _) => true,
        Call::GetAddr(_, _) => true,
        Call::Select(_, _) => true,
        Call::Signal(_) => true,
        Call::Await(_, _) => true,
        Call::Feed(_)
        | Call::Burst(_)
        | Call::Tick(_)
        | Call::Stop
        | Call::AwaitSide(_, _, _)
        | Call::Pump(_)
        | Call::Until(_, _, _) => false,
    }
}

/// Whether a call is a command of the driver.
pub fn is_drivers(call: &Call) -> bool
    ensures { result ≡ is_drivers call.now }
{
    matches!(
        call,
        Call::Feed(_) | Call::Burst(_) | Call::Tick(_) | Call::Signal(_) | Call::Await(_, _)
    )
}

/// Whether a call is a command of the wire.
pub fn is_wires(call: &Call) -> bool
    ensures { result ≡ is_wires call.now }
{
    matches!(
        call,
        Call::AwaitSide(_, _, _) | Call::Pump(_) | Call::Until(_, _, _)
    )
}

/// Whether a call makes a connection of TCP.
pub fn speaks_tcp(call: &Call) -> bool
    ensures { result ≡ speaks_tcp call.now }
{
    match call {
        Call::New(_, _, proto) => matches!(proto, Proto::Tcp),
        _ => false,
    }
}

/// How many ticks a command makes.
pub fn ticks_of(call: &Call) -> u32
    ensures { result ≡ ticks_of call.now }
{
    match call {
        Call::Tick(count) => *count,
        _ => 0,
    }
}
