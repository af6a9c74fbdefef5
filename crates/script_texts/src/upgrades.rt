//! The script of version 2 that says what one of version 1 says.
ghost use Rattle.std.specs.Prelude.{◌≡◌};
ghost use Rattle.lw_scripts.specs.Parts.{AreSizes, IsBody};
ghost use Rattle.script_texts.specs.Upgrades.{sizes_of, upgraded, upgraded_body, upgraded_stack};

use lw_base::Limits;
use lw_scripts::{Body, Pair, Script, Single, Sizes, Stack};
use script_words::Version;

// All sizes named.
fn sizes_of(limits: &Limits) -> Sizes
    ensures { result ≡ sizes_of limits.now }
{
    Sizes {
        ram: Some(limits.ram),
        pool: Some(limits.pool),
        rom: Some(limits.rom),
        reference: Some(limits.reference),
        mailbox: Some(limits.mailbox),
        tcpip: Some(limits.tcpip),
        descriptors: Some(limits.descriptors),
        window: Some(limits.window),
    }
}

// A stack of which all sizes are named.
fn upgraded_stack(version: Version, stack: Stack) -> Stack
    requires { AreSizes version stack.sizes }
    ensures { result ≡ upgraded_stack version stack }
{
    let sizes = sizes_of(&stack.limits(version));
    Stack { sizes, ..stack }
}

// What stands behind the head line, with all sizes named.
fn upgraded_body(version: Version, body: Body) -> Body
    requires { IsBody version body }
    ensures { result ≡ upgraded_body version body }
{
    match body {
        Body::One(Single { stack, driver }) => Body::One(Single {
            stack: upgraded_stack(version, stack),
            driver,
        }),
        Body::Two(
            Pair {
                a,
                b,
                faults,
                commands,
            },
        ) => Body::Two(Pair {
            a: upgraded_stack(version, a),
            b: upgraded_stack(version, b),
            faults,
            commands,
        }),
    }
}

/// The script of version 2 with all eight sizes of each stack named.
pub fn upgrade(script: Script) -> Script
    requires { IsBody script.version script.body }
    ensures { result ≡ upgraded script }
{
    Script {
        version: Version::Two,
        body: upgraded_body(script.version, script.body),
    }
}
