//! The driver's part and the wire's part of a script as far as they are read.
ghost use Rattle.std.specs.Prelude.{◌≡◌, IfOk};
ghost use Rattle.lw_scripts.specs.Filling.{new_driver, new_wire, wire_command, wire_fault, with_command};

use crate::faults::OpenFaults;
use crate::kinds::{is_drivers, is_wires, ticks_of};
use crate::parts::{CallList, Fault};
use crate::stack::push_call;
use call_types::Call;
use lw_base::{NoMemory, Series};
use std::alloc::Global;

/// How many ticks the commands of a driver make at most.
const TICKS: u64 = 1_000_000;

/// The driver's commands as far as they are read, and how many ticks they make.
#[derive(Drop)]
pub struct OpenDriver {
    pub commands: CallList,
    pub ticks: u32,
}

impl OpenDriver {
    /// No commands.
    pub fn new(alloc: Global) -> OpenDriver
        ensures { result ≡ new_driver }
    {
        OpenDriver {
            commands: Series::from_vec(Vec::new(alloc)),
            ticks: 0,
        }
    }

    /// These commands and one more, where it is the driver's and there aren't too many ticks.
    pub fn with(self, command: Call) -> Result<Option<OpenDriver>, NoMemory>
        ensures { IfOk result (λ o. o ≡ with_command self command) }
    {
        if !is_drivers(&command) {
            return Ok(None);
        }
        let ticks = u64::from(self.ticks) + u64::from(ticks_of(&command));
        if ticks > TICKS {
            return Ok(None);
        }
        let commands = push_call(self.commands, command)?;
        Ok(Some(OpenDriver {
            commands,
            ticks: ticks as u32,
        }))
    }
}

/// The wire's part as far as it is read.
#[derive(Drop)]
pub struct OpenWire {
    pub faults: OpenFaults,
    pub commands: CallList,
}

impl OpenWire {
    /// No faults and no commands.
    pub fn new(alloc: Global) -> OpenWire
        ensures { result ≡ new_wire }
    {
        OpenWire {
            faults: OpenFaults::new(alloc),
            commands: Series::from_vec(Vec::new(alloc)),
        }
    }

    /// This wire and one more fault, where it stands before the commands and its frame isn't named yet.
    pub fn with_fault(self, fault: Fault) -> Result<Option<OpenWire>, NoMemory>
        ensures { IfOk result (λ o. o ≡ wire_fault self fault) }
    {
        if !self.commands.is_empty() {
            return Ok(None);
        }
        let OpenWire { faults, commands } = self;
        match faults.with(fault)? {
            Some(faults) => Ok(Some(OpenWire { faults, commands })),
            None => Ok(None),
        }
    }

    /// This wire and one more command, where it is the wire's.
    pub fn with_command(self, command: Call) -> Result<Option<OpenWire>, NoMemory>
        ensures { IfOk result (λ o. o ≡ wire_command self command) }
    {
        if !is_wires(&command) {
            return Ok(None);
        }
        let OpenWire { faults, commands } = self;
        let commands = push_call(commands, command)?;
        Ok(Some(OpenWire { faults, commands }))
    }
}
