ghost use Rattle.std.specs.Prelude.{◌≡◌, ◌<◌, None, length, option_copied, IfOk};
ghost use Rattle.lw_conn.specs.Variables.{all_unset, put, variable};

use crate::NoMemory;
use lw_events::Handle;
use std::alloc::Global;
use std::marker::Model;

/// What a variable names, and whether it is a connection of UDP.
#[derive(Clone, Copy, Debug, PartialEq, Eq)]
pub struct Variable {
    pub handle: Handle,
    pub udp: bool,
}

/// The variables that all threads of a script share. Contracts see them as a list by their numbers from
/// 0; one that wasn't set is none.
#[derive(Drop)]
pub struct Variables {
    places: Vec<Option<Variable>>,
}

impl Model for Variables {
    ghost use Rattle.std.specs.Prelude.{List, Option};
    ghost use Rattle.lw_conn.specs.declared.variables.Variable.{Variable as OfVariable};

    ghost Value = { List (Option OfVariable) };

    ghost view = { λ v. v.places.items };
}

impl Variables {
    /// So many variables, none of them set.
    pub fn new(alloc: Global, many: u32) -> Result<Variables, NoMemory>
        ensures { IfOk result (λ v. v ≡ all_unset many) }
    {
        Ok(Variables {
            places: Vec::from_elem(alloc, None, many as usize)?,
        })
    }

    /// What a variable names, where it was set.
    pub fn get(&self, var: u32) -> Option<&Variable>
        ensures { option_copied result ≡ variable self.now var }
    {
        self.places.get(var as usize)?.as_ref()
    }

    /// Sets a variable.
    pub fn set(&mut self, var: u32, variable: Variable)
        requires there { var < length self.old }
        ensures { self.new ≡ put self.old var variable }
    {
        self.places[var as usize] = Some(variable);
    }
}
