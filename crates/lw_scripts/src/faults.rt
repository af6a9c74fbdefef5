//! The frames on the wire that aren't passed on once, each named once at most.
ghost use Rattle.std.specs.Prelude.{◌≡◌, ◌==◌, ◌||◌, ℕ, ◌≤◌, false, [], ◌∷◌, ◌++◌, List, IfOk, get_or, length};
ghost use Rattle.call_types.specs.declared.call.Side.{Side};
ghost use Rattle.lw_scripts.specs.declared.parts.Fault.{Fault};
ghost use Rattle.lw_scripts.specs.Filling.{with_fault};
ghost use Rattle.lw_scripts.specs.Marks.{AreMarks, is_named};

use crate::parts::{Fault, FaultList};
use call_types::Side;
use lw_base::{NoMemory, Series};
use std::alloc::Global;
use std::marker::Model;

// Whether a number is marked.
fn is_marked(marks: &[bool], number: u32) -> bool
    ensures { result ≡ get_or marks.now number false }
{
    let number = number as usize;
    number < marks.len() && marks[number]
}

// Marks for so many numbers at least.
fn padded(mut marks: Vec<bool>, len: usize) -> Result<Vec<bool>, NoMemory>
    ensures { IfOk result (λ new. (len ≤ length new.items) × ((k : ℕ) → get_or new.items k false ≡ get_or marks.items k false)) }
{
    while marks.len() < len {
        marks.push(false)?;
    }
    Ok(marks)
}

// Marks one more number.
fn with_mark(marks: Vec<bool>, number: u32) -> Result<Vec<bool>, NoMemory>
    ensures { IfOk result (λ new. (k : ℕ) → get_or new.items k false ≡ (get_or marks.items k false || (k == number))) }
{
    let number = number as usize;
    let mut marks = padded(marks, number + 1)?;
    marks[number] = true;
    Ok(marks)
}

/// The faults of a wire as far as they are read, and the frames of each side that they name.
#[derive(Drop)]
pub struct OpenFaults {
    faults: Vec<Fault>,
    marks_a: Vec<bool>,
    marks_b: Vec<bool>,
}

impl Model for OpenFaults {
    ghost use Rattle.std.specs.Prelude.{List};
    ghost use Rattle.call_types.specs.declared.call.Side.{Side};
    ghost use Rattle.lw_scripts.specs.declared.parts.Fault.{Fault};
    ghost use Rattle.lw_scripts.specs.Marks.{AreMarks};

    ghost Value = { List Fault };

    ghost view = { λ f. f.faults.items };

    ghost invariant = { λ f. AreMarks f.faults.items Side.A f.marks_a.items × AreMarks f.faults.items Side.B f.marks_b.items };
}

impl OpenFaults {
    /// No faults.
    pub fn new(alloc: Global) -> OpenFaults
        ensures { result ≡ [] }
    {
        OpenFaults {
            faults: Vec::new(alloc),
            marks_a: Vec::new(alloc),
            marks_b: Vec::new(alloc),
        }
    }

    // Whether a frame of a side is named.
    fn is_named(&self, side: Side, frame: u32) -> bool
        ensures { result ≡ is_named self.now side frame }
    {
        match side {
            Side::A => is_marked(self.marks_a.as_slice(), frame),
            Side::B => is_marked(self.marks_b.as_slice(), frame),
        }
    }

    // These faults and one more.
    fn more(self, fault: Fault) -> Result<OpenFaults, NoMemory>
        ensures { IfOk result (λ new. new ≡ self ++ fault ∷ []) }
    {
        let OpenFaults {
            mut faults,
            marks_a,
            marks_b,
        } = self;
        faults.push(fault)?;
        match fault.side {
            Side::A => Ok(OpenFaults {
                faults,
                marks_a: with_mark(marks_a, fault.frame)?,
                marks_b,
            }),
            Side::B => Ok(OpenFaults {
                faults,
                marks_a,
                marks_b: with_mark(marks_b, fault.frame)?,
            }),
        }
    }

    /// These faults and one more, where its frame isn't named yet.
    pub fn with(self, fault: Fault) -> Result<Option<OpenFaults>, NoMemory>
        ensures { IfOk result (λ o. o ≡ with_fault self fault) }
    {
        if self.is_named(fault.side, fault.frame) {
            return Ok(None);
        }
        Ok(Some(self.more(fault)?))
    }

    /// The faults alone.
    pub fn into_list(self) -> FaultList
        ensures { result ≡ self }
    {
        Series::from_vec(self.faults)
    }
}
