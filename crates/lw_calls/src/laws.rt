//! Laws of the machine, in the words of its subject.
ghost use Rattle.lw_calls.specs.Laws.{LookLaw};

/// A call that ends at a look makes no event after it, and a call that has ended stays so.
pub fn a_look_makes_no_event()
    ensures { LookLaw }
{}
