//! Laws of waits, in the words of their subject.
ghost use Rattle.std.specs.Prelude.{List};
ghost use Rattle.lw_base.specs.declared.event_word.Word.{Word};
ghost use Rattle.call_places.specs.declared.place.ScanTarget.{ScanTarget};
ghost use Rattle.call_places.specs.Laws.{AwaitLaw, RecvallLaw, SelectLaw, TimeoutLaw};

/// A timeout is never early, and comes after one more try.
pub fn a_timeout_is_never_early()
    ensures { TimeoutLaw }
{}

/// A wait for a signal is `ok` exactly where the signal came so often.
pub fn a_signal_came_so_often()
    ensures { AwaitLaw }
{}

/// A recvall that has octets gives their number.
pub fn a_recvall_keeps_what_it_has()
    ensures { RecvallLaw }
{}

/// A scan reports just the items of which the test holds of the word that was seen.
pub fn a_scan_reports_what_holds()
    ensures { (targets : List ScanTarget) (looks : List (ScanTarget × Word)) → SelectLaw targets looks }
{}
