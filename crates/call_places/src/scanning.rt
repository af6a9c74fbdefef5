//! `select`: its items are looked up one after another, and then their connections' words are scanned.
ghost use Rattle.std.specs.Prelude.{◌≡◌, ◌++◌, ◌∷◌, [], IfOk};
ghost use Rattle.call_places.specs.Selects.{is_readable, holds, limited, select_timing, unscanned, scans, looks_up, next_item, selects, with_target, next_target, see_target, ready_with, scanned, scan_over, scan_by, scan_on, scan_target, after_scan};

use crate::lines::{added, ends, no_lines, stray, to};
use crate::waits::{timed, vain, waiting};
use crate::{
    Ask, Due, FdUse, NoMemory, Place, Scan, ScanTarget, Seen, Selecting, Step, TargetList, Timing,
    VarUse, Want,
};
use call_types::{Outcome, SelectItem, SelectList, Sight, Test};
use lw_base::{Flag, Series, Word};
use std::alloc::Global;

/// Whether an item is untaken, or octets of one are left, or no further one comes.
fn is_readable(word: Word) -> bool
    ensures { result ≡ is_readable word }
{
    word.posted != word.claimed
        || word.has(Flag::Rest)
        || word.has(Flag::Ended)
        || word.has(Flag::Fault)
        || word.has(Flag::Closed)
}

/// Whether a test holds of an event word.
fn holds(test: Test, word: Word) -> bool
    ensures { result ≡ holds test word }
{
    match test {
        Test::Readable => is_readable(word),
        Test::Writable => word.has(Flag::Writable),
        Test::Except => word.has(Flag::Fault),
    }
}

/// A select with a limit of 0 doesn't wait, and without a limit it waits without end.
fn select_timing(limit: Option<u32>) -> Timing
    ensures { result ≡ select_timing limit }
{
    match limit {
        Some(ticks) => limited(ticks),
        None => timed(None, None),
    }
}

/// How a select waits that has a limit.
fn limited(limit: u32) -> Timing
    ensures { result ≡ limited limit }
{
    if limit == 0 {
        timed(None, Some(Due::AtOnce))
    } else {
        timed(Some(limit), None)
    }
}

/// The first scan of these targets.
fn scans(alloc: Global, limit: Option<u32>, targets: TargetList) -> Place
    ensures { result ≡ scans limit targets }
{
    waiting(Want::Scan(unscanned(alloc, targets)), select_timing(limit))
}

/// The next item is looked up, or all are and the scan begins.
pub fn selects(alloc: Global, selecting: Selecting) -> Place
    ensures { result ≡ selects selecting }
{
    let next = next_item(&selecting);
    looks_up(alloc, selecting, next)
}

/// The item that is looked up next.
fn next_item(selecting: &Selecting) -> Option<SelectItem>
    ensures { result ≡ next_item selecting.now }
{
    selecting
        .items
        .as_slice()
        .get(selecting.targets.len())
        .copied()
}

/// The place of a select whose next item is this.
fn looks_up(alloc: Global, selecting: Selecting, next: Option<SelectItem>) -> Place
    ensures { result ≡ looks_up selecting next }
{
    match next {
        Some(item) => Place::Var(item.var, VarUse::OfFd(FdUse::Select(selecting, item))),
        None => scans(alloc, selecting.limit, selecting.targets),
    }
}

/// An item's connection is known.
pub fn with_target(selecting: Selecting, item: SelectItem, conn: u32) -> Result<Selecting, NoMemory>
    ensures { IfOk result (λ s. s ≡ with_target selecting item conn) }
{
    let mut targets = selecting.targets.into_vec();
    targets.push(ScanTarget { item, conn })?;
    Ok(Selecting {
        limit: selecting.limit,
        items: selecting.items,
        targets: Series::from_vec(targets),
    })
}

/// The target that a scan looks at next.
fn next_target(scan: &Scan) -> Option<ScanTarget>
    ensures { result ≡ next_target scan.now }
{
    scan.targets.as_slice().get(scan.shown.len()).copied()
}

/// What a scan asks.
pub fn see_next(scan: &Scan) -> Ask
    ensures { result ≡ see_target (next_target scan.now) }
{
    match next_target(scan) {
        Some(target) => Ask::See(target.conn),
        None => Ask::Nothing,
    }
}

/// The items that hold, with one more where its test does.
fn ready_with(held: bool, ready: SelectList, item: SelectItem) -> Result<SelectList, NoMemory>
    ensures { IfOk result (λ all. all ≡ ready_with held ready item) }
{
    match held {
        true => {
            let mut all = ready.into_vec();
            all.push(item)?;
            Ok(Series::from_vec(all))
        }
        false => Ok(ready),
    }
}

/// A scan with the look at one more target.
fn scanned(scan: Scan, target: ScanTarget, word: Word) -> Result<Scan, NoMemory>
    ensures { IfOk result (λ s. s ≡ scanned scan target word) }
{
    let line = Seen::Sight(Sight::Saw(target.conn, word));
    let shown = added(scan.shown, line)?;
    let ready = ready_with(holds(target.item.test, word), scan.ready, target.item)?;
    Ok(Scan {
        targets: scan.targets,
        shown,
        ready,
    })
}

/// A scan of these targets at its begin.
fn unscanned(alloc: Global, targets: TargetList) -> Scan
    ensures { result ≡ unscanned targets }
{
    Scan {
        targets,
        shown: no_lines(alloc),
        ready: Series::from_vec(Vec::new(alloc)),
    }
}

/// A whole scan ends the select where items hold.
fn scan_over(alloc: Global, none: bool, scan: Scan, timing: Timing) -> Result<Step, NoMemory>
    ensures { IfOk result (λ s. s ≡ scan_over none scan timing) }
{
    match none {
        true => {
            let Scan { targets, shown, .. } = scan;
            vain(alloc, Want::Scan(unscanned(alloc, targets)), timing, shown)
        }
        false => Ok(ends(Outcome::Ready(scan.ready), scan.shown)),
    }
}

/// A scan goes on, or is whole.
fn scan_on(alloc: Global, scan: Scan, timing: Timing) -> Result<Step, NoMemory>
    ensures { IfOk result (λ s. s ≡ scan_on scan timing) }
{
    let whole = scan.targets.len() <= scan.shown.len();
    match whole {
        true => {
            let none = scan.ready.is_empty();
            scan_over(alloc, none, scan, timing)
        }
        false => Ok(to(waiting(Want::Scan(scan), timing), no_lines(alloc))),
    }
}

/// What a scan's look leads to.
pub fn after_scan(alloc: Global, scan: Scan, timing: Timing, word: Word) -> Result<Step, NoMemory>
    ensures { IfOk result (λ s. s ≡ after_scan scan timing word) }
{
    match next_target(&scan) {
        Some(target) => scan_on(alloc, scanned(scan, target, word)?, timing),
        None => Ok(stray(alloc)),
    }
}
