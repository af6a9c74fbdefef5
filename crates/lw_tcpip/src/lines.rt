//! How lines are opened.
ghost use Rattle.std.specs.Prelude.{◌≡◌, false, length, Some, IfOk};
ghost use Rattle.tcpip_mbox.specs.Tokens.{fresh, ArePuts};
ghost use Rattle.lw_tcpip.specs.Tokens.{fresh_line, AreLines, IsSeat, AreNew};

use crate::desk::Seat;
use crate::line::Line;
use crate::message::{Entry, Queue};
use crate::reply::LineKey;
use hist_lock::Serial;
use reply_box::ReplyBox;
use std::alloc::{AllocError, Global};
use std::snapshot::Snapshot;
use std::sync::Arc;

// The line of a Put, and the seat where it is answered.
fn open_line<O: Serial>(
    alloc: Global,
    mbox: &Queue<O>,
    put: Entry<O>,
    places: u32,
) -> Result<(Line<O>, Seat<O>), AllocError>
where
    O::Ev: Drop,
    O::Reply: Drop,
    requires places { places ≡ mbox.now.places }
    requires put { put ≡ fresh mbox.now.table (Some mbox.now.key) put.number put.others }
    ensures line { IfOk result (λ r. r.0 ≡ fresh_line mbox.now put.number put.others) }
    ensures seat { IfOk result (λ r. IsSeat mbox.now.table (Some mbox.now.key) put.number 0 false r.1) }
{
    let key = LineKey {
        mbox: Snapshot::of(mbox),
        line: put.number(),
    };
    let (place, pledge, waits) = ReplyBox::new(alloc, &key)?;
    let place = Arc::new(alloc, place)?;
    let theirs = Arc::try_clone(&place)?;
    let line = Line {
        put,
        place,
        waits,
        places,
        entries: 0,
        refusals: 0,
        lost: false,
    };
    let seat = Seat {
        place: theirs,
        pledge,
        left: false,
    };
    Ok((line, seat))
}

// The lines of all Puts, with their seats in the same order.
pub(crate) fn open_lines<O: Serial>(
    alloc: Global,
    mbox: &Queue<O>,
    puts: Vec<Entry<O>>,
    places: u32,
) -> Result<(Vec<Line<O>>, Vec<Seat<O>>), AllocError>
where
    O::Ev: Drop,
    O::Reply: Drop,
    requires places { places ≡ mbox.now.places }
    requires puts { ArePuts mbox.now (length puts.items) puts.items }
    ensures lines { IfOk result (λ r. AreLines mbox.now (length puts.items) r.0.items) }
    ensures seats { IfOk result (λ r. AreNew mbox.now.table (Some mbox.now.key) r.1.items × (length r.1.items ≡ length puts.items)) }
{
    let mut lines = Vec::with_capacity(alloc, puts.len())?;
    let mut seats = Vec::with_capacity(alloc, puts.len())?;
    for put in puts {
        let (line, seat) = open_line(alloc, mbox, put, places)?;
        lines.push(line)?;
        seats.push(seat)?;
    }
    Ok((lines, seats))
}
