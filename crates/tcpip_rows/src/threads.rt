//! The threads.
ghost use Rattle.std.specs.Prelude.{◌≡◌, All, length, IfOk};
ghost use Rattle.std.specs.Thread.{IsSync};
ghost use Rattle.tcpip_rows.specs.Workers.{IsServing, HasServed, IsReady, IsDone};

use crate::shop::Shop;
use crate::worker::{Clerk, Worker, make_calls, serve};
use std::alloc::AllocError;
use std::sync::Wait;
use std::thread::{Threads, join, map_vec};

// Each worker makes its calls, in a thread of its own.
fn call_all<R: Threads + Wait + Sync>(
    rt: &R,
    shop: &Shop,
    calls: u64,
    workers: Vec<Worker>,
) -> Result<Vec<Worker>, AllocError>
    requires lock { shop.now.tcpip.key.lock.value ≡ shop.now.lock }
    requires ready { All (IsReady shop.now.tcpip) workers.items }
    ensures len { IfOk result (λ done. length done.items ≡ length workers.items) }
    ensures done { IfOk result (λ done. All (IsDone shop.now.tcpip) done.items) }
{
    map_vec(
        rt,
        workers,
        &|worker: Worker| -> Worker
            requires { IsSync R.row × (shop.now.tcpip.key.lock.value ≡ shop.now.lock) × IsReady shop.now.tcpip worker }
            ensures { IsDone shop.entry.now.tcpip result }
        { make_calls(rt, shop, calls, worker) },
    )
}

/// Serves in one thread, while each worker makes so many calls in another.
pub fn work<R: Threads + Wait + Sync>(
    rt: &R,
    shop: &Shop,
    calls: u64,
    clerk: Clerk,
    workers: Vec<Worker>,
) -> (Clerk, Result<Vec<Worker>, AllocError>)
    requires lock { shop.now.tcpip.key.lock.value ≡ shop.now.lock }
    requires clerk { IsServing shop.now.tcpip clerk }
    requires workers { All (IsReady shop.now.tcpip) workers.items }
    ensures clerk { HasServed shop.now.tcpip result.0 }
    ensures len { IfOk result.1 (λ done. length done.items ≡ length workers.items) }
    ensures done { IfOk result.1 (λ done. All (IsDone shop.now.tcpip) done.items) }
{
    join(
        rt,
        || -> Clerk
            requires { IsSync R.row × (shop.now.tcpip.key.lock.value ≡ shop.now.lock) × IsServing shop.now.tcpip clerk }
            ensures { HasServed shop.entry.now.tcpip result }
        { serve(rt, shop, clerk) },
        || -> Result<Vec<Worker>, AllocError>
            requires { IsSync R.row × (shop.now.tcpip.key.lock.value ≡ shop.now.lock) × All (IsReady shop.now.tcpip) workers.items }
            ensures { IfOk result (λ done. (length done.items ≡ length workers.items) × All (IsDone shop.entry.now.tcpip) done.items) }
        { call_all(rt, shop, calls, workers) },
    )
}
