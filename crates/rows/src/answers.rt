use crate::echo_cases::ECHO_CASES;
use crate::exchange::Exchange;
use crate::overlap_cases::OVERLAP_CASES;
use crate::reassembly_cases::REASSEMBLY_CASES;
use crate::taken_cases::TAKEN_CASES;
use crate::unreachable_cases::UNREACHABLE_CASES;
use crate::waiting_cases::WAITING_CASES;
use crate::whole_cases::WHOLE_CASES;
use std::alloc::Global;
use std::process::Abort;
use std::test::Fail;

// Runs an exchange, and compares all that the program wrote.
fn meets(rt: &impl Abort, exchange: &Exchange) -> Result<(), Fail> {
    let ran = exchange.run()?;
    let wanted = exchange.transcript()?;
    assert_eq!(rt; ran.status, 0, "{}", exchange.what);
    assert_eq!(rt; ran.out.octets(), wanted.as_bytes(), "{}", exchange.what);
    assert_eq!(rt; ran.err.octets(), b"".as_slice());
    Ok(())
}

// Runs all exchanges of a table, and answers how many there are.
fn each(rt: &impl Abort, alloc: Global, table: &str) -> Result<u32, Fail> {
    let mut count = 0u32;
    let mut exchange = Exchange::new(alloc, "")?;
    for line in table.lines() {
        match line.strip_prefix("case ") {
            Some(what) => {
                if count > 0 {
                    meets(rt, &exchange)?;
                }
                exchange = Exchange::new(alloc, what)?;
                count = count.saturating_add(1);
            }
            None => exchange.line(line)?,
        }
    }
    meets(rt, &exchange)?;
    Ok(count)
}

#[test]
fn echo_requests(rt: HostRuntime) -> Result<(), Fail> {
    assert_eq!(rt; each(&rt, rt.alloc(), ECHO_CASES)?, 44);
    Ok(())
}

#[test]
fn answers_that_wait(rt: HostRuntime) -> Result<(), Fail> {
    assert_eq!(rt; each(&rt, rt.alloc(), WAITING_CASES)?, 11);
    Ok(())
}

#[test]
fn what_is_unreachable(rt: HostRuntime) -> Result<(), Fail> {
    assert_eq!(rt; each(&rt, rt.alloc(), UNREACHABLE_CASES)?, 20);
    Ok(())
}

#[test]
fn requests_in_fragments(rt: HostRuntime) -> Result<(), Fail> {
    assert_eq!(rt; each(&rt, rt.alloc(), REASSEMBLY_CASES)?, 22);
    Ok(())
}

#[test]
fn fragments_that_are_taken(rt: HostRuntime) -> Result<(), Fail> {
    assert_eq!(rt; each(&rt, rt.alloc(), TAKEN_CASES)?, 29);
    Ok(())
}

#[test]
fn fragments_that_are_dropped(rt: HostRuntime) -> Result<(), Fail> {
    assert_eq!(rt; each(&rt, rt.alloc(), OVERLAP_CASES)?, 31);
    Ok(())
}

#[test]
fn datagrams_in_fragments(rt: HostRuntime) -> Result<(), Fail> {
    assert_eq!(rt; each(&rt, rt.alloc(), WHOLE_CASES)?, 31);
    Ok(())
}
