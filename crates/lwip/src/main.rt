//! The program `lwip`: its words name a job and the files that the job reads. The transcript goes to
//! standard output, what went wrong to standard error, and the status of the process says which.
#![tactic(auto)]

use lw_outside::{StdFiles, StdSink};
use lwip_run::lwip_plain;
use std::env;
use std::io::{self, ErrorKind};
use std::process::ExitCode;

// The status for want of memory.
const NO_MEMORY: u8 = 8;

fn main(rt: HostRuntime) -> ExitCode {
    let words = match words(&rt) {
        Ok(words) => words,
        Err(error) if error.kind() == ErrorKind::OutOfMemory => {
            let _ = rt.eprintln("lwip: no memory");
            return ExitCode::from(NO_MEMORY);
        }
        // A word that isn't UTF-8 stands in no form, and no words at all are no form either.
        Err(_) => Vec::new(rt.alloc()),
    };
    let mut files = StdFiles::new(&rt);
    let mut output = StdSink::output(rt.stdout());
    let mut error = StdSink::error(rt.stderr());
    let status = lwip_plain::<Vec<u8>, _, _>(
        rt.alloc(),
        (),
        &words,
        &mut files,
        &mut output,
        &mut error,
    );
    ExitCode::from(status)
}

// The words behind the program's name.
fn words(rt: &HostRuntime) -> io::Result<Vec<String>> {
    let mut words = env::args(rt)?;
    let _name = words.next();
    Ok(words.collect(rt.alloc())?)
}
