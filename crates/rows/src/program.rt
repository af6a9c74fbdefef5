use crate::narrow::NarrowSink;
use lw_outside::{MemFiles, NamedFile};
use lwip_run::lwip_plain;
use std::alloc::{AllocError, Global};

/// The numbers of the calls that fail, counted from 1; none where a number is 0.
#[derive(Clone, Copy)]
pub struct Failing {
    pub files: u64,
    pub out: u64,
    pub err: u64,
}

/// No call fails.
pub const SURE: Failing = Failing {
    files: 0,
    out: 0,
    err: 0,
};

/// How a run of the program ended, and what it wrote.
#[derive(Drop)]
pub struct Ran {
    pub status: u8,
    pub out: NarrowSink,
    pub err: NarrowSink,
}

/// Runs the program on words that stand apart by one space, and on the files `script` and `capture`.
pub fn run(
    alloc: Global,
    words: &str,
    script: &[u8],
    capture: &[u8],
    failing: Failing,
) -> Result<Ran, AllocError> {
    let words = words_of(alloc, words)?;
    let script = NamedFile::new(alloc, "script", script)?;
    let capture = NamedFile::new(alloc, "capture", capture)?;
    let files = vec![in alloc; script, capture]?;
    let mut files = MemFiles::new(alloc, files, vec![in alloc; failing.files]?)?;
    let mut out = NarrowSink::new(alloc, failing.out)?;
    let mut err = NarrowSink::new(alloc, failing.err)?;
    let status = lwip_plain::<Vec<u8>, _, _>(alloc, (), &words, &mut files, &mut out, &mut err);
    Ok(Ran { status, out, err })
}

/// The words of a text.
pub fn words_of(alloc: Global, text: &str) -> Result<Vec<String>, AllocError> {
    let mut words = Vec::new(alloc);
    if text.is_empty() {
        return Ok(words);
    }
    for word in text.split(' ') {
        words.push(String::from_str(alloc, word)?)?;
    }
    Ok(words)
}
