use crate::program::{Ran, SURE, run};
use std::alloc::{AllocError, Global};
use std::test::Fail;

/// The header of a capture: the lowest octet first, times in microseconds, Ethernet.
const HEADER: &str = "d4c3b2a1020004000000000000000000ffff000001000000";

/// A run of `serial`, built line by line: `case WHAT` begins one, `net ..` is its script's second line,
/// `frame FRONT FILL BEHIND` is a frame of its capture, and `out FRONT FILL` one that is sent in the
/// event of the frame above. Octets are in hexadecimal; FILL octets of 5a stand behind FRONT; - is
/// none.
#[derive(Drop)]
pub struct Exchange {
    alloc: Global,
    pub what: String,
    script: String,
    capture: Vec<u8>,
    text: String,
    evidence: String,
    core: u32,
    out: u32,
}

impl Exchange {
    /// An exchange without frames.
    pub fn new(alloc: Global, what: &str) -> Result<Exchange, Fail> {
        Ok(Exchange {
            alloc,
            what: String::from_str(alloc, what)?,
            script: String::new(alloc),
            capture: hex::decode(alloc, HEADER)?,
            text: String::from_str(alloc, "lwip 1 serial\n")?,
            evidence: String::new(alloc),
            core: 1,
            out: 0,
        })
    }

    /// Takes a line that doesn't begin a case.
    pub fn line(&mut self, line: &str) -> Result<(), Fail> {
        let words: Vec<&str> = line.split(' ').collect(self.alloc)?;
        match words.as_slice() {
            ["net", ..] => {
                self.script = format!(in self.alloc; "lwip 1\n{line}\nlimits default\n")?;
            }
            ["frame", front, fill, behind] => self.frame(front, fill, behind)?,
            ["out", front, fill] => self.sent(front, fill)?,
            _ => return Err(Fail::new("a line of no form")),
        }
        Ok(())
    }

    fn frame(&mut self, front: &str, fill: &str, behind: &str) -> Result<(), Fail> {
        let mut octets = filled(self.alloc, front, fill)?;
        if behind != "-" {
            octets.push_str(behind)?;
        }
        self.record(&octets)?;
        let core = self.core;
        self.text.push_str(&format!(in self.alloc; "core {core} 0 frame {octets} -> ok\n")?)?;
        self.evidence
            .push_str(&format!(in self.alloc; "@{core}\n")?)?;
        self.core = core.saturating_add(1);
        Ok(())
    }

    fn record(&mut self, octets: &str) -> Result<(), Fail> {
        let octets = hex::decode(self.alloc, octets)?;
        let count = u32::try_from(octets.len())
            .map_err(|_| AllocError)?
            .to_le_bytes();
        self.capture.extend_from_slice([0; 8].as_slice())?;
        self.capture.extend_from_slice(count.as_slice())?;
        self.capture.extend_from_slice(count.as_slice())?;
        self.capture.extend_from_slice(&octets)?;
        Ok(())
    }

    fn sent(&mut self, front: &str, fill: &str) -> Result<(), Fail> {
        let octets = filled(self.alloc, front, fill)?;
        self.text
            .push_str(&format!(in self.alloc; "out {octets}\n")?)?;
        self.out = self.out.saturating_add(1);
        Ok(())
    }

    /// Runs the program.
    pub fn run(&self) -> Result<Ran, AllocError> {
        run(
            self.alloc,
            "serial script capture",
            self.script.as_bytes(),
            &self.capture,
            SURE,
        )
    }

    /// The transcript that the run has to write.
    pub fn transcript(&self) -> Result<String, AllocError> {
        let (core, out) = (self.core, self.out);
        let fed = core.saturating_sub(1);
        let (text, evidence) = (&self.text, &self.evidence);
        format!(in self.alloc;
            "{text}core {core} 0 stop -> ok\nactor 0\ncall 1 feed all\n{evidence}did fed {fed}\ncall 2 stop\n@{core}\ndid ok\nend core {core} out {out}\n"
        )
    }
}

fn filled(alloc: Global, front: &str, fill: &str) -> Result<String, Fail> {
    let mut octets = String::new(alloc);
    if front != "-" {
        octets.push_str(front)?;
    }
    for _ in 0..fill.parse::<u16>()? {
        octets.push_str("5a")?;
    }
    Ok(octets)
}
