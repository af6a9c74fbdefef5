ghost use Rattle.std.specs.Prelude.{◌≡◌, string_bytes, IfOk};

use lw_base::Octets;
use std::alloc::{AllocError, Global};

/// A file in memory: its name and its octets.
#[derive(Drop)]
pub struct NamedFile {
    pub name: String,
    pub octets: Octets,
}

impl NamedFile {
    /// A file that holds a copy of these octets.
    pub fn new(alloc: Global, name: &str, octets: &[u8]) -> Result<NamedFile, AllocError>
        ensures name { IfOk result (λ f. string_bytes f.name ≡ name.now) }
        ensures octets { IfOk result (λ f. f.octets ≡ octets.now) }
    {
        let name = String::from_str(alloc, name)?;
        let octets = Octets::from_vec(Vec::from_slice(alloc, octets)?);
        Ok(NamedFile { name, octets })
    }
}
