//! Copies of a chain's octets.
ghost use Rattle.std.specs.Prelude.{◌≡◌, ◌+◌, ◌≤◌, ◌++◌, length, take, drop, slice_range};
ghost use Rattle.pbuf_spans.specs.Parts.{joined};
ghost use Rattle.lw_pbuf.specs.Chains.{all_parts};

use crate::chain::Chain;
use pbuf_spans::Span;

impl Chain {
    /// Copies the octets from `from` on until `out` is full.
    pub fn copy_at(&self, from: u32, out: &mut [u8])
        requires within { from + length out.old ≤ length (joined self.now.parts) }
        ensures { out.new ≡ slice_range (joined self.now.parts) from (from + length out.old) }
    {
        copy_out(self.spans.as_slice(), from as usize, out);
    }
}

// The same over spans.
fn copy_out(spans: &[Span], from: usize, out: &mut [u8])
    requires within { from + length out.old ≤ length (joined (all_parts spans.now)) }
    ensures { out.new ≡ slice_range (joined (all_parts spans.now)) from (from + length out.old) }
{
    let mut skip = from;
    let mut at = 0;
    for span in spans {
        let octets = span.octets();
        let begin = skip.min(octets.len());
        let count = (octets.len() - begin).min(out.len() - at);
        write_at(out, at, &octets[begin..begin + count]);
        skip -= begin;
        at += count;
    }
}

// Writes these octets from the place `at` on.
fn write_at(out: &mut [u8], at: usize, octets: &[u8])
    requires { at + length octets.now ≤ length out.old }
    ensures { out.new ≡ take at out.old ++ octets.now ++ drop (at + length octets.now) out.old }
{
    out[at..at + octets.len()].copy_from_slice(octets);
}
