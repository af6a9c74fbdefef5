//! A chain that is taken apart.
ghost use Rattle.std.specs.Prelude.{◌≡◌, ◌<◌, ◌≤◌, take, drop, length, None, Some, IfOk, IfSome, OnOk, OnErr};
ghost use Rattle.lw_pbuf.specs.Chains.{all_parts, NoneEmpty};

use crate::NoMemory;
use crate::chain::Chain;
use pbuf_spans::Span;
use smallvec::SmallVec;
use std::mem;
use std::sync::Arc;

impl Chain {
    /// Takes all but the first pbuf off, which are a chain then. `None` where there is one pbuf, or none.
    pub fn dechain(&mut self) -> Result<Option<Chain>, NoMemory>
        ensures some { IfOk result (λ rest. IfSome rest (λ c. (c.parts ≡ drop 1 self.old.parts) × (c.table ≡ self.old.table))) }
        ensures first { IfOk result (λ rest. IfSome rest (λ _. (self.new.parts ≡ take 1 self.old.parts) × (self.new.table ≡ self.old.table))) }
        ensures many { IfOk result (λ rest. IfSome rest (λ _. 1 < length self.old.parts)) }
        ensures none { result ≡ Ok None → (length self.old.parts ≤ 1) × (self.new ≡ self.old) }
        ensures err { OnErr result (self.new ≡ self.old) }
    {
        if self.clen() <= 1 {
            return Ok(None);
        }
        let counts = Arc::try_clone(&self.counts)?;
        let alloc = *self.spans.allocator();
        let first = take_first(&mut self.spans)?;
        let spans = mem::replace(&mut self.spans, SmallVec::from_buf(alloc, [first]));
        Ok(Some(Chain { counts, spans }))
    }
}

// Takes the first pbuf of all off, which is a span then.
fn take_first(spans: &mut SmallVec<Span, 1>) -> Result<Span, NoMemory>
    requires some { 0 < length spans.old.items }
    requires full { NoneEmpty spans.old.items }
    ensures first { IfOk result (λ s. s ≡ take 1 (all_parts spans.old.items)) }
    ensures rest { OnOk result (all_parts spans.new.items ≡ drop 1 (all_parts spans.old.items)) }
    ensures full { NoneEmpty spans.new.items }
    ensures err { OnErr result (spans.new ≡ spans.old) }
{
    if spans.as_slice()[0].clen() == 1 {
        return Ok(spans.remove(0));
    }
    first_of(&mut spans.as_mut_slice()[0])
}

// Takes the first pbuf off, which is a span then.
fn first_of(span: &mut Span) -> Result<Span, NoMemory>
    requires { 0 < length span.old }
    ensures first { IfOk result (λ s. s ≡ take 1 span.old) }
    ensures rest { OnOk result (span.new ≡ drop 1 span.old) }
    ensures err { OnErr result (span.new ≡ span.old) }
{
    let rest = span.split_first()?;
    Ok(mem::replace(span, rest))
}
