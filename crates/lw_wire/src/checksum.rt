ghost use Rattle.std.specs.Prelude.{◌≡◌, ◌+◌, ◌*◌, ◌^◌, ◌%◌, ◌<◌, ◌≤◌, ◌++◌, length, sum_by};
ghost use Rattle.lw_wire.specs.Checksum.{folded, internet_sum, ones_add, ones_sum, word_sum};

/// The internet checksum of the octets of two slices, one behind the other.
pub fn sum16(first: &[u8], second: &[u8]) -> u16
    ensures { result ≡ internet_sum (first.now ++ second.now) }
{
    !ones_add(ones_sum(first), moved(ones_sum(second), first.len()))
}

// The sum of octets that stand so many octets further back.
fn moved(sum: u16, by: usize) -> u16
    ensures { result ≡ folded (256 ^ (by % 2) * sum) }
{
    if by % 2 == 0 { sum } else { sum.swap_bytes() }
}

fn ones_add(first: u16, second: u16) -> u16
    ensures { result ≡ ones_add first second }
{
    let sum = u32::from(first) + u32::from(second);
    ((sum & 0xffff) + (sum >> 16)) as u16
}

// The words are read with their low octet first, since that is quicker; RFC 1071, 2 (B) says that their
// sum is the right one with its octets swapped.
fn ones_sum(octets: &[u8]) -> u16
    ensures { result ≡ ones_sum octets.now }
{
    let (blocks, rest) = octets.as_chunks::<16>();
    let (words, last) = rest.as_chunks::<2>();
    folded(sum_blocks(blocks) + sum_words(words) + sum_last(last)).swap_bytes()
}

// Two 64-bit words a round, each with a sum of its own.
fn sum_blocks(blocks: &[[u8; 16]]) -> u128
    ensures sum { folded (256 * result) ≡ folded (sum_by word_sum blocks.now) }
    ensures fits { result < 2 ^ 126 }
{
    let mut low = 0u128;
    let mut high = 0u128;
    for block in blocks {
        let words = u128::from_le_bytes(*block);
        low += words % (1 << 64);
        high += words >> 64;
    }
    low + high
}

fn sum_words(words: &[[u8; 2]]) -> u128
    ensures sum { folded (256 * result) ≡ folded (sum_by word_sum words.now) }
    ensures fits { result < 2 ^ 126 }
{
    let mut sum = 0u128;
    for word in words {
        sum += u128::from(u16::from_le_bytes(*word));
    }
    sum
}

fn sum_last(last: &[u8]) -> u128
    requires { length last.now < 2 }
    ensures sum { 256 * result ≡ word_sum last.now }
    ensures fits { result < 256 }
{
    match last {
        [octet] => u128::from(*octet),
        _ => 0,
    }
}

fn folded(sum: u128) -> u16
    ensures { result ≡ folded sum }
{
    let high = (sum >> 64) as u64;
    let low = (sum & u128::from(u64::MAX)) as u64;
    let parts = (high >> 32) + (high & 0xffff_ffff) + (low >> 32) + (low & 0xffff_ffff);
    match parts {
        0 => 0,
        _ => ((parts - 1) % 65535 + 1) as u16,
    }
}
