ghost use Rattle.std.specs.Prelude.{◌≡◌};
ghost use Rattle.lw_wire.specs.Sums.{has_right_sum, pseudo_head};

use crate::sum16;
use lw_base::Ip;

/// Whether the checksum that stands in octets is right.
pub fn has_right_sum(octets: &[u8]) -> bool
    ensures { result ≡ has_right_sum octets.now }
{
    sum16(octets, &[]) == 0
}

/// What the sums of UDP and TCP cover in front of the head.
pub fn pseudo_head(src: Ip, dst: Ip, protocol: u8, total: u16) -> [u8; 12]
    ensures { result ≡ pseudo_head src dst protocol total }
{
    let [s1, s2, s3, s4] = src.0.to_be_bytes();
    let [d1, d2, d3, d4] = dst.0.to_be_bytes();
    let [total_high, total_low] = total.to_be_bytes();
    [
        s1, s2, s3, s4, d1, d2, d3, d4, 0, protocol, total_high, total_low,
    ]
}
