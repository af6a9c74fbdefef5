ghost use Rattle.std.specs.Prelude.{◌≡◌};
ghost use Rattle.lw_netif.specs.Hosts.{is_broadcast, is_host};

use lw_base::{Ip, Net};

/// Whether an address is a broadcast address for a stack at `net`.
pub fn is_broadcast(net: &Net, ip: Ip) -> bool
    ensures { result ≡ is_broadcast net.now ip }
{
    ip.0 != net.ip.0 && (ip.0 == u32::MAX || ip.0 == net.ip.0 | !net.mask.0)
}

/// Whether an address is that of one host: no broadcast and no multicast address.
pub fn is_host(net: &Net, ip: Ip) -> bool
    ensures { result ≡ is_host net.now ip }
{
    !is_broadcast(net, ip) && ip.0 >> 28 != 0xe
}
