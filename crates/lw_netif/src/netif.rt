ghost use Rattle.std.specs.Prelude.{◌≡◌, ◌≢◌, IsErrOf};
ghost use Rattle.lw_netif.specs.Route.{IsOnSubnet, route_of};

use lw_base::{Err, Ip, Mac, Net};
use std::marker::Model;

/// The one interface of a stack. Contracts see it as its address.
#[derive(Drop)]
pub struct Netif {
    net: Net,
}

impl Model for Netif {
    ghost use Rattle.lw_base.specs.declared.addresses.Net.{Net as Address};

    ghost Value = { Address };

    ghost view = { λ n. n.net };
}

impl Netif {
    /// An interface at this address.
    pub fn new(ip: Ip, mask: Ip, gw: Ip, mac: Mac) -> Netif
        ensures { result ≡ record { ip = ip; mask = mask; gateway = gw; mac = mac } }
    {
        Netif {
            net: Net {
                ip,
                mask,
                gateway: gw,
                mac,
            },
        }
    }

    /// The own address.
    pub fn net(&self) -> &Net
        ensures { result.now ≡ self.now }
    {
        &self.net
    }

    /// The address of the next hop to `dst`: itself on the own subnet, else the gateway.
    pub fn route(&self, dst: Ip) -> Result<Ip, Err>
        ensures near { IsOnSubnet self.now dst → result ≡ Ok dst }
        ensures far { (IsOnSubnet self.now dst → ⊥) → self.now.gateway.0 ≢ 0 → result ≡ Ok self.now.gateway }
        ensures none { (IsOnSubnet self.now dst → ⊥) → self.now.gateway.0 ≡ 0 → IsErrOf result Err.Rte }
        ensures exact { result ≡ route_of self.now dst }
    {
        if dst.0 & self.net.mask.0 == self.net.ip.0 & self.net.mask.0 {
            return Ok(dst);
        }
        if self.net.gateway.0 == 0 {
            return Err(Err::Rte);
        }
        Ok(self.net.gateway)
    }
}
