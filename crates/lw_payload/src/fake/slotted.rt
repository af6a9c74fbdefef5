ghost use Rattle.std.specs.Prelude.{◌≤◌, vec_len};

use crate::Kind;

/// A payload of `Slots`: its octets, and the places at which it is an owner.
#[derive(Drop)]
pub struct Slotted {
    pub number: u32,
    pub kept: Kind,
    pub octets: Vec<u8>,
    pub places: Vec<u32>,
    pub shares: u32,
    pub fresh: bool,
    ghost lean: { vec_len places ≤ vec_len octets },
}
