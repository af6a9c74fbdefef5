//! Where to begin to look for a pbuf without an owner.
use lw_payload::Kind;

/// A place for each kind. No contract speaks of it.
#[derive(Drop)]
pub struct Hints {
    ram: u32,
    pool: u32,
    rom: u32,
    reference: u32,
}

impl Hints {
    pub(crate) const NONE: Hints = Hints {
        ram: 0,
        pool: 0,
        rom: 0,
        reference: 0,
    };

    #[inline(always)]
    pub(crate) fn of(&self, kind: Kind) -> u32 {
        match kind {
            Kind::Ram => self.ram,
            Kind::Pool => self.pool,
            Kind::Rom => self.rom,
            Kind::Ref => self.reference,
        }
    }

    #[inline(always)]
    pub(crate) fn set(&mut self, kind: Kind, place: u32) {
        match kind {
            Kind::Ram => self.ram = place,
            Kind::Pool => self.pool = place,
            Kind::Rom => self.rom = place,
            Kind::Ref => self.reference = place,
        }
    }
}
