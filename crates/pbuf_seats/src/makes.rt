//! What a seat counts of the payloads of POOL that it was asked for.
/// The payloads made, those refused because too few pbufs were free, how many octets the last of these was to have, and the pbufs asked for.
#[derive(Clone, Copy, Debug, PartialEq, Eq)]
pub struct Makes {
    pub made: u64,
    pub refused: u64,
    pub last_refused: u32,
    pub asked: u64,
}

impl Makes {
    pub(crate) const NONE: Makes = Makes {
        made: 0,
        refused: 0,
        last_refused: 0,
        asked: 0,
    };
}
