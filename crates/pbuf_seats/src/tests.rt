use crate::{Free, PoolSeat};
use lw_base::Limits;
use lw_payload::Kind;
use std::test::Fail;

const SMALL: Limits = Limits {
    ram: 8,
    pool: 4,
    rom: 4,
    reference: 4,
    mailbox: 2,
    tcpip: 4,
    descriptors: 8,
    window: 5840,
    live: 64,
    ends: 128,
    variables: 64,
};

const ALL: Free = Free {
    ram: 8,
    pool: 4,
    rom: 4,
    reference: 4,
};

#[test]
fn pbufs_and_buffers_come_back_and_serve_again(rt: HostRuntime) -> Result<(), Fail> {
    let mut seat = PoolSeat::new(rt.alloc(), &SMALL, false)?;
    let Some(mut one) = seat.take(Kind::Ram, 3) else {
        return Err(Fail::new("in use"));
    };
    let other = seat.share(&mut one, 15);
    assert!(rt; !seat.give_up(other));
    assert!(rt; seat.free() == Free { ram: 7, ..ALL });
    let first = seat.buffer(rt.alloc(), &[7; 600])?;
    seat.keep_buffer(first);
    assert!(rt; seat.buffer(rt.alloc(), b"pbuf")?.capacity() >= 600);
    assert!(rt; seat.buffer(rt.alloc(), b"pbuf")?.capacity() == 512);
    seat.set_first_place(Kind::Ram, 4);
    assert!(rt; seat.first_place(Kind::Ram) == 4);
    Ok(())
}
