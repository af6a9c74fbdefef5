use super::*;
use lw_base::{Ip, IpHead};
use std::test::Fail;

// The header of a packet; its total isn't looked at.
const HEAD: IpHead = IpHead {
    head_len: 20,
    tos: 3,
    total: 777,
    id: 0x1234,
    df: false,
    mf: false,
    offset: 0,
    ttl: 255,
    proto: 1,
    src: Ip(0x0a00_0001),
    dst: Ip(0x0a00_0002),
};

// The octets of the flags and the offset (RFC 791, 3.1).
fn flags_and_offset(head: &IpHead) -> u32 {
    let mf = if head.mf { 0x2000 } else { 0 };
    mf + head.offset / 8
}

#[test]
fn an_echo_of_3008_octets_is_three_fragments(rt: HostRuntime) -> Result<(), Fail> {
    let pieces = split(rt.alloc(), &HEAD, &[0; 3008], 1500)?;
    assert_eq!(rt; pieces.len(), 3);
    for (place, total, word, from, len) in [
        (0, 1500, 0x2000, 0, 1480),
        (1, 1500, 0x20b9, 1480, 1480),
        (2, 68, 0x0172, 2960, 48),
    ] {
        let (head, start, octets) = &pieces[place];
        assert_eq!(rt; head.total, total);
        assert_eq!(rt; flags_and_offset(head), word);
        assert_eq!(rt; (*start, *octets), (from, len));
    }
    assert_eq!(rt; full_count(3008, 1500), 2);
    assert_eq!(rt; full_piece(&HEAD, 1500, 1), pieces[1]);
    assert_eq!(rt; last_piece(&HEAD, 3008, 1500), pieces[2]);
    Ok(())
}
