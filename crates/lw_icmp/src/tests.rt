use super::*;
use std::test::Fail;

// An echo request with identifier 0x1234, sequence number 1 and the data "abc", and the head of
// its answer.
const REQUEST: [u8; 11] = [
    0x08, 0x00, 0x21, 0x68, 0x12, 0x34, 0x00, 0x01, 0x61, 0x62, 0x63,
];

const ANSWER: [u8; 8] = [0x00, 0x00, 0x29, 0x68, 0x12, 0x34, 0x00, 0x01];

// The header and the first octets of a UDP datagram from 10.0.0.2 port 4000 to port 9, and the head of
// the message that tells of it.
const HEADER: [u8; 20] = [
    0x45, 0x00, 0x00, 0x1e, 0x00, 0x02, 0x00, 0x00, 0x40, 0x11, 0x66, 0xcb, 0x0a, 0x00, 0x00, 0x02,
    0x0a, 0x00, 0x00, 0x01,
];

const BODY: [u8; 10] = [0x0f, 0xa0, 0x00, 0x09, 0x00, 0x0a, 0x00, 0x00, 0x68, 0x69];

const FRONT: [u8; 8] = [0x03, 0x03, 0xed, 0x49, 0, 0, 0, 0];

#[test]
fn messages_are_those_of_other_stacks(rt: HostRuntime) -> Result<(), Fail> {
    assert_eq!(rt; echo_answer(&REQUEST), Some(ANSWER));
    let mut out = Vec::new(rt.alloc());
    unreachable(rt.alloc(), 3, &HEADER, &BODY, &mut out)?;
    let mut wanted = Vec::from_slice(rt.alloc(), FRONT.as_slice())?;
    wanted.extend_from_slice(HEADER.as_slice())?;
    wanted.extend_from_slice(&BODY[..8])?;
    assert_eq!(rt; out.as_slice(), wanted.as_slice());
    Ok(())
}
