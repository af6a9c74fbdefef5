use super::*;
use lw_base::IpHead;
use std::alloc::Global;
use std::test::Fail;

// RFC 1071, 3: the sum of these octets is ddf2.
const EXAMPLE: [u8; 8] = [0x00, 0x01, 0xf2, 0x03, 0xf4, 0xf5, 0xf6, 0xf7];

// Frames as they were seen: an ARP request, an echo request, a datagram. Their sums are those of
// other stacks.
const FRAMES: &str = "\
ffffffffffff020000000002080600010800060400010200000000020a0000020000000000000a000001
02000000000102000000000208004500001f00010000400166db0a0000020a0000010800216812340001616263
020000000001020000000002080045000020000140004011b778c0a80101c0a80102bf000035000c124daa0000ff
";

fn digit(code: u8) -> u8 {
    match code {
        b'0'..=b'9' => code - b'0',
        b'a'..=b'f' => code - b'a' + 10,
        _ => 0,
    }
}

fn octets(alloc: Global, line: &str) -> Result<Vec<u8>, Fail> {
    let mut octets = Vec::new(alloc);
    for pair in line.as_bytes().chunks(2) {
        if let [high, low] = pair {
            octets.push(digit(*high) << 4 | digit(*low))?;
        }
    }
    Ok(octets)
}

// The data of a packet, read and written again.
fn data_again(alloc: Global, head: &IpHead, data: &[u8]) -> Result<Vec<u8>, Fail> {
    let mut again = Vec::new(alloc);
    if head.proto == 1 {
        let (message, place) = read_icmp(data)?;
        write_icmp(&message, &data[place..], &mut again)?;
    } else {
        let (datagram, place) = read_udp(data, head.src, head.dst)?;
        let body = &data[place..];
        if usize::from(datagram.total) == 8 + body.len() {
            write_udp(&datagram, head.src, head.dst, body, &mut again)?;
        }
    }
    Ok(again)
}

// What stands behind an Ethernet head, read and written again.
fn body_again(alloc: Global, ethertype: u16, body: &[u8]) -> Result<Vec<u8>, Fail> {
    let mut again = Vec::new(alloc);
    if ethertype == 0x0806 {
        let packet = read_arp(body)?;
        write_arp(&packet, &[], &mut again)?;
    } else {
        let (head, place) = read_ip(body)?;
        let data = data_again(alloc, &head, &body[place..])?;
        if head.offset == 0 {
            again.extend_from_slice(&ip_octets(&head))?;
            again.extend_from_slice(&data)?;
        }
    }
    Ok(again)
}

#[test]
fn what_other_stacks_wrote_is_read_and_written(rt: HostRuntime) -> Result<(), Fail> {
    assert_eq!(rt; sum16(&EXAMPLE, &[]), !0xddf2);
    for line in FRAMES.lines() {
        let frame = octets(rt.alloc(), line)?;
        let (head, place) = read_eth(&frame)?;
        let body = body_again(rt.alloc(), head.ethertype, &frame[place..])?;
        let mut again = Vec::new(rt.alloc());
        write_eth(&head, &body, &mut again)?;
        assert_eq!(rt; again.as_slice(), frame.as_slice(), "{line}");
    }
    Ok(())
}
