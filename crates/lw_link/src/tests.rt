use crate::{Body, LinkPlan, carry_out, sent_head};
use lw_arp::ArpTable;
use lw_base::{ArpPacket, Ip, Mac};
use lw_netif::Netif;
use std::test::Fail;

const OWN: Ip = Ip(0x0a00_0001);

const HOST: Ip = Ip(0x0a00_0002);

const OWN_MAC: Mac = Mac([2, 0, 0, 0, 0, 1]);

const HOST_MAC: Mac = Mac([2, 0, 0, 0, 0, 2]);

const FRONT: [u8; 8] = [0, 0, 1, 2, 3, 4, 5, 6];

// An echo of four octets behind the heads of Ethernet and IPv4, with the sum of RFC 791.
const ECHO: [u8; 46] = [
    2, 0, 0, 0, 0, 2, 2, 0, 0, 0, 0, 1, 8, 0, // Ethernet
    0x45, 0, 0, 32, 0, 7, 0, 0, 255, 1, 0xa7, 0xd3, 10, 0, 0, 1, 10, 0, 0, 2, // IPv4
    0, 0, 1, 2, 3, 4, 5, 6, 97, 98, 99, 100,
];

fn interface() -> Netif {
    Netif::new(OWN, Ip(0xffff_ff00), Ip(0), OWN_MAC)
}

#[test]
fn a_datagram_asks_and_waits(rt: HostRuntime) -> Result<(), Fail> {
    let netif = interface();
    let mut table: ArpTable<Vec<u8>> = ArpTable::new(rt.alloc())?;
    let head = sent_head(netif.net(), 1, HOST);
    let mut plan = LinkPlan::new(rt.alloc(), 7);
    plan.emit(
        rt.alloc(),
        &netif,
        &table,
        true,
        &head,
        &Body::new(&FRONT, b"abcd"),
    )?;
    assert_eq!(rt; (plan.frames.len(), plan.next_id), (1, 8));
    let (hop, packet) = plan.waits.ok_or("nothing waits")?;
    assert_eq!(rt; hop, HOST);
    assert_eq!(rt; packet.as_slice(), &ECHO[14..]);
    carry_out(&plan.asked, None, &mut table, &mut ());
    assert_eq!(rt; table.entries().len(), 1);
    Ok(())
}

#[test]
fn a_known_neighbour_gets_frames(rt: HostRuntime) -> Result<(), Fail> {
    let netif = interface();
    let mut table: ArpTable<u32> = ArpTable::new(rt.alloc())?;
    let request = ArpPacket {
        op: 1,
        smac: HOST_MAC,
        sip: HOST,
        tmac: Mac([0; 6]),
        tip: OWN,
    };
    let learn = table.plan_learn(&request, OWN);
    table.apply(&learn);
    let mut plan = LinkPlan::new(rt.alloc(), 7);
    plan.answer(rt.alloc(), &netif, &request)?;
    let head = sent_head(netif.net(), 1, HOST);
    plan.emit(
        rt.alloc(),
        &netif,
        &table,
        true,
        &head,
        &Body::new(&FRONT, b"abcd"),
    )?;
    plan.emit(
        rt.alloc(),
        &netif,
        &table,
        true,
        &head,
        &Body::new(&FRONT, &[1; 3000]),
    )?;
    let lens: Vec<usize> = plan
        .frames
        .iter()
        .map(|frame| frame.len())
        .collect(rt.alloc())?;
    assert_eq!(rt; lens.as_slice(), [42, 46, 1514, 1514, 82].as_slice());
    assert_eq!(rt; plan.frames[1].as_slice(), ECHO.as_slice());
    Ok(())
}
