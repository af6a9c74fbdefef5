use crate::{ArpEntry, ArpTable, LearnPlan, Lesson, Next};
use lw_base::{ArpPacket, Ip, Mac};
use std::test::Fail;

const OWN: Ip = Ip(0x0a00_0001);

const HOST: Ip = Ip(0x0a00_0003);

#[test]
fn of_two_packets_the_later_goes_out_with_the_answer(rt: HostRuntime) -> Result<(), Fail> {
    let mut table: ArpTable<u32> = ArpTable::new(rt.alloc())?;
    assert_eq!(rt; table.lookup(HOST), Next::Ask(None));
    assert_eq!(rt; table.lookup(HOST), Next::Wait);
    let state = table.state_of(HOST);
    assert!(rt; matches!(state, crate::EntryState::Pending));
    assert_eq!(rt; table.hold(HOST, 1), None);
    let state = table.state_of(HOST);
    assert!(rt; matches!(state, crate::EntryState::Pending));
    assert_eq!(rt; table.hold(HOST, 2), Some(1));
    let mut gone = Vec::with_capacity(rt.alloc(), 10)?;
    let asked = table.plan_age(rt.alloc())?;
    table.age(&mut gone);
    assert_eq!(rt; (asked.len(), gone.len()), (0, 0));
    let keys = table.keys(rt.alloc())?;
    let pending = ArpEntry {
        ip: HOST,
        mac: None,
        age: 1,
        packet: Some(()),
    };
    assert_eq!(rt; keys.entries(), [pending].as_slice());
    let mac = Mac([2, 0, 0, 0, 0, 3]);
    let answer = ArpPacket {
        op: 2,
        smac: mac,
        sip: HOST,
        tmac: Mac([0; 6]),
        tip: OWN,
    };
    let plan = table.plan_learn(&answer, OWN);
    let expected = LearnPlan {
        lesson: Lesson::Update,
        answer: false,
        ip: HOST,
        mac,
    };
    assert_eq!(rt; plan, expected);
    assert!(rt; matches!(plan.lesson, Lesson::Update));
    assert_eq!(rt; table.apply(&plan), (Some(2), None));
    assert_eq!(rt; table.waiting(HOST), None);
    assert_eq!(rt; table.lookup(HOST), Next::Known(mac));
    assert_eq!(rt; table.mac_of(HOST), Some(mac));
    Ok(())
}
