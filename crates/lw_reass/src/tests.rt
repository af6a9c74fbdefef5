//! Fragments of one datagram out of their order, one of them twice, and the age of another.
ghost use Rattle.std.specs.Prelude.{◌^◌, ◌<◌, length};

use crate::{FragmentPlan, Outcome, Reass, Why};
use lw_base::{Ip, IpHead, Octets};
use std::alloc::Global;
use std::test::Fail;

fn head(id: u16, offset: u32, mf: bool) -> IpHead {
    IpHead {
        head_len: 20,
        tos: 0,
        total: 0,
        id,
        df: false,
        mf,
        offset,
        ttl: 64,
        proto: 17,
        src: Ip(0x0a00_0001),
        dst: Ip(0x0a00_0002),
    }
}

#[derive(Drop)]
enum Came {
    Whole(IpHead, Octets, Vec<u8>),
    Kept,
    Dropped(Why),
}

fn add(alloc: Global, table: &mut Reass<Vec<u8>>, h: &IpHead, octets: &[u8]) -> Result<Came, Fail>
    requires { length octets.now < 2 ^ 32 }
{
    let mut body = Vec::from_slice(alloc, octets)?;
    let plan = table.plan(h, octets.len() as u32);
    let mut told = Octets::from_vec(Vec::new(alloc));
    if let FragmentPlan::Complete(_, _) = plan {
        told = table.whole_octets(alloc, &plan, h, octets)?;
    }
    table.ready(&plan, &mut body)?;
    Ok(match table.add(plan, h, body) {
        Outcome::Whole(h, p) => Came::Whole(h, told, p),
        Outcome::Kept => Came::Kept,
        Outcome::Dropped(why, _) => Came::Dropped(why),
    })
}

#[test]
fn fragments_out_of_order_make_a_whole(rt: HostRuntime) -> Result<(), Fail> {
    let mut table = Reass::new(rt.alloc())?;
    let third = add(rt.alloc(), &mut table, &head(7, 16, false), b"qrstuvwxyzAB")?;
    assert!(rt; matches!(&third, Came::Kept));
    let first = add(rt.alloc(), &mut table, &head(7, 0, true), b"abcdefgh")?;
    assert!(rt; matches!(&first, Came::Kept));
    let repeat = add(rt.alloc(), &mut table, &head(7, 0, true), b"abcdefgh")?;
    assert!(rt; matches!(&repeat, Came::Dropped(Why::Overlap)));
    let other = add(rt.alloc(), &mut table, &head(8, 0, true), b"abcdefgh")?;
    assert!(rt; matches!(&other, Came::Kept));
    let second = add(rt.alloc(), &mut table, &head(7, 8, true), b"ijklmnop")?;
    let Came::Whole(h, told, octets) = second else {
        panic!(rt; "not whole")
    };
    assert_eq!(rt; h, head(7, 0, true));
    assert_eq!(rt; told.as_slice(), octets.as_slice());
    assert_eq!(rt;
        octets.as_slice(),
        b"abcdefghijklmnopqrstuvwxyzAB".as_slice()
    );
    let mut gone = Vec::new(rt.alloc());
    for _ in 0..60 {
        assert_eq!(rt; table.kept(), 1);
        gone.reserve(table.kept() as usize)?;
        table.age(&mut gone);
    }
    assert_eq!(rt; (table.kept(), gone.len()), (0, 1));
    Ok(())
}
