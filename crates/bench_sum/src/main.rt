//! Times the internet checksum of bodies of one length. The words are the length and how many bodies; it prints nanoseconds, and the sums added up.
//! Without words it sums the example of RFC 1071, and prints `ok` where its checksum is the right one.
#![tactic(auto)]

ghost use Rattle.std.specs.Prelude.{◌+◌, ◌≤◌, length};

use lw_wire::sum16;
use std::rt::Clock;
use std::time::Instant;
use std::{env, io};

// The octets of RFC 1071, 3, and their checksum.
const EXAMPLE: [u8; 8] = [0x00, 0x01, 0xf2, 0x03, 0xf4, 0xf5, 0xf6, 0xf7];

const EXAMPLE_SUM: u16 = 0x220d;

// So many octets stand behind the first body: each body begins one further, and the ninth where the first did.
const STARTS: usize = 8;

/// The sums of so many bodies, added up.
fn sum_bodies(octets: &[u8], len: usize, bodies: u32) -> u32
    requires { len + 8 ≤ length octets.now }
{
    let mut total = 0u32;
    for index in 0..bodies {
        let (_, from) = octets.split_at(index as usize % STARTS);
        let (body, _) = from.split_at(len);
        total = total.wrapping_add(u32::from(sum16(body, &[])));
    }
    total
}

/// The nanoseconds that the sums took, and the sums added up.
fn time_sums<R: Clock>(rt: &R, octets: &[u8], len: usize, bodies: u32) -> io::Result<(u128, u32)>
    requires { len + 8 ≤ length octets.now }
{
    let start = Instant::now(rt)?;
    let total = sum_bodies(octets, len, bodies);
    Ok((start.elapsed(rt)?.as_nanos(), total))
}

fn main(rt: HostRuntime) -> io::Result<()> {
    let words: Vec<String> = env::args(&rt)?.collect(rt.alloc())?;
    match words.as_slice() {
        [_, len, bodies] => match (len.as_str().parse::<u16>(), bodies.as_str().parse::<u32>()) {
            (Ok(len), Ok(bodies)) => {
                let len = usize::from(len);
                let octets = Vec::from_elem(rt.alloc(), 0xa5u8, len + STARTS)?;
                let (nanos, total) = time_sums(&rt, &octets, len, bodies)?;
                println!(rt; "{nanos} {total}")
            }
            _ => println!(rt; "two numbers, the first up to 65535"),
        },
        _ => {
            let said = if sum16(&EXAMPLE, &[]) == EXAMPLE_SUM {
                "ok"
            } else {
                "wrong"
            };
            println!(rt; "{said}")
        }
    }
}
