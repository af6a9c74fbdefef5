use crate::captures::{BIG, BIG_NANO, LITTLE, LITTLE_NANO, arp_request};
use crate::narrow::NarrowSink;
use crate::program::{Failing, SURE, run, words_of};
use lw_outside::{Failed, Files, Sink, StdFiles, StdSink};
use lwip_run::lwip_plain;
use std::fs;
use std::test::Fail;

const SERIAL: &str = "serial script capture";

const SCRIPT: &[u8] = b"lwip 1
net 10.0.0.1 255.255.255.0 10.0.0.254 020000000001
limits default
";

const ARP_TRANSCRIPT: &[u8] = b"lwip 1 serial
core 1 0 frame ffffffffffff020000000002080600010800060400010200000000020a0000020000000000000a000001 -> ok
out 020000000002020000000001080600010800060400020200000000010a0000010200000000020a000002
core 2 0 stop -> ok
actor 0
call 1 feed all
@1
did fed 1
call 2 stop
@2
did ok
end core 2 out 1
";

#[test]
fn each_form_of_capture(rt: HostRuntime) -> Result<(), Fail> {
    for form in [LITTLE, LITTLE_NANO, BIG, BIG_NANO] {
        let capture = arp_request(rt.alloc(), form, 82)?;
        let ran = run(rt.alloc(), SERIAL, SCRIPT, &capture, SURE)?;
        assert_eq!(rt; ran.status, 0, "magic {:?}", form.magic);
        assert_eq!(rt; ran.out.octets(), ARP_TRANSCRIPT, "magic {:?}", form.magic);
        assert_eq!(rt; ran.err.octets(), b"".as_slice());
    }
    Ok(())
}

// Each file is found, read to its end by one call, and read once more at its end.
#[test]
fn each_find_and_read_fails(rt: HostRuntime) -> Result<(), Fail> {
    let capture = arp_request(rt.alloc(), LITTLE, 82)?;
    for files in 1..=6u64 {
        for err in 0..=1u64 {
            let failing = Failing { files, out: 0, err };
            let ran = run(rt.alloc(), SERIAL, SCRIPT, &capture, failing)?;
            assert_eq!(rt; ran.status, 5, "call {files}");
            assert_eq!(rt; ran.out.octets(), b"".as_slice());
            let told = if err == 0 {
                b"lwip: read fault\n".as_slice()
            } else {
                b"".as_slice()
            };
            assert_eq!(rt; ran.err.octets(), told);
        }
    }
    let ran = run(
        rt.alloc(),
        SERIAL,
        SCRIPT,
        &capture,
        Failing { files: 7, ..SURE },
    )?;
    assert_eq!(rt; ran.status, 0);
    Ok(())
}

// The transcript has 305 octets, which are written by pieces of 100.
#[test]
fn each_write_fails(rt: HostRuntime) -> Result<(), Fail> {
    let capture = arp_request(rt.alloc(), LITTLE, 82)?;
    for (out, count) in [(1, 0), (2, 100), (3, 200), (4, 300)] {
        let ran = run(
            rt.alloc(),
            SERIAL,
            SCRIPT,
            &capture,
            Failing { out, ..SURE },
        )?;
        assert_eq!(rt; ran.status, 6, "call {out}");
        let written = ran.out.octets();
        assert_eq!(rt; written.len(), count, "call {out}");
        assert!(rt; ARP_TRANSCRIPT.starts_with(written), "call {out}");
        assert_eq!(rt; ran.err.octets(), b"".as_slice());
    }
    Ok(())
}

#[test]
fn files_of_the_system(rt: HostRuntime) -> Result<(), Fail> {
    let capture = arp_request(rt.alloc(), BIG, 82)?;
    fs::write(&rt, "script", SCRIPT)?;
    fs::write(&rt, "capture", &capture)?;
    let mut files = StdFiles::new(&rt);
    assert_eq!(rt; files.find("elsewhere"), Err(Failed));
    assert_eq!(rt; files.find("."), Err(Failed));
    let words = words_of(rt.alloc(), SERIAL)?;
    let mut out = NarrowSink::new(rt.alloc(), 0)?;
    let mut err = NarrowSink::new(rt.alloc(), 0)?;
    let status = lwip_plain::<Vec<u8>, _, _>(
        rt.alloc(),
        (),
        &words,
        &mut files,
        &mut out,
        &mut err,
    );
    assert_eq!(rt; status, 0);
    assert_eq!(rt; out.octets(), ARP_TRANSCRIPT);
    Ok(())
}

#[test]
fn sinks_of_the_system(rt: HostRuntime) {
    for mut sink in [StdSink::output(rt.stdout()), StdSink::error(rt.stderr())] {
        assert_eq!(rt; sink.write(b""), Ok(0));
        assert_eq!(rt; sink.write(b"\n"), Ok(1));
    }
}
