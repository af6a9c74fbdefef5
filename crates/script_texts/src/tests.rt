//! Whole scripts of version 1 as scripts of version 2.
use crate::{upgrade, write_script};
use lw_scripts::{Wanted, read_script};
use std::alloc::Global;
use std::test::Fail;

/// Whether the script of version 2 for the first text is the second.
fn is_upgraded(alloc: Global, before: &str, after: &str) -> Result<bool, Fail> {
    let script = read_script(alloc, Wanted::First, before.as_bytes())?;
    let mut out = Vec::new(alloc);
    write_script(&upgrade(script), &mut out)?;
    Ok(out.as_slice() == after.as_bytes())
}

#[test]
fn sizes_are_named(rt: HostRuntime) -> Result<(), Fail> {
    let before =
        "lwip 1\nnet 10.0.0.1 255.255.255.0 10.0.0.254 020000000001\n# a comment\nlimits default\nactor srv direct\nsocket v0 udp\nsendto v0 10.0.0.2 7 x:0aff\ndriver\nfeed all\n";
    let after =
        "lwip 2\nnet 10.0.0.1 255.255.255.0 10.0.0.254 020000000001\nlimits default\nsize ram 256\nsize pool 256\nsize rom 16\nsize ref 64\nsize box 8\nsize tcpip 64\nsize fds 32\nsize window 5840\nactor srv direct\nsocket v0 udp\nsendto v0 10.0.0.2 7 x:0aff\ndriver\nfeed all\n";
    assert!(rt; is_upgraded(rt.alloc(), before, after)?);
    Ok(())
}

#[test]
fn both_sides_of_a_pair(rt: HostRuntime) -> Result<(), Fail> {
    let before =
        "lwip 1\npair\nside a\nnet 10.0.0.1 255.0.0.0 0.0.0.0 02000000000a\nlimits small\nside b\nnet 10.0.0.2 255.0.0.0 0.0.0.0 02000000000b\nlimits wide\nwire\nlose a 3\ntwice b 1\npump 20\n";
    let after =
        "lwip 2\npair\nside a\nnet 10.0.0.1 255.0.0.0 0.0.0.0 02000000000a\nlimits small\nsize ram 8\nsize pool 4\nsize rom 4\nsize ref 4\nsize box 2\nsize tcpip 4\nsize fds 8\nsize window 5840\nside b\nnet 10.0.0.2 255.0.0.0 0.0.0.0 02000000000b\nlimits wide\nsize ram 256\nsize pool 1024\nsize rom 16\nsize ref 64\nsize box 8\nsize tcpip 64\nsize fds 32\nsize window 1048576\nwire\nlose a 3\ntwice b 1\npump 20\n";
    assert!(rt; is_upgraded(rt.alloc(), before, after)?);
    Ok(())
}
