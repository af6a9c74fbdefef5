//! A script as its lines, each ended by one line feed.
ghost use Rattle.std.specs.Prelude.{◌≡◌, ◌<◌, [], ◌∷◌, ◌++◌, OnOk, codes, decimal, map};
ghost use Rattle.std.specs.List.{flat_map};
ghost use Rattle.script_words.specs.Values.{hex_digit, hex_octet, ip_spelling, mac_spelling, side_word};
ghost use Rattle.lw_scripts.specs.declared.part.Part.{Part};
ghost use Rattle.lw_scripts.specs.Spelling.{change_word, size_word, way_word};
ghost use Rattle.lw_scripts.specs.Whole.{actor_parts, body_parts, call_parts, driver_parts, size_part, size_parts, stack_parts, wire_parts};
ghost use Rattle.script_texts.specs.Texts.{actors_text, part_text, parts_text, script_text};

use call_types::{Call, Side};
use itoa::Buffer;
use lw_base::{Ip, Mac, Net, NoMemory};
use lw_scripts::{
    ActorScript, Body, CallList, Change, Fault, Pair, Profile, Script, Single, SizeName, Sizes,
    Stack, Way,
};
use script_words::{Version, write_call};

// Appends a number.
fn put_number(out: &mut Vec<u8>, number: u32) -> Result<(), NoMemory>
    ensures { OnOk result (out.new.items ≡ out.old.items ++ decimal number) }
{
    let mut buffer = Buffer::new();
    out.extend_from_slice(buffer.format(number).as_bytes())?;
    Ok(())
}

// Appends a space and a word.
fn put_word(out: &mut Vec<u8>, word: &[u8]) -> Result<(), NoMemory>
    ensures { OnOk result (out.new.items ≡ out.old.items ++ 32 ∷ word.now) }
{
    out.push(b' ')?;
    out.extend_from_slice(word)?;
    Ok(())
}

// Appends a space and an address.
fn put_ip(out: &mut Vec<u8>, ip: Ip) -> Result<(), NoMemory>
    ensures { OnOk result (out.new.items ≡ out.old.items ++ 32 ∷ ip_spelling ip) }
{
    let [first, second, third, fourth] = ip.0.to_be_bytes();
    out.push(b' ')?;
    put_number(out, u32::from(first))?;
    put_octet(out, second)?;
    put_octet(out, third)?;
    put_octet(out, fourth)
}

// Appends a dot and a number.
fn put_octet(out: &mut Vec<u8>, octet: u8) -> Result<(), NoMemory>
    ensures { OnOk result (out.new.items ≡ out.old.items ++ codes "." ++ decimal octet) }
{
    out.push(b'.')?;
    put_number(out, u32::from(octet))
}

// A hexadecimal digit, in lower case.
fn hex_digit(value: u8) -> u8
    requires { value < 16 }
    ensures { result ≡ hex_digit value }
{
    if value < 10 {
        b'0' + value
    } else {
        b'a' - 10 + value
    }
}

// Appends octets as two hexadecimal digits each.
fn put_hex(out: &mut Vec<u8>, octets: &[u8]) -> Result<(), NoMemory>
    ensures { OnOk result (out.new.items ≡ out.old.items ++ flat_map hex_octet octets.now) }
{
    for octet in octets {
        out.push(hex_digit(*octet / 16))?;
        out.push(hex_digit(*octet % 16))?;
    }
    Ok(())
}

// Appends a space and a hardware address.
fn put_mac(out: &mut Vec<u8>, mac: Mac) -> Result<(), NoMemory>
    ensures { OnOk result (out.new.items ≡ out.old.items ++ 32 ∷ mac_spelling mac) }
{
    out.push(b' ')?;
    put_hex(out, &mac.0)?;
    Ok(())
}

// Appends a line that is one text.
fn put_line(out: &mut Vec<u8>, line: &str) -> Result<(), NoMemory>
    ensures { OnOk result (out.new.items ≡ out.old.items ++ (line.now ++ 10 ∷ [])) }
{
    out.extend_from_slice(line.as_bytes())?;
    out.push(b'\n')?;
    Ok(())
}

// The head line's text.
fn head_line(version: Version) -> &'static str
    ensures { result.now ++ 10 ∷ [] ≡ part_text (Part.Head version) }
{
    match version {
        Version::One => "lwip 1",
        Version::Two => "lwip 2",
    }
}

// The line of a profile.
fn limits_line(profile: Profile) -> &'static str
    ensures { result.now ++ 10 ∷ [] ≡ part_text (Part.Limits profile) }
{
    match profile {
        Profile::Default => "limits default",
        Profile::Small => "limits small",
        Profile::Wide => "limits wide",
    }
}

// The line that begins a side.
fn side_line(side: Side) -> &'static str
    ensures { result.now ++ 10 ∷ [] ≡ part_text (Part.Side side) }
{
    match side {
        Side::A => "side a",
        Side::B => "side b",
    }
}

// The word of a size.
fn size_word(name: SizeName) -> &'static str
    ensures { result.now ≡ size_word name }
{
    match name {
        SizeName::Ram => "ram",
        SizeName::Pool => "pool",
        SizeName::Rom => "rom",
        SizeName::Reference => "ref",
        SizeName::Mailbox => "box",
        SizeName::Tcpip => "tcpip",
        SizeName::Descriptors => "fds",
        SizeName::Window => "window",
    }
}

// The word for how an actor's calls reach the core.
fn way_word(way: Way) -> &'static str
    ensures { result.now ≡ way_word way }
{
    match way {
        Way::Direct => "direct",
        Way::Message => "message",
    }
}

// The word for what becomes of a frame.
fn change_word(change: Change) -> &'static str
    ensures { result.now ≡ change_word change }
{
    match change {
        Change::Lose => "lose",
        Change::Twice => "twice",
    }
}

// The word of a side.
fn side_word(side: Side) -> &'static str
    ensures { result.now ≡ side_word side }
{
    match side {
        Side::A => "a",
        Side::B => "b",
    }
}

// Appends the line of a stack's addresses.
#[tactic(auto, using(crate::proofs::TextLaws::net_whole))]
fn put_net(out: &mut Vec<u8>, net: &Net) -> Result<(), NoMemory>
    ensures { OnOk result (out.new.items ≡ out.old.items ++ part_text (Part.Net net.now)) }
{
    out.extend_from_slice(b"net")?;
    put_ip(out, net.ip)?;
    put_ip(out, net.mask)?;
    put_ip(out, net.gateway)?;
    put_mac(out, net.mac)?;
    out.push(b'\n')?;
    Ok(())
}

// Appends the head line.
fn put_head(out: &mut Vec<u8>, version: Version) -> Result<(), NoMemory>
    ensures { OnOk result (out.new.items ≡ out.old.items ++ part_text (Part.Head version)) }
{
    put_line(out, head_line(version))
}

// Appends the line of a profile.
fn put_limits(out: &mut Vec<u8>, profile: Profile) -> Result<(), NoMemory>
    ensures { OnOk result (out.new.items ≡ out.old.items ++ part_text (Part.Limits profile)) }
{
    put_line(out, limits_line(profile))
}

// Appends the line that begins a side.
fn put_side(out: &mut Vec<u8>, side: Side) -> Result<(), NoMemory>
    ensures { OnOk result (out.new.items ≡ out.old.items ++ part_text (Part.Side side)) }
{
    put_line(out, side_line(side))
}

// Appends the line of a size, where there is one.
fn put_size(out: &mut Vec<u8>, name: SizeName, size: Option<u32>) -> Result<(), NoMemory>
    ensures { OnOk result (out.new.items ≡ out.old.items ++ parts_text (size_part name size)) }
{
    let Some(size) = size else {
        return Ok(());
    };
    out.extend_from_slice(b"size")?;
    put_word(out, size_word(name).as_bytes())?;
    out.push(b' ')?;
    put_number(out, size)?;
    out.push(b'\n')?;
    Ok(())
}

// Appends the lines of sizes, in their order.
#[tactic(auto, using(crate::proofs::TextLaws::sizes_whole))]
fn put_sizes(out: &mut Vec<u8>, sizes: &Sizes) -> Result<(), NoMemory>
    ensures { OnOk result (out.new.items ≡ out.old.items ++ parts_text (size_parts sizes.now)) }
{
    put_size(out, SizeName::Ram, sizes.ram)?;
    put_size(out, SizeName::Pool, sizes.pool)?;
    put_size(out, SizeName::Rom, sizes.rom)?;
    put_size(out, SizeName::Reference, sizes.reference)?;
    put_size(out, SizeName::Mailbox, sizes.mailbox)?;
    put_size(out, SizeName::Tcpip, sizes.tcpip)?;
    put_size(out, SizeName::Descriptors, sizes.descriptors)?;
    put_size(out, SizeName::Window, sizes.window)?;
    Ok(())
}

// Appends calls, each a line.
fn put_calls(out: &mut Vec<u8>, calls: &[Call]) -> Result<(), NoMemory>
    ensures { OnOk result (out.new.items ≡ out.old.items ++ parts_text (call_parts calls.now)) }
{
    for call in calls {
        write_call(call, out)?;
        out.push(b'\n')?;
    }
    Ok(())
}

// Appends the line that begins an actor.
fn put_name(out: &mut Vec<u8>, name: &[u8], way: Way) -> Result<(), NoMemory>
    ensures { OnOk result (out.new.items ≡ out.old.items ++ part_text (Part.Actor name.now way)) }
{
    out.extend_from_slice(b"actor")?;
    put_word(out, name)?;
    put_word(out, way_word(way).as_bytes())?;
    out.push(b'\n')?;
    Ok(())
}

// Appends an actor: its name, then its calls.
#[tactic(auto, using(crate::proofs::TextLaws::led))]
fn put_actor(out: &mut Vec<u8>, actor: &ActorScript) -> Result<(), NoMemory>
    ensures { OnOk result (out.new.items ≡ out.old.items ++ parts_text (actor_parts actor.now)) }
{
    put_name(out, actor.name.as_slice(), actor.way)?;
    put_calls(out, actor.calls.as_slice())?;
    Ok(())
}

// Appends actors.
fn put_actors(out: &mut Vec<u8>, actors: &[ActorScript]) -> Result<(), NoMemory>
    ensures { OnOk result (out.new.items ≡ out.old.items ++ actors_text actors.now) }
{
    for actor in actors {
        put_actor(out, actor)?;
    }
    Ok(())
}

// Appends a stack: where it stands, its sizes, then its actors.
#[tactic(auto, using(crate::proofs::TextLaws::stack_whole))]
fn put_stack(out: &mut Vec<u8>, stack: &Stack) -> Result<(), NoMemory>
    ensures { OnOk result (out.new.items ≡ out.old.items ++ parts_text (stack_parts stack.now)) }
{
    put_net(out, &stack.net)?;
    put_limits(out, stack.profile)?;
    put_sizes(out, &stack.sizes)?;
    put_actors(out, stack.actors.as_slice())?;
    Ok(())
}

// Appends the driver's part, where there is one.
#[tactic(auto, using(crate::proofs::TextLaws::led))]
fn put_driver(out: &mut Vec<u8>, driver: &Option<CallList>) -> Result<(), NoMemory>
    ensures { OnOk result (out.new.items ≡ out.old.items ++ parts_text (driver_parts driver.now)) }
{
    match driver {
        Some(commands) => {
            put_line(out, "driver")?;
            put_calls(out, commands.as_slice())?;
            Ok(())
        }
        None => Ok(()),
    }
}

// Appends the line of a frame that isn't passed on once.
fn put_fault(out: &mut Vec<u8>, fault: &Fault) -> Result<(), NoMemory>
    ensures { OnOk result (out.new.items ≡ out.old.items ++ part_text (Part.Fault fault.now)) }
{
    out.extend_from_slice(change_word(fault.change).as_bytes())?;
    put_word(out, side_word(fault.side).as_bytes())?;
    out.push(b' ')?;
    put_number(out, fault.frame)?;
    out.push(b'\n')?;
    Ok(())
}

// Appends the lines of such frames.
fn put_faults(out: &mut Vec<u8>, faults: &[Fault]) -> Result<(), NoMemory>
    ensures { OnOk result (out.new.items ≡ out.old.items ++ parts_text (map Part.Fault faults.now)) }
{
    for fault in faults {
        put_fault(out, fault)?;
    }
    Ok(())
}

// Appends one stack and its driver.
#[tactic(auto, using(crate::proofs::TextLaws::joined))]
fn put_single(out: &mut Vec<u8>, one: &Single) -> Result<(), NoMemory>
    ensures { OnOk result (out.new.items ≡ out.old.items ++ parts_text (body_parts (Body.One one.now))) }
{
    put_stack(out, &one.stack)?;
    put_driver(out, &one.driver)?;
    Ok(())
}

// Appends the wire's part: the frames that aren't passed on once, then the commands.
#[tactic(auto, using(crate::proofs::TextLaws::wire_whole))]
fn put_wire(out: &mut Vec<u8>, two: &Pair) -> Result<(), NoMemory>
    ensures { OnOk result (out.new.items ≡ out.old.items ++ parts_text (wire_parts two.now.faults two.now.commands)) }
{
    put_line(out, "wire")?;
    put_faults(out, two.faults.as_slice())?;
    put_calls(out, two.commands.as_slice())?;
    Ok(())
}

// Appends two stacks and the wire between them.
fn put_pair(out: &mut Vec<u8>, two: &Pair) -> Result<(), NoMemory>
    ensures { OnOk result (out.new.items ≡ out.old.items ++ parts_text (body_parts (Body.Two two.now))) }
{
    put_line(out, "pair")?;
    put_side(out, Side::A)?;
    put_stack(out, &two.a)?;
    put_side(out, Side::B)?;
    put_stack(out, &two.b)?;
    put_wire(out, two)?;
    Ok(())
}

// Appends what stands behind the head line.
fn put_body(out: &mut Vec<u8>, body: &Body) -> Result<(), NoMemory>
    ensures { OnOk result (out.new.items ≡ out.old.items ++ parts_text (body_parts body.now)) }
{
    match body {
        Body::One(one) => put_single(out, one),
        Body::Two(two) => put_pair(out, two),
    }
}

/// Appends the lines of a script, each ended by one line feed.
#[tactic(auto, using(crate::proofs::TextLaws::led))]
pub fn write_script(script: &Script, out: &mut Vec<u8>) -> Result<(), NoMemory>
    ensures { OnOk result (out.new.items ≡ out.old.items ++ script_text script.now) }
{
    put_head(out, script.version)?;
    put_body(out, &script.body)?;
    Ok(())
}
