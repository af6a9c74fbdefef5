//! The text of a call.
ghost use Rattle.std.specs.Prelude.{◌≡◌, [], ◌∷◌, ◌++◌, OnOk, codes, decimal, map};
ghost use Rattle.hex.specs.Hex.{encode_lower};
ghost use Rattle.script_words.specs.Spelling.{by, call_spelling};
ghost use Rattle.script_words.specs.Values.{amount_word, bool_word, data_words, ip_spelling, item_word, limit_word, proto_word, side_word, signal_word, var_word};
ghost use Rattle.script_words.specs.Writing.{arguments_of, name_of, onto};

use call_types::{Call, Data, Interface, SelectItem, Side, Test};
use itoa::Buffer;
use lw_base::{Ip, NoMemory, Port};
use lw_events::{Proto, Which};

// Appends a space and a word.
fn put_word(out: &mut Vec<u8>, word: &[u8]) -> Result<(), NoMemory>
    ensures { OnOk result (out.new.items ≡ out.old.items ++ 32 ∷ word.now) }
{
    out.push(b' ')?;
    out.extend_from_slice(word)?;
    Ok(())
}

// Appends a space and a number.
fn put_number(out: &mut Vec<u8>, number: u32) -> Result<(), NoMemory>
    ensures { OnOk result (out.new.items ≡ out.old.items ++ 32 ∷ decimal number) }
{
    let mut buffer = Buffer::new();
    put_word(out, buffer.format(number).as_bytes())
}

// Appends a space and a number behind a letter.
fn put_numbered(out: &mut Vec<u8>, letter: u8, number: u32) -> Result<(), NoMemory>
    ensures { OnOk result (out.new.items ≡ out.old.items ++ 32 ∷ letter ∷ decimal number) }
{
    out.push(b' ')?;
    out.push(letter)?;
    let mut buffer = Buffer::new();
    out.extend_from_slice(buffer.format(number).as_bytes())?;
    Ok(())
}

// Appends a space and an address.
fn put_ip(out: &mut Vec<u8>, ip: Ip) -> Result<(), NoMemory>
    ensures { OnOk result (out.new.items ≡ out.old.items ++ 32 ∷ ip_spelling ip) }
{
    let [first, second, third, fourth] = ip.0.to_be_bytes();
    put_number(out, u32::from(first))?;
    put_part(out, second)?;
    put_part(out, third)?;
    put_part(out, fourth)
}

// Appends a dot and a number.
fn put_part(out: &mut Vec<u8>, part: u8) -> Result<(), NoMemory>
    ensures { OnOk result (out.new.items ≡ out.old.items ++ codes "." ++ decimal part) }
{
    out.push(b'.')?;
    let mut buffer = Buffer::new();
    out.extend_from_slice(buffer.format(part).as_bytes())?;
    Ok(())
}

// A call's name by its interface.
fn by(interface: Interface, socket: &'static str, netconn: &'static str) -> &'static str
    ensures { result.now ≡ by interface socket.now netconn.now }
{
    match interface {
        Interface::Socket => socket,
        Interface::Netconn => netconn,
    }
}

// A call's name.
fn name_of(call: &Call) -> &'static str
    ensures { result.now ≡ name_of call.now }
{
    match call {
        Call::New(interface, _, _) => by(*interface, "socket", "nnew"),
        Call::Bind(interface, _, _, _) => by(*interface, "bind", "nbind"),
        Call::Connect(interface, _, _, _) => by(*interface, "connect", "nconnect"),
        Call::Listen(interface, _) => by(*interface, "listen", "nlisten"),
        Call::Accept(interface, _, _) => by(*interface, "accept", "naccept"),
        Call::Send(interface, _, _) => by(*interface, "send", "nwrite"),
        Call::SendTo(interface, _, _, _, _) => by(*interface, "sendto", "nsend"),
        Call::Recv(_, _) => "recv",
        Call::RecvAll(_, _) => "recvall",
        Call::RecvFrom(_, _) => "recvfrom",
        Call::RecvItem(_) => "nrecv",
        Call::TryItem(_) => "ntry",
        Call::Shutdown(interface, _) => by(*interface, "shutdown", "nshutdown"),
        Call::Close(interface, _) => by(*interface, "close", "nclose"),
        Call::NonBlock(_, _) => "nonblock",
        Call::NoDelay(_, _) => "nodelay",
        Call::Timeout(_, _) => "timeout",
        Call::GetAddr(_, Which::Local) => "local",
        Call::GetAddr(_, Which::Remote) => "remote",
        Call::Select(_, _) => "select",
        Call::Signal(_) => "signal",
        Call::Await(_, _) | Call::AwaitSide(_, _, _) => "await",
        Call::Feed(_) => "feed",
        Call::Burst(_) => "burst",
        Call::Tick(_) => "tick",
        Call::Stop => "stop",
        Call::Pump(_) => "pump",
        Call::Until(_, _, _) => "until",
    }
}

fn put_var(out: &mut Vec<u8>, var: u32) -> Result<(), NoMemory>
    ensures { OnOk result (out.new.items ≡ out.old.items ++ 32 ∷ var_word var) }
{
    put_numbered(out, b'v', var)
}

fn put_proto(out: &mut Vec<u8>, proto: Proto) -> Result<(), NoMemory>
    ensures { OnOk result (out.new.items ≡ out.old.items ++ 32 ∷ proto_word proto) }
{
    match proto {
        Proto::Tcp => put_word(out, b"tcp"),
        Proto::Udp => put_word(out, b"udp"),
    }
}

fn put_setting(out: &mut Vec<u8>, on: bool) -> Result<(), NoMemory>
    ensures { OnOk result (out.new.items ≡ out.old.items ++ 32 ∷ bool_word on) }
{
    if on {
        put_word(out, b"1")
    } else {
        put_word(out, b"0")
    }
}

fn put_limit(out: &mut Vec<u8>, limit: Option<u32>) -> Result<(), NoMemory>
    ensures { OnOk result (out.new.items ≡ out.old.items ++ 32 ∷ limit_word limit) }
{
    match limit {
        Some(ticks) => put_number(out, ticks),
        None => put_word(out, b"inf"),
    }
}

fn put_amount(out: &mut Vec<u8>, amount: Option<u32>) -> Result<(), NoMemory>
    ensures { OnOk result (out.new.items ≡ out.old.items ++ 32 ∷ amount_word amount) }
{
    match amount {
        Some(frames) => put_number(out, frames),
        None => put_word(out, b"all"),
    }
}

fn put_item(out: &mut Vec<u8>, item: SelectItem) -> Result<(), NoMemory>
    ensures { OnOk result (out.new.items ≡ out.old.items ++ 32 ∷ item_word item) }
{
    match item.test {
        Test::Readable => put_numbered(out, b'r', item.var),
        Test::Writable => put_numbered(out, b'w', item.var),
        Test::Except => put_numbered(out, b'e', item.var),
    }
}

#[tactic(auto, using(crate::proofs::ItemLaws::onto_more, crate::proofs::ItemLaws::onto_all))]
fn put_items(out: &mut Vec<u8>, items: &[SelectItem]) -> Result<(), NoMemory>
    ensures { OnOk result (out.new.items ≡ onto out.old.items (map item_word items.now)) }
{
    for item in items {
        put_item(out, *item)?;
    }
    Ok(())
}

fn put_end(out: &mut Vec<u8>, var: u32, ip: Ip, port: Port) -> Result<(), NoMemory>
    ensures { OnOk result (out.new.items ≡ onto out.old.items (var_word var ∷ ip_spelling ip ∷ decimal port.0 ∷ [])) }
{
    put_var(out, var)?;
    put_ip(out, ip)?;
    put_number(out, u32::from(port.0))
}

fn put_octets(out: &mut Vec<u8>, octets: &[u8]) -> Result<(), NoMemory>
    ensures { OnOk result (out.new.items ≡ out.old.items ++ 32 ∷ (codes "x:" ++ encode_lower octets.now)) }
{
    let digits = hex::encode(*out.allocator(), octets)?;
    out.extend_from_slice(b" x:")?;
    out.extend_from_slice(digits.as_bytes())?;
    Ok(())
}

fn put_data(out: &mut Vec<u8>, contents: &Data) -> Result<(), NoMemory>
    ensures { OnOk result (out.new.items ≡ onto out.old.items (data_words contents.now)) }
{
    match contents {
        Data::Spelled(octets) => put_octets(out, octets.as_slice()),
        Data::Fill { count, first } => {
            put_word(out, b"fill")?;
            put_number(out, *count)?;
            put_number(out, u32::from(*first))
        }
    }
}

fn put_side_signal(out: &mut Vec<u8>, side: Side, signal: u32, count: u32) -> Result<(), NoMemory>
    ensures { OnOk result (out.new.items ≡ onto out.old.items (side_word side ∷ signal_word signal ∷ decimal count ∷ [])) }
{
    match side {
        Side::A => put_word(out, b"a")?,
        Side::B => put_word(out, b"b")?,
    }
    put_numbered(out, b's', signal)?;
    put_number(out, count)
}

// Appends the words behind a call's name.
fn put_arguments(out: &mut Vec<u8>, call: &Call) -> Result<(), NoMemory>
    ensures { OnOk result (out.new.items ≡ onto out.old.items (arguments_of call.now)) }
{
    match call {
        Call::New(_, var, proto) => {
            put_var(out, *var)?;
            put_proto(out, *proto)
        }
        Call::Bind(_, var, ip, port) | Call::Connect(_, var, ip, port) => {
            put_end(out, *var, *ip, *port)
        }
        Call::Listen(_, var)
        | Call::Shutdown(_, var)
        | Call::Close(_, var)
        | Call::RecvItem(var)
        | Call::TryItem(var)
        | Call::GetAddr(var, _) => put_var(out, *var),
        Call::Accept(_, var, fresh) => {
            put_var(out, *var)?;
            put_var(out, *fresh)
        }
        Call::Send(_, var, contents) => {
            put_var(out, *var)?;
            put_data(out, contents)
        }
        Call::SendTo(_, var, ip, port, contents) => {
            put_end(out, *var, *ip, *port)?;
            put_data(out, contents)
        }
        Call::Recv(var, number)
        | Call::RecvAll(var, number)
        | Call::RecvFrom(var, number)
        | Call::Timeout(var, number) => {
            put_var(out, *var)?;
            put_number(out, *number)
        }
        Call::NonBlock(var, on) | Call::NoDelay(var, on) => {
            put_var(out, *var)?;
            put_setting(out, *on)
        }
        Call::Select(limit, items) => {
            put_limit(out, *limit)?;
            put_items(out, items.as_slice())
        }
        Call::Signal(signal) => put_numbered(out, b's', *signal),
        Call::Await(signal, count) => {
            put_numbered(out, b's', *signal)?;
            put_number(out, *count)
        }
        Call::Feed(amount) => put_amount(out, *amount),
        Call::Burst(count) | Call::Tick(count) | Call::Pump(count) => put_number(out, *count),
        Call::Stop => Ok(()),
        Call::AwaitSide(side, signal, count) | Call::Until(side, signal, count) => {
            put_side_signal(out, *side, *signal, *count)
        }
    }
}

// Appends a call's name.
fn put_name(out: &mut Vec<u8>, call: &Call) -> Result<(), NoMemory>
    ensures { OnOk result (out.new.items ≡ out.old.items ++ name_of call.now) }
{
    out.extend_from_slice(name_of(call).as_bytes())?;
    Ok(())
}

/// Appends a call's text, as a script and a transcript have it.
#[tactic(auto, using(crate::proofs::WriteLaws::whole_call))]
pub fn write_call(call: &Call, out: &mut Vec<u8>) -> Result<(), NoMemory>
    ensures { OnOk result (out.new.items ≡ out.old.items ++ call_spelling call.now) }
{
    put_name(out, call)?;
    put_arguments(out, call)
}
