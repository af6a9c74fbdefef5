//! The calls of actors.
ghost use Rattle.std.specs.Prelude.{◌≡◌, ◌≢◌, ℕ, ◌<◌, ◌≤◌, ◌^◌, ◌⊎◌, List, [], ◌∷◌, MatchOption, IfOk, decimal};
ghost use Rattle.lw_base.specs.declared.addresses.Ip.{Ip};
ghost use Rattle.lw_base.specs.declared.addresses.Port.{Port};
ghost use Rattle.call_types.specs.declared.call.Call.{Call};
ghost use Rattle.call_types.specs.declared.call.Interface.{Interface};
ghost use Rattle.script_words.specs.Calls.{IsActorCall, IsCount, IsEnd, variables_of};
ghost use Rattle.script_words.specs.Groups.{LacksAccept, LacksAwait, LacksCount, LacksEnd, LacksLong, LacksNew, LacksSelect, LacksSend, LacksSendTo, LacksSetting, LacksShort, LacksSignal, LacksSingle};
ghost use Rattle.script_words.specs.Spelling.{by, call_spelling, call_words};
ghost use Rattle.script_words.specs.Values.{ip_spelling, var_word};
ghost use Rattle.script_words.specs.Words.{left};

use crate::Version;
use crate::words::{Words, is_text};
use call_types::{Call, Interface};
use lw_base::{Ip, NoMemory, Port};
use lw_events::Which;
use std::alloc::Global;

// The interface whose name for a call this is.
fn interface_of(name: &[u8], socket: &str, netconn: &str) -> Option<Interface>
    ensures { MatchOption result ((i : Interface) → name.now ≢ by i socket.now netconn.now) (λ i. name.now ≡ by i socket.now netconn.now) }
{
    if is_text(name, socket) {
        Some(Interface::Socket)
    } else if is_text(name, netconn) {
        Some(Interface::Netconn)
    } else {
        None
    }
}

// A new connection: the name, a variable and a transport.
fn parse_new(name: &[u8], words: Words, version: Version) -> Option<Call>
    ensures { MatchOption result (LacksNew version (name.now ∷ left words.entry)) (λ call. IsActorCall version call × (name.now ∷ left words.entry ≡ call_words call)) }
{
    let interface = interface_of(name, "socket", "nnew")?;
    let (var, words) = words.var(version)?;
    let (proto, words) = words.proto()?;
    words.is_empty().then_some(Call::New(interface, var, proto))
}

// A variable alone.
fn parse_var(words: Words, version: Version) -> Option<u32>
    ensures { MatchOption result ((v : ℕ) → v < variables_of version → left words.entry ≢ var_word v ∷ []) (λ v. (v < variables_of version) × (left words.entry ≡ var_word v ∷ [])) }
{
    let (var, words) = words.var(version)?;
    words.is_empty().then_some(var)
}

// A call with a variable alone.
fn parse_single(name: &[u8], words: Words, version: Version) -> Option<Call>
    ensures { MatchOption result (LacksSingle version (name.now ∷ left words.entry)) (λ call. IsActorCall version call × (name.now ∷ left words.entry ≡ call_words call)) }
{
    let var = parse_var(words, version)?;
    if let Some(interface) = interface_of(name, "listen", "nlisten") {
        Some(Call::Listen(interface, var))
    } else if let Some(interface) = interface_of(name, "shutdown", "nshutdown") {
        Some(Call::Shutdown(interface, var))
    } else if let Some(interface) = interface_of(name, "close", "nclose") {
        Some(Call::Close(interface, var))
    } else if is_text(name, "nrecv") {
        Some(Call::RecvItem(var))
    } else if is_text(name, "ntry") {
        Some(Call::TryItem(var))
    } else if is_text(name, "local") {
        Some(Call::GetAddr(var, Which::Local))
    } else if is_text(name, "remote") {
        Some(Call::GetAddr(var, Which::Remote))
    } else {
        None
    }
}

// A variable, an address and a port, and the words behind them.
fn parse_end<'a>(words: Words<'a>, version: Version) -> Option<(u32, Ip, Port, Words<'a>)>
    ensures { MatchOption result ((v : ℕ) (ip : Ip) (port : Port) (rest : List (List ℕ)) → v < variables_of version → IsEnd ip port → left words.entry ≢ var_word v ∷ ip_spelling ip ∷ decimal port.0 ∷ rest)
        (λ r. (r.0 < variables_of version) × IsEnd r.1 r.2 × (left words.entry ≡ var_word r.0 ∷ ip_spelling r.1 ∷ decimal r.2.0 ∷ left r.3)) }
{
    let (var, words) = words.var(version)?;
    let (ip, words) = words.ip()?;
    let (port, words) = words.port()?;
    Some((var, ip, port, words))
}

// A call with a variable, an address and a port.
fn parse_bind(name: &[u8], words: Words, version: Version) -> Option<Call>
    ensures { MatchOption result (LacksEnd version (name.now ∷ left words.entry)) (λ call. IsActorCall version call × (name.now ∷ left words.entry ≡ call_words call)) }
{
    let (var, ip, port, words) = parse_end(words, version)?;
    if !words.is_empty() {
        None
    } else if let Some(interface) = interface_of(name, "bind", "nbind") {
        Some(Call::Bind(interface, var, ip, port))
    } else if let Some(interface) = interface_of(name, "connect", "nconnect") {
        Some(Call::Connect(interface, var, ip, port))
    } else {
        None
    }
}

// The accepting of a connection: the name and two variables.
fn parse_accept(name: &[u8], words: Words, version: Version) -> Option<Call>
    ensures { MatchOption result (LacksAccept version (name.now ∷ left words.entry)) (λ call. IsActorCall version call × (name.now ∷ left words.entry ≡ call_words call)) }
{
    let interface = interface_of(name, "accept", "naccept")?;
    let (var, words) = words.var(version)?;
    let (fresh, words) = words.var(version)?;
    words
        .is_empty()
        .then_some(Call::Accept(interface, var, fresh))
}

// A variable and a number of this range.
fn parse_var_number(words: Words, version: Version, low: u32, high: u32) -> Option<(u32, u32)>
    ensures { MatchOption result ((v n : ℕ) → v < variables_of version → low ≤ n → n ≤ high → left words.entry ≢ var_word v ∷ decimal n ∷ [])
        (λ r. (r.0 < variables_of version) × (low ≤ r.1) × (r.1 ≤ high) × (left words.entry ≡ var_word r.0 ∷ decimal r.1 ∷ [])) }
{
    let (var, words) = words.var(version)?;
    let (number, words) = words.number(low, high)?;
    words.is_empty().then_some((var, number))
}

// A call with a variable and a number.
fn parse_count(name: &[u8], words: Words, version: Version) -> Option<Call>
    ensures { MatchOption result (LacksCount version (name.now ∷ left words.entry)) (λ call. IsActorCall version call × (name.now ∷ left words.entry ≡ call_words call)) }
{
    if is_text(name, "recv") {
        let (var, count) = parse_var_number(words, version, 1, 65_536)?;
        Some(Call::Recv(var, count))
    } else if is_text(name, "recvall") {
        let (var, count) = parse_var_number(words, version, 1, 16_777_216)?;
        Some(Call::RecvAll(var, count))
    } else if is_text(name, "recvfrom") {
        let (var, count) = parse_var_number(words, version, 1, 65_536)?;
        Some(Call::RecvFrom(var, count))
    } else if is_text(name, "timeout") {
        let (var, ticks) = parse_var_number(words, version, 0, 1_000_000)?;
        Some(Call::Timeout(var, ticks))
    } else {
        None
    }
}

// A call with a variable and whether a setting is on.
fn parse_setting(name: &[u8], words: Words, version: Version) -> Option<Call>
    ensures { MatchOption result (LacksSetting version (name.now ∷ left words.entry)) (λ call. IsActorCall version call × (name.now ∷ left words.entry ≡ call_words call)) }
{
    let (var, words) = words.var(version)?;
    let (on, words) = words.setting()?;
    if !words.is_empty() {
        None
    } else if is_text(name, "nonblock") {
        Some(Call::NonBlock(var, on))
    } else if is_text(name, "nodelay") {
        Some(Call::NoDelay(var, on))
    } else {
        None
    }
}

// A signal that is given: the name and its number.
pub fn parse_signal(name: &[u8], words: Words) -> Option<u32>
    ensures { MatchOption result (LacksSignal (name.now ∷ left words.entry)) (λ s. (s < 16) × (name.now ∷ left words.entry ≡ call_words (Call.Signal s))) }
{
    if !is_text(name, "signal") {
        return None;
    }
    let (signal, words) = words.signal()?;
    words.is_empty().then_some(signal)
}

// A signal that is waited for: the name, the signal's number and how often it is to come.
pub fn parse_await(name: &[u8], words: Words) -> Option<(u32, u32)>
    ensures { MatchOption result (LacksAwait (name.now ∷ left words.entry)) (λ r. (r.0 < 16) × IsCount r.1 × (name.now ∷ left words.entry ≡ call_words (Call.Await r.0 r.1))) }
{
    if !is_text(name, "await") {
        return None;
    }
    let (signal, words) = words.signal()?;
    let (count, words) = words.number(1, 1_000_000)?;
    words.is_empty().then_some((signal, count))
}

// The sending on a connection: the name, a variable and data.
fn parse_send(
    alloc: Global,
    name: &[u8],
    words: Words,
    version: Version,
) -> Result<Option<Call>, NoMemory>
    ensures { IfOk result (λ r. MatchOption r (LacksSend version (name.now ∷ left words.entry)) (λ call. IsActorCall version call × (name.now ∷ left words.entry ≡ call_words call))) }
{
    let Some(interface) = interface_of(name, "send", "nwrite") else {
        return Ok(None);
    };
    let Some((var, words)) = words.var(version) else {
        return Ok(None);
    };
    let Some(contents) = words.send_data(alloc)? else {
        return Ok(None);
    };
    Ok(Some(Call::Send(interface, var, contents)))
}

// The sending of a datagram: the name, a variable, where it goes, and data.
fn parse_send_to(
    alloc: Global,
    name: &[u8],
    words: Words,
    version: Version,
) -> Result<Option<Call>, NoMemory>
    ensures { IfOk result (λ r. MatchOption r (LacksSendTo version (name.now ∷ left words.entry)) (λ call. IsActorCall version call × (name.now ∷ left words.entry ≡ call_words call))) }
{
    let Some(interface) = interface_of(name, "sendto", "nsend") else {
        return Ok(None);
    };
    let Some((var, ip, port, words)) = parse_end(words, version) else {
        return Ok(None);
    };
    let Some(contents) = words.send_data(alloc)? else {
        return Ok(None);
    };
    Ok(Some(Call::SendTo(interface, var, ip, port, contents)))
}

// A `select`: the name, a limit and tests.
fn parse_select(
    alloc: Global,
    name: &[u8],
    words: Words,
    version: Version,
) -> Result<Option<Call>, NoMemory>
    ensures { IfOk result (λ r. MatchOption r (LacksSelect version (name.now ∷ left words.entry)) (λ call. IsActorCall version call × (name.now ∷ left words.entry ≡ call_words call))) }
{
    if !is_text(name, "select") {
        return Ok(None);
    }
    let Some((limit, words)) = words.limit() else {
        return Ok(None);
    };
    let Some(items) = words.items(alloc, version)? else {
        return Ok(None);
    };
    Ok(Some(Call::Select(limit, items)))
}

// A call whose words take memory.
fn parse_long(
    alloc: Global,
    name: &[u8],
    words: Words,
    version: Version,
) -> Result<Option<Call>, NoMemory>
    ensures { IfOk result (λ r. MatchOption r (LacksLong version (name.now ∷ left words.entry)) (λ call. IsActorCall version call × (name.now ∷ left words.entry ≡ call_words call))) }
{
    if let Some(call) = parse_send(alloc, name, words, version)? {
        return Ok(Some(call));
    }
    if let Some(call) = parse_send_to(alloc, name, words, version)? {
        return Ok(Some(call));
    }
    parse_select(alloc, name, words, version)
}

// A call whose words take no memory.
fn parse_short(name: &[u8], words: Words, version: Version) -> Option<Call>
    ensures { MatchOption result (LacksShort version (name.now ∷ left words.entry)) (λ call. IsActorCall version call × (name.now ∷ left words.entry ≡ call_words call)) }
{
    if let Some(call) = parse_single(name, words, version) {
        return Some(call);
    }
    if let Some(call) = parse_new(name, words, version) {
        return Some(call);
    }
    if let Some(call) = parse_bind(name, words, version) {
        return Some(call);
    }
    if let Some(call) = parse_accept(name, words, version) {
        return Some(call);
    }
    if let Some(call) = parse_count(name, words, version) {
        return Some(call);
    }
    if let Some(call) = parse_setting(name, words, version) {
        return Some(call);
    }
    if let Some(signal) = parse_signal(name, words) {
        return Some(Call::Signal(signal));
    }
    let (signal, count) = parse_await(name, words)?;
    Some(Call::Await(signal, count))
}

// The call of an actor with this name and these words behind it.
fn parse_named(
    alloc: Global,
    name: &[u8],
    words: Words,
    version: Version,
) -> Result<Option<Call>, NoMemory>
    ensures { IfOk result (λ r. MatchOption r ((call : Call) → IsActorCall version call → name.now ∷ left words.entry ≢ call_words call) (λ call. IsActorCall version call × (name.now ∷ left words.entry ≡ call_words call))) }
{
    match parse_short(name, words, version) {
        Some(call) => Ok(Some(call)),
        None => parse_long(alloc, name, words, version),
    }
}

/// The call of an actor that a line spells, in a script of this version.
pub fn parse_call(alloc: Global, version: Version, line: &[u8]) -> Result<Option<Call>, NoMemory>
    ensures { IfOk result (λ r. MatchOption r ((call : Call) → IsActorCall version call → line.now ≢ call_spelling call) (λ call. IsActorCall version call × (line.now ≡ call_spelling call))) }
{
    match Words::of(line).word() {
        Some((name, words)) => parse_named(alloc, name, words, version),
        None => Ok(None),
    }
}
