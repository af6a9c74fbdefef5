//! The lines of actors: their calls, what those saw, and what they gave.
ghost use Rattle.std.specs.Prelude.{◌≡◌};
ghost use Rattle.std.specs.List.{flat_map};
ghost use Rattle.lw_transcript.specs.Page.{Prints};
ghost use Rattle.lw_transcript.specs.Fields.{behind_text, line};
ghost use Rattle.lw_transcript.specs.CallLines.{call_lines, call_text, cause_word, did_text, evidence_text, named_fields, outcome_fields, sight_fields, test_field, test_letter};
ghost use Rattle.lw_transcript.specs.Transcript.{actor_lines, actor_text, numbered};

use crate::core_text::handle_part;
use crate::fields::{Field, behind, whole_line};
use crate::page::Page;
use crate::{ActorPart, CallPart, Evidence};
use call_types::{DropCause, Outcome, SelectItem, Sight, Test};
use lw_base::{Ip, Port};
use lw_events::Handle;
use lw_outside::Sink;

/// Prints actors with their calls.
pub fn actors_part<K: Sink>(page: &mut Page, sink: &mut K, actors: &[ActorPart])
    ensures { Prints (K.seen sink.old) (K.seen sink.new) page.old page.new (numbered actor_lines 0 actors.now) }
{
    for (place, actor) in actors.iter().enumerate() {
        actor_part(page, sink, place as u64, actor);
    }
}

fn actor_part<K: Sink>(page: &mut Page, sink: &mut K, number: u64, actor: &ActorPart)
    ensures { Prints (K.seen sink.old) (K.seen sink.new) page.old page.new (actor_lines number actor.now) }
{
    actor_line(page, sink, number);
    calls_part(page, sink, actor.calls.as_slice());
}

fn actor_line<K: Sink>(page: &mut Page, sink: &mut K, number: u64)
    ensures { Prints (K.seen sink.old) (K.seen sink.new) page.old page.new (actor_text number) }
{
    page.text(sink, "actor ");
    page.number(sink, number);
    page.text(sink, "\n");
}

fn calls_part<K: Sink>(page: &mut Page, sink: &mut K, calls: &[CallPart])
    ensures { Prints (K.seen sink.old) (K.seen sink.new) page.old page.new (numbered call_lines 1 calls.now) }
{
    for (place, call) in calls.iter().enumerate() {
        call_part(page, sink, place as u64 + 1, call);
    }
}

fn call_part<K: Sink>(page: &mut Page, sink: &mut K, number: u64, call: &CallPart)
    ensures { Prints (K.seen sink.old) (K.seen sink.new) page.old page.new (call_lines number call.now) }
{
    call_line(page, sink, number, call.text.as_slice());
    evidence_part(page, sink, call.seen.as_slice());
    did_line(page, sink, &call.result);
}

fn call_line<K: Sink>(page: &mut Page, sink: &mut K, number: u64, text: &[u8])
    ensures { Prints (K.seen sink.old) (K.seen sink.new) page.old page.new (call_text number text.now) }
{
    page.text(sink, "call ");
    page.number(sink, number);
    page.text(sink, " ");
    page.put(sink, text);
    page.text(sink, "\n");
}

fn evidence_part<K: Sink>(page: &mut Page, sink: &mut K, seen: &[Evidence])
    ensures { Prints (K.seen sink.old) (K.seen sink.new) page.old page.new (flat_map evidence_text seen.now) }
{
    for evidence in seen {
        evidence_line(page, sink, evidence);
    }
}

fn evidence_line<K: Sink>(page: &mut Page, sink: &mut K, evidence: &Evidence)
    ensures { Prints (K.seen sink.old) (K.seen sink.new) page.old page.new (evidence_text evidence.now) }
{
    match evidence {
        Evidence::At(number) => at_line(page, sink, *number),
        Evidence::Saw(sight) => sight_line(page, sink, sight),
    }
}

fn at_line<K: Sink>(page: &mut Page, sink: &mut K, number: u32)
    ensures { Prints (K.seen sink.old) (K.seen sink.new) page.old page.new (evidence_text (Evidence.At number)) }
{
    page.text(sink, "@");
    page.number(sink, number as u64);
    page.text(sink, "\n");
}

fn sight_line<K: Sink>(page: &mut Page, sink: &mut K, sight: &Sight)
    ensures { Prints (K.seen sink.old) (K.seen sink.new) page.old page.new (line (sight_fields sight.now)) }
{
    use Field::{Flags, Hex, Name, Number, Place, Word};
    match sight {
        Sight::Take {
            conn,
            ticket,
            from,
            octets,
        } => {
            let to = Place(*from, octets.as_slice());
            let octets = Hex(octets.as_slice());
            whole_line(
                page,
                sink,
                "take",
                &[Number(*conn), Number(*ticket), Number(*from), to, octets],
            )
        }
        Sight::Datagram {
            conn,
            ticket,
            ip,
            port,
            octets,
        } => datagram_line(page, sink, *conn, *ticket, (*ip, *port), octets.as_slice()),
        Sight::Accepted {
            conn,
            ticket,
            fresh,
        } => whole_line(
            page,
            sink,
            "acc",
            &[Number(*conn), Number(*ticket), Number(*fresh)],
        ),
        Sight::Saw(conn, word) => whole_line(
            page,
            sink,
            "saw",
            &[
                Number(*conn),
                Number(word.posted),
                Number(word.claimed),
                Flags(word.flags),
            ],
        ),
        Sight::Ticks(n) => whole_line(page, sink, "ticks", &[Number(*n)]),
        Sight::Stopped => page.text(sink, "stopped\n"),
        Sight::Count(signal, n) => {
            whole_line(page, sink, "sig", &[Name("s", *signal), Number(*n)])
        }
        Sight::Var(var, handle) => var_line(page, sink, *var, *handle),
        Sight::Fdw {
            fd,
            conn,
            nonblock,
            timeout,
        } => whole_line(
            page,
            sink,
            "fdw",
            &[
                Number(*fd),
                Number(*conn),
                Number(*nonblock as u32),
                Number(*timeout),
            ],
        ),
        Sight::Dropped(frame, cause) => whole_line(
            page,
            sink,
            "drop",
            &[Number(*frame), Word(cause_text(*cause))],
        ),
    }
}

fn datagram_line<K: Sink>(
    page: &mut Page,
    sink: &mut K,
    conn: u32,
    ticket: u32,
    from: (Ip, Port),
    octets: &[u8],
)
    ensures { Prints (K.seen sink.old) (K.seen sink.new) page.old page.new (line (sight_fields (Sight.Datagram conn ticket from.0 from.1 octets.now))) }
{
    let fields = [
        Field::Number(conn),
        Field::Number(ticket),
        Field::Address(from.0),
        Field::Number(from.1.0 as u32),
        Field::Place(0, octets),
        Field::Hex(octets),
    ];
    whole_line(page, sink, "dgram", &fields);
}

fn var_line<K: Sink>(page: &mut Page, sink: &mut K, var: u32, handle: Option<Handle>)
    ensures { Prints (K.seen sink.old) (K.seen sink.new) page.old page.new (line (sight_fields (Sight.Var var handle))) }
{
    page.text(sink, "var");
    behind(page, sink, &[Field::Name("v", var)]);
    named(page, sink, handle);
    page.text(sink, "\n");
}

fn named<K: Sink>(page: &mut Page, sink: &mut K, handle: Option<Handle>)
    ensures { Prints (K.seen sink.old) (K.seen sink.new) page.old page.new (flat_map behind_text (named_fields handle)) }
{
    match handle {
        Some(handle) => handle_part(page, sink, handle),
        None => behind(page, sink, &[Field::Word("none")]),
    }
}

fn cause_text(cause: DropCause) -> &'static str
    ensures { result.now ≡ cause_word cause }
{
    match cause {
        DropCause::Short => "short",
        DropCause::Full => "full",
    }
}

fn did_line<K: Sink>(page: &mut Page, sink: &mut K, outcome: &Outcome)
    ensures { Prints (K.seen sink.old) (K.seen sink.new) page.old page.new (did_text outcome.now) }
{
    page.text(sink, "did");
    did_what(page, sink, outcome);
    page.text(sink, "\n");
}

fn did_what<K: Sink>(page: &mut Page, sink: &mut K, outcome: &Outcome)
    ensures { Prints (K.seen sink.old) (K.seen sink.new) page.old page.new (flat_map behind_text (outcome_fields outcome.now)) }
{
    use Field::{Address, Number, Word};
    match outcome {
        Outcome::Ok => behind(page, sink, &[Word("ok")]),
        Outcome::Conn(conn) => behind(page, sink, &[Word("conn"), Number(*conn)]),
        Outcome::Fd(fd) => behind(page, sink, &[Word("fd"), Number(*fd)]),
        Outcome::Sent(n) => behind(page, sink, &[Word("sent"), Number(*n)]),
        Outcome::Read(n) => behind(page, sink, &[Word("read"), Number(*n)]),
        Outcome::From(ip, port, n) => {
            let port = Number(port.0 as u32);
            behind(page, sink, &[Word("from"), Address(*ip), port, Number(*n)])
        }
        Outcome::Addr(ip, port) => {
            behind(
                page,
                sink,
                &[Word("addr"), Address(*ip), Number(port.0 as u32)],
            )
        }
        Outcome::Ready(items) => ready(page, sink, items.as_slice()),
        Outcome::Nothing => behind(page, sink, &[Word("none")]),
        Outcome::Fed(n) => behind(page, sink, &[Word("fed"), Number(*n)]),
        Outcome::Fail(err) => behind(page, sink, &[Word(err.word())]),
    }
}

fn ready<K: Sink>(page: &mut Page, sink: &mut K, items: &[SelectItem])
    ensures { Prints (K.seen sink.old) (K.seen sink.new) page.old page.new (flat_map behind_text (outcome_fields (Outcome.Ready items.now))) }
{
    behind(page, sink, &[Field::Word("ready")]);
    tests(page, sink, items);
}

fn tests<K: Sink>(page: &mut Page, sink: &mut K, items: &[SelectItem])
    ensures { Prints (K.seen sink.old) (K.seen sink.new) page.old page.new (flat_map (λ item. behind_text (test_field item)) items.now) }
{
    for item in items {
        behind(page, sink, &[Field::Name(test_text(item.test), item.var)]);
    }
}

fn test_text(test: Test) -> &'static str
    ensures { result.now ≡ test_letter test }
{
    match test {
        Test::Readable => "r",
        Test::Writable => "w",
        Test::Except => "e",
    }
}
