//! The lines of the core: events, replies, posts and frames.
ghost use Rattle.std.specs.Prelude.{◌≡◌, [], ◌∷◌};
ghost use Rattle.std.specs.List.{flat_map};
ghost use Rattle.lw_transcript.specs.Page.{Prints};
ghost use Rattle.lw_transcript.specs.Fields.{behind_text, Word as WordText, Number as NumberText, Address as AddressText};
ghost use Rattle.lw_transcript.specs.CoreLines.{core_lines, core_text, data_fields, event_fields, handle_fields, item_fields, option_fields, out_text, post_text, proto_word, reply_fields, short_fields, which_word};

use crate::CoreLine;
use crate::fields::{Field, behind, whole_line};
use crate::page::Page;
use lw_base::{Ip, Octets, Port};
use lw_events::{
    Entry, Event, EventText, FdOption, Handle, ItemText, Post, Proto, Reply, SendData, Which,
};
use lw_outside::Sink;

/// Prints core lines, with what stands behind each.
pub fn core_part<K: Sink>(page: &mut Page, sink: &mut K, lines: &[CoreLine])
    ensures { Prints (K.seen sink.old) (K.seen sink.new) page.old page.new (flat_map core_lines lines.now) }
{
    for line in lines {
        core_entry(page, sink, line);
    }
}

fn core_entry<K: Sink>(page: &mut Page, sink: &mut K, line: &CoreLine)
    ensures { Prints (K.seen sink.old) (K.seen sink.new) page.old page.new (core_lines line.now) }
{
    core_line(page, sink, line.number, &line.entry);
    post_part(page, sink, line.entry.posts.as_slice());
    out_part(page, sink, line.entry.frames.as_slice());
}

fn core_line<K: Sink>(page: &mut Page, sink: &mut K, number: u32, entry: &Entry)
    ensures { Prints (K.seen sink.old) (K.seen sink.new) page.old page.new (core_text number entry.now) }
{
    page.text(sink, "core");
    behind(
        page,
        sink,
        &[Field::Number(number), Field::Number(entry.actor)],
    );
    event(page, sink, &entry.event);
    behind(page, sink, &[Field::Word("->")]);
    reply(page, sink, entry.reply);
    short(page, sink, entry.short);
    page.text(sink, "\n");
}

fn event<K: Sink>(page: &mut Page, sink: &mut K, event: &EventText)
    ensures { Prints (K.seen sink.old) (K.seen sink.new) page.old page.new (flat_map behind_text (event_fields event.now)) }
{
    use Field::{Address, Hex, Number, Word};
    match event {
        Event::Frame(octets) => behind(page, sink, &[Word("frame"), Hex(octets.as_slice())]),
        Event::Tick => behind(page, sink, &[Word("tick")]),
        Event::New(proto) => behind(page, sink, &[Word("new"), Word(proto_text(*proto))]),
        Event::Bind(conn, ip, port) => addressed(page, sink, "bind", *conn, *ip, *port),
        Event::Connect(conn, ip, port) => addressed(page, sink, "connect", *conn, *ip, *port),
        Event::Listen(conn) => behind(page, sink, &[Word("listen"), Number(*conn)]),
        Event::Write(conn, octets) => {
            behind(
                page,
                sink,
                &[Word("write"), Number(*conn), Hex(octets.as_slice())],
            )
        }
        Event::SendTo(conn, ip, port, octets) => send_to(page, sink, *conn, *ip, *port, octets),
        Event::Recved(conn, n) => behind(page, sink, &[Word("recved"), Number(*conn), Number(*n)]),
        Event::Shutdown(conn) => behind(page, sink, &[Word("shutdown"), Number(*conn)]),
        Event::Close(conn) => behind(page, sink, &[Word("close"), Number(*conn)]),
        Event::GetError(conn) => behind(page, sink, &[Word("geterror"), Number(*conn)]),
        Event::GetAddr(conn, which) => {
            behind(
                page,
                sink,
                &[Word("getaddr"), Number(*conn), Word(which_text(*which))],
            )
        }
        Event::NoDelay(conn, on) => {
            behind(
                page,
                sink,
                &[Word("nodelay"), Number(*conn), Number(*on as u32)],
            )
        }
        Event::OpenFd(conn) => behind(page, sink, &[Word("openfd"), Number(*conn)]),
        Event::SetFd(fd, option) => set_fd(page, sink, *fd, *option),
        Event::CloseFd(fd) => behind(page, sink, &[Word("closefd"), Number(*fd)]),
        Event::SetVar(var, handle) => set_var(page, sink, *var, *handle),
        Event::Signal(signal) => behind(page, sink, &[Word("signal"), Field::Name("s", *signal)]),
        Event::Sent(n) => behind(page, sink, &[Word("sent"), Number(*n)]),
        Event::Stop => behind(page, sink, &[Word("stop")]),
    }
}

fn addressed<K: Sink>(
    page: &mut Page,
    sink: &mut K,
    word: &'static str,
    conn: u32,
    ip: Ip,
    port: Port,
)
    ensures { Prints (K.seen sink.old) (K.seen sink.new) page.old page.new (flat_map behind_text (WordText word.now ∷ NumberText conn ∷ AddressText ip ∷ NumberText port.0 ∷ [])) }
{
    let fields = [
        Field::Word(word),
        Field::Number(conn),
        Field::Address(ip),
        Field::Number(port.0 as u32),
    ];
    behind(page, sink, &fields);
}

fn send_to<K: Sink>(page: &mut Page, sink: &mut K, conn: u32, ip: Ip, port: Port, given: &SendData)
    ensures { Prints (K.seen sink.old) (K.seen sink.new) page.old page.new (flat_map behind_text (event_fields (Event.SendTo conn ip port given.now))) }
{
    addressed(page, sink, "sendto", conn, ip, port);
    send_data(page, sink, given);
}

fn set_fd<K: Sink>(page: &mut Page, sink: &mut K, fd: u32, option: FdOption)
    ensures { Prints (K.seen sink.old) (K.seen sink.new) page.old page.new (flat_map behind_text (event_fields (Event.SetFd fd option))) }
{
    behind(page, sink, &[Field::Word("setfd"), Field::Number(fd)]);
    fd_option(page, sink, option);
}

fn set_var<K: Sink>(page: &mut Page, sink: &mut K, var: u32, handle: Handle)
    ensures { Prints (K.seen sink.old) (K.seen sink.new) page.old page.new (flat_map behind_text (event_fields (Event.SetVar var handle))) }
{
    behind(page, sink, &[Field::Word("setvar"), Field::Name("v", var)]);
    handle_part(page, sink, handle);
}

fn send_data<K: Sink>(page: &mut Page, sink: &mut K, given: &SendData)
    ensures { Prints (K.seen sink.old) (K.seen sink.new) page.old page.new (flat_map behind_text (data_fields given.now)) }
{
    match given {
        SendData::Literal(octets) => behind(page, sink, &[Field::Hex(octets.as_slice())]),
        SendData::Fill(octets) => {
            behind(
                page,
                sink,
                &[Field::Hex(octets.as_slice()), Field::Word("fill")],
            )
        }
    }
}

fn fd_option<K: Sink>(page: &mut Page, sink: &mut K, option: FdOption)
    ensures { Prints (K.seen sink.old) (K.seen sink.new) page.old page.new (flat_map behind_text (option_fields option)) }
{
    match option {
        FdOption::NonBlock(on) => {
            behind(
                page,
                sink,
                &[Field::Word("nonblock"), Field::Number(on as u32)],
            )
        }
        FdOption::Timeout(ticks) => {
            behind(page, sink, &[Field::Word("timeout"), Field::Number(ticks)])
        }
    }
}

/// Prints what a variable names.
pub fn handle_part<K: Sink>(page: &mut Page, sink: &mut K, handle: Handle)
    ensures { Prints (K.seen sink.old) (K.seen sink.new) page.old page.new (flat_map behind_text (handle_fields handle)) }
{
    match handle {
        Handle::Conn(conn) => behind(page, sink, &[Field::Word("conn"), Field::Number(conn)]),
        Handle::Fd(fd) => behind(page, sink, &[Field::Word("fd"), Field::Number(fd)]),
    }
}

fn proto_text(proto: Proto) -> &'static str
    ensures { result.now ≡ proto_word proto }
{
    match proto {
        Proto::Tcp => "tcp",
        Proto::Udp => "udp",
    }
}

fn which_text(which: Which) -> &'static str
    ensures { result.now ≡ which_word which }
{
    match which {
        Which::Local => "local",
        Which::Remote => "remote",
    }
}

fn reply<K: Sink>(page: &mut Page, sink: &mut K, reply: Reply)
    ensures { Prints (K.seen sink.old) (K.seen sink.new) page.old page.new (flat_map behind_text (reply_fields reply)) }
{
    use Field::{Address, Number, Word};
    match reply {
        Reply::Done => behind(page, sink, &[Word("ok")]),
        Reply::Conn(conn) => behind(page, sink, &[Word("conn"), Number(conn)]),
        Reply::Fd(fd) => behind(page, sink, &[Word("fd"), Number(fd)]),
        Reply::Wrote(n) => behind(page, sink, &[Word("wrote"), Number(n)]),
        Reply::Count(n) => behind(page, sink, &[Word("count"), Number(n)]),
        Reply::Ticks(n) => behind(page, sink, &[Word("ticks"), Number(n)]),
        Reply::Addr(ip, port) => {
            behind(
                page,
                sink,
                &[Word("addr"), Address(ip), Number(port.0 as u32)],
            )
        }
        Reply::Frames(n) => behind(page, sink, &[Word("frames"), Number(n)]),
        Reply::Fail(err) => behind(page, sink, &[Word(err.word())]),
    }
}

fn short<K: Sink>(page: &mut Page, sink: &mut K, short: bool)
    ensures { Prints (K.seen sink.old) (K.seen sink.new) page.old page.new (flat_map behind_text (short_fields short)) }
{
    if short {
        behind(page, sink, &[Field::Word("short")]);
    }
}

fn post_part<K: Sink>(page: &mut Page, sink: &mut K, posts: &[Post])
    ensures { Prints (K.seen sink.old) (K.seen sink.new) page.old page.new (flat_map post_text posts.now) }
{
    for post in posts {
        post_line(page, sink, post);
    }
}

fn post_line<K: Sink>(page: &mut Page, sink: &mut K, post: &Post)
    ensures { Prints (K.seen sink.old) (K.seen sink.new) page.old page.new (post_text post.now) }
{
    match post {
        Post::Item { conn, ticket, text } => item_line(page, sink, *conn, *ticket, text),
        Post::Full(conn) => whole_line(page, sink, "full", &[Field::Number(*conn)]),
    }
}

fn item_line<K: Sink>(page: &mut Page, sink: &mut K, conn: u32, ticket: u32, text: &ItemText)
    ensures { Prints (K.seen sink.old) (K.seen sink.new) page.old page.new (post_text (Post.Item conn ticket text.now)) }
{
    page.text(sink, "post");
    behind(page, sink, &[Field::Number(conn), Field::Number(ticket)]);
    item(page, sink, text);
    page.text(sink, "\n");
}

fn item<K: Sink>(page: &mut Page, sink: &mut K, item: &ItemText)
    ensures { Prints (K.seen sink.old) (K.seen sink.new) page.old page.new (flat_map behind_text (item_fields item.now)) }
{
    use Field::{Number, Place, Word};
    match item {
        ItemText::Segment(octets) => {
            behind(page, sink, &[Word("segment"), Place(0, octets.as_slice())])
        }
        ItemText::Datagram(ip, port, octets) => {
            datagram(page, sink, *ip, *port, octets.as_slice())
        }
        ItemText::Accepted(conn) => behind(page, sink, &[Word("conn"), Number(*conn)]),
    }
}

fn datagram<K: Sink>(page: &mut Page, sink: &mut K, ip: Ip, port: Port, octets: &[u8])
    ensures { Prints (K.seen sink.old) (K.seen sink.new) page.old page.new (flat_map behind_text (item_fields (ItemText.Datagram ip port octets.now))) }
{
    let fields = [
        Field::Word("datagram"),
        Field::Address(ip),
        Field::Number(port.0 as u32),
        Field::Place(0, octets),
    ];
    behind(page, sink, &fields);
}

fn out_part<K: Sink>(page: &mut Page, sink: &mut K, outs: &[Octets])
    ensures { Prints (K.seen sink.old) (K.seen sink.new) page.old page.new (flat_map out_text outs.now) }
{
    for octets in outs {
        out_line(page, sink, octets.as_slice());
    }
}

fn out_line<K: Sink>(page: &mut Page, sink: &mut K, octets: &[u8])
    ensures { Prints (K.seen sink.old) (K.seen sink.new) page.old page.new (out_text octets.now) }
{
    whole_line(page, sink, "out", &[Field::Hex(octets)]);
}
