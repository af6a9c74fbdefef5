ghost use Rattle.std.specs.Prelude.{◌≡◌, ◌≤◌, OnOk, IfErr, Some, option_to_list};
ghost use Rattle.std.specs.List.{flat_map};
ghost use Rattle.lw_outside.specs.Sinks.{Adds};
ghost use Rattle.lw_transcript.specs.Page.{Breaks, Prints};
ghost use Rattle.lw_transcript.specs.Fields.{behind_text};
ghost use Rattle.lw_transcript.specs.Transcript.{IsTranscript, body_text, end_text, form_name, form_text, head_text, left_text, pools_fields, side_text, sizes_text, transcript_spelling, version_text};

use crate::call_text::actors_part;
use crate::core_text::core_part;
use crate::fields::{Field, behind, whole_line};
use crate::page::{Page, WriteFault};
use crate::{Body, EndLine, Form, Left, Pools, Sizes, Transcript, Version};
use lw_outside::Sink;
use std::alloc::Global;

/// Writes the text of a transcript to a sink, through a buffer of 64 KiB, which is all the memory that
/// it takes: it takes it before the first octet is written.
pub fn write_transcript<K: Sink>(
    alloc: Global,
    sink: &mut K,
    t: &Transcript,
) -> Result<(), WriteFault>
    requires { IsTranscript t.now }
    ensures ok { OnOk result (Adds (K.seen sink.old) (K.seen sink.new) (transcript_spelling t.now)) }
    ensures err { IfErr result (Breaks (K.seen sink.old) (K.seen sink.new) (transcript_spelling t.now)) }
    ensures later { (K.seen sink.old).faults ≤ (K.seen sink.new).faults }
{
    let Ok(mut page) = Page::new(alloc) else {
        return Err(WriteFault::NoMemory);
    };
    transcript(&mut page, sink, t);
    page.flush(sink);
    if page.is_failed() {
        return Err(WriteFault::Failed);
    }
    Ok(())
}

fn transcript<K: Sink>(page: &mut Page, sink: &mut K, t: &Transcript)
    ensures { Prints (K.seen sink.old) (K.seen sink.new) page.old page.new (transcript_spelling t.now) }
{
    head_line(page, sink, t.version, &t.form);
    bodies(page, sink, &t.form);
}

fn head_line<K: Sink>(page: &mut Page, sink: &mut K, version: Version, form: &Form)
    ensures { Prints (K.seen sink.old) (K.seen sink.new) page.old page.new (head_text version form.now) }
{
    let version = Field::Word(version_word(version));
    let form = Field::Word(form_word(form));
    whole_line(page, sink, "lwip", &[version, form]);
}

fn version_word(version: Version) -> &'static str
    ensures { result.now ≡ version_text version }
{
    match version {
        Version::One => "1",
        Version::Two => "2",
    }
}

fn form_word(form: &Form) -> &'static str
    ensures { result.now ≡ form_name form.now }
{
    match form {
        Form::Serial(_) => "serial",
        Form::Run(_) => "run",
        Form::Pair(_, _) => "pair",
    }
}

fn bodies<K: Sink>(page: &mut Page, sink: &mut K, form: &Form)
    ensures { Prints (K.seen sink.old) (K.seen sink.new) page.old page.new (form_text form.now) }
{
    match form {
        Form::Serial(whole) => body(page, sink, whole),
        Form::Run(whole) => body(page, sink, whole),
        Form::Pair(a, b) => pair(page, sink, a, b),
    }
}

fn pair<K: Sink>(page: &mut Page, sink: &mut K, a: &Body, b: &Body)
    ensures { Prints (K.seen sink.old) (K.seen sink.new) page.old page.new (form_text (Form.Pair a.now b.now)) }
{
    side_line(page, sink, "a");
    body(page, sink, a);
    side_line(page, sink, "b");
    body(page, sink, b);
}

fn side_line<K: Sink>(page: &mut Page, sink: &mut K, side: &'static str)
    ensures { Prints (K.seen sink.old) (K.seen sink.new) page.old page.new (side_text side.now) }
{
    whole_line(page, sink, "side", &[Field::Word(side)]);
}

fn body<K: Sink>(page: &mut Page, sink: &mut K, body: &Body)
    ensures { Prints (K.seen sink.old) (K.seen sink.new) page.old page.new (body_text body.now) }
{
    sizes_part(page, sink, body.sizes);
    core_part(page, sink, body.core.as_slice());
    actors_part(page, sink, body.actors.as_slice());
    left_part(page, sink, body.left.as_slice());
    end_line(page, sink, body.end);
}

fn sizes_part<K: Sink>(page: &mut Page, sink: &mut K, sizes: Option<Sizes>)
    ensures { Prints (K.seen sink.old) (K.seen sink.new) page.old page.new (flat_map sizes_text (option_to_list sizes)) }
{
    match sizes {
        Some(sizes) => sizes_line(page, sink, sizes),
        None => {}
    }
}

fn sizes_line<K: Sink>(page: &mut Page, sink: &mut K, sizes: Sizes)
    ensures { Prints (K.seen sink.old) (K.seen sink.new) page.old page.new (sizes_text sizes) }
{
    use Field::{Number, Word};
    let fields = [
        Word("ram"),
        Number(sizes.ram),
        Word("pool"),
        Number(sizes.pool),
        Word("rom"),
        Number(sizes.rom),
        Word("ref"),
        Number(sizes.reference),
        Word("box"),
        Number(sizes.mailbox),
        Word("tcpip"),
        Number(sizes.tcpip),
        Word("fds"),
        Number(sizes.descriptors),
        Word("window"),
        Number(sizes.window),
    ];
    whole_line(page, sink, "sizes", &fields);
}

fn left_part<K: Sink>(page: &mut Page, sink: &mut K, left: &[Left])
    ensures { Prints (K.seen sink.old) (K.seen sink.new) page.old page.new (flat_map left_text left.now) }
{
    for one in left {
        left_line(page, sink, *one);
    }
}

fn left_line<K: Sink>(page: &mut Page, sink: &mut K, left: Left)
    ensures { Prints (K.seen sink.old) (K.seen sink.new) page.old page.new (left_text left) }
{
    use Field::Number;
    let fields = [Number(left.conn), Number(left.ticket), Number(left.from)];
    whole_line(page, sink, "left", &fields);
}

fn end_line<K: Sink>(page: &mut Page, sink: &mut K, end: EndLine)
    ensures { Prints (K.seen sink.old) (K.seen sink.new) page.old page.new (end_text end) }
{
    use Field::{Number, Word};
    page.text(sink, "end");
    behind(
        page,
        sink,
        &[Word("core"), Number(end.core), Word("out"), Number(end.out)],
    );
    pools_part(page, sink, end.pools);
    page.text(sink, "\n");
}

fn pools_part<K: Sink>(page: &mut Page, sink: &mut K, pools: Option<Pools>)
    ensures { Prints (K.seen sink.old) (K.seen sink.new) page.old page.new (flat_map behind_text (pools_fields pools)) }
{
    match pools {
        Some(pools) => told_pools(page, sink, pools),
        None => {}
    }
}

fn told_pools<K: Sink>(page: &mut Page, sink: &mut K, pools: Pools)
    ensures { Prints (K.seen sink.old) (K.seen sink.new) page.old page.new (flat_map behind_text (pools_fields (Some pools))) }
{
    use Field::Word;
    let fields = [
        Word("pools"),
        Word("ram"),
        Field::Share(pools.ram.free, pools.ram.all),
        Word("pool"),
        Field::Share(pools.pool.free, pools.pool.all),
        Word("rom"),
        Field::Share(pools.rom.free, pools.rom.all),
        Word("ref"),
        Field::Share(pools.reference.free, pools.reference.all),
    ];
    behind(page, sink, &fields);
}
