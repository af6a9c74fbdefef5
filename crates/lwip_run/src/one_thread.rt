ghost use Rattle.std.specs.Prelude.{◌≡◌, All, IfOk};
ghost use Rattle.lw_rules.specs.Schedule.{serial_transcript};
ghost use Rattle.lw_transcript.specs.Transcript.{IsFrame};
ghost use Rattle.lwip_run.specs.Plain.{NeverRefuses};

use crate::lines::{all_calls, body};
use crate::plain_api::PlainApi;
use lw_base::FrameList;
use lw_boxes::ListBoxes;
use lw_core::Core;
use lw_netif::Netif;
use lw_payload::Payload;
use lw_script::Script;
use lw_serial::run_serial;
use lw_transcript::{Form, Transcript, Version};
use std::alloc::{AllocError, Global};

/// Runs a script on one thread, fed with these frames, over payloads of this Home, which makes each that
/// it is asked for.
pub fn serial<P: Payload<Home: Drop>>(
    alloc: Global,
    home: P::Home,
    script: &Script,
    frames: FrameList,
) -> Result<Transcript, AllocError>
    requires never { NeverRefuses P.home_seen P.may_refuse }
    requires short { All IsFrame frames }
    ensures { IfOk result (λ t. t ≡ serial_transcript script.now frames) }
{
    let limits = script.profile.limits();
    let core = Core::<P>::new(alloc, netif(script), limits)?;
    let boxes = ListBoxes::new(alloc, limits.mailbox);
    let mut api = PlainApi::new(alloc, core, boxes, home, frames);
    let mut progress = run_serial(alloc, &mut api, script)?;
    let done = progress.remove(0).done.into_vec();
    let calls = all_calls(alloc, script)?;
    let body = body(alloc, &calls, done, api.into_history(alloc))?;
    Ok(Transcript {
        version: Version::One,
        form: Form::Serial(body),
    })
}

fn netif(script: &Script) -> Netif
    ensures { result ≡ script.now.net }
{
    let net = script.net;
    Netif::new(net.ip, net.mask, net.gateway, net.mac)
}
