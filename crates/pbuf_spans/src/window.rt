//! Windows on shared bodies.
ghost use Rattle.std.specs.Prelude.{◌≡◌, ◌≤◌, length, IfOk, slice_range};
ghost use Rattle.std.specs.Arc.{arc_value};

use crate::NoMemory;
use std::marker::Model;
use std::sync::Arc;

/// The octets from `from` on and below `to` of a shared body.
#[derive(Drop)]
pub struct Window {
    pub(crate) body: Arc<Vec<u8>>,
    pub(crate) from: u32,
    pub(crate) to: u32,
}

impl Model for Window {
    ghost use Rattle.pbuf_spans.specs.Windows.{WindowSeen};

    ghost Value = { WindowSeen };

    ghost use Rattle.std.specs.Prelude.{◌≤◌, length, slice_range};
    ghost use Rattle.std.specs.Arc.{arc_value};

    ghost view = { λ w. record { octets = slice_range (arc_value w.body).items w.from w.to } };

    ghost invariant = { λ w. (w.from ≤ w.to) × (w.to ≤ length (arc_value w.body).items) };
}

impl Window {
    /// These of its octets.
    #[inline(always)]
    pub fn of(body: Arc<Vec<u8>>, from: u32, to: u32) -> Window
        requires { (from ≤ to) × (to ≤ length (arc_value body).items) }
        ensures { result.octets ≡ slice_range (arc_value body).items from to }
    {
        Window { body, from, to }
    }

    /// A second one of the same octets.
    #[inline(always)]
    pub fn another(&self) -> Result<Window, NoMemory>
        ensures { IfOk result (λ w. w.octets ≡ self.now.octets) }
    {
        Ok(Window {
            body: Arc::try_clone(&self.body)?,
            from: self.from,
            to: self.to,
        })
    }
}
