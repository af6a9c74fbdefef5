//! Where a test can hold a worker up.

/// A moment in a worker's course.
#[derive(Clone, Copy, Debug, PartialEq, Eq)]
pub enum Place {
    /// Before a scripted call.
    Before,
    /// After a reply of the object, inside a scripted call.
    Inside,
    /// After a scripted call.
    After,
    /// In the tcpip thread, before the step of a message or a frame that it took.
    Served,
}

/// What workers pass on their way. It changes no meaning.
pub trait Gate {
    /// The worker of this number passes, in its call of this number; at `Served` the call is 0.
    fn pass(&self, actor: u32, call: u32, at: Place);
}

/// A gate that holds nobody up.
#[derive(Clone, Copy, Debug)]
pub struct OpenGate;

impl Gate for OpenGate {
    fn pass(&self, _actor: u32, _call: u32, _at: Place) {}
}
