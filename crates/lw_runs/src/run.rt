/// A payload with the position of its first octet and the one behind its last.
#[derive(Drop)]
pub struct Run<P> {
    pub at: u32,
    pub end: u32,
    pub body: P,
}
