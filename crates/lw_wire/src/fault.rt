use thiserror::Error;

/// Why octets spell no head: there are too few, a field has a value that is not allowed, or the
/// checksum is wrong.
#[derive(Clone, Copy, Debug, PartialEq, Eq, Error)]
pub enum WireFault {
    #[error("too few octets")]
    Short,
    #[error("a field is not allowed")]
    BadField,
    #[error("the checksum is wrong")]
    BadSum,
}
