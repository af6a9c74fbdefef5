use lw_base::IpHead;

/// Why a fragment isn't kept, in the order in which the reasons are looked at.
#[derive(Clone, Copy, Debug, PartialEq, Eq)]
pub enum Why {
    /// It has no octets, isn't the last and no multiple of 8 octets long, ends behind 65,535 or behind the datagram's end, or is the last
    /// and ends before an octet that is kept.
    BadLength,
    /// Five other datagrams are open.
    Table,
    /// It overlaps a fragment that is kept.
    Overlap,
}

/// What is to become of a fragment.
#[derive(Clone, Copy, Debug, PartialEq, Eq)]
pub enum FragmentPlan {
    /// It isn't kept.
    Refuse(Why),
    /// It goes into the datagram at this place, which opens where none is there.
    Keep(usize),
    /// It makes the datagram at this place whole, which has this header.
    Complete(usize, IpHead),
}

/// What came of a fragment.
#[derive(Debug, Drop)]
pub enum Outcome<P> {
    /// All octets of its datagram are there: the header of the fragment at offset 0 as it came, and all octets.
    Whole(IpHead, P),
    Kept,
    /// It changed nothing, and its payload comes back.
    Dropped(Why, P),
}
