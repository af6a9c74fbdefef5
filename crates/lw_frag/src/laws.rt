//! What holds of the fragments of every packet, at every MTU.
ghost use Rattle.std.specs.Prelude.{◌≡◌, ◌≤◌, ℕ, List, All, length};
ghost use Rattle.std.specs.List.{flat_map};
ghost use Rattle.lw_base.specs.declared.heads.IpHead.{IpHead};
ghost use Rattle.lw_frag.specs.Laws.{IsPieceOf, Join};
ghost use Rattle.lw_frag.specs.Pieces.{octets_of, pieces_of};

/// The fragments of a packet join without a gap from the first octet of its data to the last.
pub fn fragments_join()
    ensures { (h : IpHead) (len mtu : ℕ) → 28 ≤ mtu → Join 0 len (pieces_of h len mtu) }
{}

/// Their octets, one fragment behind the other, are the data of the packet.
pub fn fragments_spell_the_data()
    ensures { (h : IpHead) (body : List ℕ) (mtu : ℕ) → 28 ≤ mtu
        → flat_map (octets_of body) (pieces_of h (length body) mtu) ≡ body }
{}

/// Each fits the MTU, begins at a multiple of 8, and has the packet's header but for the total, the
/// offset and MF.
pub fn each_fragment_is_of_the_packet()
    ensures { (h : IpHead) (len mtu : ℕ) → 28 ≤ mtu → All (IsPieceOf h len mtu) (pieces_of h len mtu) }
{}
