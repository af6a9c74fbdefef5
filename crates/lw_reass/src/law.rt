ghost use Rattle.std.specs.Prelude.{◌≡◌, ℕ, ◌-◌, ◌<◌, false, List, [], ◌∷◌, ◌++◌, length, replicate};
ghost use Rattle.lw_base.specs.declared.heads.IpHead.{IpHead};
ghost use Rattle.lw_reass.specs.Datagrams.{Datagram, completes, is_open, is_whole, with_fragment};
ghost use Rattle.lw_reass.specs.Fragments.{Fragment, CutsUp, added_all};
ghost use Rattle.lw_reass.specs.declared.outcome.Outcome.TheVariants.{Whole, Kept};

/// The law of reassembly: the fragments of a datagram that isn't open, in any order, where there is place for it: each but the last is
/// kept, and the last gives the header of the first and all octets.
pub fn fragments_in_any_order_give_the_datagram()
    ensures { (ds : List Datagram) (h : IpHead) (text : List ℕ) (fs : List Fragment)
        → is_open ds h ≡ false → length ds < 5 → CutsUp h text fs
        → added_all ds fs ≡ record { datagrams = ds; outcomes = replicate (length fs - 1) Kept ++ Whole h text ∷ [] } }
{}

/// Whether a fragment makes its datagram whole depends on how many octets it has, and not on which.
pub fn a_whole_is_known_by_its_positions()
    ensures { (d : Datagram) (h : IpHead) (xs : List ℕ) → is_whole (with_fragment d h xs) ≡ completes d h (length xs) }
{}
