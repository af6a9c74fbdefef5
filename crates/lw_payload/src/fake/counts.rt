//! The counts of owners, place for place.
ghost use Rattle.std.specs.Prelude.{◌≡◌, ℕ, ◌+◌, ◌^◌, ◌<◌, ◌≤◌, [], ◌∷◌, length, slice_index, vec_capacity, IsSome, IfSome, IsTrue, if◌then◌else◌};
ghost use Rattle.std.specs.List.{All};
ghost use Rattle.lw_payload.specs.Fake.{times, free_count, Hands};

/// How many pbufs have no owner.
pub fn free(counts: &[u32]) -> usize
    ensures { result ≡ free_count counts.now }
{
    counts.iter().filter(|n| **n == 0).count()
}

/// The first pbuf without an owner.
fn first_free(counts: &[u32]) -> Option<usize>
    ensures found { IfSome result (λ i. (i < length counts.now) × (slice_index counts.now i ≡ 0)) }
    ensures there { 0 < free_count counts.now → IsSome result }
{
    for (place, n) in counts.iter().enumerate() {
        if *n == 0 {
            return Some(place);
        }
    }
    None
}

/// Takes a pbuf without an owner, and answers its place.
fn take_one(counts: &mut [u32]) -> u32
    requires free { 0 < free_count counts.old }
    requires few { length counts.old < 2 ^ 32 }
    ensures moves { Hands counts.old counts.new [] (result ∷ []) }
    ensures alone { slice_index counts.old result ≡ 0 }
    ensures free { free_count counts.new + 1 ≡ free_count counts.old }
{
    let place = first_free(counts).unwrap();
    counts[place] = 1;
    place as u32
}

/// Takes so many pbufs without an owner, and puts their places down.
pub fn take(counts: &mut [u32], needed: usize, places: &mut Vec<u32>)
    requires enough { needed ≤ free_count counts.old }
    requires few { length counts.old < 2 ^ 32 }
    requires none { places.old.items ≡ [] }
    requires room { needed ≤ vec_capacity places.old }
    ensures moves { Hands counts.old counts.new [] places.new.items }
    ensures all { length places.new.items ≡ needed }
    ensures alone { (place : ℕ) → 0 < times place places.new.items → slice_index counts.old place ≡ 0 }
    ensures free { free_count counts.new + needed ≡ free_count counts.old }
{
    for _ in 0..needed {
        places.push(take_one(counts)).unwrap();
    }
}

/// Gives one owner up, and answers whether it was the last.
fn give(counts: &mut [u32], place: u32) -> bool
    requires { 0 < slice_index counts.old place }
    ensures moves { Hands counts.old counts.new (place ∷ []) [] }
    ensures ended { free_count counts.new ≡ free_count counts.old + (if result then 1 else 0) }
{
    let place = place as usize;
    counts[place] -= 1;
    counts[place] == 0
}

/// Gives the owners at these places up, and answers how many were the last of their pbuf.
pub fn give_all(counts: &mut [u32], places: &[u32]) -> u32
    requires owned { (place : ℕ) → times place places.now ≤ slice_index counts.old place }
    requires few { length places.now < 2 ^ 32 }
    ensures moves { Hands counts.old counts.new places.now [] }
    ensures ended { free_count counts.new ≡ free_count counts.old + result }
{
    let mut ended = 0;
    for place in places {
        ended += u32::from(give(counts, *place));
    }
    ended
}

/// Whether each count can grow by `n`.
pub fn can_grow(counts: &[u32], n: usize) -> bool
    ensures { IsTrue result → All (λ count. count + n < 2 ^ 32) counts.now }
{
    counts.iter().all(|count| (*count as usize).saturating_add(n) <= u32::MAX as usize)
}

/// Adds an owner of a pbuf that has one.
fn add(counts: &mut [u32], place: u32)
    requires owned { 0 < slice_index counts.old place }
    requires small { slice_index counts.old place + 1 < 2 ^ 32 }
    ensures moves { Hands counts.old counts.new [] (place ∷ []) }
    ensures free { free_count counts.new ≡ free_count counts.old }
{
    counts[place as usize] += 1;
}

/// Adds an owner at each of these places.
pub fn add_all(counts: &mut [u32], places: &[u32])
    requires there { (place : ℕ) → times place places.now ≤ slice_index counts.old place }
    requires small { All (λ count. count + length places.now < 2 ^ 32) counts.old }
    ensures moves { Hands counts.old counts.new [] places.now }
    ensures free { free_count counts.new ≡ free_count counts.old }
{
    for place in places {
        add(counts, *place);
    }
}
