//! A value that only clauses read, in a type that threads share.
ghost use Rattle.std.specs.Prelude.{◌≡◌};
ghost use Rattle.std.specs.Borrow.{ftrue};

use std::marker::{Model, PhantomData};

/// A `T` as clauses see it, as in the library's `Snapshot`. It has no bytes; a struct that holds one may go to another thread, and be shared, as far as its other fields may.
#[derive(Drop)]
pub struct Shown<T> {
    marker: PhantomData<T>,
    pub ghost value: { T },
}

impl<T> Model for Shown<T> {
    ghost also_owns = { λ _. ftrue };
}

impl<T> Shown<T> {
    pub(crate) fn of(x: &T) -> Shown<T>
        ensures { result.value ≡ x.now }
    {
        let _ = x;
        Shown {
            marker: PhantomData,
        }
    }
}

// It owns nothing. That the two hold is proved, in proofs/shown.
unsafe impl<T> Send for Shown<T> {}

unsafe impl<T> Sync for Shown<T> {}
