ghost use Rattle.std.specs.Prelude.{◌≡◌, ◌==◌, List, length};

use std::marker::Model;

/// A list of values, which contracts see as that list alone. It is made from a `Vec` and gives it
/// back without taking memory.
#[derive(Drop)]
pub struct Series<T> {
    items: Vec<T>,
}

impl<T> Model for Series<T> {
    ghost Value = { List T };

    ghost view = { λ s. s.items.items };
}

impl<T> Series<T> {
    pub fn from_vec(items: Vec<T>) -> Series<T>
        ensures { result ≡ items.items }
    {
        Series { items }
    }

    pub fn into_vec(self) -> Vec<T>
        ensures { result.items ≡ self }
    {
        let Series { items } = self;
        items
    }

    pub fn as_slice(&self) -> &[T]
        ensures { result.now ≡ self.now }
    {
        self.items.as_slice()
    }

    pub fn len(&self) -> usize
        ensures { result ≡ length self.now }
    {
        self.items.len()
    }

    pub fn is_empty(&self) -> bool
        ensures { result ≡ (length self.now == 0) }
    {
        self.items.is_empty()
    }
}

/// A list of octets: a frame, the data of a packet, a text.
pub type Octets = Series<u8>;

/// A list of Ethernet frames.
pub type FrameList = Series<Octets>;
