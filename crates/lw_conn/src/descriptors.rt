ghost use Rattle.std.specs.Prelude.{◌≡◌, None, IsTrue, is_some, Some, option_copied, IfOk, length};
ghost use Rattle.lw_conn.specs.Descriptors.{all_free, closed, descriptor, lowest_free, opened, set, with_option};

use crate::NoMemory;
use lw_events::FdOption;
use std::alloc::Global;
use std::marker::Model;

/// What a descriptor is of: a connection, whether that is one of UDP, whether calls on it don't wait, and
/// how many ticks they wait at most, 0 for no end.
#[derive(Clone, Copy, Debug, PartialEq, Eq)]
pub struct Descriptor {
    pub conn: u32,
    pub udp: bool,
    pub nonblock: bool,
    pub timeout: u32,
}

/// The descriptors. Contracts see them as a list by their numbers from 0; a free one is none.
#[derive(Drop)]
pub struct Descriptors {
    places: Vec<Option<Descriptor>>,
}

impl Model for Descriptors {
    ghost use Rattle.std.specs.Prelude.{◌<◌, ◌^◌, List, Option, length};
    ghost use Rattle.lw_conn.specs.declared.descriptors.Descriptor.{Descriptor as OfDescriptor};

    ghost Value = { List (Option OfDescriptor) };

    ghost view = { λ d. d.places.items };

    ghost invariant = { λ d. length d.places.items < 2 ^ 32 };
}

impl Descriptors {
    /// So many descriptors, all free.
    pub fn new(alloc: Global, many: u32) -> Result<Descriptors, NoMemory>
        ensures { IfOk result (λ d. d ≡ all_free many) }
    {
        Ok(Descriptors {
            places: Vec::from_elem(alloc, None, many as usize)?,
        })
    }

    /// What a descriptor is of, where it isn't free.
    pub fn get(&self, fd: u32) -> Option<&Descriptor>
        ensures { option_copied result ≡ descriptor self.now fd }
    {
        self.places.get(fd as usize)?.as_ref()
    }

    /// The lowest free descriptor.
    pub fn lowest_free(&self) -> Option<u32>
        ensures { result ≡ lowest_free self.now }
    {
        let place = first_none(&self.places)?;
        Some(place as u32)
    }

    /// Opens a free descriptor for a connection.
    pub fn open(&mut self, fd: u32, conn: u32, udp: bool)
        requires free { lowest_free self.old ≡ Some fd }
        ensures { self.new ≡ opened self.old fd conn udp }
    {
        self.places[fd as usize] = Some(Descriptor {
            conn,
            udp,
            nonblock: false,
            timeout: 0,
        });
    }

    /// Tells a descriptor that isn't free whether to wait, or how long.
    pub fn set(&mut self, fd: u32, option: FdOption)
        requires open { IsTrue (is_some (descriptor self.old fd)) }
        ensures { self.new ≡ set self.old fd option }
    {
        let Some(descriptor) = self.places[fd as usize] else {
            unreachable!()
        };
        self.places[fd as usize] = Some(with_option(descriptor, option));
    }

    /// Frees a descriptor.
    pub fn close(&mut self, fd: u32)
        requires open { IsTrue (is_some (descriptor self.old fd)) }
        ensures { self.new ≡ closed self.old fd }
    {
        self.places[fd as usize] = None;
    }
}

// The first place where there is none.
fn first_none(places: &[Option<Descriptor>]) -> Option<usize>
    ensures { result ≡ lowest_free places.now }
{
    places.iter().position(|place| place.is_none())
}

// A descriptor that was told an option.
fn with_option(descriptor: Descriptor, option: FdOption) -> Descriptor
    ensures { result ≡ with_option option descriptor }
{
    match option {
        FdOption::NonBlock(nonblock) => Descriptor {
            nonblock,
            ..descriptor
        },
        FdOption::Timeout(timeout) => Descriptor {
            timeout,
            ..descriptor
        },
    }
}
