//! The sizes that the lines of a script name, in their order.
ghost use Rattle.std.specs.Prelude.{◌≡◌};
ghost use Rattle.lw_scripts.specs.Filling.{is_unnamed, more_sizes, named};

use crate::parts::{SizeName, Sizes};

impl Sizes {
    /// No size is named.
    pub const NONE: Sizes = Sizes {
        ram: None,
        pool: None,
        rom: None,
        reference: None,
        mailbox: None,
        tcpip: None,
        descriptors: None,
        window: None,
    };

    // Whether neither the size of this name nor one that stands behind it is named.
    fn is_unnamed(self, name: SizeName) -> bool
        ensures { result ≡ is_unnamed name self }
    {
        let window = self.window.is_none();
        let descriptors = window && self.descriptors.is_none();
        let tcpip = descriptors && self.tcpip.is_none();
        let mailbox = tcpip && self.mailbox.is_none();
        let reference = mailbox && self.reference.is_none();
        let rom = reference && self.rom.is_none();
        let pool = rom && self.pool.is_none();
        match name {
            SizeName::Window => window,
            SizeName::Descriptors => descriptors,
            SizeName::Tcpip => tcpip,
            SizeName::Mailbox => mailbox,
            SizeName::Reference => reference,
            SizeName::Rom => rom,
            SizeName::Pool => pool,
            SizeName::Ram => pool && self.ram.is_none(),
        }
    }

    // These sizes and the one of this name.
    fn named(self, name: SizeName, size: u32) -> Sizes
        ensures { result ≡ named name size self }
    {
        let size = Some(size);
        match name {
            SizeName::Ram => Sizes { ram: size, ..self },
            SizeName::Pool => Sizes { pool: size, ..self },
            SizeName::Rom => Sizes { rom: size, ..self },
            SizeName::Reference => Sizes {
                reference: size,
                ..self
            },
            SizeName::Mailbox => Sizes {
                mailbox: size,
                ..self
            },
            SizeName::Tcpip => Sizes {
                tcpip: size,
                ..self
            },
            SizeName::Descriptors => Sizes {
                descriptors: size,
                ..self
            },
            SizeName::Window => Sizes {
                window: size,
                ..self
            },
        }
    }

    /// These sizes and one more, where it stands behind those that are named.
    pub fn with(self, name: SizeName, size: u32) -> Option<Sizes>
        ensures { result ≡ more_sizes self name size }
    {
        if self.is_unnamed(name) {
            Some(self.named(name, size))
        } else {
            None
        }
    }
}
