//! What a placement file says.

ghost use Rattle.std.specs.Prelude.{◌≡◌};
ghost use Rattle.luplace_file.specs.Lawful.{IsLawful};

use lubase::{Name, Row};
use std::marker::Model;

/// A variable of the main node, and the sites at which it stands, by number, in order.
pub struct Placed {
    /// The name of the variable.
    pub variable: Name,
    /// The numbers of its sites, at least one, each greater than the one before.
    pub sites: Row<u8>,
}

// By hand, so that it is proved here alone, and not in each crate that owns one.
impl Drop for Placed {
    fn drop(self) {
        let Self {
            variable: _,
            sites: _,
        } = self;
    }
}

/// What a placement file says. A contract sees the `PlaceView` of `specs/Content.antt`, which keeps the rules
/// of `specs/Lawful.antt`.
pub struct Place {
    names: Row<Name>,
    default: Row<u8>,
    capacity: u16,
    entries: Row<Placed>,
}

// By hand, so that it is proved here alone, and not in each crate that owns one.
impl Drop for Place {
    fn drop(self) {
        let Self {
            names: _,
            default: _,
            capacity: _,
            entries: _,
        } = self;
    }
}

impl Model for Place {
    ghost use Rattle.luplace_file.specs.Content.{PlaceView};
    ghost use Rattle.luplace_file.specs.Lawful.{IsLawful};

    ghost Value = { PlaceView };

    ghost view = { λ a. record {
      sites = a.names;
      default = a.default;
      capacity = a.capacity;
      place = a.entries;
    } };

    ghost invariant = { λ a. IsLawful (record {
      sites = a.names;
      default = a.default;
      capacity = a.capacity;
      place = a.entries;
    }) };
}

impl Place {
    /// The placement of these parts.
    pub(crate) fn of_parts(
        names: Row<Name>,
        default: Row<u8>,
        capacity: u16,
        entries: Row<Placed>,
    ) -> Place
        requires { IsLawful
            (record { sites = names; default = default; capacity = capacity; place = entries }) }
        ensures { result
            ≡ record { sites = names; default = default; capacity = capacity; place = entries } }
    {
        Place {
            names,
            default,
            capacity,
            entries,
        }
    }

    /// The names of the sites, 1 to 16. A site's number is its place here.
    pub fn sites(&self) -> &[Name]
        ensures sites { result.now ≡ self.now.sites }
        ensures lawful { IsLawful self.now }
    {
        self.names.as_slice()
    }

    /// The sites of the variables that have no entry, by number, in order. Empty where the file gives no
    /// default.
    pub fn default_sites(&self) -> &[u8]
        ensures { result.now ≡ self.now.default }
    {
        self.default.as_slice()
    }

    /// How many messages each link holds, 1 to 1,024.
    pub fn capacity(&self) -> u16
        ensures { result ≡ self.now.capacity }
    {
        self.capacity
    }

    /// The variables that the file places, and where.
    pub fn entries(&self) -> &[Placed]
        ensures { result.now ≡ self.now.place }
    {
        self.entries.as_slice()
    }
}
