//! Texts that several owners share.

ghost use Rattle.std.specs.Prelude.{◌≡◌, IfOk};

use crate::name::Name;
use std::alloc::{AllocError, Global};
use std::marker::Model;
use std::rc::Rc;

/// A text that never changes and may have several owners, such as the name of the variable that many clocks
/// name. It lies in memory once, however many they are. A contract sees its bytes, as those of a [`Name`].
pub struct SharedName {
    name: Rc<Name>,
}

// By hand, so that it is proved here alone, and not in each crate that owns one.
impl Drop for SharedName {
    fn drop(self) {
        let Self { name: _ } = self;
    }
}

impl Model for SharedName {
    ghost use Rattle.std.specs.Prelude.{List, ℕ};

    ghost Value = { List ℕ };

    ghost view = { λ n. n.name.value };
}

impl SharedName {
    /// This name, which may be shared from now on.
    pub fn new(alloc: Global, name: Name) -> Result<SharedName, AllocError>
        ensures { IfOk result (λ shared. shared ≡ name) }
    {
        Ok(SharedName {
            name: Rc::new(alloc, name)?,
        })
    }

    /// The name that is spelled so.
    pub fn from_text(alloc: Global, text: &str) -> Result<SharedName, AllocError>
        ensures { IfOk result (λ shared. shared ≡ text.now) }
    {
        SharedName::new(alloc, Name::from_text(alloc, text)?)
    }

    /// The name for one owner more, where it lies in memory already. It takes no memory; it is refused where
    /// there are as many owners as can be counted.
    pub fn shared(&self) -> Result<SharedName, AllocError>
        ensures { IfOk result (λ shared. shared ≡ self.now) }
    {
        Ok(SharedName {
            name: self.name.clone()?,
        })
    }

    /// The text.
    pub fn as_str(&self) -> &str
        ensures { result.now ≡ self.now }
    {
        self.name.as_str()
    }
}
