ghost use Rattle.std.specs.Prelude.{◌≡◌, IfOk};

use crate::{Bytes, Copies, NoMemory, Seq};
use std::alloc::Global;
use std::marker::Model;

/// The UTF-8 bytes of a name, which contracts see as a list.
#[derive(Drop)]
pub struct Name {
    bytes: Bytes,
}

/// Names.
pub type Names = Seq<Name>;

impl Model for Name {
    ghost use Rattle.std.specs.Prelude.{List, ℕ};
    ghost use Rattle.std.specs.Coded.{coded_list, coded_ℕ};

    ghost Value = { List ℕ };

    ghost coded = { coded_list coded_ℕ };

    ghost view = { λ name. name.bytes };
}

impl Name {
    /// The name that has these bytes.
    pub fn from_bytes(bytes: Bytes) -> Name
        ensures { result ≡ bytes }
    {
        Name { bytes }
    }

    /// The name that has the bytes of a slice.
    ///
    /// # Errors
    ///
    /// `NoMemory` where there is no room for the bytes.
    pub fn from_slice(alloc: Global, bytes: &[u8]) -> Result<Name, NoMemory>
        ensures { IfOk result (λ name. name ≡ bytes.now) }
    {
        Ok(Name {
            bytes: Seq::from_slice(alloc, bytes)?,
        })
    }

    /// The bytes of the name.
    pub fn as_slice(&self) -> &[u8]
        ensures { result.now ≡ self.now }
    {
        self.bytes.as_slice()
    }
}

impl Copies for Name {
    fn copy(&self, alloc: Global) -> Result<Name, NoMemory> {
        Name::from_slice(alloc, self.bytes.as_slice())
    }
}
