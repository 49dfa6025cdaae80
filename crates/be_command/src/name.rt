ghost use Rattle.std.specs.Prelude.{◌≡◌, ◌≤◌, ◌<◌, ◌++◌, ◌∷◌, [], length, slice_index_or, IfOk};
ghost use Rattle.std.specs.Prelude.{OnErr, OnOk};
ghost use Rattle.std.specs.List.{list_any, position_from};
ghost use Rattle.std.specs.Str.{bytes_eq};
ghost use Rattle.be_command.specs.Names.{name_fault, AreNames, IsNumberedFrom};

use crate::fault::NameFault;
use be_lex::{is_name, is_reserved_name};
use std::alloc::{AllocError, Global};
use std::marker::Model;

// The bytes of a name, seen as the list of them.
#[derive(Debug, Drop)]
pub(crate) struct Name {
    bytes: Vec<u8>,
}

impl Model for Name {
    ghost use Rattle.std.specs.Prelude.{ℕ, List};

    ghost Value = { List ℕ };

    ghost view = { λ n. n.bytes.items };
}

impl Name {
    fn of(alloc: Global, bytes: &[u8]) -> Result<Name, AllocError>
        ensures { IfOk result (λ name. name ≡ bytes.now) }
    {
        Ok(Name {
            bytes: Vec::from_slice(alloc, bytes)?,
        })
    }

    pub(crate) fn as_slice(&self) -> &[u8]
        ensures { result.now ≡ self.now }
    {
        self.bytes.as_slice()
    }
}

// Names that stand side by side, in the order in which they were added.
#[derive(Debug, Drop)]
pub(crate) struct NameList {
    names: Vec<Name>,
}

impl Model for NameList {
    ghost use Rattle.std.specs.Prelude.{◌≤◌, ℕ, List, vec_len};
    ghost use Rattle.be_command.specs.Names.{AreNames};

    ghost Value = { List (List ℕ) };

    ghost view = { λ n. n.names.items };

    ghost invariant = { λ n. AreNames n.names.items × (vec_len n.names ≤ 64) };
}

impl NameList {
    pub(crate) fn new(alloc: Global) -> NameList
        ensures { result ≡ [] }
    {
        NameList {
            names: Vec::new(alloc),
        }
    }

    // Each may be declared, and no two are the same. This says it, and does nothing.
    pub(crate) fn are_names(&self)
        ensures { AreNames self.now }
    {
        let _names = &self.names;
    }

    // Adds a name behind the others, of which there may be so many, and gives its number. The first
    // of them has the number `first`.
    #[tactic(auto, using(crate::proofs::NameLemmas::is_due))]
    pub(crate) fn add(&mut self, name: &[u8], first: u16, most: usize) -> Result<u16, NameFault>
        requires few { most ≤ 64 }
        requires low { first ≤ 1 }
        ensures number { IsNumberedFrom first result (name_fault most self.old name.now) self.old }
        ensures ok { OnOk result (self.new ≡ self.old ++ name.now ∷ []) }
        ensures err { OnErr result (self.new ≡ self.old) }
    {
        if let Some(fault) = self.fault_of(name, most) {
            return Err(fault);
        }
        let alloc = *self.names.allocator();
        let number = first + self.names.len() as u16;
        self.names.push(Name::of(alloc, name)?)?;
        Ok(number)
    }

    // Why the name isn't added, where it isn't.
    fn fault_of(&self, name: &[u8], most: usize) -> Option<NameFault>
        ensures { result ≡ name_fault most self.now name.now }
    {
        if !is_name(name) {
            Some(NameFault::BadName)
        } else if is_reserved_name(name) || self.has(name) {
            Some(NameFault::NameTaken)
        } else if most <= self.names.len() {
            Some(NameFault::TooMany)
        } else {
            None
        }
    }

    fn has(&self, name: &[u8]) -> bool
        ensures { result ≡ list_any (λ other. bytes_eq other name.now) self.now }
    {
        self.names.iter().any(|other| other.as_slice() == name)
    }

    // The number of a name, where the first has the number `first`.
    pub(crate) fn number(&self, name: &[u8], first: u16) -> Option<u16>
        requires { first ≤ 1 }
        ensures { result ≡ position_from (λ other. bytes_eq other name.now) first self.now }
    {
        for (place, other) in self.names.iter().enumerate() {
            if other.as_slice() == name {
                return Some(first + place as u16);
            }
        }
        None
    }

    // The name at a place, or nothing where there is none.
    pub(crate) fn name_at(&self, place: usize) -> &[u8]
        ensures { result.now ≡ slice_index_or self.now place [] }
    {
        match self.names.get(place) {
            Some(name) => name.as_slice(),
            None => b"",
        }
    }
}
