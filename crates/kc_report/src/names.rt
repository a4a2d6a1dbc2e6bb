// The names of a plan's audits.
ghost use Rattle.std.specs.Prelude.{◌≡◌, ◌<◌, [], ◌∷◌, ◌++◌, length, IsTrue, OnOk, OnErr, Some, slice_get};
ghost use Rattle.kc_text.specs.Readers.{is_name};

use kc_found::{Items, Name};
use kc_word::NoMemory;
use std::alloc::Global;
use std::marker::Model;

/// The names of a plan's audits, in the order of the plan. Each has 1 to 64 bytes: letters, digits, `_` and `-`.
#[derive(Drop)]
pub struct PlanNames {
    names: Items<Name>,
}

impl Model for PlanNames {
    ghost use Rattle.std.specs.Prelude.{ℕ, List, IsTrue};
    ghost use Rattle.kc_report.specs.Names.{are_names};

    ghost Value = { List (List ℕ) };

    ghost view = { λ p. p.names };

    ghost invariant = { λ p. IsTrue (are_names p.names) };
}

impl PlanNames {
    /// No names. It takes no memory.
    pub fn new(alloc: Global) -> Self
        ensures { result ≡ [] }
    {
        PlanNames {
            names: Items::new(alloc),
        }
    }

    /// Adds the name of the next audit.
    ///
    /// # Errors
    ///
    /// Out of memory, where the names stay as they were.
    pub fn push(&mut self, name: Name) -> Result<(), NoMemory>
        requires { IsTrue (is_name name) }
        ensures added { OnOk result (self.new ≡ self.old ++ name ∷ []) }
        ensures kept { OnErr result (self.new ≡ self.old) }
    {
        self.names.push(name)
    }

    /// Adds a copy of the name of the next audit.
    ///
    /// # Errors
    ///
    /// Out of memory, where the names stay as they were.
    pub fn push_copy(&mut self, alloc: Global, name: &Name) -> Result<(), NoMemory>
        requires { IsTrue (is_name name.now) }
        ensures added { OnOk result (self.new ≡ self.old ++ name.now ∷ []) }
        ensures kept { OnErr result (self.new ≡ self.old) }
    {
        let copy = name.copied(alloc)?;
        self.push(copy)
    }

    /// The number of names.
    pub fn len(&self) -> usize
        ensures { result ≡ length self.now }
    {
        self.names.len()
    }

    /// The name of the audit with a number, counted from 0.
    pub fn get(&self, i: usize) -> &Name
        requires { i < length self.now }
        ensures name { slice_get self.now i ≡ Some result.now }
        ensures form { IsTrue (is_name result.now) }
    {
        self.names.get(i)
    }
}
