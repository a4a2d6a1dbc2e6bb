// Where reading a virtual address stopped.
ghost use Rattle.std.specs.Prelude.{IsTrue};
ghost use Rattle.kc_memory.specs.Stopped.{Stopped, is_stop};

use crate::rule::Rule;
use crate::words::PWord;
use std::marker::Model;

/// Reading a virtual address stopped. The level is 0 exactly for M1, M2 and M6, and else from 1 to 5. The
/// entry is there exactly for M4 and M5.
#[derive(Clone, Copy, Debug, PartialEq, Eq)]
pub struct Miss {
    /// The virtual address that was asked.
    pub va: u64,
    /// What stopped it.
    pub rule: Rule,
    /// The level of the table whose entry stopped it: 1 for a PTE, 2 for a PDE, 3 for a PDPTE, 4 for a
    /// PML4E, 5 for a PML5E. It is 0 where no entry did.
    pub level: u8,
    /// The physical address of the word that is absent or refused, or 0 for M1 and M2.
    pub pa: u64,
    /// The refused entry as it stands in the dump, and its place.
    pub entry: Option<PWord>,
}

impl Model for Miss {
    ghost Value = { Stopped };

    ghost view = { λ m. record { va = m.va; rule = m.rule; level = m.level; pa = m.pa; entry = m.entry } };

    ghost invariant = { λ m. IsTrue (is_stop m.rule m.level m.entry) };

    ghost inverse = { λ s. record { va = s.va; rule = s.rule; level = s.level; pa = s.pa; entry = s.entry } };
}
