// One value for each slot.
ghost use Rattle.std.specs.Prelude.{◌≡◌};
ghost use Rattle.kc_outside.specs.Slots.{in_slot, with_slot};

use crate::store::Slot;
use std::mem;

// A value for each slot. That of the slot `Module` is `extra`.
#[derive(Drop)]
pub(crate) struct Slots<T> {
    pub(crate) dump: T,
    pub(crate) btf: T,
    pub(crate) map: T,
    pub(crate) plan: T,
    pub(crate) report: T,
    pub(crate) extra: T,
}

impl<T> Slots<T> {
    // What a slot has.
    pub(crate) fn get(&self, slot: Slot) -> &T
        ensures { result.now ≡ in_slot self.now slot }
    {
        match slot {
            Slot::Dump => &self.dump,
            Slot::Btf => &self.btf,
            Slot::Map => &self.map,
            Slot::Plan => &self.plan,
            Slot::Report => &self.report,
            Slot::Module => &self.extra,
        }
    }

    // Gives a slot another value, and says what it had.
    pub(crate) fn replace(&mut self, slot: Slot, value: T) -> T
        ensures before { result ≡ in_slot self.old slot }
        ensures after { self.new ≡ with_slot self.old slot value }
    {
        match slot {
            Slot::Dump => mem::replace(&mut self.dump, value),
            Slot::Btf => mem::replace(&mut self.btf, value),
            Slot::Map => mem::replace(&mut self.map, value),
            Slot::Plan => mem::replace(&mut self.plan, value),
            Slot::Report => mem::replace(&mut self.report, value),
            Slot::Module => mem::replace(&mut self.extra, value),
        }
    }
}
