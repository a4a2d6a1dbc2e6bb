// Translations that are kept.
ghost use Rattle.std.specs.Prelude.{◌≡◌, ◌+◌, ◌%◌, ◌/◌, ◌^◌, ◌<◌, ◌≤◌, vec_len, None, Err, Ok, IfOk, IfSome};
ghost use Rattle.std.specs.Bool.{OnFalse};
ghost use Rattle.std.proofs.Props.{props};
ghost use Rattle.kc_memory.specs.declared.rule.Rule.TheVariants.{M2};
ghost use Rattle.kc_memory.specs.Reads.{StepsAre, walk_reads};
ghost use Rattle.kc_memory.specs.Space.{StopsAt};
ghost use Rattle.kc_memory.specs.Stays.{CountsFaults, FramesStay};
ghost use Rattle.kc_memory.specs.Translation.{is_canonical, levels, translated};
ghost use Rattle.kc_page.specs.Step.{IsWalked};
ghost use Rattle.kc_tlb.specs.Entries.{AreEmpty, ArePlaced, AreTranslations, CostsBy, Leaves, page_of, piece_of};

use crate::entry::Entry;
use kc_memory::{Frames, Stop, know_pages};
use kc_page::walk;
use kc_word::{NoMemory, Pa, PageCfg, Steps};
use std::alloc::Global;
use std::sync::ledger::Ledger;

/// Translations of pages of 4096 bytes, in fixed places. A page's place is its number modulo the number of places.
#[derive(Drop)]
pub struct Tlb {
    /// How addresses are translated. The physical address of the top table is a multiple of 4096 below 2^52.
    pub paging: PageCfg,
    /// The places, each empty or with an entry.
    pub places: Vec<Option<Entry>>,
    pub ghost aligned: { paging.table % 4096 ≡ 0 },
    pub ghost small: { paging.table < 2 ^ 52 },
    pub ghost some: { 1 ≤ vec_len places },
    pub ghost placed: { ArePlaced paging places.items } by { Prim.hlevel props },
}

const PAGE_BYTES: u64 = 4096;

// As many places as memories mostly have: a page's place among them takes no division.
const USUAL: u64 = 4096;

impl Tlb {
    ghost use Rattle.std.specs.Prelude.{IsTrue, Some, slice_set};
    ghost use Rattle.kc_tlb.specs.Entries.{entry_of, place_in};

    /// So many empty places. It takes their memory.
    ///
    /// # Errors
    ///
    /// `NoMemory` where no memory is left.
    pub fn new(alloc: Global, paging: PageCfg, kept: usize) -> Result<Self, NoMemory>
        requires aligned { paging.table % 4096 ≡ 0 }
        requires small { paging.table < 2 ^ 52 }
        requires some { 1 ≤ kept }
        ensures paging { IfOk result (λ tlb. tlb.paging ≡ paging) }
        ensures places { IfOk result (λ tlb. vec_len tlb.places ≡ kept) }
        ensures empty { IfOk result (λ tlb. AreEmpty tlb.places.items) }
    {
        let places = empty_places(alloc, kept)?;
        Ok(Tlb { paging, places })
    }

    /// The physical address of a virtual one, both in bytes, as `walk` gives it. A page that is among the entries
    /// costs no step. Another costs those of the walk, and after a good one it is the entry of its place. It takes no
    /// memory.
    ///
    /// # Errors
    ///
    /// Those of `walk`. The entries are then as they were.
    pub fn translate<F: Frames, L: Ledger>(
        &mut self,
        frames: &mut F,
        va: u64,
        steps: &mut Steps<L>,
    ) -> Result<Pa, Stop>
        requires { AreTranslations (F.image frames.old) self.old.paging self.old.places.items }

        ensures translated { IsWalked (λ physical. translated (record { physical = physical; paging = self.old.paging }) va) (F.image frames.old) result }
        // An address that isn't canonical is told at once, with no word read.
        ensures outside { OnFalse (is_canonical self.old.paging va) (result ≡ Err (Stop.Miss (record { va = va; rule = M2; level = 0; pa = 0; entry = None }))) }
        ensures at_once { OnFalse (is_canonical self.old.paging va) (steps.new ≡ steps.old) }
        ensures stopped { StopsAt result va }
        ensures offset { IfOk result (λ pa. pa.0 % 4096 ≡ va % 4096) }
        ensures small { IfOk result (λ pa. pa.0 < 2 ^ 52) }

        // A page that is among the entries costs no step, and nothing is read. Another costs a step for each entry of
        // the page tables on its way, and no other.
        ensures reads { CostsBy (λ physical. walk_reads (record { physical = physical; paging = self.old.paging }) va) (piece_of self.old.places.items (page_of va)) (F.image frames.old) result steps.old steps.new }
        ensures steps { steps.new ≤ steps.old + levels self.old.paging }
        ensures kept { IfSome (piece_of self.old.places.items (page_of va)) (λ piece. result ≡ Ok (record { 0 = piece + va % 4096 })) }
        ensures unread { IfSome (piece_of self.old.places.items (page_of va)) (λ _. frames.new ≡ frames.old) }
        ensures unchanged { IfSome (piece_of self.old.places.items (page_of va)) (λ _. self.new.places.items ≡ self.old.places.items) }

        ensures places { Leaves va result self.old.places.items self.new.places.items }
        ensures paging { self.new.paging ≡ self.old.paging }
        ensures true_still { AreTranslations (F.image frames.new) self.new.paging self.new.places.items }
        ensures stays { FramesStay F.image F.files F.through frames.old frames.new }
        ensures cause { CountsFaults result (F.faults frames.old) (F.faults frames.new) }
    {
        know_pages();
        match self.piece(va / PAGE_BYTES) {
            Some(piece) => Ok(Pa(piece + va % PAGE_BYTES)),
            None => self.walked(frames, va, steps),
        }
    }

    // Walks the tables, and keeps where they lead.
    #[inline(never)]
    fn walked<F: Frames, L: Ledger>(
        &mut self,
        frames: &mut F,
        va: u64,
        steps: &mut Steps<L>,
    ) -> Result<Pa, Stop>
        requires { AreTranslations (F.image frames.old) self.old.paging self.old.places.items }

        ensures translated { IsWalked (λ physical. translated (record { physical = physical; paging = self.old.paging }) va) (F.image frames.old) result }
        ensures outside { OnFalse (is_canonical self.old.paging va) (result ≡ Err (Stop.Miss (record { va = va; rule = M2; level = 0; pa = 0; entry = None }))) }
        ensures at_once { OnFalse (is_canonical self.old.paging va) (steps.new ≡ steps.old) }
        ensures stopped { StopsAt result va }
        ensures offset { IfOk result (λ pa. pa.0 % 4096 ≡ va % 4096) }
        ensures small { IfOk result (λ pa. pa.0 < 2 ^ 52) }
        ensures reads { StepsAre (λ physical. walk_reads (record { physical = physical; paging = self.old.paging }) va) (F.image frames.old) result steps.old steps.new }
        ensures steps { steps.new ≤ steps.old + levels self.old.paging }
        ensures places { Leaves va result self.old.places.items self.new.places.items }
        ensures paging { self.new.paging ≡ self.old.paging }
        ensures true_still { AreTranslations (F.image frames.new) self.new.paging self.new.places.items }
        ensures stays { FramesStay F.image F.files F.through frames.old frames.new }
        ensures cause { CountsFaults result (F.faults frames.old) (F.faults frames.new) }
    {
        know_pages();
        match walk(frames, &self.paging, va, steps) {
            Ok(pa) => {
                self.keep(va, pa.0);
                Ok(pa)
            }
            Err(stop) => Err(stop),
        }
    }

    // The physical address of a page, if it is among the entries.
    fn piece(&self, page: u64) -> Option<u64>
        ensures { result ≡ piece_of self.now.places.items page }
    {
        match self.places[self.place(page)] {
            Some(entry) if entry.page == page => Some(entry.piece),
            _ => None,
        }
    }

    // The place of a page.
    fn place(&self, page: u64) -> usize
        ensures place { result ≡ place_in self.now.places.items page }
        ensures within { result < vec_len self.now.places }
    {
        let count = self.places.len() as u64;
        if count == USUAL {
            (page % USUAL) as usize
        } else {
            (page % count) as usize
        }
    }

    // Keeps where an address's page leads, in the page's place.
    fn keep(&mut self, va: u64, pa: u64)
        requires canonical { IsTrue (is_canonical self.old.paging va) }
        requires small { pa < 2 ^ 52 }
        ensures places { self.new.places.items ≡ slice_set self.old.places.items (place_in self.old.places.items (page_of va)) (Some (entry_of va pa)) }
        ensures paging { self.new.paging ≡ self.old.paging }
    {
        let page = va / PAGE_BYTES;
        let at = self.place(page);
        self.places[at] = Some(Entry {
            page,
            piece: pa / PAGE_BYTES * PAGE_BYTES,
        });
    }
}

// So many empty places.
fn empty_places(alloc: Global, kept: usize) -> Result<Vec<Option<Entry>>, NoMemory>
    ensures places { IfOk result (λ places. vec_len places ≡ kept) }
    ensures empty { IfOk result (λ places. AreEmpty places.items) }
{
    let mut places = Vec::new(alloc);
    while places.len() < kept {
        places.push(None)?;
    }
    Ok(places)
}
