// A type of the kernel's type information at a virtual address.
use crate::pointers::{Reached, all_offsets, behind, reach};
use kc_btf::Btf;
use kc_layout::{Field, Hops, Located, array_under, size_of};
use kc_memory::{Place, Scalar, Space, Stop, read_bits};
use kc_word::Steps;
use std::marker::Model;
use std::sync::ledger::Ledger;

/// A type at a virtual address: seen as the type information, the type's number in it, and the address in
/// bytes.
#[derive(Drop)]
pub struct View<'b> {
    btf: &'b Btf,
    ty: u32,
    at: u64,
}

impl<'b> Model for View<'b> {
    ghost use Rattle.std.specs.Prelude.{◌≤◌, length};
    ghost use Rattle.kc_view.specs.Typed.{Typed};

    ghost Value = { Typed };

    ghost view = { λ v. record { types = v.btf.now; ty = v.ty; at = v.at } };

    ghost invariant = { λ v. v.ty ≤ length v.btf.now.records };
}

/// Where a path leads from a view.
#[derive(Drop)]
pub enum Led<'b> {
    /// To what lies there.
    At(View<'b>),
    /// To a null pointer, the first that has to be followed: the place of its first word, and the virtual
    /// address of its first byte.
    Null(Place, u64),
}

impl<'b> View<'b> {
    ghost use Rattle.std.specs.Prelude.{◌≡◌, ◌+◌, ◌*◌, ◌≤◌, length, IfOk, IfSome};
    ghost use Rattle.kc_memory.specs.Bits.{InBits};
    ghost use Rattle.kc_memory.specs.Space.{AnswersAs};
    ghost use Rattle.kc_memory.specs.Stays.{CountsFaults, SpaceStays};
    ghost use Rattle.kc_layout.specs.HopList.{hop_list};
    ghost use Rattle.kc_layout.specs.Views.{bits_view};
    ghost use Rattle.kc_view.specs.Elements.{element_of};
    ghost use Rattle.kc_view.specs.Paths.{LeadsTo, followed};
    ghost use Rattle.kc_view.specs.Pointers.{behind, value_at};
    ghost use Rattle.kc_view.specs.Typed.{laid, part_of};
    ghost use Rattle.kc_view.specs.Words.{StepsOf, words_at, words_behind, words_reached};

    /// The type of a number at a virtual address.
    pub fn new(btf: &'b Btf, ty: u32, at: u64) -> View<'b>
        requires { ty ≤ length btf.now.records }
        ensures { result ≡ record { types = btf.now; ty = ty; at = at } }
    {
        View { btf, ty, at }
    }

    /// The type's number.
    pub fn ty(&self) -> u32
        ensures exact { result ≡ self.now.ty }
        ensures inside { result ≤ length self.now.types.records }
    {
        self.ty
    }

    /// The virtual address in bytes.
    pub fn at(&self) -> u64
        ensures { result ≡ self.now.at }
    {
        self.at
    }

    /// The member that a path leads to, where it follows no pointer, and else `None`.
    pub fn part(&self, to: &Located) -> Option<View<'b>>
        requires { to.now.ty ≤ length self.now.types.records }
        ensures exact { result ≡ part_of self.now to.now }
        ensures types { IfSome result (λ part. part.types ≡ self.now.types) }
    {
        if to.hops.count == 0 {
            Some(self.laid(self.at, to.byte, to.ty))
        } else {
            None
        }
    }

    /// The element with an index, starting at 0. `None` where the type isn't an array, under at most 32
    /// modifiers, where the array has no element with that index, and where an element has no size.
    pub fn element(&self, index: u64) -> Option<View<'b>>
        ensures exact { result ≡ element_of self.now index }
        ensures types { IfSome result (λ element. element.types ≡ self.now.types) }
    {
        let array = array_under(self.btf, self.ty)?;
        if index >= u64::from(array.nelems) {
            return None;
        }
        let size = size_of(self.btf, array.ty)?;
        Some(self.laid(self.at, index * size, array.ty))
    }

    /// The virtual address behind pointers, in bytes: where the bits of a field with these pointers are counted
    /// from, and the view's own address where there is no pointer. A null pointer is followed like any other. It
    /// takes no memory.
    ///
    /// The byte that a field begins in, which of a bit-field is that of its first bit, is as many bytes on from
    /// there as its first bit has whole bytes.
    ///
    /// # Errors
    ///
    /// The first stop, and `Fault` where reading the dump failed.
    pub fn behind<S: Space, L: Ledger>(
        &self,
        space: &mut S,
        hops: &Hops,
        steps: &mut Steps<L>,
    ) -> Result<u64, Stop>
        ensures exact { AnswersAs (λ image. behind image self.now.at (hop_list hops.now)) (S.image space.old) result }
        ensures steps { steps.new ≤ steps.old + 2 * (length (hop_list hops.now) * S.most space.old) }
        ensures words { StepsOf (λ image. words_behind image self.now.at (hop_list hops.now))
            (S.image space.old) result (S.most space.old) steps.old steps.new }

        ensures stays { SpaceStays S.image S.files S.through S.most space.old space.new }
        ensures cause { CountsFaults result (S.faults space.old) (S.faults space.new) }
    {
        let offsets = all_offsets(hops);
        behind(space, self.at, &offsets[..usize::from(hops.count)], steps)
    }

    /// The number of a field: the bits from the address on that `behind` gives. Only its pointers and bits are
    /// used. It reads no word that the number doesn't need, and takes no memory.
    ///
    /// # Errors
    ///
    /// The first stop, and `Fault` where reading the dump failed.
    pub fn read<S: Space, L: Ledger>(
        &self,
        space: &mut S,
        field: &Field,
        steps: &mut Steps<L>,
    ) -> Result<Scalar, Stop>
        ensures exact { AnswersAs
            (λ image. value_at image self.now.at (hop_list field.now.hops) (bits_view field.now.bits))
            (S.image space.old) result }
        ensures range { IfOk result (λ number. InBits field.now.bits.signed 64 number.value) }
        ensures steps { steps.new
            ≤ steps.old + 2 * (length (hop_list field.now.hops) * S.most space.old) + 2 * S.most space.old }
        ensures words { StepsOf
            (λ image. words_at image self.now.at (hop_list field.now.hops) (bits_view field.now.bits))
            (S.image space.old) result (S.most space.old) steps.old steps.new }

        ensures stays { SpaceStays S.image S.files S.through S.most space.old space.new }
        ensures cause { CountsFaults result (S.faults space.old) (S.faults space.new) }
    {
        match self.behind(space, &field.hops, steps) {
            Ok(at) => read_bits(space, at, field.bits, steps),
            Err(stop) => Err(stop),
        }
    }

    /// Where a path leads. Its pointers are followed up to the first null one, and no word is read that isn't
    /// one of theirs. It takes no memory.
    ///
    /// # Errors
    ///
    /// The first stop, and `Fault` where reading the dump failed.
    pub fn follow<S: Space, L: Ledger>(
        &self,
        space: &mut S,
        to: &Located,
        steps: &mut Steps<L>,
    ) -> Result<Led<'b>, Stop>
        requires { to.now.ty ≤ length self.now.types.records }

        ensures exact { AnswersAs (λ image. followed image self.now to.now) (S.image space.old) result }
        ensures leads { IfOk result (LeadsTo self.now.types to.now.ty) }
        ensures steps { steps.new ≤ steps.old + 2 * (length (hop_list to.now.hops) * S.most space.old) }
        ensures words { StepsOf (λ image. words_reached image self.now.at (hop_list to.now.hops))
            (S.image space.old) result (S.most space.old) steps.old steps.new }

        ensures stays { SpaceStays S.image S.files S.through S.most space.old space.new }
        ensures cause { CountsFaults result (S.faults space.old) (S.faults space.new) }
    {
        let offsets = all_offsets(&to.hops);
        let hops = &offsets[..usize::from(to.hops.count)];
        match reach(space, self.at, hops, steps) {
            Ok(Reached::Address(at)) => Ok(Led::At(self.laid(at, to.byte, to.ty))),
            Ok(Reached::NullPointer(place, at)) => Ok(Led::Null(place, at)),
            Err(stop) => Err(stop),
        }
    }

    // A type that lies so many bytes on from an address.
    fn laid(&self, at: u64, bytes: u64, ty: u32) -> View<'b>
        requires { ty ≤ length self.now.types.records }
        ensures { result ≡ laid self.now.types at bytes ty }
    {
        View {
            btf: self.btf,
            ty,
            at: at.wrapping_add(bytes),
        }
    }
}
