// Ways to come by the lists of chains.
ghost use Rattle.std.specs.Prelude.{ℕ, List};
ghost use Rattle.kc_memory.specs.Image.{Image};
ghost use Rattle.kc_memory.specs.Stays.{SpaceStays};
ghost use Rattle.kc_found.specs.FreeLists.{IsGrid};
ghost use Rattle.kc_found.specs.Walks.{CountsWalkFaults, IsNamed, WalksAs};
ghost use Rattle.kc_steps.specs.Chains.{ChainPays, FreeBy, HashBy, RingBy, size};

use kc_found::{Asked, Grid, HShape, ListShape, Scalar, Space, WalkStop, Walked};
use kc_word::Steps;
use std::alloc::Global;
use std::sync::ledger::Ledger;

/// A way to come by the nodes of rings: to walk them, to keep the lists of those that are walked, or to take them from lists that are
/// given.
pub trait Rings {
    /// The lists that are there.
    ghost lists: { Self → List (List ℕ) };

    /// That the lists that are there pay for its steps: they are given, and each chain uses up its own.
    ghost paid: { Type 0 };

    /// How it comes by the nodes of a ring.
    ghost ring_by: { Image → RingBy };

    /// The nodes of the ring with a head at virtual address `head`, without the head, in the order of `next`. A violation is one of
    /// the walk that asks.
    ///
    /// # Errors
    ///
    /// The violation, exactly where the ring has one; a failure of the space, whose count of faults then rose; or out of
    /// memory.
    fn ring<S: Space, L: Ledger>(
        &mut self,
        alloc: Global,
        space: &mut S,
        asked: &Asked,
        shape: &ListShape,
        head: u64,
        steps: &mut Steps<L>,
    ) -> Result<Walked, WalkStop>
        ensures exact { WalksAs (λ ns. (ns, lists self.new))
            (λ i. ring_by i asked.now shape.now head (lists self.old)) (S.image space.old) result }
        ensures named { IsNamed result asked.now.audit asked.now.start }
        ensures pays { paid → ChainPays result (size (lists self.old)) (size (lists self.new)) steps.old steps.new }

        ensures stays { SpaceStays S.image S.files S.through S.most space.old space.new }
        ensures cause { CountsWalkFaults result (S.faults space.old) (S.faults space.new) };
}

/// A way to come by the nodes of rings and by the objects of free lists.
pub trait Chains: Rings {
    /// How it comes by the objects of a free list.
    ghost free_by: { Image → FreeBy };

    /// The free objects of a slab, in the order of its free list, whose first pointer is the number `first`, plain. A violation is one
    /// of the walk that asks.
    ///
    /// # Errors
    ///
    /// The violation, exactly where the free list has one; a failure of the space, whose count of faults then rose; or out
    /// of memory.
    fn free<S: Space, L: Ledger>(
        &mut self,
        alloc: Global,
        space: &mut S,
        asked: &Asked,
        grid: &Grid,
        first: Scalar,
        steps: &mut Steps<L>,
    ) -> Result<Walked, WalkStop>
        requires { IsGrid grid.now }
        ensures exact { WalksAs (λ os. (os, Self.lists self.new))
            (λ i. free_by i asked.now grid.now first (Self.lists self.old)) (S.image space.old) result }
        ensures named { IsNamed result asked.now.audit asked.now.start }
        ensures pays { Self.paid
            → ChainPays result (size (Self.lists self.old)) (size (Self.lists self.new)) steps.old steps.new }

        ensures stays { SpaceStays S.image S.files S.through S.most space.old space.new }
        ensures cause { CountsWalkFaults result (S.faults space.old) (S.faults space.new) };
}

/// A way to come by the nodes of hash chains: to walk them, to keep the lists of those that are walked, or to take them from lists that
/// are given.
pub trait HashChains {
    /// The lists that are there.
    ghost lists: { Self → List (List ℕ) };

    /// That the lists that are there pay for its steps: they are given, and each chain uses up its own.
    ghost paid: { Type 0 };

    /// How it comes by the nodes of a hash chain.
    ghost hash_by: { Image → HashBy };

    /// The nodes of the hash chain with a head at virtual address `head`, in the order of `next`. A violation is one of the walk that
    /// asks.
    ///
    /// # Errors
    ///
    /// The violation, exactly where the chain has one; a failure of the space, whose count of faults then rose; or out of
    /// memory.
    fn hash_chain<S: Space, L: Ledger>(
        &mut self,
        alloc: Global,
        space: &mut S,
        asked: &Asked,
        shape: &HShape,
        head: u64,
        steps: &mut Steps<L>,
    ) -> Result<Walked, WalkStop>
        ensures exact { WalksAs (λ ns. (ns, lists self.new))
            (λ i. hash_by i asked.now shape.now head (lists self.old)) (S.image space.old) result }
        ensures named { IsNamed result asked.now.audit asked.now.start }
        ensures pays { paid → ChainPays result (size (lists self.old)) (size (lists self.new)) steps.old steps.new }

        ensures stays { SpaceStays S.image S.files S.through S.most space.old space.new }
        ensures cause { CountsWalkFaults result (S.faults space.old) (S.faults space.new) };
}
