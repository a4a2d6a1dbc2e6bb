// Why there is no answer.
ghost use Rattle.std.specs.Prelude.{◌≡◌};
ghost use Rattle.kc_command.specs.declared.halt.Halt.TheVariants.{Refused, Store, Memory};

use crate::refusal::Refusal;
use kc_btf::BtfStop;
use kc_elf::CoreStop;
use kc_expr::PlanStop;
use kc_outside::Failed;
use kc_syms::SymStop;
use kc_word::NoMemory;
use std::alloc::AllocError;

/// Why there is no answer.
#[derive(Clone, Copy, Debug, PartialEq, Eq)]
pub enum Halt {
    /// A file, a symbol, a type or a path is refused.
    Refused(Refusal),
    /// A call of the store failed. Its count of faults rose.
    Store,
    /// No memory was left.
    Memory,
}

impl From<Refusal> for Halt {
    ghost from_gives = { λ refusal halt. halt ≡ Refused refusal };

    fn from(refusal: Refusal) -> Self {
        Halt::Refused(refusal)
    }
}

impl From<Failed> for Halt {
    ghost from_gives = { λ _ halt. halt ≡ Store };

    fn from(_: Failed) -> Self {
        Halt::Store
    }
}

impl From<NoMemory> for Halt {
    ghost from_gives = { λ _ halt. halt ≡ Memory };

    fn from(_: NoMemory) -> Self {
        Halt::Memory
    }
}

impl From<AllocError> for Halt {
    ghost from_gives = { λ _ halt. halt ≡ Memory };

    fn from(_: AllocError) -> Self {
        Halt::Memory
    }
}

impl From<CoreStop> for Halt {
    ghost use Rattle.kc_command.specs.Stops.{of_core};

    ghost from_gives = { λ stop halt. halt ≡ of_core stop };

    fn from(stop: CoreStop) -> Self {
        match stop {
            CoreStop::Fault(fault) => Halt::Refused(Refusal::Core(fault)),
            CoreStop::ReadFault => Halt::Store,
            CoreStop::NoMemory => Halt::Memory,
        }
    }
}

impl From<BtfStop> for Halt {
    ghost use Rattle.kc_command.specs.Stops.{of_types};

    ghost from_gives = { λ stop halt. halt ≡ of_types stop };

    fn from(stop: BtfStop) -> Self {
        match stop {
            BtfStop::Fault(fault) => Halt::Refused(Refusal::Types(fault)),
            BtfStop::NoMemory => Halt::Memory,
        }
    }
}

impl From<SymStop> for Halt {
    ghost use Rattle.kc_command.specs.Stops.{of_map};

    ghost from_gives = { λ stop halt. halt ≡ of_map stop };

    fn from(stop: SymStop) -> Self {
        match stop {
            SymStop::S1(line) => Halt::Refused(Refusal::MapLine(line)),
            SymStop::NoMemory => Halt::Memory,
        }
    }
}

impl From<PlanStop> for Halt {
    ghost use Rattle.kc_command.specs.Stops.{of_plan};

    ghost from_gives = { λ stop halt. halt ≡ of_plan stop };

    fn from(stop: PlanStop) -> Self {
        match stop {
            PlanStop::Fault(fault) => Halt::Refused(Refusal::Plan(fault)),
            PlanStop::NoMemory => Halt::Memory,
        }
    }
}
