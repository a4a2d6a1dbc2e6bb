// The first of some things that has an address.
ghost use Rattle.std.specs.Prelude.{◌≡◌};
ghost use Rattle.kc_owner.specs.Firsts.{IsDespite, IsDespiteAny, IsNone, IsPassed, byte_of};

use kc_found::{Found, WalkStop};

// The byte of a range that stands at an address. A range at 0 is none.
pub(crate) fn byte_of(base: u64, size: u64, address: u64) -> Option<u64>
    ensures { result ≡ byte_of base size address }
{
    if base > 0 && address >= base && address - base < size {
        Some(address - base)
    } else {
        None
    }
}

// Passes over what can't be told, and keeps the first violation of it.
pub(crate) fn pass_broken<B: Drop>(
    missed: &mut Option<Found>,
    told: Result<Option<B>, WalkStop>,
) -> Result<Option<B>, WalkStop>
    ensures { IsPassed told missed.old missed.new result }
{
    match told {
        Ok(found) => Ok(found),
        Err(WalkStop::Broken(broken)) => {
            if missed.is_none() {
                *missed = Some(broken);
            }
            Ok(None)
        }
        Err(WalkStop::Fault) => Err(WalkStop::Fault),
        Err(WalkStop::NoMemory) => Err(WalkStop::NoMemory),
    }
}

// What is answered where none has it.
pub(crate) fn none_found<B: Drop>(missed: Option<Found>) -> Result<Option<B>, WalkStop>
    ensures { IsNone missed result }
{
    match missed {
        None => Ok(None),
        Some(broken) => Err(WalkStop::Broken(broken)),
    }
}

// What was found although something else can't be told, or why that can't.
pub(crate) fn despite<B: Drop>(
    broken: Found,
    found: Result<Option<B>, WalkStop>,
) -> Result<Option<B>, WalkStop>
    ensures { IsDespite broken found result }
{
    match found {
        Ok(Some(one)) => Ok(Some(one)),
        Ok(None) | Err(WalkStop::Broken(_)) => Err(WalkStop::Broken(broken)),
        Err(WalkStop::Fault) => Err(WalkStop::Fault),
        Err(WalkStop::NoMemory) => Err(WalkStop::NoMemory),
    }
}

// The same, where there is such a thing.
pub(crate) fn despite_any<B: Drop>(
    broken: Option<Found>,
    found: Result<Option<B>, WalkStop>,
) -> Result<Option<B>, WalkStop>
    ensures { IsDespiteAny broken found result }
{
    match broken {
        None => found,
        Some(broken) => despite(broken, found),
    }
}
