// Why there is no answer where the dump wasn't read.
ghost use Rattle.std.specs.Prelude.{◌≡◌};
ghost use Rattle.kc_why.specs.Looking.{halted};

use kc_command::Halt;
use kc_found::ReadFailed;

/// A failure to read the dump is one of the store.
pub(crate) fn halted(stop: ReadFailed) -> Halt
    ensures { result ≡ halted stop }
{
    match stop {
        ReadFailed::Fault => Halt::Store,
        ReadFailed::NoMemory => Halt::Memory,
    }
}
