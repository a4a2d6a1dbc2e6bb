// Why a check isn't taken.
ghost use Rattle.std.specs.Prelude.{◌≡◌};
ghost use Rattle.kc_expr.specs.declared.stop.ExprStop.TheVariants.{NoMemory as Wanting};

use kc_word::NoMemory;
use thiserror::Error;

/// Why a check wasn't read.
#[derive(Clone, Copy, Debug, PartialEq, Eq, Error)]
pub enum ExprStop {
    /// The text is no check. So many bytes of it begin one, and with the next byte, if there is one, they begin none.
    #[error("X1 at {0}")]
    X1(u32),
    /// No memory was left.
    #[error("no memory was left")]
    NoMemory,
}

impl From<NoMemory> for ExprStop {
    ghost from_gives = { λ _ stop. stop ≡ Wanting };

    fn from(_: NoMemory) -> Self {
        ExprStop::NoMemory
    }
}
