//! Why a run stops before the end of its input.

ghost use Rattle.std.specs.Prelude.{◌≡◌};
ghost use Rattle.script_words.specs.declared.stops.Stop.TheVariants.{Memory, WriteFault};

use std::alloc::{AllocError, AllocFailed};
use std::io;

/// Why a run stops before the end of its input.
#[derive(Clone, Copy, Debug, PartialEq, Eq)]
pub enum Stop {
    /// The line is malformed or out of place.
    BadLine,
    /// The input had an error.
    ReadFault,
    /// An output had an error.
    WriteFault,
    /// Memory ran out while a line was read or carried out.
    Memory,
}

impl From<AllocError> for Stop {
    ghost from_gives = { λ _ stop. stop ≡ Memory };

    fn from(_refused: AllocError) -> Stop {
        Stop::Memory
    }
}

impl<T: Drop> From<AllocFailed<T>> for Stop {
    ghost from_gives = { λ _ stop. stop ≡ Memory };

    fn from(_refused: AllocFailed<T>) -> Stop {
        Stop::Memory
    }
}

impl From<io::Error> for Stop {
    ghost from_gives = { λ _ stop. stop ≡ WriteFault };

    fn from(_fault: io::Error) -> Stop {
        Stop::WriteFault
    }
}
