//! Why a page can't be written further.
ghost use Rattle.std.specs.Prelude.{◌≡◌};
ghost use Rattle.page_states.specs.Faults.{stop_of};

use script_words::stops::Stop;
use std::alloc::{AllocError, AllocFailed};
use std::io;

/// Why a page can't be written further.
#[derive(Clone, Copy, Debug, PartialEq, Eq)]
pub enum Fault {
    /// Memory ran out.
    Memory,
    /// The output had an error.
    Output,
}

impl From<AllocError> for Fault {
    fn from(_refused: AllocError) -> Fault {
        Fault::Memory
    }
}

impl<T: Drop> From<AllocFailed<T>> for Fault {
    fn from(_refused: AllocFailed<T>) -> Fault {
        Fault::Memory
    }
}

impl From<io::Error> for Fault {
    fn from(_fault: io::Error) -> Fault {
        Fault::Output
    }
}

impl From<Fault> for Stop {
    ghost from_gives = { λ fault stop. stop ≡ stop_of fault };

    fn from(fault: Fault) -> Stop {
        match fault {
            Fault::Memory => Stop::Memory,
            Fault::Output => Stop::WriteFault,
        }
    }
}
