use std::alloc::{AllocError, AllocFailed};

/// Why a cell is not read as an expression.
#[derive(Clone, Copy, Debug, PartialEq, Eq)]
pub enum ReadNo {
    /// The byte at which no cell that is read goes on.
    Syntax(usize),
    /// It is read as an expression that is deeper than `MAX_DEPTH`.
    TooDeep,
    NoMemory,
}

impl From<AllocError> for ReadNo {
    ghost use Rattle.std.specs.Prelude.{◌≡◌};
    ghost use Rattle.read_form.specs.declared.fault.ReadNo.TheVariants.{NoMemory};

    ghost from_gives = { λ _ e. e ≡ NoMemory };

    fn from(_: AllocError) -> ReadNo {
        ReadNo::NoMemory
    }
}

impl<T: Drop> From<AllocFailed<T>> for ReadNo {
    ghost use Rattle.std.specs.Prelude.{◌≡◌};
    ghost use Rattle.read_form.specs.declared.fault.ReadNo.TheVariants.{NoMemory};

    ghost from_gives = { λ _ e. e ≡ NoMemory };

    fn from(_: AllocFailed<T>) -> ReadNo {
        ReadNo::NoMemory
    }
}
