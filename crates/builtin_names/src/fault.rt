use expr_tree::Built;
use std::alloc::{AllocError, AllocFailed};

/// Why a row of the built-in table gives no expression.
#[derive(Clone, Copy, Debug, PartialEq, Eq)]
pub enum Fault {
    /// A number would not have 128 bits.
    Range,
    /// The expression would have more than `MAX_SIZE` atoms.
    TooLarge,
    /// It would have so many atoms, no more than that, and be deeper than `MAX_DEPTH`.
    TooDeep(u64),
    NoMemory,
}

impl From<AllocError> for Fault {
    ghost use Rattle.std.specs.Prelude.{◌≡◌};
    ghost use Rattle.builtin_names.specs.declared.fault.Fault.TheVariants.{NoMemory};

    ghost from_gives = { λ _ e. e ≡ NoMemory };

    fn from(_: AllocError) -> Fault {
        Fault::NoMemory
    }
}

impl<T: Drop> From<AllocFailed<T>> for Fault {
    ghost use Rattle.std.specs.Prelude.{◌≡◌};
    ghost use Rattle.builtin_names.specs.declared.fault.Fault.TheVariants.{NoMemory};

    ghost from_gives = { λ _ e. e ≡ NoMemory };

    fn from(_: AllocFailed<T>) -> Fault {
        Fault::NoMemory
    }
}

impl From<Built> for Fault {
    ghost use Rattle.builtin_names.specs.Results.{FromBuilt};

    ghost from_gives = { FromBuilt };

    fn from(fault: Built) -> Fault {
        match fault {
            Built::TooLarge => Fault::TooLarge,
            Built::TooDeep(nodes) => Fault::TooDeep(nodes),
            Built::NoMemory => Fault::NoMemory,
        }
    }
}
