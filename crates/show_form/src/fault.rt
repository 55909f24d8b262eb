use std::alloc::AllocError;

/// Why a text is not read.
#[derive(Clone, Copy, Debug, PartialEq, Eq)]
pub enum FullFault {
    /// It is no full form: the offset of the first byte that no full form continues, or the length of the text where more is missing.
    At(usize),
    /// It is the full form of an expression of more than 4,000,000 nodes.
    TooLarge,
    /// It is the full form of an expression that is deeper than 512.
    TooDeep,
    NoMemory,
}

impl From<AllocError> for FullFault {
    ghost use Rattle.std.specs.Prelude.{◌≡◌};
    ghost use Rattle.show_form.specs.declared.fault.FullFault.TheVariants.{NoMemory};

    ghost from_gives = { λ _ e. e ≡ NoMemory };

    fn from(_: AllocError) -> FullFault {
        FullFault::NoMemory
    }
}
