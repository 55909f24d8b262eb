use crit_locks::Held;
use dist_bundle::Bundle;
use expr_tree::Sym;
use journal::Item;
use std::alloc::AllocError;

/// What a kernel takes.
#[derive(Drop)]
pub struct Taken {
    pub id: u64,
    pub item: Item,
    pub bundle: Bundle,
}

/// Why an entry of a kernel is not posted.
#[derive(Clone, Copy)]
pub enum No {
    /// The run is closed, or the kernel is lost.
    Closed,
    NoMemory,
}

#[derive(Clone, Copy)]
pub enum TakeNo {
    /// There is no item for the kernel to take.
    Idle,
    Closed,
    NoMemory,
}

/// What a wait lacks.
#[derive(Clone, Copy)]
pub enum Unmet {
    /// The first of its items that is not done.
    Id(u64),
    /// The first of its locks that is held, and the kernel that holds it.
    Lock(Sym, u32),
}

#[derive(Clone, Copy)]
pub enum WaitNo {
    NotYet(Unmet),
    NoMemory,
}

/// Why a kernel does not enter a section.
#[derive(Clone, Copy)]
pub enum EnterNo {
    /// The first of the locks that is held, and by whom.
    Held(Held),
    Closed,
    NoMemory,
}

impl From<AllocError> for No {
    ghost use Rattle.std.specs.Prelude.{◌≡◌};
    ghost use Rattle.master_core.specs.declared.answers.No.TheVariants.{NoMemory};

    ghost from_gives = { λ _ e. e ≡ NoMemory };

    fn from(_: AllocError) -> No {
        No::NoMemory
    }
}

impl From<AllocError> for TakeNo {
    ghost use Rattle.std.specs.Prelude.{◌≡◌};
    ghost use Rattle.master_core.specs.declared.answers.TakeNo.TheVariants.{NoMemory};

    ghost from_gives = { λ _ e. e ≡ NoMemory };

    fn from(_: AllocError) -> TakeNo {
        TakeNo::NoMemory
    }
}

impl From<AllocError> for WaitNo {
    ghost use Rattle.std.specs.Prelude.{◌≡◌};
    ghost use Rattle.master_core.specs.declared.answers.WaitNo.TheVariants.{NoMemory};

    ghost from_gives = { λ _ e. e ≡ NoMemory };

    fn from(_: AllocError) -> WaitNo {
        WaitNo::NoMemory
    }
}

impl From<AllocError> for EnterNo {
    ghost use Rattle.std.specs.Prelude.{◌≡◌};
    ghost use Rattle.master_core.specs.declared.answers.EnterNo.TheVariants.{NoMemory};

    ghost from_gives = { λ _ e. e ≡ NoMemory };

    fn from(_: AllocError) -> EnterNo {
        EnterNo::NoMemory
    }
}
