use cw_base::OutOfMemory;
use cw_strand::NameFault;
use std::alloc::{AllocError, AllocFailed};

/// Why a program was not accepted.
#[derive(Clone, Copy, PartialEq, Eq, Debug)]
pub enum NameRefusal {
    Name(NameFault),
    OutOfMemory,
}

impl From<AllocError> for NameRefusal {
    ghost use Rattle.std.specs.Prelude.{◌≡◌};
    ghost use Rattle.cw_compile.specs.declared.refusal.NameRefusal.TheVariants.{OutOfMemory};

    ghost from_gives = { λ _ e. e ≡ OutOfMemory };

    fn from(_failed: AllocError) -> Self {
        NameRefusal::OutOfMemory
    }
}

impl<T: Drop> From<AllocFailed<T>> for NameRefusal {
    ghost use Rattle.std.specs.Prelude.{◌≡◌};
    ghost use Rattle.cw_compile.specs.declared.refusal.NameRefusal.TheVariants.{OutOfMemory};

    ghost from_gives = { λ _ e. e ≡ OutOfMemory };

    fn from(_failed: AllocFailed<T>) -> Self {
        NameRefusal::OutOfMemory
    }
}

impl From<OutOfMemory> for NameRefusal {
    ghost use Rattle.std.specs.Prelude.{◌≡◌};
    ghost use Rattle.cw_compile.specs.declared.refusal.NameRefusal.TheVariants.{OutOfMemory};

    ghost from_gives = { λ _ e. e ≡ OutOfMemory };

    fn from(_failed: OutOfMemory) -> Self {
        NameRefusal::OutOfMemory
    }
}

impl From<NameFault> for NameRefusal {
    ghost use Rattle.std.specs.Prelude.{◌≡◌};
    ghost use Rattle.cw_compile.specs.declared.refusal.NameRefusal.TheVariants.{Name};

    ghost from_gives = { λ f e. e ≡ Name f };

    fn from(fault: NameFault) -> Self {
        NameRefusal::Name(fault)
    }
}
