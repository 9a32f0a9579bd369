use cw_base::OutOfMemory;
use cw_compile::NameRefusal;
use cw_io::Failed;
use cw_sheet::{SheetFault, SheetRefusal};
use cw_strand::NameFault;
use cw_text::{TextFault, TextRefusal};
use std::alloc::AllocError;

/// Why reading stopped before the end.
#[derive(Clone, Copy)]
pub enum Stop {
    OutOfMemory,
    ReadFault,
}

impl From<AllocError> for Stop {
    ghost use Rattle.std.specs.Prelude.{◌≡◌};
    ghost use Rattle.cw_top.specs.declared.reasons.Stop.TheVariants.{OutOfMemory};

    ghost from_gives = { λ _ e. e ≡ OutOfMemory };

    fn from(_failed: AllocError) -> Self {
        Stop::OutOfMemory
    }
}

impl From<Failed> for Stop {
    ghost use Rattle.std.specs.Prelude.{◌≡◌};
    ghost use Rattle.cw_top.specs.declared.reasons.Stop.TheVariants.{ReadFault};

    ghost from_gives = { λ _ e. e ≡ ReadFault };

    fn from(_failed: Failed) -> Self {
        Stop::ReadFault
    }
}

/// Why bytes did not give a program.
#[derive(Clone, Copy)]
pub enum Refusal {
    OutOfMemory,
    Text(TextFault),
    Name(NameFault),
}

impl From<TextRefusal> for Refusal {
    ghost use Rattle.std.specs.Prelude.{◌≡◌};
    ghost use Rattle.cw_top.specs.Reasons.{of_text};

    ghost from_gives = { λ refused e. e ≡ of_text refused };

    fn from(refused: TextRefusal) -> Self {
        match refused {
            TextRefusal::Text(fault) => Refusal::Text(fault),
            TextRefusal::OutOfMemory => Refusal::OutOfMemory,
        }
    }
}

impl From<NameRefusal> for Refusal {
    ghost use Rattle.std.specs.Prelude.{◌≡◌};
    ghost use Rattle.cw_top.specs.Reasons.{of_name};

    ghost from_gives = { λ refused e. e ≡ of_name refused };

    fn from(refused: NameRefusal) -> Self {
        match refused {
            NameRefusal::Name(fault) => Refusal::Name(fault),
            NameRefusal::OutOfMemory => Refusal::OutOfMemory,
        }
    }
}

/// Why there is no run.
#[derive(Clone, Copy)]
pub enum NoRun {
    OutOfMemory,
    Stopped(Stop),
    Refused(Refusal),
    /// Main has another number of parameters than there are words.
    Misfit,
}

impl From<OutOfMemory> for NoRun {
    ghost use Rattle.std.specs.Prelude.{◌≡◌};
    ghost use Rattle.cw_top.specs.declared.reasons.NoRun.TheVariants as no_run;

    ghost from_gives = { λ _ e. e ≡ no_run.OutOfMemory };

    fn from(_failed: OutOfMemory) -> Self {
        NoRun::OutOfMemory
    }
}

impl From<Stop> for NoRun {
    ghost use Rattle.std.specs.Prelude.{◌≡◌};
    ghost use Rattle.cw_top.specs.declared.reasons.NoRun.TheVariants as no_run;

    ghost from_gives = { λ stop e. e ≡ no_run.Stopped stop };

    fn from(stop: Stop) -> Self {
        NoRun::Stopped(stop)
    }
}

impl From<Refusal> for NoRun {
    ghost use Rattle.std.specs.Prelude.{◌≡◌};
    ghost use Rattle.cw_top.specs.declared.reasons.NoRun.TheVariants as no_run;

    ghost from_gives = { λ refusal e. e ≡ no_run.Refused refusal };

    fn from(refusal: Refusal) -> Self {
        NoRun::Refused(refusal)
    }
}

/// Why no sheet was judged.
#[derive(Clone, Copy)]
pub enum NoAudit {
    OutOfMemory,
    Stopped(Stop),
    Refused(SheetFault),
}

impl From<OutOfMemory> for NoAudit {
    ghost use Rattle.std.specs.Prelude.{◌≡◌};
    ghost use Rattle.cw_top.specs.declared.reasons.NoAudit.TheVariants as no_audit;

    ghost from_gives = { λ _ e. e ≡ no_audit.OutOfMemory };

    fn from(_failed: OutOfMemory) -> Self {
        NoAudit::OutOfMemory
    }
}

impl From<Stop> for NoAudit {
    ghost use Rattle.std.specs.Prelude.{◌≡◌};
    ghost use Rattle.cw_top.specs.declared.reasons.NoAudit.TheVariants as no_audit;

    ghost from_gives = { λ stop e. e ≡ no_audit.Stopped stop };

    fn from(stop: Stop) -> Self {
        NoAudit::Stopped(stop)
    }
}

impl From<SheetRefusal> for NoAudit {
    ghost use Rattle.std.specs.Prelude.{◌≡◌};
    ghost use Rattle.cw_top.specs.Reasons.{of_sheet};

    ghost from_gives = { λ refused e. e ≡ of_sheet refused };

    fn from(refused: SheetRefusal) -> Self {
        match refused {
            SheetRefusal::Sheet(fault) => NoAudit::Refused(fault),
            SheetRefusal::OutOfMemory => NoAudit::OutOfMemory,
        }
    }
}
