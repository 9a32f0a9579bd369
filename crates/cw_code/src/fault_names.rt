ghost use Rattle.std.specs.Prelude.{◌≡◌};
ghost use Rattle.cw_code.specs.FaultNames.{fault_name};

use crate::FaultKind;

/// The name of a fault, as the text of a result and a record sheet have it.
pub fn fault_name(kind: FaultKind) -> &'static str
    ensures { result.now ≡ fault_name kind }
{
    match kind {
        FaultKind::Zero => "Zero",
        FaultKind::Overflow => "Overflow",
        FaultKind::Range => "Range",
        FaultKind::Depth => "Depth",
        FaultKind::Fuel => "Fuel",
        FaultKind::Size => "Size",
    }
}
