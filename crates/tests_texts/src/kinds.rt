use cw_code::{CodeKind, FaultKind};
use cw_compile::NameKind;
use cw_text::TextKind;

/// The name of what is wrong with a text.
pub(crate) fn of_text(kind: TextKind) -> &'static str {
    match kind {
        TextKind::NotUtf8 => "NotUtf8",
        TextKind::BadChar => "BadChar",
        TextKind::BadNumber => "BadNumber",
        TextKind::Unexpected => "Unexpected",
        TextKind::TooLong => "TooLong",
        TextKind::TooDeep => "TooDeep",
    }
}

/// The name of what is wrong with a name.
pub(crate) fn of_name(kind: NameKind) -> &'static str {
    match kind {
        NameKind::Unknown => "Unknown",
        NameKind::Twice => "Twice",
        NameKind::WrongCount => "WrongCount",
        NameKind::NoMain => "NoMain",
        NameKind::ReturnInside => "ReturnInside",
        NameKind::TooManyCells => "TooManyCells",
        NameKind::NotACell => "NotACell",
        NameKind::NotALocal => "NotALocal",
        NameKind::CancelOutside => "CancelOutside",
    }
}

/// The name of what is wrong with code.
pub(crate) fn of_code(kind: CodeKind) -> &'static str {
    match kind {
        CodeKind::Underflow => "Underflow",
        CodeKind::Uneven => "Uneven",
        CodeKind::JumpOut => "JumpOut",
        CodeKind::NoEnd => "NoEnd",
    }
}

/// The name of what a strand stops at.
pub(crate) fn of_fault(kind: FaultKind) -> &'static str {
    match kind {
        FaultKind::Zero => "Zero",
        FaultKind::Overflow => "Overflow",
        FaultKind::Range => "Range",
        FaultKind::Depth => "Depth",
        FaultKind::Fuel => "Fuel",
        FaultKind::Size => "Size",
    }
}
