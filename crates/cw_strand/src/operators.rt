ghost use Rattle.std.specs.Prelude.{◌≡◌};
ghost use Rattle.cw_strand.specs.Arithmetic.{truth, one, two};

use cw_code::{FaultKind, Operator};

/// Returns 1 if `holds`, otherwise 0.
fn truth(holds: bool) -> Result<i64, FaultKind>
    ensures { result ≡ truth holds }
{
    Ok(i64::from(holds))
}

/// Applies a unary operator to `x`.
pub fn one(operator: Operator, x: i64) -> Result<i64, FaultKind>
    ensures { result ≡ one operator x }
{
    match operator {
        Operator::Neg => x.checked_neg().ok_or(FaultKind::Overflow),
        Operator::Not => truth(x == 0),
        _ => Ok(x),
    }
}

/// Applies a binary operator to `x` and `y`.
pub fn two(operator: Operator, x: i64, y: i64) -> Result<i64, FaultKind>
    ensures { result ≡ two operator x y }
{
    match operator {
        Operator::Add => x.checked_add(y).ok_or(FaultKind::Overflow),
        Operator::Sub => x.checked_sub(y).ok_or(FaultKind::Overflow),
        Operator::Mul => x.checked_mul(y).ok_or(FaultKind::Overflow),
        Operator::Div if y == 0 => Err(FaultKind::Zero),
        Operator::Div => x.checked_div(y).ok_or(FaultKind::Overflow),
        Operator::Rem if y == 0 => Err(FaultKind::Zero),
        Operator::Rem => x.checked_rem(y).ok_or(FaultKind::Overflow),
        Operator::Eq => truth(x == y),
        Operator::Ne => truth(x != y),
        Operator::Lt => truth(x < y),
        Operator::Le => truth(x <= y),
        Operator::Gt => truth(x > y),
        Operator::Ge => truth(x >= y),
        Operator::Neg | Operator::Not => Ok(x),
    }
}
