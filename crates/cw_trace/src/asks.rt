ghost use Rattle.std.specs.Prelude.{◌≡◌, ℕ, Bool, List};
ghost use Rattle.cw_tree.specs.declared.access.Mark.{Mark};
ghost use Rattle.cw_trace.specs.declared.verdict.Verdict.{Verdict};
ghost use Rattle.cw_trace.specs.Columns as columns;
ghost use Rattle.cw_trace.specs.Told.{HoldsRead, Stays};
ghost use Rattle.cw_trace.specs.Query.{Gives, Covers, verdict, covers};

use crate::Columns;

/// Law: if every answer is what one tier and its gap words hold, the rules over answers give what the tier and the words give.
pub fn told_laws<C: Columns>(_asked: &C)
    ensures verdict { (c : columns.ColumnTable) (words : List ℕ) (last : Mark) (asker : ℕ) (v : Verdict)
        → Stays (C.told _asked.now) (HoldsRead c words) → Gives (C.told _asked.now) last asker v → v ≡ verdict c words last asker }
    ensures covers { (c : columns.ColumnTable) (words : List ℕ) (block last : Mark) (x : Bool)
        → Stays (C.told _asked.now) (HoldsRead c words) → Covers (C.told _asked.now) block last x → x ≡ covers c block last }
{}
