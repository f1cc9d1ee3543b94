//! What holds of every row of the table.

ghost use Rattle.mb_instr.specs.Laws.{OperandsStand};

/// The operands' words stand where `operands_at` says.
pub fn operands_stand()
    ensures { OperandsStand }
{}
