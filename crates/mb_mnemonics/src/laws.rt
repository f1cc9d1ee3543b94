//! What holds of every statement's length.

ghost use Rattle.std.specs.Prelude.{◌≡◌, ◌*◌, ℕ, ℤ, false, List, Ok, Err, Option, length, map};
ghost use Rattle.mb_instr.specs.declared.instruction.Instr.{Instr};
ghost use Rattle.mb_instr.specs.Codes.{words_of};
ghost use Rattle.mb_instr.specs.Rows.{row};
ghost use Rattle.mb_syntax.specs.declared.operand.Operand.{Operand};
ghost use Rattle.mb_syntax.specs.declared.statement.SizeLetter.{SizeLetter};
ghost use Rattle.mb_mnemonics.specs.Values.{valued};
ghost use Rattle.mb_mnemonics.specs.Means.{is_named, length_by, meaning};
ghost use Rattle.mb_mnemonics.specs.Lines.{lines};
ghost use Rattle.mb_mnemonics.specs.declared.fault.MeansFault.TheVariants as fault;

/// The length of a statement's instruction, and whether it has one, is the same whatever the values of its numbers are.
pub fn length_of_any_values()
    ensures { (f g : ℤ → ℤ) (name : List ℕ) (letter : Option SizeLetter) (os : List (Operand ℤ))
        → length_by name letter (map (valued f) os) ≡ length_by name letter (map (valued g) os) }
{}

/// A statement's length is that of the words that spell the instruction which it means.
pub fn length_of_words()
    ensures { (name : List ℕ) (letter : Option SizeLetter) (os : List (Operand ℤ)) (at n : ℕ) (i : Instr)
        → length_by name letter os ≡ Ok n → meaning name letter os at ≡ Ok i → n ≡ 2 * length (words_of (row i)) }
{}

/// The fault is that of the name exactly where no line of the table has it.
pub fn fault_of_the_name()
    ensures only { (name : List ℕ) (letter : Option SizeLetter) (os : List (Operand ℤ)) (at : ℕ)
        → meaning name letter os at ≡ Err fault.Name → is_named lines name ≡ false }
    ensures always { (name : List ℕ) (letter : Option SizeLetter) (os : List (Operand ℤ)) (at : ℕ)
        → is_named lines name ≡ false → meaning name letter os at ≡ Err fault.Name }
{}
