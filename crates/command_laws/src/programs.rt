//! Texts of P4 programs.
ghost use Rattle.std.specs.Prelude.{◌≡◌, List, ℕ};
ghost use Rattle.p4_ir.specs.P4Reads.{P4Reads};
ghost use Rattle.p4_ir.specs.P4Text.{program_tokens};
ghost use Rattle.p4_ir.specs.P4Tree.{Program};
ghost use Rattle.p4_ir.specs.WellKinded.{WellKinded};
ghost use Rattle.p4_read.specs.Answers.{Answer, Answers, a_program};

use p4_read::laws::{one_answer, one_text};
use p4_texts::program_laws::{no_fault_tokens, program_has_no_fault, program_stands};

/// Well-kinded programs with the same tokens are the same.
pub fn one_program_of_tokens()
    ensures { (p q : Program) → WellKinded p → WellKinded q
        → program_tokens p ≡ program_tokens q → p ≡ q }
{
    one_text();
    program_has_no_fault();
    program_stands();
    no_fault_tokens();
}

/// A P4 text reads as at most one program.
pub fn one_program()
    ensures { (text : List ℕ) (p q : Program) → P4Reads text p → P4Reads text q → p ≡ q }
{
    one_answer();
}

/// A text that reads as a program is answered by that program alone. So what is printed of a program is read back as it.
pub fn printed_reads_back()
    ensures { (text : List ℕ) (p : Program) → P4Reads text p
        → (a : Answer) → Answers text a → a ≡ a_program p }
{
    one_answer();
}
