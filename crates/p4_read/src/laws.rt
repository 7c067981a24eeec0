//! Each P4 text has one tree, and one program or one first fault. The functions do nothing; their contracts are the laws.
ghost use Rattle.std.specs.Prelude.{◌≡◌, List, ℕ};
ghost use Rattle.cocoon_num.specs.Tokens.{Kind};
ghost use Rattle.p4_texts.specs.Written.{P4TextAt, ProgramText};
ghost use Rattle.p4_read.specs.Answers.{Answer, Answers};

use p4_texts::program_laws::{reads_where_it_stands, stands_where_it_reads};

/// The tokens of a text have one tree.
pub fn one_text()
    ensures { (ks : List Kind) (t u : ProgramText) → P4TextAt ks t → P4TextAt ks u → t ≡ u }
{}

/// Each text reads as a program or has a first fault.
pub fn an_answer()
    ensures { (text : List ℕ) → (a : Answer) × Answers text a }
{
    reads_where_it_stands();
}

/// It has only one of them: it reads as one program, or has one first fault.
pub fn one_answer()
    ensures { (text : List ℕ) (a b : Answer) → Answers text a → Answers text b → a ≡ b }
{
    stands_where_it_reads();
}
