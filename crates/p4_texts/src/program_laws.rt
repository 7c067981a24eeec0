//! Texts and programs. The functions do nothing; their contracts are the laws.
ghost use Rattle.std.specs.Prelude.{◌≡◌, IsTrue, List, [], flat_map, length, nat_lt, true, ℕ};
ghost use Rattle.cocoon_num.specs.Lists.{each};
ghost use Rattle.p4_ir.specs.P4Kinds.{kinds_fit};
ghost use Rattle.p4_ir.specs.P4Reads.{P4Reads};
ghost use Rattle.p4_ir.specs.P4Text.{program_tokens};
ghost use Rattle.p4_ir.specs.P4Tree.{Program};
ghost use Rattle.p4_texts.specs.KindFaults.{Piece, kind_faults, pieces};
ghost use Rattle.p4_texts.specs.Meant.{program_of_text};
ghost use Rattle.p4_texts.specs.ReadText.{StandsFor};
ghost use Rattle.p4_texts.specs.TextOf.{text_of_program};
ghost use Rattle.p4_texts.specs.Written.{Lines, ProgramText, text_tokens};

/// The pieces of a text are all its tokens, so a fault's token index counts the tokens before it.
pub fn pieces_are_the_text()
    ensures { (t : ProgramText)
        → flat_map (λ (x : Piece). x.tokens) (pieces t) ≡ text_tokens t }
{}

/// The token index of a fault is that of a token of the text.
pub fn faults_are_tokens()
    ensures { (t : ProgramText)
        → each (λ i. nat_lt i (length (text_tokens t))) (kind_faults t) ≡ true }
{}

/// A text without a fault stands for a program that keeps the kind rules.
pub fn no_fault_fits()
    ensures { (t : ProgramText) → kind_faults t ≡ []
        → IsTrue (kinds_fit (program_of_text t)) }
{}

/// A text without a fault has the tokens of the program that it stands for.
pub fn no_fault_tokens()
    ensures { (t : ProgramText) → Lines (length t.headers) t.rest → kind_faults t ≡ []
        → text_tokens t ≡ program_tokens (program_of_text t) }
{}

/// The text of a program that keeps the kind rules has no fault.
pub fn program_has_no_fault()
    ensures { (p : Program) → IsTrue (kinds_fit p) → kind_faults (text_of_program p) ≡ [] }
{}

/// The text of a program that keeps the kind rules stands for it.
pub fn program_stands()
    ensures { (p : Program) → IsTrue (kinds_fit p)
        → program_of_text (text_of_program p) ≡ p }
{}

/// What stands for a program reads as it.
pub fn reads_where_it_stands()
    ensures { (text : List ℕ) (t : ProgramText) (p : Program)
        → StandsFor text t p → P4Reads text p }
{}

/// What reads as a program is a text without a fault that stands for it.
pub fn stands_where_it_reads()
    ensures { (text : List ℕ) (p : Program)
        → P4Reads text p → (t : ProgramText) × StandsFor text t p }
{}
