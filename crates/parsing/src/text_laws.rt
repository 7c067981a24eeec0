//! Texts of designs and of definitions. The functions do nothing; their contracts are the laws.
ghost use Rattle.std.specs.Prelude.{◌≡◌, List, Ok, length, ℕ};
ghost use Rattle.cocoon_num.specs.FirstFaults.{BeginsDefs, BeginsDesign};
ghost use Rattle.cocoon_num.specs.Reads.{DefsAt, DesignAt, Reads, ReadsDefs};
ghost use Rattle.cocoon_num.specs.Tokens.{Token, language, lex};
ghost use Rattle.cocoon_num.specs.Tree.{DefsText, Design};
ghost use Rattle.parsing.specs.PlainParser.{defs_from, design_from};
ghost use Rattle.parsing.specs.Reading.{Reading, TokensOf};

/// A text of a design has at most one tree.
pub fn one_tree()
    ensures { (text : List ℕ) (x y : Design) → Reads text x → Reads text y → x ≡ y }
{}

/// A text of definitions has at most one tree.
pub fn one_definitions_tree()
    ensures { (text : List ℕ) (x y : DefsText) → ReadsDefs text x → ReadsDefs text y → x ≡ y }
{}

/// The tokens of a text end with its end, and are few.
pub fn tokens_end()
    ensures { (text : List ℕ) (tokens : List Token) → lex language text ≡ Ok tokens
        → TokensOf (length text) tokens }
{}

/// What the plain reading of a design says of its text.
pub fn designs()
    ensures { Reading design_from DesignAt BeginsDesign }
{}

/// What the plain reading of definitions says of their text.
pub fn definitions()
    ensures { Reading defs_from DefsAt BeginsDefs }
{}
