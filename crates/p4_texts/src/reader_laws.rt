//! Texts of P4 programs. The functions do nothing; their contracts are the laws.
ghost use Rattle.std.specs.Prelude.{◌≡◌, List, Ok, length, ℕ};
ghost use Rattle.cocoon_num.specs.Tokens.{Token, lex};
ghost use Rattle.p4_ir.specs.P4Text.{p4_lexicon};
ghost use Rattle.p4_texts.specs.Reading.{P4Reading, TokensOf};

/// The tokens of a text end with its end, and are few.
pub fn tokens_end()
    ensures { (text : List ℕ) (tokens : List Token) → lex p4_lexicon text ≡ Ok tokens
        → TokensOf (length text) tokens }
{}

/// What the plain reader says of the tokens of a text.
pub fn reading()
    ensures { P4Reading }
{}
