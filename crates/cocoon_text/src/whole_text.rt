//! Whole texts of designs and of definitions.
ghost use Rattle.std.specs.Prelude.{◌≡◌, ◌<◌, ◌^◌, ℕ, Err, IfOk, Ok, length, map};
ghost use Rattle.cocoon_num.specs.Reads.{Reads, ReadsDefs};
ghost use Rattle.cocoon_num.specs.FirstFaults.{BeginsDefs, BeginsDesign, TooDeep, Unexpected};
ghost use Rattle.cocoon_num.specs.Tokens.{kinds, language, lex, language_bounds};
ghost use Rattle.cocoon_text.specs.Kinds.{token_of};
ghost use Rattle.cocoon_syntax.specs.TreeOf.{design_of, entries_of};

use crate::decls::design;
use crate::deep::Language;
use crate::defs::entries;
use crate::source::Source;
use crate::token::Token;
use cocoon_syntax::{DefsText, Design};
use parsing::text_laws::{definitions, designs, tokens_end};
use parsing::{ParseFault, fault_of, first_deep, up_to};
use std::alloc::Global;

/// The tree of a text of a design with these tokens, or its first fault, at a token index.
pub fn parse_design(alloc: Global, text: &[u8], tokens: &[Token]) -> Result<Design, ParseFault>
    requires small { length text.now < 2 ^ 32 }
    requires tokens { lex language text.now ≡ Ok (map (token_of text.now) tokens.now) }
    ensures reads { IfOk result (λ d. Reads text.now (design_of d)) }
    ensures unexpected { (i : ℕ) → result ≡ Err (ParseFault.Unexpected i)
        → Unexpected language_bounds BeginsDesign (kinds (map (token_of text.now) tokens.now)) i }
    ensures too_deep { (i : ℕ) → result ≡ Err (ParseFault.TooDeep i)
        → TooDeep language_bounds BeginsDesign (kinds (map (token_of text.now) tokens.now)) i }
{
    tokens_end();
    designs();
    let deep = first_deep::<Language>(tokens);
    let source = Source::new(text, up_to(tokens, deep));
    match design(alloc, &source) {
        Ok((design, _)) => Ok(design),
        Err(stop) => Err(fault_of(stop, deep)),
    }
}

/// The tree of a text of definitions with these tokens, or its first fault, at a token index.
pub fn parse_defs(alloc: Global, text: &[u8], tokens: &[Token]) -> Result<DefsText, ParseFault>
    requires small { length text.now < 2 ^ 32 }
    requires tokens { lex language text.now ≡ Ok (map (token_of text.now) tokens.now) }
    ensures reads { IfOk result (λ d. ReadsDefs text.now (entries_of d)) }
    ensures unexpected { (i : ℕ) → result ≡ Err (ParseFault.Unexpected i)
        → Unexpected language_bounds BeginsDefs (kinds (map (token_of text.now) tokens.now)) i }
    ensures too_deep { (i : ℕ) → result ≡ Err (ParseFault.TooDeep i)
        → TooDeep language_bounds BeginsDefs (kinds (map (token_of text.now) tokens.now)) i }
{
    tokens_end();
    definitions();
    let deep = first_deep::<Language>(tokens);
    let source = Source::new(text, up_to(tokens, deep));
    match entries(alloc, &source) {
        Ok((entries, _)) => Ok(DefsText { entries }),
        Err(stop) => Err(fault_of(stop, deep)),
    }
}
