//! Whole texts.
ghost use Rattle.std.specs.Prelude.{◌≤◌, ◌^◌, IfErr, IfOk, IsTrue, length};
ghost use Rattle.cocoon_num.specs.Tokens.{is_shallow};
ghost use Rattle.p4_ir.specs.P4Text.{p4_bounds};
ghost use Rattle.p4_texts.specs.Reading.{Ended};
ghost use Rattle.p4_texts.specs.Written.{P4TextAt};
ghost use Rattle.p4_texts.specs.TreeOf.{text_of};
ghost use Rattle.p4_parse.specs.Faults.{IsFirstFault};
ghost use Rattle.p4_parse.specs.Phrases.{kinds_at};

use crate::Token;
use crate::deep::P4;
use crate::program::program;
use crate::source::Source;
use p4_texts::reader_laws::reading;
use p4_texts::written::WrittenProgram;
use parsing::{ParseFault, fault_of, first_deep, up_to};
use std::alloc::Global;

/// The tree of a text with these tokens, or its first fault, at a token index from 0.
pub fn parse(alloc: Global, text: &[u8], tokens: &[Token]) -> Result<WrittenProgram, ParseFault>
    requires few { length tokens.now ≤ 2 ^ 32 }
    requires ended { Ended (kinds_at text.now tokens.now) }
    ensures reads { IfOk result (λ t. P4TextAt (kinds_at text.now tokens.now) (text_of t)) }
    ensures shallow { IfOk
        result (λ t. IsTrue (is_shallow p4_bounds (kinds_at text.now tokens.now))) }
    ensures fault { IfErr result (IsFirstFault (kinds_at text.now tokens.now)) }
{
    reading();
    let deep = first_deep::<P4>(tokens);
    let source = Source::new(text, up_to(tokens, deep));
    match program(alloc, &source) {
        Ok(program) => Ok(program),
        Err(stop) => Err(fault_of(stop, deep)),
    }
}
