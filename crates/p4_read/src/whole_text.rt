//! Whole texts.
ghost use Rattle.std.specs.Prelude.{◌<◌, ◌^◌, IfErr, IfOk, length};
ghost use Rattle.p4_ir.specs.P4Reads.{P4Reads};
ghost use Rattle.p4_ir.specs.Program.{program_of};
ghost use Rattle.p4_read.specs.FirstFault.{IsFirstFault};

use crate::fault::P4Fault;
use p4_ir::Program;
use p4_parse::{lex, parse};
use p4_resolve::resolve;
use p4_texts::program_laws::reads_where_it_stands;
use p4_texts::reader_laws::tokens_end;
use std::alloc::Global;

/// The program that a text is, or its first fault. Bytes and tokens are counted from 0.
pub fn read(alloc: Global, text: &[u8]) -> Result<Program, P4Fault>
    requires small { length text.now < 2 ^ 31 }
    ensures reads { IfOk result (λ p. P4Reads text.now (program_of p)) }
    ensures fault { IfErr result (IsFirstFault text.now) }
{
    tokens_end();
    reads_where_it_stands();
    let tokens = lex(alloc, text)?;
    let tree = parse(alloc, text, &tokens)?;
    let program = resolve(alloc, &tree)?;
    Ok(program)
}
