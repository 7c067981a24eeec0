//! P4 programs compared as trees.
ghost use Rattle.std.specs.Prelude.{◌≡◌, ◌↔◌, ℕ, IsTrue, map};
ghost use Rattle.p4_ir.specs.P4Tree as tree;
ghost use Rattle.p4_ir.specs.Program.{block_of, control_of, field_of, header_of, program_of, stmt_of, table_of};

use crate::lists::{Compared, are_same};
use crate::parts::Whole;
use crate::stmts::same_stmts;
use cocoon_num::Text;
use p4_ir::{Control, P4Field, P4Header, P4Stmt, Program, Table};

impl Compared<Whole> for u32 {
    ghost Meaning = { ℕ };

    ghost meaning = { λ n. n };

    fn is_same(&self, other: &u32) -> bool {
        *self == *other
    }
}

fn same_text(one: &Text, other: &Text) -> bool
    ensures { IsTrue result ↔ (one.now ≡ other.now) }
{
    one.bytes() == other.bytes()
}

impl Compared<Whole> for P4Field {
    ghost Meaning = { tree.P4Field };

    ghost meaning = { field_of };

    fn is_same(&self, other: &P4Field) -> bool {
        self.width == other.width && same_text(&self.name, &other.name)
    }
}

impl Compared<Whole> for P4Header {
    ghost Meaning = { tree.P4Header };

    ghost meaning = { header_of };

    fn is_same(&self, other: &P4Header) -> bool {
        same_text(&self.name, &other.name)
            && are_same::<Whole, P4Field>(self.fields.items(), other.fields.items())
    }
}

impl Compared<Whole> for Table {
    ghost Meaning = { tree.P4Table };

    ghost meaning = { table_of };

    fn is_same(&self, other: &Table) -> bool {
        self.number == other.number
            && self.exact == other.exact
            && self.result == other.result
            && are_same::<Whole, u32>(self.keys.items(), other.keys.items())
    }
}

#[tactic(auto, using(crate::proofs::SameTrees::block_exact))]
fn same_body(one: &[P4Stmt], other: &[P4Stmt]) -> bool
    ensures { IsTrue result
        ↔ (block_of (map stmt_of one.now) ≡ block_of (map stmt_of other.now)) }
{
    same_stmts(one, other)
}

fn same_control(one: &Control, other: &Control) -> bool
    ensures { IsTrue result ↔ (control_of one.now ≡ control_of other.now) }
{
    are_same::<Whole, Table>(one.tables.items(), other.tables.items())
        && same_body(one.body.items(), other.body.items())
}

/// Whether the programs are the same tree.
pub fn same_program(one: &Program, other: &Program) -> bool
    ensures { IsTrue result ↔ (program_of one.now ≡ program_of other.now) }
{
    are_same::<Whole, P4Header>(one.headers.items(), other.headers.items())
        && are_same::<Whole, P4Field>(one.meta.items(), other.meta.items())
        && same_control(&one.ingress, &other.ingress)
        && same_control(&one.egress, &other.egress)
}
