//! A program with its rows, loaded.
ghost use Rattle.std.specs.Prelude.{◌≡◌, false, IsTrue, map, true};
ghost use Rattle.packed_fields.specs.AtOnce.{bytes_in, widths_in};
ghost use Rattle.p4_ir.specs.Loading.{rows_load};
ghost use Rattle.p4_ir.specs.NetOf.{group_of, rows_of};
ghost use Rattle.p4_ir.specs.P4Kinds.{kinds_fit};
ghost use Rattle.p4_ir.specs.P4Tree.{field_widths, program_layout};
ghost use Rattle.p4_ir.specs.Program.{program_of};
ghost use Rattle.p4_run.specs.Effects.{stmt_by, stmts_by};
ghost use Rattle.std.proofs.Props.{props};
ghost use Rattle.p4_run.specs.Runs.{ArePlaced, Runs};

use crate::origin::Origin;
use crate::stmt_codes::{Application, StmtCode};
use numbering::number_table::NumberTable;
use p4_ir::Group;

/// A program with its rows, in which nothing but rows is left to be looked up. The program itself is not kept.
#[derive(Drop)]
pub struct Loaded {
    pub(crate) origin: Origin,
    /// The widths of the fields of all headers, one header after another.
    pub(crate) widths: Vec<u8>,
    pub(crate) header_bytes: usize,
    /// The widths of the meta fields.
    pub(crate) meta: Vec<u8>,
    /// The tables, in the order of their rows.
    pub(crate) tables: Vec<Application>,
    /// The statements of both controls, resolved.
    pub(crate) ingress: Vec<StmtCode>,
    pub(crate) egress: Vec<StmtCode>,
    pub(crate) all_groups: Vec<Group>,
    /// Where the group of each number stands.
    pub(crate) groups: NumberTable,
    ghost kinds: { IsTrue (kinds_fit (program_of origin.program)) },
    ghost loads: { IsTrue (rows_load (program_of origin.program) (rows_of origin.rows)) },
    ghost widths_are: { widths.items ≡ widths_in (program_layout (program_of origin.program)) },
    ghost bytes_are: { header_bytes ≡ bytes_in (program_layout (program_of origin.program)) },
    ghost meta_are: { meta.items ≡ field_widths (program_of origin.program).meta },
    ghost groups_kept: { map group_of all_groups.items ≡ (rows_of origin.rows).groups },
    ghost ingress_runs: { Runs (program_of origin.program) (rows_of origin.rows).tables true tables.items
        (stmts_by (map stmt_by ingress.items)) } by { Prim.hlevel props },
    ghost egress_runs: { Runs (program_of origin.program) (rows_of origin.rows).tables false tables.items
        (stmts_by (map stmt_by egress.items)) } by { Prim.hlevel props },
    ghost groups_are: { ArePlaced groups (rows_of origin.rows).groups } by { Prim.hlevel props },
}
