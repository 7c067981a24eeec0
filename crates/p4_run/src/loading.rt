//! Loading: the tests, and then what is resolved once.
ghost use Rattle.std.specs.Prelude.{◌≡◌, false, IfErr, IfOk, IsTrue, map, None, true};
ghost use Rattle.numbering.specs.NumberPlaces.{HasPlaces};
ghost use Rattle.p4_ir.specs.Loading.{rows_load, table_numbers};
ghost use Rattle.p4_ir.specs.NetOf.{rows_of};
ghost use Rattle.p4_ir.specs.P4Kinds.{kinds_fit};
ghost use Rattle.p4_ir.specs.P4Tree.{program_layout};
ghost use Rattle.p4_ir.specs.Program.{program_of};
ghost use Rattle.p4_ir.specs.WellKinded.{WellKinded};
ghost use Rattle.p4_run.specs.Places.{starts_from};
ghost use Rattle.p4_run.specs.Effects.{stmt_by, stmts_by};
ghost use Rattle.p4_run.specs.FaultOf.{IsFault};
ghost use Rattle.p4_run.specs.Faults as faults;
ghost use Rattle.p4_run.specs.Running.{program_in, rows_in};
ghost use Rattle.p4_run.specs.Runs.{AreApplied, PlacesTables, Runs};

use crate::constants::Constants;
use crate::expr_resolving::Names;
use crate::faults::{LoadFault, load_fault};
use crate::loaded::Loaded;
use crate::origin::Origin;
use crate::places::{
    FieldWidths, TablePlaces, copied_groups, field_widths, group_places, meta_widths, table_places,
};
use crate::stmt_codes::{Application, StmtCode};
use crate::stmt_resolving::resolved_stmts;
use crate::tables::tables_with;
use cocoon_num::NoMemory;
use numbering::number_table::NumberTable;
use p4_ir::{Program, RowsFile};
use packed_fields::byte_count;
use std::alloc::Global;

/// The statements of ingress.
fn ingress_steps(
    alloc: Global,
    program: &Program,
    rows: &RowsFile,
    starts: &[usize],
    places: &NumberTable,
    tables: &[Application],
) -> Result<Vec<StmtCode>, NoMemory>
    requires kinds { IsTrue (kinds_fit (program_of program.now)) }
    requires loads { IsTrue (rows_load (program_of program.now) (rows_of rows.now)) }
    requires starts { starts.now ≡ starts_from 0 (program_layout (program_of program.now)) }
    requires places { HasPlaces places.now (table_numbers (rows_of rows.now).tables) }
    requires tables { AreApplied (program_of program.now) (rows_of rows.now).tables tables.now }
    ensures { IfOk result (λ steps. Runs (program_of program.now) (rows_of rows.now).tables true
        tables.now (stmts_by (map stmt_by steps.items))) }
{
    let names = Names {
        program,
        starts,
        in_ingress: true,
    };
    let stmts = program.ingress.body.items();
    resolved_stmts(alloc, &names, rows.tables.items(), places, tables, stmts)
}

/// The statements of egress.
fn egress_steps(
    alloc: Global,
    program: &Program,
    rows: &RowsFile,
    starts: &[usize],
    places: &NumberTable,
    tables: &[Application],
) -> Result<Vec<StmtCode>, NoMemory>
    requires kinds { IsTrue (kinds_fit (program_of program.now)) }
    requires loads { IsTrue (rows_load (program_of program.now) (rows_of rows.now)) }
    requires starts { starts.now ≡ starts_from 0 (program_layout (program_of program.now)) }
    requires places { HasPlaces places.now (table_numbers (rows_of rows.now).tables) }
    requires tables { AreApplied (program_of program.now) (rows_of rows.now).tables tables.now }
    ensures { IfOk result (λ steps. Runs (program_of program.now) (rows_of rows.now).tables false
        tables.now (stmts_by (map stmt_by steps.items))) }
{
    let names = Names {
        program,
        starts,
        in_ingress: false,
    };
    let stmts = program.egress.body.items();
    resolved_stmts(alloc, &names, rows.tables.items(), places, tables, stmts)
}

/// A program with rows that load, and its tables.
fn placed(
    alloc: Global,
    program: &Program,
    rows: &RowsFile,
    places: &TablePlaces,
    tables: Vec<Application>,
) -> Result<Loaded, NoMemory>
    requires kinds { IsTrue (kinds_fit (program_of program.now)) }
    requires loads { IsTrue (rows_load (program_of program.now) (rows_of rows.now)) }
    requires places { PlacesTables (program_of program.now) (rows_of rows.now).tables places.now }
    requires tables { AreApplied (program_of program.now) (rows_of rows.now).tables tables.items }
    ensures program { IfOk result (λ loaded. program_in loaded ≡ program_of program.now) }
    ensures rows { IfOk result (λ loaded. rows_in loaded ≡ rows_of rows.now) }
{
    let FieldWidths { widths, starts } = field_widths(alloc, program.headers.items())?;
    let header_bytes = byte_count(&widths)?;
    let meta = meta_widths(alloc, program.meta.items())?;
    let ingress = ingress_steps(alloc, program, rows, &starts, &places.rows, &tables)?;
    let egress = egress_steps(alloc, program, rows, &starts, &places.rows, &tables)?;
    let all_groups = copied_groups(alloc, rows)?;
    let groups = group_places(alloc, rows)?;
    let origin = Origin::of(program, rows);
    Ok(Loaded {
        origin,
        widths,
        header_bytes,
        meta,
        tables,
        ingress,
        egress,
        all_groups,
        groups,
    })
}

/// A program with rows that load.
fn resolved(
    alloc: Global,
    program: &Program,
    rows: &RowsFile,
    places: &TablePlaces,
) -> Result<Loaded, NoMemory>
    requires kinds { IsTrue (kinds_fit (program_of program.now)) }
    requires loads { IsTrue (rows_load (program_of program.now) (rows_of rows.now)) }
    requires places { PlacesTables (program_of program.now) (rows_of rows.now).tables places.now }
    ensures program { IfOk result (λ loaded. program_in loaded ≡ program_of program.now) }
    ensures rows { IfOk result (λ loaded. rows_in loaded ≡ rows_of rows.now) }
{
    let constants = Constants::of(alloc, program)?;
    let tables = tables_with(
        alloc,
        program,
        &constants,
        &places.tables,
        rows.tables.items(),
    )?;
    placed(alloc, program, rows, places, tables)
}

impl Loaded {
    /// Loads rows into a program. Neither is kept, nor copied whole.
    pub fn new(alloc: Global, program: &Program, rows: &RowsFile) -> Result<Loaded, LoadFault>
        requires { WellKinded (program_of program.now) }
        ensures program { IfOk result (λ loaded. program_in loaded ≡ program_of program.now) }
        ensures rows { IfOk result (λ loaded. rows_in loaded ≡ rows_of rows.now) }
        ensures loads { IfOk result (λ loaded.
            faults.load_fault (program_of program.now) (rows_of rows.now) ≡ None) }
        ensures fault { IfErr result (λ fault.
            IsFault fault (faults.load_fault (program_of program.now) (rows_of rows.now))) }
    {
        let places = table_places(alloc, program, rows.tables.items())?;
        if let Some(fault) = load_fault(alloc, program, rows, &places)? {
            return Err(fault);
        }
        Ok(resolved(alloc, program, rows, &places)?)
    }
}
