//! Whether tables and numbers are there for a term.
ghost use Rattle.std.specs.Prelude.{◌≡◌, ◌<◌, All, IfSome, IsTrue, Some, length, map, option_map};
ghost use Rattle.cocoon_num.specs.Values.{fits_width};
ghost use Rattle.bv_terms.specs.Arenas.{term_at, width_at};
ghost use Rattle.bv_terms.specs.Environments.{Covers};
ghost use Rattle.bv_terms.specs.Fitting.{CanStand, TablesFit};
ghost use Rattle.bv_terms.specs.Nodes.{FitsNode};
ghost use Rattle.bv_terms.specs.WithRows.{table_of};
ghost use Rattle.runtime_defs.specs.Places.{all_fit_widths};
ghost use Rattle.obligation_tests.specs.Plain.{CoversNode, HasNumber, RowStands};

use bv_terms::{Env, FunId, Node, TermId, Terms};
use cocoon_num::{Bits, FunRow, FunTable};
use std::alloc::Global;

/// Whether a number fits a width in bits.
#[tactic(auto, using(crate::proofs::Standing::shifted_one, crate::proofs::Standing::wide_fits))]
fn fits(width: u8, number: u64) -> bool
    ensures { result ≡ fits_width width number }
{
    width >= 64 || number < 1 << width
}

/// Whether the numbers are as many as the widths, and each fits.
fn all_fit(widths: &[u8], numbers: &[u64]) -> bool
    ensures { IsTrue result → IsTrue (all_fit_widths widths.now numbers.now) }
{
    if widths.len() != numbers.len() {
        return false;
    }
    for at in 0..widths.len() {
        if !fits(widths[at], numbers[at]) {
            return false;
        }
    }
    true
}

/// Whether a row is for arguments of these widths, with a result of the width.
fn row_stands(row: &FunRow, widths: &[u8], width: u8) -> bool
    ensures { IsTrue result → RowStands widths.now width row.now }
{
    let (values, masks) = (row.values.items(), row.masks.items());
    if values.len() != widths.len() {
        return false;
    }
    if !all_fit(widths, masks) {
        return false;
    }
    row.result.width == width
}

fn rows_stand(rows: &[FunRow], widths: &[u8], width: u8) -> bool
    ensures { IsTrue result → All (RowStands widths.now width) rows.now }
{
    for row in rows {
        if !row_stands(row, widths, width) {
            return false;
        }
    }
    true
}

/// Whether a table is for arguments of these widths, with results of the width.
fn table_stands(table: &FunTable, widths: &[u8], width: u8) -> bool
    ensures { IsTrue result → CanStand (Some table.now) widths.now width }
{
    let rows = table.rows.items();
    if !rows_stand(rows, widths, width) {
        return false;
    }
    if table.default.width != width {
        return false;
    }
    table.widths.items() == widths
}

fn table_of(tables: &[Option<FunTable>], function: FunId) -> Option<&FunTable>
    ensures { option_map (λ t. t.now) result ≡ table_of tables.now function }
{
    match tables.get(function as usize) {
        Some(Some(table)) => Some(table),
        _ => None,
    }
}

/// The widths of terms.
fn widths(alloc: Global, terms: &Terms, args: &[TermId]) -> Option<Vec<u8>>
    ensures { IfSome result (λ ws. ws.items ≡ map (width_at terms.now) args.now) }
{
    let mut widths = Vec::new(alloc);
    for arg in args {
        if *arg >= terms.count() {
            return None;
        }
        widths.push(terms.width(*arg)).ok()?;
    }
    Some(widths)
}

/// Whether the table of the function of a node fits, if the node is an application of a function with a table.
fn fits_node(alloc: Global, terms: &Terms, tables: &[Option<FunTable>], node: &Node) -> bool
    ensures { IsTrue result → FitsNode tables.now (width_at terms.now) node.now }
{
    let Node::Apply(function, args, width) = node else {
        return true;
    };
    match (
        table_of(tables, *function),
        widths(alloc, terms, args.items()),
    ) {
        (Some(table), Some(widths)) => table_stands(table, &widths, *width),
        (None, _) => true,
        (Some(_), None) => false,
    }
}

/// Whether the tables fit the functions that a term applies.
pub fn tables_fit(alloc: Global, terms: &Terms, tables: &[Option<FunTable>], goal: TermId) -> bool
    ensures there { IsTrue result → goal < length terms.now }
    ensures fit { IsTrue result → TablesFit tables.now (term_at terms.now goal) }
{
    if goal >= terms.count() {
        return false;
    }
    let Ok(needed) = terms.needed(alloc, goal) else {
        return false;
    };
    for id in &needed {
        if !fits_node(alloc, terms, tables, terms.node(*id)) {
            return false;
        }
    }
    true
}

fn has_input(inputs: &[Bits], input: u32, width: u8) -> bool
    ensures { IsTrue result → HasNumber inputs.now input width }
{
    if input as usize >= inputs.len() {
        return false;
    }
    inputs[input as usize].width == width
}

/// Whether the environment has the input or the function of a node.
fn covers_node(alloc: Global, terms: &Terms, env: &Env, node: &Node) -> bool
    ensures { IsTrue result → CoversNode env.now (width_at terms.now) node.now }
{
    match node {
        Node::Input(input, width) => has_input(env.inputs.items(), *input, *width),
        Node::Apply(function, args, width) => {
            match (
                table_of(env.tables.items(), *function),
                widths(alloc, terms, args.items()),
            ) {
                (Some(table), Some(widths)) => table_stands(table, &widths, *width),
                _ => false,
            }
        }
        _ => true,
    }
}

/// Whether the environment has the inputs of a term and the functions that it applies.
fn covers(alloc: Global, terms: &Terms, env: &Env, goal: TermId) -> bool
    ensures there { IsTrue result → goal < length terms.now }
    ensures covered { IsTrue result → Covers env.now (term_at terms.now goal) }
{
    if goal >= terms.count() {
        return false;
    }
    let Ok(needed) = terms.needed(alloc, goal) else {
        return false;
    };
    for id in &needed {
        if !covers_node(alloc, terms, env, terms.node(*id)) {
            return false;
        }
    }
    true
}

/// The value of a term, if the environment has its inputs and the functions that it applies.
pub fn value(alloc: Global, terms: &Terms, term: TermId, env: &Env) -> Option<Bits> {
    if covers(alloc, terms, env, term) {
        terms.eval(alloc, term, env).ok()
    } else {
        None
    }
}
