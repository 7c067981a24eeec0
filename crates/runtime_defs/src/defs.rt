//! Definitions that fit a design.
ghost use Rattle.std.specs.Prelude.{All, ◌≡◌, IfErr, IfOk, length, option_map, Some};
ghost use Rattle.std.specs.List.{AllZip};
ghost use Rattle.cocoon_num.specs.FunTables.{looked};
ghost use Rattle.cocoon_num.specs.Reads.{ReadsDefs};
ghost use Rattle.cocoon_num.specs.declared.fun_table.FunTable.{FunTable as Table};
ghost use Rattle.cocoon_resolve.specs.Resolved.{Resolves};
ghost use Rattle.cocoon_syntax.specs.TreeOf.{design_of, entries_of};
ghost use Rattle.cocoon_types.specs.DefsRules.{DefsFit};
ghost use Rattle.cocoon_types.specs.Design.{functions};
ghost use Rattle.cocoon_types.specs.Tables.{defs_of};
ghost use Rattle.runtime_defs.specs.Bound.{IsBound, IsRefused};
ghost use Rattle.runtime_defs.specs.Fitting.{FitsDesign, IsMasked};
ghost use Rattle.runtime_defs.specs.EntryPlaces.{defs_text, entries_of_places};
ghost use Rattle.runtime_defs.specs.Tabled.{IsPlace};
ghost use Rattle.runtime_defs.specs.Guards.{host_table, ListsTrue, switch_table};
ghost use Rattle.runtime_defs.specs.Places as places;
ghost use Rattle.runtime_defs.specs.Places.{MayHaveShape, Places, TakesArgs};
ghost use Rattle.runtime_defs.specs.Stands.{Stands};
ghost use Rattle.runtime_defs.specs.RowKeys.{MayBeKeyed};
ghost use Rattle.runtime_defs.specs.TrueRows.{IsListed, MayBeListed};

use crate::fault::DefsFault;
use crate::finding::first_fault;
use crate::guards::{host_function, switch_function};
use crate::print::print_defs;
use crate::row_keys::{all_keys, look};
use crate::tables::{count_rows, tables_of};
use crate::text_laws::{definitions_fit, tables_come_back};
use crate::true_numbers::{TrueNumbers, all_numbers};
use cocoon_num::{Bits, FunTable, NoMemory, Text};
use cocoon_resolve::Checked;
use cocoon_syntax::DefsText;
use declarations::FunId;
use numbering::key_table::KeyTable;
use std::alloc::Global;
use std::marker::Model;

/// The most rows that definitions may have.
pub const MOST_ROWS: u64 = 8192;

/// The definitions of a design: what each function that is defined at run time gives.
#[derive(Drop)]
pub struct Defs {
    tables: Vec<Option<FunTable>>,
    /// For each function, the numbers at which its table is true.
    numbers: Vec<TrueNumbers>,
    /// For each function whose table's rows compare all bits, their values.
    keys: Vec<Option<KeyTable>>,
}

impl Model for Defs {
    ghost use Rattle.std.specs.Prelude.{List, Option};
    ghost use Rattle.cocoon_num.specs.declared.fun_table.FunTable.{FunTable};
    ghost use Rattle.runtime_defs.specs.TrueRows.{IsKept};

    ghost Value = { List (Option FunTable) };

    ghost view = { λ defs. defs.tables.items };

    ghost invariant = { λ defs. IsKept defs.tables.items defs.numbers.items defs.keys.items };
}

impl Defs {
    /// The definitions with these tables, however many rows they have.
    pub fn from_tables(
        alloc: Global,
        checked: &Checked,
        tables: Vec<Option<FunTable>>,
    ) -> Result<Defs, NoMemory>
        requires { FitsDesign (design_of checked.now) tables.items }
        ensures { IfOk result (λ defs. defs ≡ tables.items) }
    {
        keeps_rules(checked);
        Defs::new(alloc, tables)
    }

    /// Keeps tables with the numbers at which they are true.
    fn new(alloc: Global, tables: Vec<Option<FunTable>>) -> Result<Defs, NoMemory>
        requires { All MayHaveShape tables.items }
        ensures { IfOk result (λ defs. defs ≡ tables.items) }
    {
        let numbers = all_numbers(alloc, &tables)?;
        let keys = all_keys(alloc, &tables)?;
        Ok(Defs {
            tables,
            numbers,
            keys,
        })
    }

    /// The table of each function, in the order of declaration; none for a function with a body.
    pub fn tables(&self) -> &[Option<FunTable>]
        ensures are { result.now ≡ self.now }
        ensures shapes { All MayHaveShape self.now }
    {
        &self.tables
    }

    /// The text of the definitions, an entry a line: functions in the order of declaration, of each the default and then
    /// its rows. It reads as definitions of the design with the same tables, however many rows they have.
    pub fn text(&self, alloc: Global, checked: &Checked) -> Result<Text, NoMemory>
        requires { FitsDesign (design_of checked.now) self.now }
        ensures text { IfOk result (λ text. text ≡ defs_text (design_of checked.now) self.now) }
        ensures reads { IfOk result (λ text.
            ReadsDefs text (entries_of_places (design_of checked.now) self.now)) }
        ensures fits { DefsFit (design_of checked.now)
            (entries_of_places (design_of checked.now) self.now) }
        ensures binds { All IsMasked self.now
            → AllZip (IsPlace (entries_of_places (design_of checked.now) self.now))
            (functions (design_of checked.now)) self.now }
    {
        keeps_rules(checked);
        definitions_fit();
        tables_come_back();
        print_defs(alloc, checked, &self.tables)
    }

    /// The value of a function that is defined at run time, by its number, at so many arguments as it has parameters: of
    /// the first row that matches, else the default. A truth value is a number of width 1.
    pub fn look(&self, function: FunId, args: &[u64]) -> Bits
        requires { TakesArgs self.now function (length args.now) }
        ensures { (t : Table) → places.table_at self.now function ≡ Some t
            → result ≡ looked t args.now }
    {
        look_at(&self.tables, &self.keys, function, args)
    }

    /// The numbers of the hosts, ascending: those at which the function of the host roles' guard is true.
    pub fn hosts(&self, checked: &Checked) -> &[u64]
        requires { FitsDesign (design_of checked.now) self.now }
        ensures { ListsTrue 64 (host_table (design_of checked.now) self.now) result.now }
    {
        match numbers_at(&self.numbers, host_function(checked)) {
            Some(numbers) => &numbers.all,
            None => &[],
        }
    }

    /// The numbers of the switches, ascending: those at which the function of the switch roles' guards is true.
    pub fn switches(&self, checked: &Checked) -> &[u16]
        requires { FitsDesign (design_of checked.now) self.now }
        ensures { ListsTrue 16 (switch_table (design_of checked.now) self.now) result.now }
    {
        match numbers_at(&self.numbers, switch_function(checked)) {
            Some(numbers) => &numbers.short,
            None => &[],
        }
    }
}

/// The design keeps the rules.
fn keeps_rules(checked: &Checked)
    ensures { Resolves (design_of checked.now) }
{
    checked.design();
}

/// The table of a function, if it has one.
fn table_at(tables: &[Option<FunTable>], function: FunId) -> Option<&FunTable>
    ensures { option_map (λ t. t.now) result ≡ places.table_at tables.now function }
{
    tables.get(function as usize)?.as_ref()
}

/// The value of a function's table at these arguments.
fn look_at(
    tables: &[Option<FunTable>],
    keys: &[Option<KeyTable>],
    function: FunId,
    args: &[u64],
) -> Bits
    requires takes { TakesArgs tables.now function (length args.now) }
    requires shapes { All MayHaveShape tables.now }
    requires keyed { AllZip MayBeKeyed tables.now keys.now }
    ensures { (t : Table) → places.table_at tables.now function ≡ Some t
        → result ≡ looked t args.now }
{
    let table = table_at(tables, function).unwrap();
    look(&keys[function as usize], table, args)
}

/// The numbers that are kept for a function.
fn numbers_at(numbers: &[TrueNumbers], function: Option<FunId>) -> Option<&TrueNumbers>
    ensures { (tables : Places) → AllZip IsListed tables numbers.now
        → MayBeListed tables function (option_map (λ kept. kept.now) result) }
{
    numbers.get(function? as usize)
}

/// The definitions of a text, if they fit the design and have at most 8,192 rows.
pub fn bind(alloc: Global, checked: &Checked, defs: DefsText) -> Result<Defs, DefsFault>
    ensures bound { IfOk result (λ bound. IsBound (design_of checked.now) (entries_of defs) bound) }
    ensures fits { IfOk result (λ bound. FitsDesign (design_of checked.now) bound) }
    ensures masked { IfOk result (λ bound. All IsMasked bound) }
    ensures stands { IfOk result (λ bound. Stands (design_of checked.now) bound
        (defs_of (design_of checked.now) (entries_of defs))) }
    ensures refused { IfErr result (λ fault.
        IsRefused (design_of checked.now) (entries_of defs) fault) }
{
    match first_fault(alloc, checked, &defs)? {
        Some(fault) => Err(fault),
        None => bind_fitting(alloc, checked, &defs),
    }
}

/// The definitions of a text without a fault.
fn bind_fitting(alloc: Global, checked: &Checked, defs: &DefsText) -> Result<Defs, DefsFault>
    requires { DefsFit (design_of checked.now) (entries_of defs.now) }
    ensures bound { IfOk result (λ bound.
        IsBound (design_of checked.now) (entries_of defs.now) bound) }
    ensures fits { IfOk result (λ bound. FitsDesign (design_of checked.now) bound) }
    ensures masked { IfOk result (λ bound. All IsMasked bound) }
    ensures stands { IfOk result (λ bound. Stands (design_of checked.now) bound
        (defs_of (design_of checked.now) (entries_of defs.now))) }
    ensures refused { IfErr result (λ fault.
        IsRefused (design_of checked.now) (entries_of defs.now) fault) }
{
    let count = count_rows(&defs.entries);
    if count > MOST_ROWS {
        return Err(DefsFault::Limit(count));
    }
    keeps_rules(checked);
    let tables = tables_of(alloc, checked, &defs.entries)?;
    Ok(Defs::new(alloc, tables)?)
}
