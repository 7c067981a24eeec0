//! The texts of a design and its definitions: the design with definitions that fit it. All commands
//! that read these two texts judge them so.
ghost use Rattle.std.specs.Prelude.{List, ℕ, Some, ◌≡◌, ◌⊎◌, ◌<◌, ◌^◌, IfErr, IfOk, length, slice_get};
ghost use Rattle.cocoon_num.specs.Reads.{Reads, ReadsDefs};
ghost use Rattle.cocoon_num.specs.Tree as tree;
ghost use Rattle.cocoon_resolve.specs.Resolved.{IsRefused};
ghost use Rattle.cocoon_syntax.specs.TreeOf.{design_of, entries_of};
ghost use Rattle.cocoon_text.specs.Positions.{token_position};
ghost use Rattle.cocoon_types.specs.Design.{functions};
ghost use Rattle.cocoon_types.specs.FirstFault.{FirstFault};
ghost use Rattle.cocoon_types.specs.RuleNames.{fault_at};
ghost use Rattle.runtime_defs.specs.Bound as defs;
ghost use Rattle.command_reports.specs.DesignTexts.{BindsTables, NotBound, NotChecked, NotMatched, NotRead, NotReadAfter, ReadsChecked};

use crate::{DefinitionsFault, EntryRule, InputFault, Refusal};
use cocoon_num::{LimitName, NoMemory, Text};
use cocoon_resolve::{Checked, FunId, TypeFault, resolve};
use cocoon_syntax::{DefsText, Design};
use cocoon_text::{Unread, position_of, read_defs, read_design};
use cocoon_types::TypeRule;
use runtime_defs::{Defs, DefsFault, bind};
use sound_types::laws::code_literals_fit;
use std::alloc::Global;

/// The tree of a design.
fn read_tree(alloc: Global, text: &[u8]) -> Result<Design, Refusal>
    requires { length text.now < 2 ^ 31 }
    ensures reads { IfOk result (λ d. Reads text.now (design_of d)) }
    ensures refused { IfErr result (NotChecked text.now) }
{
    match read_design(alloc, text) {
        Ok(design) => Ok(design),
        Err(Unread::Faulty(fault)) => Err(Refusal::Language(InputFault::NoTree(fault))),
        Err(Unread::NoMemory) => Err(Refusal::NoMemory),
    }
}

/// The refusal of a design that breaks this rule first, at the token of this index.
fn first_rule(alloc: Global, text: &[u8], rule: TypeRule, token: u32) -> Refusal
    requires { length text.now < 2 ^ 31 }
    ensures { (design : tree.Design) → Reads text.now design
        → FirstFault design (fault_at rule token) → NotChecked text.now result }
{
    match position_of(alloc, text, token) {
        Ok(position) => Refusal::Language(InputFault::Rule(rule, position)),
        Err(NoMemory) => Refusal::NoMemory,
    }
}

/// The refusal of a design with this fault.
fn unresolved(alloc: Global, text: &[u8], fault: TypeFault) -> Refusal
    requires { length text.now < 2 ^ 31 }
    ensures { (design : tree.Design) → Reads text.now design → IsRefused design fault
        → NotChecked text.now result }
{
    match fault {
        TypeFault::Rule(rule, token) => first_rule(alloc, text, rule, token),
        TypeFault::Limit(limit, count) => Refusal::OverLimit(limit, count),
        TypeFault::NoMemory => Refusal::NoMemory,
    }
}

/// The design of a text, where it keeps the rules and the limits.
pub fn read_checked(alloc: Global, text: &[u8]) -> Result<Checked, Refusal>
    requires { length text.now < 2 ^ 31 }
    ensures reads { IfOk result (λ c. ReadsChecked text.now (design_of c)) }
    ensures refused { IfErr result (NotChecked text.now) }
{
    let design = read_tree(alloc, text)?;
    match resolve(alloc, design) {
        Ok(checked) => Ok(checked),
        Err(fault) => Err(unresolved(alloc, text, fault)),
    }
}

/// The tree of definitions.
fn read_entries(alloc: Global, text: &[u8]) -> Result<DefsText, Refusal>
    requires { length text.now < 2 ^ 31 }
    ensures reads { IfOk result (λ d. ReadsDefs text.now (entries_of d)) }
    ensures refused { IfErr result (NotRead text.now) }
{
    match read_defs(alloc, text) {
        Ok(entries) => Ok(entries),
        Err(Unread::Faulty(fault)) => Err(Refusal::Definitions(DefinitionsFault::NoTree(fault))),
        Err(Unread::NoMemory) => Err(Refusal::NoMemory),
    }
}

/// A design with definitions that fit it.
#[derive(Drop)]
pub struct Bound {
    pub checked: Checked,
    pub defs: Defs,
}

/// The refusal of definitions of which an entry breaks this rule first; its name is the token of
/// this index.
fn first_entry(alloc: Global, text: &[u8], rule: EntryRule, token: u32) -> Refusal
    requires { length text.now < 2 ^ 31 }
    ensures { (result ≡ Refusal.NoMemory) ⊎ (result ≡ Refusal.Definitions
        (DefinitionsFault.Entry rule (token_position text.now token))) }
{
    match position_of(alloc, text, token) {
        Ok(position) => Refusal::Definitions(DefinitionsFault::Entry(rule, position)),
        Err(NoMemory) => Refusal::NoMemory,
    }
}

/// The refusal of definitions in which the function of this number has no default.
fn first_missing(alloc: Global, checked: &Checked, function: FunId) -> Refusal
    ensures { (f : tree.FunctionDecl)
        → slice_get (functions (design_of checked.now)) function ≡ Some f
        → (result ≡ Refusal.NoMemory)
        ⊎ (result ≡ Refusal.Definitions (DefinitionsFault.NoDefault f.name.text)) }
{
    match checked.names().function(checked.design(), function) {
        Some(function) => match Text::from(alloc, function.name.text.bytes()) {
            Ok(name) => Refusal::Definitions(DefinitionsFault::NoDefault(name)),
            Err(NoMemory) => Refusal::NoMemory,
        },
        None => Refusal::NoMemory,
    }
}

/// The refusal of definitions with this fault.
fn unbound(alloc: Global, text: &[u8], checked: &Checked, fault: DefsFault) -> Refusal
    requires { length text.now < 2 ^ 31 }
    ensures { (design : List ℕ) (entries : tree.DefsText)
        → ReadsChecked design (design_of checked.now) → ReadsDefs text.now entries
        → defs.IsRefused (design_of checked.now) entries fault → NotBound design text.now result }
{
    match fault {
        DefsFault::UnknownFunction(at) => first_entry(alloc, text, EntryRule::UnknownFunction, at),
        DefsFault::WrongRow(at) => first_entry(alloc, text, EntryRule::WrongRow, at),
        DefsFault::TwoDefaults(at) => first_entry(alloc, text, EntryRule::TwoDefaults, at),
        DefsFault::NoDefault(function) => first_missing(alloc, checked, function),
        DefsFault::GuardRows(at) => first_entry(alloc, text, EntryRule::GuardRows, at),
        DefsFault::ForkRows(at) => first_entry(alloc, text, EntryRule::ForkRows, at),
        DefsFault::Limit(count) => Refusal::OverLimit(LimitName::Rows, count),
        DefsFault::NoMemory => Refusal::NoMemory,
    }
}

/// The definitions of a text, where they fit this design and are within the limit on rows.
pub fn bind_text(alloc: Global, checked: &Checked, text: &[u8]) -> Result<Defs, Refusal>
    requires { length text.now < 2 ^ 31 }
    ensures bound { IfOk result (λ defs. (design : List ℕ)
        → ReadsChecked design (design_of checked.now)
        → BindsTables design text.now (design_of checked.now) defs) }
    ensures refused { IfErr result (λ refusal. (design : List ℕ)
        → ReadsChecked design (design_of checked.now)
        → NotReadAfter design text.now refusal ⊎ NotBound design text.now refusal) }
{
    code_literals_fit();
    let entries = read_entries(alloc, text)?;
    match bind(alloc, checked, entries) {
        Ok(defs) => Ok(defs),
        Err(fault) => Err(unbound(alloc, text, checked, fault)),
    }
}

/// The design and the definitions of the two texts, where these fit it, or why there are none. The
/// design is judged first.
pub fn bound_texts(alloc: Global, design: &[u8], defs: &[u8]) -> Result<Bound, Refusal>
    requires small { length design.now < 2 ^ 31 }
    requires small_too { length defs.now < 2 ^ 31 }
    ensures binds { IfOk result (λ b.
        BindsTables design.now defs.now (design_of b.checked) b.defs) }
    ensures refused { IfErr result (NotMatched design.now defs.now) }
{
    let checked = read_checked(alloc, design)?;
    let defs = bind_text(alloc, &checked, defs)?;
    Ok(Bound { checked, defs })
}
