//! Tables in the place of functions.
ghost use Rattle.std.specs.Prelude.{◌≡◌, ◌<◌, IfOk, length, option_map};
ghost use Rattle.bv_terms.specs.Arenas.{KeepsTerms, inputs_in, term_at};
ghost use Rattle.bv_terms.specs.Fitting.{TablesFit};
ghost use Rattle.bv_terms.specs.Growth.{IsMade, OnlyGrows};
ghost use Rattle.bv_terms.specs.Nodes.{CanMake, node_with_rows};
ghost use Rattle.bv_terms.specs.WithRows.{table_of, with_rows};

use crate::arena::Terms;
use crate::node::{FunId, Node, TermId};
use crate::rows::table_choices;
use crate::substitute::with_parts;
use crate::term_map::TermMap;
use cocoon_num::{FunTable, NoMemory};
use std::alloc::Global;

/// The table of a function, if it has one.
fn table_of(tables: &[Option<FunTable>], function: FunId) -> Option<&FunTable>
    ensures { option_map (λ t. t.now) result ≡ table_of tables.now function }
{
    match tables.get(function as usize) {
        Some(Some(table)) => Some(table),
        _ => None,
    }
}

/// The term of a node of this width: an application of a function with a table becomes choices over the rows, and an input is
/// there already.
fn choose(
    terms: &mut Terms,
    tables: &[Option<FunTable>],
    own: TermId,
    node: Node,
    width: u8,
) -> Result<TermId, NoMemory>
    requires { CanMake tables.now terms.old node width own }
    ensures made { IfOk result (λ id.
        IsMade terms.new (node_with_rows tables.now (term_at terms.old) node) id) }
    ensures grown { OnlyGrows terms.old terms.new }
{
    match node {
        Node::Input(_, _) => Ok(own),
        Node::Apply(function, args, width) => match table_of(tables, function) {
            Some(table) => table_choices(terms, table, args.items()),
            None => terms.apply(function, args.items(), width),
        },
        node => terms.put(node, width),
    }
}

/// The term in which each application of a function with a table is a chain of choices over the rows of the table: the first row
/// is the outermost choice, and the default the innermost. Each function has its table at its number; one that has none there
/// stays an application. A term that is used more than once is made once.
pub fn with_defs(
    alloc: Global,
    goal: TermId,
    tables: &[Option<FunTable>],
    terms: &mut Terms,
) -> Result<TermId, NoMemory>
    requires there { goal < length terms.old }
    requires tables { TablesFit tables.now (term_at terms.old goal) }
    ensures there { IfOk result (λ id. id < length terms.new) }
    ensures term { IfOk result (λ id.
        term_at terms.new id ≡ with_rows tables.now (term_at terms.old goal)) }
    ensures kept { KeepsTerms terms.old terms.new }
    ensures inputs { inputs_in terms.new ≡ inputs_in terms.old }
{
    let needed = terms.needed(alloc, goal)?;
    let mut ids = TermMap::over(alloc, &needed)?;
    let mut at = needed.len();
    while at > 0 {
        at -= 1;
        let own = needed[at];
        let node = with_parts(alloc, &ids, terms.node(own))?;
        let next = choose(terms, tables, own, node, terms.width(own))?;
        ids.set(own, next)?;
    }
    Ok(ids.get(goal).unwrap_or(goal))
}
