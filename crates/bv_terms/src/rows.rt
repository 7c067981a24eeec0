//! Choices over the rows of a table.
ghost use Rattle.std.specs.Prelude.{◌≡◌, ◌<◌, ◌^◌, All, IfOk, Some, length, map};
ghost use Rattle.bv_terms.specs.Arenas.{args_of, term_at, width_at};
ghost use Rattle.bv_terms.specs.TermTrees.{OperandsFit};
ghost use Rattle.bv_terms.specs.TermTrees as trees;
ghost use Rattle.bv_terms.specs.Fitting.{CanStand, MasksFit};
ghost use Rattle.bv_terms.specs.Growth.{IsMade, OnlyGrows};
ghost use Rattle.bv_terms.specs.WithRows as spec;

use crate::arena::Terms;
use crate::node::{TermId, TermOp};
use cocoon_num::{Bits, FunRow, FunTable, NoMemory};

fn number(terms: &mut Terms, value: Bits) -> Result<TermId, NoMemory>
    ensures made { IfOk result (λ id. IsMade terms.new (spec.number_term value) id) }
    ensures grown { OnlyGrows terms.old terms.new }
{
    terms.constant(value)
}

/// Two terms of one width under an operator.
fn joined(terms: &mut Terms, op: TermOp, a: TermId, b: TermId) -> Result<TermId, NoMemory>
    requires operands { (a < length terms.old) × (b < length terms.old) }
    requires widths { OperandsFit op (width_at terms.old a) (width_at terms.old b) }
    ensures made { IfOk result (λ id.
        IsMade terms.new (trees.binary op (term_at terms.old a) (term_at terms.old b)) id) }
    ensures grown { OnlyGrows terms.old terms.new }
{
    terms.binary(op, a, b)
}

/// Whether the argument has the value in the bits of the mask.
fn position_test(terms: &mut Terms, arg: TermId, value: u64, mask: u64) -> Result<TermId, NoMemory>
    requires there { arg < length terms.old }
    requires fits { mask < 2 ^ width_at terms.old arg }
    ensures made { IfOk result (λ id.
        IsMade terms.new (spec.position_test value mask (term_at terms.old arg)) id) }
    ensures grown { OnlyGrows terms.old terms.new }
{
    prove!(arg < terms.count());
    let width = terms.width(arg);
    let mask_term = number(terms, Bits::new(width, u128::from(mask)))?;
    let masked = joined(terms, TermOp::And, arg, mask_term)?;
    let wanted = number(terms, Bits::new(width, u128::from(value & mask)))?;
    joined(terms, TermOp::Equal, masked, wanted)
}

/// Whether each argument has its value in the bits of its mask.
fn row_test(terms: &mut Terms, row: &FunRow, args: &[TermId]) -> Result<TermId, NoMemory>
    requires there { All (λ a. a < length terms.old) args.now }
    requires values { length row.now.values ≡ length args.now }
    requires masks { MasksFit (map (width_at terms.old) args.now) row.now }
    ensures made { IfOk result (λ id.
        IsMade terms.new (spec.row_test row.now (args_of (term_at terms.old) args.now)) id) }
    ensures grown { OnlyGrows terms.old terms.new }
{
    let (values, masks) = (row.values.items(), row.masks.items());
    if args.is_empty() {
        return number(terms, Bits::new(1, 1));
    }
    let mut test = position_test(terms, args[0], values[0], masks[0])?;
    let mut at = 1;
    while at < args.len() {
        let next = position_test(terms, args[at], values[at], masks[at])?;
        test = joined(terms, TermOp::And, test, next)?;
        at += 1;
    }
    Ok(test)
}

/// The result of the row where its test is true, else the other term.
fn row_choice(
    terms: &mut Terms,
    row: &FunRow,
    args: &[TermId],
    otherwise: TermId,
) -> Result<TermId, NoMemory>
    requires there { All (λ a. a < length terms.old) args.now }
    requires values { length row.now.values ≡ length args.now }
    requires masks { MasksFit (map (width_at terms.old) args.now) row.now }
    requires other { otherwise < length terms.old }
    requires width { row.now.result.width ≡ width_at terms.old otherwise }
    ensures made { IfOk result (λ id. IsMade terms.new (trees.pick
        (spec.row_test row.now (args_of (term_at terms.old) args.now))
        (spec.number_term row.now.result) (term_at terms.old otherwise)) id) }
    ensures grown { OnlyGrows terms.old terms.new }
{
    let test = row_test(terms, row, args)?;
    let result = number(terms, row.result)?;
    terms.pick(test, result, otherwise)
}

/// The choices over the rows of a table at arguments, the first row outermost.
pub(crate) fn table_choices(
    terms: &mut Terms,
    table: &FunTable,
    args: &[TermId],
) -> Result<TermId, NoMemory>
    requires there { All (λ a. a < length terms.old) args.now }
    requires fits { CanStand (Some table.now) (map (width_at terms.old) args.now)
        table.now.default.width }
    ensures made { IfOk result (λ id. IsMade terms.new
        (spec.picks table.now.rows table.now.default (args_of (term_at terms.old) args.now)) id) }
    ensures grown { OnlyGrows terms.old terms.new }
{
    let rows = table.rows.items();
    let mut choices = number(terms, table.default)?;
    let mut at = rows.len();
    while at > 0 {
        at -= 1;
        choices = row_choice(terms, &rows[at], args, choices)?;
    }
    Ok(choices)
}
