//! What a call of a function counts, by what its arguments count.
ghost use Rattle.std.specs.Prelude.{◌≡◌, drop, map, option_map, reverse, unwrap_or};
ghost use Rattle.cocoon_num.specs.Names.{same_name};
ghost use Rattle.cocoon_num.specs.Packets.{total as total_of};
ghost use Rattle.cocoon_types.specs.Limits.{reported};
ghost use Rattle.cocoon_syntax.specs.TreeOf.{param_of};
ghost use Rattle.cocoon_resolve.specs.Forms.{form_of, known_form, own_nodes, plain, slot_weight, times as times_of};

use cocoon_num::Text;
use cocoon_syntax::Param;

/// What a call of a function counts.
#[derive(Drop)]
pub(crate) enum Form {
    /// One node more than the arguments.
    Plain,
    /// So many nodes of its own, and each argument so many times.
    Body(u64, Vec<u64>),
}

/// A function, with what its calls count.
#[derive(Drop)]
pub(crate) struct Known {
    pub name: Text,
    pub form: Form,
}

/// Whether two names are the same.
pub(crate) fn is_same(name: &[u8], other: &[u8]) -> bool
    ensures { result ≡ same_name name.now other.now }
{
    name == other
}

/// The form of the latest of the functions with this name.
pub(crate) fn form_named<'k>(known: &'k [Known], name: &[u8]) -> Option<&'k Form>
    ensures { unwrap_or (option_map (λ form. form_of form.now) result) plain
        ≡ known_form (reverse known.now) name.now }
{
    let mut left = known.len();
    while left > 0 {
        left -= 1;
        if is_same(name, known[left].name.bytes()) {
            return Some(&known[left].form);
        }
    }
    None
}

/// The nodes that a call of this form has beside its arguments, of which there are so many.
pub(crate) fn own_count(form: &Form, args: usize) -> u64
    ensures { result ≡ reported (own_nodes (form_of form.now) args) }
{
    match form {
        Form::Plain => 1,
        Form::Body(own, uses) => own.saturating_add(total_from(uses, args)),
    }
}

/// How often a call of this form has the argument at an index.
pub(crate) fn times(form: &Form, index: usize) -> u64
    ensures { result ≡ times_of (form_of form.now) index }
{
    match form {
        Form::Plain => 1,
        Form::Body(_, uses) => { if index < uses.len() { uses[index] } else { 0 } }
    }
}

/// The sum of the numbers from an index on.
fn total_from(numbers: &[u64], from: usize) -> u64
    ensures { result ≡ reported (total_of (drop from numbers.now)) }
{
    if from < numbers.len() {
        total(&numbers[from..])
    } else {
        0
    }
}

fn total(numbers: &[u64]) -> u64
    ensures { result ≡ reported (total_of numbers.now) }
{
    let mut sum: u64 = 0;
    for number in numbers {
        sum = sum.saturating_add(*number);
    }
    sum
}

/// 1 for the parameter at `slot`, 0 for the others. At the number of parameters, 1 for what is
/// none of them.
pub(crate) fn slot_count(params: &[Param], slot: usize, name: &[u8]) -> u64
    ensures { result ≡ slot_weight (map param_of params.now) slot name.now }
{
    let mut left = slot;
    for param in params {
        let found = is_same(name, param.name.text.bytes());
        if left == 0 {
            return if found { 1 } else { 0 };
        }
        if found {
            return 0;
        }
        left -= 1;
    }
    1
}
