//! Where the run of an obligation begins, by the values of its inputs.
ghost use Rattle.std.specs.Prelude.{◌≡◌, ◌↔◌, ◌<◌, ◌^◌, IfOk, IsTrue};
ghost use Rattle.cocoon_num.specs.PacketForms.{FieldsFit};
ghost use Rattle.bv_terms.specs.Values.{values_of};
ghost use Rattle.failure_reading.specs.OfObligation as spec;
ghost use Rattle.failure_reading.specs.OfObligation.{AreShort, choices_of};

use bv_terms::{InputId, InputValues};
use cocoon_num::{List, NoMemory};
use failures::Begin;
use obligation_gen::Obligation;
use role_meaning::{Loc, Packet};
use std::alloc::Global;

/// The inputs that are chosen on the way of the obligation's leaf, through all bodies.
fn choices(obligation: &Obligation) -> &[InputId]
    ensures { result.now ≡ choices_of obligation.now.tree.leaves }
{
    match obligation.tree.leaves.items().first() {
        Some(leaf) => leaf.choices.items(),
        None => &[],
    }
}

/// The run of the obligation's role that has these values, each by its low 64 bits.
pub(crate) fn begin_of(
    alloc: Global,
    obligation: &Obligation,
    values: &InputValues<'_>,
) -> Result<Begin, NoMemory>
    ensures role { IfOk result (λ begin. begin.at.role ≡ obligation.now.role) }
    ensures is { IfOk result (λ begin. AreShort
        (spec.begin_of (values_of values.now.inputs.now values.now.values.now) obligation.now)
        → begin
        ≡ spec.begin_of (values_of values.now.inputs.now values.now.values.now) obligation.now) }
{
    let args = values.numbers(alloc, obligation.tree.args.items())?;
    let fields = values.numbers(alloc, obligation.tree.fields.items())?;
    let choices = values.numbers(alloc, choices(obligation))?;
    Ok(Begin {
        at: Loc {
            role: obligation.role,
            values: List::from(args),
        },
        packet: Packet {
            fields: List::from(fields),
        },
        choices: List::from(choices),
    })
}

/// Whether the number fits so many bits.
fn is_within(width: u8, number: u64) -> bool
    ensures { IsTrue result ↔ number < 2 ^ width }
{
    width >= 64 || number < 1 << width
}

/// Whether the numbers are as many as the widths, and each fits.
pub(crate) fn all_within(widths: &[u8], numbers: &[u64]) -> bool
    ensures { IsTrue result ↔ FieldsFit widths.now numbers.now }
{
    match (widths.split_first(), numbers.split_first()) {
        (Some((width, widths)), Some((number, numbers))) => {
            is_within(*width, *number) && all_within(widths, numbers)
        }
        (None, None) => true,
        _ => false,
    }
}
