//! Instances of assumptions that fit.
ghost use Rattle.std.specs.Prelude.{◌≡◌, ◌≤◌, ◌↔◌, IsTrue, map};
ghost use Rattle.cocoon_num.specs.Values.{fits_width};
ghost use Rattle.cocoon_syntax.specs.TreeOf.{design_of, param_of};
ghost use Rattle.cocoon_types.specs.Design.{last_level, widths_of};
ghost use Rattle.runtime_defs.specs.Printable.{all_fit_widths};
ghost use Rattle.query_laws.specs.Certified.{AllFit};
ghost use Rattle.query_laws.specs.Queries.{Fits};

use cnf_core::Instance;
use cocoon_resolve::Checked;
use cocoon_syntax::Param;

/// Whether a number fits a width in bits.
#[tactic(auto, using(crate::proofs::Widths::shifted_one, crate::proofs::Widths::wide_fits))]
fn number_fits(width: u32, number: u64) -> bool
    ensures { result ≡ fits_width width number }
{
    width >= 64 || number < 1 << width
}

/// Whether the numbers are as many as the parameters, and each fits.
fn numbers_fit(params: &[Param], numbers: &[u64]) -> bool
    ensures { result ≡ all_fit_widths (widths_of (map param_of params.now)) numbers.now }
{
    if params.len() != numbers.len() {
        return false;
    }
    for at in 0..params.len() {
        if !number_fits(params[at].width, numbers[at]) {
            return false;
        }
    }
    true
}

/// Whether the instance is of an assumption of levels up to this one, at numbers that fit its
/// parameters.
fn fits(checked: &Checked, level: u32, instance: &Instance) -> bool
    requires { level ≤ last_level (design_of checked.now) }
    ensures { IsTrue result ↔ Fits (design_of checked.now) level instance.now }
{
    if instance.number >= checked.assume_count(level) {
        return false;
    }
    let assumed = checked.assumption(instance.number);
    numbers_fit(&assumed.params, instance.values.items())
}

/// Whether all instances are of assumptions of levels up to this one, at numbers that fit.
pub fn all_fit(checked: &Checked, level: u32, instances: &[Instance]) -> bool
    requires { level ≤ last_level (design_of checked.now) }
    ensures { IsTrue result ↔ AllFit (design_of checked.now) level instances.now }
{
    for instance in instances {
        if !fits(checked, level, instance) {
            return false;
        }
    }
    true
}
