//! Numbers that fit widths in bits.
ghost use Rattle.std.specs.Prelude.{◌≡◌, map};
ghost use Rattle.cocoon_num.specs.Values.{fits_width};
ghost use Rattle.cocoon_syntax.specs.TreeOf.{param_of};
ghost use Rattle.cocoon_types.specs.Design.{widths_of};
ghost use Rattle.step_cases.specs.Cases.{all_fit_widths};

use cocoon_syntax::Param;

#[tactic(auto, using(crate::proofs::Widths::shifted_one, crate::proofs::Widths::wide_fits))]
fn fits(width: u32, number: u64) -> bool
    ensures { result ≡ fits_width width number }
{
    width >= 64 || number < 1 << width
}

/// Whether the values are as many as the parameters, and each fits.
pub fn values_fit(params: &[Param], values: &[u64]) -> bool
    ensures { result ≡ all_fit_widths (widths_of (map param_of params.now)) values.now }
{
    if params.len() != values.len() {
        return false;
    }
    for at in 0..params.len() {
        if !fits(params[at].width, values[at]) {
            return false;
        }
    }
    true
}

/// Whether the numbers are as many as the widths, and each fits.
pub fn fields_fit(widths: &[u8], fields: &[u64]) -> bool
    ensures { result ≡ all_fit_widths widths.now fields.now }
{
    if widths.len() != fields.len() {
        return false;
    }
    for at in 0..widths.len() {
        if !fits(u32::from(widths[at]), fields[at]) {
            return false;
        }
    }
    true
}
