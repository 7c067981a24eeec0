//! Numbers of inputs.
use crate::numbers::lowest;
use bv_terms::{InputId, Terms};
use cocoon_num::Bits;
use std::alloc::Global;

/// Gives inputs these numbers, cut to their widths.
pub fn put_in(inputs: &mut Vec<Bits>, terms: &[InputId], numbers: &[u64]) {
    for (input, number) in terms.iter().zip(numbers) {
        if let Some(place) = inputs.get_mut(*input as usize) {
            if let Some(bits) = lowest(place.width, u128::from(*number)) {
                *place = bits;
            }
        }
    }
}

/// Inputs that are all 0.
pub fn zeros(alloc: Global, terms: &Terms) -> Option<Vec<Bits>> {
    let mut inputs = Vec::new(alloc);
    for input in 0..terms.input_count() {
        inputs
            .push(lowest(terms.width(terms.input_term(input)), 0)?)
            .ok()?;
    }
    Some(inputs)
}
