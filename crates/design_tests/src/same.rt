//! Whether tables are the same.
use cocoon_num::{Bits, FunRow, FunTable};

fn is_same_value(one: Bits, other: Bits) -> bool {
    one.width == other.width && one.value == other.value
}

fn is_same_row(one: &FunRow, other: &FunRow) -> bool {
    one.values.items() == other.values.items()
        && one.masks.items() == other.masks.items()
        && is_same_value(one.result, other.result)
}

fn are_same_rows(one: &[FunRow], other: &[FunRow]) -> bool {
    if one.len() != other.len() {
        return false;
    }
    for at in 0..one.len() {
        if !is_same_row(&one[at], &other[at]) {
            return false;
        }
    }
    true
}

fn is_same_table(one: &Option<FunTable>, other: &Option<FunTable>) -> bool {
    match (one, other) {
        (Some(one), Some(other)) => {
            one.widths.items() == other.widths.items()
                && are_same_rows(one.rows.items(), other.rows.items())
                && is_same_value(one.default, other.default)
        }
        (None, None) => true,
        _ => false,
    }
}

/// Whether these tables are the same, place by place.
pub fn are_same_tables(one: &[Option<FunTable>], other: &[Option<FunTable>]) -> bool {
    if one.len() != other.len() {
        return false;
    }
    for at in 0..one.len() {
        if !is_same_table(&one[at], &other[at]) {
            return false;
        }
    }
    true
}
