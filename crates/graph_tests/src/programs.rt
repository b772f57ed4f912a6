//! What sums and rows are at slots.

use c_tree::tree::Slot;
use flow_graph::graph::Lin;
use linear_formula::formula::{Atom, Cube};

/// The sum and a multiple of a slot.
fn plus(sum: i128, coefficient: i128, slots: &[i64], slot: Slot) -> Option<i128> {
    let value = i128::from(*slots.get(slot as usize)?);
    sum.checked_add(coefficient.checked_mul(value)?)
}

/// The exact value, where it is one of 64 bits.
pub fn lin_value(slots: &[i64], value: &Lin) -> Option<i64> {
    let mut sum = i128::from(value.constant);
    for (coefficient, slot) in value.parts.as_slice() {
        sum = plus(sum, i128::from(*coefficient), slots, *slot)?;
    }
    i64::try_from(sum).ok()
}

fn row_value(slots: &[i64], row: &Atom) -> Option<i128> {
    let mut sum = row.term.constant();
    for (slot, coefficient) in row.term.parts() {
        sum = plus(sum, *coefficient, slots, *slot)?;
    }
    Some(sum)
}

pub fn hold(slots: &[i64], rows: &Cube) -> bool {
    for row in rows.atoms.as_slice() {
        match row_value(slots, row) {
            Some(value) if value <= 0 => {}
            _ => return false,
        }
    }
    true
}

/// The values that a slot may have.
#[derive(Clone, Copy)]
pub struct Bounds {
    pub low: i64,
    pub high: i64,
}

/// A quotient by a number above 0, rounded down.
fn floor_of(number: i128, by: i128) -> Option<i128> {
    let quotient = number.checked_div(by)?;
    if number.checked_rem(by)? < 0 {
        quotient.checked_sub(1)
    } else {
        Some(quotient)
    }
}

/// The values at most, or at least, where a multiple of them and the rest are at most 0.
fn narrowed(bounds: Bounds, coefficient: i128, rest: i128) -> Option<Bounds> {
    let negated = rest.checked_neg()?;
    let mut bounds = bounds;
    if coefficient > 0 {
        let high = floor_of(negated, coefficient)?;
        bounds.high = i64::try_from(high.min(i128::from(bounds.high))).ok()?;
    } else if coefficient < 0 {
        let low = floor_of(negated, coefficient.checked_neg()?)?.checked_neg()?;
        bounds.low = i64::try_from(low.max(i128::from(bounds.low))).ok()?;
    } else if rest > 0 {
        return None;
    }
    Some(bounds)
}

/// What a row has beside the slot.
fn rest_of(slots: &[i64], slot: Slot, row: &Atom) -> Option<i128> {
    let mut sum = row.term.constant();
    for (other, coefficient) in row.term.parts() {
        if *other != slot {
            sum = plus(sum, *coefficient, slots, *other)?;
        }
    }
    Some(sum)
}

/// The values of a slot with which the rows hold, where the other slots have these values.
pub fn bounds_of(slots: &[i64], slot: Slot, rows: &Cube) -> Option<Bounds> {
    let mut bounds = Bounds {
        low: i64::MIN,
        high: i64::MAX,
    };
    for row in rows.atoms.as_slice() {
        let rest = rest_of(slots, slot, row)?;
        bounds = narrowed(bounds, row.term.coefficient(slot), rest)?;
    }
    Some(bounds)
}
