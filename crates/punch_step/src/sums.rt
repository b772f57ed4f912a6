//! The atoms that may part a source by themselves: those of a preimage, and sums of two.

ghost use Rattle.std.specs.Prelude.{◌≡◌, ◌^◌, ◌<◌, ◌≤◌, IfOk, IfSome, unsigned_abs};
ghost use Rattle.linear_formula.specs.steps.Order.{AllWithin};
ghost use Rattle.shadow_elim.specs.Division.{common_divisor, parts_divisor, divided_parts, ceiling_quotient};

use crate::chooser::is_implied;
use crate::guess::is_of_range;
use linear_formula::error::{LinError, OutOfMemory};
use linear_formula::formula::Atom;
use linear_formula::term::{Parts, Term};
use std::alloc::{AllocError, Global};

/// How many atoms are added to how many others.
const LEFT: usize = 8;

const RIGHT: usize = 12;

/// Multiples up to here drop a shared column.
const SMALL: i128 = 8;

/// A sum that names more columns isn't tried.
const WIDE: usize = 5;

/// Whether the atom is new: not trivial, not implied by a row of the source, not among the others.
fn is_new(source: &[Atom], atoms: &[Atom], atom: &Atom) -> bool {
    !atom.term.parts().is_empty() && !is_implied(source, atom) && !atoms.contains(atom)
}

/// Adds copies of those atoms that are new and don't bound a value to its range.
pub fn push_plain(
    alloc: Global,
    onto: &mut Vec<Atom>,
    source: &[Atom],
    atoms: &[Atom],
) -> Result<(), OutOfMemory> {
    for atom in atoms {
        if !is_of_range(atom) && is_new(source, onto.as_slice(), atom) {
            onto.push(atom.copy(alloc)?)?;
        }
    }
    Ok(())
}

/// Euclid's algorithm.
fn common_divisor(a: u64, b: u64) -> u64
    ensures { result ≡ common_divisor a b }
{
    let mut x = a;
    let mut y = b;
    while y != 0 {
        let rest = x % y;
        x = y;
        y = rest;
    }
    x
}

/// The greatest common divisor of the coefficients.
fn parts_divisor(parts: &[(u32, i128)]) -> u64
    requires { AllWithin parts.now }
    ensures { result ≡ parts_divisor parts.now }
{
    let mut divisor = 0;
    let mut left = parts.len();
    while left > 0 && divisor != 1 {
        left -= 1;
        divisor = common_divisor(parts[left].1.unsigned_abs() as u64, divisor);
    }
    divisor
}

fn divide_parts(
    alloc: Global,
    parts: &[(u32, i128)],
    divisor: u64,
) -> Result<Vec<(u32, i128)>, OutOfMemory>
    requires { 1 < divisor }
    ensures { IfOk result (λ items. items.items ≡ divided_parts divisor parts.now) }
{
    let mut items = Vec::with_capacity(alloc, parts.len())?;
    for (column, coefficient) in parts {
        items.push((*column, coefficient.div_euclid(i128::from(divisor))))?;
    }
    Ok(items)
}

/// The least integer that is not below the quotient.
fn divide_up(constant: i128, divisor: u64) -> i128
    requires limit { unsigned_abs constant ≤ 2 ^ 84 }
    requires divisor { 1 < divisor }
    ensures { result ≡ ceiling_quotient constant divisor }
{
    -((-constant).div_euclid(i128::from(divisor)))
}

/// The row divided by the greatest common divisor of its coefficients.
fn tighten(alloc: Global, term: Term) -> Result<Term, OutOfMemory> {
    let divisor = parts_divisor(term.parts());
    if divisor <= 1 {
        return Ok(term);
    }
    let items = divide_parts(alloc, term.parts(), divisor)?;
    let constant = divide_up(term.constant(), divisor);
    Ok(Term::new(Parts::from_vec(items), constant))
}

/// Adds the sum of two multiples, divided by its common divisor.
pub fn push_sum(
    alloc: Global,
    onto: &mut Vec<Atom>,
    source: &[Atom],
    left: (i64, &Atom),
    right: (i64, &Atom),
) -> Result<(), OutOfMemory>
    requires left { unsigned_abs left.0 ≤ 2 ^ 40 }
    requires right { unsigned_abs right.0 ≤ 2 ^ 40 }
{
    match Term::add_multiples(alloc, left.0, &left.1.term, right.0, &right.1.term) {
        Ok(sum) => {
            let atom = Atom {
                term: tighten(alloc, sum)?,
            };
            if atom.term.parts().len() <= WIDE && is_new(source, onto.as_slice(), &atom) {
                onto.push(atom)?;
            }
            Ok(())
        }
        Err(LinError::Wide) => Ok(()),
        Err(LinError::Memory) => Err(AllocError),
    }
}

/// The size of the coefficient, if it is small and not 0.
fn small_size(coefficient: i128) -> Option<i64>
    ensures { IfSome result (λ n. unsigned_abs n ≤ 2 ^ 40) }
{
    if coefficient == 0 || coefficient > SMALL || coefficient < -SMALL {
        None
    } else if coefficient > 0 {
        Some(coefficient as i64)
    } else {
        Some(-coefficient as i64)
    }
}

/// Adds the sum of those multiples that drop a column of these coefficients, if they are small, of
/// different sign and size.
fn push_dropping(
    alloc: Global,
    onto: &mut Vec<Atom>,
    source: &[Atom],
    left: (i128, &Atom),
    right: (i128, &Atom),
) -> Result<(), OutOfMemory> {
    if (left.0 > 0) == (right.0 > 0) {
        return Ok(());
    }
    let Some(mine) = small_size(left.0) else {
        return Ok(());
    };
    let Some(other) = small_size(right.0) else {
        return Ok(());
    };
    if mine == other {
        return Ok(());
    }
    push_sum(alloc, onto, source, (other, left.1), (mine, right.1))
}

/// Adds the sum of the two atoms, and those of their multiples that drop a shared column.
fn push_sums(
    alloc: Global,
    onto: &mut Vec<Atom>,
    source: &[Atom],
    left: &Atom,
    right: &Atom,
) -> Result<(), OutOfMemory> {
    push_sum(alloc, onto, source, (1, left), (1, right))?;
    for (column, mine) in left.term.parts() {
        let other = right.term.coefficient(*column);
        push_dropping(alloc, onto, source, (*mine, left), (other, right))?;
    }
    Ok(())
}

/// Adds the sums of one atom and others.
fn push_sums_with(
    alloc: Global,
    onto: &mut Vec<Atom>,
    source: &[Atom],
    left: &Atom,
    others: &[Atom],
) -> Result<(), OutOfMemory> {
    for right in others.iter().take(RIGHT) {
        if left != right {
            push_sums(alloc, onto, source, left, right)?;
        }
    }
    Ok(())
}

/// The useful atoms, and sums of one of them and another atom of the preimage or the source.
pub fn candidates(
    alloc: Global,
    useful: &[Atom],
    pre: &[Atom],
    source: &[Atom],
) -> Result<Vec<Atom>, OutOfMemory> {
    let mut plain = Vec::new(alloc);
    push_plain(alloc, &mut plain, source, useful)?;
    let mut others = Vec::new(alloc);
    push_plain(alloc, &mut others, &[], plain.as_slice())?;
    push_plain(alloc, &mut others, &[], pre)?;
    push_plain(alloc, &mut others, &[], source)?;
    let mut all = Vec::new(alloc);
    push_plain(alloc, &mut all, source, plain.as_slice())?;
    for left in plain.iter().take(LEFT) {
        push_sums_with(alloc, &mut all, source, left, others.as_slice())?;
    }
    Ok(all)
}
