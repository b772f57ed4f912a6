//! Where the trail of an asked query begins: at the caller's own point, where it is remembered.
//! Nothing rests on it.

ghost use Rattle.std.specs.Prelude.{IfOk, IsTrue};
ghost use Rattle.linear_formula.specs.LinearSum.{Is64, is_ascending_from, valuation};

use crate::by_must::Calling;
use crate::chooser::key_of;
use flow_graph::columns::FIRST_SYMBOL;
use flow_graph::graph::Edge;
use linear_formula::assignment::{Assignment, Values};
use linear_formula::error::OutOfMemory;
use std::alloc::Global;
use summary_form::query::Query;

/// How many asked queries are remembered.
const ASKED: usize = 64;

/// What is remembered of asked queries.
#[derive(Drop)]
pub struct Entries {
    /// The key of each, and its entry values at the point where it was asked.
    all: Vec<(u64, Vec<i64>)>,
}

/// The arguments at the caller's point, up to the first that is none of 64 bits.
fn arguments_at(alloc: Global, calling: &Calling) -> Result<Vec<i64>, OutOfMemory> {
    let mut values = Vec::new(alloc);
    let Edge::Call { args, .. } = calling.call else {
        return Ok(values);
    };
    for slot in args.as_slice() {
        let Some(term) = calling.trail.slots.as_slice().get(*slot as usize) else {
            return Ok(values);
        };
        let Ok(value) = i64::try_from(term.value(calling.point)) else {
            return Ok(values);
        };
        values.push(value)?;
    }
    Ok(values)
}

impl Entries {
    /// Nothing is remembered.
    pub fn new(alloc: Global) -> Entries {
        Entries {
            all: Vec::new(alloc),
        }
    }

    /// The entry values with which the query of this key was asked last.
    fn of(&self, key: u64) -> Option<&[i64]> {
        for (known, values) in self.all.iter().rev() {
            if *known == key {
                return Some(values.as_slice());
            }
        }
        None
    }

    /// Remembers where the call asks the query. Where there are too many, all are forgotten first.
    pub fn note(
        &mut self,
        alloc: Global,
        calling: &Calling,
        asked: &Query,
    ) -> Result<(), OutOfMemory> {
        if self.all.len() >= ASKED {
            self.all.clear();
        }
        let values = arguments_at(alloc, calling)?;
        self.all.push((key_of(asked), values))?;
        Ok(())
    }
}

/// The values as those of the symbols from this one on.
#[cycle(symbols_from)]
fn symbols_from(alloc: Global, values: &[i64], symbol: u32) -> Result<Vec<(u32, i64)>, OutOfMemory>
    ensures ascending { IfOk result (λ v. IsTrue (is_ascending_from symbol v.items)) }
    ensures values { IfOk result (λ v. Is64 (valuation v.items)) }
{
    let (Some((value, rest)), Some(next)) = (values.split_first(), symbol.checked_add(1)) else {
        return Ok(Vec::new(alloc));
    };
    let mut all = symbols_from(alloc, rest, next)?;
    all.insert(0, (symbol, *value))?;
    Ok(all)
}

/// The point at which a trail begins with these entry values.
fn point_of(alloc: Global, values: &[i64]) -> Result<Assignment, OutOfMemory>
    ensures { IfOk result (λ p. Is64 (valuation p)) }
{
    let all = symbols_from(alloc, values, FIRST_SYMBOL)?;
    Ok(Assignment::new(Values::from_vec(all)))
}

/// The point at which a trail of the query begins: that of the caller, or else the one that lists
/// no column, as for a trail that goes on from another region.
pub fn entry_point(
    alloc: Global,
    entries: &Entries,
    query: &Query,
    from: u32,
) -> Result<Assignment, OutOfMemory>
    ensures { IfOk result (λ p. Is64 (valuation p)) }
{
    if from != 0 {
        return point_of(alloc, &[]);
    }
    match entries.of(key_of(query)) {
        Some(values) => point_of(alloc, values),
        None => point_of(alloc, &[]),
    }
}
