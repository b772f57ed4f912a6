//! Whether a piece of a region is closed: whether no path leads into it. It is looked for a while,
//! for ranking alone.

ghost use Rattle.std.specs.Prelude.{◌<◌, length};

use crate::before::{Before, is_before, joined, led_from};
use crate::choice::Choice;
use crate::chooser::{Chooser, Told, is_implied};
use crate::guess::is_missed;
use crate::memo::{mixed, mixed_rows};
use linear_formula::assignment::Assignment;
use linear_formula::error::OutOfMemory;
use linear_formula::formula::{Atom, Cube};
use must_region::trail::Trail;
use std::alloc::Global;

/// How many cubes a closed piece has behind it at most.
const DUTIES: usize = 24;

/// A cube in a region into which no path is to lead.
#[derive(Drop)]
struct Duty {
    region: u32,
    rows: Cube,
}

/// Whether none of the atoms is seen to fail at the trail's end, at the point.
fn may_hold(trail: &Trail, point: &Assignment, atoms: &[Atom]) -> bool {
    for atom in atoms {
        if is_missed(trail, point, atom) {
            return false;
        }
    }
    true
}

/// Whether the point that marks the region is seen to meet the rows.
fn is_marked(choice: &Choice, region: u32, rows: &Cube) -> bool {
    let Some(mark) = choice
        .state
        .marks()
        .iter()
        .find(|mark| mark.region == region)
    else {
        return false;
    };
    match choice.state.trails().get(mark.trail as usize) {
        Some(trail) => may_hold(trail, &mark.point, rows.atoms.as_slice()),
        None => false,
    }
}

/// Whether a duty covers the rows in the region.
fn is_covered(
    alloc: Global,
    chooser: &mut Chooser,
    duties: &[Duty],
    region: u32,
    rows: &Cube,
) -> Result<bool, OutOfMemory> {
    for duty in duties {
        if duty.region == region && chooser.entails(alloc, rows, &duty.rows)? {
            return Ok(true);
        }
    }
    Ok(false)
}

/// Whether all goes on where a path leads from the region's rows: they are no mark's, nothing meets
/// them, or they are one more duty.
fn goes_on(
    alloc: Global,
    chooser: &mut Chooser,
    choice: &Choice,
    duties: &mut Vec<Duty>,
    region: u32,
    before: &Cube,
) -> Result<bool, OutOfMemory> {
    let Some(source) = choice.state.partition().regions().get(region as usize) else {
        return Ok(false);
    };
    let source = source.cube.to_cube(alloc)?;
    let rows = joined(alloc, source.atoms.as_slice(), before.atoms.as_slice())?;
    if region != 0 && is_marked(choice, region, &rows) {
        return Ok(false);
    }
    match chooser.ask(alloc, &rows)? {
        Told::Never => return Ok(true),
        Told::Nothing => return Ok(false),
        Told::Met => {}
    }
    if region == 0 {
        return Ok(false);
    }
    if is_covered(alloc, chooser, duties.as_slice(), region, &rows)? {
        return Ok(true);
    }
    duties.push(Duty { region, rows })?;
    Ok(duties.len() < DUTIES)
}

/// Whether all goes on over the edge.
fn all_go_on(
    alloc: Global,
    chooser: &mut Chooser,
    choice: &Choice,
    duties: &mut Vec<Duty>,
    region: u32,
    before: &Before,
) -> Result<bool, OutOfMemory> {
    let Some(cubes) = &before.cubes else {
        return Ok(false);
    };
    for cube in cubes.iter() {
        if !goes_on(alloc, chooser, choice, duties, region, cube)? {
            return Ok(false);
        }
    }
    Ok(true)
}

/// Whether rows imply each of the atoms.
fn are_implied(rows: &Cube, atoms: &Cube) -> bool {
    for atom in atoms.atoms.as_slice() {
        if !is_implied(rows.atoms.as_slice(), atom) {
            return false;
        }
    }
    true
}

/// Whether it is remembered that no path leads into the rows.
fn is_closed(chooser: &Chooser, ledger: usize, node: u32, rows: &Cube) -> bool {
    let Some(ledger) = chooser.ledgers.get(ledger) else {
        return false;
    };
    for (at, closed) in ledger.closed.iter() {
        if *at == node && are_implied(rows, closed) {
            return true;
        }
    }
    false
}

/// Whether all goes on at each edge into the region.
fn is_met(
    alloc: Global,
    chooser: &mut Chooser,
    choice: &Choice,
    duties: &mut Vec<Duty>,
    region: u32,
    rows: &Cube,
) -> Result<bool, OutOfMemory>
    requires { region < length choice.now.state.now.partition.regions }
{
    let mut known: Option<Before> = None;
    for edge in choice.state.partition().edges_into(region) {
        if chooser.left == 0 {
            return Ok(false);
        }
        if !is_before(&known, edge.edge) {
            known = Some(led_from(alloc, chooser, choice, &edge, rows)?);
        }
        let Some(told) = &known else {
            return Ok(false);
        };
        if !all_go_on(alloc, chooser, choice, duties, edge.from, told)? {
            return Ok(false);
        }
    }
    Ok(true)
}

/// Whether the duty of this place is met; it may add others.
fn is_done(
    alloc: Global,
    chooser: &mut Chooser,
    choice: &Choice,
    ledger: usize,
    duties: &mut Vec<Duty>,
    place: usize,
) -> Result<bool, OutOfMemory> {
    let Some(Duty { region, rows }) = duties.get(place) else {
        return Ok(false);
    };
    let region = *region;
    let rows = rows.copy(alloc)?;
    let Some(seen) = choice.state.partition().regions().get(region as usize) else {
        return Ok(false);
    };
    if is_closed(chooser, ledger, seen.node, &rows) {
        return Ok(true);
    }
    is_met(alloc, chooser, choice, duties, region, &rows)
}

/// Whether all duties are met, those that are added on the way too.
fn are_met(
    alloc: Global,
    chooser: &mut Chooser,
    choice: &Choice,
    ledger: usize,
    duties: &mut Vec<Duty>,
) -> Result<bool, OutOfMemory> {
    for place in 0..DUTIES {
        if place >= duties.len() {
            return Ok(true);
        }
        if !is_done(alloc, chooser, choice, ledger, duties, place)? {
            return Ok(false);
        }
    }
    Ok(false)
}

/// Remembers that no path leads into the duties' rows.
fn close_all(
    alloc: Global,
    chooser: &mut Chooser,
    choice: &Choice,
    ledger: usize,
    duties: &[Duty],
) -> Result<(), OutOfMemory> {
    for duty in duties {
        if let Some(region) = choice.state.partition().regions().get(duty.region as usize) {
            chooser.close(ledger, region.node, duty.rows.copy(alloc)?)?;
        }
    }
    Ok(())
}

/// Looks whether a path leads into the source's piece by these atoms.
fn looked(
    alloc: Global,
    chooser: &mut Chooser,
    choice: &Choice,
    ledger: usize,
    atoms: &Cube,
) -> Result<bool, OutOfMemory> {
    let source = choice.source.atoms.as_slice();
    let rows = joined(alloc, source, atoms.atoms.as_slice())?;
    let region = choice.from;
    let mut duties = vec![in alloc; Duty { region, rows }]?;
    if !are_met(alloc, chooser, choice, ledger, &mut duties)? {
        return Ok(false);
    }
    close_all(alloc, chooser, choice, ledger, duties.as_slice())?;
    Ok(true)
}

/// Whether no path was found into the source's piece by these atoms. What was looked for before is
/// remembered.
pub fn closes(
    alloc: Global,
    chooser: &mut Chooser,
    choice: &Choice,
    key: u64,
    ledger: usize,
    atoms: &Cube,
) -> Result<bool, OutOfMemory> {
    let rows = choice.source.atoms.as_slice().len() as u64;
    let key = mixed(mixed(mixed_rows(key, atoms), u64::from(choice.from)), rows);
    if let Some(told) = chooser.recall(key) {
        return Ok(told == 1);
    }
    let told = looked(alloc, chooser, choice, ledger, atoms)?;
    chooser.note(key, if told { 1 } else { 0 });
    Ok(told)
}
