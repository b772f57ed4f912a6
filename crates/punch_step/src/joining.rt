//! A weaker query that may be asked in place of a call's own: what it and the nearest level both
//! entail. Nothing is promised: `weaker_ask` confirms.

use crate::choice::is_entailed;
use crate::over_call::CallFrontier;
use crate::sums::{push_plain, push_sum};
use flow_graph::columns::FIRST_EXIT;
use linear_formula::error::OutOfMemory;
use linear_formula::formula::{Atom, Atoms, Cube};
use std::alloc::Global;
use summary_form::query::Query;

/// Of how many atoms sums are made.
const SUMMED: usize = 8;

/// The nearest level's query of the same procedure and exit kind.
fn nearest<'a>(frontier: &'a CallFrontier, asked: &Query) -> Option<&'a Query> {
    let own = frontier.calling.query;
    if own.proc == asked.proc && own.exit == asked.exit {
        return Some(own);
    }
    for ancestor in frontier.ancestors.iter().rev() {
        if ancestor.proc == asked.proc && ancestor.exit == asked.exit {
            return Some(&**ancestor);
        }
    }
    None
}

/// Adds the sums of the atom and the first of the others.
fn push_pairs_with(
    alloc: Global,
    onto: &mut Vec<Atom>,
    left: &Atom,
    others: &[Atom],
) -> Result<(), OutOfMemory> {
    for right in others.iter().take(SUMMED) {
        if left != right {
            push_sum(alloc, onto, &[], (1, left), (1, right))?;
        }
    }
    Ok(())
}

/// Adds the sums of each two of the first atoms.
fn push_pairs(alloc: Global, onto: &mut Vec<Atom>, rows: &Cube) -> Result<(), OutOfMemory> {
    let mut atoms = Vec::new(alloc);
    push_plain(alloc, &mut atoms, &[], rows.atoms.as_slice())?;
    for left in atoms.iter().take(SUMMED) {
        push_pairs_with(alloc, onto, left, atoms.as_slice())?;
    }
    Ok(())
}

/// Those of the atoms that both entail, without those that earlier ones do.
fn shared(alloc: Global, left: &Cube, right: &Cube, all: &[Atom]) -> Result<Cube, OutOfMemory> {
    let mut kept = Cube {
        atoms: Atoms::new(alloc),
    };
    for atom in all {
        if is_entailed(alloc, left, atom)?
            && is_entailed(alloc, right, atom)?
            && !is_entailed(alloc, &kept, atom)?
        {
            kept.atoms.push(atom.copy(alloc)?)?;
        }
    }
    Ok(kept)
}

fn names_exit(atom: &Atom) -> bool {
    atom.term.parts().iter().any(|part| part.0 >= FIRST_EXIT)
}

/// The query of these rows, of the asked one's procedure and exit kind.
fn query_of(alloc: Global, asked: &Query, rows: &Cube) -> Result<Query, OutOfMemory> {
    let mut start = Atoms::new(alloc);
    let mut end = Atoms::new(alloc);
    for atom in rows.atoms.as_slice() {
        if names_exit(atom) {
            end.push(atom.copy(alloc)?)?;
        } else {
            start.push(atom.copy(alloc)?)?;
        }
    }
    Ok(Query {
        proc: asked.proc,
        exit: asked.exit,
        start: Cube { atoms: start },
        end: Cube { atoms: end },
    })
}

/// What the asked query and the nearest level both entail: atoms of either, and sums of two.
pub fn join(
    alloc: Global,
    frontier: &CallFrontier,
    asked: &Query,
) -> Result<Option<Query>, OutOfMemory> {
    let Some(level) = nearest(frontier, asked) else {
        return Ok(None);
    };
    let left = asked.start.and(alloc, &asked.end)?;
    let right = level.start.and(alloc, &level.end)?;
    let mut all = Vec::new(alloc);
    push_plain(alloc, &mut all, &[], left.atoms.as_slice())?;
    push_plain(alloc, &mut all, &[], right.atoms.as_slice())?;
    push_pairs(alloc, &mut all, &left)?;
    push_pairs(alloc, &mut all, &right)?;
    let rows = shared(alloc, &left, &right, all.as_slice())?;
    if rows.atoms.as_slice().is_empty() {
        return Ok(None);
    }
    Ok(Some(query_of(alloc, asked, &rows)?))
}
