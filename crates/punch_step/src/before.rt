//! The cubes before an edge, from which its rows are reached: for ranking alone.

ghost use Rattle.std.specs.Prelude.{◌≡◌, false};
ghost use Rattle.flow_graph.specs.Shapes.{is_call};

use crate::choice::Choice;
use crate::chooser::Chooser;
use crate::effects::{DEEP, paths_of};
use call_bridge::error::BridgeError;
use call_bridge::musts::preimage_of;
use flow_graph::graph::Edge;
use linear_formula::error::OutOfMemory;
use linear_formula::formula::{Atom, Atoms, Cube};
use may_partition::region::RegionEdge;
use std::alloc::{AllocError, Global};
use summary_form::query::ExitKind;
use weakest_pre::error::PreError;
use weakest_pre::preimage::pre;

/// Cubes before an edge; none where a limit was met.
#[derive(Drop)]
pub struct Before {
    edge: u32,
    pub cubes: Option<Vec<Cube>>,
}

/// Whether each point meets the atom.
fn is_trivial(atom: &Atom) -> bool {
    atom.term.parts().is_empty() && atom.term.constant() <= 0
}

/// Adds the atom, or puts it in the place of one that it implies.
fn add(alloc: Global, atoms: &mut Vec<Atom>, atom: &Atom) -> Result<(), OutOfMemory> {
    if is_trivial(atom) {
        return Ok(());
    }
    match atoms
        .iter_mut()
        .find(|other| other.term.parts() == atom.term.parts())
    {
        Some(other) => {
            if other.term.constant() < atom.term.constant() {
                *other = atom.copy(alloc)?;
            }
            Ok(())
        }
        None => Ok(atoms.push(atom.copy(alloc)?)?),
    }
}

/// The cube of these atoms.
fn cube_of(alloc: Global, rows: Vec<Atom>) -> Result<Cube, OutOfMemory> {
    let mut atoms = Atoms::with_capacity(alloc, rows.len())?;
    for row in rows {
        atoms.push(row)?;
    }
    Ok(Cube { atoms })
}

/// The rows of both, without those that others imply.
pub fn joined(alloc: Global, left: &[Atom], right: &[Atom]) -> Result<Cube, OutOfMemory> {
    let mut atoms = Vec::new(alloc);
    for atom in left {
        add(alloc, &mut atoms, atom)?;
    }
    for atom in right {
        add(alloc, &mut atoms, atom)?;
    }
    cube_of(alloc, atoms)
}

/// The preimages over a call by some paths of the called procedure.
fn before_call(
    alloc: Global,
    chooser: &mut Chooser,
    choice: &Choice,
    call: &Edge,
    exit: ExitKind,
    rows: &Cube,
) -> Result<Option<Vec<Cube>>, OutOfMemory> {
    let Edge::Call { proc, .. } = call else {
        return Ok(None);
    };
    let number = paths_of(alloc, &mut chooser.paths, choice.graphs, *proc, exit, DEEP)?;
    let Some(known) = chooser.paths.get(number) else {
        return Ok(None);
    };
    let mut cubes = Vec::new(alloc);
    for path in known.paths.iter() {
        match preimage_of(alloc, path, call, rows) {
            Ok(pre) => cubes.push(joined(alloc, pre.cube.atoms.as_slice(), &[])?)?,
            Err(BridgeError::Limit(_)) => return Ok(None),
            Err(BridgeError::Memory) => return Err(AllocError),
        }
    }
    Ok(Some(cubes))
}

/// The exit kind of a call whose edge leads to the region.
fn exit_into(choice: &Choice, region: u32) -> ExitKind {
    match choice.state.partition().regions().get(region as usize) {
        Some(region) if region.node == choice.graph.fail => choice.state.query().exit,
        _ => ExitKind::Return,
    }
}

/// The preimage of the rows over an edge that is no call.
fn before_plain(alloc: Global, over: &Edge, rows: &Cube) -> Result<Option<Vec<Cube>>, OutOfMemory>
    requires { is_call over.now ≡ false }
{
    match pre(alloc, over, rows) {
        Ok(pre) => Ok(Some(vec![in alloc; pre.cube]?)),
        Err(PreError::Limit(_)) => Ok(None),
        Err(PreError::Memory) => Err(AllocError),
    }
}

/// The preimages of the rows over the edge.
pub fn led_from(
    alloc: Global,
    chooser: &mut Chooser,
    choice: &Choice,
    edge: &RegionEdge,
    rows: &Cube,
) -> Result<Before, OutOfMemory> {
    let cubes = match choice.graph.edges.as_slice().get(edge.edge as usize) {
        Some(over) if over.is_call() => {
            let exit = exit_into(choice, edge.to);
            before_call(alloc, chooser, choice, over, exit, rows)?
        }
        Some(over) => before_plain(alloc, over, rows)?,
        None => None,
    };
    Ok(Before {
        edge: edge.edge,
        cubes,
    })
}

/// Whether these are the cubes before the edge.
pub fn is_before(known: &Option<Before>, edge: u32) -> bool {
    match known {
        Some(known) => known.edge == edge,
        None => false,
    }
}
