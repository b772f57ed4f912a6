//! Some paths through procedures, for ranking alone.

ghost use Rattle.must_region.specs.Paths.{NameNoSymbol};

use crate::onward::{over_call, over_plain};
use c_tree::tree::ProcId;
use flow_graph::graph::{Edge, Graph};
use flow_graph::graphs::Graphs;
use lia_solver::solve::solve;
use lia_solver::solved::Solved;
use linear_formula::error::OutOfMemory;
use linear_formula::formula::{Atoms, Cube};
use must_region::error::TrailError;
use must_region::trail::Trail;
use std::alloc::{AllocError, Global};
use summary_form::path::Path;
use summary_form::query::{ExitKind, Query};

/// How many paths are taken at most, and after how many trails the walk ends.
const PATHS: usize = 24;

const WALKED: usize = 400;

/// How often a path goes over an edge at most.
const TURNS: u8 = 2;

/// How deep calls are followed.
pub const DEEP: u32 = 3;

/// Some paths of a procedure that end so, where calls are followed so deep.
#[derive(Drop)]
pub struct Paths {
    proc: u32,
    exit: ExitKind,
    depth: u32,
    pub paths: Vec<Path>,
}

/// A trail that isn't at its end yet, and how often it went over each edge.
#[derive(Drop)]
struct Open {
    trail: Trail,
    used: Vec<u8>,
}

/// A walk through a procedure.
#[derive(Drop)]
struct Walk<'a> {
    graphs: &'a Graphs,
    graph: &'a Graph,
    exit: ExitKind,
    depth: u32,
}

fn nothing(alloc: Global) -> Cube
    ensures { NameNoSymbol result.atoms }
{
    Cube {
        atoms: Atoms::new(alloc),
    }
}

/// Whether it is seen that no point meets the trail's guard.
fn is_dead(alloc: Global, trail: &Trail) -> Result<bool, OutOfMemory> {
    let guard = trail.guard.to_cube(alloc)?;
    match solve(alloc, &guard)? {
        Solved::Never(_) => Ok(true),
        Solved::Point(_) | Solved::Limit(_) => Ok(false),
    }
}

/// Counts the edge of this place once more.
fn count(used: &mut Vec<u8>, place: usize) {
    if let Some(times) = used.get_mut(place) {
        *times = times.saturating_add(1);
    }
}

/// Adds a trail that went over the edge of this place last.
fn push(
    alloc: Global,
    open: &mut Vec<Open>,
    used: &[u8],
    place: usize,
    trail: Trail,
) -> Result<(), OutOfMemory> {
    let mut used = Vec::from_slice(alloc, used)?;
    count(&mut used, place);
    open.push(Open { trail, used })?;
    Ok(())
}

/// Adds the trail, carried over the call by the path, if it isn't dead.
fn push_over_call(
    alloc: Global,
    walk: &Walk,
    at: &Open,
    place: usize,
    path: &Path,
    open: &mut Vec<Open>,
) -> Result<(), OutOfMemory> {
    match over_call(alloc, walk.graph, &at.trail, place, path)? {
        Some(trail) if !is_dead(alloc, &trail)? => {
            push(alloc, open, at.used.as_slice(), place, trail)
        }
        _ => Ok(()),
    }
}

/// Adds the trail, carried over the call by the known paths of the called procedure.
#[cycle(paths)]
fn push_called(
    alloc: Global,
    known: &mut Vec<Paths>,
    walk: &Walk,
    at: &Open,
    place: usize,
    proc: ProcId,
    exit: ExitKind,
    open: &mut Vec<Open>,
) -> Result<(), OutOfMemory> {
    let number = paths_of(alloc, known, walk.graphs, proc, exit, walk.depth)?;
    let Some(known) = known.get(number) else {
        return Ok(());
    };
    for path in known.paths.iter() {
        push_over_call(alloc, walk, at, place, path, open)?;
    }
    Ok(())
}

/// Adds the trail, carried over an edge of this place that is no call, if it isn't dead.
fn push_plain(
    alloc: Global,
    walk: &Walk,
    at: &Open,
    place: usize,
    open: &mut Vec<Open>,
) -> Result<(), OutOfMemory> {
    match over_plain(alloc, walk.graph, &at.trail, place)? {
        Some(trail) if !is_dead(alloc, &trail)? => {
            push(alloc, open, at.used.as_slice(), place, trail)
        }
        _ => Ok(()),
    }
}

/// Adds the trail, carried over the edge of this place.
#[cycle(paths)]
fn push_over(
    alloc: Global,
    known: &mut Vec<Paths>,
    walk: &Walk,
    at: &Open,
    place: usize,
    edge: &Edge,
    open: &mut Vec<Open>,
) -> Result<(), OutOfMemory> {
    match edge {
        Edge::Entry { .. } => Ok(()),
        Edge::Call { proc, .. } => {
            let proc = *proc;
            if walk.exit != ExitKind::Return {
                push_called(alloc, known, walk, at, place, proc, walk.exit, open)?;
            }
            push_called(alloc, known, walk, at, place, proc, ExitKind::Return, open)
        }
        Edge::Assert { id, .. } if walk.exit != ExitKind::Fail(*id) => Ok(()),
        _ => push_plain(alloc, walk, at, place, open),
    }
}

/// Whether the trail may go over the edge of this place.
fn may_go(at: &Open, edge: &Edge, place: usize) -> bool {
    edge.source() == Some(at.trail.node)
        && match at.used.get(place) {
            Some(times) => *times < TURNS,
            None => false,
        }
}

/// Adds what the trail leads to over each edge from its node.
#[cycle(paths)]
fn push_all(
    alloc: Global,
    known: &mut Vec<Paths>,
    walk: &Walk,
    at: &Open,
    open: &mut Vec<Open>,
) -> Result<(), OutOfMemory> {
    for (place, edge) in walk.graph.edges.as_slice().iter().enumerate() {
        if may_go(at, edge, place) {
            push_over(alloc, known, walk, at, place, edge, open)?;
        }
    }
    Ok(())
}

/// The query of the procedure that ends so, from any start to any end.
fn any_query(alloc: Global, proc: ProcId, exit: ExitKind) -> Query
    ensures start { NameNoSymbol result.start.atoms }
    ensures end { NameNoSymbol result.end.atoms }
{
    Query {
        proc,
        exit,
        start: nothing(alloc),
        end: nothing(alloc),
    }
}

/// Adds the trail's path.
fn push_path(
    alloc: Global,
    paths: &mut Vec<Path>,
    proc: ProcId,
    exit: ExitKind,
    trail: &Trail,
) -> Result<(), OutOfMemory> {
    let query = any_query(alloc, proc, exit);
    match trail.to_path(alloc, &query) {
        Ok(path) => {
            paths.push(path)?;
            Ok(())
        }
        Err(TrailError::Limit(_)) => Ok(()),
        Err(TrailError::Memory) => Err(AllocError),
    }
}

/// Some paths to the target.
#[cycle(paths)]
fn walked(
    alloc: Global,
    known: &mut Vec<Paths>,
    walk: &Walk,
    proc: ProcId,
    target: u32,
) -> Result<Vec<Path>, OutOfMemory> {
    let used = vec![in alloc; 0u8; walk.graph.edges.as_slice().len()]?;
    let trail = Trail::begin(alloc, walk.graph)?;
    let mut open = vec![in alloc; Open { trail, used }]?;
    let mut paths = Vec::new(alloc);
    for _ in 0..WALKED {
        if paths.len() >= PATHS {
            return Ok(paths);
        }
        let Some(at) = open.pop() else {
            return Ok(paths);
        };
        if at.trail.node == target {
            push_path(alloc, &mut paths, proc, walk.exit, &at.trail)?;
        } else {
            push_all(alloc, known, walk, &at, &mut open)?;
        }
    }
    Ok(paths)
}

/// Some paths through the procedure.
#[cycle(paths)]
fn found(
    alloc: Global,
    known: &mut Vec<Paths>,
    graphs: &Graphs,
    proc: ProcId,
    exit: ExitKind,
    depth: u32,
) -> Result<Vec<Path>, OutOfMemory> {
    let Some(graph) = graphs.graphs.as_slice().get(proc as usize) else {
        return Ok(Vec::new(alloc));
    };
    if depth == 0 {
        return Ok(Vec::new(alloc));
    }
    let target = match exit {
        ExitKind::Return => graph.exit,
        ExitKind::Fail(_) => graph.fail,
    };
    let walk = Walk {
        graphs,
        graph,
        exit,
        depth: depth - 1,
    };
    walked(alloc, known, &walk, proc, target)
}

/// The place of the procedure's paths among the known ones.
#[cycle(paths)]
pub fn paths_of(
    alloc: Global,
    known: &mut Vec<Paths>,
    graphs: &Graphs,
    proc: ProcId,
    exit: ExitKind,
    depth: u32,
) -> Result<usize, OutOfMemory> {
    for (place, paths) in known.iter().enumerate() {
        if paths.proc == proc && paths.exit == exit && paths.depth == depth {
            return Ok(place);
        }
    }
    let paths = found(alloc, known, graphs, proc, exit, depth)?;
    let place = known.len();
    known.push(Paths {
        proc,
        exit,
        depth,
        paths,
    })?;
    Ok(place)
}
