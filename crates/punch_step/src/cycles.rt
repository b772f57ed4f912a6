//! Where paths turn.

use crate::choice::Choice;
use crate::chooser::Chooser;
use crate::memo::mixed;
use flow_graph::graph::{Edge, Graph};
use flow_graph::graphs::Graphs;
use linear_formula::error::OutOfMemory;
use std::alloc::Global;

/// Whether the place is noted.
fn is_noted(met: &[bool], place: u32) -> bool {
    met.get(place as usize) == Some(&true)
}

/// Notes the place, and says whether it is new.
fn note(met: &mut Vec<bool>, place: u32) -> bool {
    match met.get_mut(place as usize) {
        Some(noted) if !*noted => {
            *noted = true;
            true
        }
        _ => false,
    }
}

/// Notes the nodes to which edges lead from those that are noted, and says whether there are new
/// ones.
fn spread(graph: &Graph, met: &mut Vec<bool>) -> bool {
    let mut more = false;
    for edge in graph.edges.as_slice() {
        if let Some(from) = edge.source() {
            if is_noted(met.as_slice(), from) && note(met, edge.target()) {
                more = true;
            }
        }
    }
    more
}

/// Notes the nodes to which edges lead from the node.
fn note_next(graph: &Graph, node: u32, met: &mut Vec<bool>) {
    for edge in graph.edges.as_slice() {
        if edge.source() == Some(node) {
            note(met, edge.target());
        }
    }
}

/// Whether edges lead from the node back to it.
fn is_on_cycle(alloc: Global, graph: &Graph, node: u32) -> Result<bool, OutOfMemory> {
    let mut met = vec![in alloc; false; graph.nodes as usize]?;
    note_next(graph, node, &mut met);
    for _ in 0..graph.nodes {
        if !spread(graph, &mut met) {
            return Ok(is_noted(met.as_slice(), node));
        }
    }
    Ok(is_noted(met.as_slice(), node))
}

/// Notes the procedures that the graph calls, and says whether there are new ones.
fn note_called(graph: &Graph, met: &mut Vec<bool>) -> bool {
    let mut more = false;
    for edge in graph.edges.as_slice() {
        if let Edge::Call { proc, .. } = edge {
            if note(met, *proc) {
                more = true;
            }
        }
    }
    more
}

/// Notes the procedures that are called by those that are noted, and says whether there are new
/// ones.
fn spread_calls(graphs: &Graphs, met: &mut Vec<bool>) -> bool {
    let mut more = false;
    let mut proc = 0;
    for graph in graphs.graphs.as_slice() {
        if is_noted(met.as_slice(), proc) && note_called(graph, met) {
            more = true;
        }
        proc = proc.saturating_add(1);
    }
    more
}

/// Whether the graph's procedure is called from itself.
fn calls_itself(
    alloc: Global,
    graphs: &Graphs,
    graph: &Graph,
    proc: u32,
) -> Result<bool, OutOfMemory> {
    let all = graphs.graphs.as_slice();
    let mut met = vec![in alloc; false; all.len()]?;
    note_called(graph, &mut met);
    for _ in 0..all.len() {
        if !spread_calls(graphs, &mut met) {
            return Ok(is_noted(met.as_slice(), proc));
        }
    }
    Ok(is_noted(met.as_slice(), proc))
}

/// Whether some procedure is called from itself.
fn is_recursive(alloc: Global, graphs: &Graphs) -> Result<bool, OutOfMemory> {
    let mut proc: u32 = 0;
    for graph in graphs.graphs.as_slice() {
        if calls_itself(alloc, graphs, graph, proc)? {
            return Ok(true);
        }
        proc = proc.saturating_add(1);
    }
    Ok(false)
}

/// Whether the source's node lies on a cycle, or the program is recursive.
pub fn is_turning(
    alloc: Global,
    chooser: &mut Chooser,
    choice: &Choice,
) -> Result<bool, OutOfMemory> {
    let Some(region) = choice.state.partition().regions().get(choice.from as usize) else {
        return Ok(false);
    };
    let proc = choice.state.query().proc;
    let key = mixed(mixed(77, u64::from(proc)), u64::from(region.node));
    if let Some(told) = chooser.recall(key) {
        return Ok(told == 1);
    }
    let told = is_on_cycle(alloc, choice.graph, region.node)?
        || is_recursive(alloc, choice.graphs)?;
    chooser.note(key, if told { 1 } else { 0 });
    Ok(told)
}
