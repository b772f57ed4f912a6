//! Whether edges make a graph, and graphs a program's.

ghost use Rattle.std.specs.Prelude.{◌≡◌, ◌==◌, nat_lt, slice_get, Some, IsTrue};
ghost use Rattle.std.specs.List.{list_all, list_any};
ghost use Rattle.linear_formula.specs.Formula.{are_terms};
ghost use Rattle.flow_graph.specs.Linked.{AreGraphs, takes as taken};
ghost use Rattle.flow_graph.specs.WellFormed.{IsGraph, are_distinct as distinct, has_lists as lists, has_slots as slots_exist, has_terms as terms, is_entry_of as entry_of, is_lin as lin, names_slots as names};
ghost use Rattle.test_forms.specs.Tested.{are_same as same_test, has_ends as ends, is_edge as edge_test, is_frame as frame, is_graph as graph_test, is_later as later, is_linked as linked, is_node_left};

use flow_graph::columns::MAX_SLOTS;
use flow_graph::graph::{Edge, Graph, Lin};
use linear_formula::formula::{Atom, Cube};

/// The numbers of a graph with the exit 0 and the failure 1.
#[derive(Clone, Copy)]
pub struct Counts {
    pub nodes: u32,
    pub params: u32,
    pub exits: u32,
    pub slots: u32,
}

fn are_same(first: bool, second: bool) -> bool
    ensures { result ≡ same_test first second }
{
    if first { second } else { !second }
}

/// Whether an edge may leave the node.
fn may_leave(nodes: u32, source: Option<u32>) -> bool
    ensures { result ≡ is_node_left nodes 0 1 source }
{
    match source {
        None => true,
        Some(node) => node < nodes && (node != 0 && node != 1),
    }
}

fn are_slots(list: &[u32], slots: u32) -> bool
    ensures { result ≡ list_all (λ x. nat_lt x slots) list.now }
{
    list.iter().all(|slot| *slot < slots)
}

fn stands_in(list: &[u32], slot: u32) -> bool
    ensures { result ≡ list_any (λ x. x == slot) list.now }
{
    list.iter().any(|other| *other == slot)
}

fn are_distinct(list: &[u32]) -> bool
    ensures { result ≡ distinct list.now }
{
    match list {
        [] => true,
        [slot, rest @ ..] => !stands_in(rest, *slot) && are_distinct(rest),
    }
}

fn names_slots(row: &Atom, slots: u32) -> bool
    ensures { result ≡ names slots row.now }
{
    row.term.parts().iter().all(|part| part.0 < slots)
}

/// Whether the rows name columns below this one alone.
pub fn names_below(rows: &Cube, slots: u32) -> bool
    ensures named { result ≡ list_all (names slots) rows.now.atoms }
    ensures terms { IsTrue (are_terms rows.now.atoms) }
{
    rows.atoms
        .as_slice()
        .iter()
        .all(|row| names_slots(row, slots))
}

fn are_parts(parts: &[(i64, u32)], slots: u32) -> bool
    ensures { result ≡ list_all (λ p. nat_lt p.1 slots) parts.now }
{
    parts.iter().all(|part| part.1 < slots)
}

fn is_lin(value: &Lin, slots: u32) -> bool
    ensures { result ≡ lin slots value.now }
{
    let parts = value.parts.as_slice();
    parts.len() <= 2 && are_parts(parts, slots)
}

/// Whether the slots that the edge names exist.
pub fn has_slots(edge: &Edge, slots: u32) -> bool
    ensures slots { result ≡ slots_exist slots edge.now }
    ensures terms { IsTrue (terms edge.now) }
{
    match edge {
        Edge::Entry { params, .. } => *params <= slots,
        Edge::Assign { slot, value, .. } => *slot < slots && is_lin(value, slots),
        Edge::Guard { rows, .. } => names_below(rows, slots),
        Edge::Assert { rows, .. } => names_below(rows, slots),
        Edge::Input { slot, .. } => *slot < slots,
        Edge::Pick { slot, rows, .. } => {
            let named = names_below(rows, slots);
            *slot < slots && named
        }
        Edge::Call { args, results, .. } => {
            are_slots(results.as_slice(), slots) && are_slots(args.as_slice(), slots)
        }
        Edge::Return {
            slots: returned,
            ..
        } => are_slots(returned.as_slice(), slots),
    }
}

/// Whether results are distinct, and a return has a slot for each exit value.
fn has_lists(edge: &Edge, exits: u32) -> bool
    ensures { result ≡ lists exits edge.now }
{
    match edge {
        Edge::Call { results, .. } => are_distinct(results.as_slice()),
        Edge::Return { slots, .. } => slots.as_slice().len() == exits as usize,
        _ => true,
    }
}

/// Whether a return leads to the exit and nothing else does, and an assertion to the failure.
fn has_ends(edge: &Edge) -> bool
    ensures { result ≡ ends 0 1 edge.now }
{
    let returns = matches!(edge, Edge::Return { .. });
    let fails = matches!(edge, Edge::Assert { .. });
    are_same(returns, edge.target() == 0) && are_same(fails, edge.target() == 1)
}

fn is_edge(counts: Counts, edge: &Edge) -> bool
    ensures { result ≡ edge_test counts.nodes 0 1 counts.exits counts.slots edge.now }
{
    let slots = has_slots(edge, counts.slots);
    may_leave(counts.nodes, edge.source())
        && (edge.target() < counts.nodes
            && (slots && (has_lists(edge, counts.exits) && has_ends(edge))))
}

/// Whether the edge is no entry, and doesn't lead back to the node after the entry.
fn is_later(first: u32, edge: &Edge) -> bool
    ensures { result ≡ later 1 first edge.now }
{
    let entry = matches!(edge, Edge::Entry { .. });
    !entry && !(edge.target() == first || (edge.is_call() && first == 1))
}

fn is_entry_of(params: u32, edge: &Edge) -> bool
    ensures { result ≡ entry_of params (Some edge.now) }
{
    match edge {
        Edge::Entry { params: count, .. } => *count == params,
        _ => false,
    }
}

fn are_edges(counts: Counts, edges: &[Edge]) -> bool
    ensures { result ≡ list_all (edge_test counts.nodes 0 1 counts.exits counts.slots) edges.now }
{
    edges.iter().all(|edge| is_edge(counts, edge))
}

fn are_later(first: u32, edges: &[Edge]) -> bool
    ensures { result ≡ list_all (later 1 first) edges.now }
{
    edges.iter().all(|edge| is_later(first, edge))
}

fn is_frame(counts: Counts) -> bool
    ensures { result ≡ frame counts.nodes 0 1 counts.params counts.exits counts.slots }
{
    1 < counts.nodes
        && (counts.params <= counts.slots
            && (counts.exits <= MAX_SLOTS && counts.slots <= MAX_SLOTS))
}

fn passes(counts: Counts, edges: &[Edge]) -> bool
    ensures { result ≡ graph_test counts.nodes counts.params counts.exits counts.slots edges.now }
{
    match edges {
        [] => false,
        [entry, rest @ ..] => {
            is_entry_of(counts.params, entry)
                && (is_frame(counts)
                    && (are_edges(counts, edges) && are_later(entry.target(), rest)))
        }
    }
}

/// Whether the edges make a graph.
#[tactic(auto, using(crate::proofs::ByTest::graph_by_test))]
pub fn is_graph(counts: Counts, edges: &[Edge]) -> bool
    ensures { IsTrue result →
        IsGraph counts.nodes 0 1 counts.params counts.exits counts.slots edges.now }
{
    passes(counts, edges)
}

/// Whether the graph has `args` entry values and `results` exit values.
fn takes(graphs: &[Graph], proc: u32, args: usize, results: usize) -> bool
    ensures { result ≡ taken (slice_get graphs.now proc) args results }
{
    match graphs.get(proc as usize) {
        Some(graph) => graph.params as usize == args && graph.exits as usize == results,
        None => false,
    }
}

/// Whether the edge calls what is there, with as many values.
fn is_linked(graphs: &[Graph], edge: &Edge) -> bool
    ensures { result ≡ linked graphs.now edge.now }
{
    match edge {
        Edge::Call {
            proc,
            args,
            results,
            ..
        } => takes(
            graphs,
            *proc,
            args.as_slice().len(),
            results.as_slice().len(),
        ),
        _ => true,
    }
}

fn calls_fit(graphs: &[Graph], graph: &Graph) -> bool
    ensures { result ≡ list_all (linked graphs.now) graph.now.edges }
{
    graph
        .edges
        .as_slice()
        .iter()
        .all(|edge| is_linked(graphs, edge))
}

fn all_calls_fit(graphs: &[Graph], callers: &[Graph]) -> bool
    ensures { result ≡ list_all (λ g. list_all (linked graphs.now) g.edges) callers.now }
{
    callers.iter().all(|graph| calls_fit(graphs, graph))
}

/// Whether the graphs are those of one program.
#[tactic(auto, using(crate::proofs::ByTest::graphs_by_test))]
pub fn are_graphs(graphs: &[Graph]) -> bool
    ensures { IsTrue result → AreGraphs graphs.now }
{
    all_calls_fit(graphs, graphs)
}
