//! The graphs of programs, walked edge by edge: each walk ends as the replay of the program does,
//! with as many inputs used.

use crate::globals::GLOBALS;
use crate::programs::{Bounds, bounds_of, hold, lin_value};
use crate::quotients::{DIVIDENDS, DIVIDING, DIVISIONS};
use crate::sources::{CONTEXTS, EXPRESSIONS, HEAD, PROGRAMS, SHARED};
use c_tree::tree::{ProcId, Program, Slot};
use flow_build::build::build;
use flow_graph::calls::CallSite;
use flow_graph::graph::{Edge, Graph};
use flow_graph::graphs::Graphs;
use linear_formula::formula::Cube;
use run_replay::{Outcome, replay};
use std::alloc::Global;
use std::process::Abort;
use std::test::Fail;
use test_programs::program::program_of;

/// The most steps of a walk, and of a replay.
const STEPS: u32 = 10_000;

/// A frame at a node. While it waits for a call, `takes` are the slots for what that returns.
#[derive(Drop)]
struct Frame<'a> {
    procedure: ProcId,
    node: u32,
    slots: Vec<i64>,
    takes: &'a [Slot],
}

/// A walk over graphs.
#[derive(Drop)]
struct Walk<'a> {
    graphs: &'a [Graph],
    inputs: &'a [i64],
    used: usize,
    frames: Vec<Frame<'a>>,
    /// At each node so far at most one edge was possible, and one value where one was picked.
    clear: bool,
}

/// The values with which the rows hold, if there are any.
fn picked(slots: &[i64], slot: Slot, rows: &Cube) -> Option<Bounds> {
    let bounds = bounds_of(slots, slot, rows)?;
    if bounds.low <= bounds.high {
        Some(bounds)
    } else {
        None
    }
}

/// Whether there is a step over the edge from a node at these slots.
fn is_possible(edge: &Edge, node: u32, slots: &[i64]) -> bool {
    match edge {
        Edge::Entry { .. } => false,
        Edge::Assign { from, value, .. } => *from == node && lin_value(slots, value).is_some(),
        Edge::Guard { from, rows, .. } | Edge::Assert { from, rows, .. } => {
            *from == node && hold(slots, rows)
        }
        Edge::Pick {
            from,
            slot,
            rows,
            ..
        } => *from == node && picked(slots, *slot, rows).is_some(),
        Edge::Input { from, .. } | Edge::Call { from, .. } | Edge::Return { from, .. } => {
            *from == node
        }
    }
}

/// The values of these slots.
fn values_of(alloc: Global, all: &[i64], slots: &[Slot]) -> Result<Vec<i64>, Fail> {
    let mut values = Vec::new(alloc);
    for slot in slots {
        values.push(*all.get(*slot as usize).ok_or("no slot")?)?;
    }
    Ok(values)
}

impl<'a> Walk<'a> {
    /// A new frame, over edge 0.
    fn enter(&mut self, procedure: ProcId, arguments: Vec<i64>) -> Result<(), Fail> {
        let graph = self.graphs.get(procedure as usize).ok_or("no graph")?;
        let Some(Edge::Entry { to, .. }) = graph.edges.as_slice().first() else {
            return Err(Fail::new("no entry"));
        };
        let mut slots = arguments;
        slots.resize(graph.slots as usize, 0)?;
        self.frames.push(Frame {
            procedure,
            node: *to,
            slots,
            takes: &[],
        })?;
        Ok(())
    }

    /// The frame goes on at a node, where a slot has a value.
    fn resume(&mut self, frame: Frame<'a>, node: u32, slot: Slot, value: i64) -> Result<(), Fail> {
        let mut frame = frame;
        *frame.slots.get_mut(slot as usize).ok_or("no slot")? = value;
        frame.node = node;
        self.frames.push(frame)?;
        Ok(())
    }

    /// The one possible edge at the node, if there is one.
    fn way(&mut self, frame: &Frame<'a>) -> Result<Option<&'a Edge>, Fail> {
        let graphs = self.graphs;
        let graph = graphs.get(frame.procedure as usize).ok_or("no graph")?;
        let mut way = None;
        for edge in graph.edges.as_slice() {
            if is_possible(edge, frame.node, &frame.slots) {
                self.clear = self.clear && way.is_none();
                way = Some(edge);
            }
        }
        Ok(way)
    }

    /// What a frame returns goes to the one that waits for it, all at once.
    fn give_back(&mut self, values: &[i64]) -> Result<Option<Outcome>, Fail> {
        let Some(frame) = self.frames.pop() else {
            return Ok(Some(Outcome::Returned(*values.first().ok_or("no value")?)));
        };
        let mut frame = frame;
        if frame.takes.len() != values.len() {
            return Err(Fail::new("another number of values"));
        }
        for (slot, value) in frame.takes.iter().zip(values) {
            *frame.slots.get_mut(*slot as usize).ok_or("no slot")? = *value;
        }
        self.frames.push(frame)?;
        Ok(None)
    }

    /// A call from a frame, which waits for it at a node.
    fn call(
        &mut self,
        alloc: Global,
        frame: Frame<'a>,
        node: u32,
        site: &CallSite<'a>,
    ) -> Result<Option<Outcome>, Fail> {
        let mut frame = frame;
        let values = values_of(alloc, &frame.slots, site.arguments())?;
        frame.node = node;
        frame.takes = site.results();
        self.frames.push(frame)?;
        self.enter(site.procedure(), values)?;
        Ok(None)
    }

    /// Over an edge.
    fn go(
        &mut self,
        alloc: Global,
        frame: Frame<'a>,
        edge: &'a Edge,
    ) -> Result<Option<Outcome>, Fail> {
        let mut frame = frame;
        match edge {
            Edge::Assign {
                to,
                slot,
                value,
                ..
            } => {
                let value = lin_value(&frame.slots, value).ok_or("no value")?;
                self.resume(frame, *to, *slot, value)?;
            }
            Edge::Guard { to, .. } => {
                frame.node = *to;
                self.frames.push(frame)?;
            }
            Edge::Input { to, slot, .. } => {
                let Some(value) = self.inputs.get(self.used) else {
                    return Ok(Some(Outcome::Starved));
                };
                self.used += 1;
                self.resume(frame, *to, *slot, *value)?;
            }
            Edge::Call { to, .. } => return self.call(alloc, frame, *to, &CallSite::of(edge)),
            Edge::Assert { id, .. } => return Ok(Some(Outcome::Failed(*id))),
            Edge::Return { slots, .. } => {
                let values = values_of(alloc, &frame.slots, slots.as_slice())?;
                return self.give_back(&values);
            }
            Edge::Pick { to, slot, rows, .. } => {
                let bounds = picked(&frame.slots, *slot, rows).ok_or("no value")?;
                self.clear = self.clear && bounds.low == bounds.high;
                self.resume(frame, *to, *slot, bounds.low)?;
            }
            Edge::Entry { .. } => return Err(Fail::new("no such edge")),
        }
        Ok(None)
    }

    fn outcome(&mut self, alloc: Global) -> Result<Outcome, Fail> {
        for _ in 0..STEPS {
            let frame = self.frames.pop().ok_or("no frame")?;
            let Some(edge) = self.way(&frame)? else {
                return Ok(Outcome::Stopped);
            };
            if let Some(outcome) = self.go(alloc, frame, edge)? {
                return Ok(outcome);
            }
        }
        Ok(Outcome::Fuel)
    }
}

/// How a walk ended, or a replay.
#[derive(Clone, Copy, PartialEq)]
struct Ended {
    outcome: Outcome,
    used: usize,
    clear: bool,
}

fn end_of_walk(
    alloc: Global,
    graphs: &[Graph],
    main: ProcId,
    inputs: &[i64],
) -> Result<Ended, Fail> {
    let mut walk = Walk {
        graphs,
        inputs,
        used: 0,
        frames: Vec::new(alloc),
        clear: true,
    };
    walk.enter(main, Vec::new(alloc))?;
    let outcome = walk.outcome(alloc)?;
    Ok(Ended {
        outcome,
        used: walk.used,
        clear: walk.clear,
    })
}

fn end_of_replay(alloc: Global, program: &Program, inputs: &[i64]) -> Result<Ended, Fail> {
    let replayed = replay(alloc, program, inputs, u64::from(STEPS))?;
    Ok(Ended {
        outcome: replayed.outcome,
        used: replayed.used,
        clear: true,
    })
}

/// A program and its graphs.
#[derive(Drop)]
struct Built {
    program: Program,
    graphs: Graphs,
}

fn built_of(alloc: Global, text: &str) -> Result<Built, Fail> {
    let program = program_of(alloc, text.as_bytes())?;
    let graphs = build(alloc, &program)?;
    Ok(Built { program, graphs })
}

/// The first of the lists on which the walk and the replay end otherwise.
fn first_other(alloc: Global, built: &Built, lists: &[&[i64]]) -> Result<Option<usize>, Fail> {
    let graphs = built.graphs.graphs.as_slice();
    for (place, inputs) in lists.iter().enumerate() {
        let walked = end_of_walk(alloc, graphs, built.program.main, inputs)?;
        if walked != end_of_replay(alloc, &built.program, inputs)? {
            return Ok(Some(place));
        }
    }
    Ok(None)
}

/// Walks and replays a program on inputs.
fn compare(rt: &impl Abort, alloc: Global, text: &str, lists: &[&[i64]]) -> Result<(), Fail> {
    let built = built_of(alloc, text)?;
    let other = first_other(alloc, &built, lists)?;
    assert!(rt; other.is_none(), "{text} on {other:?}");
    Ok(())
}

#[test]
fn programs_and_graphs_agree(rt: HostRuntime) -> Result<(), Fail> {
    for (text, lists) in PROGRAMS {
        compare(&rt, rt.alloc(), text, lists)?;
        compare(&rt, rt.alloc(), text, SHARED)?;
    }
    Ok(())
}

#[test]
fn globals_and_graphs_agree(rt: HostRuntime) -> Result<(), Fail> {
    for (text, lists) in GLOBALS {
        compare(&rt, rt.alloc(), text, lists)?;
        compare(&rt, rt.alloc(), text, SHARED)?;
    }
    Ok(())
}

#[test]
fn expressions_and_graphs_agree(rt: HostRuntime) -> Result<(), Fail> {
    for expression in EXPRESSIONS {
        for (before, behind) in CONTEXTS {
            let text = format!(in rt.alloc(); "{}{before}{expression}{behind} }}", HEAD)?;
            compare(&rt, rt.alloc(), text.as_str(), SHARED)?;
        }
    }
    Ok(())
}

#[test]
fn divisions_and_graphs_agree(rt: HostRuntime) -> Result<(), Fail> {
    for expression in DIVIDING {
        for (before, behind) in CONTEXTS {
            let text = format!(in rt.alloc(); "{}{before}{expression}{behind} }}", HEAD)?;
            compare(&rt, rt.alloc(), text.as_str(), SHARED)?;
        }
    }
    Ok(())
}

// Quotients

/// How the replay of a program ends on this input.
fn comes_to(alloc: Global, built: &Built, input: i64) -> Result<Outcome, Fail> {
    Ok(end_of_replay(alloc, &built.program, &[input])?.outcome)
}

/// What the machine's own division gives.
fn machine_gives(input: i64, divisor: i64, remainder: bool) -> Outcome {
    let Some(quotient) = input.checked_div(divisor) else {
        return Outcome::Stopped;
    };
    if remainder {
        Outcome::Returned(input.wrapping_sub(quotient.wrapping_mul(divisor)))
    } else {
        Outcome::Returned(quotient)
    }
}

/// The first dividend at which the walk, the replay or the machine's division end otherwise.
fn other_quotient(
    alloc: Global,
    built: &Built,
    divisor: i64,
    remainder: bool,
) -> Result<Option<i64>, Fail> {
    for input in DIVIDENDS {
        let wanted = machine_gives(*input, divisor, remainder);
        let same = first_other(alloc, built, &[&[*input]])?.is_none();
        if !same || comes_to(alloc, built, *input)? != wanted {
            return Ok(Some(*input));
        }
    }
    Ok(None)
}

/// Each sign of both sides, and the extreme values.
#[test]
fn quotients_are_those_of_the_machine(rt: HostRuntime) -> Result<(), Fail> {
    for (divisor, mark, remainder) in DIVISIONS {
        let text = format!(in rt.alloc();
            "int main(){{ int x = input(); return x {mark} {divisor}; }}"
        )?;
        let built = built_of(rt.alloc(), text.as_str())?;
        let other = other_quotient(rt.alloc(), &built, *divisor, *remainder)?;
        assert!(rt; other.is_none(), "{other:?} {mark} {divisor}");
    }
    Ok(())
}
