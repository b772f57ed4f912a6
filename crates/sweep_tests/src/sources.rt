//! What a sweep of a source finds: the inputs are replayed.

use crate::swept::{End, Entry, Told, swept};
use c_tree::tree::Program;
use flow_build::build::build;
use run_replay::{Outcome, replay};
use std::alloc::Global;
use std::test::Fail;
use test_programs::program::program_of;

/// A source and what is wanted.
struct Case {
    name: &'static str,
    source: &'static str,
    edges: u32,
    told: Told,
}

const CASES: [Case; 7] = [
    Case {
        name: "two inputs",
        source: "int main(){ int x = input(); int y = input(); assume(x == 2); assert(x + y != 42); return 0; }",
        edges: 2000,
        told: (End::Whole, 1, [Some((2, [2, 40, 0])), None]),
    },
    Case {
        name: "a loop without an end",
        source: "int main(){ while (1) {} assert(0); return 0; }",
        edges: 2000,
        told: (End::More, 1, [None, None]),
    },
    Case {
        name: "a recursion without an end",
        source: "int f(){ return f(); } int main(){ assert(f()); return 0; }",
        edges: 2000,
        told: (End::More, 1, [None, None]),
    },
    Case {
        name: "two paths fail at one assertion, and the first one wants a greater input",
        source: "int f(int a){ assert(a < 7); return a; } int main(){ int x = input(); if (x > 100) { f(x); } f(x); return 0; }",
        edges: 2000,
        told: (End::Whole, 1, [Some((1, [101, 0, 0])), None]),
    },
    Case {
        name: "the value of a quotient is no input",
        source: "int main(){ int x = input(); assume(x == 17); int y = x / 2; int z = input(); assert(y != z); return 0; }",
        edges: 2000,
        told: (End::Whole, 1, [Some((2, [17, 8, 0])), None]),
    },
    Case {
        name: "a global",
        source: "int g = 5; void f(int a){ g = g + a; } int main(){ f(3); f(input()); assert(g != 25); assert(g > -100); return 0; }",
        edges: 2000,
        told: (
            End::Whole,
            2,
            [Some((1, [17, 0, 0])), Some((1, [-108, 0, 0]))],
        ),
    },
    Case {
        name: "no assertion fails",
        source: "int main(){ int x = input(); if (x < 3) { x = 3; } assert(x >= 3); return 0; }",
        edges: 2000,
        told: (End::Whole, 1, [None, None]),
    },
];

/// Whether these inputs, and no fewer, make the program fail at the assertion.
fn fails(alloc: Global, program: &Program, id: u32, inputs: &[i64]) -> Result<bool, Fail> {
    let replayed = replay(alloc, program, inputs, 10_000)?;
    Ok(replayed.outcome == Outcome::Failed(id) && replayed.used == inputs.len())
}

/// Whether the inputs of this entry, if there is one, make the program fail at the assertion.
fn is_met(alloc: Global, program: &Program, id: u32, entry: &Entry) -> Result<bool, Fail> {
    let Some(inputs) = entry else {
        return Ok(true);
    };
    if inputs.0 > 3 {
        return Ok(false);
    }
    fails(alloc, program, id, &inputs.1[..inputs.0])
}

/// Whether the inputs of each entry make the program fail at its assertion.
fn is_true(alloc: Global, program: &Program, entries: &[Entry]) -> Result<bool, Fail> {
    let mut id: u32 = 0;
    for entry in entries {
        if !is_met(alloc, program, id, entry)? {
            return Ok(false);
        }
        id = id.wrapping_add(1);
    }
    Ok(true)
}

fn is_wanted(alloc: Global, case: &Case) -> Result<bool, Fail> {
    let program = program_of(alloc, case.source.as_bytes())?;
    let graphs = build(alloc, &program)?;
    let asserts = u32::try_from(program.asserts.len())?;
    let told = swept(alloc, &graphs, program.main, asserts, case.edges)?;
    Ok(told == case.told && is_true(alloc, &program, &told.2)?)
}

#[test]
fn sweeps_sources(rt: HostRuntime) -> Result<(), Fail> {
    for case in &CASES {
        let wanted = is_wanted(rt.alloc(), case)?;
        assert!(rt; wanted, "{}", case.name);
    }
    Ok(())
}
