//! That each text is accepted, where its assertions stand, and on which inputs they fail.

ghost use Rattle.std.specs.Prelude.{◌≤◌};
ghost use Rattle.workload_gen.specs.declared.text.TheConstants.{MAX_NUMBER};

use c_tree::tree::{Pos, Program};
use run_replay::{Outcome, Replayed, replay};
use std::alloc::Global;
use std::test::Fail;
use test_programs::program::program_of;
use workload_gen::{MAX_NUMBER, program_of as text_of};

/// The program with `number` procedures beside `main`, as the front end reads it.
fn program(alloc: Global, number: u32) -> Result<Program, Fail>
    requires some { 1 ≤ number }
    requires few { number ≤ MAX_NUMBER }
{
    let text = text_of(alloc, number)?;
    Ok(program_of(alloc, &text)?)
}

/// Whether the assertions stand on their lines, from the first on, at the columns that are counted
/// by hand: 41 bytes stand before the name where the procedure's number has one digit.
fn stand_in_order(program: &Program) -> bool {
    (1..).zip(&program.asserts).all(|(line, place)| {
        let column = if line < 10 { 42 } else { 43 };
        place.at == Pos { line, column }
    })
}

#[test]
fn accepted(rt: HostRuntime) -> Result<(), Fail> {
    for number in 1..=MAX_NUMBER {
        let program = program(rt.alloc(), number)?;
        let counts = (program.procedures.len(), program.asserts.len());
        assert_eq!(rt; counts, (number as usize + 1, number as usize));
        assert!(rt; stand_in_order(&program), "of {number} procedures");
    }
    Ok(())
}

const FUEL: u64 = 10_000;

/// How a run comes out that calls this procedure on this value.
fn outcome(index: u32, value: i64) -> Outcome
    requires { 1 ≤ index }
{
    let id = index - 1;
    if index % 3 == 0 && value == -i64::from(index) {
        Outcome::Failed(id)
    } else {
        Outcome::Returned(0)
    }
}

#[test]
fn every_third_fails(rt: HostRuntime) -> Result<(), Fail> {
    let program = program(rt.alloc(), MAX_NUMBER)?;
    for index in 1..=MAX_NUMBER {
        let k = i64::from(index);
        for value in [-k - 1, -k, -k + 1, 0, k] {
            let run = replay(rt.alloc(), &program, &[k, value], FUEL)?;
            let wanted = Replayed {
                outcome: outcome(index, value),
                used: 2,
            };
            assert_eq!(rt; run, wanted, "on {k}, {value}");
        }
    }
    let calls_none = replay(rt.alloc(), &program, &[61, -3], FUEL)?;
    assert_eq!(rt; calls_none.outcome, Outcome::Returned(0));
    Ok(())
}
