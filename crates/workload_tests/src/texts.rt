//! Whole texts, written by hand.

ghost use Rattle.std.specs.Prelude.{◌≤◌};
ghost use Rattle.workload_gen.specs.declared.text.TheConstants.{MAX_NUMBER};

use std::alloc::{AllocError, Global};
use std::test::Fail;
use workload_gen::program_of;

const ONE: &str = "\
int p1(int a) { if (a > 0) { return 1; } assert(a <= 0); return 0; }
int main() { int k = input(); int v = input(); if (k == 1) { p1(v); } return 0; }
";

const THREE: &str = "\
int p1(int a) { if (a > 0) { return 1; } assert(a <= 0); return 0; }
int p2(int a) { if (a > 0) { return 1; } assert(a <= 0); return 0; }
int p3(int a) { if (a > 0) { return 1; } assert(a != -3); return 0; }
int main() { int k = input(); int v = input(); if (k == 1) { p1(v); } if (k == 2) { p2(v); } \
if (k == 3) { p3(v); } return 0; }
";

/// The bytes of the program of `number` procedures.
fn length(alloc: Global, number: u32) -> Result<usize, AllocError>
    requires some { 1 ≤ number }
    requires few { number ≤ MAX_NUMBER }
{
    Ok(program_of(alloc, number)?.len())
}

#[test]
fn whole_texts(rt: HostRuntime) -> Result<(), Fail> {
    let one = program_of(rt.alloc(), 1)?;
    assert!(rt; one.as_slice() == ONE.as_bytes());
    let three = program_of(rt.alloc(), 3)?;
    assert!(rt; three.as_slice() == THREE.as_bytes());
    Ok(())
}

/// By hand: with line feeds, a line with a number of one digit has 69 bytes, or 70 where it can
/// fail, and of two digits 70 or 72; a call has 23 or 25, and the rest of the last line 59.
#[test]
fn lengths(rt: HostRuntime) -> Result<(), Fail> {
    let least = length(rt.alloc(), 1)?;
    assert_eq!(rt; least, 69 + 23 + 59);
    let most = length(rt.alloc(), 60)?;
    let lines = 6 * 69 + 3 * 70 + 34 * 70 + 17 * 72;
    assert_eq!(rt; most, lines + 9 * 23 + 51 * 25 + 59);
    Ok(())
}
