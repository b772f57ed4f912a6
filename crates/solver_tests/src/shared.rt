//! Cubes that share their atoms, with fewer atoms than a block has, as many, and more.

use crate::rows::push_row;
use linear_formula::error::LinError;
use linear_formula::formula::{Atoms, Cube};
use linear_formula::shared::SharedCube;
use std::alloc::Global;
use std::test::Fail;

/// Rows without columns, whose constants are these, and ascend.
fn counted(alloc: Global, from: i64, to: i64) -> Result<Cube, LinError> {
    let mut atoms = Atoms::new(alloc);
    for constant in from..to {
        push_row(&mut atoms, alloc, &(&[], constant))?;
    }
    Ok(Cube { atoms })
}

/// Whether the constants of the rows are 0 and so on, and there are `count`.
fn is_counted(cube: &Cube, count: i64) -> bool {
    let atoms = cube.atoms.as_slice();
    for (place, atom) in atoms.iter().enumerate() {
        if atom.term.constant() != place as i128 {
            return false;
        }
    }
    atoms.len() as i64 == count
}

/// `count` rows, each put after those before it.
fn grown(alloc: Global, count: i64) -> Result<SharedCube, LinError> {
    let mut cube = SharedCube::new(alloc);
    for atom in counted(alloc, 0, count)?.atoms.into_vec() {
        cube = cube.with(alloc, atom)?;
    }
    Ok(cube)
}

fn grows(alloc: Global, count: u8) -> Result<bool, LinError> {
    let count = i64::from(count);
    let cube = grown(alloc, count)?;
    let copy = cube.copy(alloc)?;
    Ok(is_counted(&cube.to_cube(alloc)?, count) && is_counted(&copy.to_cube(alloc)?, count))
}

fn joins(alloc: Global, count: u8) -> Result<bool, LinError> {
    let count = i64::from(count);
    let all = count + 70;
    let first = SharedCube::of(alloc, &counted(alloc, 0, count)?)?;
    let second = counted(alloc, count, all)?;
    let both = first.and(alloc, &second)?;
    let moved = first.cube_with(alloc, second)?;
    Ok(is_counted(&both.to_cube(alloc)?, all) && is_counted(&moved, all))
}

fn follows(alloc: Global, count: u8) -> Result<bool, LinError> {
    let count = i64::from(count);
    let all = count + 3;
    let first = counted(alloc, 0, count)?;
    let both = first.followed_by(alloc, counted(alloc, count, all)?)?;
    Ok(is_counted(&both, all))
}

/// A block has 32 atoms.
const COUNTS: &[u8] = &[0, 1, 31, 32, 33, 64, 66];

#[test]
fn keeps_all_atoms_in_order(rt: HostRuntime) -> Result<(), Fail> {
    for &count in COUNTS {
        let right = grows(rt.alloc(), count)?
            && joins(rt.alloc(), count)?
            && follows(rt.alloc(), count)?;
        assert!(rt; right, "{count}");
    }
    Ok(())
}
