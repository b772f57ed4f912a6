//! Cubes whose first atoms are shared, and rows where they lie.

ghost use Rattle.std.specs.Prelude.{◌≡◌, ◌++◌, length, IfOk, IsTrue, ◌↔◌};
ghost use Rattle.linear_formula.specs.LinearSum.{valuation};
ghost use Rattle.linear_formula.specs.Formula.{HoldsAll, are_terms};
ghost use Rattle.linear_formula.specs.Rows.{all_rows};

use crate::assignment::Assignment;
use crate::error::OutOfMemory;
use crate::formula::{Atom, Atoms, Cube, copy_onto, hold_all};
use crate::shared::{Block, Blocks};
use std::alloc::{AllocError, Global};
use std::marker::Model;

/// Rows in order, where they lie: those of the blocks, and then these.
#[derive(Clone, Copy)]
pub struct Rows<'a> {
    pub blocks: &'a [Block],
    pub own: &'a [Atom],
}

/// All of the atoms, as a `Cube` has them. A copy shares those of the blocks, and copies the
/// others.
#[derive(Debug, Drop)]
pub struct JoinedCube {
    blocks: Blocks,
    own: Atoms,
}

impl Model for JoinedCube {
    ghost use Rattle.std.specs.Prelude.{◌++◌};
    ghost use Rattle.linear_formula.specs.declared.formula.Cube.{Cube};
    ghost use Rattle.std.specs.Prelude.{IsTrue};
    ghost use Rattle.linear_formula.specs.Formula.{are_terms};

    ghost Value = { Cube };

    ghost view = { λ c. record { atoms = c.blocks ++ c.own } };

    ghost invariant = { λ c. IsTrue (are_terms (c.blocks ++ c.own)) };
}

impl<'a> Rows<'a> {
    /// The rows of a cube.
    pub fn of(cube: &'a Cube) -> Rows<'a>
        ensures rows { all_rows result ≡ cube.now.atoms }
        ensures terms { IsTrue (are_terms cube.now.atoms) }
    {
        Rows {
            blocks: &[],
            own: cube.atoms.as_slice(),
        }
    }

    /// How many rows there are. Where they are more than 32 bits count, there would be no memory
    /// for what is made of them.
    pub fn count(&self) -> Result<u32, OutOfMemory>
        ensures { IfOk result (λ n. n ≡ length (all_rows self.now)) }
    {
        let mut count = number_of(self.own)?;
        for block in self.blocks {
            let Some(more) = count.checked_add(number_of(block.as_slice())?) else {
                return Err(AllocError);
            };
            count = more;
        }
        Ok(count)
    }

    /// The rows, in memory of their own.
    pub fn to_cube(&self, alloc: Global) -> Result<Cube, OutOfMemory>
        ensures { IfOk result (λ c. c.atoms ≡ all_rows self.now) }
    {
        let mut atoms = Atoms::with_capacity(alloc, self.count()? as usize)?;
        for block in self.blocks {
            copy_onto(&mut atoms, alloc, block.as_slice())?;
        }
        copy_onto(&mut atoms, alloc, self.own)?;
        Ok(Cube { atoms })
    }
}

/// How many atoms there are, if 32 bits count them.
fn number_of(atoms: &[Atom]) -> Result<u32, OutOfMemory>
    ensures { IfOk result (λ n. n ≡ length atoms.now) }
{
    u32::try_from(atoms.len()).or(Err(AllocError))
}

impl JoinedCube {
    pub(crate) fn new(blocks: Blocks, own: Atoms) -> JoinedCube
        requires { IsTrue (are_terms (blocks ++ own)) }
        ensures { result.atoms ≡ blocks ++ own }
    {
        JoinedCube { blocks, own }
    }

    /// The atoms of a cube, which are moved.
    pub fn of(cube: Cube) -> JoinedCube
        ensures { result ≡ cube }
    {
        JoinedCube::new(Blocks::new(), cube.atoms)
    }

    /// The rows.
    pub fn rows(&self) -> Rows<'_>
        ensures rows { all_rows result ≡ self.now.atoms }
        ensures terms { IsTrue (are_terms self.now.atoms) }
    {
        Rows {
            blocks: self.blocks.as_slice(),
            own: self.own.as_slice(),
        }
    }

    /// The same cube, whose copies share all atoms.
    pub fn closed(self, alloc: Global) -> Result<JoinedCube, OutOfMemory>
        ensures { IfOk result (λ c. c ≡ self) }
    {
        let JoinedCube { blocks, own } = self;
        let block = Block::new(alloc, own)?;
        let blocks = blocks.with(alloc, block)?;
        Ok(JoinedCube::new(blocks, Atoms::new(alloc)))
    }

    /// The atoms of both, in order. The blocks are shared, the atoms after them are copied, and
    /// those of the other are moved.
    pub fn followed_by(&self, alloc: Global, other: Cube) -> Result<JoinedCube, OutOfMemory>
        ensures { IfOk result (λ c. c.atoms ≡ self.now.atoms ++ other.atoms) }
    {
        let blocks = self.blocks.copy()?;
        let old = self.own.as_slice();
        let room = old.len().saturating_add(other.atoms.as_slice().len());
        let mut own = Atoms::with_capacity(alloc, room)?;
        copy_onto(&mut own, alloc, old)?;
        own.append(other.atoms)?;
        Ok(JoinedCube::new(blocks, own))
    }

    /// An equal cube in memory of its own.
    pub fn to_cube(&self, alloc: Global) -> Result<Cube, OutOfMemory>
        ensures { IfOk result (λ c. c ≡ self.now) }
    {
        self.rows().to_cube(alloc)
    }

    /// Whether each atom holds there, exactly.
    pub fn holds(&self, at: &Assignment) -> bool
        ensures { IsTrue result ↔ HoldsAll (valuation at.now) self.now.atoms }
    {
        for block in self.blocks.as_slice() {
            if !hold_all(block.as_slice(), at) {
                return false;
            }
        }
        hold_all(self.own.as_slice(), at)
    }

    /// Whether it is seen that both have the same atoms. It isn't where their blocks end at other
    /// places.
    pub fn is_same(&self, other: &JoinedCube) -> bool
        ensures { IsTrue result → self.now ≡ other.now }
    {
        self.own == other.own && self.blocks.as_slice() == other.blocks.as_slice()
    }
}
