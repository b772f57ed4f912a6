//! Cubes whose copies share their atoms.

ghost use Rattle.std.specs.Prelude.{◌≡◌, ◌++◌, ◌∷◌, [], flat_map, ◌↔◌, IfOk, OnOk, IsTrue};
ghost use Rattle.linear_formula.specs.Equality.{same_atoms};
ghost use Rattle.linear_formula.specs.Formula.{are_terms};
ghost use Rattle.linear_formula.specs.Extremes.{IsOutline};

use crate::error::OutOfMemory;
use crate::extremes::{Extremes, Outline};
use crate::formula::{Atom, Atoms, Cube, copy_onto};
use crate::joined::JoinedCube;
use std::alloc::Global;
use std::marker::Model;
use std::sync::Arc;

/// An atom that its copies share.
#[derive(Debug, Drop)]
pub(crate) struct SharedAtom {
    shared: Arc<Atom>,
}

impl Model for SharedAtom {
    ghost use Rattle.linear_formula.specs.declared.formula.Atom.{Atom};

    ghost Value = { Atom };

    ghost view = { λ a. a.shared.value };
}

/// Atoms in order, which copies share as one.
#[derive(Debug, Drop)]
pub struct Block {
    shared: Arc<Atoms>,
}

impl Model for Block {
    ghost use Rattle.std.specs.Prelude.{List};
    ghost use Rattle.linear_formula.specs.declared.formula.Atom.{Atom};

    ghost Value = { List Atom };

    ghost view = { λ b. b.shared.value };
}

/// Blocks in order, which copies share as one.
#[derive(Debug, Drop)]
pub(crate) struct Blocks {
    shared: Option<Arc<Vec<Block>>>,
}

impl Model for Blocks {
    ghost use Rattle.std.specs.Prelude.{List, [], flat_map, unwrap_or, option_map};
    ghost use Rattle.linear_formula.specs.declared.formula.Atom.{Atom};

    ghost Value = { List Atom };

    ghost view = { λ b. unwrap_or (option_map (λ a. flat_map (λ x. x) a.value.items) b.shared) [] };
}

/// All of the atoms, as a `Cube` has them. A copy takes a pointer for all blocks, two for their
/// extreme rows and one for each atom after the blocks, and no atom anew.
#[derive(Debug, Drop)]
pub struct SharedCube {
    blocks: Blocks,
    /// The extreme rows of the blocks.
    outline: Outline,
    last: Vec<SharedAtom>,
}

impl Model for SharedCube {
    ghost use Rattle.std.specs.Prelude.{IsTrue, ◌++◌};
    ghost use Rattle.linear_formula.specs.declared.formula.Cube.{Cube};
    ghost use Rattle.linear_formula.specs.Formula.{are_terms};
    ghost use Rattle.linear_formula.specs.steps.Outlines.{Outlines};

    ghost Value = { Cube };

    ghost view = { λ c. record { atoms = c.blocks ++ c.last.items } };

    ghost invariant = { λ c. IsTrue (are_terms (c.blocks ++ c.last.items))
        × Outlines c.outline c.blocks };
}

/// How many atoms a block has, or more. A copy takes fewer pointers for the atoms after the blocks
/// where it is smaller, and the list of the blocks is copied more often.
const BLOCK: usize = 32;

impl SharedAtom {
    /// Takes the atom over.
    pub(crate) fn new(alloc: Global, atom: Atom) -> Result<SharedAtom, OutOfMemory>
        ensures { IfOk result (λ a. a ≡ atom) }
    {
        let shared = Arc::new(alloc, atom)?;
        Ok(SharedAtom { shared })
    }

    /// The same atom, shared.
    pub(crate) fn copy(&self) -> Result<SharedAtom, OutOfMemory>
        ensures { IfOk result (λ a. a ≡ self.now) }
    {
        let shared = Arc::try_clone(&self.shared)?;
        Ok(SharedAtom { shared })
    }

    /// What is shared.
    pub(crate) fn atom(&self) -> &Atom
        ensures { result.now ≡ self.now }
    {
        &self.shared
    }
}

impl PartialEq for Block {
    ghost use Rattle.linear_formula.specs.steps.SameValues.{partial, atoms-same};

    ghost eq = { same_atoms };

    ghost laws = { partial (same_atoms) atoms-same };

    fn eq(&self, other: &Block) -> bool
        ensures test { result ≡ same_atoms self.now other.now }
        ensures same { IsTrue result ↔ (self.now ≡ other.now) }
    {
        self.as_slice() == other.as_slice()
    }
}

impl Eq for Block {
    ghost use Rattle.std.specs.Cmp.{decided};
    ghost use Rattle.linear_formula.specs.steps.SameValues.{atoms-same};

    ghost laws = { decided (same_atoms) atoms-same };
}

impl Block {
    /// Takes the atoms over.
    pub(crate) fn new(alloc: Global, atoms: Atoms) -> Result<Block, OutOfMemory>
        ensures { IfOk result (λ b. b ≡ atoms) }
    {
        let shared = Arc::new(alloc, atoms)?;
        Ok(Block { shared })
    }

    /// The same atoms, shared.
    fn copy(&self) -> Result<Block, OutOfMemory>
        ensures { IfOk result (λ b. b ≡ self.now) }
    {
        let shared = Arc::try_clone(&self.shared)?;
        Ok(Block { shared })
    }

    /// The atoms, in order.
    pub fn as_slice(&self) -> &[Atom]
        ensures value { result.now ≡ self.now }
        ensures terms { IsTrue (are_terms self.now) }
    {
        self.shared.as_slice()
    }
}

impl Blocks {
    /// None.
    pub(crate) fn new() -> Blocks
        ensures { result ≡ [] }
    {
        Blocks { shared: None }
    }

    /// The blocks, in order.
    pub(crate) fn as_slice(&self) -> &[Block]
        ensures { flat_map (λ b. b) result.now ≡ self.now }
    {
        match &self.shared {
            Some(blocks) => blocks.as_slice(),
            None => &[],
        }
    }

    /// The same blocks, shared.
    pub(crate) fn copy(&self) -> Result<Blocks, OutOfMemory>
        ensures { IfOk result (λ b. b ≡ self.now) }
    {
        let shared = match &self.shared {
            Some(blocks) => Some(Arc::try_clone(blocks)?),
            None => None,
        };
        Ok(Blocks { shared })
    }

    /// The blocks with one more.
    pub(crate) fn with(&self, alloc: Global, block: Block) -> Result<Blocks, OutOfMemory>
        ensures { IfOk result (λ b. b ≡ self.now ++ block) }
    {
        let old = self.as_slice();
        let mut all = Vec::with_capacity(alloc, old.len() + 1)?;
        for block in old {
            all.push(block.copy()?)?;
        }
        all.push(block)?;
        let shared = Some(Arc::new(alloc, all)?);
        Ok(Blocks { shared })
    }
}

impl SharedCube {
    /// No atoms. It takes no memory.
    pub fn new(alloc: Global) -> SharedCube
        ensures { result.atoms ≡ [] }
    {
        SharedCube {
            blocks: Blocks::new(),
            outline: Outline::new(),
            last: Vec::new(alloc),
        }
    }

    /// Puts an atom at the end.
    fn push(&mut self, alloc: Global, atom: SharedAtom) -> Result<(), OutOfMemory>
        ensures { OnOk result (self.new.atoms ≡ self.old.atoms ++ atom ∷ []) }
    {
        let _ = atom.atom().term.parts();
        self.last.push(atom)?;
        if self.last.len() >= BLOCK {
            self.close(alloc)?;
        }
        Ok(())
    }

    /// The atoms after the last block become a block.
    fn close(&mut self, alloc: Global) -> Result<(), OutOfMemory>
        ensures { OnOk result (self.new ≡ self.old) }
    {
        *self = self.closed_with(alloc, &[])?;
        Ok(())
    }

    /// The atoms after the last block, and these, become a block.
    fn closed_with(&self, alloc: Global, more: &[Atom]) -> Result<SharedCube, OutOfMemory>
        ensures { IfOk result (λ c. c.atoms ≡ self.now.atoms ++ more.now) }
    {
        let mut atoms = unshared(alloc, &self.last, more.len())?;
        copy_onto(&mut atoms, alloc, more)?;
        let outline = self.outline.with(alloc, atoms.as_slice())?;
        let block = Block::new(alloc, atoms)?;
        let blocks = self.blocks.with(alloc, block)?;
        Ok(SharedCube {
            blocks,
            outline,
            last: Vec::new(alloc),
        })
    }

    /// What is kept of each cube: its rows are terms.
    pub fn keeps_terms(&self)
        ensures { IsTrue (are_terms self.now.atoms) }
    {
        let _ = self.last.len();
    }

    /// The atoms of the cube, which are copied.
    pub fn of(alloc: Global, cube: &Cube) -> Result<SharedCube, OutOfMemory>
        ensures { IfOk result (λ c. c ≡ cube.now) }
    {
        SharedCube::new(alloc).and(alloc, cube)
    }

    /// The same cube, which shares the atoms.
    pub fn copy(&self, alloc: Global) -> Result<SharedCube, OutOfMemory>
        ensures { IfOk result (λ c. c ≡ self.now) }
    {
        let blocks = self.blocks.copy()?;
        let outline = self.outline.copy()?;
        let last = shared_atoms(alloc, &self.last)?;
        Ok(SharedCube {
            blocks,
            outline,
            last,
        })
    }

    /// The cube with one more atom. The others are shared.
    pub fn with(&self, alloc: Global, atom: Atom) -> Result<SharedCube, OutOfMemory>
        ensures { IfOk result (λ c. c.atoms ≡ self.now.atoms ++ atom ∷ []) }
    {
        let mut all = self.copy(alloc)?;
        all.push(alloc, SharedAtom::new(alloc, atom)?)?;
        Ok(all)
    }

    /// The atoms of both, in order. Its own are shared, and the other's are copied. Where they are
    /// many, all that are after the last block become a block.
    pub fn and(&self, alloc: Global, other: &Cube) -> Result<SharedCube, OutOfMemory>
        ensures { IfOk result (λ c. c.atoms ≡ self.now.atoms ++ other.now.atoms) }
    {
        let more = other.atoms.as_slice();
        if self.last.len().saturating_add(more.len()) >= BLOCK {
            return self.closed_with(alloc, more);
        }
        let mut all = self.copy(alloc)?;
        copies_onto(&mut all, alloc, more)?;
        Ok(all)
    }

    /// An equal cube in memory of its own.
    pub fn to_cube(&self, alloc: Global) -> Result<Cube, OutOfMemory>
        ensures { IfOk result (λ c. c ≡ self.now) }
    {
        let atoms = self.copied(alloc, 0)?;
        Ok(Cube { atoms })
    }

    /// Whether the cube has full blocks, so that it has more rows than its extreme ones may be.
    pub fn is_long(&self) -> bool {
        !self.blocks.as_slice().is_empty()
    }

    /// Extreme rows of the cube: those of the blocks, and the rows after them.
    pub fn extremes(&self, alloc: Global) -> Result<Extremes, OutOfMemory>
        ensures { IfOk result (λ e. IsOutline e self.now.atoms) }
    {
        self.outline.extremes(alloc, &self.last)
    }

    /// The atoms of both, in order. The full blocks are shared, the atoms after them are copied,
    /// and those of the other are moved.
    pub fn joined(&self, alloc: Global, other: Cube) -> Result<JoinedCube, OutOfMemory>
        ensures { IfOk result (λ c. c.atoms ≡ self.now.atoms ++ other.atoms) }
    {
        let blocks = self.blocks.copy()?;
        let mut own = unshared(alloc, &self.last, other.atoms.as_slice().len())?;
        own.append(other.atoms)?;
        Ok(JoinedCube::new(blocks, own))
    }

    /// The atoms of both, in order, in memory of their own. Those of the other are moved.
    pub fn cube_with(&self, alloc: Global, other: Cube) -> Result<Cube, OutOfMemory>
        ensures { IfOk result (λ c. c.atoms ≡ self.now.atoms ++ other.atoms) }
    {
        let mut atoms = self.copied(alloc, other.atoms.as_slice().len())?;
        atoms.append(other.atoms)?;
        Ok(Cube { atoms })
    }

    /// Copies of the atoms, with room for `more` others.
    fn copied(&self, alloc: Global, more: usize) -> Result<Atoms, OutOfMemory>
        ensures { IfOk result (λ atoms. atoms ≡ self.now.atoms) }
    {
        let blocks = self.blocks.as_slice();
        let full = self.outline.count();
        let room = full.saturating_add(self.last.len()).saturating_add(more);
        let mut atoms = Atoms::with_capacity(alloc, room)?;
        for block in blocks {
            copy_onto(&mut atoms, alloc, block.as_slice())?;
        }
        unshared_onto(&mut atoms, alloc, &self.last)?;
        Ok(atoms)
    }
}

/// The same atoms, with room for one more.
fn shared_atoms(alloc: Global, atoms: &[SharedAtom]) -> Result<Vec<SharedAtom>, OutOfMemory>
    ensures { IfOk result (λ all. all.items ≡ atoms.now) }
{
    let mut all = Vec::with_capacity(alloc, atoms.len().saturating_add(1))?;
    for atom in atoms {
        all.push(atom.copy()?)?;
    }
    Ok(all)
}

/// Adds copies of the atoms.
fn copies_onto(out: &mut SharedCube, alloc: Global, atoms: &[Atom]) -> Result<(), OutOfMemory>
    ensures { OnOk result (out.new.atoms ≡ out.old.atoms ++ atoms.now) }
{
    for atom in atoms {
        out.push(alloc, SharedAtom::new(alloc, atom.copy(alloc)?)?)?;
    }
    Ok(())
}

/// Copies of shared atoms, with room for `more` others.
fn unshared(alloc: Global, atoms: &[SharedAtom], more: usize) -> Result<Atoms, OutOfMemory>
    ensures { IfOk result (λ all. all ≡ atoms.now) }
{
    let mut all = Atoms::with_capacity(alloc, atoms.len().saturating_add(more))?;
    unshared_onto(&mut all, alloc, atoms)?;
    Ok(all)
}

/// Adds copies of shared atoms.
fn unshared_onto(out: &mut Atoms, alloc: Global, atoms: &[SharedAtom]) -> Result<(), OutOfMemory>
    ensures { OnOk result (out.new ≡ out.old ++ atoms.now) }
{
    for atom in atoms {
        out.push(atom.atom().copy(alloc)?)?;
    }
    Ok(())
}
