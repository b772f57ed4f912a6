//! Atoms and cubes.

ghost use Rattle.std.specs.Prelude.{◌≡◌, ◌++◌, ◌∷◌, [], ◌↔◌, ℕ, ℤ, unwrap_or, IfOk, OnOk, OnErr, IsErrOf, IsTrue};
ghost use Rattle.std.specs.BTreeMap.{get};
ghost use Rattle.std.specs.Ordering.{nat_cmp};
ghost use Rattle.linear_formula.specs.LinearSum.{value_of, valuation, is_term, is_within};
ghost use Rattle.linear_formula.specs.Results.{substituted, negated, valuation_with, renamed_valuation};
ghost use Rattle.linear_formula.specs.Equality.{same_atom, same_atoms};
ghost use Rattle.linear_formula.specs.Formula.{Holds, HoldsAll, renamed_atoms, renamed_atoms_by, are_within, are_terms, is_renaming};

use crate::assignment::Assignment;
use crate::error::{LinError, OutOfMemory};
use crate::renaming::{NewColumns, new_columns};
use crate::term::Term;
use std::alloc::Global;
use std::marker::Model;

/// Reads: the term is at most 0.
#[derive(Debug, Drop)]
pub struct Atom {
    pub term: Term,
}

/// Atoms in order.
#[derive(Debug, Drop)]
pub struct Atoms {
    items: Vec<Atom>,
}

impl Model for Atoms {
    ghost use Rattle.std.specs.Prelude.{IsTrue, List};
    ghost use Rattle.linear_formula.specs.declared.formula.Atom.{Atom};
    ghost use Rattle.linear_formula.specs.Formula.{are_terms};

    ghost Value = { List Atom };

    ghost view = { λ a. a.items.items };

    ghost invariant = { λ a. IsTrue (are_terms a.items.items) };
}

/// All of the atoms; the empty cube is true.
#[derive(Debug, Drop)]
pub struct Cube {
    pub atoms: Atoms,
}

impl PartialEq for Atom {
    ghost use Rattle.linear_formula.specs.steps.SameValues.{partial, atom-same};

    ghost eq = { same_atom };

    ghost laws = { partial (same_atom) atom-same };

    fn eq(&self, other: &Atom) -> bool
        ensures test { result ≡ same_atom self.now other.now }
        ensures same { IsTrue result ↔ (self.now ≡ other.now) }
    {
        self.term == other.term
    }
}

impl Eq for Atom {
    ghost use Rattle.std.specs.Cmp.{decided};
    ghost use Rattle.linear_formula.specs.steps.SameValues.{atom-same};

    ghost laws = { decided (same_atom) atom-same };
}

impl PartialEq for Atoms {
    ghost use Rattle.linear_formula.specs.steps.SameValues.{partial, atoms-same};

    ghost eq = { same_atoms };

    ghost laws = { partial (same_atoms) atoms-same };

    fn eq(&self, other: &Atoms) -> bool
        ensures test { result ≡ same_atoms self.now other.now }
        ensures same { IsTrue result ↔ (self.now ≡ other.now) }
    {
        self.as_slice() == other.as_slice()
    }
}

impl Eq for Atoms {
    ghost use Rattle.std.specs.Cmp.{decided};
    ghost use Rattle.linear_formula.specs.steps.SameValues.{atoms-same};

    ghost laws = { decided (same_atoms) atoms-same };
}

impl PartialEq for Cube {
    ghost use Rattle.linear_formula.specs.steps.SameValues.{partial, cube-same};

    ghost eq = { λ c d. same_atoms c.atoms d.atoms };

    ghost laws = { partial (λ c d. same_atoms c.atoms d.atoms) cube-same };

    fn eq(&self, other: &Cube) -> bool
        ensures test { result ≡ same_atoms self.now.atoms other.now.atoms }
        ensures same { IsTrue result ↔ (self.now ≡ other.now) }
    {
        self.atoms == other.atoms
    }
}

impl Eq for Cube {
    ghost use Rattle.std.specs.Cmp.{decided};
    ghost use Rattle.linear_formula.specs.steps.SameValues.{cube-same};

    ghost laws = { decided (λ c d. same_atoms c.atoms d.atoms) cube-same };
}

impl Atoms {
    /// No atoms. It takes no memory until the first push.
    pub fn new(alloc: Global) -> Atoms
        ensures { result ≡ [] }
    {
        Atoms {
            items: Vec::new(alloc),
        }
    }

    /// No atoms, with room for n.
    pub fn with_capacity(alloc: Global, n: usize) -> Result<Atoms, OutOfMemory>
        ensures { IfOk result (λ a. a ≡ []) }
    {
        let items = Vec::with_capacity(alloc, n)?;
        Ok(Atoms { items })
    }

    /// Takes no memory of its own.
    pub fn from_vec(items: Vec<Atom>) -> Atoms
        requires { IsTrue (are_terms items.items) }
        ensures { result ≡ items.items }
    {
        Atoms { items }
    }

    /// Puts an atom at the end. Without memory the list stays as it was.
    pub fn push(&mut self, atom: Atom) -> Result<(), OutOfMemory>
        ensures { OnOk result (self.new ≡ self.old ++ atom ∷ []) }
    {
        let _ = atom.term.parts();
        self.items.push(atom)?;
        Ok(())
    }

    /// Moves the atoms of the other to the end. Without memory the list stays as it was.
    pub fn append(&mut self, other: Atoms) -> Result<(), OutOfMemory>
        ensures { OnOk result (self.new ≡ self.old ++ other) }
    {
        let mut items = other.into_vec();
        self.items.append(&mut items)?;
        Ok(())
    }

    /// The atoms, in order.
    pub fn into_vec(self) -> Vec<Atom>
        ensures value { result.items ≡ self }
        ensures terms { IsTrue (are_terms self) }
    {
        let Atoms { items } = self;
        items
    }

    /// The atoms, in order.
    pub fn as_slice(&self) -> &[Atom]
        ensures value { result.now ≡ self.now }
        ensures terms { IsTrue (are_terms self.now) }
    {
        self.items.as_slice()
    }

    /// An equal list in memory of its own.
    pub fn copy(&self, alloc: Global) -> Result<Atoms, OutOfMemory>
        ensures { IfOk result (λ atoms. atoms ≡ self.now) }
    {
        let mut copy = Atoms::with_capacity(alloc, self.items.len())?;
        copy_onto(&mut copy, alloc, self.as_slice())?;
        Ok(copy)
    }
}

impl Atom {
    /// An equal atom in memory of its own.
    pub fn copy(&self, alloc: Global) -> Result<Atom, OutOfMemory>
        ensures { IfOk result (λ atom. atom ≡ self.now) }
    {
        let term = self.term.copy(alloc)?;
        Ok(Atom { term })
    }

    /// Puts a term in the place of a column.
    pub fn substitute(&self, alloc: Global, column: u32, by: &Term) -> Result<Atom, LinError>
        ensures value { IfOk result (λ atom. atom.term ≡ substituted column by.now self.now.term) }
        ensures kept { IfOk result (λ atom. IsTrue (is_term atom.term)) }
        ensures law { IfOk result
            (λ atom. (v : ℕ → ℤ) → value_of v atom.term
            ≡ value_of (valuation_with v column (value_of v by.now)) self.now.term) }
        ensures wide { IsErrOf result LinError.Wide →
            ¬ IsTrue (is_within (substituted column by.now self.now.term)) }
    {
        let term = self.term.substitute(alloc, column, by)?;
        Ok(Atom { term })
    }

    /// Makes `1 - term <= 0` of `term <= 0`.
    pub fn negate(&mut self) -> Result<(), LinError>
        ensures value { OnOk result (self.new.term ≡ negated self.old.term) }
        ensures kept { OnOk result (IsTrue (is_term self.new.term)) }
        ensures law { OnOk result ((v : ℕ → ℤ) → (Holds v self.new ↔ (¬ Holds v self.old))) }
        ensures wide { OnErr result (¬ IsTrue (is_within (negated self.old.term))) }
        ensures unchanged { OnErr result (self.new ≡ self.old) }
        ensures error { IsErrOf result LinError.Memory → ⊥ }
    {
        self.term.negate()
    }

    /// Whether the term is at most 0 there, exactly.
    pub fn holds(&self, at: &Assignment) -> bool
        ensures { IsTrue result ↔ Holds (valuation at.now) self.now }
    {
        self.term.value(at) <= 0
    }
}

/// Whether each of the atoms holds there, exactly.
pub(crate) fn hold_all(atoms: &[Atom], at: &Assignment) -> bool
    ensures { IsTrue result ↔ HoldsAll (valuation at.now) atoms.now }
{
    for atom in atoms {
        if !atom.holds(at) {
            return false;
        }
    }
    true
}

pub(crate) fn copy_onto(out: &mut Atoms, alloc: Global, atoms: &[Atom]) -> Result<(), OutOfMemory>
    ensures { OnOk result (out.new ≡ out.old ++ atoms.now) }
{
    for atom in atoms {
        out.push(atom.copy(alloc)?)?;
    }
    Ok(())
}

fn rename_onto(
    out: &mut Atoms,
    alloc: Global,
    columns: &NewColumns,
    atoms: &[Atom],
) -> Result<(), LinError>
    ensures items { OnOk result
        (out.new ≡ out.old ++ renamed_atoms_by (λ x. unwrap_or (get nat_cmp columns.now x) x)
        atoms.now) }
    ensures within { OnOk result (IsTrue (are_within out.old) → IsTrue (are_within out.new)) }
    ensures wide { IsErrOf result LinError.Wide → ¬ IsTrue
        (are_within (renamed_atoms_by (λ x. unwrap_or (get nat_cmp columns.now x) x) atoms.now)) }
{
    for atom in atoms {
        let term = atom.term.rename(alloc, columns)?;
        out.push(Atom { term })?;
    }
    Ok(())
}

impl Cube {
    /// An equal cube in memory of its own.
    pub fn copy(&self, alloc: Global) -> Result<Cube, OutOfMemory>
        ensures { IfOk result (λ cube. cube ≡ self.now) }
    {
        Ok(Cube {
            atoms: self.atoms.copy(alloc)?,
        })
    }

    /// Whether each atom holds there, exactly; a cube without atoms does.
    pub fn holds(&self, at: &Assignment) -> bool
        ensures { IsTrue result ↔ HoldsAll (valuation at.now) self.now.atoms }
    {
        hold_all(self.atoms.as_slice(), at)
    }

    /// The cube with one more atom.
    pub fn with(&self, alloc: Global, atom: Atom) -> Result<Cube, OutOfMemory>
        ensures { IfOk result (λ cube. cube.atoms ≡ self.now.atoms ++ atom ∷ []) }
    {
        let old = self.atoms.as_slice();
        let mut atoms = Atoms::with_capacity(alloc, old.len() + 1)?;
        copy_onto(&mut atoms, alloc, old)?;
        atoms.push(atom)?;
        Ok(Cube { atoms })
    }

    /// The atoms of both, in order.
    pub fn and(&self, alloc: Global, other: &Cube) -> Result<Cube, OutOfMemory>
        ensures { IfOk result (λ cube. cube.atoms ≡ self.now.atoms ++ other.now.atoms) }
    {
        let left = self.atoms.as_slice();
        let right = other.atoms.as_slice();
        let mut atoms = Atoms::with_capacity(alloc, left.len() + right.len())?;
        copy_onto(&mut atoms, alloc, left)?;
        copy_onto(&mut atoms, alloc, right)?;
        Ok(Cube { atoms })
    }

    /// The atoms of both, in order. Those of the other are moved.
    pub fn followed_by(&self, alloc: Global, other: Cube) -> Result<Cube, OutOfMemory>
        ensures { IfOk result (λ cube. cube.atoms ≡ self.now.atoms ++ other.atoms) }
    {
        let left = self.atoms.as_slice();
        let mut atoms = Atoms::with_capacity(alloc, left.len() + other.atoms.as_slice().len())?;
        copy_onto(&mut atoms, alloc, left)?;
        atoms.append(other.atoms)?;
        Ok(Cube { atoms })
    }

    /// Gives each listed column its new number, all at once; the columns that are not listed keep
    /// theirs.
    pub fn rename(&self, alloc: Global, map: &[(u32, u32)]) -> Result<Cube, LinError>
        requires { IsTrue (is_renaming map.now) }
        ensures value { IfOk result (λ cube. cube.atoms ≡ renamed_atoms map.now self.now.atoms) }
        ensures law { IfOk result
            (λ cube. (v : ℕ → ℤ) →
            (HoldsAll v cube.atoms ↔ HoldsAll (renamed_valuation map.now v) self.now.atoms)) }
        ensures within { IfOk result (λ cube. IsTrue (are_within cube.atoms)) }
        ensures wide { IsErrOf result LinError.Wide →
            ¬ IsTrue (are_within (renamed_atoms map.now self.now.atoms)) }
    {
        let columns = new_columns(alloc, map)?;
        let old = self.atoms.as_slice();
        let mut atoms = Atoms::with_capacity(alloc, old.len())?;
        rename_onto(&mut atoms, alloc, &columns, old)?;
        Ok(Cube { atoms })
    }
}
