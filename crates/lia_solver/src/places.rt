//! Lists of places that take no memory while they are short.

ghost use Rattle.std.specs.Prelude.{◌≡◌, ◌++◌, ◌∷◌, [], OnOk};

use linear_formula::error::OutOfMemory;
use std::alloc::Global;
use std::marker::Model;

/// How long a short list is.
const SHORT: usize = 8;

/// Places: the first `count` ones of `few`, or all of `many` where there are more.
#[derive(Drop)]
pub struct Places {
    few: [usize; SHORT],
    count: usize,
    many: Vec<usize>,
}

impl Model for Places {
    ghost use Rattle.std.specs.Prelude.{◌≤◌, List, ℕ};
    ghost use Rattle.lia_solver.specs.steps.Places.{places_of};

    ghost Value = { List ℕ };

    ghost view = { λ p. places_of p.count p.few p.many.items };

    ghost invariant = { λ p. p.count ≤ 8 };
}

impl Places {
    pub fn new(alloc: Global) -> Places
        ensures { result ≡ [] }
    {
        Places {
            few: [0; SHORT],
            count: 0,
            many: Vec::new(alloc),
        }
    }

    pub fn clear(&mut self)
        ensures { self.new ≡ [] }
    {
        self.count = 0;
        self.many.clear();
    }

    pub fn push(&mut self, place: usize) -> Result<(), OutOfMemory>
        ensures { OnOk result (self.new ≡ self.old ++ place ∷ []) }
    {
        if self.many.is_empty() {
            if self.count < SHORT {
                self.few[self.count] = place;
                self.count += 1;
                return Ok(());
            }
            self.many.extend_from_slice(&self.few)?;
        }
        self.many.push(place)?;
        Ok(())
    }

    pub fn as_slice(&self) -> &[usize]
        ensures { result.now ≡ self.now }
    {
        if self.many.is_empty() {
            &self.few[..self.count]
        } else {
            &self.many
        }
    }
}
