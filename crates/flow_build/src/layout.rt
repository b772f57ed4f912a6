//! Where the names of a procedure lie.

ghost use Rattle.std.specs.Prelude.{◌≡◌, ◌<◌, ◌∷◌, ◌++◌, IfOk, OnOk};
ghost use Rattle.flow_build.specs.steps.Layouts.{variable_slot, global_slot, global_slots};

use c_tree::tree::Slot;
use flow_graph::graph::Slots;
use std::alloc::{AllocError, Global};

/// How many parameters there are, and how many globals after them.
#[derive(Clone, Copy)]
pub struct Layout {
    pub params: u8,
    pub globals: u8,
}

impl Layout {
    /// The slot of a variable: a parameter keeps its own, the others stand after the globals.
    pub fn variable(self, slot: Slot) -> Slot
        requires { slot < 24 }
        ensures { result ≡ variable_slot self slot }
    {
        if slot < u32::from(self.params) {
            slot
        } else {
            slot + u32::from(self.globals)
        }
    }

    /// The slot of a global.
    pub fn global(self, number: u32) -> Slot
        requires { number < 256 }
        ensures { result ≡ global_slot self number }
    {
        u32::from(self.params) + number
    }
}

/// Adds the slots of the globals.
pub fn push_globals(slots: &mut Vec<Slot>, layout: Layout) -> Result<(), AllocError>
    ensures { OnOk result (slots.new.items ≡ slots.old.items ++ global_slots layout) }
{
    for number in 0..u32::from(layout.globals) {
        slots.push(layout.global(number))?;
    }
    Ok(())
}

/// A slot, and those of the globals after it.
pub fn with_globals(alloc: Global, slot: Slot, layout: Layout) -> Result<Slots, AllocError>
    ensures { IfOk result (λ slots. slots ≡ slot ∷ global_slots layout) }
{
    let mut slots = vec![in alloc; slot]?;
    push_globals(&mut slots, layout)?;
    Ok(Slots::from_vec(slots))
}
