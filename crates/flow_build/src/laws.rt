//! Laws of lowered programs. These functions compute nothing: their contracts say what holds.

ghost use Rattle.flow_build.specs.Lowered.{OneLowering};

/// A program is lowered to one list of graphs.
pub fn one_lowering()
    ensures { OneLowering }
{}
