//! Graphs, edge by edge.

ghost use Rattle.std.specs.Prelude.{◌≡◌};
ghost use Rattle.flow_graph.specs.Shapes.{source, target, is_call};
ghost use Rattle.flow_graph.specs.WellFormed.{IsGraph};

use c_tree::tree::{AssertId, ProcId, Slot};
use linear_formula::formula::Cube;
use std::marker::Model;

/// Coefficients and slots, in order.
#[derive(Debug, Drop)]
pub struct LinParts {
    items: Vec<(i64, Slot)>,
}

impl Model for LinParts {
    ghost use Rattle.std.specs.Prelude.{List, ℕ, ℤ};

    ghost Value = { List (ℤ × ℕ) };

    ghost view = { λ p. p.items.items };
}

impl LinParts {
    /// Takes no memory of its own.
    pub fn from_vec(items: Vec<(i64, Slot)>) -> LinParts
        ensures { result ≡ items.items }
    {
        LinParts { items }
    }

    pub fn as_slice(&self) -> &[(i64, Slot)]
        ensures { result.now ≡ self.now }
    {
        self.items.as_slice()
    }
}

/// The value of at most two parts and a constant.
#[derive(Debug, Drop)]
pub struct Lin {
    pub parts: LinParts,
    pub constant: i64,
}

/// Slots in order.
#[derive(Debug, Drop)]
pub struct Slots {
    items: Vec<Slot>,
}

impl Model for Slots {
    ghost use Rattle.std.specs.Prelude.{List, ℕ};

    ghost Value = { List ℕ };

    ghost view = { λ s. s.items.items };
}

impl Slots {
    /// Takes no memory of its own.
    pub fn from_vec(items: Vec<Slot>) -> Slots
        ensures { result ≡ items.items }
    {
        Slots { items }
    }

    pub fn as_slice(&self) -> &[Slot]
        ensures { result.now ≡ self.now }
    {
        self.items.as_slice()
    }
}

/// A step from one node to the next. Rows are read at the slots.
#[derive(Debug, Drop)]
pub enum Edge {
    /// A frame begins, with `params` entry values in the first slots and 0 in the others.
    Entry {
        to: u32,
        params: u32,
    },
    /// The slot gets the exact value; there is no step where it isn't one of 64 bits.
    Assign {
        from: u32,
        to: u32,
        slot: Slot,
        value: Lin,
    },
    /// The rows hold.
    Guard {
        from: u32,
        to: u32,
        rows: Cube,
    },
    /// The slot gets the next input.
    Input {
        from: u32,
        to: u32,
        slot: Slot,
    },
    /// The slot gets any value with which the rows hold.
    Pick {
        from: u32,
        to: u32,
        slot: Slot,
        rows: Cube,
    },
    /// The procedure runs with the values of `args` as its entry values. Where it returns, the
    /// slots of `results` get its exit values, all at once, the first value in the first slot; no
    /// slot stands there twice. Where it fails, the frame fails.
    Call {
        from: u32,
        to: u32,
        proc: ProcId,
        args: Slots,
        results: Slots,
    },
    /// The rows hold, and the assertion fails.
    Assert {
        from: u32,
        to: u32,
        id: AssertId,
        rows: Cube,
    },
    /// The frame returns the values of these slots, which are its exit values in this order. A slot
    /// may stand there twice.
    Return {
        from: u32,
        to: u32,
        slots: Slots,
    },
}

impl Edge {
    /// The node that it leaves; the entry leaves none.
    pub fn source(&self) -> Option<u32>
        ensures { result ≡ source self.now }
    {
        match self {
            Edge::Entry { .. } => None,
            Edge::Assign { from, .. }
            | Edge::Guard { from, .. }
            | Edge::Input { from, .. }
            | Edge::Pick { from, .. }
            | Edge::Call { from, .. }
            | Edge::Assert { from, .. }
            | Edge::Return { from, .. } => Some(*from),
        }
    }

    /// The node that it leads to. A call leads to `fail` too.
    pub fn target(&self) -> u32
        ensures { result ≡ target self.now }
    {
        match self {
            Edge::Entry { to, .. }
            | Edge::Assign { to, .. }
            | Edge::Guard { to, .. }
            | Edge::Input { to, .. }
            | Edge::Pick { to, .. }
            | Edge::Call { to, .. }
            | Edge::Assert { to, .. }
            | Edge::Return { to, .. } => *to,
        }
    }

    pub fn is_call(&self) -> bool
        ensures { result ≡ is_call self.now }
    {
        matches!(self, Edge::Call { .. })
    }
}

/// Edges in order.
#[derive(Debug, Drop)]
pub struct Edges {
    items: Vec<Edge>,
}

impl Model for Edges {
    ghost use Rattle.std.specs.Prelude.{List};
    ghost use Rattle.flow_graph.specs.declared.graph.Edge.{Edge};

    ghost Value = { List Edge };

    ghost view = { λ e. e.items.items };
}

impl Edges {
    /// Takes no memory of its own.
    pub fn from_vec(items: Vec<Edge>) -> Edges
        ensures { result ≡ items.items }
    {
        Edges { items }
    }

    pub fn as_slice(&self) -> &[Edge]
        ensures { result.now ≡ self.now }
    {
        self.items.as_slice()
    }
}

/// The graph of a procedure. Nodes and slots are numbered from 0; frames end at `exit`, where they
/// return, and at `fail`, where an assertion failed.
#[derive(Drop)]
pub struct Graph {
    pub nodes: u32,
    pub exit: u32,
    pub fail: u32,
    /// How many entry values a frame begins with: of a program's graph the parameters and then the
    /// globals, of `main` none.
    pub params: u32,
    /// How many exit values a frame returns: of a program's graph the result and then the globals.
    pub exits: u32,
    pub slots: u32,
    pub edges: Edges,
    pub ghost well_formed: { IsGraph nodes exit fail params exits slots edges },
}

impl Graph {
    /// The graph of these parts.
    pub fn new(
        nodes: u32,
        exit: u32,
        fail: u32,
        params: u32,
        exits: u32,
        slots: u32,
        edges: Edges,
    ) -> Graph
        requires { IsGraph nodes exit fail params exits slots edges }
        ensures nodes { result.nodes ≡ nodes }
        ensures exit { result.exit ≡ exit }
        ensures fail { result.fail ≡ fail }
        ensures params { result.params ≡ params }
        ensures exits { result.exits ≡ exits }
        ensures slots { result.slots ≡ slots }
        ensures edges { result.edges ≡ edges }
    {
        Graph {
            nodes,
            exit,
            fail,
            params,
            exits,
            slots,
            edges,
        }
    }
}
