//! Calls as they stand on edges.

ghost use Rattle.std.specs.Prelude.{◌≡◌, true};
ghost use Rattle.flow_graph.specs.Calls.{call_site};
ghost use Rattle.flow_graph.specs.Shapes.{is_call};

use crate::graph::Edge;
use c_tree::tree::{ProcId, Slot};
use std::marker::Model;

/// The called procedure, the slots whose values are the entry values, and those that get the exit
/// values.
#[derive(Debug, Drop)]
pub struct CallSite<'a> {
    procedure: ProcId,
    arguments: &'a [Slot],
    results: &'a [Slot],
}

impl<'a> Model for CallSite<'a> {
    ghost use Rattle.flow_graph.specs.Calls.{CallSite as Call};

    ghost Value = { Call };

    ghost view = { λ s. record {
      procedure = s.procedure;
      arguments = s.arguments.now;
      results = s.results.now;
    } };
}

impl<'a> CallSite<'a> {
    /// The call of an edge.
    pub fn of(call: &'a Edge) -> CallSite<'a>
        requires { is_call call.now ≡ true }
        ensures { result ≡ call_site call.now }
    {
        match call {
            Edge::Call {
                proc,
                args,
                results,
                ..
            } => CallSite {
                procedure: *proc,
                arguments: args.as_slice(),
                results: results.as_slice(),
            },
            _ => unreachable!(),
        }
    }

    pub fn procedure(&self) -> ProcId
        ensures { result ≡ self.now.procedure }
    {
        self.procedure
    }

    pub fn arguments(&self) -> &'a [Slot]
        ensures { result.now ≡ self.now.arguments }
    {
        self.arguments
    }

    pub fn results(&self) -> &'a [Slot]
        ensures { result.now ≡ self.now.results }
    {
        self.results
    }
}
