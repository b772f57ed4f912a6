//! Bundles: a source and claims, each with the moves that prove it.

ghost use Rattle.std.specs.Prelude.{◌≡◌};

use c_tree::tree::AssertId;
use infeasible_cert::certificate::Certificate;
use linear_formula::formula::Atoms;
use may_partition::region::RegionEdge;
use query_rules::certificates::Certificates;
use std::marker::Model;
use summary_form::query::Query;

/// What is done to the partition of a claim's query.
#[derive(Drop)]
pub enum Move {
    /// The region that the edge leaves is split by the atoms.
    Split {
        edge: RegionEdge,
        atoms: Atoms,
    },
    /// No step is over the edge, by the certificate.
    Kill {
        edge: RegionEdge,
        by: Certificate,
    },
    /// No call is over the edge: this claim answers the query that the call asks, and each
    /// certificate shows one of the claim's atoms.
    KillCall {
        edge: RegionEdge,
        claim: u32,
        proof: Certificates,
    },
}

/// No run is what the query asks for.
#[derive(Drop)]
pub struct Claim {
    pub query: Query,
    pub moves: Moves,
}

/// Moves in order.
#[derive(Drop)]
pub struct Moves {
    items: Vec<Move>,
}

impl Model for Moves {
    ghost use Rattle.std.specs.Prelude.{List};
    ghost use Rattle.std.specs.Coded.{codes};
    ghost use Rattle.proof_bundle.specs.declared.bundle.Move.{Move};
    ghost use Rattle.infeasible_cert.specs.contracts.certificate.Certificate as e;

    ghost Value = { List Move };

    ghost coded = { Prim.hlevel (codes, e.the_row.coded) };

    ghost view = { λ m. m.items.items };
}

impl Moves {
    /// Takes no memory of its own.
    pub fn from_vec(items: Vec<Move>) -> Moves
        ensures { result ≡ items.items }
    {
        Moves { items }
    }

    pub fn as_slice(&self) -> &[Move]
        ensures { result.now ≡ self.now }
    {
        self.items.as_slice()
    }
}

/// A source, an assertion of it, and claims, the first of which is that no run fails there.
#[derive(Drop)]
pub struct Bundle {
    pub source: Vec<u8>,
    pub id: AssertId,
    pub claims: Vec<Claim>,
}
