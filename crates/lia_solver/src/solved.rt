//! What the solver answers.

ghost use Rattle.std.specs.Prelude.{◌≡◌};

use infeasible_cert::certificate::Certificate;
use linear_formula::assignment::Assignment;
use shadow_elim::limit::{Kept, Limit};
use std::marker::Model;

/// Certificates in order.
#[derive(Drop)]
pub struct Certificates {
    items: Vec<Certificate>,
}

impl Model for Certificates {
    ghost use Rattle.std.specs.Prelude.{List};
    ghost use Rattle.infeasible_cert.specs.declared.certificate.Certificate.{Certificate};

    ghost Value = { List Certificate };

    ghost view = { λ c. c.items.items };

    ghost use Rattle.infeasible_cert.specs.contracts.certificate.Certificate as certificate;
    ghost use Rattle.std.specs.Coded.{codes};

    ghost coded = { Prim.hlevel (codes, certificate.the_row.coded) };
}

impl Certificates {
    /// Takes no memory of its own.
    pub fn from_vec(items: Vec<Certificate>) -> Certificates
        ensures { result ≡ items.items }
    {
        Certificates { items }
    }

    pub fn into_vec(self) -> Vec<Certificate>
        ensures { result.items ≡ self }
    {
        let Certificates { items } = self;
        items
    }

    pub fn as_slice(&self) -> &[Certificate]
        ensures { result.now ≡ self.now }
    {
        self.items.as_slice()
    }
}

/// The answer of a cube.
#[derive(Drop)]
pub enum Solved {
    /// The cube holds here; each of its columns is listed.
    Point(Assignment),
    /// No assignment of 64-bit values meets the cube.
    Never(Certificate),
    /// The plan met this limit.
    Limit(Limit),
}

/// Whether one cube entails another.
#[derive(Drop)]
pub enum Entailed {
    /// For each atom of the right cube a certificate that the left one and its negation are never
    /// met together.
    Yes(Certificates),
    /// The left cube holds here, and the right one doesn't.
    No(Assignment),
    /// The first atom's question that met a limit; those before it were refuted.
    Limit(Kept),
}
