//! Certificates of bodies in SSA form: what holds at each point, written down, so that a pass that makes or changes a
//! body shows that it is well formed block by block.
//!
//! Well-formedness speaks of all ways through a body. A certificate names what is available, which handlers are open
//! and in which receive window a point stands, and how far each block is from a look; its demands look at one block and
//! its edges. One induction over ways, proved here, gives the rest.
//!
//! The public functions have no code: the contract of each is a law. Nothing here finds a certificate.
#![tactic(auto)]

ghost use Rattle.ssa_check.specs.Certificate.{CertifiedBodiesAreWellFormed};
ghost use Rattle.ssa_check.specs.Examples.{Examples};

/// A body with a certificate, whose variables are set once each, is well formed.
pub fn certified_bodies_are_well_formed()
    ensures { CertifiedBodiesAreWellFormed }
{}

/// A diamond with a phi has a certificate; bodies with one fault each have none.
#[tactic(auto, using(crate::proofs::Examples::examples))]
pub fn faulty_bodies_have_no_certificate()
    ensures { Examples }
{}
