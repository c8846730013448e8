// Bodies at a stage of the compiler: a stage says which bodies it allows.
ghost use Rattle.std.specs.Prelude.{◌≡◌};
ghost use Rattle.ssa_form.specs.View.{body_view};
ghost use Rattle.ssa_form.specs.WellFormed.{WellFormed};
ghost use Rattle.ssa_form.specs.declared.body.Body as Code;

use crate::body::Body;
use std::marker::PhantomData;

/// A stage allows some bodies, and only well-formed ones.
pub trait Stage {
    ghost allows: { Code.Body → Type 0 };

    ghost is_well_formed: { (b : Code.Body) → allows b → WellFormed (body_view b) };
}

/// A body that its stage allows.
#[derive(Drop)]
pub struct Ssa<P: Stage> {
    body: Body,
    stage: PhantomData<P>,
    ghost allowed: { ∥ P.allows body ∥₁ },
}

impl<P: Stage> Ssa<P> {
    /// It takes no memory.
    pub fn new(body: Body) -> Ssa<P>
        requires { ∥ P.allows body ∥₁ }
        ensures { result.body ≡ body }
    {
        Ssa {
            body,
            stage: PhantomData,
        }
    }

    pub fn body(&self) -> &Body
        ensures same { result.now ≡ self.now.body }
        ensures allowed { ∥ P.allows result.now ∥₁ }
    {
        &self.body
    }

    pub fn into_body(self) -> Body
        ensures same { result ≡ self.body }
        ensures allowed { ∥ P.allows result ∥₁ }
    {
        let Ssa { body, stage: _ } = self;
        body
    }
}

/// The stage of all well-formed bodies.
#[derive(Clone, Copy, Debug)]
pub struct Formed;

impl Stage for Formed {
    ghost allows = { λ b. WellFormed (body_view b) };

    ghost is_well_formed = { λ b h. h };
}
