//! A value that only proofs see. What a part of the server stands for is such a value: a slice of
//! the machine's state, which costs no byte and no step.
#![tactic(auto)]

ghost use base.Fml.{ftrue};

use std::marker::{Brand, Model, PhantomData};

/// A value that only clauses read. It has no bytes.
pub struct Told<T> {
    marker: PhantomData<T>,
    pub ghost value: { T },
}

impl<T> Model for Told<T> {
    ghost also_owns = { λ _. ftrue };
}

impl<T> Drop for Told<T> {
    fn drop(self) {
        let Told { marker: _ } = self;
    }
}

/// What a told value has to be. A call picks it for `Brand`, which every proof may do anew.
pub trait Choice<T> {
    ghost is: { T → Type 0 };
}

impl<T> Choice<T> for Brand {
    ghost use Rattle.std.specs.Prelude.{⊤};

    ghost is = { λ _. ⊤ };
}

/// Some value of which the choice holds, where there is one. A proof of the caller picks the
/// choice, and may name in it what `about` has and nothing else of the caller. Costs nothing.
pub fn choose<T, A, C: Choice<T>>(about: &A) -> Told<T>
    requires { (v : T) × C.is v }
    ensures { C.is result.value }
{
    let _ = about;
    Told {
        marker: PhantomData,
    }
}
