// Plain numbers, equal if they are the same.
ghost use Rattle.std.specs.Prelude.{◌==◌};
ghost use Rattle.std.proofs.Common.{rules};

use crate::policy::{Equality, Reflexive, Test};

#[derive(Clone, Copy)]
pub struct Numbers;

impl Test for Numbers {
    type Item = u32;

    ghost passed = { λ _ a b. (a == b) };

    fn passes(&self, earlier: &u32, later: &u32) -> bool {
        *earlier == *later
    }
}

impl Reflexive for Numbers {
    ghost reflexive = { Prim.search rules };
}

impl Equality for Numbers {
    ghost symmetric = { Prim.search rules };

    ghost transitive = { Prim.search rules };
}
