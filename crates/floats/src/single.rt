// The narrower of the two formats.
ghost use Rattle.std.specs.Float.{binary32};

use crate::order::Floating;

// Beside the other width an instance of one trait: each calls its own tests.
impl Floating for f32 {
    ghost format = { binary32 };

    ghost datum = { λ x. x };

    fn is_not_a_number(self) -> bool {
        self.is_nan()
    }

    fn is_less(self, other: f32) -> bool {
        self < other
    }

    fn is_negative(self) -> bool {
        !self.is_nan() && self.is_sign_negative()
    }
}
