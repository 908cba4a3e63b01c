// The wider of the two formats.
ghost use Rattle.std.specs.Float.{binary64};

use crate::order::Floating;

// Beside the other width an instance of one trait: each calls its own tests.
impl Floating for f64 {
    ghost format = { binary64 };

    ghost datum = { λ x. x };

    fn is_not_a_number(self) -> bool {
        self.is_nan()
    }

    fn is_less(self, other: f64) -> bool {
        self < other
    }

    fn is_negative(self) -> bool {
        !self.is_nan() && self.is_sign_negative()
    }
}
