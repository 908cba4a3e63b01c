// totalOrder and its equality, one text for both widths.
ghost use Rattle.std.specs.Prelude.{◌≡◌, false, T, Decides, ◌==◌, is_nan, Float};
ghost use Rattle.std.specs.declared.cmp.Ordering.TheVariants.{Equal};
ghost use Rattle.std.specs.Float.Ieee.{lt, fits};
ghost use Rattle.std.specs.Float.{is_sign_negative, Format};
ghost use Rattle.floats.specs.TotalOrder.{placed, Lawful};
ghost use Rattle.floats.specs.Patterns.{rank, rank_order};

use std::cmp::Ordering;

// A binary floating type: its format, and the datum that a value of it is.
// Each width calls its own tests: of num_traits' `Float`, which has them, nothing says that a value fits the format. No
// `PartialOrd` above it, so that a type whose own order or equality is another can be one.
pub trait Floating: Copy {
    ghost format: { Format };

    ghost datum: { Self → Float };

    fn is_not_a_number(self) -> bool
        ensures tells { result ≡ is_nan (datum self) }
        ensures is_of_the_format { T (fits format (datum self)) };

    // Whether the number is the lesser, where both are numbers and differ.
    fn is_less(self, other: Self) -> bool
        ensures tells { result ≡ lt (datum self) (datum other) };

    // Whether a number's sign is negative; a zero has one too.
    fn is_negative(self) -> bool
        ensures tells_of_a_number { is_nan (datum self) ≡ false → result ≡ is_sign_negative (datum self) };
}

// Where `a` stands to `b`, by the tests of the standard's clauses.
fn place<F: Floating>(a: F, b: F) -> Ordering
    ensures is_total_order { result ≡ placed (F.datum a) (F.datum b) }
    ensures both_are_of_the_format { T (fits F.format (F.datum a)) × T (fits F.format (F.datum b)) }
{
    match (a.is_not_a_number(), b.is_not_a_number()) {
        // the not-a-number comes last
        (true, true) => Ordering::Equal,
        (true, false) => Ordering::Greater,
        (false, true) => Ordering::Less,
        (false, false) => {
            if a.is_less(b) {
                Ordering::Less
            } else if b.is_less(a) {
                Ordering::Greater
            } else {
                // of equal numbers only the zeros differ, by their signs
                b.is_negative().cmp(&a.is_negative())
            }
        }
    }
}

// Where `a` stands to `b`.
pub fn total_cmp<F: Floating>(a: F, b: F) -> Ordering
    ensures is_total_order { result ≡ placed (F.datum a) (F.datum b) }
    ensures goes_by_bit_patterns { result ≡ rank_order (rank F.format (F.datum a)) (rank F.format (F.datum b)) }
    ensures obeys_the_laws { Lawful F.format }
{
    place(a, b)
}

// Whether totalOrder puts neither first.
pub fn same<F: Floating>(a: F, b: F) -> bool
    ensures puts_neither_first { Decides result (placed (F.datum a) (F.datum b) ≡ Equal) }
    ensures is_of_one_datum { Decides result (F.datum a ≡ F.datum b) }
    ensures compares_bit_patterns { result ≡ (rank F.format (F.datum a) == rank F.format (F.datum b)) }
{
    place(a, b).is_eq()
}
