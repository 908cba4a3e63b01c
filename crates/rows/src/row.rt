// What a row answers, however it is made.
ghost use Rattle.std.specs.Prelude.{◌≡◌, ℕ, true, false, List, length};
ghost use Rattle.values.specs.Contents.{content_of, text_inside};
ghost use Rattle.rows.specs.Reached.{RowFunction, said, IfFound, is_extreme};

use values::kinds::Kind;
use values::literals::Literal;
use values::refusals::Reason;

pub trait Row {
    // The row's own text.
    ghost words: { Self → List ℕ };

    // What each accessor reaches: all that a row means to those who ask it.
    ghost reached: { Self → RowFunction };

    // The text that the row's values name places of.
    fn text(&self) -> &[u8]
        ensures is_the_rows_own { result.now ≡ words self.now };

    // The value at the places, counted from the top, under the kind; absent is an answer of its own. The two are parts of
    // an accessor, of which rows do not know.
    fn get(&self, places: &[u16], kind: Kind) -> Result<Option<Literal>, Reason>
        ensures says_what_is_reached { said (words self.now) result ≡ reached self.now places.now kind }
        ensures finds_the_kind_asked { IfFound result (λ l. l.kind ≡ kind) }
        ensures finds_no_extreme { IfFound result (λ l. is_extreme (content_of (words self.now) l.value) ≡ false) }
        ensures finds_text_inside { IfFound result (λ l. text_inside (length (words self.now)) l.value ≡ true) };
}
