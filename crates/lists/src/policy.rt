// What a keep-first list asks of its elements.
ghost use Rattle.std.specs.Prelude.{◌≡◌, Bool, true};

// A test of a later element against an earlier one. The policy that implements it may hold what the elements refer to,
// as the text, and elements of one type may have several. The laws stand in traits of their own.
pub trait Test {
    type Item: Copy;

    ghost passed: { Self → Self.Item → Self.Item → Bool };

    fn passes(&self, earlier: &Self::Item, later: &Self::Item) -> bool
        ensures tells { result ≡ passed self.now earlier.now later.now };
}

// A test that each element passes against itself.
pub trait Reflexive: Test {
    ghost reflexive: { (s : Self) (x : Self.Item) → Self.Test.passed s x x ≡ true };
}

// A test that is an equality.
pub trait Equality: Reflexive {
    ghost symmetric: { (s : Self) (x y : Self.Item) → Self.Test.passed s x y ≡ true → Self.Test.passed s y x ≡ true };

    ghost transitive: { (s : Self) (x y z : Self.Item) → Self.Test.passed s x y ≡ true → Self.Test.passed s y z ≡ true → Self.Test.passed s x z ≡ true };
}
