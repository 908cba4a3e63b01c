// Conditions as they are lent to a visitor.
use nodes::operators::PredicateOperator;
use values::kinds::Kind;
use values::literals::Literal;

// A bound condition, with its parts wherever they lie: what it means is its operator, its bound column and what its
// literals hold.
#[derive(Clone, Copy)]
pub struct Test<'a> {
    pub op: PredicateOperator,
    pub field: u32,
    pub kind: Kind,
    // from the top down to the field
    pub places: &'a [u16],
    pub mandatory: bool,
    // none, the one of a binary operator, or a set's
    pub literals: &'a [Literal],
    // bytes that the literals lie in
    pub text: &'a [u8],
}
