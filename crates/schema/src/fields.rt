// A schema as its author hands it in: in any state, until it is checked.
use values::kinds::Kind;
use values::literals::Span;

// What a field holds.
#[derive(Clone, Copy, PartialEq, Eq)]
pub enum Shape {
    Primitive(Kind),
    Struct,
    ListOrMap,
}

#[derive(Clone, Copy)]
pub struct Field {
    pub number: u32,
    // the field's own name, a place in the schema's text
    pub name: Span,
    pub required: bool,
    // the struct that it stands in, an earlier field of the table; a top field has none
    pub parent: Option<usize>,
    pub shape: Shape,
}

#[derive(Clone, Copy)]
pub struct Schema<'a> {
    pub fields: &'a [Field],
    pub text: &'a [u8],
}

// A schema has at most so many fields.
pub const MAX_FIELDS: usize = 128;
