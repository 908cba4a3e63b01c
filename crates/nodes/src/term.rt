// What a condition tests: the column's name before binding, the bound column after.
ghost use Rattle.std.specs.Prelude.{◌≡◌, Bool};
ghost use Rattle.values.specs.Contents.{inside};
ghost use Rattle.nodes.specs.declared.term.Extent.{Extent};

use values::literals::Span;

// How many bytes of text and how many accessor places there are.
#[derive(Clone, Copy)]
pub struct Extent {
    pub text: usize,
    pub places: usize,
}

pub trait Term: Copy {
    // The term lies inside its tables.
    ghost within: { Extent → Self → Bool };

    fn lies_within(self, extent: Extent) -> bool
        ensures asks_its_tables { result ≡ within extent self };
}

// A column's name is a place in the text.
impl Term for Span {
    ghost within = { λ extent name. inside extent.text name };

    fn lies_within(self, extent: Extent) -> bool {
        self.lies_inside(extent.text)
    }
}
