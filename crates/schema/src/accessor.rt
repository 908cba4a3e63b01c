// The accessor of a primitive field.
ghost use Rattle.std.specs.Prelude.{◌≡◌, ◌+◌, ◌≤◌, ◌∷◌, [], ◌++◌, take, Decides, MatchOption};

use values::kinds::Kind;

// A field lies at most so many places deep.
pub const MAX_PLACES: usize = 8;

// The places from the top, group by group, and the kind of what is found.
#[derive(Clone, Copy)]
pub struct StructAccessor {
    // nothing is allocated, and it is copied: fixed memory, and the count beside it
    pub(crate) places: [u16; MAX_PLACES],
    pub(crate) count: usize,
    pub(crate) kind: Kind,
    ghost within: { count ≤ 8 },
}

impl StructAccessor {
    // An accessor of no place yet.
    pub(crate) fn of_kind(kind: Kind) -> StructAccessor
        ensures has_no_place { result.count ≡ 0 }
        ensures is_of_the_kind { result.kind ≡ kind }
    {
        StructAccessor {
            places: [0; MAX_PLACES],
            count: 0,
            kind,
        }
    }

    // Whether it has no room for a place more.
    pub(crate) fn is_full(&self) -> bool
        ensures asks_for_eight { Decides result (self.now.count ≡ 8) }
    {
        self.count == MAX_PLACES
    }

    // The accessor with one more place, if it has room.
    pub(crate) fn then(self, place: u16) -> Option<StructAccessor>
        ensures has_one_more { MatchOption result (self.count ≡ 8) (λ a. (a.count ≡ self.count + 1) × (take a.count a.places ≡ take self.count self.places ++ (place ∷ [])) × (a.kind ≡ self.kind)) }
    {
        let StructAccessor {
            mut places,
            count,
            kind,
        } = self;
        if count >= MAX_PLACES {
            return None;
        }
        places[count] = place;
        Some(StructAccessor {
            places,
            count: count + 1,
            kind,
        })
    }

    pub fn places(&self) -> &[u16]
        ensures are_those_in_use { result.now ≡ take self.now.count self.now.places }
    {
        &self.places[0..self.count]
    }

    pub fn kind(&self) -> Kind
        ensures is_the_fields { result ≡ self.now.kind }
    {
        self.kind
    }
}
