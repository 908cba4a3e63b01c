// Why a call is refused, in every layer, and where.
ghost use Rattle.std.specs.Prelude.{◌≡◌};
ghost use Rattle.values.specs.Refusals.{number_of};

use std::fmt;

#[derive(Clone, Copy, PartialEq, Eq)]
pub enum Reason {
    // the filter's writer
    NoFilter,
    SameFilter,
    OtherFamily,
    OtherStorage,
    TextOutside,
    NameNotFound,
    NameAmbiguous,
    NoAccessor,
    NotFloating,
    NotConvertible { literal: usize },
    TextNotRead { literal: usize },
    // the lender of the tables
    NoNodeLeft,
    LiteralsDontFit,
    BoundTablesTooSmall,
    WorkingTableTooShort,
    UnsoundTables,
    // the schema's author
    SchemaRuleBroken,
    // the row's sender
    PlacePastGroup,
    NoGroup,
    NoValue,
    OutsideRow,
    // the visitor's user
    NotMet,
    VisitorFault { fault: u32 },
}

// A refusal: why, and at which filter, literal, node or field.
#[derive(Clone, Copy, PartialEq, Eq)]
pub struct Refused {
    pub reason: Reason,
    pub place: usize,
}

impl Reason {
    // The number that docs/REFUSALS.md lists the reason under.
    pub fn number(self) -> u8
        ensures is_listed { result ≡ number_of self }
    {
        match self {
            Reason::NoFilter => 1,
            Reason::SameFilter => 2,
            Reason::OtherFamily => 3,
            Reason::OtherStorage => 4,
            Reason::TextOutside => 5,
            Reason::NameNotFound => 6,
            Reason::NameAmbiguous => 7,
            Reason::NoAccessor => 8,
            Reason::NotFloating => 9,
            Reason::NotConvertible { .. } => 10,
            Reason::TextNotRead { .. } => 11,
            Reason::NoNodeLeft => 12,
            Reason::LiteralsDontFit => 13,
            Reason::BoundTablesTooSmall => 14,
            Reason::WorkingTableTooShort => 15,
            Reason::UnsoundTables => 16,
            Reason::SchemaRuleBroken => 17,
            Reason::PlacePastGroup => 18,
            Reason::NoGroup => 19,
            Reason::NoValue => 20,
            Reason::OutsideRow => 21,
            Reason::NotMet => 22,
            Reason::VisitorFault { .. } => 23,
        }
    }

    // The refusal for this reason at the place.
    pub fn at(self, place: usize) -> Refused
        ensures is_for_the_reason { result.reason ≡ self }
        ensures is_at_the_place { result.place ≡ place }
    {
        Refused {
            reason: self,
            place,
        }
    }
}

// The name that docs/REFUSALS.md has for the reason.
impl fmt::Display for Reason {
    fn fmt<W: fmt::Write>(&self, f: &mut fmt::Formatter<W>) -> fmt::Result {
        f.write_str(match self {
            Reason::NoFilter => "no filter",
            Reason::SameFilter => "same filter",
            Reason::OtherFamily => "other family",
            Reason::OtherStorage => "other storage",
            Reason::TextOutside => "text outside",
            Reason::NameNotFound => "name not found",
            Reason::NameAmbiguous => "name ambiguous",
            Reason::NoAccessor => "no accessor",
            Reason::NotFloating => "not floating",
            Reason::NotConvertible { .. } => "not convertible",
            Reason::TextNotRead { .. } => "text not read",
            Reason::NoNodeLeft => "no node left",
            Reason::LiteralsDontFit => "literals don't fit",
            Reason::BoundTablesTooSmall => "bound tables too small",
            Reason::WorkingTableTooShort => "working table too short",
            Reason::UnsoundTables => "unsound tables",
            Reason::SchemaRuleBroken => "schema rule broken",
            Reason::PlacePastGroup => "place past group",
            Reason::NoGroup => "no group",
            Reason::NoValue => "no value",
            Reason::OutsideRow => "outside row",
            Reason::NotMet => "not met",
            Reason::VisitorFault { .. } => "visitor fault",
        })
    }
}

impl fmt::Display for Refused {
    fn fmt<W: fmt::Write>(&self, f: &mut fmt::Formatter<W>) -> fmt::Result {
        let Refused { reason, place } = *self;
        let number = reason.number();
        write!(f, "refused {number} ({reason}) at {place}")?;
        match reason {
            Reason::NotConvertible { literal } | Reason::TextNotRead { literal } => {
                write!(f, ", literal {literal}")
            }
            Reason::VisitorFault { fault } => write!(f, ", fault {fault}"),
            _ => Ok(()),
        }
    }
}
