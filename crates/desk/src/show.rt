// Refusals in plain words.
use values::refusals::Reason;

// What is wrong, and what to correct.
pub fn advice(reason: Reason) -> &'static str {
    match reason {
        Reason::NoFilter => "no filter stands there; give the number of a standing filter",
        Reason::SameFilter => "one filter on both sides; join two different filters",
        Reason::OtherFamily =>
            "an operator of another family; choose one that takes these literals",
        Reason::OtherStorage =>
            "the value is not what its kind says; mend the value, or a fixed's length",
        Reason::TextOutside => "text outside the bytes that were lent; mend its place",
        Reason::NameNotFound => "no field has that name; write the full name, joined by dots",
        Reason::NameAmbiguous => "two fields have that name when case is ignored; write it exactly",
        Reason::NoAccessor => "a struct, list or map has no value; name a field inside it",
        Reason::NotFloating => "only float and double columns hold not-a-numbers; drop the test",
        Reason::NotConvertible { .. } =>
            "the literal's kind does not go to the column's; write another",
        Reason::TextNotRead { .. } =>
            "text is not read as another kind; write the value in the column's kind",
        Reason::NoNodeLeft => "the table of nodes is full; lend a longer one",
        Reason::LiteralsDontFit => "the table of literals is full; lend a longer one",
        Reason::BoundTablesTooSmall => "the bound tables are too small; lend longer ones",
        Reason::WorkingTableTooShort => "the working table is too short; lend a longer one",
        Reason::UnsoundTables => "the tables were changed from outside; lay the filters anew",
        Reason::SchemaRuleBroken => "this field breaks a rule of schemas; mend it",
        Reason::PlacePastGroup =>
            "the row has fewer cells than the schema has fields; mend the row",
        Reason::NoGroup => "the row has no group where the schema has a struct; mend the row",
        Reason::NoValue => "the row has no value where the schema has one; mend the row",
        Reason::OutsideRow => "a group or a text lies outside the row; mend the row",
        Reason::NotMet => "the filter still holds a Not; rewrite it first",
        Reason::VisitorFault { .. } => "the visitor gave up with a fault of its own",
    }
}
