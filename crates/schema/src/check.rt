// The check of a schema.
ghost use Rattle.std.specs.Prelude.{◌≡◌, ◌+◌, ◌<◌, ◌≤◌, true, length, is_ok, IfErr, Decides};
ghost use Rattle.values.specs.declared.refusals.Reason.TheVariants.{SchemaRuleBroken};
ghost use Rattle.schema.specs.Lines.{line};
ghost use Rattle.schema.specs.Rules.{Parent, Shallow, NewNumber, NewName, Keeps, Sound, FirstFault};
ghost use Rattle.schema.specs.Listed.{Formed, ListedNumbers, Listed};
ghost use Rattle.schema.specs.Theorems.{DescentOfLines, DescentOfNames, UniqueNumbers, UniqueNames, Reachable};

use crate::accessor::MAX_PLACES;
use crate::fields::{MAX_FIELDS, Schema, Shape};
use crate::policy::FullNames;
use lists::list::{Offered, offer};
use lists::numbers::Numbers;
use values::refusals::{Reason, Refused};

// The fields before one, each of a number and a full name of its own.
#[derive(Drop)]
struct Seen<'a> {
    schema: Schema<'a>,
    count: usize,
    // two keep-first lists, of numbers and of fields equal by full name; nothing is allocated: fixed memory, and the count
    // beside it
    numbers: [u32; MAX_FIELDS],
    names: [usize; MAX_FIELDS],
    ghost lists_numbers: { ListedNumbers schema.fields.now count numbers },
    ghost lists_names: { Listed count names },
}

impl<'a> Seen<'a> {
    fn none(schema: Schema<'a>) -> Seen<'a>
        ensures is_of_the_schema { result.schema ≡ schema.entry }
        ensures begins_at_the_first { result.count ≡ 0 }
    {
        Seen {
            schema,
            count: 0,
            numbers: [0; MAX_FIELDS],
            names: [0; MAX_FIELDS],
        }
    }

    // Whether the next field has a number and a full name that none before it has; then it is one of those before.
    fn takes_next(&mut self) -> bool
        requires has_room { self.old.count < 128 }
        requires stands_there { self.old.count < length self.old.schema.fields.now }
        ensures decides_that_both_are_new { Decides result (NewNumber self.old.schema.fields.now self.old.count × NewName self.old.schema.fields.now self.old.schema.text.now self.old.count) }
        ensures stays_of_the_schema { self.new.schema ≡ self.old.schema }
        ensures counts_it { result ≡ true → self.new.count ≡ self.old.count + 1 }
    {
        let field = self.count;
        let schema = self.schema;
        // never so: it tells the compiler that the field's own name can be read once for all those before it
        if field >= schema.fields.len() {
            return false;
        }
        let number = schema.field_at(field).number;
        if offer(&Numbers, &mut self.numbers, 0..field, number) != Offered::Kept
            || offer(&FullNames { schema }, &mut self.names, 0..field, field) != Offered::Kept
        {
            return false;
        }
        self.count += 1;
        true
    }
}

impl<'a> Schema<'a> {
    // Whether the parent, if the field has one, is an earlier struct.
    fn has_sound_parent(&self, field: usize) -> bool
        ensures decides_the_parent { Decides result (Parent self.now.fields.now field) }
    {
        // no `is_none_or`: after it a proof knows nothing of what this closure, which calls a method, answered
        let Some(parent) = self.field_at(field).parent else {
            return true;
        };
        parent < field && self.field_at(parent).shape == Shape::Struct
    }

    // Whether the field lies at most so many places deep. Its places themselves are not asked for, and not counted.
    #[tactic(auto, using(crate::proofs::Places::top_length, crate::proofs::Places::under_length))]
    fn lies_within(&self, field: usize, places: usize) -> bool
        ensures decides_the_depth { Decides result (length (line self.now.fields.now field) ≤ places) }
    {
        match self.parent_of(field) {
            None => places > 0,
            Some(parent) => places > 0 && self.lies_within(parent, places - 1),
        }
    }

    // Whether the field, if primitive, has an accessor.
    fn is_shallow(&self, field: usize) -> bool
        ensures decides_the_depth { Decides result (Shallow self.now.fields.now field) }
    {
        !matches!(self.field_at(field).shape, Shape::Primitive(_))
            || self.lies_within(field, MAX_PLACES)
    }

    // Whether the field keeps the rules that ask nothing of other numbers and names.
    fn is_formed(&self, field: usize) -> bool
        ensures decides_the_form { Decides result (Formed self.now.fields.now self.now.text.now field) }
    {
        field < MAX_FIELDS
            && self.has_sound_parent(field)
            && self.field_at(field).name.lies_inside(self.text.len())
            && self.is_shallow(field)
    }

    // Refuses the first field that breaks a rule or repeats a number or a full name.
    pub fn check(&self) -> Result<(), Refused>
        ensures grants_sound_schemas_alone { Decides (is_ok result) (Sound self.now.fields.now self.now.text.now) }
        ensures names_the_first_field_at_fault { IfErr result (λ e. (e.reason ≡ SchemaRuleBroken) × FirstFault self.now.fields.now self.now.text.now e.place) }
        ensures lines_go_by_parents { DescentOfLines self.now.fields.now }
        ensures full_names_go_by_parents { DescentOfNames self.now.fields.now self.now.text.now }
        ensures granted_numbers_are_unique { is_ok result ≡ true → UniqueNumbers self.now.fields.now }
        ensures granted_names_are_unique { is_ok result ≡ true → UniqueNames self.now.fields.now self.now.text.now }
        ensures granted_primitive_fields_have_accessors { is_ok result ≡ true → Reachable self.now.fields.now }
    {
        let mut before = Seen::none(*self);
        // by its place: each rule asks of the field there and of those before it
        for place in 0..self.fields.len() {
            if !self.is_formed(place) || !before.takes_next() {
                return Err(Reason::SchemaRuleBroken.at(place));
            }
        }
        Ok(())
    }
}
