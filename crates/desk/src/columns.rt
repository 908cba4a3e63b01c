// The schema that is being typed, and what is found in it.
use crate::failure::Failure;
use crate::kept::keep;
use crate::row::RowSheet;
use commands::command::Column;
use comparison::data::Datum;
use comparison::text::Text;
use schema::fields::{Field, Schema, Shape};
use std::alloc::Global;

#[derive(Drop)]
pub struct Columns {
    fields: Vec<Field>,
    names: Vec<u8>,
}

// Neither type is of this crate, so it cannot give them a `From`.
pub fn shape_of(column: Column) -> Shape {
    match column {
        Column::Primitive(kind) => Shape::Primitive(kind),
        Column::Struct => Shape::Struct,
        Column::List => Shape::ListOrMap,
    }
}

impl Columns {
    pub fn new(heap: Global) -> Columns {
        Columns {
            fields: Vec::new(heap),
            names: Vec::new(heap),
        }
    }

    fn as_schema(&self) -> Schema<'_> {
        Schema {
            fields: self.fields.as_slice(),
            text: self.names.as_slice(),
        }
    }

    // One field more, under the name.
    pub fn add(&mut self, rt: &HostRuntime, name: &[u8], field: Field) -> Result<(), Failure> {
        let place = self.fields.len();
        let span = keep(&mut self.names, name)?;
        self.fields.push(Field {
            name: span,
            ..field
        })?;
        let shown = Text(name);
        println!(rt; "   {shown} is field {place}")?;
        Ok(())
    }

    pub fn check(&self, rt: &HostRuntime) -> Result<(), Failure> {
        self.as_schema().check()?;
        let count = self.fields.len();
        println!(rt; "   the schema of {count} fields keeps every rule")?;
        Ok(())
    }

    // Says where a field lies in a row.
    pub fn find(&self, rt: &HostRuntime, name: &[u8], any_case: bool) -> Result<(), Failure> {
        let schema = self.as_schema();
        schema.check()?;
        let field = if any_case {
            schema.field_by_name_case_insensitive(name)?
        } else {
            schema.field_by_name(name)?
        };
        let accessor = schema.accessor(field)?;
        let shown = Text(name);
        let kind = accessor.kind();
        print!(rt; "   {shown} is field {field}, of kind {kind}, at")?;
        for place in accessor.places() {
            print!(rt; " {place}")?;
        }
        println!(rt; "")?;
        Ok(())
    }

    // Reads a column from the row.
    pub fn get(&self, rt: &HostRuntime, row: &RowSheet, name: &[u8]) -> Result<(), Failure> {
        let schema = self.as_schema();
        schema.check()?;
        let accessor = schema.accessor(schema.field_by_name(name)?)?;
        let row = row.as_row();
        match row.look_up(accessor.places(), accessor.kind())? {
            None => println!(rt; "   absent")?,
            Some(literal) => {
                let value = Datum::new(literal, row.text);
                println!(rt; "   {value}")?
            }
        }
        Ok(())
    }
}
