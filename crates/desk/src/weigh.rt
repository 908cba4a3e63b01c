// Literals compared and converted.
use crate::failure::Failure;
use comparison::checked;
use comparison::data::Datum;
use conversion::checked::convert_alone;
use std::cmp::Ordering;
use values::kinds::Kind;
use values::literals::Literal;

pub fn equal(rt: &HostRuntime, a: Literal, b: Literal, line: &[u8]) -> Result<(), Failure> {
    let stands = if checked::equal(a, b, line)? {
        "equals"
    } else {
        "does not equal"
    };
    say_both(rt, &Datum::new(a, line), stands, &Datum::new(b, line))
}

pub fn compare(rt: &HostRuntime, a: Literal, b: Literal, line: &[u8]) -> Result<(), Failure> {
    let stands = match checked::compare(a, b, line)? {
        Some(Ordering::Less) => "comes before",
        Some(Ordering::Equal) => "stands level with",
        Some(Ordering::Greater) => "comes after",
        None => "does not compare with",
    };
    say_both(rt, &Datum::new(a, line), stands, &Datum::new(b, line))
}

fn say_both(rt: &HostRuntime, a: &Datum, stands: &str, b: &Datum) -> Result<(), Failure> {
    println!(rt; "   {a} {stands} {b}")?;
    Ok(())
}

pub fn convert(rt: &HostRuntime, literal: Literal, to: Kind, line: &[u8]) -> Result<(), Failure> {
    let converted = convert_alone(literal, to, line)?;
    let before = Datum::new(literal, line);
    let after = Datum::new(converted, line);
    println!(rt; "   {before} in a column of {to} is {after}")?;
    Ok(())
}
