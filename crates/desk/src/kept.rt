// Bytes of a line, copied behind a text that lasts.
use std::alloc::AllocError;
use values::literals::{Literal, Span, Value};

// Copies the bytes behind the text, and says where they lie there.
pub fn keep(text: &mut Vec<u8>, bytes: &[u8]) -> Result<Span, AllocError> {
    let start = text.len();
    let len = bytes.len();
    text.extend_from_slice(bytes)?;
    Ok(Span { start, len })
}

// The literal with its text copied behind another.
pub fn keep_literal(
    text: &mut Vec<u8>,
    literal: Literal,
    line: &[u8],
) -> Result<Literal, AllocError> {
    let value = match literal.value {
        Value::String(span) => Value::String(keep(text, span.of(line))?),
        Value::Binary(span) => Value::Binary(keep(text, span.of(line))?),
        other => other,
    };
    Ok(Literal { value, ..literal })
}
