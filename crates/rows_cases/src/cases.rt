// Each test asks a row and looks at the answers.
use rows::cell_row::CellRow;
use rows::cells::Cell;
use rows::row::Row;
use values::kinds::Kind;
use values::literals::{Literal, Span, Value};

const SEVEN: Cell = Cell::Value(Value::Int(7));

fn textless(cells: &[Cell], top: usize) -> CellRow<'_> {
    CellRow {
        cells,
        top,
        text: b"",
    }
}

// Whether each path is refused under the number.
fn refuses<R: Row, const N: usize>(row: &R, paths: &[[u16; N]], number: u8) -> bool {
    paths.iter().all(
        |path| matches!(row.get(path, Kind::Int), Err(reason) if reason.number() == number),
    )
}

fn is_absent<R: Row>(row: &R, path: &[u16]) -> bool {
    matches!(row.get(path, Kind::Int), Ok(None))
}

fn is_seven<R: Row>(row: &R, path: &[u16]) -> bool {
    matches!(
        row.get(path, Kind::Int),
        Ok(Some(Literal {
            kind: Kind::Int,
            value: Value::Int(7)
        }))
    )
}

fn is_text<R: Row>(row: &R, path: &[u16], bytes: &[u8]) -> bool {
    let Ok(Some(found)) = row.get(path, Kind::String) else {
        return false;
    };
    match found.value {
        Value::String(span) | Value::Binary(span) => span.of(row.text()) == bytes,
        _ => false,
    }
}

#[test]
fn found_through_groups(rt: HostRuntime) {
    let cells = [
        SEVEN,
        Cell::Group { start: 2, count: 2 },
        Cell::Null,
        Cell::Group { start: 4, count: 1 },
        SEVEN,
    ];
    let row = textless(&cells, 2);
    assert!(rt; is_seven(&row, &[0]));
    assert!(rt; is_absent(&row, &[1, 0]));
    assert!(rt;
        is_seven(&row, &[1, 1, 0]),
        "in a group that ends with the table"
    );
}

#[test]
fn eight_places_deep(rt: HostRuntime) {
    let cells = [
        Cell::Group { start: 1, count: 1 },
        Cell::Group { start: 2, count: 1 },
        Cell::Group { start: 3, count: 1 },
        Cell::Group { start: 4, count: 1 },
        Cell::Group { start: 5, count: 1 },
        Cell::Group { start: 6, count: 1 },
        Cell::Group { start: 7, count: 1 },
        SEVEN,
    ];
    assert!(rt; is_seven(&textless(&cells, 1), &[0; 8]));
}

#[test]
fn place_past_the_group(rt: HostRuntime) {
    let cells = [
        Cell::Group { start: 2, count: 1 },
        // empty, at the end of the table
        Cell::Group { start: 3, count: 0 },
        SEVEN,
    ];
    let row = textless(&cells, 2);
    assert!(rt; refuses(&row, &[[2]], 18));
    assert!(rt; refuses(&row, &[[0, 1], [1, 0]], 18));
}

#[test]
fn no_group_at_a_nested_place(rt: HostRuntime) {
    let cells = [Cell::Null, SEVEN, Cell::ListOrMap];
    assert!(rt; refuses(&textless(&cells, 3), &[[0, 0], [1, 0], [2, 0]], 19));
}

#[test]
fn no_value_at_the_last_place(rt: HostRuntime) {
    let cells = [
        // not followed, so it may lie anywhere
        Cell::Group { start: 9, count: 9 },
        Cell::ListOrMap,
        Cell::Value(Value::AboveMax),
        Cell::Value(Value::BelowMin),
    ];
    let row = textless(&cells, 4);
    assert!(rt; refuses(&row, &[[0], [1], [2], [3]], 20));
    assert!(rt; refuses(&row, &[[]], 20), "no places");
}

#[test]
fn group_outside_the_row(rt: HostRuntime) {
    let cells = [
        Cell::Group { start: 5, count: 1 },
        Cell::Group { start: 4, count: 2 },
        Cell::Group {
            start: usize::MAX,
            count: usize::MAX,
        },
        // at its own cell, and before it
        Cell::Group { start: 3, count: 1 },
        Cell::Group { start: 0, count: 1 },
    ];
    let row = textless(&cells, 5);
    assert!(rt; refuses(&row, &[[0, 0], [1, 0], [2, 0], [3, 0], [4, 0]], 21));
    assert!(rt;
        refuses(&row, &[[1, 2]], 21),
        "before the place past the group"
    );
}

#[test]
fn top_group_and_the_table(rt: HostRuntime) {
    let cells = [SEVEN];
    let row = textless(&cells, 1);
    assert!(rt; is_seven(&row, &[0]));
    assert!(rt; refuses(&CellRow { top: 0, ..row }, &[[0]], 18));
    assert!(rt; refuses(&CellRow { top: 2, ..row }, &[[0]], 21));
}

#[test]
fn cells_past_the_row(rt: HostRuntime) {
    let mut cells = [Cell::Null; 1025];
    cells[0] = Cell::Group {
        start: 1023,
        count: 1,
    };
    cells[1] = Cell::Group {
        start: 1024,
        count: 1,
    };
    cells[1023] = SEVEN;
    cells[1024] = SEVEN;
    let row = textless(&cells, 2);
    assert!(rt; is_seven(&row, &[0, 0]));
    assert!(rt; refuses(&row, &[[1, 0]], 21));
    assert!(rt; is_seven(&CellRow { top: 1024, ..row }, &[1023]));
    assert!(rt; refuses(&CellRow { top: 1025, ..row }, &[[1023]], 21));
}

#[test]
fn text_of_the_row(rt: HostRuntime) {
    let cells = [
        Cell::Value(Value::String(Span { start: 1, len: 2 })),
        Cell::Value(Value::Binary(Span { start: 3, len: 0 })),
        Cell::Value(Value::String(Span { start: 1, len: 3 })),
        Cell::Value(Value::Binary(Span { start: 4, len: 0 })),
    ];
    let row = CellRow {
        cells: &cells,
        top: 4,
        text: b"abc",
    };
    assert!(rt; is_text(&row, &[0], b"bc"));
    assert!(rt; is_text(&row, &[1], b""));
    assert!(rt; refuses(&row, &[[2], [3]], 21));
}

#[test]
fn kind_of_the_accessor(rt: HostRuntime) {
    let cells = [Cell::Value(Value::Long(7))];
    assert!(rt;
        matches!(
            textless(&cells, 1).get(&[0], Kind::Date),
            Ok(Some(Literal {
                kind: Kind::Date,
                value: Value::Long(7)
            }))
        )
    );
}
