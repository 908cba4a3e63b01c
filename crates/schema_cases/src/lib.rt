//! Schemas run on examples: each rule broken, the limits, the lookups and the accessors.
#![tactic(auto)]

#[cfg(test)]
mod tests {
    use schema::fields::{Field, Schema, Shape};
    use std::array;
    use values::kinds::Kind;
    use values::literals::Span;
    use values::refusals::Reason;

    const INT: Shape = Shape::Primitive(Kind::Int);

    // A field whose name is `len` bytes from `start` on.
    fn field(number: u32, start: usize, len: usize, parent: Option<usize>, shape: Shape) -> Field {
        Field {
            number,
            name: Span { start, len },
            required: false,
            parent,
            shape,
        }
    }

    // The check of the fields with names in this text: the number and the place of a refusal.
    fn checked<'a>(fields: &'a [Field], text: &'a [u8]) -> Result<(), (u8, usize)> {
        Schema { fields, text }
            .check()
            .map_err(|refused| (refused.reason.number(), refused.place))
    }

    fn numbered(r: Result<usize, Reason>) -> Result<usize, u8> {
        r.map_err(|reason| reason.number())
    }

    // Whether the field has an accessor of these places.
    fn leads(schema: &Schema, field: usize, places: &[u16]) -> bool {
        schema
            .accessor(field)
            .is_ok_and(|accessor| accessor.places() == places)
    }

    #[test]
    fn parents(rt: HostRuntime) {
        let text = b"ab";
        let top = field(1, 0, 1, None, Shape::Struct);
        assert_eq!(rt; checked(&[top, field(2, 1, 1, Some(0), INT)], text), Ok(()));
        assert_eq!(rt;
            checked(&[field(2, 1, 1, Some(0), INT)], text),
            Err((17, 0))
        );
        assert_eq!(rt;
            checked(&[field(2, 1, 1, Some(1), INT), top], text),
            Err((17, 0))
        );
        let list = field(1, 0, 1, None, Shape::ListOrMap);
        assert_eq!(rt;
            checked(&[list, field(2, 1, 1, Some(0), INT)], text),
            Err((17, 1))
        );
    }

    #[test]
    fn names_inside(rt: HostRuntime) {
        assert_eq!(rt; checked(&[field(1, 1, 2, None, INT)], b"abc"), Ok(()));
        assert_eq!(rt; checked(&[field(1, 1, 3, None, INT)], b"abc"), Err((17, 0)));
        assert_eq!(rt;
            checked(&[field(1, usize::MAX, 2, None, INT)], b"abc"),
            Err((17, 0))
        );
    }

    #[test]
    fn repeats(rt: HostRuntime) {
        let a = field(1, 0, 1, None, INT);
        let b = field(2, 1, 1, None, INT);
        assert_eq!(rt;
            checked(&[a, b, field(1, 2, 1, None, INT)], b"abc"),
            Err((17, 2))
        );
        assert_eq!(rt;
            checked(&[a, b, field(3, 1, 1, None, INT)], b"abc"),
            Err((17, 2))
        );
        assert_eq!(rt;
            checked(&[a, a, field(3, 9, 1, None, INT)], b"abc"),
            Err((17, 1))
        );
        let whole = field(1, 0, 3, None, INT);
        let group = field(2, 0, 1, None, Shape::Struct);
        assert_eq!(rt;
            checked(&[whole, group, field(3, 2, 1, Some(1), INT)], b"a.c"),
            Err((17, 2))
        );
        assert_eq!(rt;
            checked(&[whole, group, field(3, 0, 1, Some(1), INT)], b"a.c"),
            Ok(())
        );
    }

    #[test]
    fn number_of_fields(rt: HostRuntime) {
        let fields: [Field; 129] = array::from_fn(|i| field(i as u32, 0, i, None, INT));
        let text = [b'a'; 128];
        assert_eq!(rt; checked(&fields[0..128], &text), Ok(()));
        assert_eq!(rt; checked(&fields, &text), Err((17, 128)));
    }

    #[test]
    fn depth(rt: HostRuntime) {
        let text = [b'a'; 9];
        let mut fields: [Field; 9] = array::from_fn(|i| field(
            i as u32,
            0,
            i.max(1),
            i.checked_sub(1),
            Shape::Struct,
        ));
        assert_eq!(rt; checked(&fields, &text), Ok(()));
        fields[8] = field(8, 0, 8, Some(7), INT);
        assert_eq!(rt; checked(&fields, &text), Err((17, 8)));
        fields[7] = field(7, 0, 7, Some(6), INT);
        assert_eq!(rt; checked(&fields[0..8], &text), Ok(()));
    }

    #[test]
    fn lookups(rt: HostRuntime) {
        let fields = [
            field(1, 0, 5, None, Shape::Struct),
            field(2, 5, 5, Some(0), INT),
            field(3, 10, 2, None, INT),
            field(4, 12, 2, None, INT),
        ];
        let schema = Schema {
            fields: &fields,
            text: b"TruckplateidID",
        };
        assert_eq!(rt; numbered(schema.field_by_name(b"Truck.plate")), Ok(1));
        assert_eq!(rt; numbered(schema.field_by_name(b"truck.plate")), Err(6));
        assert_eq!(rt; numbered(schema.field_by_name(b"plate")), Err(6));
        assert_eq!(rt; numbered(schema.field_by_name(b"ID")), Ok(3));
        assert_eq!(rt;
            numbered(schema.field_by_name_case_insensitive(b"tRUCK.PLATE")),
            Ok(1)
        );
        assert_eq!(rt;
            numbered(schema.field_by_name_case_insensitive(b"truckNplate")),
            Err(6)
        );
        assert_eq!(rt;
            numbered(schema.field_by_name_case_insensitive(b"iD")),
            Err(7)
        );
    }

    #[test]
    fn accessors(rt: HostRuntime) {
        let fields = [
            field(1, 0, 1, None, INT),
            field(2, 1, 1, None, Shape::Struct),
            field(3, 0, 1, Some(1), INT),
            field(4, 1, 1, Some(1), Shape::Struct),
            field(5, 2, 1, None, INT),
            field(6, 0, 1, Some(3), INT),
        ];
        let schema = Schema {
            fields: &fields,
            text: b"abc",
        };
        assert!(rt; leads(&schema, 0, &[0]));
        assert!(rt; leads(&schema, 2, &[1, 0]));
        assert!(rt; leads(&schema, 4, &[2]));
        assert!(rt; leads(&schema, 5, &[1, 1, 0]));
        assert!(rt; !leads(&schema, 3, &[1, 1]));
        assert!(rt; !leads(&schema, 6, &[]));
    }
}
