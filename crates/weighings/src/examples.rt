// One table of worked examples, and the same inputs run through the calls.
ghost use Rattle.weighings.specs.Weighings.{Weighings as Table};

// Every example of the table follows from the definitions that the calls' contracts cite.
pub fn weighings_stand()
    ensures follow_from_the_rules { Table }
{}

#[cfg(test)]
mod tests {
    use comparison::data::Datum;
    use conversion::convert::{Misfit, convert};
    use std::cmp::Ordering;
    use values::kinds::Kind;
    use values::literals::{Literal, Span, Value};

    fn long(kind: Kind, n: i64) -> Literal {
        Literal {
            kind,
            value: Value::Long(n),
        }
    }

    fn double(x: f64) -> Datum<'static> {
        let literal = Literal {
            kind: Kind::Double,
            value: Value::Double(x),
        };
        Datum::new(literal, b"")
    }

    fn text(kind: Kind, start: usize, len: usize) -> Literal {
        Literal {
            kind,
            value: Value::String(Span { start, len }),
        }
    }

    #[test]
    fn longs_narrow_to_ints(rt: HostRuntime) {
        assert!(rt;
            matches!(
                convert(long(Kind::Long, 2147483647), Kind::Int),
                Ok(Literal {
                    kind: Kind::Int,
                    value: Value::Int(2147483647)
                })
            )
        );
        assert!(rt;
            matches!(
                convert(long(Kind::Long, 2147483648), Kind::Int),
                Ok(Literal {
                    kind: Kind::Int,
                    value: Value::AboveMax
                })
            )
        );
        assert!(rt;
            matches!(
                convert(long(Kind::Long, -2147483649), Kind::Int),
                Ok(Literal {
                    kind: Kind::Int,
                    value: Value::BelowMin
                })
            )
        );
    }

    #[test]
    fn nanoseconds_round_down(rt: HostRuntime) {
        assert!(rt;
            matches!(
                convert(long(Kind::TimestampNs, 1999), Kind::Timestamp),
                Ok(Literal {
                    kind: Kind::Timestamp,
                    value: Value::Long(1)
                })
            )
        );
        assert!(rt;
            matches!(
                convert(long(Kind::TimestampNs, -1), Kind::Timestamp),
                Ok(Literal {
                    kind: Kind::Timestamp,
                    value: Value::Long(-1)
                })
            )
        );
    }

    #[test]
    fn some_do_not_convert(rt: HostRuntime) {
        assert!(rt;
            matches!(
                convert(long(Kind::Time, 5), Kind::Timestamp),
                Err(Misfit::NotConvertible)
            )
        );
        assert!(rt;
            matches!(
                convert(text(Kind::String, 0, 1), Kind::Int),
                Err(Misfit::TextNotRead)
            )
        );
    }

    #[test]
    fn floats_follow_total_order(rt: HostRuntime) {
        let (minus, plus, nan) = (double(-0.0), double(0.0), double(f64::NAN));
        assert!(rt; minus != plus);
        assert!(rt; nan == nan);
        assert_eq!(rt; minus.partial_cmp(&plus), Some(Ordering::Less));
        assert_eq!(rt; nan.partial_cmp(&double(5.0)), Some(Ordering::Greater));
    }

    #[test]
    fn texts_compare_wherever_they_lie(rt: HostRuntime) {
        let a = text(Kind::String, 0, 1);
        let ab = text(Kind::String, 1, 2);
        assert_eq!(rt;
            Datum::new(a, b"a").partial_cmp(&Datum::new(ab, b"xab")),
            Some(Ordering::Less)
        );
        assert_eq!(rt; Datum::new(a, b"a").partial_cmp(&double(0.0)), None);
        assert!(rt; Datum::new(a, b"a") == Datum::new(a, b"ab"));
    }
}
