// The kinds of a column, and the storage that each is kept in.
ghost use Rattle.std.specs.Prelude.{◌≡◌, Decides};
ghost use Rattle.values.specs.Kinds.{storage_of, same_kind, same_family};

use std::fmt;

#[derive(Clone, Copy, PartialEq, Eq)]
pub enum Kind {
    Boolean,
    Int,
    Date,
    Long,
    Time,
    Timestamp,
    Timestamptz,
    TimestampNs,
    TimestamptzNs,
    Float,
    Double,
    String,
    // bytes of a stated number
    Fixed(u64),
    Binary,
}

// How a value is kept in memory: several kinds share one.
#[derive(Clone, Copy, PartialEq, Eq)]
pub enum Storage {
    Boolean,
    Int,
    Long,
    Float,
    Double,
    String,
    Binary,
}

impl Kind {
    // The storage of the kind's values.
    pub fn storage(self) -> Storage
        ensures is_the_kinds { result ≡ storage_of self }
    {
        match self {
            Kind::Boolean => Storage::Boolean,
            Kind::Int | Kind::Date => Storage::Int,
            Kind::Long
            | Kind::Time
            | Kind::Timestamp
            | Kind::Timestamptz
            | Kind::TimestampNs
            | Kind::TimestamptzNs => Storage::Long,
            Kind::Float => Storage::Float,
            Kind::Double => Storage::Double,
            Kind::String => Storage::String,
            Kind::Fixed(_) | Kind::Binary => Storage::Binary,
        }
    }

    // Whether the two are one kind and, if fixed, of one length: `==`, named beside the likeness that leaves lengths aside.
    pub fn is(self, other: Kind) -> bool
        ensures compares_lengths_too { result ≡ same_kind self other }
        ensures decides_equality { Decides result (self ≡ other) }
    {
        self == other
    }

    // Whether the two are one kind, fixed lengths aside.
    pub fn same_family(self, other: Kind) -> bool
        ensures leaves_fixed_lengths_aside { result ≡ same_family self other }
    {
        match (self, other) {
            (Kind::Fixed(_), Kind::Fixed(_)) => true,
            _ => self == other,
        }
    }
}

// The word that the kind is typed by.
impl fmt::Display for Kind {
    fn fmt<W: fmt::Write>(&self, f: &mut fmt::Formatter<W>) -> fmt::Result {
        match self {
            Kind::Boolean => f.write_str("boolean"),
            Kind::Int => f.write_str("int"),
            Kind::Date => f.write_str("date"),
            Kind::Long => f.write_str("long"),
            Kind::Time => f.write_str("time"),
            Kind::Timestamp => f.write_str("timestamp"),
            Kind::Timestamptz => f.write_str("timestamptz"),
            Kind::TimestampNs => f.write_str("timestamp_ns"),
            Kind::TimestamptzNs => f.write_str("timestamptz_ns"),
            Kind::Float => f.write_str("float"),
            Kind::Double => f.write_str("double"),
            Kind::String => f.write_str("string"),
            Kind::Fixed(len) => write!(f, "fixed({len})"),
            Kind::Binary => f.write_str("binary"),
        }
    }
}
