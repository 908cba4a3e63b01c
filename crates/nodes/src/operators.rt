// The operators of a condition, with the names and numbers of the iceberg crate.
ghost use Rattle.std.specs.Prelude.{◌≡◌};
ghost use Rattle.nodes.specs.Operators.{number_of, is_unary, is_binary, is_set, inverse};

#[derive(Clone, Copy)]
pub enum PredicateOperator {
    // unary
    IsNull = 101,
    NotNull = 102,
    IsNan = 103,
    NotNan = 104,
    // binary
    LessThan = 201,
    LessThanOrEq = 202,
    GreaterThan = 203,
    GreaterThanOrEq = 204,
    Eq = 205,
    NotEq = 206,
    StartsWith = 207,
    NotStartsWith = 208,
    // set
    In = 301,
    NotIn = 302,
}

impl PredicateOperator {
    pub fn number(self) -> u16
        ensures is_the_crates { result ≡ number_of self }
    {
        self as u16
    }

    // Whether it tests the column alone.
    pub fn is_unary(self) -> bool
        ensures is_of_the_unary_family { result ≡ is_unary self }
    {
        matches!(
            self,
            Self::IsNull | Self::NotNull | Self::IsNan | Self::NotNan
        )
    }

    // Whether it tests the column against one literal.
    pub fn is_binary(self) -> bool
        ensures is_of_the_binary_family { result ≡ is_binary self }
    {
        matches!(
            self,
            Self::LessThan
                | Self::LessThanOrEq
                | Self::GreaterThan
                | Self::GreaterThanOrEq
                | Self::Eq
                | Self::NotEq
                | Self::StartsWith
                | Self::NotStartsWith
        )
    }

    // Whether it tests the column against a set of literals.
    pub fn is_set(self) -> bool
        ensures is_of_the_set_family { result ≡ is_set self }
    {
        matches!(self, Self::In | Self::NotIn)
    }

    // The operator that says the opposite.
    pub fn negate(self) -> Self
        ensures says_the_opposite { result ≡ inverse self }
    {
        match self {
            Self::IsNull => Self::NotNull,
            Self::NotNull => Self::IsNull,
            Self::IsNan => Self::NotNan,
            Self::NotNan => Self::IsNan,
            Self::LessThan => Self::GreaterThanOrEq,
            Self::LessThanOrEq => Self::GreaterThan,
            Self::GreaterThan => Self::LessThanOrEq,
            Self::GreaterThanOrEq => Self::LessThan,
            Self::Eq => Self::NotEq,
            Self::NotEq => Self::Eq,
            Self::StartsWith => Self::NotStartsWith,
            Self::NotStartsWith => Self::StartsWith,
            Self::In => Self::NotIn,
            Self::NotIn => Self::In,
        }
    }
}
