// How operators are typed.
ghost use Rattle.std.specs.Prelude.{◌≡◌};
ghost use Rattle.reading.specs.Writing.{Reads};
ghost use Rattle.commands.specs.Spelling.{operator_text, OperatorWord};

use nodes::operators::PredicateOperator;
use reading::words::as_str;

// The word of an operator.
pub fn word_of(operator: PredicateOperator) -> &'static str
    ensures is_the_operators { result.now ≡ operator_text operator }
{
    match operator {
        PredicateOperator::IsNull => "is-null",
        PredicateOperator::NotNull => "not-null",
        PredicateOperator::IsNan => "is-nan",
        PredicateOperator::NotNan => "not-nan",
        PredicateOperator::LessThan => "<",
        PredicateOperator::LessThanOrEq => "<=",
        PredicateOperator::GreaterThan => ">",
        PredicateOperator::GreaterThanOrEq => ">=",
        PredicateOperator::Eq => "=",
        PredicateOperator::NotEq => "!=",
        PredicateOperator::StartsWith => "starts-with",
        PredicateOperator::NotStartsWith => "not-starts-with",
        PredicateOperator::In => "in",
        PredicateOperator::NotIn => "not-in",
    }
}

// The operator of a word.
pub(crate) fn read_operator(text: &[u8]) -> Option<PredicateOperator>
    ensures reads_the_word { Reads OperatorWord text.now result }
{
    match as_str(text)? {
        "is-null" => Some(PredicateOperator::IsNull),
        "not-null" => Some(PredicateOperator::NotNull),
        "is-nan" => Some(PredicateOperator::IsNan),
        "not-nan" => Some(PredicateOperator::NotNan),
        "<" => Some(PredicateOperator::LessThan),
        "<=" => Some(PredicateOperator::LessThanOrEq),
        ">" => Some(PredicateOperator::GreaterThan),
        ">=" => Some(PredicateOperator::GreaterThanOrEq),
        "=" => Some(PredicateOperator::Eq),
        "!=" => Some(PredicateOperator::NotEq),
        "starts-with" => Some(PredicateOperator::StartsWith),
        "not-starts-with" => Some(PredicateOperator::NotStartsWith),
        "in" => Some(PredicateOperator::In),
        "not-in" => Some(PredicateOperator::NotIn),
        _ => None,
    }
}
