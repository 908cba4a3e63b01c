// The answer of a condition, from what it finds.
ghost use Rattle.std.specs.Prelude.{◌≡◌, map};
ghost use Rattle.values.specs.Contents.{datum_of};
ghost use Rattle.walk.specs.Tests.{tested};
ghost use Rattle.judges.specs.Reading.{operator, literals, held};
ghost use Rattle.judges.specs.Answers.{answer};

use crate::found::Found;
use crate::verdicts::Verdict;
use nodes::operators::PredicateOperator;
use std::cmp::Ordering;
use values::kinds::Kind;
use values::literals::{Literal, Value};
use walk::conditions::Test;

// What a binary operator takes where no literal is lent.
const NOTHING: [Literal; 1] = [Literal {
    kind: Kind::Boolean,
    value: Value::Boolean(false),
}];

// The literals that the operator looks at: none, the first, or all.
pub(crate) fn literals<'a>(test: &Test<'a>) -> &'a [Literal]
    ensures are_the_conditions { map (datum_of test.now.text.now) result.now ≡ literals (tested test.now) }
{
    if test.op.is_unary() {
        &[]
    } else if !test.op.is_binary() {
        test.literals
    } else if test.literals.is_empty() {
        &NOTHING
    } else {
        &test.literals[..1]
    }
}

// The operator's answer, from where the value stands to the literal, the value, and the literals.
pub(crate) fn answer(
    op: PredicateOperator,
    standing: Option<Ordering>,
    found: &Found,
    literals: &[Literal],
    text: &[u8],
) -> Verdict
    ensures goes_by_the_operator { result ≡ answer op standing (held found.now) (map (datum_of text.now) literals.now) }
{
    match op {
        PredicateOperator::IsNull => Verdict::sure(found.literal.is_none()),
        PredicateOperator::NotNull => Verdict::sure(found.literal.is_some()),
        PredicateOperator::IsNan => Verdict::sure(found.is_not_a_number()),
        PredicateOperator::NotNan => Verdict::sure(!found.is_not_a_number()),
        PredicateOperator::LessThan => Verdict::known(standing.map(Ordering::is_lt)),
        PredicateOperator::LessThanOrEq => Verdict::known(standing.map(Ordering::is_le)),
        PredicateOperator::GreaterThan => Verdict::known(standing.map(Ordering::is_gt)),
        PredicateOperator::GreaterThanOrEq => Verdict::known(standing.map(Ordering::is_ge)),
        PredicateOperator::Eq | PredicateOperator::In => {
            Verdict::sure(found.is_one_of(literals, text))
        }
        PredicateOperator::NotEq | PredicateOperator::NotIn => {
            Verdict::sure(!found.is_one_of(literals, text))
        }
        PredicateOperator::StartsWith => Verdict::sure(found.begins_with(literals, text)),
        PredicateOperator::NotStartsWith => Verdict::sure(!found.begins_with(literals, text)),
    }
}
