// Filters: built by calls written one after another, and printed as trees, each join before its sides.
use crate::bench::{Bench, Call};
use crate::failure::Failure;
use crate::literals::{Word, keep, literal};
use nodes::operators::PredicateOperator;
use nodes::slots::{Node, Run};
use values::literals::Span;

const OPERATORS: [PredicateOperator; 14] = [
    PredicateOperator::IsNull,
    PredicateOperator::NotNull,
    PredicateOperator::IsNan,
    PredicateOperator::NotNan,
    PredicateOperator::LessThan,
    PredicateOperator::LessThanOrEq,
    PredicateOperator::GreaterThan,
    PredicateOperator::GreaterThanOrEq,
    PredicateOperator::Eq,
    PredicateOperator::NotEq,
    PredicateOperator::StartsWith,
    PredicateOperator::NotStartsWith,
    PredicateOperator::In,
    PredicateOperator::NotIn,
];

fn operator_word(op: PredicateOperator) -> &'static str {
    match op {
        PredicateOperator::IsNull => "is-null",
        PredicateOperator::NotNull => "not-null",
        PredicateOperator::IsNan => "is-nan",
        PredicateOperator::NotNan => "not-nan",
        PredicateOperator::LessThan => "lt",
        PredicateOperator::LessThanOrEq => "le",
        PredicateOperator::GreaterThan => "gt",
        PredicateOperator::GreaterThanOrEq => "ge",
        PredicateOperator::Eq => "eq",
        PredicateOperator::NotEq => "ne",
        PredicateOperator::StartsWith => "starts-with",
        PredicateOperator::NotStartsWith => "not-starts-with",
        PredicateOperator::In => "in",
        PredicateOperator::NotIn => "not-in",
    }
}

fn operator(word: &str) -> Result<PredicateOperator, Failure> {
    let named = OPERATORS.iter().find(|op| operator_word(**op) == word);
    Ok(*named.ok_or(Failure::NotACase)?)
}

// Lays a condition, written as its column's name and its literals.
fn lay(
    bench: &mut Bench,
    op: PredicateOperator,
    is_binary: bool,
    words: &str,
) -> Result<u16, Failure> {
    let (name, literals) = words.split_once(' ').unwrap_or((words, ""));
    let name = keep(&mut bench.text, name.as_bytes())?;
    let mut given = Vec::new(bench.heap);
    if !literals.is_empty() {
        for word in literals.split(' ') {
            given.push(literal(bench.heap, &mut bench.text, word)?)?;
        }
    }
    let call = match given.as_slice() {
        [only] if is_binary => Call::Binary(op, name, *only),
        [] if op.is_unary() => Call::Unary(op, name),
        literals if op.is_set() => Call::Set(op, name, literals),
        _ => return Err(Failure::NotACase),
    };
    Ok(bench.obey(call)?)
}

// One call: a constant or a condition is laid, and every other call takes what was laid last.
fn obey(bench: &mut Bench, call: &str) -> Result<u16, Failure> {
    let (word, rest) = call.split_once(' ').unwrap_or((call, ""));
    let call = match word {
        "true" => Call::Constant(true),
        "false" => Call::Constant(false),
        "and" => {
            let (left, right) = bench.take_two()?;
            Call::And(left, right)
        }
        "or" => {
            let (left, right) = bench.take_two()?;
            Call::Or(left, right)
        }
        "not" => Call::Not(bench.take()?),
        "negate" => Call::Negate(bench.take()?),
        "rewrite" => Call::Rewrite(bench.take()?),
        // a condition against one literal, whatever its operator's family
        "binary" => {
            let (word, rest) = rest.split_once(' ').ok_or(Failure::NotACase)?;
            return lay(bench, operator(word)?, true, rest);
        }
        _ => {
            let op = operator(word)?;
            return lay(bench, op, op.is_binary(), rest);
        }
    };
    Ok(bench.obey(call)?)
}

// A tree as it is printed: its words so far, and the inputs to come, the next one last.
#[derive(Drop)]
struct Printer<'a> {
    bench: &'a Bench,
    tree: String,
    inputs: Vec<u16>,
}

impl<'a> Printer<'a> {
    fn say(&mut self, word: &str) -> Result<(), Failure> {
        if !self.tree.is_empty() {
            self.tree.push(' ')?;
        }
        self.tree.push_str(word)?;
        Ok(())
    }

    fn say_join(&mut self, word: &str, left: u16, right: u16) -> Result<(), Failure> {
        self.say(word)?;
        self.inputs.push(right)?;
        self.inputs.push(left)?;
        Ok(())
    }

    fn say_condition(&mut self, op: PredicateOperator, name: Span) -> Result<(), Failure> {
        let name = name.of(self.bench.text.as_slice());
        self.say(operator_word(op))?;
        match std::str::from_utf8(name) {
            Ok(name) => self.say(name),
            Err(_) => Err(Failure::NotACase),
        }
    }

    // A set is in no order, so its literals are put in the order of their words.
    fn say_literals(&mut self, run: Run) -> Result<(), Failure> {
        let bench = self.bench;
        let heap = bench.heap;
        let mut words = Vec::new(heap);
        for literal in bench.literals(run).ok_or(Failure::NotACase)? {
            let shown = Word {
                literal: *literal,
                text: bench.text.as_slice(),
            };
            words.push(format!(in heap; "{shown}")?)?;
        }
        words.sort()?;
        for word in words {
            self.say(word.as_str())?;
        }
        Ok(())
    }

    fn say_node(&mut self, node: Node<Span>) -> Result<(), Failure> {
        match node {
            Node::AlwaysTrue => self.say("true"),
            Node::AlwaysFalse => self.say("false"),
            Node::And(left, right) => self.say_join("and", left, right),
            Node::Or(left, right) => self.say_join("or", left, right),
            Node::Not(input) => {
                self.say("not")?;
                self.inputs.push(input)?;
                Ok(())
            }
            Node::Unary(op, name) => self.say_condition(op, name),
            Node::Binary(op, name, literal) => {
                self.say_condition(op, name)?;
                self.say_literals(Run {
                    start: literal,
                    count: 1,
                })
            }
            Node::Set(op, name, run) => {
                let count = run.count;
                self.say_condition(op, name)?;
                self.say(format!(in self.bench.heap; "{count}")?.as_str())?;
                self.say_literals(run)
            }
        }
    }
}

fn printed(bench: &Bench, root: u16) -> Result<String, Failure> {
    let mut printer = Printer {
        bench,
        tree: String::new(bench.heap),
        inputs: Vec::new(bench.heap),
    };
    printer.inputs.push(root)?;
    // a tree has no more nodes than the book
    for _ in 0..bench.used() {
        let Some(number) = printer.inputs.pop() else {
            break;
        };
        printer.say_node(bench.node(number).ok_or(Failure::NotACase)?)?;
    }
    Ok(printer.tree)
}

// The tree that the calls leave.
pub fn built(bench: &mut Bench, calls: &str) -> Result<String, Failure> {
    bench.clear();
    for call in calls.split("; ") {
        let filter = obey(bench, call)?;
        bench.laid.push(filter)?;
    }
    let filter = bench.take()?;
    if bench.laid.is_empty() {
        printed(bench, filter)
    } else {
        Err(Failure::NotACase)
    }
}
