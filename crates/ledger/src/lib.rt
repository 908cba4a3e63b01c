//! The ledger on paper beside the book: what every run of calls leaves, whoever makes them.
#![tactic(auto)]

ghost use Rattle.std.specs.Prelude.{◌≡◌};
ghost use Rattle.nodes.specs.Soundness.{stands as stands_in};
ghost use Rattle.book.specs.Ways.{tables, setting};
ghost use Rattle.ledger.specs.Law.{Law};

use book::book::Book;
use nodes::term::Term;

// Whether a filter stands at the number; and what then is true of it and of its wording, whatever run of calls led to
// this book, for meanings with any type of answers and of faults.
pub fn is_entered<'a, 't, T: Term, Answer, Fault>(book: &Book<'a, 't, T>, n: u16) -> bool
    ensures is_used_and_marked { result ≡ stands_in (tables book.now).slots (tables book.now).used n }
    ensures keeps_every_wording { Law Answer Fault (setting T.Term.within book.now) (tables book.now) }
{
    book.stands(n)
}
