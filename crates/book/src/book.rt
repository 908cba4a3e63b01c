// The book: nothing is allocated, so its tables are lent, each with its count; public since they may come from outside in
// any state.
ghost use Rattle.std.specs.Prelude.{◌≡◌, ◌+◌, ◌<◌, false, length, Ok, MatchResult};
ghost use Rattle.nodes.specs.Soundness.{stands as stands_in, unsound as unsound_in};
ghost use Rattle.book.specs.Edits.{constant};
ghost use Rattle.book.specs.Calls.{after, granted, barred, no_filter, barred_one, barred_two, barred_leaf, full, kept_of, no_room, cells, storing, writing, laid, laying, join_after, rewrite_after, lay_constant, lay_unary, lay_binary, lay_set, ask_and, ask_or, ask_not, ask_negate, ask_rewrite};
ghost use Rattle.book.specs.Ways.{tables, setting, extent as extent_of, IsReadAlike, Does};

use crate::edits::{Connective, Keep, flip, joining, keeps, rewrite, strike};
use crate::equality::Literals;
use lists::list::keep_first;
use nodes::operators::PredicateOperator;
use nodes::slots::{Mark, Node, Run, Slot};
use nodes::sound::{node_room, stands, unsound_node};
use nodes::term::{Extent, Term};
use values::admission::admit;
use values::literals::Literal;
use values::refusals::{Reason, Refused};

#[derive(Drop)]
pub struct Book<'a, 't, T> {
    pub slots: &'a mut [Slot<T>],
    pub used: usize,
    pub literals: &'a mut [Literal],
    pub stored: usize,
    // bytes that names and literals lie in
    pub text: &'t [u8],
    // accessor places that bound columns lie in; a book of names has none
    pub places: &'t [u16],
}

fn constant_node<T: Copy>(value: bool) -> Node<T>
    ensures is_the_constant { result ≡ constant value }
{
    if value {
        Node::AlwaysTrue
    } else {
        Node::AlwaysFalse
    }
}

impl<'a, 't, T: Term> Book<'a, 't, T> {
    fn extent(&self) -> Extent
        ensures is_of_text_and_places { result ≡ extent_of self.now }
    {
        Extent {
            text: self.text.len(),
            places: self.places.len(),
        }
    }

    // The lowest unsound node, if there is one.
    pub fn unsound(&self) -> Option<u16>
        ensures names_the_lowest { result ≡ unsound_in (T.Term.within (extent_of self.now)) (extent_of self.now).text (tables self.now).slots (tables self.now).used (tables self.now).literals (tables self.now).stored }
    {
        unsound_node(
            self.slots,
            self.used,
            self.literals,
            self.stored,
            self.extent(),
        )
    }

    // Whether a filter stands at the number.
    pub fn stands(&self, n: u16) -> bool
        ensures is_used_and_marked { result ≡ stands_in (tables self.now).slots (tables self.now).used n }
    {
        stands(self.slots, self.used, n)
    }

    // Refuses unsound tables.
    fn check(&self) -> Result<(), Refused>
        ensures names_the_lowest_unsound { result ≡ granted (barred (setting T.Term.within self.now) (tables self.now)) tt }
    {
        match self.unsound() {
            Some(n) => Err(Reason::UnsoundTables.at(n as usize)),
            None => Ok(()),
        }
    }

    // Refuses a number at which no filter stands.
    fn check_filter(&self, a: u16) -> Result<(), Refused>
        ensures asks_that_it_stands { result ≡ granted (no_filter (tables self.now) a) tt }
    {
        if self.stands(a) {
            Ok(())
        } else {
            Err(Reason::NoFilter.at(a as usize))
        }
    }

    // Refuses unsound tables, and a filter that does not stand.
    #[tactic(auto, using(crate::proofs::Called::reasons), unfolding(crate::specs::Calls::barred_one))]
    fn check_one(&self, a: u16) -> Result<(), Refused>
        ensures asks_tables_first { result ≡ granted (barred_one (setting T.Term.within self.now) (tables self.now) a) tt }
    {
        self.check()?;
        self.check_filter(a)
    }

    // The same of two filters, and one filter twice.
    #[tactic(auto, using(crate::proofs::Called::reasons), unfolding(crate::specs::Calls::barred_two))]
    fn check_two(&self, a: u16, b: u16) -> Result<(), Refused>
        ensures asks_two_that_stand { result ≡ granted (barred_two (setting T.Term.within self.now) (tables self.now) a b) tt }
    {
        self.check()?;
        self.check_filter(a)?;
        self.check_filter(b)?;
        if a == b {
            Err(Reason::SameFilter.at(a as usize))
        } else {
            Ok(())
        }
    }

    // Refuses what keeps a condition from being laid, but for want of room.
    #[tactic(auto, using(crate::proofs::Called::reasons), unfolding(crate::specs::Calls::barred_leaf))]
    fn check_leaf(&self, family: bool, term: T, given: &[Literal]) -> Result<(), Refused>
        ensures asks_in_order { result ≡ granted (barred_leaf (setting T.Term.within self.now) (tables self.now) family term given.now) tt }
    {
        self.check()?;
        if !family {
            return Err(Reason::OtherFamily.at(0));
        }
        if !term.lies_within(self.extent()) {
            return Err(Reason::TextOutside.at(0));
        }
        admit(given, self.text.len())
    }

    // Refuses where no node is left.
    #[tactic(auto, unfolding(crate::specs::Calls::full))]
    fn check_room(&self) -> Result<(), Refused>
        ensures asks_for_a_node { result ≡ granted (full (tables self.now).slots (tables self.now).used) tt }
    {
        if self.used < node_room(self.slots) {
            Ok(())
        } else {
            Err(Reason::NoNodeLeft.at(0))
        }
    }

    // Lays one node, standing.
    fn push(&mut self, node: Node<T>) -> u16
        requires room { self.old.used < length self.old.slots.now }
        requires few { self.old.used < 256 }
        ensures lays_it { after (tables self.new) (Ok result) ≡ writing (tables self.old) (laid (tables self.old).slots (tables self.old).used node) }
        ensures reads_the_same_text { IsReadAlike T.Term.within self.old self.new }
    {
        let n = self.used;
        self.slots[n] = Slot {
            node,
            mark: Mark::Standing,
        };
        self.used = n + 1;
        n as u16
    }

    // Lays one node, if one is left.
    #[tactic(auto, using(crate::proofs::Called::room))]
    fn lay(&mut self, node: Node<T>) -> Result<u16, Refused>
        ensures lays_it_if_one_is_left { after (tables self.new) result ≡ writing (tables self.old) (laying (tables self.old).slots (tables self.old).used node) }
        ensures reads_the_same_text { IsReadAlike T.Term.within self.old self.new }
    {
        self.check_room()?;
        Ok(self.push(node))
    }

    // Stores the literals of a node that is to be laid, of equal ones the first, if there is room for all and for the node.
    #[tactic(auto, using(crate::proofs::Called::reasons), unfolding(crate::specs::Calls::crowded))]
    fn store(&mut self, given: &[Literal]) -> Result<Run, Refused>
        ensures asks_for_room { result ≡ granted (no_room (tables self.old) (kept_of (setting T.Term.within self.old) given.now)) (cells (tables self.old) (kept_of (setting T.Term.within self.old) given.now)) }
        ensures stores_all_or_nothing { MatchResult result (λ _. tables self.new ≡ storing (tables self.old) (kept_of (setting T.Term.within self.old) given.now)) (λ _. tables self.new ≡ tables self.old) }
        ensures reads_the_same_text { IsReadAlike T.Term.within self.old self.new }
    {
        self.check_room()?;
        let start = self.stored;
        let policy = Literals { text: self.text };
        let refused = Reason::LiteralsDontFit.at(0);
        let end = keep_first(&policy, given, self.literals, start).ok_or(refused)?;
        self.stored = end;
        Ok(Run {
            start: start as u16,
            count: (end - start) as u16,
        })
    }

    // Joins two filters; a constant side is folded, and what is not kept is struck whole.
    #[tactic(auto, using(crate::proofs::Called::standing, crate::proofs::Called::room, crate::proofs::Called::refuses), unfolding(crate::specs::Calls::join_after))]
    fn join(&mut self, connective: Connective, a: u16, b: u16) -> Result<u16, Refused>
        ensures joins_or_folds { after (tables self.new) result ≡ join_after connective (setting T.Term.within self.old) (tables self.old) a b }
        ensures reads_the_same_text { IsReadAlike T.Term.within self.old self.new }
    {
        self.check_two(a, b)?;
        let left = self.slots[a as usize].node;
        let right = self.slots[b as usize].node;
        match keeps(true, connective, left, right) {
            Keep::First => {
                strike(self.slots, b);
                Ok(a)
            }
            Keep::Second => {
                strike(self.slots, a);
                Ok(b)
            }
            Keep::Both => {
                self.check_room()?;
                self.slots[a as usize].mark = Mark::Joined;
                self.slots[b as usize].mark = Mark::Joined;
                Ok(self.push(joining(connective, a, b)))
            }
        }
    }

    // Rewrites the filter in place without Nots, its joins folded or not.
    #[tactic(auto, using(crate::proofs::Called::standing, crate::proofs::Called::refuses), unfolding(crate::specs::Calls::rewrite_after))]
    fn rewrite(&mut self, a: u16, folds: bool) -> Result<u16, Refused>
        ensures rewrites_in_place { after (tables self.new) result ≡ rewrite_after folds (setting T.Term.within self.old) (tables self.old) a }
        ensures reads_the_same_text { IsReadAlike T.Term.within self.old self.new }
    {
        self.check_one(a)?;
        let n = rewrite(self.slots, a, folds);
        self.slots[n as usize].mark = Mark::Standing;
        Ok(n)
    }

    // Lays AlwaysTrue or AlwaysFalse.
    pub fn lay_constant(&mut self, value: bool) -> Result<u16, Refused>
        ensures does_what_is_asked { Does T.Term.within (lay_constant value) self.old self.new result }
    {
        self.check()?;
        self.lay(constant_node(value))
    }

    // Lays a condition on the column alone.
    pub fn lay_unary(&mut self, op: PredicateOperator, term: T) -> Result<u16, Refused>
        ensures does_what_is_asked { Does T.Term.within (lay_unary op term) self.old self.new result }
    {
        self.check_leaf(op.is_unary(), term, &[])?;
        self.lay(Node::Unary(op, term))
    }

    // Lays a condition against one literal.
    pub fn lay_binary(
        &mut self,
        op: PredicateOperator,
        term: T,
        literal: Literal,
    ) -> Result<u16, Refused>
        ensures does_what_is_asked { Does T.Term.within (lay_binary op term literal) self.old self.new result }
    {
        let given = [literal];
        self.check_leaf(op.is_binary(), term, &given)?;
        let run = self.store(&given)?;
        Ok(self.push(Node::Binary(op, term, run.start)))
    }

    // Lays a condition against a set, which keeps the first of equal literals.
    pub fn lay_set(
        &mut self,
        op: PredicateOperator,
        term: T,
        given: &[Literal],
    ) -> Result<u16, Refused>
        ensures does_what_is_asked { Does T.Term.within (lay_set op term given.now) self.old self.new result }
    {
        self.check_leaf(op.is_set(), term, given)?;
        let run = self.store(given)?;
        Ok(self.push(Node::Set(op, term, run)))
    }

    // Joins two filters; a constant side is folded, and what is not kept is struck whole.
    pub fn and(&mut self, a: u16, b: u16) -> Result<u16, Refused>
        ensures does_what_is_asked { Does T.Term.within (ask_and a b) self.old self.new result }
    {
        self.join(Connective::And, a, b)
    }

    // The same with constants exchanged.
    pub fn or(&mut self, a: u16, b: u16) -> Result<u16, Refused>
        ensures does_what_is_asked { Does T.Term.within (ask_or a b) self.old self.new result }
    {
        self.join(Connective::Or, a, b)
    }

    // Lays a Not over the filter.
    #[tactic(auto, using(crate::proofs::Called::standing, crate::proofs::Called::room))]
    pub fn not(&mut self, a: u16) -> Result<u16, Refused>
        ensures does_what_is_asked { Does T.Term.within (ask_not a) self.old self.new result }
    {
        self.check_one(a)?;
        self.check_room()?;
        self.slots[a as usize].mark = Mark::Joined;
        Ok(self.push(Node::Not(a)))
    }

    // Negates the filter in place.
    #[tactic(auto, using(crate::proofs::Called::standing))]
    pub fn negate(&mut self, a: u16) -> Result<u16, Refused>
        ensures does_what_is_asked { Does T.Term.within (ask_negate a) self.old self.new result }
    {
        self.check_one(a)?;
        let n = flip(self.slots, a);
        self.slots[n as usize].mark = Mark::Standing;
        Ok(n)
    }

    // Rewrites the filter in place without Nots, its joins folded.
    pub fn rewrite_not(&mut self, a: u16) -> Result<u16, Refused>
        ensures does_what_is_asked { Does T.Term.within (ask_rewrite a) self.old self.new result }
    {
        self.rewrite(a, true)
    }

    // The same with no join folded, as a bound filter is rewritten.
    pub fn rewrite_unfolded(&mut self, a: u16) -> Result<u16, Refused>
        ensures answers_and_leaves_what_the_rules_give { after (tables self.new) result ≡ rewrite_after false (setting T.Term.within self.old) (tables self.old) a }
        ensures reads_the_same_text { IsReadAlike T.Term.within self.old self.new }
    {
        self.rewrite(a, false)
    }
}
