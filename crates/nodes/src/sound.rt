// Whether a book's tables are sound.
ghost use Rattle.std.specs.Prelude.{◌≡◌, ℕ, ◌+◌, ◌<◌, ◌≤◌, length, slice_index};
ghost use Rattle.std.specs.List.{list_all};
ghost use Rattle.values.specs.Contents.{text_inside};
ghost use Rattle.nodes.specs.Tables.{form};
ghost use Rattle.nodes.specs.Soundness.{bit, literals_in, fits, in_order, parents as parents_of, is_joined, node_room as node_room_of, literal_room as literal_room_of, unsound as unsound_of, stands as stands_in};
ghost use Rattle.nodes.specs.Counts.{bumped, claimed};

use crate::slots::{Mark, Node, Run, Slot};
use crate::term::{Extent, Term};
use values::literals::Literal;

// How many nodes there may be. Here and for literals a room is one `min`: a function of table and limit would be `min` again.
pub fn node_room<T: Copy>(slots: &[Slot<T>]) -> usize
    ensures is_the_table_or_256 { result ≡ node_room_of slots.now }
{
    slots.len().min(256)
}

// How many literals there may be.
pub fn literal_room(literals: &[Literal]) -> usize
    ensures is_the_table_or_1024 { result ≡ literal_room_of literals.now }
{
    literals.len().min(1024)
}

// Whether the text of each literal lies inside the text.
fn all_inside(literals: &[Literal], text: usize) -> bool
    ensures is_each_inside { result ≡ list_all (λ l. text_inside text l.value) literals.now }
{
    literals
        .iter()
        .all(|literal| literal.value.text_lies_inside(text))
}

// Whether the literals of the run are there, with their text.
fn literals_inside(literals: &[Literal], text: usize, run: Run) -> bool
    ensures are_there_with_their_text { result ≡ literals_in text literals.now run.start run.count }
{
    let start = run.start as usize;
    let end = start + run.count as usize;
    literals
        .get(start..end)
        .is_some_and(|held| all_inside(held, text))
}

// Whether the inputs are below the node, and a condition fits.
fn ordered<T: Term>(node: Node<T>, n: u16, literals: &[Literal], extent: Extent) -> bool
    ensures inputs_below_and_condition_fits { result ≡ in_order (fits (T.Term.within extent) extent.text literals.now) (form node) n }
{
    match node {
        Node::AlwaysTrue | Node::AlwaysFalse => true,
        Node::And(l, r) | Node::Or(l, r) => l < n && r < n,
        Node::Not(i) => i < n,
        Node::Unary(op, term) => op.is_unary() && term.lies_within(extent),
        Node::Binary(op, term, literal) => {
            let run = Run {
                start: literal,
                count: 1,
            };
            op.is_binary()
                && term.lies_within(extent)
                && literals_inside(literals, extent.text, run)
        }
        Node::Set(op, term, run) => {
            op.is_set() && term.lies_within(extent) && literals_inside(literals, extent.text, run)
        }
    }
}

// One parent more, if the number has a count.
fn bump(counts: &mut [u16], n: u16)
    requires { (k : ℕ) → slice_index counts.old k < 65535 }
    ensures raises_one_count { counts.new ≡ bumped counts.old n }
{
    let i = n as usize;
    // no `get_mut`: after that of a slice a proof knows no element
    if i < counts.len() {
        counts[i] += 1;
    }
}

// One parent more for each input of a node that is not struck.
fn claim<T: Copy>(counts: &mut [u16], slot: Slot<T>)
    requires { (k : ℕ) → slice_index counts.old k < 65534 }
    ensures raises_its_inputs { counts.new ≡ claimed slot counts.old }
{
    if slot.mark == Mark::Struck {
        return;
    }
    match slot.node {
        Node::And(l, r) | Node::Or(l, r) => {
            bump(counts, l);
            bump(counts, r);
        }
        Node::Not(i) => bump(counts, i),
        _ => {}
    }
}

// For each number, how many parents it has that are not struck.
fn parents<T: Copy>(slots: &[Slot<T>]) -> [u16; 256]
    requires { length slots.now ≤ 256 }
    ensures counts_them { (n : ℕ) → n < 256 → slice_index result n ≡ parents_of slots.now (length slots.now) n }
{
    // nothing is allocated: fixed memory for as many nodes as there may be
    let mut counts = [0; 256];
    for slot in slots {
        claim(&mut counts, *slot);
    }
    counts
}

// How many parents that are not struck a node so marked has.
fn joined(mark: Mark) -> u16
    ensures is_one_if_joined { result ≡ bit (is_joined mark) }
{
    u16::from(mark == Mark::Joined)
}

// The lowest unsound node, if there is one. A book alone asks, and hands over its fields: a struct of them would be the
// book again.
pub fn unsound_node<T: Term>(
    slots: &[Slot<T>],
    used: usize,
    literals: &[Literal],
    stored: usize,
    extent: Extent,
) -> Option<u16>
    ensures names_the_lowest { result ≡ unsound_of (T.Term.within extent) extent.text slots.now used literals.now stored }
{
    let count = used.min(node_room(slots));
    let held = stored.min(literal_room(literals));
    let counts = parents(&slots[..count]);
    for (n, slot) in slots[..count].iter().enumerate() {
        if !ordered(slot.node, n as u16, &literals[..held], extent)
            || counts[n] != joined(slot.mark)
        {
            return Some(n as u16);
        }
    }
    if used == count && stored == held {
        None
    } else {
        Some(count as u16)
    }
}

// Whether a filter stands at the number. Of a book's fields, as `unsound_node` is.
pub fn stands<T: Copy>(slots: &[Slot<T>], used: usize, n: u16) -> bool
    ensures is_used_and_marked { result ≡ stands_in slots.now used n }
{
    let n = n as usize;
    n < used && slots.get(n).is_some_and(|slot| slot.mark == Mark::Standing)
}
