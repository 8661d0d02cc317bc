// The clauses of an assignment order: six bytes each, for a target, a form and a number.
ghost use Rattle.std.specs.Prelude.{◌≡◌, Some, length, map};
ghost use Rattle.orders.specs.Assignments.{Settles, change_lawful, change_of, changed, clause_for, clause_lawful, clause_of, clauses, clauses_lawful, targets_differ};

use crate::values::value_at;

// The largest value that a clause sets or adds up to.
const LARGEST: u32 = 999_999_999;

#[derive(Clone, Copy)]
pub(crate) enum Change {
    Set(u32),
    // of the old value at that position
    CopyOf(u32),
    // up to the largest value
    Add(u32),
}

impl Change {
    // A match on the form's byte, as the format lists them; a conversion takes one value, and this takes two.
    fn from_form(form: u8, number: u32) -> Option<Change>
        ensures { result ≡ change_of form number }
    {
        match form {
            1 => Some(Change::Set(number)),
            2 => Some(Change::CopyOf(number)),
            3 => Some(Change::Add(number)),
            _ => None,
        }
    }

    fn is_lawful(self, count: usize) -> bool
        ensures { result ≡ change_lawful count (Some self) }
    {
        match self {
            Change::Set(number) => number <= LARGEST,
            Change::CopyOf(position) => (position as usize) < count,
            Change::Add(_) => true,
        }
    }

    // What the change makes of a position.
    pub(crate) fn applied(self, olds: &[u32], position: usize) -> u32
        ensures { result ≡ changed olds.now position (Some self) }
    {
        match self {
            Change::Set(number) => number,
            Change::CopyOf(from) => value_at(olds, from as usize),
            Change::Add(number) => value_at(olds, position).saturating_add(number).min(LARGEST),
        }
    }
}

#[derive(Clone, Copy)]
pub(crate) struct Clause {
    target: u8,
    // None where no lawful clause has its form
    pub(crate) change: Option<Change>,
}

impl Clause {
    fn read(bytes: &[u8; 6]) -> Clause
        ensures { result ≡ clause_of bytes.now }
    {
        let &[target, form, a, b, c, d] = bytes;
        Clause {
            target,
            change: Change::from_form(form, u32::from_le_bytes([a, b, c, d])),
        }
    }

    fn is_lawful(self, count: usize) -> bool
        ensures { result ≡ clause_lawful count self }
    {
        usize::from(self.target) < count
            && self.change.is_some_and(|change| change.is_lawful(count))
    }
}

// The bytes of each whole clause.
#[tactic(auto, using(crate::proofs::Pieces::clauses_by_piece))]
fn split(order: &[u8]) -> &[[u8; 6]]
    ensures { map clause_of result.now ≡ clauses order.now }
{
    order.as_chunks().0
}

// The first of the clauses whose target is the position.
fn find_among(list: &[[u8; 6]], position: usize) -> Option<Clause>
    ensures { result ≡ clause_for position (map clause_of list.now) }
{
    list.iter()
        .map(Clause::read)
        .find(|clause| usize::from(clause.target) == position)
}

// The clause for a position: it settles whether the order writes the position, and the new value there.
#[tactic(auto, using(crate::specs::Clausewise::settled))]
pub(crate) fn find_clause(order: &[u8], position: usize) -> Option<Clause>
    ensures { Settles order.now position result }
{
    find_among(split(order), position)
}

// The order and the count stay two arguments, as in every method of a rulebook.
pub(crate) fn all_are_lawful(order: &[u8], count: usize) -> bool
    ensures { result ≡ clauses_lawful count (clauses order.now) }
{
    split(order)
        .iter()
        .all(|bytes| Clause::read(bytes).is_lawful(count))
}

// A loop: each clause is held against those after it, which no adapter passes on.
pub(crate) fn targets_differ(order: &[u8]) -> bool
    ensures { result ≡ targets_differ (clauses order.now) }
{
    let mut rest = split(order);
    while let [first, later @ ..] = rest {
        if find_among(later, usize::from(Clause::read(first).target)).is_some() {
            return false;
        }
        rest = later;
    }
    true
}
