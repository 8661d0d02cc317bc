// Assignment orders: one to four clauses, which set a position's value, copy it from another position, or add to it.
ghost use Rattle.std.specs.Prelude.{◌≡◌, length};
ghost use Rattle.orders.specs.Assignments.{assignment_lawful, assignment_mask, assignment_news, length_lawful};
ghost use Rattle.orders.specs.AssignmentLaws.{assignment_laws};

use crate::clauses::{all_are_lawful, find_clause, targets_differ};
use crate::rulebook::Rulebook;

#[derive(Clone, Copy)]
pub struct Assignment;

// One to four clauses of six bytes.
fn has_lawful_length(order: &[u8]) -> bool
    ensures { result ≡ length_lawful (length order.now) }
{
    matches!(order.len(), 6 | 12 | 18 | 24)
}

impl Rulebook for Assignment {
    ghost lawful = { assignment_lawful };

    ghost mask = { assignment_mask };

    ghost news = { assignment_news };

    ghost kept = { assignment_laws };

    fn is_lawful(&self, order: &[u8], count: usize) -> bool {
        has_lawful_length(order) && all_are_lawful(order, count) && targets_differ(order)
    }

    fn writes(&self, order: &[u8], count: usize, position: usize) -> bool {
        find_clause(order, position).is_some() && position < count
    }

    // Each clause reads the old values, and not what another clause makes of them.
    fn new_value(&self, order: &[u8], olds: &[u32], position: usize) -> u32 {
        let change = find_clause(order, position).and_then(|clause| clause.change);
        let Some(&old) = olds.get(position) else {
            return 0;
        };
        change.map_or(old, |change| change.applied(olds, position))
    }
}
