// Siblings, one after the other.
ghost use Rattle.std.specs.Iterator.{at_most};
ghost use Rattle.std.specs.Prelude.{◌-◌, ◌≡◌};
ghost use Rattle.members.specs.Walking.{Gives, Goes};

use crate::record::next;

// A walk from the sibling `at` up to `end`.
#[derive(Drop)]
pub struct Walk<'a> {
    pub table: &'a [u32],
    pub at: usize,
    pub end: usize,
}

// The siblings from `first` up to `end`.
pub fn siblings(table: &[u32], first: usize, end: usize) -> Walk
    ensures { result ≡ record { table = table.entry; at = first; end = end } }
{
    Walk {
        table,
        at: first,
        end,
    }
}

impl<'a> Iterator for Walk<'a> {
    type Item = usize;

    ghost can_next = { Goes };

    ghost next_gives = { Gives };

    ghost remaining = { λ s. at_most (s.end - s.at) };

    fn next(&mut self) -> Option<usize> {
        if self.end <= self.at {
            return None;
        }
        let r = self.at;
        self.at = next(self.table, r);
        Some(r)
    }
}
