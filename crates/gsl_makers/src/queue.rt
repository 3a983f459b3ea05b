//! Items that are taken from the front, one after the other.

ghost use Rattle.std.specs.Prelude.{◌≡◌, [], ◌∷◌, MatchOption};

use gsl_base::List;
use std::alloc::Global;
use std::marker::Model;
use std::vec::IntoIter;

/// The items that are left, the next one first.
#[derive(Drop)]
pub struct Queue<T> {
    items: IntoIter<T, Global>,
}

impl<T> Model for Queue<T> {
    ghost use Rattle.std.specs.Prelude.{◌≡◌, List as Plain, length};
    ghost use Rattle.std.specs.Coded.{coded_list};
    ghost use Rattle.std.specs.Vec.Iter.{into_iter_items, into_iter_len};

    ghost Value = { Plain T };

    ghost coded = { coded_list T.code };

    ghost view = { λ q. into_iter_items q.items };

    ghost invariant = { λ q. into_iter_len q.items ≡ length (into_iter_items q.items) };
}

impl<T: Drop> Queue<T> {
    /// All items of a list.
    pub fn new(list: List<T>) -> Queue<T>
        ensures { result ≡ list }
    {
        Queue {
            items: list.into_vec().into_iter(),
        }
    }

    /// Takes the next item.
    pub fn next(&mut self) -> Option<T>
        ensures { MatchOption result ((self.old ≡ []) × (self.new ≡ [])) (λ first. self.old ≡ first ∷ self.new) }
    {
        self.items.next()
    }
}
