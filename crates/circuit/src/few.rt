// Lists of few items in memory of fixed size.
ghost use Rattle.std.specs.Prelude.{◌≡◌, ◌<◌, ◌≤◌, ◌-◌, ℕ, min, [], length, replicate, OnOk, MatchResult, MatchOption};
ghost use Rattle.circuit.specs.Few.{Pushed};

use std::marker::Model;

// At most N items, and at most 255. The library's ArrayVec is not Copy, and lines and names are copied.
#[derive(Clone, Copy, Debug, PartialEq, Eq)]
pub struct Few<T, const N: usize> {
    // The items, then the spare places; open within the crate.
    pub(crate) cells: [T; N],
    // A byte keeps a line small.
    len: u8,
}

impl<T, const N: usize> Model for Few<T, N> {
    ghost use Rattle.std.specs.Prelude.{◌≡◌, ◌≤◌, ◌++◌, length, take, drop};
    ghost use Rattle.std.proofs.Common.{arith, take-append-drop, length-take-le};
    ghost use Rattle.circuit.specs.Few.{Listed};

    ghost Value = { Listed T };

    ghost view = { λ s. record { items = take s.len s.cells; spare = drop s.len s.cells } };

    ghost invariant = { λ s. (s.len ≤ N) × (length s.cells ≡ N) };

    ghost inverse = { λ s. record { cells = s.items ++ s.spare; len = length s.items } };

    ghost inverse_ok = { λ s h i. record {
      cells = take-append-drop s.len s.cells i;
      len = length-take-le s.len s.cells (omega (arith, h.0, h.1)) i;
    } };
}

impl<T: Copy, const N: usize> Few<T, N> {
    pub fn new(fill: T) -> Self
        ensures items { result.items ≡ [] }
        ensures spare { result.spare ≡ replicate N fill }
    {
        Few {
            cells: [fill; N],
            len: 0,
        }
    }

    // The list of these items, with `fill` in the places behind them, unless they are too many.
    pub fn of(items: &[T], fill: T) -> Option<Self>
        ensures { MatchOption result (min N 255 < length items.now) (λ few. (few.items ≡ items.now) × (few.spare ≡ replicate (N - length items.now) fill)) }
    {
        let len = items.len();
        if len > N.min(255) {
            return None;
        }
        let mut cells = [fill; N];
        cells[..len].copy_from_slice(items);
        Some(Few {
            cells,
            len: len as u8,
        })
    }

    pub fn as_slice(&self) -> &[T]
        ensures items { result.now ≡ self.now.items }
        ensures few { length result.now ≤ N }
    {
        &self.cells[..self.len as usize]
    }

    // One item more, or the item back where there is no room.
    pub fn try_push(&mut self, item: T) -> Result<(), T>
        ensures pushed { OnOk result (Pushed item self.old self.new) }
        ensures full { MatchResult result (λ _. length self.old.items < min N 255) (λ back. (back ≡ item) × (length self.old.items ≡ min N 255) × (self.new ≡ self.old)) }
    {
        let at = self.len as usize;
        if at == N.min(255) {
            return Err(item);
        }
        self.cells[at] = item;
        self.len += 1;
        Ok(())
    }
}
