#![tactic(auto, using(storage::proofs::Tabulated::tables, crate::proofs::Pairs::low_written, crate::proofs::Pairs::high_written))]

ghost use Rattle.std.specs.Prelude.{◌≡◌};
ghost use Rattle.boards.specs.Stacked.{stacked, stacked_bounded};
ghost use Rattle.storage.specs.Lent.{both};

use refusals::refusal::Refusal;
use storage::words::{ReadStorage, Storage, WORD_LIMIT};

// Two storages as one: the second behind the first.
#[derive(Drop)]
pub struct Stacked<A, B> {
    pub first: A,
    pub second: B,
}

impl<X, Y> Stacked<X, Y> {
    pub fn new(first: X, second: Y) -> Stacked<X, Y>
        ensures { (result.first ≡ first) × (result.second ≡ second) }
    {
        Stacked { first, second }
    }
}

impl<X: ReadStorage, Y: ReadStorage> ReadStorage for Stacked<X, Y> {
    ghost words = { λ s. stacked (X.ReadStorage.words s.first) (Y.ReadStorage.words s.second) };

    ghost bounded = { λ s. stacked_bounded (X.ReadStorage.words s.first) (Y.ReadStorage.words s.second) };

    fn count(&self) -> u32 {
        let whole = self.first.count() + self.second.count();
        whole.min(WORD_LIMIT)
    }

    fn read(&self, n: u32) -> Result<u32, Refusal> {
        if n >= self.count() {
            return Err(Refusal::WordOutside);
        }
        let low = self.first.count();
        if n < low {
            self.first.read(n)
        } else {
            self.second.read(n - low)
        }
    }
}

impl<X: Storage, Y: Storage> Storage for Stacked<X, Y> {
    ghost lenders = { λ s. both (X.Storage.lenders s.first) (Y.Storage.lenders s.second) };

    fn write(&mut self, n: u32, value: u32, mask: u8) -> Result<(), Refusal> {
        if n >= self.count() {
            return Err(Refusal::WordOutside);
        }
        let low = self.first.count();
        if n < low {
            self.first.write(n, value, mask)
        } else {
            self.second.write(n - low, value, mask)
        }
    }
}
