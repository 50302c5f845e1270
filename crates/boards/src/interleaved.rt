#![tactic(auto, using(storage::proofs::Tabulated::tables, crate::proofs::Pairs::even_written, crate::proofs::Pairs::odd_written))]

ghost use Rattle.std.specs.Prelude.{◌≡◌};
ghost use Rattle.boards.specs.Interleaved.{interleaved, interleaved_bounded};
ghost use Rattle.storage.specs.Lent.{both};

use refusals::refusal::Refusal;
use storage::words::{ReadStorage, Storage, WORD_LIMIT};

// Two storages as one: even words in the first, odd words in the second.
#[derive(Drop)]
pub struct Interleaved<A, B> {
    pub first: A,
    pub second: B,
}

impl<X, Y> Interleaved<X, Y> {
    pub fn new(first: X, second: Y) -> Interleaved<X, Y>
        ensures { (result.first ≡ first) × (result.second ≡ second) }
    {
        Interleaved { first, second }
    }
}

impl<X: ReadStorage, Y: ReadStorage> ReadStorage for Interleaved<X, Y> {
    ghost words = { λ s. interleaved (X.ReadStorage.words s.first) (Y.ReadStorage.words s.second) };

    ghost bounded = { λ s. interleaved_bounded (X.ReadStorage.words s.first) (Y.ReadStorage.words s.second) };

    fn count(&self) -> u32 {
        let half = self.first.count().min(self.second.count());
        (2 * half).min(WORD_LIMIT)
    }

    fn read(&self, n: u32) -> Result<u32, Refusal> {
        if n >= self.count() {
            return Err(Refusal::WordOutside);
        }
        if n % 2 == 0 {
            self.first.read(n / 2)
        } else {
            self.second.read(n / 2)
        }
    }
}

impl<X: Storage, Y: Storage> Storage for Interleaved<X, Y> {
    ghost lenders = { λ s. both (X.Storage.lenders s.first) (Y.Storage.lenders s.second) };

    fn write(&mut self, n: u32, value: u32, mask: u8) -> Result<(), Refusal> {
        if n >= self.count() {
            return Err(Refusal::WordOutside);
        }
        if n % 2 == 0 {
            self.first.write(n / 2, value, mask)
        } else {
            self.second.write(n / 2, value, mask)
        }
    }
}
