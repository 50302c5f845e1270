ghost use Rattle.std.specs.Prelude.{◌≡◌, ℕ, ◌≤◌, List, length};
ghost use Rattle.storage.specs.Words.{read_of, write_of, written, word_limit};
ghost use Rattle.storage.specs.Lent.{Lenders};

use refusals::refusal::Refusal;

// The most words that a storage has: 16 MiB.
pub const WORD_LIMIT: u32 = 4_194_304;

// Words of 32 bits that can be read, at most 4,194,304 of them.
pub trait ReadStorage {
    // what it means: the list of its words
    ghost words: { Self → List ℕ };

    ghost bounded: { (s : Self) → length (words s) ≤ word_limit };

    fn count(&self) -> u32
        ensures { result ≡ length (words self.now) };

    fn read(&self, n: u32) -> Result<u32, Refusal>
        ensures { result ≡ read_of (words self.now) n };
}

// Words that can be written too. The highest bit of the mask is for the word's first byte; a byte whose bit is off stays.
pub trait Storage: ReadStorage {
    // The references that it holds, which no write replaces. What a call leaves alone, as these, or a unit's plan, stands with
    // each call: an invariant cannot say that something is unchanged.
    ghost lenders: { Self → Lenders };

    fn write(&mut self, n: u32, value: u32, mask: u8) -> Result<(), Refusal>
        ensures answer { result ≡ write_of (Self.ReadStorage.words self.old) n mask }
        ensures after { Self.ReadStorage.words self.new ≡ written (Self.ReadStorage.words self.old) n value mask }
        ensures lenders { lenders self.new ≡ lenders self.old };
}
