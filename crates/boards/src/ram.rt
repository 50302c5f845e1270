#![tactic(auto, using(storage::proofs::Tabulated::tables, crate::proofs::Stores::ram_written))]

ghost use Rattle.std.specs.Prelude.{◌≡◌};
ghost use Rattle.storage.specs.Words.{write_of, written};
ghost use Rattle.boards.specs.Ram.{ram_count, ram_words, ram_bytes, ram_bounded};
ghost use Rattle.storage.specs.Lent.{one};

use refusals::refusal::Refusal;
use storage::bytes::{get_word, merge_word};
use storage::words::{ReadStorage, Storage, WORD_LIMIT};

// How many words of a storage lie in the bytes.
fn words_in(bytes: &[u8]) -> u32
    ensures { result ≡ ram_count bytes.now }
{
    (bytes.len() / 4).min(WORD_LIMIT as usize) as u32
}

// Storage over the caller's bytes.
#[derive(Drop)]
pub struct RamBoard<'a> {
    pub bytes: &'a mut [u8],
}

impl<'a> RamBoard<'a> {
    pub fn new(bytes: &'a mut [u8]) -> RamBoard<'a>
        ensures { result.bytes.now ≡ bytes.old }
    {
        RamBoard { bytes }
    }
}

// A dump board reads and writes alike, but is no one function with this board: a dump's word may lie in a page that is not
// there or away from its own place, and where a word lies is what the boards differ in.
impl<'a> ReadStorage for RamBoard<'a> {
    ghost words = { λ s. ram_words s.bytes.now };

    ghost bounded = { λ s. ram_bounded s.bytes.now };

    fn count(&self) -> u32 {
        words_in(self.bytes)
    }

    fn read(&self, n: u32) -> Result<u32, Refusal> {
        if n >= words_in(self.bytes) {
            return Err(Refusal::WordOutside);
        }
        Ok(get_word(self.bytes, n))
    }
}

impl<'a> Storage for RamBoard<'a> {
    ghost lenders = { λ s. one s.bytes.ghost_name };

    // What the lender's bytes hold afterwards is said byte by byte too.
    fn write(&mut self, n: u32, value: u32, mask: u8) -> Result<(), Refusal>
        ensures answer { result ≡ write_of (ram_words self.old.bytes.now) n mask }
        ensures after { ram_words self.new.bytes.now ≡ written (ram_words self.old.bytes.now) n value mask }
        ensures lenders { one self.new.bytes.ghost_name ≡ one self.old.bytes.ghost_name }
        ensures bytes { self.new.bytes.now ≡ ram_bytes self.old.bytes.now n value mask }
    {
        let bytes = &mut *self.bytes;
        if n >= words_in(bytes) {
            return Err(Refusal::WordOutside);
        }
        if mask > 15 {
            return Err(Refusal::MaskTooWide);
        }
        merge_word(bytes, n, value, mask);
        Ok(())
    }
}
