ghost use Rattle.std.specs.Prelude.{◌≡◌, ◌+◌, ◌*◌, ◌<◌, [], length, MatchResult};
ghost use Rattle.refusals.specs.declared.refusal.Refusal.TheVariants.{NotADirectory};
ghost use Rattle.storage.specs.Words.{write_of, written};
ghost use Rattle.dump_board.specs.Dump.{IsDirectory, dumped, dump_bounded, placed};
ghost use Rattle.dump_board.specs.Listed.{listed_count, listed_words, listed_bytes};
ghost use Rattle.storage.specs.Lent.{one};

use crate::directory::Directory;
use refusals::refusal::Refusal;
use storage::bytes::{get_word, merge_word};
use storage::words::{ReadStorage, Storage};

// Storage over the blocks of a dump, in the order of its directory.
#[derive(Drop)]
pub struct DumpBoard<'a> {
    pub bytes: &'a mut [u8],
    pub directory: Directory,
}

impl<'a> DumpBoard<'a> {
    // A board that has no words until its directory is filled.
    #[tactic(auto, using(crate::proofs::Dumps::no_pages_no_words))]
    pub fn new(bytes: &'a mut [u8]) -> DumpBoard<'a>
        ensures bytes { result.bytes.now ≡ bytes.old }
        ensures empty { listed_words result.bytes.now result.directory ≡ [] }
    {
        DumpBoard {
            bytes,
            directory: Directory::empty(),
        }
    }

    // Takes a list of the page that each block holds as the directory. The old one stays where the list is none.
    #[tactic(auto, using(crate::proofs::Dumps::filled_words))]
    pub fn fill(&mut self, pages: &[u16]) -> Result<(), Refusal>
        ensures answer { MatchResult result (λ _. IsDirectory pages.now) (λ e. (e ≡ NotADirectory) × (IsDirectory pages.now → ⊥)) }
        ensures after { MatchResult result (λ _. listed_words self.new.bytes.now self.new.directory ≡ dumped self.old.bytes.now pages.now) (λ _. self.new ≡ self.old) }
        ensures bytes { self.new.bytes.now ≡ self.old.bytes.now }
        ensures lenders { one self.new.bytes.ghost_name ≡ one self.old.bytes.ghost_name }
    {
        self.directory = Directory::new(pages)?;
        Ok(())
    }

    fn word_count(&self) -> u32
        ensures { result ≡ listed_count self.now.bytes.now self.now.directory }
    {
        let count = self.directory.count;
        if 2048 * count as usize <= self.bytes.len() {
            512 * count as u32
        } else {
            0
        }
    }

    // Where word n lies among the words of the blocks.
    fn place(&self, n: u32) -> u32
        requires { n < listed_count self.now.bytes.now self.now.directory }
        ensures is { result ≡ placed self.now.directory.blocks n }
        ensures inside { 4 * result + 3 < length self.now.bytes.now }
    {
        512 * u32::from(self.directory.blocks[n as usize / 512]) + n % 512
    }
}

#[tactic(auto, using(storage::proofs::Tabulated::tables))]
impl<'a> ReadStorage for DumpBoard<'a> {
    ghost words = { λ s. listed_words s.bytes.now s.directory };

    ghost bounded = { λ s. dump_bounded s.bytes.now s.directory.count s.directory.blocks s.directory.short };

    fn count(&self) -> u32 {
        self.word_count()
    }

    fn read(&self, n: u32) -> Result<u32, Refusal> {
        if n >= self.word_count() {
            return Err(Refusal::WordOutside);
        }
        Ok(get_word(self.bytes, self.place(n)))
    }
}

#[tactic(auto, using(storage::proofs::Tabulated::tables, crate::proofs::Dumps::dump_written))]
impl<'a> Storage for DumpBoard<'a> {
    ghost lenders = { λ s. one s.bytes.ghost_name };

    fn write(&mut self, n: u32, value: u32, mask: u8) -> Result<(), Refusal>
        ensures answer { result ≡ write_of (listed_words self.old.bytes.now self.old.directory) n mask }
        ensures after { listed_words self.new.bytes.now self.new.directory ≡ written (listed_words self.old.bytes.now self.old.directory) n value mask }
        ensures lenders { one self.new.bytes.ghost_name ≡ one self.old.bytes.ghost_name }
        ensures bytes { self.new.bytes.now ≡ listed_bytes self.old.bytes.now self.old.directory n value mask }
    {
        if n >= self.word_count() {
            return Err(Refusal::WordOutside);
        }
        if mask > 15 {
            return Err(Refusal::MaskTooWide);
        }
        let at = self.place(n);
        merge_word(self.bytes, at, value, mask);
        Ok(())
    }
}
