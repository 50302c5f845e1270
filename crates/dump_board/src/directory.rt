ghost use Rattle.std.specs.Prelude.{◌≡◌, ℕ, ◌<◌, ◌≤◌, ◌≢◌, length, MatchBool, MatchOption, MatchResult, slice_index};
ghost use Rattle.refusals.specs.declared.refusal.Refusal.TheVariants.{NotADirectory};
ghost use Rattle.dump_board.specs.Dump.{Inside, Apart, Inverse, IsDirectory, Lists};

use refusals::refusal::Refusal;

// The most pages that a dump has.
pub const PAGE_LIMIT: usize = 1024;

// A page that no block holds. Options would have to be turned into the plain numbers that a board reads by, with a number
// again for the pages behind the last.
const UNLISTED: u16 = 1024;

// Which block holds each page. The blocks lie in a fixed buffer, since making a board takes no memory from a heap.
#[derive(Clone, Copy)]
pub struct Directory {
    pub(crate) count: u16,
    pub(crate) blocks: [u16; 1024],
    ghost short: { count ≤ 1024 },
    ghost whole: { length blocks ≡ 1024 },
    ghost inside: { Inside count blocks },
    ghost apart: { Apart count blocks },
}

// The block of each page that is listed, unless a page lies outside or is listed twice.
fn blocks_by_page(pages: &[u16]) -> Option<[u16; 1024]>
    requires { length pages.now ≤ 1024 }
    ensures { MatchOption result (IsDirectory pages.now → ⊥) (λ blocks. Inverse pages.now blocks (length pages.now)) }
{
    let mut blocks = [UNLISTED; PAGE_LIMIT];
    for (b, page) in pages.iter().enumerate() {
        let p = *page as usize;
        if p >= pages.len() {
            return None;
        }
        if blocks[p] != UNLISTED {
            return None;
        }
        blocks[p] = b as u16;
    }
    Some(blocks)
}

// Whether a block holds each of the first pages.
fn all_listed(blocks: &[u16], count: usize) -> bool
    requires { count ≤ length blocks.now }
    ensures { MatchBool result ((p : ℕ) → p < count → slice_index blocks.now p ≢ 1024) ((p : ℕ) × (p < count) × (slice_index blocks.now p ≡ 1024)) }
{
    !blocks[..count].contains(&UNLISTED)
}

impl Directory {
    // No pages.
    pub fn empty() -> Directory
        ensures { result.count ≡ 0 }
    {
        Directory {
            count: 0,
            blocks: [0; 1024],
        }
    }

    // The directory that lists for each block the page that it holds.
    #[tactic(auto, using(crate::proofs::Directories::unlisted, crate::proofs::Directories::all_lists))]
    pub fn new(pages: &[u16]) -> Result<Directory, Refusal>
        ensures { MatchResult result (λ d. Lists pages.now d.count d.blocks) (λ e. (e ≡ NotADirectory) × (IsDirectory pages.now → ⊥)) }
    {
        if pages.len() > PAGE_LIMIT {
            return Err(Refusal::NotADirectory);
        }
        let Some(blocks) = blocks_by_page(pages) else {
            return Err(Refusal::NotADirectory);
        };
        if !all_listed(&blocks, pages.len()) {
            return Err(Refusal::NotADirectory);
        }
        Ok(Directory {
            count: pages.len() as u16,
            blocks,
        })
    }
}
