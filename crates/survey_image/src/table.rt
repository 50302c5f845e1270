ghost use Rattle.std.specs.Prelude.{◌≡◌, ◌+◌, ◌*◌, ◌^◌, ◌<◌, [], ◌∷◌};
ghost use Rattle.paging.specs.Numbers.{numbers_of};
ghost use Rattle.survey_image.specs.Layout.{tag_word, chain_word};
ghost use Rattle.survey_image.specs.Drawing.{table_answer, table_after};

use crate::block::Block;
use crate::drawing::draw;
use crate::layout::virtual_page;
use paging::form::PageForm;
use paging::plan::SettledPlan;
use paging::smallest::page_count;
use refusals::refusal::Refusal;
use storage::words::{ReadStorage, Storage};

// The entry that each of the first eight anchors points to.
const FIRST_ENTRIES: [u32; 8] = [5, 4, 7, 6, 1, 0, 3, 2];

// The bench image of trials has words of a table too, but that table is another: one function for both would need a crate below
// the two.
fn tag_word<F: PageForm>(page: u8) -> u32
    ensures { result ≡ tag_word F.PageForm.sizes page }
{
    (1 << 30) + (5 << 17) + virtual_page::<F>(page) * (1 << (17 - F::geometry().width))
}

fn chain_word<F: PageForm>(page: u8) -> u32
    ensures { result ≡ chain_word F.PageForm.sizes page }
{
    let entry = u32::from(page);
    let anchor = if entry < 8 {
        FIRST_ENTRIES[entry as usize] << 16
    } else {
        1 << 31
    };
    let link = if entry + 8 < page_count::<F>() {
        entry + 8
    } else {
        1 << 15
    };
    anchor + link
}

// An entry of the table that starts at a word.
fn table_block<F: PageForm>(start: u32, page: u8) -> Block
    requires { start < 2 ^ 24 }
    ensures { result ≡ record { word = start + 4 * page; words = tag_word F.PageForm.sizes page ∷ chain_word F.PageForm.sizes page ∷ 0 ∷ 0 ∷ [] } }
{
    Block {
        word: start + 4 * u32::from(page),
        words: [tag_word::<F>(page), chain_word::<F>(page), 0, 0],
    }
}

// Writes the page table of a plan of 64 KiB into a storage of that size.
#[tactic(auto, unfolding(crate::specs::Drawing::table_drawn))]
pub fn draw_table<F: PageForm, S: Storage>(
    storage: &mut S,
    plan: &SettledPlan<F>,
) -> Result<(), Refusal>
    ensures answer { result ≡ table_answer plan.now.exponent (S.ReadStorage.words storage.old) }
    ensures after { S.ReadStorage.words storage.new ≡ table_after (numbers_of plan.now) (S.ReadStorage.words storage.old) }
    ensures lenders { S.Storage.lenders storage.new ≡ S.Storage.lenders storage.old }
{
    if plan.storage_bytes() != 65536 || storage.count() != 16384 {
        return Err(Refusal::SizeDiffers);
    }
    // the table lies whole inside the storage, so that every entry has room
    let start = plan.table().start.number / 4;
    // over the numbers of the pages, from which the words of an entry are made
    for page in 0..page_count::<F>() as u8 {
        let _ = draw(storage, &table_block::<F>(start, page));
    }
    Ok(())
}
