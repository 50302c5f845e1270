ghost use Rattle.std.specs.Prelude.{◌≡◌, ◌<◌, length, map, slice_set, MatchResult};
ghost use Rattle.std.specs.List.{fold};
ghost use Rattle.refusals.specs.declared.refusal.Refusal.TheVariants.{WordOutside};
ghost use Rattle.survey_image.specs.Drawing.{draw_answer, drawn, draw_all_answer, drawn_all};

use crate::block::AsBlock;
use refusals::refusal::Refusal;
use storage::words::{ReadStorage, Storage};

// Replaces a whole word that is there.
fn put<S: Storage>(storage: &mut S, n: u32, word: u32)
    requires { n < length (S.ReadStorage.words storage.old) }
    ensures after { S.ReadStorage.words storage.new ≡ slice_set (S.ReadStorage.words storage.old) n word }
    ensures lenders { S.Storage.lenders storage.new ≡ S.Storage.lenders storage.old }
{
    let _ = storage.write(n, word, 15);
}

// Writes a block, whole or not at all.
pub fn draw<S: Storage, B: AsBlock>(storage: &mut S, item: &B) -> Result<(), Refusal>
    ensures answer { result ≡ draw_answer (S.ReadStorage.words storage.old) (B.block item.now) }
    ensures after { S.ReadStorage.words storage.new ≡ drawn (S.ReadStorage.words storage.old) (B.block item.now) }
    ensures lenders { S.Storage.lenders storage.new ≡ S.Storage.lenders storage.old }
{
    let block = item.block();
    let count = storage.count();
    if count < 4 || block.word > count - 4 {
        return Err(Refusal::WordOutside);
    }
    let n = block.word;
    // no loop: it would want an invariant about a block that is drawn in part, and these lines show the layout
    put(storage, n, block.words[0]);
    put(storage, n + 1, block.words[1]);
    put(storage, n + 2, block.words[2]);
    put(storage, n + 3, block.words[3]);
    Ok(())
}

// Writes blocks, in their order; the first one that has no room ends it.
pub fn draw_all<S: Storage, B: AsBlock>(storage: &mut S, items: &[B]) -> Result<(), Refusal>
    ensures answer { result ≡ draw_all_answer (S.ReadStorage.words storage.old) (map B.block items.now) }
    ensures after { S.ReadStorage.words storage.new ≡ drawn_all (S.ReadStorage.words storage.old) (map B.block items.now) }
    ensures whole { MatchResult result (λ _. S.ReadStorage.words storage.new ≡ fold drawn (S.ReadStorage.words storage.old) (map B.block items.now)) (λ e. e ≡ WordOutside) }
    ensures lenders { S.Storage.lenders storage.new ≡ S.Storage.lenders storage.old }
{
    for item in items {
        draw(storage, item)?;
    }
    Ok(())
}
