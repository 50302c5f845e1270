ghost use Rattle.std.specs.Prelude.{◌≡◌, length};
ghost use Rattle.storage.specs.Copy.{copy_of, copied};

use crate::words::{ReadStorage, Storage};
use refusals::refusal::Refusal;

// Copies every word of one storage to the start of another, which has to have as many words or more.
#[tactic(auto, using(crate::proofs::Copies::copies))]
pub fn copy_words<A: ReadStorage, B: Storage>(from: &A, to: &mut B) -> Result<(), Refusal>
    ensures answer { result ≡ copy_of (A.ReadStorage.words from.now) (B.ReadStorage.words to.old) }
    ensures after { B.ReadStorage.words to.new ≡ copied (A.ReadStorage.words from.now) (B.ReadStorage.words to.old) }
    ensures alike { length (A.ReadStorage.words from.now) ≡ length (B.ReadStorage.words to.old) → B.ReadStorage.words to.new ≡ A.ReadStorage.words from.now }
    ensures lenders { B.Storage.lenders to.new ≡ B.Storage.lenders to.old }
{
    let count = from.count();
    if count > to.count() {
        return Err(Refusal::WordOutside);
    }
    // by number, since a storage lends no slice that an iterator could go over
    for n in 0..count {
        let word = from.read(n)?;
        to.write(n, word, 15)?;
    }
    Ok(())
}
