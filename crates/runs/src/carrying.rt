ghost use Rattle.std.specs.Prelude.{◌≡◌};
ghost use Rattle.paging.specs.Numbers.{numbers_of};
ghost use Rattle.runs.specs.Step.{reply_of, state_after, words_after};

use crate::call::{Call, Reply};
use mmu::unit::MemoryUnit;
use paging::form::PageForm;
use storage::words::{ReadStorage, Storage};

// Carries one call out.
pub fn carry_out<F: PageForm, S: Storage>(
    unit: &mut MemoryUnit<F>,
    storage: &mut S,
    call: Call,
) -> Reply
    ensures reply { result ≡ reply_of (numbers_of unit.old.plan) (S.ReadStorage.words storage.old) unit.old.state call }
    ensures state { unit.new.state ≡ state_after (numbers_of unit.old.plan) (S.ReadStorage.words storage.old) unit.old.state call }
    ensures words { S.ReadStorage.words storage.new ≡ words_after (numbers_of unit.old.plan) (S.ReadStorage.words storage.old) unit.old.state call }
    ensures plan { unit.new.plan ≡ unit.old.plan }
    ensures lenders { S.Storage.lenders storage.new ≡ S.Storage.lenders storage.old }
{
    // A call is data, so that a run can be written down. No closure could be compared or kept.
    match call {
        Call::Load(address, width) => Reply::Request(unit.load(storage, address, width)),
        Call::Store(address, width, value) => {
            Reply::Request(unit.store(storage, address, width, value))
        }
        Call::ReadExceptions => Reply::Exceptions(unit.exceptions()),
        Call::ClearExceptions => {
            unit.clear_exceptions();
            Reply::Cleared(Ok(()))
        }
        Call::ReadMark(page) => Reply::Mark(unit.page_mark(page)),
        Call::ClearMark(page) => Reply::Cleared(unit.clear_page_mark(page)),
        Call::PurgeAll => {
            unit.purge_all();
            Reply::Cleared(Ok(()))
        }
        Call::PurgeSegment(number) => Reply::Cleared(unit.purge_segment(number)),
        Call::PurgePage(address) => {
            unit.purge_page(address);
            Reply::Cleared(Ok(()))
        }
    }
}
