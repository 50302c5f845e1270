ghost use Rattle.std.specs.Prelude.{◌≡◌, ◌<◌, ◌≤◌, true, length, is_ok, IfOk};
ghost use Rattle.paging.specs.Numbers.{numbers_of};
ghost use Rattle.trials.specs.Running.{bench_plan, spot_of, address_of, answer_by, state_by, words_by, outcome_by, outcome_in, outcome_of};

use crate::bench::{BenchRequest, Spot, Trial, TrialOutcome};
use crate::image::BenchImage;
use mmu::unit::MemoryUnit;
use paging::address::EffectiveAddress;
use paging::draft::Draft;
use paging::form::PageForm;
use paging::smallest::page_count;
use protection::access_type::AccessType;
use refusals::refusal::Refusal;
use storage::copy::copy_words;
use storage::words::{ReadStorage, Storage};
use unit_state::answers::Answer;

fn spot_of<F: PageForm>(spot: Spot) -> u32
    ensures is { result ≡ spot_of F.PageForm.sizes spot }
    ensures low { result ≤ 256 }
{
    let line = F::geometry().line;
    match spot {
        Spot::First => 0,
        Spot::Fifth => 4,
        Spot::EndOfLine => line - 1,
        Spot::NextLine => line,
    }
}

fn address_of<F: PageForm>(request: BenchRequest) -> EffectiveAddress
    ensures { result ≡ address_of F.PageForm.sizes request }
{
    let page = u32::from(request.page) * F::geometry().page;
    EffectiveAddress {
        number: (1 << 28) + page + spot_of::<F>(request.spot),
    }
}

// Makes the request of a trial.
fn ask<F: PageForm, S: Storage>(
    unit: &mut MemoryUnit<F>,
    storage: &mut S,
    request: BenchRequest,
) -> Answer
    requires { numbers_of unit.old.plan ≡ bench_plan F.PageForm.sizes }
    ensures answer { result ≡ answer_by F.PageForm.sizes request request.access (S.ReadStorage.words storage.old) unit.old.state }
    ensures state { unit.new.state ≡ state_by F.PageForm.sizes request request.access (S.ReadStorage.words storage.old) unit.old.state }
    ensures plan { unit.new.plan ≡ unit.old.plan }
    ensures words { S.ReadStorage.words storage.new ≡ words_by F.PageForm.sizes request request.access (S.ReadStorage.words storage.old) unit.old.state }
    ensures lenders { S.Storage.lenders storage.new ≡ S.Storage.lenders storage.old }
{
    let address = address_of::<F>(request);
    // a trial is a row of a table, so what it asks is data and no closure
    match request.access {
        AccessType::Load => unit.load(storage, address, request.width),
        AccessType::Store => unit.store(storage, address, request.width, 0),
    }
}

// Makes the request of a trial, twice where the trial says so, and says what came of it.
fn ask_all<F: PageForm, S: Storage>(
    unit: &mut MemoryUnit<F>,
    storage: &mut S,
    trial: &Trial,
) -> TrialOutcome
    requires { numbers_of unit.old.plan ≡ bench_plan F.PageForm.sizes }
    ensures outcome { result ≡ outcome_in F.PageForm.sizes trial.now (S.ReadStorage.words storage.old) unit.old.state }
    ensures lenders { S.Storage.lenders storage.new ≡ S.Storage.lenders storage.old }
{
    let first = ask(unit, storage, trial.request);
    let answer = if trial.again {
        ask(unit, storage, trial.request)
    } else {
        first
    };
    TrialOutcome {
        answer,
        exceptions: unit.exceptions().word(),
    }
}

// Runs a trial afresh on a storage of 64 KiB, whatever its make: the bench image is laid out on it, and a unit is powered on.
#[tactic(auto, using(storage::proofs::Tabulated::tables))]
pub fn run_trial<F: PageForm + Copy, S: Storage>(
    form: F,
    storage: &mut S,
    trial: &Trial,
) -> Result<TrialOutcome, Refusal>
    ensures outcome { IfOk result (λ o. o ≡ outcome_of F.PageForm.sizes trial.now) }
    ensures runs { length (S.ReadStorage.words storage.old) ≡ 16384 → trial.now.register.segment ≤ 4095 → is_ok result ≡ true }
    ensures lenders { S.Storage.lenders storage.new ≡ S.Storage.lenders storage.old }
{
    let image = BenchImage {
        form,
        trial: *trial,
    };
    if storage.count() != image.count() {
        return Err(Refusal::SizeDiffers);
    }
    copy_words(&image, storage)?;
    let draft = Draft {
        form,
        exponent: 16,
        base: 64 / page_count::<F>(),
    };
    let plan = draft.settle().map_err(|refused| refused.refusal)?;
    let mut unit = MemoryUnit::power_on(plan);
    unit.write_segment(1, trial.register)?;
    unit.write_long_stop(trial.long_stop);
    Ok(ask_all(&mut unit, storage, trial))
}
