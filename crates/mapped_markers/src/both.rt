ghost use Rattle.std.specs.Prelude.{◌≡◌, ◌*◌, length, IfOk, Decides};
ghost use Rattle.paging.specs.Numbers.{drafted};
ghost use Rattle.paging.specs.Plan.{storage_bytes};
ghost use Rattle.boards.specs.Ram.{ram_words};
ghost use Rattle.unit_state.specs.State.{powered_on};
ghost use Rattle.unit_state.specs.Grants.{Closed};
ghost use Rattle.runs.specs.SetUp.{set_up};
ghost use Rattle.mapped_markers.specs.Copies.{OnCopies};

use crate::calls::purging_calls;
use anyhow::bail;
use boards::interleaved::Interleaved;
use boards::ram::RamBoard;
use dump_board::board::DumpBoard;
use mmu::unit::MemoryUnit;
use paging::draft::Draft;
use paging::form::PageForm;
use paging::plan::SettledPlan;
use refusals::refusal::Refusal;
use runs::call::Call;
use runs::set_up::write_registers;
use runs::twice::{TwoRuns, run_twice};
use std::alloc::Global;
use storage::words::{ReadStorage, Storage};
use survey::call_check::REGISTERS;
use survey::on_boards::{IMAGE_BYTES, SHUFFLED, lay_out};
use survey::trouble::Trouble;
use survey_report::plans::plan_of;
use unit_state::translate::has_size;

// Whether no word of the page table of a storage is granted for storing, by the registers of a check.
fn table_closed<F: PageForm + Drop, S: ReadStorage>(
    draft: Draft<F>,
    storage: &S,
) -> Result<(bool, Draft<F>), Trouble>
    ensures { IfOk result (λ r. (4 * length (S.ReadStorage.words storage.now) ≡ storage_bytes draft.exponent) × Decides r.0 (Closed (drafted F.PageForm.sizes draft) (S.ReadStorage.words storage.now) (set_up powered_on REGISTERS)) × (r.1 ≡ draft)) }
{
    let plan = draft.settle()?;
    // in a storage of another size no word is granted at all, which says nothing of its table
    if !has_size(&plan, storage) {
        return Err(Trouble::Refused(Refusal::SizeDiffers));
    }
    let mut unit = MemoryUnit::power_on(plan);
    write_registers(&mut unit, &REGISTERS);
    let closed = unit.table_is_closed(storage);
    Ok((closed, unit.end()))
}

// What the same calls came to on two boards that hold one image, and whether its page table is closed against stores.
#[derive(Drop)]
struct OnBoth<F: Drop> {
    runs: TwoRuns<F>,
    closed: bool,
}

// Lays an image out on two boards, and carries the same calls out on both. They are of any makes, so that of them the law knows
// only that they are alike.
fn run_on_copies<F: PageForm + Drop, R: ReadStorage, A: Storage, B: Storage>(
    heap: Global,
    draft: Draft<F>,
    calls: &[Call],
    image: &R,
    first: &mut A,
    second: &mut B,
) -> Result<OnBoth<F>, Trouble>
    ensures { IfOk result (OnCopies F.PageForm.sizes draft (R.ReadStorage.words image.now) (set_up powered_on REGISTERS)) }
{
    lay_out(image, first)?;
    lay_out(image, second)?;
    let (closed, draft) = table_closed(draft, image)?;
    let runs = run_twice(heap, draft, &REGISTERS, calls, first, second)?;
    Ok(OnBoth { runs, closed })
}

// Carries the same calls out on two interleaved banks and on a dump with shuffled blocks.
fn run_on_both<F: PageForm + Drop>(
    heap: Global,
    draft: Draft<F>,
    calls: &[Call],
    image: &mut [u8],
) -> Result<OnBoth<F>, Trouble>
    ensures { IfOk result (OnCopies F.PageForm.sizes draft (ram_words image.old) (set_up powered_on REGISTERS)) }
{
    let mut even = vec![in heap; 0u8; IMAGE_BYTES / 2]?;
    let mut odd = vec![in heap; 0u8; IMAGE_BYTES / 2]?;
    let mut blocks = vec![in heap; 0u8; IMAGE_BYTES]?;
    let mut banks = Interleaved::new(RamBoard::new(&mut even), RamBoard::new(&mut odd));
    let mut dump = DumpBoard::new(&mut blocks);
    dump.fill(&SHUFFLED)?;
    run_on_copies(
        heap,
        draft,
        calls,
        &RamBoard::new(image),
        &mut banks,
        &mut dump,
    )
}

// Prints whether the replies on both boards are the same, and why they are. Other replies end the program.
fn show_runs<F: Drop>(rt: &HostRuntime, what: &str, both: &OnBoth<F>) -> anyhow::Result<()> {
    if both.runs.first.as_slice() != both.runs.second.as_slice() {
        println!(rt; "{what}: other replies.")?;
        bail!("the same calls got other replies on another board");
    }
    println!(rt; "{what}: the same replies.")?;
    if both.closed {
        println!(rt;
            "They had to be: no word of the page table is granted for storing, and the storages are alike in the table and in every word that is granted for loading."
        )?;
    } else {
        println!(rt;
            "The table is not closed: a word of it is granted for storing. So it is not the law over runs that says why, but that both boards hold the same words."
        )?;
    }
    Ok(())
}

// Gives the page that holds the table key 11, which permits loads alone. The table of 64 KiB lies in one page, and the program
// prints whether it is closed then.
fn bar_stores<F: PageForm>(image: &mut [u8], plan: &SettledPlan<F>) -> Result<(), Trouble> {
    let start = plan.table().start.number;
    let entry = start / 4 + 4 * (start / F::geometry().page);
    let mut board = RamBoard::new(image);
    let word = board.read(entry)?;
    board.write(entry, word | (0b11 << 30), 15)?;
    Ok(())
}

// Makes the same calls on two boards of different makes: with the image as it is, whose table a store could reach, and with one
// whose table none can.
pub fn show_both<F: PageForm + Copy>(
    rt: &HostRuntime,
    form: F,
    plan: &SettledPlan<F>,
    image: &mut [u8],
) -> anyhow::Result<()> {
    let heap = rt.alloc();
    let calls = purging_calls::<F>(heap)?;
    let mut barred = image.to_vec(heap)?;
    let open = run_on_both(heap, plan_of(form), &calls, image)?;
    show_runs(
        rt,
        "The same calls on two interleaved banks and on a dump with shuffled blocks",
        &open,
    )?;
    bar_stores(&mut barred, plan)?;
    let closed = run_on_both(heap, plan_of(form), &calls, &mut barred)?;
    show_runs(rt, "The same with key 11 on the page of the table", &closed)
}
