#![tactic(auto, using(crate::proofs::Failing::failing))]

ghost use Rattle.std.specs.Prelude.{◌≡◌, IfOk, IfErr, OnOk};
ghost use Rattle.paging.specs.Numbers.{drafted};
ghost use Rattle.boards.specs.Ram.{ram_words};
ghost use Rattle.survey.specs.Check.{Checked, StopsCheck, StopsOnBoard};

use crate::board_check::BoardCheck;
use crate::findings::Findings;
use crate::trouble::Trouble;
use boards::interleaved::Interleaved;
use boards::ram::RamBoard;
use boards::stacked::Stacked;
use dump_board::board::DumpBoard;
use paging::draft::Draft;
use paging::form::PageForm;
use refusals::refusal::Refusal;
use std::alloc::Global;
use storage::copy::copy_words;
use storage::words::{ReadStorage, Storage};

pub const IMAGE_BYTES: usize = 65536;

// The page that each block of the dump holds.
pub const SHUFFLED: [u16; 32] = [
    5, 18, 31, 12, 25, 6, 19, 0, 13, 26, 7, 20, 1, 14, 27, 8, 21, 2, 15, 28, 9, 22, 3, 16, 29, 10,
    23, 4, 17, 30, 11, 24,
];

// Lays an image out on a board of the same size.
pub fn lay_out<A: ReadStorage, B: Storage>(source: &A, board: &mut B) -> Result<(), Trouble>
    ensures after { OnOk result (B.ReadStorage.words board.new ≡ A.ReadStorage.words source.now) }
    ensures lenders { B.Storage.lenders board.new ≡ B.Storage.lenders board.old }
    ensures trouble { IfErr result StopsCheck }
{
    if source.count() != board.count() {
        return Err(Trouble::Refused(Refusal::SizeDiffers));
    }
    copy_words(source, board)?;
    Ok(())
}

// What a check gives is the clause `Checked` of each function here, and no ghost field: such a field speaks of the fields beside
// it, and not of the image and the check, which are only lent.
//
// Lays an image out on a board, and checks it there. Heap, draft, image and check are no struct, since the draft goes into a unit
// and comes back, while the others are only lent.
fn on_board<F: PageForm + Drop, S: Storage, C: BoardCheck>(
    heap: Global,
    draft: Draft<F>,
    image: &mut [u8],
    board: &mut S,
    check: &C,
) -> Result<(Findings<C::Item>, Draft<F>), Trouble>
    ensures checked { IfOk result (Checked F.PageForm.sizes draft (C.Found (drafted F.PageForm.sizes draft) (ram_words image.old) check.now) (C.left (drafted F.PageForm.sizes draft) (ram_words image.old) check.now)) }
    ensures trouble { IfErr result (StopsOnBoard C.Stops) }
{
    lay_out(&RamBoard::new(image), board)?;
    check.check_storage(heap, draft, board)
}

// Checks a copy of an image on a RAM board.
pub fn on_ram_board<F: PageForm + Drop, C: BoardCheck>(
    heap: Global,
    draft: Draft<F>,
    image: &mut [u8],
    check: &C,
) -> Result<(Findings<C::Item>, Draft<F>), Trouble>
    ensures checked { IfOk result (Checked F.PageForm.sizes draft (C.Found (drafted F.PageForm.sizes draft) (ram_words image.old) check.now) (C.left (drafted F.PageForm.sizes draft) (ram_words image.old) check.now)) }
    ensures trouble { IfErr result (StopsOnBoard C.Stops) }
{
    let mut copy = vec![in heap; 0u8; IMAGE_BYTES]?;
    let mut board = RamBoard::new(&mut copy);
    on_board(heap, draft, image, &mut board, check)
}

// Checks an image on two banks as an interleaved pair. That pair and the stacked one are made apart: a parameter that makes
// either would have to name how long the banks are lent.
pub fn on_interleaved_banks<F: PageForm + Drop, C: BoardCheck>(
    heap: Global,
    draft: Draft<F>,
    image: &mut [u8],
    check: &C,
) -> Result<(Findings<C::Item>, Draft<F>), Trouble>
    ensures checked { IfOk result (Checked F.PageForm.sizes draft (C.Found (drafted F.PageForm.sizes draft) (ram_words image.old) check.now) (C.left (drafted F.PageForm.sizes draft) (ram_words image.old) check.now)) }
    ensures trouble { IfErr result (StopsOnBoard C.Stops) }
{
    let mut even = vec![in heap; 0u8; IMAGE_BYTES / 2]?;
    let mut odd = vec![in heap; 0u8; IMAGE_BYTES / 2]?;
    let mut board = Interleaved::new(RamBoard::new(&mut even), RamBoard::new(&mut odd));
    on_board(heap, draft, image, &mut board, check)
}

// Checks an image on two banks as a stacked pair.
pub fn on_stacked_banks<F: PageForm + Drop, C: BoardCheck>(
    heap: Global,
    draft: Draft<F>,
    image: &mut [u8],
    check: &C,
) -> Result<(Findings<C::Item>, Draft<F>), Trouble>
    ensures checked { IfOk result (Checked F.PageForm.sizes draft (C.Found (drafted F.PageForm.sizes draft) (ram_words image.old) check.now) (C.left (drafted F.PageForm.sizes draft) (ram_words image.old) check.now)) }
    ensures trouble { IfErr result (StopsOnBoard C.Stops) }
{
    let mut low = vec![in heap; 0u8; IMAGE_BYTES / 2]?;
    let mut high = vec![in heap; 0u8; IMAGE_BYTES / 2]?;
    let mut board = Stacked::new(RamBoard::new(&mut low), RamBoard::new(&mut high));
    on_board(heap, draft, image, &mut board, check)
}

// Checks an image on a dump board whose blocks are shuffled.
pub fn on_dump_board<F: PageForm + Drop, C: BoardCheck>(
    heap: Global,
    draft: Draft<F>,
    image: &mut [u8],
    check: &C,
) -> Result<(Findings<C::Item>, Draft<F>), Trouble>
    ensures checked { IfOk result (Checked F.PageForm.sizes draft (C.Found (drafted F.PageForm.sizes draft) (ram_words image.old) check.now) (C.left (drafted F.PageForm.sizes draft) (ram_words image.old) check.now)) }
    ensures trouble { IfErr result (StopsOnBoard C.Stops) }
{
    let mut blocks = vec![in heap; 0u8; IMAGE_BYTES]?;
    let mut board = DumpBoard::new(&mut blocks);
    board.fill(&SHUFFLED)?;
    on_board(heap, draft, image, &mut board, check)
}
