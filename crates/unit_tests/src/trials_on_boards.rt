use crate::on_boards::{
    BoardTest, REVERSED, on_dump_board, on_interleaved_pair, on_ram_board, on_stacked_pair,
};
use crate::trial_answers::all_on;
use boards::ram::RamBoard;
use paging::form::{Form2K, Form4K, PageForm};
use refusals::refusal::Refusal;
use std::process::Abort;
use std::test::Fail;
use storage::words::Storage;
use trials::running::run_trial;
use trials::table::all_trials;

// All trials in one form. The table of the bench image has 32 entries in pages of 2,048 bytes and 16 in pages of 4,096.
struct InForm<F> {
    form: F,
    entries: u16,
}

impl<F: PageForm + Copy> BoardTest for InForm<F> {
    fn on<S: Storage>(&self, rt: &impl Abort, board: &mut S) -> Result<(), Fail> {
        all_on(rt, self.form, board, self.entries)
    }
}

const IN_2K: InForm<Form2K> = InForm {
    form: Form2K,
    entries: 32,
};

const IN_4K: InForm<Form4K> = InForm {
    form: Form4K,
    entries: 16,
};

// All trials in one form and then in the other, on the same board.
struct InTurn;

impl BoardTest for InTurn {
    fn on<S: Storage>(&self, rt: &impl Abort, board: &mut S) -> Result<(), Fail> {
        IN_2K.on(rt, board)?;
        IN_4K.on(rt, board)
    }
}

#[test]
fn trials_on_a_ram_board(rt: HostRuntime) -> Result<(), Fail> {
    on_ram_board(&rt, rt.alloc(), &InTurn)?;
    Ok(())
}

#[test]
fn trials_on_a_dump_board(rt: HostRuntime) -> Result<(), Fail> {
    on_dump_board(&rt, rt.alloc(), &REVERSED, &InTurn)?;
    Ok(())
}

#[test]
fn trials_on_an_interleaved_pair(rt: HostRuntime) -> Result<(), Fail> {
    on_interleaved_pair(&rt, rt.alloc(), &IN_2K)?;
    on_interleaved_pair(&rt, rt.alloc(), &IN_4K)?;
    Ok(())
}

// The first storage ends within the page table.
#[test]
fn trials_on_a_stacked_pair(rt: HostRuntime) -> Result<(), Fail> {
    on_stacked_pair(&rt, rt.alloc(), 1100, 64436, &IN_2K)?;
    on_stacked_pair(&rt, rt.alloc(), 1100, 64436, &IN_4K)?;
    Ok(())
}

// A storage of another size than the bench image has is refused with 4.
#[test]
fn a_storage_of_another_size(rt: HostRuntime) -> Result<(), Fail> {
    let mut bytes = vec![in rt.alloc(); 0u8; 65540]?;
    for trial in all_trials().iter() {
        match run_trial(Form2K, &mut RamBoard::new(&mut bytes), trial) {
            Ok(_outcome) => return Err(Fail::new("the trial ran")),
            Err(refusal) => assert_eq!(rt; refusal, Refusal::SizeDiffers),
        }
    }
    Ok(())
}
