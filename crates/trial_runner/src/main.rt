#![tactic(auto)]

use boards::ram::RamBoard;
use paging::form::Form2K;
use refusals::refusal::Refusal;
use trials::running::run_trial;
use trials::table::all_trials;
use unit_state::answers::answer_number;

// Runs the twenty trials on a RAM board, and prints the number of each trial and of its answer.
fn run(rt: &HostRuntime) -> anyhow::Result<()> {
    let mut image = vec![in rt.alloc(); 0u8; 65536]?;
    let trials = all_trials();
    for (number, trial) in (1u8..21).zip(trials.iter()) {
        let reply = match run_trial(Form2K, &mut RamBoard::new(&mut image), trial) {
            Ok(outcome) => answer_number(&outcome.answer),
            Err(refusal) => refusal.number(),
        };
        println!(rt; "{number} {reply}")?;
    }
    Ok(())
}

fn main(rt: HostRuntime) -> anyhow::Result<()> {
    run(&rt)
}
