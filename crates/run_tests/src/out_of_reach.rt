use crate::every_two::{PairTest, on_every_two};
use crate::whole_runs::LongRun;
use crate::world::{filled, is_out_of_reach, lay_out};
use paging::form::{Form2K, Form4K, PageForm};
use std::alloc::Global;
use std::process::Abort;
use std::test::Fail;
use storage::words::{ReadStorage, Storage};

// All bytes of a word out of reach differ in the two storages, as their salts do.
const FIRST_SALT: u32 = 0x1111_1111;

const SECOND_SALT: u32 = 0xf0e0_d0c0;

#[derive(Drop)]
struct Apart<F> {
    form: F,
}

// The words out of reach differ, and no others. The long run is answered alike, and each storage keeps its own words there.
impl<F: PageForm + Copy + Drop> PairTest for Apart<F> {
    fn on<A: Storage, B: Storage>(
        &self,
        rt: &impl Abort,
        heap: Global,
        first: &mut A,
        second: &mut B,
    ) -> Result<(), Fail> {
        lay_out::<F, A>(first, FIRST_SALT)?;
        lay_out::<F, B>(second, SECOND_SALT)?;
        for n in 0u32..16384 {
            let differ = first.read(n)? != second.read(n)?;
            assert_eq!(rt; differ, is_out_of_reach::<F>(n), "word {n}");
        }
        let run = LongRun {
            form: self.form,
            first_salt: FIRST_SALT,
            second_salt: SECOND_SALT,
        };
        run.on(rt, heap, first, second)?;
        for n in 0u32..16384 {
            if is_out_of_reach::<F>(n) {
                assert_eq!(rt; first.read(n)?, filled::<F>(n, FIRST_SALT), "word {n}");
                assert_eq!(rt; second.read(n)?, filled::<F>(n, SECOND_SALT), "word {n}");
            }
        }
        Ok(())
    }
}

#[test]
fn words_out_of_reach_are_not_seen(rt: HostRuntime) -> Result<(), Fail> {
    on_every_two(&rt, rt.alloc(), &Apart { form: Form2K })?;
    on_every_two(&rt, rt.alloc(), &Apart { form: Form4K })
}
