use crate::checking::run_both;
use crate::every_two::{PairTest, on_every_two};
use crate::script::{Line, accepted, done, loads, refused, script_of, shows, stores};
use crate::support::{NO_CAUSES, NOTHING, at, first_word, none_at, ordinary, up_to};
use crate::tables::{entry_count, put_table};
use crate::world::fill;
use exceptions::registers::{Causes, Exceptions};
use lanes::width::Width;
use paging::address::EffectiveAddress;
use paging::form::{Form2K, Form4K, PageForm};
use refusals::refusal::Refusal;
use runs::call::{Call, Reply};
use runs::set_up::RegisterWrite;
use std::alloc::Global;
use std::process::Abort;
use std::test::Fail;
use storage::words::Storage;

// A chain without an end: entry 6, with page 30 of segment 2, and entry 7, with page 50, point to each other. Pages 10, 30 and 50
// begin there, with 2 XOR each of them: 12, 32 and 52, or 18, 50 and 82. That is anchor 18 in 2K and 2 in 4K.
fn lay_out<F: PageForm, S: Storage>(storage: &mut S) -> Result<(), Fail> {
    fill::<F, S>(storage, 0)?;
    let rows = [(6, 0x8004_0000, 0x30, 7, 0), (7, 0x8004_0000, 0x50, 6, 0)];
    put_table::<F, S>(storage, &[(0x12, 6)], &rows)
}

// How the walk for page 10 ends. With the long-stop bit on that is after 127 entries (10): an odd number, so that entry 6 is the
// last. With it off it is after as many as the table has (12), 32 or 16, and entry 7 is the last.
fn stopped<F: PageForm>(on: bool) -> Reply {
    if on {
        refused(Refusal::LongSearch, up_to(127, 6))
    } else {
        refused(Refusal::EndlessChain, up_to(entry_count::<F>(), 7))
    }
}

// 10 raises I, and 12 nothing, so that the address is 0 as after power-on. With 10 it is that of the load, which came first; the
// store, which came second, sets M.
fn raised(on: bool, multiple: bool, address: EffectiveAddress) -> Exceptions {
    if !on {
        return none_at(EffectiveAddress { number: 0 });
    }
    Exceptions {
        causes: Causes {
            long_stop: true,
            ..NO_CAUSES
        },
        multiple,
        load: true,
        address,
        locked: true,
    }
}

// The walks to pages 30 and 50 end before any limit, and the buffers keep them; that for page 10 alters no entry of theirs,
// though it has the same class. A clear leaves the address. Word 1 of real page 7 holds its number in both halves.
fn lines_of<F: PageForm>(on: bool) -> [Line; 9] {
    let address = at::<F>(1, 0x10, 3);
    let n = first_word::<F>(7) | 1;
    let kept = raised(on, true, address).address;
    [
        loads(
            at::<F>(1, 0x50, 4),
            Width::Word,
            accepted(n << 16 | n, up_to(2, 7)),
        ),
        loads(address, Width::Byte, stopped::<F>(on)),
        shows(raised(on, false, address)),
        stores(at::<F>(2, 0x10, 8), Width::Word, 1, stopped::<F>(on)),
        shows(raised(on, true, address)),
        loads(at::<F>(2, 0x50, 6), Width::Halfword, accepted(n, NOTHING)),
        stores(
            at::<F>(2, 0x30, 0),
            Width::Byte,
            1,
            accepted(0, up_to(1, 6)),
        ),
        done(Call::ClearExceptions),
        shows(none_at(kept)),
    ]
}

#[derive(Drop)]
struct Endless<F> {
    form: F,
    on: bool,
}

// The later write of the bit stands.
impl<F: PageForm + Copy + Drop> PairTest for Endless<F> {
    fn on<A: Storage, B: Storage>(
        &self,
        rt: &impl Abort,
        heap: Global,
        first: &mut A,
        second: &mut B,
    ) -> Result<(), Fail> {
        lay_out::<F, A>(first)?;
        lay_out::<F, B>(second)?;
        let script = script_of(heap, &lines_of::<F>(self.on))?;
        let writes = [
            RegisterWrite::LongStop(!self.on),
            RegisterWrite::Segment(1, ordinary(2, false)),
            RegisterWrite::Segment(2, ordinary(2, true)),
            RegisterWrite::LongStop(self.on),
        ];
        run_both(rt, heap, self.form, &writes, &script, first, second)
    }
}

#[test]
fn a_chain_without_an_end(rt: HostRuntime) -> Result<(), Fail> {
    for on in [true, false] {
        on_every_two(&rt, rt.alloc(), &Endless { form: Form2K, on })?;
        on_every_two(&rt, rt.alloc(), &Endless { form: Form4K, on })?;
    }
    Ok(())
}
