ghost use Rattle.std.specs.Prelude.{◌≡◌};

use paging::draft::{Draft, RefusedDraft};
use paging::form::{Form2K, PageForm};
use std::io;

// The plan of the trial restore.
pub fn plan_of<F>(form: F) -> Draft<F>
    ensures { result ≡ record { form = form; exponent = 16; base = 2 } }
{
    Draft {
        form,
        exponent: 16,
        base: 2,
    }
}

// Drafts a plan of 2^25 bytes, which no unit has, and prints what comes of it.
pub fn show_refused_plan(rt: &impl Print) -> io::Result<()> {
    let draft = Draft {
        form: Form2K,
        exponent: 25,
        base: 2,
    };
    match draft.settle() {
        Ok(_plan) => println!(rt; "A plan of 2^25 bytes is settled.")?,
        Err(refused) => {
            let RefusedDraft { draft, refusal } = refused;
            let exponent = draft.exponent;
            let base = draft.base;
            println!(rt; "A plan of 2^25 bytes is not settled: {refusal}.")?;
            println!(rt; "Its draft comes back as it was: exponent {exponent}, base {base}.")?;
        }
    }
    Ok(())
}

// Prints the plan of the trial restore under a page form.
pub fn show_plan<F: PageForm + Drop>(rt: &impl Print, form: F) -> io::Result<()> {
    let page = F::geometry().page;
    match plan_of(form).settle() {
        Ok(plan) => {
            let pages = plan.page_count();
            let table = plan.table();
            let start = table.start.number;
            let entries = table.entries;
            println!(rt;
                "A plan of 2^16 bytes in pages of {page} is settled: {pages} pages, {entries} table entries from byte {start}."
            )
        }
        Err(refused) => {
            let refusal = refused.refusal;
            println!(rt; "A plan of 2^16 bytes in pages of {page} is not settled: {refusal}.")
        }
    }
}
