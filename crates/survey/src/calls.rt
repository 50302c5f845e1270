ghost use Rattle.std.specs.Prelude.{◌≡◌, ◌+◌, ◌*◌, ◌%◌, ◌<◌, length, IfOk};
ghost use Rattle.survey_image.specs.Layout.{effective};
ghost use Rattle.survey.specs.Calls.{MarkerCalls};
ghost use Rattle.runs.specs.declared.call.Call.TheVariants.{Load};
ghost use Rattle.lanes.specs.declared.width.Width.TheVariants.{Word};

use lanes::width::Width;
use paging::form::PageForm;
use runs::call::Call;
use std::alloc::{AllocError, Global};
use survey_image::layout::effective_address;
use survey_image::marker::Site;

// The real address of a word of a marker.
fn word_address(site: u16, word: u8) -> u16
    requires { word < 4 }
    ensures { result ≡ (site + 4 * word) % 65536 }
{
    ((u32::from(site) + 4 * u32::from(word)) % 65536) as u16
}

// The loads that read all markers, four words each, the markers in turn through register 1 and register 2.
pub fn marker_calls<F: PageForm>(heap: Global, sites: &[Site]) -> Result<Vec<Call>, AllocError>
    ensures { IfOk result (λ v. MarkerCalls F.PageForm.sizes sites.now (4 * length sites.now) v.items) }
{
    let mut calls = Vec::new(heap);
    for (n, site) in sites.iter().enumerate() {
        let register = (1 + n % 2) as u8;
        // over the numbers of a marker's words, which are places and no items
        for word in 0..4 {
            let address = effective_address::<F>(register, word_address(site.address, word));
            calls.push(Call::Load(address, Width::Word))?;
        }
    }
    Ok(calls)
}
