ghost use Rattle.std.specs.Prelude.{◌≡◌, ◌≤◌};
ghost use Rattle.paging.specs.Plan.{page_count};

use crate::form::PageForm;

// The bytes of a storage at the smallest exponent, 16.
const SMALLEST_STORAGE: u32 = 65536;

// The number of real pages at the smallest exponent.
pub fn page_count<F: PageForm>() -> u32
    ensures is { result ≡ page_count F.PageForm.sizes 16 }
    ensures few { result ≤ 32 }
{
    SMALLEST_STORAGE / F::geometry().page
}
