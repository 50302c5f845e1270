ghost use Rattle.std.specs.Prelude.{◌≡◌, ◌%◌, ◌≤◌};
ghost use Rattle.survey_image.specs.Layout.{virtual_page, effective};

use paging::address::EffectiveAddress;
use paging::form::PageForm;
use paging::smallest::page_count;

// The virtual page that a real page holds.
pub fn virtual_page<F: PageForm>(page: u8) -> u32
    ensures is { result ≡ virtual_page F.PageForm.sizes page }
    ensures few { result ≤ 1023 }
{
    let page = u32::from(page);
    page % 8 + page_count::<F>() * (page / 8)
}

// The effective address, through a register, of the byte at a real address.
pub fn effective_address<F: PageForm>(register: u8, address: u16) -> EffectiveAddress
    ensures { result.number ≡ effective F.PageForm.sizes (register % 16) address }
{
    let form = F::geometry();
    let address = u32::from(address);
    let page = virtual_page::<F>((address / form.page) as u8);
    EffectiveAddress {
        number: ((u32::from(register) % 16) << 28) + page * form.page + address % form.page,
    }
}
