ghost use Rattle.std.specs.Prelude.{◌≡◌, true, ◌<◌};
ghost use Rattle.protection.specs.Permission.{is_load, key_permits, lock_bit, locks_permit, permitted, StoreImpliesLoad};

use crate::access_type::AccessType;
use crate::register::SegmentRegister;
use page_table::entry::PageEntry;
use paging::address::VirtualAddress;
use paging::form::PageForm;

impl AccessType {
    pub fn is_load(self) -> bool
        ensures { result ≡ is_load self }
    {
        matches!(self, AccessType::Load)
    }
}

// In an ordinary segment. The key of a page is two bits of its table word, and stays the number that it is in `PageEntry`.
fn key_permits(page_key: u8, segment_key: bool, access: AccessType) -> bool
    ensures { result ≡ key_permits page_key segment_key access }
{
    match page_key {
        0 => !segment_key,
        1 => !segment_key || access.is_load(),
        2 => true,
        _ => access.is_load(),
    }
}

// The lock bit of a line.
fn lock_bit(locks: u16, line: u32) -> bool
    requires { line < 16 }
    ensures { result ≡ lock_bit locks line }
{
    (locks >> (15 - line)) % 2 == 1
}

// In a special segment.
fn locks_permit(write: bool, lock: bool, access: AccessType) -> bool
    ensures { result ≡ locks_permit write lock access }
{
    // the table of the machine, row by row
    match access {
        AccessType::Load => write || lock,
        AccessType::Store => write && lock,
    }
}

// Whether a page may be used in the way asked for, at an address, through a segment register, under a transaction ID.
pub fn permits<F: PageForm>(
    register: SegmentRegister,
    page: PageEntry,
    transaction: u8,
    address: VirtualAddress,
    access: AccessType,
) -> bool
    ensures is { result ≡ permitted F.PageForm.sizes register page transaction address.offset access }
    ensures law { StoreImpliesLoad F.PageForm.sizes register page transaction address.offset }
{
    if register.special {
        let lock = lock_bit(page.locks, address.line::<F>());
        page.transaction == transaction && locks_permit(page.write, lock, access)
    } else {
        key_permits(page.key, register.key, access)
    }
}
