use paging::address::{EffectiveAddress, RealAddress, VirtualAddress};
use paging::form::{Form2K, Form4K, PageForm};
use std::process::Abort;

// The first hexadecimal digit of an effective address is the segment register, the other seven are the offset.
#[test]
fn effective_addresses_name_a_register(rt: HostRuntime) {
    for (number, register, offset) in [
        (0x0000_0000, 0x0, 0x000_0000),
        (0x0fff_ffff, 0x0, 0xfff_ffff),
        (0x1000_0000, 0x1, 0x000_0000),
        (0x7fff_ffff, 0x7, 0xfff_ffff),
        (0xabcd_ef01, 0xa, 0xbcd_ef01),
        (0xf000_0000, 0xf, 0x000_0000),
        (0xffff_ffff, 0xf, 0xfff_ffff),
    ] {
        let address = EffectiveAddress { number };
        assert_eq!(rt; address.register(), register, "address {number}");
        assert_eq!(rt; address.offset(), offset, "address {number}");
    }
}

// Checks the page number, the place in the page and the line of offsets, in the first segment and in the last.
fn lie_in<F: PageForm>(rt: &impl Abort, rows: &[(u32, u32, u32, u32)]) {
    for &(offset, page, place, line) in rows {
        assert!(rt; offset < 0x1000_0000);
        for segment in [0, 0xfff] {
            let address = VirtualAddress { segment, offset };
            assert_eq!(rt; address.page_number::<F>(), page, "offset {offset}");
            assert_eq!(rt; address.place_in_page::<F>(), place, "offset {offset}");
            assert_eq!(rt; address.line::<F>(), line, "offset {offset}");
        }
    }
}

// Pages of 2,048 bytes: the last byte of a page is at 2,047, of a line at 127, of the last line but one at 1,919. The last
// byte of a segment lies in page 2^17 - 1.
#[test]
fn virtual_addresses_in_pages_of_2048(rt: HostRuntime) {
    let rows = [
        (0, 0, 0, 0),
        (127, 0, 127, 0),
        (128, 0, 128, 1),
        (2047, 0, 2047, 15),
        (2048, 1, 0, 0),
        (2048 + 1919, 1, 1919, 14),
        (2048 + 1920, 1, 1920, 15),
        (4095, 1, 2047, 15),
        (4096, 2, 0, 0),
        (0x0fff_f800, 131071, 0, 0),
        (0x0fff_ffff, 131071, 2047, 15),
    ];
    lie_in::<Form2K>(&rt, &rows);
}

// Pages of 4,096 bytes: the last byte of a page is at 4,095, of a line at 255; 2,048 begins the ninth line. The last byte of a
// segment lies in page 2^16 - 1.
#[test]
fn virtual_addresses_in_pages_of_4096(rt: HostRuntime) {
    let rows = [
        (0, 0, 0, 0),
        (255, 0, 255, 0),
        (256, 0, 256, 1),
        (2047, 0, 2047, 7),
        (2048, 0, 2048, 8),
        (4095, 0, 4095, 15),
        (4096, 1, 0, 0),
        (4096 + 3839, 1, 3839, 14),
        (4096 + 3840, 1, 3840, 15),
        (0x0fff_f000, 65535, 0, 0),
        (0x0fff_ffff, 65535, 4095, 15),
    ];
    lie_in::<Form4K>(&rt, &rows);
}

fn real_pages<F: PageForm>(rt: &impl Abort, rows: &[(u32, u32)]) {
    for &(number, page) in rows {
        assert_eq!(rt;
            RealAddress { number }.page::<F>(),
            page,
            "address {number}"
        );
    }
}

// The page of a real address is its number divided by the page length. The last byte of 64 KiB lies in page 31 or 15, that
// of 16 MiB in page 8,191 or 4,095.
#[test]
fn real_addresses_lie_in_pages(rt: HostRuntime) {
    real_pages::<Form2K>(
        &rt,
        &[
            (0, 0),
            (2047, 0),
            (2048, 1),
            (4096, 2),
            (0xffff, 31),
            (0xff_ffff, 8191),
        ],
    );
    real_pages::<Form4K>(
        &rt,
        &[
            (0, 0),
            (2048, 0),
            (4095, 0),
            (4096, 1),
            (0xffff, 15),
            (0xff_ffff, 4095),
        ],
    );
}
