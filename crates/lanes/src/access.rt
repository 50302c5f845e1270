ghost use Rattle.std.specs.Prelude.{◌≡◌, ◌*◌, ◌/◌, ◌%◌, ◌^◌, ◌<◌, IfOk, OnOk, nat_lt};
ghost use Rattle.lanes.specs.Lanes.{value_limit, shift_of, mask_of, load_of, store_of, stored_if};
ghost use Rattle.lanes.specs.Bytes.{LoadedBytes, StoredBytes};

use crate::width::Width;
use refusals::refusal::Refusal;
use storage::words::{ReadStorage, Storage};

impl Width {
    // Whether a value can be stored in this width.
    pub fn holds(self, value: u32) -> bool
        ensures { result ≡ nat_lt value (value_limit self) }
    {
        match self {
            Width::Byte => value < 0x100,
            Width::Halfword => value < 0x1_0000,
            Width::Word => true,
        }
    }

    // How far from the right end of its word the unit at an address lies, in bits.
    fn shift(self, address: u32) -> u32
        ensures { result ≡ shift_of self address }
    {
        match self {
            Width::Byte => 24 - 8 * (address % 4),
            Width::Halfword => 16 - 16 * (address % 4 / 2),
            Width::Word => 0,
        }
    }

    // The mask of the bytes of its word that the unit at an address has.
    fn mask(self, address: u32) -> u8
        ensures is { result ≡ mask_of self address }
        ensures low { result < 16 }
    {
        match self {
            Width::Byte => 8 >> (address % 4),
            Width::Halfword => 12 >> (2 * (address % 4 / 2)),
            Width::Word => 15,
        }
    }

    // The unit at an address, out of its word.
    fn take(self, address: u32, word: u32) -> u32
        ensures { result ≡ word / 2 ^ shift_of self address % value_limit self }
    {
        let unit = word >> self.shift(address);
        match self {
            Width::Byte => unit % 0x100,
            Width::Halfword => unit % 0x1_0000,
            Width::Word => unit,
        }
    }

    // A value at the place of its word that the unit at an address has.
    #[tactic(auto, using(crate::proofs::Places::placed_whole))]
    fn place(self, address: u32, value: u32) -> u32
        requires { value < value_limit self }
        ensures { result ≡ value * 2 ^ shift_of self address }
    {
        value << self.shift(address)
    }
}

// Loads from the word that the address lies in.
#[tactic(auto, using(crate::proofs::Octets::loaded_bytes))]
pub fn load_unit<S: ReadStorage>(storage: &S, address: u32, width: Width) -> Result<u32, Refusal>
    ensures answer { result ≡ load_of (S.ReadStorage.words storage.now) width address }
    ensures bytes { IfOk result (λ v. LoadedBytes (S.ReadStorage.words storage.now) width address v) }
{
    let word = storage.read(address / 4)?;
    Ok(width.take(address, word))
}

// Stores a value in the word that the address lies in, unless the value is too wide for its width.
#[tactic(auto, using(crate::proofs::Octets::stored_bytes))]
pub fn store_unit<S: Storage>(
    storage: &mut S,
    address: u32,
    width: Width,
    value: u32,
) -> Result<(), Refusal>
    ensures answer { result ≡ store_of (S.ReadStorage.words storage.old) width address value }
    ensures words { S.ReadStorage.words storage.new ≡ stored_if (S.ReadStorage.words storage.old) width address value }
    ensures bytes { OnOk result (StoredBytes (S.ReadStorage.words storage.old) (S.ReadStorage.words storage.new) width address value) }
    ensures lenders { S.Storage.lenders storage.new ≡ S.Storage.lenders storage.old }
{
    if !width.holds(value) {
        return Err(Refusal::ValueTooWide);
    }
    storage.write(
        address / 4,
        width.place(address, value),
        width.mask(address),
    )
}
