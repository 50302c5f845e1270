ghost use Rattle.std.specs.Prelude.{◌≡◌, ◌+◌, ◌*◌, ◌<◌, length, if◌then◌else◌};
ghost use Rattle.storage.specs.Words.{merged};
ghost use Rattle.storage.specs.Bytes.{word_at, with_word};

fn choose(on: bool, new: u8, old: u8) -> u8
    ensures { result ≡ (if on then new else old) }
{
    if on { new } else { old }
}

// The old word with the bytes of the value whose mask bit is on.
pub fn merge(old: u32, value: u32, mask: u8) -> u32
    ensures { result ≡ merged old value mask }
{
    let [a, b, c, d] = value.to_be_bytes();
    let [e, f, g, h] = old.to_be_bytes();
    u32::from_be_bytes([
        choose(mask / 8 % 2 == 1, a, e),
        choose(mask / 4 % 2 == 1, b, f),
        choose(mask / 2 % 2 == 1, c, g),
        choose(mask % 2 == 1, d, h),
    ])
}

// That the word lies in the bytes is asked by each of the three functions of such a word: each is called with another proof of
// it, and a type for the fact would be made at each call.
pub fn get_word(bytes: &[u8], n: u32) -> u32
    requires { 4 * n + 3 < length bytes.now }
    ensures { result ≡ word_at bytes.now n }
{
    let at = 4 * n as usize;
    u32::from_be_bytes(bytes[at..at + 4].try_into().unwrap())
}

#[tactic(auto, using(crate::proofs::Splits::word_over_bytes))]
pub fn put_word(bytes: &mut [u8], n: u32, word: u32)
    requires { 4 * n + 3 < length bytes.old }
    ensures { bytes.new ≡ with_word bytes.old n word }
{
    let at = 4 * n as usize;
    bytes[at..at + 4].copy_from_slice(&word.to_be_bytes());
}

// Writes the bytes of the value whose mask bit is on.
pub fn merge_word(bytes: &mut [u8], n: u32, value: u32, mask: u8)
    requires { 4 * n + 3 < length bytes.old }
    ensures { bytes.new ≡ with_word bytes.old n (merged (word_at bytes.old n) value mask) }
{
    let old = get_word(bytes, n);
    put_word(bytes, n, merge(old, value, mask));
}
