use refusals::refusal::Refusal;

// A plan of the storage as it is drafted: plain numbers that nothing has checked. The storage has 2^exponent bytes.
#[derive(Drop)]
pub struct Draft<F> {
    pub form: F,
    pub exponent: u32,
    pub base: u32,
}

// A draft that was refused, as it was.
#[derive(Drop)]
pub struct RefusedDraft<F> {
    pub draft: Draft<F>,
    pub refusal: Refusal,
}
