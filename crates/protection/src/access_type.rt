// What a request does to storage.
#[derive(Clone, Copy, PartialEq, Eq, Debug)]
pub enum AccessType {
    Load,
    Store,
}
