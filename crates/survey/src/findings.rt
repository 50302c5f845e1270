use unit_state::state::PageMark;

// What a check of an image found: the marker at each site or the reply to each call, and the mark of each real page after it.
#[derive(Drop)]
pub struct Findings<T> {
    pub found: Vec<T>,
    pub pages: Vec<PageMark>,
}
