ghost use Rattle.std.specs.Prelude.{◌≡◌, None, cond};
ghost use Rattle.tlb.specs.Lookup.{hit_of};
ghost use Rattle.tlb.specs.Purging.{takes as taking, left_by, purged_class, purged};

use crate::buffers::{Buffers, Class, Translation};
use page_table::entry::Tag;
use page_table::finding::same_tag;

// Which entries a purge makes invalid: all of them, those with a segment ID, or those of a virtual page.
#[derive(Clone, Copy, PartialEq, Eq, Debug)]
pub enum Purge {
    All,
    Segment(u16),
    Page(Tag),
}

impl Purge {
    // Whether it makes an entry of that virtual page invalid.
    pub fn takes(self, tag: Tag) -> bool
        ensures { result ≡ taking self tag }
    {
        match self {
            Purge::All => true,
            Purge::Segment(segment) => tag.segment == segment,
            Purge::Page(page) => same_tag(tag, page),
        }
    }

    // What it leaves of an entry.
    fn leave(self, entry: Option<Translation>) -> Option<Translation>
        ensures { result ≡ left_by self entry }
    {
        entry.filter(|translation| !self.takes(translation.page.tag))
    }
}

impl Class {
    // Makes the entries invalid that the purge takes. Which one was used last stays.
    pub fn purge(&mut self, purge: Purge)
        ensures { self.new ≡ purged_class purge self.old }
    {
        for way in &mut self.ways {
            *way = purge.leave(*way);
        }
    }
}

impl Buffers {
    // Makes the entries invalid that the purge takes, and nothing else of the buffers.
    #[tactic(auto, using(crate::proofs::Purged::purged_more, crate::proofs::Purged::purged_all, crate::proofs::Purged::purged_hits))]
    pub fn purge(&mut self, purge: Purge)
        ensures is { self.new ≡ purged purge self.old }
        ensures hits { (tag : _) → hit_of self.new tag ≡ cond (taking purge tag) None (hit_of self.old tag) }
    {
        for class in &mut self.classes {
            class.purge(purge);
        }
    }
}
