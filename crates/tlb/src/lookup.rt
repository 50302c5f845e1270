ghost use Rattle.std.specs.Prelude.{◌≡◌};
ghost use Rattle.tlb.specs.Lookup.{holds as holding, hit_in, after_hit, replaced_in, hit_of, looked_up, loaded_with, empty_buffers};

use crate::buffers::{Buffers, Class, Translation, Way};
use page_table::entry::Tag;
use page_table::finding::same_tag;

// Whether an entry is valid and holds a virtual page.
fn holds(entry: Option<Translation>, tag: Tag) -> bool
    ensures { result ≡ holding «entry» tag }
{
    entry.is_some_and(|translation| same_tag(translation.page.tag, tag))
}

impl Class {
    // The entry that holds a virtual page. It is then the one used last.
    pub fn hit(&mut self, tag: Tag) -> Option<Translation>
        ensures found { result ≡ hit_in self.old tag }
        ensures after { self.new ≡ after_hit self.old tag }
    {
        let first = self.ways[0];
        if holds(first, tag) {
            self.used_last = Way::First;
            return first;
        }
        let second = self.ways[1];
        if holds(second, tag) {
            self.used_last = Way::Second;
            return second;
        }
        None
    }

    // Replaces the entry that was not used last, which is then the one used last.
    pub fn replace(&mut self, translation: Translation)
        ensures { self.new ≡ replaced_in self.old translation }
    {
        match self.used_last {
            Way::First => {
                self.ways[1] = Some(translation);
                self.used_last = Way::Second;
            }
            Way::Second => {
                self.ways[0] = Some(translation);
                self.used_last = Way::First;
            }
        }
    }
}

impl Buffers {
    // As they are after power-on: no entry is valid, and the first of each class is the next to be replaced.
    pub fn empty() -> Buffers
        ensures { result ≡ empty_buffers }
    {
        let class = Class {
            ways: [None, None],
            used_last: Way::Second,
        };
        Buffers {
            classes: [class; 16],
        }
    }

    // The entry that holds a virtual page, if one does.
    pub fn look_up(&mut self, tag: Tag) -> Option<Translation>
        ensures found { result ≡ hit_of self.old tag }
        ensures after { self.new ≡ looked_up self.old tag }
    {
        let class = (tag.page % 16) as usize;
        self.classes[class].hit(tag)
    }

    // Keeps what a walk found.
    pub fn load(&mut self, translation: Translation)
        ensures { self.new ≡ loaded_with self.old translation }
    {
        let class = (translation.page.tag.page % 16) as usize;
        self.classes[class].replace(translation);
    }
}
