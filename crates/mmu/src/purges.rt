ghost use Rattle.std.specs.Prelude.{◌≡◌};
ghost use Rattle.tlb.specs.declared.purging.Purge.TheVariants.{All};
ghost use Rattle.unit_state.specs.Answers.{passed, unless};
ghost use Rattle.unit_state.specs.Registers.{number_refusal};
ghost use Rattle.unit_state.specs.Purges.{after_purge, segment_purge, page_purge};

use crate::unit::MemoryUnit;
use paging::address::{EffectiveAddress, VirtualAddress};
use paging::form::PageForm;
use refusals::refusal::Refusal;
use tlb::purging::Purge;
use unit_state::translate::virtual_page;

// A segment that is not present is purged like one that is, and no purge raises an exception.
impl<F: PageForm> MemoryUnit<F> {
    // Makes entries of the look-aside buffers invalid, and nothing else.
    fn purge(&mut self, purge: Purge)
        ensures state { self.new.state ≡ after_purge purge self.old.state }
        ensures plan { self.new.plan ≡ self.old.plan }
    {
        self.state.buffers.purge(purge);
    }

    // Purges all entries.
    pub fn purge_all(&mut self)
        ensures state { self.new.state ≡ after_purge All self.old.state }
        ensures plan { self.new.plan ≡ self.old.plan }
    {
        self.purge(Purge::All);
    }

    // Purges the entries with the segment ID that a register holds.
    pub fn purge_segment(&mut self, number: u32) -> Result<(), Refusal>
        ensures answer { result ≡ passed (number_refusal number) tt }
        ensures state { self.new.state ≡ unless (number_refusal number) self.old.state (after_purge (segment_purge self.old.state number) self.old.state) }
        ensures plan { self.new.plan ≡ self.old.plan }
    {
        let register = self.segment(number)?;
        self.purge(Purge::Segment(register.segment));
        Ok(())
    }

    // Purges the entries of the virtual page that an address names.
    pub fn purge_page(&mut self, address: EffectiveAddress)
        ensures state { self.new.state ≡ after_purge (page_purge F.PageForm.sizes self.old.state address.number) self.old.state }
        ensures plan { self.new.plan ≡ self.old.plan }
    {
        let register = self.state.segments[address.register() as usize];
        let virtual_address = VirtualAddress {
            segment: register.segment,
            offset: address.offset(),
        };
        self.purge(Purge::Page(virtual_page::<F>(virtual_address)));
    }
}
