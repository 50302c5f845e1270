ghost use Rattle.std.specs.Prelude.{◌≡◌, ◌<◌, not};
ghost use Rattle.protection.specs.Permission.{is_load};
ghost use Rattle.unit_state.specs.Marks.{used_page};

use crate::state::UnitState;
use protection::access_type::AccessType;

impl UnitState {
    // Marks a page as used, and as changed too by a store.
    #[tactic(auto, unfolding(crate::specs::Marks::used_page))]
    pub fn use_page(&mut self, page: u32, access: AccessType)
        requires { page < 8192 }
        ensures { self.new ≡ used_page self.old page (not (is_load access)) }
    {
        let mark = &mut self.marks[page as usize];
        mark.referenced = true;
        if !access.is_load() {
            mark.changed = true;
        }
    }
}
