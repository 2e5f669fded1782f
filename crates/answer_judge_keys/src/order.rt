//! Data in canonical order (RFC 4034, 6.3).
ghost use Rattle.std.specs.Prelude.{◌≡◌, map};
ghost use Rattle.std.specs.Cow.{cow_slice_items};
ghost use Rattle.definitions.specs.Zone.{sorted_data};

use std::borrow::CowSlice;

/// Puts data in canonical order, each once (RFC 4034, 6.3).
pub fn sort_data(items: &mut Vec<CowSlice<u8>>)
    ensures { map cow_slice_items items.new.items
        ≡ sorted_data (map cow_slice_items items.old.items) }
{
    items.sort_unstable();
    items.dedup();
}
