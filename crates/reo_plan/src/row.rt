//! Rows: what one firing asks and does.
ghost use Rattle.std.specs.Prelude.{◌≡◌, [], IfOk};

use reo_flow::{Fact, Giver};
use sqlite_items::Items;
use std::alloc::{AllocError, Global};

/// What one firing asks, and the slots of its data: where it takes and fills, puts and gets, and at its names.
#[derive(Drop)]
pub(crate) struct Row {
    pub(crate) slots: Items<Giver>,
    pub(crate) facts: Items<Fact>,
    pub(crate) takes: Items<(u32, u32)>,
    pub(crate) fills: Items<(u32, u32)>,
    pub(crate) puts: Items<(u32, u32)>,
    pub(crate) gets: Items<(u32, u32)>,
    pub(crate) named: Items<(u32, u32)>,
}

/// An empty list with room for so many.
pub(crate) fn room_for<T>(alloc: Global, count: usize) -> Result<Items<T>, AllocError>
    ensures { IfOk result (λ items. items ≡ []) }
{
    let items = Vec::with_capacity(alloc, count)?;
    Ok(Items::from_vec(items))
}
