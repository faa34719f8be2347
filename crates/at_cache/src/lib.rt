//! Keepers: what stands ready of the values of lazy attributes, each with the locations that it rests on. An entry
//! without a value stands only for what its instance rests on: those that use it need no locations of their own for that.
//!
//! **Its specs:** `Kept` has the laws of what every keeper keeps, and `Traced` those of what it remembers. Of the recording one, `Keeping` says
//! what both are: `Info` is what is in memory by slots, `Standings` what is kept and traced of that, by the numbers of `Packing`, `Recorded` what
//! an entry stands for and how it is found (`IsIndexed`), `Placed` where entries stand, and `Attributes` of which attributes entries came.
//! `Putting` is one entry more, `Renewing` and `Theirs` a put over one, and `Slots` single writes; `Flushing` is a flush under way, and `Marking`
//! what that takes away, by the edges with which it begins; `Settling` is what is kept again, and `Blocking` what stands in its way. `Shedding` is
//! what leaves memory, and what folding entries leaves. How entries are found from locations is said by those of `at_index`.
//!
//! **Where to begin:** the trait in `keeper.rt`, then `keep_recorded.rt`: `table.rt` holds the entries, `cut.rt` and `standing.rt` how they stand,
//! in eight bytes by `packing.rt`, `slots.rt` what is done to them, and `using.rt` adds an edge to one that used them. `renewing.rt` is `put`, with
//! `putting.rt`; `cutting.rt` is a flush, over what `forgetting.rt`, of drawers `desks.rt`, and, by places, `places.rt` mark; `settling.rt` and
//! `blocking.rt` are what a question keeps again. What isn't kept leaves memory by `shedding.rt`. Where that isn't enough for a bound, entries are
//! folded by what `folding.rt` asks for, which is `at_evict`. `keep_in_turns.rt` is a keeper over another one, of which turns keep values again,
//! too.
//!
//! **What it keeps true:** what an entry read is said by the edges of locations alone; each entry is found from those
//! that it used, and what is found so used them. An edge whose entry is gone means nothing: its `put`'s number is no other
//! one's. A flush takes no memory.
#![tactic(auto)]

mod again;
mod attributes;
mod blocking;
mod cut;
mod cutting;
mod desks;
pub mod entry;
pub mod folding;
mod forgetting;
mod keep_in_turns;
mod keep_recorded;
mod keeper;
mod likely;
mod mark;
pub mod packing;
mod places;
mod putting;
mod renewing;
mod settling;
mod shedding;
pub mod slots;
pub mod standing;
pub mod table;
mod using;

pub use keep_in_turns::KeepInTurns;
pub use keep_recorded::KeepRecorded;
pub use keeper::{Keeper, Order};
