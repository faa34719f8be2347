//! What an edit takes away from entries that stay in memory.

ghost use Rattle.std.specs.Prelude.{◌≡◌, ◌≢◌, ◌<◌, ◌⊎◌, ◌+◌, ℕ, List, [], Option, None, Some, IfNone, IfSome, IsSome, OnSome};
ghost use Rattle.at_cache.specs.Prelude.{Edge, AreNoted, Answers, IsIdle, Work, Memory, memory_of, table_len, AreNamed, GoesOver, HasMark, Passes, TakesAway, held_count, held_in, users_at, edges_to};

use crate::cut::{Cut, Loss, take_value};
use crate::forgetting::{doom_listed, doom_row};
use crate::mark::Mark;
use crate::places::begin_named;
use at_index::edge::{Edge, Edges, Slot};
use at_index::run::AllReaders;
use at_store::{Loc, Node, Places};

// What is in the slot isn't kept any more. The mark that it had, if it was.
fn hide(cut: &mut Cut, slot: Slot) -> Option<Mark>
    ensures was { IfSome result (λ mark. HasMark (held_in cut.old slot) mark) }
    ensures none { IfNone result (held_in cut.old slot ≡ None) }
    ensures gone { OnSome result (held_in cut.new slot ≡ None) }
    ensures others { (k : ℕ) → k ≢ slot → held_in cut.new k ≡ held_in cut.old k }
    ensures passes { Passes cut.old cut.new }
    ensures fewer { OnSome result (held_count cut.new + 1 ≡ held_count cut.old) }
    ensures same { IfNone result (held_count cut.new ≡ held_count cut.old) }
    ensures len { table_len cut.new.entries ≡ table_len cut.old.entries }
{
    if !cut.holds(slot) {
        return None;
    }
    let mark = cut.entries.unmark(slot)?;
    take_value(&mut cut.standings, slot);
    Some(mark)
}

/// What used the entry in the slot, which isn't kept, loses that: the first one that goes.
pub fn doom_users(cut: &mut Cut, slot: Slot, first: Option<Slot>, loss: Loss) -> Option<Slot>
    requires there { IsSome (memory_of cut.old.entries slot) }
    requires hidden { held_in cut.old slot ≡ None }
    ensures { GoesOver loss (users_at (memory_of cut.old.entries) slot) first cut.old result cut.new }
{
    if let Some(row) = cut.entries.users_row(slot) {
        return doom_row(cut, first, &row, loss);
    }
    let users = cut.entries.exchange_users(slot, Edges::Empty);
    let first = doom_listed(cut, first, &users, loss);
    cut.entries.exchange_users(slot, users);
    first
}

// The first entry that goes isn't kept any more, and those that used it go, too.
fn forget(cut: &mut Cut, slot: Slot) -> Option<Slot>
    ensures works { (old : Memory) (start : List Edge) → Work old start [] (Some slot) (held_in cut.old) → Work old start [] result (held_in cut.new) }
    ensures passes { Passes cut.old cut.new }
    ensures fewer { (held_count cut.new < held_count cut.old) ⊎ ((result ≡ None) × (held_count cut.new ≡ held_count cut.old)) }
    ensures len { table_len cut.new.entries ≡ table_len cut.old.entries }
{
    let mark = hide(cut, slot)?;
    doom_users(cut, slot, mark.next(), Loss::Value)
}

// None of all that go is kept any more.
fn forget_all(cut: &mut Cut, first: Option<Slot>)
    ensures works { (old : Memory) (start : List Edge) → Work old start [] first (held_in cut.old) → Work old start [] None (held_in cut.new) }
    ensures passes { Passes cut.old cut.new }
    ensures len { table_len cut.new.entries ≡ table_len cut.old.entries }
{
    let mut first = first;
    while let Some(slot) = first {
        first = forget(cut, slot);
    }
}

/// What reads a touched location can't be kept again, and isn't kept any more, nor is what stands for one. The places name all that is
/// touched; the nodes are those of which an entry read the index.
pub fn take_away<F: Fn(Loc) -> bool>(
    cut: &mut Cut,
    readers: &AllReaders,
    index_read: &[Node],
    places: &Places<'_>,
    touched: &F,
)
    requires callable { F.IsAlwaysCallable touched.now }
    requires named { AreNamed places.now (F.post touched.now) }
    requires noted { AreNoted (edges_to readers.now) index_read.now }
    requires idle { IsIdle (memory_of cut.old.entries) }
    ensures takes { TakesAway (Answers (F.post touched.now)) (edges_to readers.now) cut.old.standings.items (memory_of cut.old.entries)
        cut.new.standings.items (memory_of cut.new.entries) }
    ensures len { table_len cut.new.entries ≡ table_len cut.old.entries }
{
    let first = begin_named(cut, readers, index_read, places, touched);
    forget_all(cut, first);
}
