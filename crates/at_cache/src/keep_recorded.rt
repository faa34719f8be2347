//! What is kept until an edit is known to have changed it.

ghost use Rattle.std.proofs.Common.{refl};
ghost use Rattle.std.specs.Prelude.{◌≡◌, ◌≤◌, ◌-◌, ◌^◌, IfOk, IfSome, None, OnOk, false, min};
ghost use Rattle.at_index.specs.Asking.{AreNoted, Answers};
ghost use Rattle.at_cache.specs.Info.{memory_of, table_len};
ghost use Rattle.at_cache.specs.Kept.{AreNamed, KeepsAll, LeavesUntouched, LosesTouched};
ghost use Rattle.at_index.specs.Finding.{edges_to};
ghost use Rattle.at_cache.specs.Recorded.{IsIndexed};
ghost use Rattle.at_cache.specs.Shedding.{AreHeld, Shrinks, kept_cut, remembered_cut};
ghost use Rattle.at_cache.specs.Standings.{AreValued, IsTied, held, held_among, kept_held, last_is, most_beside as most, remembered};
ghost use Rattle.at_cache.specs.Theirs.{HasSlot};
ghost use Rattle.at_cache.specs.Traced.{FlushesTraces, SparesAtEdit, StayTraced, TracesKept, TracesNothing};

use crate::again::slot_by;
use crate::blocking::blocking;
use crate::cut::Cut;
use crate::cutting::take_away;
use crate::folding::{Fold, Last};
use crate::keeper::{Keeper, Order};
use crate::likely::Likely;
use crate::packing::{NUMBERS, PackedStanding};
use crate::renewing::{enter_held, outdate, slot_for};
use crate::settling::{Counts, LEVELS, settle_at};
use crate::shedding::{lose_traces, shed};
use crate::standing::standing_at;
use crate::table::Table;
use at_body::{Inst, Value};
use at_index::edge::{Edge, Slot};
use at_index::facet::small;
use at_index::run::AllReaders;
use at_store::{Loc, Node, Places};
use indexmap::IndexMap;
use slab::Slab;
use std::alloc::{AllocError, Global};

/// Keeps each value with what was looked at and taken for it. What an edit takes from it stays in memory with its value; it is kept again
/// without any evaluation once all that it used is, where it looked itself at nothing that was touched, and nothing that it used was put with
/// another value since. What isn't kept leaves memory where an edit finds much more in it than is kept, and where there is a bound.
pub struct KeepRecorded {
    pub alloc: Global,
    cut: Cut,
    readers: AllReaders,
    // The nodes of which the index was ever read.
    index_read: Vec<Node>,
    // How many numbers were given, of `NUMBERS`: by `put` one, or two where the instance has an entry, and one where an entry was kept again.
    puts: u64,
    likely: Likely,
    // Whether there may be something to be kept again: not before the first edit, unless memory was wanting.
    doubtful: bool,
    // Up to how many entries in memory an edit doesn't look how many of them are kept.
    limit: usize,
    // How many numbers were given at the last edit.
    since: u64,
    // The last limit on what was folded into one.
    folds: u32,
    ghost indexed: { IsIndexed (edges_to readers) puts (held cut.standings.items (memory_of cut.entries)) },
    ghost tied: { IsTied (edges_to readers) puts cut.standings.items (memory_of cut.entries) },
    ghost valued: { AreValued cut.standings.items (memory_of cut.entries) },
    ghost noted: { AreNoted (edges_to readers) index_read.items },
    ghost sure: { doubtful ≡ false → TracesKept (kept_held (edges_to readers) cut.entries cut.standings.items puts)
        (remembered (edges_to readers) cut.entries cut.standings.items) },
}

/// One call, where each exit that lets it go would else have a case for each field.
impl Drop for KeepRecorded {
    fn drop(self) {
        let KeepRecorded {
            alloc: _,
            cut: _,
            readers: _,
            index_read: _,
            puts: _,
            likely: _,
            doubtful: _,
            limit: _,
            since: _,
            folds: _,
        } = self;
    }
}

// How many entries are in memory at least before an edit lets go of some.
const FEW: usize = 2048;

impl KeepRecorded {
    /// A keeper that keeps nothing yet.
    pub fn new(alloc: Global) -> KeepRecorded
        ensures nothing { KeepsAll (λ _. None) (kept_held (edges_to result.readers) result.cut.entries result.cut.standings.items result.puts) }
        ensures traces { TracesNothing (remembered (edges_to result.readers) result.cut.entries result.cut.standings.items) }
        ensures len { table_len result.cut.entries ≡ 0 }
    {
        KeepRecorded {
            alloc,
            cut: Cut {
                entries: Table {
                    entries: IndexMap::new(alloc),
                    places: Slab::new(alloc),
                    attributes: Vec::new(alloc),
                },
                standings: Vec::new(alloc),
            },
            readers: AllReaders::new(alloc),
            index_read: Vec::new(alloc),
            puts: 0,
            likely: Likely::new(alloc),
            doubtful: false,
            limit: FEW,
            since: 0,
            folds: 0,
        }
    }

    // Where the entry of the instance is, if it has one.
    fn slot_of(&self, inst: &Inst) -> Option<Slot>
        ensures { IfSome result (HasSlot self.now.cut.entries inst.now) }
    {
        slot_by(&self.cut.entries, inst, self.likely.place_of(inst))
    }

    /// The same with no more in memory than what is kept; and where that is more than so many, with entries folded into those that used
    /// them, of which none is traced then. An error where memory is wanting.
    pub fn shrunk<F: Fold>(self, enough: usize, by: &F) -> Result<KeepRecorded, AllocError>
        ensures { IfOk result (λ k. Shrinks (edges_to self.readers) self.cut self.puts (edges_to k.readers) k.cut k.puts) }
    {
        let mut keeper = self;
        keeper.shed()?;
        if keeper.len() <= enough {
            return Ok(keeper);
        }
        keeper.folded(by)
    }

    // What isn't kept leaves memory. An error where there are too many slots, and then all stays.
    fn shed(&mut self) -> Result<(), AllocError>
        ensures held { OnOk result (AreHeld self.new.cut.standings.items (memory_of self.new.cut.entries)) }
        ensures kept { KeepsAll (kept_cut (edges_to self.old.readers) self.old.cut self.old.puts)
            (kept_cut (edges_to self.new.readers) self.new.cut self.new.puts) }
        ensures stay { StayTraced (remembered_cut (edges_to self.old.readers) self.old.cut) (remembered_cut (edges_to self.new.readers) self.new.cut) }
        ensures fewer { table_len self.new.cut.entries ≤ table_len self.old.cut.entries }
    {
        let count = small(self.cut.entries.places.capacity())?;
        self.doubtful = true;
        shed(&mut self.cut.entries, self.cut.standings.as_slice(), count);
        Ok(())
    }

    // Where much more is in memory than is kept, all that isn't kept leaves it.
    fn let_go(&mut self)
        ensures kept { KeepsAll (kept_cut (edges_to self.old.readers) self.old.cut self.old.puts)
            (kept_cut (edges_to self.new.readers) self.new.cut self.new.puts) }
        ensures stay { StayTraced (remembered_cut (edges_to self.old.readers) self.old.cut) (remembered_cut (edges_to self.new.readers) self.new.cut) }
        ensures spares { (remembered_cut (edges_to self.old.readers) self.old.cut).crowded ≡ false → remembered_cut (edges_to self.new.readers) self.new.cut
            ≡ remembered_cut (edges_to self.old.readers) self.old.cut }
        ensures fewer { table_len self.new.cut.entries ≤ table_len self.old.cut.entries }
    {
        if self.len() <= self.limit {
            return;
        }
        let kept = kept_among(self.cut.standings.as_slice());
        self.limit = most_beside(kept);
        if self.len() > self.limit {
            let _ = self.shed();
        }
    }

    // The same with entries folded into those that used them, all of which are kept. None is traced.
    fn folded<F: Fold>(self, by: &F) -> Result<KeepRecorded, AllocError>
        requires { AreHeld self.cut.standings.items (memory_of self.cut.entries) }
        ensures { IfOk result (λ k. Shrinks (edges_to self.readers) self.cut self.puts (edges_to k.readers) k.cut k.puts) }
    {
        let KeepRecorded {
            alloc,
            mut cut,
            mut readers,
            index_read,
            puts,
            likely,
            doubtful: _,
            limit,
            since,
            folds,
        } = self;
        let last = Last { since, folds };
        let folds = by.fold(
            alloc,
            &mut cut.entries,
            cut.standings.as_slice(),
            &mut readers,
            last,
        )?;
        lose_traces(&mut cut.standings)?;
        Ok(KeepRecorded {
            alloc,
            cut,
            readers,
            index_read,
            puts,
            likely,
            doubtful: true,
            limit,
            since,
            folds,
        })
    }

    /// How many entries are in memory, kept or not.
    pub fn len(&self) -> usize
        ensures { result ≡ table_len self.now.cut.entries }
    {
        self.cut.entries.entries.len()
    }
}

// How many entries may be in memory where so many are kept.
fn most_beside(kept: usize) -> usize
    ensures { result ≡ min (most kept) (2 ^ 64 - 1) }
{
    kept.saturating_add(kept / 8).saturating_add(FEW)
}

// How many entries are kept.
fn kept_among(standings: &[PackedStanding]) -> usize
    ensures { result ≡ held_among standings.now }
{
    let mut kept = 0_usize;
    for standing in standings {
        if standing.unpacked().holds {
            kept += 1;
        }
    }
    kept
}

impl Keeper for KeepRecorded {
    ghost contents = { λ k. kept_held (edges_to k.readers) k.cut.entries k.cut.standings.items k.puts };

    ghost memories = { λ k. remembered (edges_to k.readers) k.cut.entries k.cut.standings.items };

    ghost always_in_turns = { λ k l. refl };

    ghost kept_last = { λ k i v kept. last_is (edges_to k.readers) k.cut.entries k.cut.standings.items k.puts i v kept };

    fn get(&self, inst: &Inst) -> Option<&Value> {
        let entry = self.cut.held(inst, self.likely.place_of(inst))?;
        entry.value.as_ref()
    }

    fn stands(&self, inst: &Inst) -> bool {
        self.cut.is_held(inst, self.likely.place_of(inst))
    }

    fn put(
        &mut self,
        inst: Inst,
        value: Option<Value>,
        reads: &[Loc],
        uses: &[Inst],
        order: Order,
    ) -> Result<(), AllocError> {
        let place = self.likely.place_of(&inst);
        let slot = slot_for(&self.cut.entries, &inst, place)?;
        self.likely.note(&inst, slot);
        // Where memory is wanting on the way, that isn't sure any more.
        let doubtful = self.doubtful;
        self.doubtful = true;
        let known = outdate(self.alloc, &mut self.cut, &mut self.puts, slot);
        let stamp = self.puts;
        if stamp >= NUMBERS {
            return Err(AllocError);
        }
        self.puts = stamp + 1;
        enter_held(
            self.alloc,
            &mut self.cut,
            &mut self.readers,
            &mut self.index_read,
            Edge { slot, stamp },
            &self.likely,
            &known,
            inst,
            value,
            reads,
            uses,
            order,
        )?;
        self.doubtful = doubtful;
        Ok(())
    }

    fn has_trace(&self, inst: &Inst) -> bool {
        if !self.doubtful {
            return false;
        }
        self.cut.has_trace(inst, self.likely.place_of(inst))
    }

    fn settle(&mut self, inst: &Inst, work: u64) -> u64 {
        if !self.doubtful {
            return work;
        }
        let Some(slot) = self.slot_of(inst) else {
            return work;
        };
        self.likely.note(inst, slot);
        if !standing_at(self.cut.standings.as_slice(), slot).traced {
            return work;
        }
        let mut counts = Counts {
            puts: self.puts,
            work,
        };
        settle_at(
            &self.cut.entries,
            &mut self.cut.standings,
            &mut counts,
            slot,
            LEVELS,
        );
        self.puts = counts.puts;
        counts.work
    }

    fn blocker(&self, inst: &Inst) -> Option<&Inst> {
        if !self.doubtful {
            return None;
        }
        let asked = self.slot_of(inst)?;
        let slot = blocking(&self.cut.entries, self.cut.standings.as_slice(), asked);
        if slot == asked {
            return None;
        }
        let (instance, _) = self.cut.entries.pair(slot)?;
        Some(instance)
    }

    fn keeps_in_turns(&self) -> bool {
        false
    }

    fn flush<F: Fn(Loc) -> bool>(&mut self, places: &Places<'_>, touched: &F)
        requires callable { F.IsAlwaysCallable touched.now }
        requires named { AreNamed places.now (F.post touched.now) }
        ensures leaves { LeavesUntouched (Answers (F.post touched.now)) (kept_cut (edges_to self.old.readers) self.old.cut self.old.puts)
            (kept_cut (edges_to self.new.readers) self.new.cut self.new.puts) }
        ensures loses { LosesTouched (Answers (F.post touched.now)) (kept_cut (edges_to self.old.readers) self.old.cut self.old.puts)
            (kept_cut (edges_to self.new.readers) self.new.cut self.new.puts) }
        ensures traces { FlushesTraces (Answers (F.post touched.now)) (remembered_cut (edges_to self.old.readers) self.old.cut)
            (remembered_cut (edges_to self.new.readers) self.new.cut) }
        ensures spares { SparesAtEdit (Answers (F.post touched.now)) (remembered_cut (edges_to self.old.readers) self.old.cut).crowded
            (remembered_cut (edges_to self.old.readers) self.old.cut) (remembered_cut (edges_to self.new.readers) self.new.cut) }
        ensures fewer { table_len self.new.cut.entries ≤ table_len self.old.cut.entries }
    {
        self.let_go();
        self.since = self.puts;
        self.doubtful = true;
        let readers = &self.readers;
        let index_read = self.index_read.as_slice();
        take_away(&mut self.cut, readers, index_read, places, touched);
    }
}
