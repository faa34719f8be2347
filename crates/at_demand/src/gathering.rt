//! What a value rests on, gathered for the keeper.

ghost use Rattle.std.specs.Prelude.{◌≡◌, ◌++◌, ◌∷◌, [], IfOk, OnOk};
ghost use Rattle.at_cache.specs.Kept.{AreKept};
ghost use Rattle.at_evaluate.specs.Valued.{AreValued};
ghost use Rattle.at_demand.specs.Known.{FoundKept};
ghost use Rattle.at_demand.specs.Covering.{Adds, AddsAt, AreGathered, Visits};
ghost use Rattle.at_demand.specs.Only.{AddsOnly, AddsOnlyAt, AreFrom, VisitsOnly};

use crate::evaluation::Find;
use crate::locations::Locations;
use crate::sharing::Sharing;
use at_body::Inst;
use at_cache::Keeper;
use at_store::Loc;
use indexmap::{IndexMap, IndexSet};
use std::alloc::{AllocError, Global};

// The locations that an evaluation and the finds below it read, and the instances with an entry that they rest on.
pub struct Sources {
    pub reads: Locations,
    pub kept: Vec<Inst>,
}

/// One call, where each exit that lets it go would else have a case for each field.
impl Drop for Sources {
    fn drop(self) {
        let Sources { reads: _, kept: _ } = self;
    }
}

impl Sources {
    // All that the find rests on, up to what is kept, and to what is gathered often and has an entry. Each find is visited once.
    pub fn of<K: Keeper>(
        alloc: Global,
        keeper: &K,
        found: &IndexMap<Inst, Find>,
        find: &Find,
        sharing: &mut Sharing,
    ) -> Result<Sources, AllocError>
        ensures kept { FoundKept (K.contents keeper.now) found.now.entries → AreValued (K.contents keeper.now) find.now.demanded.kept.items
            → IfOk result (λ s. AreKept (K.contents keeper.now) s.kept.items) }
        ensures gathered { IfOk result (AreGathered found.now.entries find.now) }
        ensures only { IfOk result (AreFrom found.now.entries find.now) }
    {
        let mut sources = Sources {
            reads: Locations::new(alloc),
            kept: Vec::new(alloc),
        };
        let finds = find.demanded.finds.len();
        let mut visited = IndexSet::with_capacity(alloc, finds)?;
        sources.add(alloc, find, &mut visited)?;
        let mut next = 0;
        while next < visited.len() {
            sources.add_at(alloc, keeper, found, next, &mut visited, sharing)?;
            next += 1;
        }
        Ok(sources)
    }

    // Adds what stands in the find at the position that is visited next, or its instance.
    fn add_at<K: Keeper>(
        &mut self,
        alloc: Global,
        keeper: &K,
        found: &IndexMap<Inst, Find>,
        next: usize,
        visited: &mut IndexSet<usize>,
        sharing: &mut Sharing,
    ) -> Result<(), AllocError>
        ensures kept { FoundKept (K.contents keeper.now) found.now.entries → AreKept (K.contents keeper.now) self.old.kept.items
            → OnOk result (AreKept (K.contents keeper.now) self.new.kept.items) }
        ensures added { OnOk result (AddsAt found.now.entries next self.old self.new visited.old.keys visited.new.keys) }
        ensures only { OnOk result (AddsOnlyAt found.now.entries next self.old self.new visited.old.keys visited.new.keys) }
    {
        let Some(position) = visited.get_index(next) else {
            return Ok(());
        };
        let position = *position;
        let Some((inst, find)) = found.get_index(position) else {
            return Ok(());
        };
        let often = sharing.count(position)?;
        if !often {
            return self.add(alloc, find, visited);
        }
        if keeper.stands(inst) {
            return self.add_use(alloc, inst);
        }
        sharing.note(position)?;
        self.add(alloc, find, visited)
    }

    // Adds an instance that has an entry.
    fn add_use(&mut self, alloc: Global, inst: &Inst) -> Result<(), AllocError>
        ensures reads { self.new.reads.items ≡ self.old.reads.items }
        ensures kept { OnOk result (self.new.kept.items ≡ self.old.kept.items ++ inst.now ∷ []) }
    {
        self.kept.push(inst.copy(alloc)?)?;
        Ok(())
    }

    // Adds the reads of the find and the kept instances that it demanded; the other ones are to be visited.
    fn add(
        &mut self,
        alloc: Global,
        find: &Find,
        visited: &mut IndexSet<usize>,
    ) -> Result<(), AllocError>
        ensures kept { OnOk result (self.new.kept.items ≡ self.old.kept.items ++ find.now.demanded.kept.items) }
        ensures added { OnOk result (Adds find.now self.old self.new visited.old.keys visited.new.keys) }
        ensures only { OnOk result (AddsOnly find.now self.old self.new visited.old.keys visited.new.keys) }
    {
        self.add_reads(find.reads.as_slice())?;
        for inst in &find.demanded.kept {
            self.kept.push(inst.copy(alloc)?)?;
        }
        visit(find.demanded.finds.as_slice(), visited)
    }

    // Adds the locations. Mostly it is one or two.
    fn add_reads(&mut self, reads: &[Loc]) -> Result<(), AllocError>
        ensures reads { OnOk result (self.new.reads.items ≡ self.old.reads.items ++ reads.now) }
        ensures kept { self.new.kept.items ≡ self.old.kept.items }
    {
        for loc in reads {
            self.reads.push(*loc)?;
        }
        Ok(())
    }
}

// Adds the positions to those that are visited, behind them.
fn visit(positions: &[usize], visited: &mut IndexSet<usize>) -> Result<(), AllocError>
    ensures all { OnOk result (Visits positions.now visited.old.keys visited.new.keys) }
    ensures only { OnOk result (VisitsOnly positions.now visited.old.keys visited.new.keys) }
{
    for position in positions {
        visited.insert(*position)?;
    }
    Ok(())
}
