//! What a keeper keeps, in two plain forms: each entry with copies of all locations that it stands for, and with links to
//! earlier entries, over which a flush is one pass from the front. And what it may keep again.

use at_body::{Inst, Value};
use at_cache::{KeepRecorded, Keeper, Order};
use at_store::Loc;
use std::alloc::{AllocError, Global};

/// An entry with its number, its value, if it has one, and what it rests on.
pub struct Entry {
    number: usize,
    inst: Inst,
    value: Option<Value>,
    reads: Vec<Loc>,
    /// The instances that it uses.
    taken: Vec<Inst>,
    /// The numbers of their entries.
    uses: Vec<usize>,
    /// The reads, and all that these entries stand for.
    covers: Vec<Loc>,
    /// Whether it may be kept again, once it is gone and all that it used is kept.
    lasts: bool,
}

/// One call, where each exit that lets it go would else have a case for each field.
impl Drop for Entry {
    fn drop(self) {
        let Entry {
            number: _,
            inst: _,
            value: _,
            reads: _,
            taken: _,
            uses: _,
            covers: _,
            lasts: _,
        } = self;
    }
}

/// Entries in the order in which they were put: what an entry uses stands before it.
#[derive(Drop)]
pub struct Models {
    alloc: Global,
    entries: Vec<Entry>,
    /// Those that are gone: of each instance the last one, where it has none.
    past: Vec<Entry>,
    puts: usize,
    /// How many entries were gone by flushes.
    pub gone: usize,
    /// How many were kept again.
    pub again: usize,
    /// Whether the models or the keeper had other entries than each other, or memory was wanting.
    pub differs: bool,
}

/// Whether one of the locations is touched.
fn is_touched<F: Fn(Loc) -> bool>(locations: &[Loc], touched: &F) -> bool
    requires { F.IsAlwaysCallable touched.now }
{
    for location in locations {
        if touched(*location) {
            return true;
        }
    }
    false
}

/// The instances once more.
fn copies(alloc: Global, insts: &[Inst]) -> Result<Vec<Inst>, AllocError> {
    let mut copies = Vec::new(alloc);
    for inst in insts {
        copies.push(inst.copy(alloc)?)?;
    }
    Ok(copies)
}

/// The value once more, if there is one.
fn copied(value: &Option<Value>) -> Result<Option<Value>, AllocError> {
    match value {
        Some(value) => Ok(Some(value.copy()?)),
        None => Ok(None),
    }
}

impl Entry {
    /// Whether the keeper has the entry just where it stays, and tells its value then, if it has one.
    fn is_alike(&self, keeper: &KeepRecorded, stays: bool) -> bool {
        if keeper.stands(&self.inst) != stays {
            return false;
        }
        match keeper.get(&self.inst) {
            Some(value) => stays && self.value.as_ref() == Some(value),
            None => !stays || self.value.is_none(),
        }
    }
}

impl Models {
    /// No entry.
    pub fn new(alloc: Global) -> Models {
        Models {
            alloc,
            entries: Vec::new(alloc),
            past: Vec::new(alloc),
            puts: 0,
            gone: 0,
            again: 0,
            differs: false,
        }
    }

    /// The next entry, which isn't kept yet.
    pub fn entry(
        &self,
        inst: &Inst,
        value: &Option<Value>,
        reads: &[Loc],
        uses: &[Inst],
        order: Order,
    ) -> Result<Entry, AllocError> {
        let mut entry = Entry {
            number: self.puts,
            inst: inst.copy(self.alloc)?,
            value: copied(value)?,
            reads: Vec::from_slice(self.alloc, reads)?,
            taken: copies(self.alloc, uses)?,
            uses: Vec::new(self.alloc),
            covers: Vec::new(self.alloc),
            lasts: value.is_some() && order == Order::AsTaken,
        };
        self.link(&mut entry)?;
        Ok(entry)
    }

    /// The entry uses those of the instances that it took.
    fn link(&self, entry: &mut Entry) -> Result<(), AllocError> {
        let mut uses = Vec::new(self.alloc);
        let mut covers = Vec::from_slice(self.alloc, &entry.reads)?;
        for used in &self.entries {
            if entry.taken.contains(&used.inst) {
                uses.push(used.number)?;
                covers.extend_from_slice(&used.covers)?;
            }
        }
        entry.uses = uses;
        entry.covers = covers;
        Ok(())
    }

    /// Keeps the next entry. What used its instance with another value can't be kept again any more.
    pub fn push(&mut self, entry: Entry) {
        let same = match place_of(&self.past, &entry.inst) {
            Some(at) if at < self.past.len() => self.past.remove(at).value == entry.value,
            _ => false,
        };
        if !same {
            outdate(&mut self.past, &entry.inst);
        }
        self.keep(entry);
    }

    /// Keeps an entry.
    fn keep(&mut self, entry: Entry) {
        self.puts = self.puts.saturating_add(1);
        if self.entries.push(entry).is_err() {
            self.differs = true;
        }
    }

    /// Whether an entry of that number is kept.
    fn is_kept(&self, number: usize) -> bool {
        for entry in &self.entries {
            if entry.number == number {
                return true;
            }
        }
        false
    }

    /// Whether the entry reads a touched location, or uses one that is gone.
    fn rests<F: Fn(Loc) -> bool>(&self, entry: &Entry, touched: &F) -> bool
        requires { F.IsAlwaysCallable touched.now }
    {
        for used in &entry.uses {
            if !self.is_kept(*used) {
                return true;
            }
        }
        is_touched(&entry.reads, touched)
    }

    /// Forgets what is touched, from the front, and compares what is left with the keeper, which has done so.
    pub fn flush<F: Fn(Loc) -> bool>(&mut self, keeper: &KeepRecorded, touched: &F)
        requires { F.IsAlwaysCallable touched.now }
    {
        let mut at: usize = 0;
        for _ in 0..self.entries.len() {
            let Some(entry) = self.entries.get(at) else {
                break;
            };
            let stays = !is_touched(&entry.covers, touched);
            let is_alike = entry.is_alike(keeper, stays);
            if self.rests(entry, touched) == stays || !is_alike {
                self.differs = true;
            }
            if stays {
                at = at.saturating_add(1);
            } else if at < self.entries.len() {
                let entry = self.entries.remove(at);
                self.set_aside(entry);
                self.gone = self.gone.saturating_add(1);
            }
        }
        for entry in &mut self.past {
            if entry.lasts && is_touched(&entry.reads, touched) {
                entry.lasts = false;
            }
        }
        self.compare_past(keeper);
    }

    /// The entry is gone.
    fn set_aside(&mut self, entry: Entry) {
        if self.past.push(entry).is_err() {
            self.differs = true;
        }
    }

    /// Compares those that are gone with the keeper, which keeps none of them.
    fn compare_past(&mut self, keeper: &KeepRecorded) {
        for entry in &self.past {
            if keeper.stands(&entry.inst) {
                self.differs = true;
            }
        }
    }

    /// Forgets what the keeper has let go of for a bound. What used it stands for what that stood for, and can't be kept again.
    pub fn fit(&mut self, keeper: &KeepRecorded) {
        let mut at: usize = 0;
        for _ in 0..self.entries.len() {
            let Some(entry) = self.entries.get(at) else {
                break;
            };
            if keeper.stands(&entry.inst) {
                at = at.saturating_add(1);
            } else if at < self.entries.len() {
                let mut entry = self.entries.remove(at);
                entry.lasts = false;
                if fold(&mut self.entries, &entry).is_err() {
                    self.differs = true;
                }
                self.set_aside(entry);
            }
        }
    }

    /// Keeps again what the keeper has kept again as it may: how many these are.
    pub fn settle(&mut self, keeper: &KeepRecorded) -> u64 {
        let mut count: u64 = 0;
        for _ in 0..self.past.len() {
            let Some(at) = self.next_again(keeper) else {
                break;
            };
            if at >= self.past.len() {
                break;
            }
            let mut entry = self.past.remove(at);
            entry.number = self.puts;
            if self.link(&mut entry).is_err() || !entry.is_alike(keeper, true) {
                self.differs = true;
            }
            self.keep(entry);
            self.again = self.again.saturating_add(1);
            count = count.saturating_add(1);
        }
        count
    }

    /// Where the first one is that the keeper has kept again as it may.
    fn next_again(&self, keeper: &KeepRecorded) -> Option<usize> {
        for (at, entry) in self.past.iter().enumerate() {
            if entry.lasts && keeper.stands(&entry.inst) && self.have_values(&entry.taken) {
                return Some(at);
            }
        }
        None
    }

    /// Whether a value of each instance is kept.
    fn have_values(&self, insts: &[Inst]) -> bool {
        for inst in insts {
            match place_of(&self.entries, inst) {
                Some(at) if has_value(&self.entries, at) => {}
                _ => return false,
            }
        }
        true
    }
}

/// Whether the entry there has a value.
fn has_value(entries: &[Entry], at: usize) -> bool {
    match entries.get(at) {
        Some(entry) => entry.value.is_some(),
        None => false,
    }
}

/// Where the entry of the instance stands.
fn place_of(entries: &[Entry], inst: &Inst) -> Option<usize> {
    for (at, entry) in entries.iter().enumerate() {
        if entry.inst == *inst {
            return Some(at);
        }
    }
    None
}

/// None of the entries that took the instance can be kept again.
fn outdate(entries: &mut [Entry], inst: &Inst) {
    for entry in entries {
        if entry.lasts && entry.taken.contains(inst) {
            entry.lasts = false;
        }
    }
}

/// What used the entry that is gone reads what it read, and uses what it used.
fn fold(entries: &mut [Entry], gone: &Entry) -> Result<(), AllocError> {
    for entry in entries {
        if entry.uses.contains(&gone.number) {
            entry.lasts = false;
            entry.reads.extend_from_slice(&gone.reads)?;
            entry.uses.extend_from_slice(&gone.uses)?;
            let number = gone.number;
            entry.uses.retain(|used| *used != number);
        }
    }
    Ok(())
}
