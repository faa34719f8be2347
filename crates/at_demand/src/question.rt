//! Questions that are given turns. Between turns a question holds nothing of rules or tree.

ghost use Rattle.std.specs.Prelude.{◌≡◌, ◌++◌, ◌∷◌, [], reverse, IfNone, IfOk, IfSome, MatchBool, None};
ghost use Rattle.std.specs.Map.{keys_of, lookup};
ghost use Rattle.std.specs.Option.{option_map};
ghost use Rattle.at_model.specs.Meaning.{Among};
ghost use Rattle.at_body.specs.Same.{same_instance};
ghost use Rattle.at_demand.specs.Answered.{IsCounted};
ghost use Rattle.at_demand.specs.Levels.{IsDoneIn, asked_by, fault_in, root_in, seen_in};
ghost use Rattle.at_demand.specs.ChainSteps.{HasEnded, HasGoneOver, HasLostFault, HasLostSeen, HasMarked, HasMarkedAll, HasNext, HasSeen};
ghost use Rattle.at_demand.specs.ChainSteps.{HasPassedOn, HasRisen, HasSettled, IsAlike, IsDeeper, IsSearched, KeepsRest};

use crate::answer::Answer;
use crate::evaluation::Find;
use at_body::{Inst, Value};
use at_search::{Ended, Ending, Fault, Search, holds, put};
use indexmap::IndexMap;
use std::alloc::{AllocError, Global};
use std::mem;

// From one strict demand to the next. As long as the equation of what was demanded is tried there is no search, and that instance is the
// one whose equation is tried; of an attribute that isn't circular it stays so.
pub(crate) type Level = Option<Box<Search>>;

/// A question that is given turns: a chain of instances, each of which demanded the root of the next one's level; the values that were
/// found, and how equations ended that came to no value.
// The last one of the chain is `inst`, in the last level, and the others wait, each in its level. `passed` are those roots of levels that
// came to be kept while they were under way.
pub struct Question {
    pub(crate) waiting: IndexMap<Inst, Level>,
    pub(crate) found: IndexMap<Inst, Find>,
    pub(crate) passed: IndexMap<Inst, Value>,
    pub(crate) ended: IndexMap<Inst, Ended>,
    pub(crate) inst: Inst,
    pub(crate) level: Level,
    pub(crate) turns: u128,
}

/// One call, where each exit that lets it go would else have a case for each field.
impl Drop for Question {
    fn drop(self) {
        let Question {
            waiting: _,
            found: _,
            passed: _,
            ended: _,
            inst: _,
            level: _,
            turns: _,
        } = self;
    }
}

impl Question {
    // The question for an instance.
    pub(crate) fn new(alloc: Global, inst: Inst) -> Question
        ensures waiting { result.waiting.entries ≡ [] }
        ensures found { result.found.entries ≡ [] }
        ensures passed { result.passed.entries ≡ [] }
        ensures ended { result.ended.entries ≡ [] }
        ensures inst { result.inst ≡ inst }
        ensures level { result.level ≡ None }
        ensures turns { result.turns ≡ 0 }
    {
        Question {
            waiting: IndexMap::new(alloc),
            found: IndexMap::new(alloc),
            passed: IndexMap::new(alloc),
            ended: IndexMap::new(alloc),
            inst,
            level: None,
            turns: 0,
        }
    }

    /// How many turns it was given since it was posted, where none of them answered it.
    pub fn turns(&self) -> u128
        ensures { result ≡ self.now.turns }
    {
        self.turns
    }

    // One turn more. An error at the greatest number, as where memory is wanting.
    pub(crate) fn count_turn(&mut self) -> Result<(), AllocError>
        ensures { IfOk result (λ u. IsCounted self.old self.new) }
    {
        self.turns = self.turns.checked_add(1).ok_or(AllocError)?;
        Ok(())
    }

    // What was asked: the root of the first level.
    pub(crate) fn asked(&self) -> &Inst
        ensures { result.now ≡ asked_by self.now }
    {
        match self.waiting.first() {
            Some((inst, level)) => root_of(level, inst),
            None => self.root(),
        }
    }

    // The root of the last level.
    pub(crate) fn root(&self) -> &Inst
        ensures { result.now ≡ root_in self.now.level self.now.inst }
    {
        root_of(&self.level, &self.inst)
    }

    // The root of the last level is found: the one that waits for it is the last; where none waits, that was the question.
    pub(crate) fn settle(&mut self, find: Find) -> Result<Option<Answer>, AllocError>
        ensures { IfOk result (HasSettled self.old find self.new) }
    {
        match self.rise() {
            None => Ok(Some(Answer::Value(find.into_value()))),
            Some(root) => {
                put(&mut self.found, root, find)?;
                Ok(None)
            }
        }
    }

    // The root of the last level is kept with this value: it goes off the chain so, too.
    pub(crate) fn pass(&mut self, value: Value) -> Result<Option<Answer>, AllocError>
        ensures { IfOk result (HasPassedOn self.old value self.new) }
    {
        match self.rise() {
            None => Ok(Some(Answer::Value(value))),
            Some(root) => {
                put(&mut self.passed, root, value)?;
                Ok(None)
            }
        }
    }

    // Whether the instance waits, or is the last one.
    pub(crate) fn is_tried(&self, inst: &Inst) -> bool
        ensures { MatchBool result (Among inst.now (keys_of self.now.waiting.entries ++ self.now.inst ∷ []))
            (Among inst.now (keys_of self.now.waiting.entries ++ self.now.inst ∷ []) → ⊥) }
    {
        self.inst == *inst || holds(&self.waiting, inst)
    }

    // The last instance needs this one, of which nothing is known: it is the root of a level more.
    pub(crate) fn deepen(&mut self, needed: Inst) -> Result<(), AllocError>
        ensures { IfOk result (λ u. IsDeeper self.old self.new needed) }
    {
        let level = mem::replace(&mut self.level, None);
        let inst = mem::replace(&mut self.inst, needed);
        put(&mut self.waiting, inst, level)
    }

    // Takes the last level off the chain, where another one waits for its root.
    pub(crate) fn rise(&mut self) -> Option<Inst>
        ensures { HasRisen self.old self.new result }
    {
        let Some((below, level)) = self.waiting.pop() else {
            return None;
        };
        let inst = mem::replace(&mut self.inst, below);
        match mem::replace(&mut self.level, level) {
            Some(search) => Some(Box::into_inner(search).into_root()),
            None => Some(inst),
        }
    }

    // Whether no equation has ended but by a value: then no search is under way, and a fault is the answer.
    pub(crate) fn is_plain(&self) -> bool
        ensures { MatchBool result (self.now.ended.entries ≡ []) (self.now.ended.entries ≡ [] → ⊥) }
    {
        self.ended.is_empty()
    }

    // Whether the instance is marked whole, where its equation has ended by no value.
    pub(crate) fn is_whole(&self, inst: &Inst) -> Option<bool>
        ensures { result ≡ option_map (λ x. x.is_whole) (lookup (same_instance inst.now) self.now.ended.entries) }
    {
        // The map makes the hash of what is looked up in it, empty as it may be.
        if self.is_plain() {
            return None;
        }
        match self.ended.get(inst) {
            Some(ended) => Some(ended.is_whole),
            None => None,
        }
    }

    // The equation of the last instance ended so: that is recorded, the instance is seen, and those of its formula are to be looked at next.
    pub(crate) fn end(&mut self, alloc: Global, ending: Ending) -> Result<(), AllocError>
        requires { Among self.old.inst (seen_in self.old.level) → ⊥ }
        ensures ended { IfOk result (λ u. HasEnded self.old ending self.new) }
        ensures found { self.new.found.entries ≡ self.old.found.entries }
    {
        let is_whole = matches!(&ending, Ending::Spoilt(_));
        let seen = self.inst.copy(alloc)?;
        let inst = self.inst.copy(alloc)?;
        self.search(alloc)?;
        self.see(alloc, seen, &ending)?;
        put(&mut self.ended, inst, Ended { ending, is_whole })
    }

    // The last level is a search from now on.
    fn search(&mut self, alloc: Global) -> Result<(), AllocError>
        ensures searched { IfOk result (λ u. IsSearched self.old self.new) }
        ensures found { self.new.found.entries ≡ self.old.found.entries }
    {
        if self.level.is_none() {
            let search = Search::new(alloc, self.inst.copy(alloc)?);
            self.level = Some(Box::new(alloc, search)?);
        }
        Ok(())
    }

    // The search of the last level sees an instance whose equation ended so.
    fn see(&mut self, alloc: Global, inst: Inst, ending: &Ending) -> Result<(), AllocError>
        requires { Among inst (seen_in self.old.level) → ⊥ }
        ensures seen { IfOk result (λ u. HasSeen self.old inst ending.now self.new) }
        ensures found { self.new.found.entries ≡ self.old.found.entries }
    {
        match &mut self.level {
            Some(search) => search.see(alloc, inst, ending),
            None => Ok(()),
        }
    }

    // The search of the last level goes over an instance whose equation has ended before.
    pub(crate) fn go_over(&mut self, alloc: Global, inst: Inst) -> Result<(), AllocError>
        requires { Among inst (seen_in self.old.level) → ⊥ }
        ensures over { IfOk result (λ u. HasGoneOver self.old inst self.new) }
        ensures rest { KeepsRest self.old self.new }
    {
        let Some(search) = &mut self.level else {
            return Ok(());
        };
        match self.ended.get(&inst) {
            Some(ended) => search.see(alloc, inst, &ended.ending),
            None => Ok(()),
        }
    }

    // The next instance that the search of the last level is to look at, taken off.
    pub(crate) fn next(&mut self) -> Option<Inst>
        ensures some { IfSome result (HasNext self.old self.new) }
        ensures none { IfNone result (IsDoneIn self.old.level) }
        ensures same { IfNone result (IsAlike self.old self.new) }
    {
        match &mut self.level {
            Some(search) => search.next(),
            None => None,
        }
    }

    // Whether the search of the last level has seen the instance.
    pub(crate) fn has_seen(&self, inst: &Inst) -> bool
        ensures { MatchBool result (Among inst.now (seen_in self.now.level)) (Among inst.now (seen_in self.now.level) → ⊥) }
    {
        match &self.level {
            Some(search) => search.has_seen(inst),
            None => false,
        }
    }

    // The fault that the search of the last level has met first, taken out.
    pub(crate) fn take_fault(&mut self) -> Option<Fault>
        ensures fault { result ≡ fault_in self.old.level }
        ensures lost { HasLostFault self.old self.new }
    {
        match &mut self.level {
            Some(search) => search.take_fault(),
            None => None,
        }
    }

    // What the search of the last level has seen, taken out.
    pub(crate) fn take_seen(&mut self, alloc: Global) -> IndexMap<Inst, ()>
        ensures seen { keys_of result.entries ≡ reverse (seen_in self.old.level) }
        ensures lost { HasLostSeen self.old self.new }
    {
        match &mut self.level {
            Some(search) => search.take_seen(alloc),
            None => IndexMap::new(alloc),
        }
    }

    // All to which formulas lead from each of these has ended, so it has an outcome.
    pub(crate) fn mark_whole(&mut self, seen: &IndexMap<Inst, ()>)
        ensures { HasMarkedAll (keys_of seen.now.entries) self.old self.new }
    {
        let insts = seen.keys().as_slice();
        for inst in insts {
            self.mark(inst);
        }
    }

    fn mark(&mut self, inst: &Inst)
        ensures { HasMarked inst.now self.old self.new }
    {
        if let Some(ended) = self.ended.get_mut(inst) {
            ended.is_whole = true;
        }
    }
}

// The root of a level, where that is the instance whose equation is tried.
fn root_of<'q>(level: &'q Level, inst: &'q Inst) -> &'q Inst
    ensures { result.now ≡ root_in level.now inst.now }
{
    match level {
        Some(search) => &search.root,
        None => inst,
    }
}
