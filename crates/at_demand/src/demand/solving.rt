//! What is kept and found of instances that are solved together.

ghost use Rattle.std.specs.Prelude.{◌≡◌, ◌∷◌, [], IfOk, OnErr, OnOk};
ghost use Rattle.indexmap.specs.IndexMap.{insert_entry};
ghost use Rattle.at_body.specs.Same.{same_instance};
ghost use Rattle.at_body.specs.declared.value.Value.TheVariants as value_code;
ghost use Rattle.std.specs.Map.{keys_of};
ghost use Rattle.at_demand.specs.Groups.{AddsAtoms, AddsMember, AddsUse, AddsUses, CanBeFirst, CanBeOther, CanBeSolved, CanKeepGroup, IsFindOf, IsFormedAt, IsOtherFind, UsesFirst};
ghost use Rattle.at_demand.specs.Groups.{HasKeptFirst, HasKeptGroup, HasKeptOther, HasMarkedSolved, HasPutLast, HasSolved, start_in};

use super::Demand;
use crate::evaluation::{Demanded, Find};
use crate::locations::Locations;
use crate::question::Question;
use at_body::{Inst, Piece, Value};
use at_cache::Keeper;
use at_rules::Rules;
use at_search::{Formed, Solved, formed_of, solve};
use at_store::Store;
use indexmap::IndexMap;
use std::alloc::{AllocError, Global};

impl<K: Keeper> Demand<K> {
    // Each of these from which formulas lead to formulas alone is known from now on; all are whole.
    pub(super) fn solve_and_mark(
        &mut self,
        rules: &Rules,
        store: &Store,
        question: &mut Question,
        seen: &IndexMap<Inst, ()>,
    ) -> Result<(), AllocError>
        requires { CanBeSolved rules.now store.now (K.contents self.old.keeper) question.old (keys_of seen.now.entries) }
        ensures { HasMarkedSolved rules.now store.now (K.contents self.old.keeper) (K.contents self.new.keeper) (K.memories self.old.keeper)
            (K.memories self.new.keeper) self.old.work self.new.work question.old question.new (keys_of seen.now.entries) result }
    {
        self.solve(rules, store, question, seen)?;
        question.mark_whole(seen);
        Ok(())
    }

    // Each of these from which formulas lead to formulas alone is known from now on.
    fn solve(
        &mut self,
        rules: &Rules,
        store: &Store,
        question: &mut Question,
        seen: &IndexMap<Inst, ()>,
    ) -> Result<(), AllocError>
        requires { CanBeSolved rules.now store.now (K.contents self.old.keeper) question.old (keys_of seen.now.entries) }
        ensures { HasSolved rules.now store.now (K.contents self.old.keeper) (K.contents self.new.keeper) (K.memories self.old.keeper)
            (K.memories self.new.keeper) self.old.work self.new.work question.old question.new (keys_of seen.now.entries) result }
    {
        let insts = seen.keys().as_slice();
        let Some(start) = start_of(rules, insts) else {
            return Ok(());
        };
        let groups = solve(
            self.alloc,
            start,
            &question.ended,
            &self.knowing(question),
            seen,
        )?;
        for group in &groups {
            self.keep_group(rules, store, question, insts, group.as_slice())?;
        }
        Ok(())
    }

    // The members of a group have these values: the first one stands for all of them, and the others rest on it.
    fn keep_group(
        &mut self,
        rules: &Rules,
        store: &Store,
        question: &mut Question,
        insts: &[Inst],
        group: &[Solved],
    ) -> Result<(), AllocError>
        requires { CanKeepGroup rules.now store.now (K.contents self.old.keeper) question.old insts.now group.now }
        ensures { HasKeptGroup rules.now store.now (K.contents self.old.keeper) (K.contents self.new.keeper) (K.memories self.old.keeper)
            (K.memories self.new.keeper) self.old.work self.new.work question.old question.new insts.now group.now result }
    {
        let Some(first) = group.first() else {
            return Ok(());
        };
        let Some(inst) = insts.get(first.position) else {
            return Ok(());
        };
        let find = self.find_of(question, insts, group, first.value)?;
        let place = self.keep_first(rules, question, inst, find)?;
        // The first one is known by now, and passed over.
        for member in group {
            self.keep_other(rules, question, insts, inst, place, *member)?;
        }
        Ok(())
    }

    // What the first member of a group is found to be: its value, with all that the equations of the members read and used outside.
    fn find_of(
        &self,
        question: &Question,
        insts: &[Inst],
        group: &[Solved],
        value: bool,
    ) -> Result<Find, AllocError>
        ensures { IfOk result (IsFindOf (K.contents self.now.keeper) question.now insts.now group.now value) }
    {
        let none = Demanded::new(self.alloc);
        let mut find = find_with(self.alloc, value, none);
        for member in group {
            self.add_member(question, insts, member, &mut find)?;
        }
        Ok(find)
    }

    // Adds what the equation of the member read and used, where it gave a formula.
    fn add_member(
        &self,
        question: &Question,
        insts: &[Inst],
        member: &Solved,
        find: &mut Find,
    ) -> Result<(), AllocError>
        ensures { OnOk result (AddsMember (K.contents self.now.keeper) question.now insts.now member.now find.old find.new) }
    {
        match formed_at(question, insts, member.position) {
            Some(formed) => self.add(question, formed, find),
            None => Ok(()),
        }
    }

    // Adds what the equation read, and what it used: those in its formula that are known, too.
    fn add(&self, question: &Question, formed: &Formed, find: &mut Find) -> Result<(), AllocError>
        ensures { OnOk result (AddsUses (K.contents self.now.keeper) question.now formed.now find.old find.new) }
    {
        find.reads.extend_from_slice(formed.reads.as_slice())?;
        let kept = formed.kept.as_slice();
        let finds = formed.finds.as_slice();
        find.demanded.add(self.alloc, kept, finds)?;
        self.add_atoms(question, formed.formula.pieces(), &mut find.demanded)
    }

    // Adds the instances of the formula that are known.
    fn add_atoms(
        &self,
        question: &Question,
        pieces: &[Piece],
        demanded: &mut Demanded,
    ) -> Result<(), AllocError>
        ensures { OnOk result (AddsAtoms (K.contents self.now.keeper) question.now pieces.now demanded.old demanded.new) }
    {
        for piece in pieces {
            self.add_piece(question, piece, demanded)?;
        }
        Ok(())
    }

    // Adds the instance for which the piece asks, where that is known.
    fn add_piece(
        &self,
        question: &Question,
        piece: &Piece,
        demanded: &mut Demanded,
    ) -> Result<(), AllocError>
        ensures { OnOk result (AddsAtoms (K.contents self.now.keeper) question.now (piece.now ∷ []) demanded.old demanded.new) }
    {
        match piece {
            Piece::Known(_) => Ok(()),
            Piece::Asks(inst) => self.add_use(question, inst, demanded),
            Piece::Both => Ok(()),
            Piece::Either => Ok(()),
        }
    }

    // Adds the use of an instance, where it is known.
    fn add_use(
        &self,
        question: &Question,
        inst: &Inst,
        demanded: &mut Demanded,
    ) -> Result<(), AllocError>
        ensures { OnOk result (AddsUse (K.contents self.now.keeper) question.now inst.now demanded.old demanded.new) }
    {
        if let Some(_value) = self.keeper.get(inst) {
            let used = inst.copy(self.alloc)?;
            demanded.kept.push(used)?;
            return Ok(());
        }
        match question.found.get_full(inst) {
            Some((position, _inst, _find)) => {
                demanded.finds.push(position)?;
                Ok(())
            }
            None => Ok(()),
        }
    }

    // The value of the find is kept, or the find comes to those that were found: its position there.
    fn keep_first(
        &mut self,
        rules: &Rules,
        question: &mut Question,
        inst: &Inst,
        find: Find,
    ) -> Result<Option<usize>, AllocError>
        requires { CanBeFirst rules.now (K.contents self.old.keeper) question.old inst.now find }
        ensures { HasKeptFirst rules.now (K.contents self.old.keeper) (K.contents self.new.keeper) (K.memories self.old.keeper)
            (K.memories self.new.keeper) self.old.work self.new.work question.old question.new inst.now find result }
    {
        let is_kept = self.keep(rules, &question.found, inst, &find)?;
        if is_kept {
            return Ok(None);
        }
        let place = put_last(self.alloc, question, inst, find)?;
        Ok(Some(place))
    }

    // Another member is kept, or found: it rests on what the first one does.
    fn keep_other(
        &mut self,
        rules: &Rules,
        question: &mut Question,
        insts: &[Inst],
        first: &Inst,
        place: Option<usize>,
        member: Solved,
    ) -> Result<(), AllocError>
        requires { CanBeOther rules.now (K.contents self.old.keeper) question.old first.now place }
        ensures { HasKeptOther rules.now (K.contents self.old.keeper) (K.contents self.new.keeper) (K.memories self.old.keeper)
            (K.memories self.new.keeper) self.old.work self.new.work question.old question.new insts.now first.now place member result }
    {
        let Some(inst) = insts.get(member.position) else {
            return Ok(());
        };
        if self.is_known(question, inst) {
            return Ok(());
        }
        let find = self.other_find(first, place, member.value)?;
        let _place = self.keep_first(rules, question, inst, find)?;
        Ok(())
    }

    // What another member is found to be: its value, with the use of the first one.
    fn other_find(
        &self,
        first: &Inst,
        place: Option<usize>,
        value: bool,
    ) -> Result<Find, AllocError>
        ensures { IfOk result (IsOtherFind first.now place value) }
    {
        let demanded = self.use_of(first, place)?;
        let find = find_with(self.alloc, value, demanded);
        Ok(find)
    }

    // The use of the first one alone.
    fn use_of(&self, first: &Inst, place: Option<usize>) -> Result<Demanded, AllocError>
        ensures { IfOk result (UsesFirst first.now place) }
    {
        match place {
            None => used_kept(self.alloc, first),
            Some(position) => used_find(self.alloc, position),
        }
    }
}

// The value from which all of these start, where they are circular.
fn start_of(rules: &Rules, insts: &[Inst]) -> Option<bool>
    ensures { result ≡ start_in rules.now insts.now }
{
    let inst = insts.first()?;
    rules.start_of(inst.attribute())
}

// What the equation of the instance at the position came to, where that is a formula.
fn formed_at<'q>(question: &'q Question, insts: &[Inst], position: usize) -> Option<&'q Formed>
    ensures { IsFormedAt question.now.ended.entries insts.now position result }
{
    let inst = insts.get(position)?;
    formed_of(&question.ended, inst)
}

// A value with what was demanded for it, where nothing was read.
fn find_with(alloc: Global, value: bool, demanded: Demanded) -> Find
    ensures is { result.value ≡ value_code.Bool value }
    ensures reads { result.reads.items ≡ [] }
    ensures demanded { result.demanded ≡ demanded }
{
    Find {
        value: Value::Bool(value),
        reads: Locations::new(alloc),
        demanded,
    }
}

// The use of a kept instance alone.
fn used_kept(alloc: Global, inst: &Inst) -> Result<Demanded, AllocError>
    ensures kept { IfOk result (λ d. d.kept.items ≡ inst.now ∷ []) }
    ensures finds { IfOk result (λ d. d.finds.items ≡ []) }
{
    let mut demanded = Demanded::new(alloc);
    let used = inst.copy(alloc)?;
    demanded.kept.push(used)?;
    Ok(demanded)
}

// The use of the find at the position alone.
fn used_find(alloc: Global, position: usize) -> Result<Demanded, AllocError>
    ensures kept { IfOk result (λ d. d.kept.items ≡ []) }
    ensures finds { IfOk result (λ d. d.finds.items ≡ position ∷ []) }
{
    let mut demanded = Demanded::new(alloc);
    demanded.finds.push(position)?;
    Ok(demanded)
}

// The find comes behind those that were found: its position; or memory is wanting.
fn put_last(
    alloc: Global,
    question: &mut Question,
    inst: &Inst,
    find: Find,
) -> Result<usize, AllocError>
    ensures { HasPutLast question.old question.new inst.now find result }
{
    let place = question.found.len();
    let key = inst.copy(alloc)?;
    put_find(&mut question.found, key, find)?;
    Ok(place)
}

// The find comes to what was found, or memory is wanting.
fn put_find(found: &mut IndexMap<Inst, Find>, inst: Inst, find: Find) -> Result<(), AllocError>
    ensures ok { OnOk result (found.new.entries ≡ insert_entry same_instance found.old.entries inst find) }
    ensures err { OnErr result (found.new.entries ≡ found.old.entries) }
{
    found.insert(inst, find)?;
    Ok(())
}
