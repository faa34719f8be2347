//! What is derived, from what always is to what names it.

ghost use Rattle.std.specs.Prelude.{◌≡◌, ◌↔◌, ◌⊎◌, ℕ, ◌+◌, ◌≤◌, true, length, IfOk, OnOk};
ghost use Rattle.at_model.specs.Meaning.{Among};
ghost use Rattle.at_solve.specs.Derivations.{Derives};
ghost use Rattle.at_solve.specs.Spreading.{HasLooked, Spreads, is_known, is_met, is_met_at, unknown};

use crate::condition::Condition;
use crate::users::{listed, users_of};
use std::alloc::{AllocError, Global};

/// Of each condition whether it has a finite derivation. An error where memory is wanting.
pub fn derived(alloc: Global, system: &[Condition]) -> Result<Vec<bool>, AllocError>
    ensures size { IfOk result (λ known. length known.items ≡ length system.now) }
    ensures known { IfOk result (λ known. (p : ℕ) → (is_known known.items p ≡ true) ↔ Derives system.now p) }
{
    let users = users_of(alloc, system)?;
    let mut spread = Spread::new(alloc, system)?;
    while let Some(position) = spread.waiting.pop() {
        spread.look_at_all(system, listed(&users, position))?;
    }
    Ok(spread.known)
}

// What is known to be derived, and those of it whose users are still to be looked at.
#[derive(Drop)]
struct Spread {
    known: Vec<bool>,
    waiting: Vec<usize>,
}

impl Spread {
    // Each condition is looked at once.
    fn new(alloc: Global, system: &[Condition]) -> Result<Spread, AllocError>
        ensures { IfOk result (λ s. Spreads system.now (λ u. ⊥) s.known.items s.waiting.items) }
    {
        let mut known = Vec::new(alloc);
        known.resize(system.len(), false)?;
        let mut spread = Spread {
            known,
            waiting: Vec::new(alloc),
        };
        for position in 0..system.len() {
            spread.look_at(system, position)?;
        }
        Ok(spread)
    }

    // Looks at each of these.
    fn look_at_all(&mut self, system: &[Condition], users: &[usize]) -> Result<(), AllocError>
        ensures spreads { Spreads system.now (λ u. Among u users.now) self.old.known.items self.old.waiting.items
            → OnOk result (Spreads system.now (λ u. ⊥) self.new.known.items self.new.waiting.items) }
        ensures fewer { unknown self.new.known.items + (unknown self.new.known.items + length self.new.waiting.items)
            ≤ unknown self.old.known.items + (unknown self.old.known.items + length self.old.waiting.items) }
    {
        for user in users {
            self.look_at(system, *user)?;
        }
        Ok(())
    }

    // Where the condition is met by what is known, it is known, too.
    fn look_at(&mut self, system: &[Condition], position: usize) -> Result<(), AllocError>
        ensures looked { OnOk result (HasLooked system.now position self.old.known.items self.new.known.items self.old.waiting.items self.new.waiting.items) }
        ensures fewer { unknown self.new.known.items + (unknown self.new.known.items + length self.new.waiting.items)
            ≤ unknown self.old.known.items + (unknown self.old.known.items + length self.old.waiting.items) }
    {
        if position >= self.known.len() {
            return Ok(());
        }
        if self.is_known(position) || !self.is_met(system, position) {
            return Ok(());
        }
        self.waiting.push(position)?;
        self.known[position] = true;
        Ok(())
    }

    // Whether it is known that the condition at the position is derived.
    fn is_known(&self, position: usize) -> bool
        ensures { result ≡ is_known self.now.known.items position }
    {
        position < self.known.len() && self.known[position]
    }

    // Whether the condition at the position is derived by what is known.
    fn is_met(&self, system: &[Condition], position: usize) -> bool
        ensures { result ≡ is_met_at system.now self.now.known.items position }
    {
        match system.get(position) {
            None => false,
            Some(condition) => self.meets(*condition),
        }
    }

    // Whether the condition is derived by what is known.
    fn meets(&self, condition: Condition) -> bool
        ensures { result ≡ is_met self.now.known.items condition }
    {
        match condition {
            Condition::Always => true,
            Condition::Never => false,
            Condition::When(of) => self.is_known(of),
            Condition::Both(one, other) => self.is_known(one) && self.is_known(other),
            Condition::Either(one, other) => self.is_known(one) || self.is_known(other),
        }
    }
}
