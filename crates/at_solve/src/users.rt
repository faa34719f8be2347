//! By which conditions others are named.

ghost use Rattle.std.specs.Prelude.{◌≡◌, ◌⊎◌, ℕ, ◌<◌, [], length, IfOk, OnOk};
ghost use Rattle.at_model.specs.Meaning.{Among};
ghost use Rattle.at_solve.specs.Spreading.{AreListed, named, users_at};

use crate::condition::Condition;
use std::alloc::{AllocError, Global};

/// Of each condition those that name it, each as often as it does.
pub fn users_of(alloc: Global, system: &[Condition]) -> Result<Vec<Vec<usize>>, AllocError>
    ensures { IfOk result (λ users. AreListed system.now users.items) }
{
    let mut users = empty_lists(alloc, system.len())?;
    for position in 0..system.len() {
        let condition = system[position];
        note(&mut users, condition, position)?;
    }
    Ok(users)
}

/// Those that name the condition at the position, nothing behind the last one.
pub fn listed(users: &[Vec<usize>], position: usize) -> &[usize]
    ensures { result.now ≡ users_at users.now position }
{
    match users.get(position) {
        Some(list) => list,
        None => &[],
    }
}

// So many empty lists.
fn empty_lists(alloc: Global, count: usize) -> Result<Vec<Vec<usize>>, AllocError>
    ensures { IfOk result (λ users. length users.items ≡ count) }
{
    let mut users: Vec<Vec<usize>> = Vec::new(alloc);
    for position in 0..count {
        users.push(Vec::new(alloc))?;
    }
    Ok(users)
}

// Puts the condition at the position into the lists of those that it names.
fn note(
    users: &mut Vec<Vec<usize>>,
    condition: Condition,
    position: usize,
) -> Result<(), AllocError>
    ensures size { length users.new.items ≡ length users.old.items }
    ensures kept { (u p : ℕ) → Among u (users_at users.old.items p) → Among u (users_at users.new.items p) }
    ensures noted { OnOk result ((p : ℕ) → Among p (named condition) → p < length users.old.items → Among position (users_at users.new.items p)) }
{
    match condition {
        Condition::Always | Condition::Never => Ok(()),
        Condition::When(of) => add(users, of, position),
        Condition::Both(one, other) => add_twice(users, one, other, position),
        Condition::Either(one, other) => add_twice(users, one, other, position),
    }
}

// Puts the condition at the position into the lists of both.
fn add_twice(
    users: &mut Vec<Vec<usize>>,
    one: usize,
    other: usize,
    position: usize,
) -> Result<(), AllocError>
    ensures size { length users.new.items ≡ length users.old.items }
    ensures kept { (u p : ℕ) → Among u (users_at users.old.items p) → Among u (users_at users.new.items p) }
    ensures added { OnOk result ((p : ℕ) → (p ≡ one) ⊎ ((p ≡ other) ⊎ ⊥) → p < length users.old.items → Among position (users_at users.new.items p)) }
{
    add(users, one, position)?;
    add(users, other, position)?;
    Ok(())
}

// Puts the condition at the position into the list of that one.
fn add(users: &mut Vec<Vec<usize>>, of: usize, position: usize) -> Result<(), AllocError>
    ensures size { length users.new.items ≡ length users.old.items }
    ensures kept { (u p : ℕ) → Among u (users_at users.old.items p) → Among u (users_at users.new.items p) }
    ensures added { OnOk result (of < length users.old.items → Among position (users_at users.new.items of)) }
{
    if of >= users.len() {
        return Ok(());
    }
    users[of].push(position)?;
    Ok(())
}
