//! A flush marks what reads a touched drawer of a node.

ghost use Rattle.at_cache.specs.Prelude.{loc_view, Answers, sees, GoesOn};
ghost use Rattle.at_index.specs.Desks.{desk_edges, edges_in_desks};
ghost use Rattle.at_index.specs.declared.scope.Scope.TheVariants as scope_code;
ghost use Rattle.std.specs.Prelude.{true};

use crate::cut::{Cut, Loss};
use crate::forgetting::doom_listed;
use at_index::desk::{AllDesks, Desks, desks_of};
use at_index::edge::Slot;
use at_index::scope::Scope;
use at_store::{Loc, Node};

// Whether the drawer is touched.
fn is_touched<F: Fn(Loc) -> bool>(drawer: Loc, touched: &F) -> bool
    requires { F.IsAlwaysCallable touched.now }
    ensures { Answers (F.post touched.now) (loc_view drawer) result }
{
    touched(drawer)
}

// What reads a touched one of these drawers of the node goes: the first one that goes.
#[inline(never)]
fn begin_among<F: Fn(Loc) -> bool>(
    cut: &mut Cut,
    first: Option<Slot>,
    node: Node,
    desks: &Desks,
    touched: &F,
) -> Option<Slot>
    requires { F.IsAlwaysCallable touched.now }
    ensures { GoesOn (Answers (F.post touched.now)) (λ l. true) (edges_in_desks node desks.now.spots.entries) first cut.old result cut.new }
{
    let mut first = first;
    for place in 0..desks.len() {
        let (drawer, edges) = desks.desk(node, place);
        if is_touched(drawer, touched) {
            first = doom_listed(cut, first, edges, Loss::Both);
        }
    }
    first
}

/// What reads a touched drawer of the node goes: the first one that goes.
#[inline(always)]
pub fn begin_desks<F: Fn(Loc) -> bool>(
    cut: &mut Cut,
    first: Option<Slot>,
    all: &AllDesks,
    node: Node,
    touched: &F,
) -> Option<Slot>
    requires { F.IsAlwaysCallable touched.now }
    ensures { GoesOn (Answers (F.post touched.now)) (sees scope_code.All node) (desk_edges all.now.entries) first cut.old result cut.new }
{
    match desks_of(all, node) {
        Some(desks) => begin_among(cut, first, node, desks, touched),
        None => first,
    }
}

/// The same where the scope has drawers.
#[inline(always)]
pub fn begin_drawers<F: Fn(Loc) -> bool>(
    cut: &mut Cut,
    first: Option<Slot>,
    all: &AllDesks,
    node: Node,
    scope: Scope,
    touched: &F,
) -> Option<Slot>
    requires { F.IsAlwaysCallable touched.now }
    ensures { GoesOn (Answers (F.post touched.now)) (sees scope node) (desk_edges all.now.entries) first cut.old result cut.new }
{
    match scope {
        Scope::All => begin_desks(cut, first, all, node, touched),
        Scope::Index => first,
    }
}
