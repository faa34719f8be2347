//! An edit takes the traces of what reads a touched location, and marks what is kept of it.

ghost use Rattle.std.specs.Prelude.{◌≡◌, ◌∷◌, ℕ, [], IsTrue, MatchBool, Option, true, false};
ghost use Rattle.at_cache.specs.Prelude.{Location, Edge, edges_in, edges_along, edges_of, GoesOver, GoesOn, looks_at, sees, Answers, edges_to};
ghost use Rattle.at_cache.specs.declared.cut.Loss.TheVariants as loss_code;
ghost use Rattle.at_index.specs.Readers.{edges_among, edges_at, stands_for};
ghost use Rattle.at_index.specs.Runs.{edges_on, edges_over, edges_past};

use crate::cut::{Cut, Loss, take_trace};
use crate::desks::begin_drawers;
use at_index::edge::{Edge, Edges, Slot};
use at_index::facet::{Facet, Facets, Readers};
use at_index::row::Row;
use at_index::run::{AllReaders, Reach, Run, Seat};
use at_index::scope::Scope;
use at_index::seating::seat_of;
use at_store::{Loc, Node};

// The entry that the edge tells of can't be kept again, if it is there.
fn lose_trace(cut: &mut Cut, edge: &Edge)
    ensures { (first : Option ℕ) → GoesOver loss_code.Trace (edge.now ∷ []) first cut.old first cut.new }
{
    if cut.entries.is_current(edge) {
        take_trace(&mut cut.standings, edge.slot);
    }
}

// The entry that the edge tells of goes, if it is kept: the first one that goes from now on.
fn mark(cut: &mut Cut, first: Option<Slot>, edge: &Edge) -> Option<Slot>
    ensures { GoesOver loss_code.Value (edge.now ∷ []) first cut.old result cut.new }
{
    if !cut.is_fresh(edge) {
        return first;
    }
    cut.entries.set_going(edge.slot, first);
    Some(edge.slot)
}

// The entry that the edge tells of loses that: the first one that goes from now on.
fn doom(cut: &mut Cut, first: Option<Slot>, edge: &Edge, loss: Loss) -> Option<Slot>
    ensures { GoesOver loss (edge.now ∷ []) first cut.old result cut.new }
{
    match loss {
        Loss::Trace => {
            lose_trace(cut, edge);
            first
        }
        Loss::Value => mark(cut, first, edge),
        Loss::Both => {
            lose_trace(cut, edge);
            mark(cut, first, edge)
        }
    }
}

/// So does each that an edge of the row tells of.
pub fn doom_row(cut: &mut Cut, first: Option<Slot>, row: &Row, loss: Loss) -> Option<Slot>
    ensures { GoesOver loss (edges_of row.now) first cut.old result cut.new }
{
    let mut first = first;
    let mut rest = *row;
    while let Some((edge, others)) = rest.split_first() {
        first = doom(cut, first, &edge, loss);
        rest = others;
    }
    first
}

// So does each that an edge of these rows tells of.
fn doom_all(cut: &mut Cut, first: Option<Slot>, rows: &[Row], loss: Loss) -> Option<Slot>
    ensures { GoesOver loss (edges_along rows.now) first cut.old result cut.new }
{
    let mut first = first;
    for row in rows {
        first = doom_row(cut, first, row, loss);
    }
    first
}

/// So does each that an edge of this list tells of.
pub fn doom_listed(cut: &mut Cut, first: Option<Slot>, edges: &Edges, loss: Loss) -> Option<Slot>
    ensures { GoesOver loss (edges_in edges.now) first cut.old result cut.new }
{
    match edges {
        Edges::Empty => first,
        Edges::Few(count, step, slot, stamp) => {
            doom_row(cut, first, &Row::few(*count, *step, *slot, *stamp), loss)
        }
        Edges::More(rows) => doom_all(cut, first, rows.as_slice(), loss),
    }
}

// Whether the facet of the node is in the scope, and what it stands for is touched.
fn is_touched<F: Fn(Loc) -> bool>(node: Node, facet: Facet, scope: Scope, touched: &F) -> bool
    requires { F.IsAlwaysCallable touched.now }
    ensures { MatchBool result ((l : Location ℕ) × (stands_for node facet l ≡ true) × Answers (F.post touched.now) l true)
        ((l : Location ℕ) → stands_for node facet l ≡ true → looks_at scope l ≡ true → Answers (F.post touched.now) l false) }
{
    scope.has(facet) && facet.is_touched(node, touched)
}

// What reads a touched location in the scope of the node goes: the first one that goes.
fn begin_at<F: Fn(Loc) -> bool>(
    cut: &mut Cut,
    first: Option<Slot>,
    node: Node,
    readers: &[Readers],
    scope: Scope,
    touched: &F,
) -> Option<Slot>
    requires { F.IsAlwaysCallable touched.now }
    ensures { GoesOn (Answers (F.post touched.now)) (looks_at scope) (edges_among node readers.now) first cut.old result cut.new }
{
    let mut first = first;
    for reader in readers {
        if is_touched(node, reader.facet, scope, touched) {
            first = doom_listed(cut, first, &reader.edges, Loss::Both);
        }
    }
    first
}

// What those edges tell of that are over the place goes.
fn doom_past(cut: &mut Cut, first: Option<Slot>, edges: &[Reach], place: u32) -> Option<Slot>
    ensures { GoesOver loss_code.Both (edges_past place edges.now) first cut.old result cut.new }
{
    let mut first = first;
    for reach in edges {
        if reach.is_over(place) {
            first = doom(cut, first, &reach.edge, Loss::Both);
        }
    }
    first
}

// What the edges tell of goes that are over the seat.
fn doom_on(cut: &mut Cut, first: Option<Slot>, runs: &[Run], seat: Seat) -> Option<Slot>
    ensures { GoesOver loss_code.Both (edges_on runs.now seat) first cut.old result cut.new }
{
    match runs.get(seat.run as usize) {
        Some(run) => doom_past(cut, first, run.edges.as_slice(), seat.place),
        None => first,
    }
}

// What reads a touched location in the scope of the node that sits there goes, where an edge over its seat tells of it.
fn begin_over<F: Fn(Loc) -> bool>(
    cut: &mut Cut,
    first: Option<Slot>,
    node: Node,
    readers: &AllReaders,
    scope: Scope,
    touched: &F,
) -> Option<Slot>
    requires { F.IsAlwaysCallable touched.now }
    ensures { GoesOn (Answers (F.post touched.now)) (sees scope node) (edges_over readers.now.seats.items readers.now.runs.items) first cut.old result cut.new }
{
    let seat = seat_of(readers.seats.as_slice(), node);
    if seat.place == 0 || seat.facet.is_index() {
        return first;
    }
    if is_touched(node, seat.facet, scope, touched) {
        return doom_on(cut, first, readers.runs.as_slice(), seat);
    }
    first
}

// So does what an edge of its own tells of.
fn begin_own<F: Fn(Loc) -> bool>(
    cut: &mut Cut,
    first: Option<Slot>,
    node: Node,
    readers: &[Facets],
    scope: Scope,
    touched: &F,
) -> Option<Slot>
    requires { F.IsAlwaysCallable touched.now }
    ensures { GoesOn (Answers (F.post touched.now)) (sees scope node) (edges_at readers.now) first cut.old result cut.new }
{
    match readers.get(node.index()) {
        Some(list) => begin_at(cut, first, node, list.as_slice(), scope, touched),
        None => first,
    }
}

/// What reads a touched location in the scope of the node goes: the first one that goes.
pub fn begin_node<F: Fn(Loc) -> bool>(
    cut: &mut Cut,
    first: Option<Slot>,
    readers: &AllReaders,
    node: Node,
    scope: Scope,
    touched: &F,
) -> Option<Slot>
    requires { F.IsAlwaysCallable touched.now }
    ensures { GoesOn (Answers (F.post touched.now)) (sees scope node) (edges_to readers.now) first cut.old result cut.new }
{
    let drawers = begin_drawers(cut, first, &readers.desks, node, scope, touched);
    let own = begin_own(cut, drawers, node, readers.own.as_slice(), scope, touched);
    begin_over(cut, own, node, readers, scope, touched)
}

/// Whether no node was ever looked at.
pub fn is_unread(readers: &AllReaders) -> bool
    ensures { IsTrue result → (l : Location ℕ) → edges_to readers.now l ≡ [] }
{
    if !readers.own.is_empty() {
        return false;
    }
    if !readers.seats.is_empty() {
        return false;
    }
    readers.desks.is_empty()
}
