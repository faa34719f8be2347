//! One edge more of what an entry rests on. Of which entries edges tell is asked of who knows it; any other edge tells of nothing, and a list
//! that gains one loses some of those.

ghost use Rattle.std.specs.Prelude.{◌≡◌, ◌<◌, ◌≤◌, ◌^◌, ◌∷◌, ◌++◌, [], ℕ, Option, None, Some, Contains, IfOk, IfSome, IsTrue, MatchBool, OnErr, OnOk, length, map, slice_get, slice_set, true, false, Bool};
ghost use Rattle.at_index.specs.Prelude.{Location, loc_view, Edge, Edges, AreNoted, edges_in, edges_along, edges_of, AreListed, Keeps, Lists, Reads, HasAdded, HasChanged, ListsAt, with_edges, edges_among, edges_at, stands_for, ListsBut, Stays};
ghost use Rattle.at_index.specs.declared.facet.Readers.{Readers};
ghost use Rattle.at_index.specs.Finding.{edges_to, own_edges};

use crate::desk::{AllDesks, Spot};
use crate::edge::{Edge, Edges, Many};
use crate::facet::{Facet, Facets, Readers};
use crate::facets::first_facet;
use crate::noting::note;
use crate::row::Row;
use crate::run::AllReaders;
use crate::stretch::{MANY, before_fold};
use crate::tells::{Adding, Tells};
use at_store::{Loc, Node};
use std::alloc::{AllocError, Global};

// So often what is left of a fold is looked for in a run.
const PARTS: usize = 3;

// In a list of more rows an edge isn't looked for.
const FEW: usize = 8;

// The row without the edges at its front that tell of nothing.
fn trimmed<T: Tells>(teller: &T, row: Row) -> Row
    ensures { Keeps (T.tells teller.now) (edges_of row) (edges_of result) }
{
    let mut row = row;
    while let Some((edge, rest)) = row.split_first() {
        if teller.tells_of(&edge) {
            return row;
        }
        row = rest;
    }
    row
}

// The row comes to that place.
fn set_row(rows: &mut Many, place: usize, row: Row)
    requires { place < length rows.old.items }
    ensures { rows.new.items ≡ slice_set rows.old.items place row }
{
    if let Some(at) = rows.get_mut(place) {
        *at = row;
    }
}

// Only rows stay that begin with an edge that tells of something.
fn purge<T: Tells>(teller: &T, rows: &mut Many)
    ensures { Keeps (T.tells teller.now) (edges_along rows.old.items) (edges_along rows.new.items) }
{
    let mut place = 0;
    while place < rows.len() {
        let row = trimmed(teller, rows.as_slice()[place]);
        if row.is_empty() {
            rows.swap_remove(place);
        } else {
            set_row(rows, place, row);
            place += 1;
        }
    }
}

// Where among these the edge is, alone in a row, that the entry had before it is put anew.
fn outdated_at<T: Tells>(teller: &T, rows: &[Row], edge: Edge) -> Option<usize>
    ensures { IfSome result (λ k. (r : Row) × (slice_get rows.now k ≡ Some r) × Keeps (T.tells teller.now) (edges_of r) []) }
{
    for place in 0..rows.len() {
        if is_outdated(teller, rows[place], edge) {
            return Some(place);
        }
    }
    None
}

// The edge comes in place of that one, where it is found in a list of few rows.
fn replaces_outdated<T: Tells>(teller: &T, rows: &mut Many, edge: Edge) -> bool
    ensures { MatchBool result (Lists (T.tells teller.now) edge (edges_along rows.old.items) (edges_along rows.new.items)
        × Contains (edges_along rows.new.items) edge) (rows.new.items ≡ rows.old.items) }
{
    if rows.len() > FEW {
        return false;
    }
    match outdated_at(teller, rows.as_slice(), edge) {
        Some(place) => {
            set_row(rows, place, Row::of(edge));
            true
        }
        None => false,
    }
}

// Makes room for one more row of a list that is full: it loses those that tell of nothing first, and gets more room only where half
// of it or less is left then.
fn make_room<T: Tells>(teller: &T, rows: &mut Many) -> Result<(), AllocError>
    ensures { Keeps (T.tells teller.now) (edges_along rows.old.items) (edges_along rows.new.items) }
{
    purge(teller, rows);
    let count = rows.len();
    if count >= rows.capacity() / 2 {
        rows.reserve(count)?;
    }
    Ok(())
}

// One more row of a list that is full, once there is room for it.
fn add_with_room<T: Tells>(teller: &T, rows: &mut Many, edge: Edge) -> Result<(), AllocError>
    ensures lists { Lists (T.tells teller.now) edge (edges_along rows.old.items) (edges_along rows.new.items) }
    ensures has { OnOk result (Contains (edges_along rows.new.items) edge) }
{
    make_room(teller, rows)?;
    rows.push(Row::of(edge))?;
    Ok(())
}

// One more edge of a list that is full.
#[inline(never)]
fn add_to_full<T: Tells>(teller: &T, rows: &mut Many, edge: Edge) -> Result<(), AllocError>
    ensures lists { Lists (T.tells teller.now) edge (edges_along rows.old.items) (edges_along rows.new.items) }
    ensures has { OnOk result (Contains (edges_along rows.new.items) edge) }
{
    if replaces_outdated(teller, rows, edge) {
        return Ok(());
    }
    add_with_room(teller, rows, edge)
}

// One more row of a list in a block.
fn add_row<T: Tells>(teller: &T, rows: &mut Many, edge: Edge) -> Result<(), AllocError>
    ensures lists { Lists (T.tells teller.now) edge (edges_along rows.old.items) (edges_along rows.new.items) }
    ensures has { OnOk result (Contains (edges_along rows.new.items) edge) }
{
    if rows.len() < rows.capacity() {
        rows.push_reserved(Row::of(edge));
        return Ok(());
    }
    add_to_full(teller, rows, edge)
}

// Whether the edge lies behind the last row, which has it then.
fn extends_last(rows: &mut Many, edge: Edge) -> bool
    ensures { MatchBool result (edges_along rows.new.items ≡ edges_along rows.old.items ++ edge ∷ []) (rows.new.items ≡ rows.old.items) }
{
    let Some(place) = rows.len().checked_sub(1) else {
        return false;
    };
    match rows.as_slice()[place].extended(edge) {
        Some(row) => {
            set_row(rows, place, row);
            true
        }
        None => false,
    }
}

// Whether the last edge of these rows is that one.
fn do_end_with(rows: &[Row], edge: Edge) -> bool
    ensures { IsTrue result → Contains (edges_along rows.now) edge }
{
    match rows.last() {
        Some(row) => row.ends_with(edge),
        None => false,
    }
}

// Whether the edge neither lies behind the last of these rows nor is its last one, as is seen at once.
fn is_apart(rows: &[Row], edge: Edge) -> bool {
    match rows.last() {
        Some(row) => row.is_apart(edge),
        None => true,
    }
}

/// One more edge of a list in a block: its last row has it, or another one.
#[inline(always)]
pub fn add_to_many<T: Tells>(teller: &T, rows: &mut Many, edge: Edge) -> Result<(), AllocError>
    ensures lists { Lists (T.tells teller.now) edge (edges_along rows.old.items) (edges_along rows.new.items) }
    ensures has { OnOk result (Contains (edges_along rows.new.items) edge) }
{
    if is_apart(rows.as_slice(), edge) {
        return add_row(teller, rows, edge);
    }
    if extends_last(rows, edge) {
        return Ok(());
    }
    if do_end_with(rows.as_slice(), edge) {
        return Ok(());
    }
    add_row(teller, rows, edge)
}

/// One more edge of a list in a block that loses none.
pub fn push_edge(rows: &mut Many, edge: Edge) -> Result<(), AllocError>
    ensures lists { (tells : Edge → Bool) → Lists tells edge (edges_along rows.old.items) (edges_along rows.new.items) }
    ensures has { OnOk result (Contains (edges_along rows.new.items) edge) }
{
    if extends_last(rows, edge) {
        return Ok(());
    }
    if do_end_with(rows.as_slice(), edge) {
        return Ok(());
    }
    rows.push(Row::of(edge))?;
    Ok(())
}

// A row and one more edge, which lies behind it or in another one.
fn two(alloc: Global, row: Row, edge: Edge) -> Result<Many, AllocError>
    ensures { IfOk result (λ rows. edges_along rows.items ≡ edges_of row ++ edge ∷ []) }
{
    let mut rows = Many::new(alloc);
    rows.push(row)?;
    if !extends_last(&mut rows, edge) {
        rows.push(Row::of(edge))?;
    }
    Ok(rows)
}

// The edges of a row and one more.
fn both(alloc: Global, row: Row, edge: Edge) -> Result<Edges, AllocError>
    ensures { IfOk result (λ edges. edges_in edges ≡ edges_of row ++ edge ∷ []) }
{
    if row.is_empty() {
        return Ok(Edges::of(edge));
    }
    let rows = two(alloc, row, edge)?;
    Ok(Edges::More(Box::new(alloc, rows)?))
}

// The same in sixteen bytes, where it lies behind the row.
fn in_place(row: Row, edge: Edge) -> Option<Edges>
    ensures { IfSome result (λ edges. edges_in edges ≡ edges_of row ++ edge ∷ []) }
{
    Edges::of_row(row.extended(edge)?)
}

// Whether the row is the one edge that an entry had before it is put anew, which tells of nothing.
fn is_outdated<T: Tells>(teller: &T, row: Row, edge: Edge) -> bool
    ensures { IsTrue result → Keeps (T.tells teller.now) (edges_of row) [] }
{
    let Some(only) = row.only() else {
        return false;
    };
    if only.slot != edge.slot {
        return false;
    }
    if teller.tells_of(&only) {
        return false;
    }
    true
}

/// Whether the edges are the one that an entry had before it is put anew, which tells of nothing.
pub fn are_outdated<T: Tells>(teller: &T, edges: &Edges, edge: Edge) -> bool
    ensures { IsTrue result → Keeps (T.tells teller.now) (edges_in edges.now) [] }
{
    match edges.row() {
        Some(row) => is_outdated(teller, row, edge),
        None => false,
    }
}

// One more edge of a list that is a row. That stays where the edge is its last one, and loses those at its front that tell of nothing,
// where it would take a block else.
#[inline(never)]
fn add_to_few<T: Tells>(
    alloc: Global,
    teller: &T,
    edges: &mut Edges,
    row: Row,
    edge: Edge,
) -> Result<(), AllocError>
    requires row { edges_in edges.old ≡ edges_of row }
    ensures lists { Lists (T.tells teller.now) edge (edges_in edges.old) (edges_in edges.new) }
    ensures has { OnOk result (Contains (edges_in edges.new) edge) }
{
    if let Some(longer) = in_place(row, edge) {
        *edges = longer;
        return Ok(());
    }
    if !row.ends_with(edge) {
        *edges = both(alloc, trimmed(teller, row), edge)?;
    }
    Ok(())
}

// The same, where the row may be the edge that the entry had before.
fn add_to_row<T: Tells>(
    alloc: Global,
    teller: &T,
    edges: &mut Edges,
    row: Row,
    edge: Edge,
) -> Result<(), AllocError>
    requires row { edges_in edges.old ≡ edges_of row }
    ensures lists { Lists (T.tells teller.now) edge (edges_in edges.old) (edges_in edges.new) }
    ensures has { OnOk result (Contains (edges_in edges.new) edge) }
{
    if is_outdated(teller, row, edge) {
        *edges = Edges::of(edge);
        return Ok(());
    }
    add_to_few(alloc, teller, edges, row, edge)
}

/// One more edge of a list.
#[inline(always)]
pub fn add_edge<T: Tells>(
    alloc: Global,
    teller: &T,
    edges: &mut Edges,
    edge: Edge,
) -> Result<(), AllocError>
    ensures lists { Lists (T.tells teller.now) edge (edges_in edges.old) (edges_in edges.new) }
    ensures has { OnOk result (Contains (edges_in edges.new) edge) }
{
    match edges {
        Edges::Empty => {
            *edges = Edges::of(edge);
            Ok(())
        }
        Edges::Few(count, step, slot, stamp) => {
            let row = Row::few(*count, *step, *slot, *stamp);
            add_to_row(alloc, teller, edges, row, edge)
        }
        Edges::More(rows) => add_to_many(teller, rows, edge),
    }
}

// Where the facet stands among those of a node, if it does.
fn position_of(readers: &[Readers], facet: Facet) -> Option<usize>
    ensures { IfSome result (λ k. (r : Readers) × (slice_get readers.now k ≡ Some r) × (r.facet ≡ facet)) }
{
    for index in 0..readers.len() {
        if readers[index].facet == facet {
            return Some(index);
        }
    }
    None
}

// The first edge of a facet, which comes behind those of a node.
fn add_facet(readers: &mut Facets, facet: Facet, edge: Edge) -> Result<(), AllocError>
    ensures added { OnOk result (HasAdded facet edge readers.old.items readers.new.items) }
    ensures err { OnErr result (readers.new.items ≡ readers.old.items) }
{
    readers.push(Readers {
        facet,
        edges: Edges::of(edge),
    })?;
    Ok(())
}

// A list for the node, where there is none yet.
fn make_list(alloc: Global, readers: &mut Vec<Facets>, node: Node) -> Result<(), AllocError>
    ensures same { (l : Location ℕ) → edges_at readers.new.items l ≡ edges_at readers.old.items l }
    ensures there { OnOk result (node < length readers.new.items) }
    ensures short { length readers.old.items ≤ 2 ^ 32 → length readers.new.items ≤ 2 ^ 32 }
{
    let number = node.number() as usize;
    while readers.len() <= number {
        readers.push(Facets::new(alloc))?;
    }
    Ok(())
}

// How many locations at the front have one facet; one, where the first has none.
fn first_width(locations: &[Loc]) -> Result<usize, AllocError>
    ensures { IfOk result (λ width. width ≤ length locations.now) }
{
    let Some((location, others)) = locations.split_first() else {
        return Ok(0);
    };
    let Ok((_, left)) = first_facet(*location, others) else {
        return Ok(1);
    };
    Ok(locations.len() - left.len())
}

impl<'a, T: Tells> Adding<'a, T> {
    // One more edge of what stands at that place.
    fn add_at(&self, readers: &mut Facets, place: usize) -> Result<(), AllocError>
        requires there { place < length readers.old.items }
        ensures gains { (edges : Edges) × HasChanged (with_edges edges) place readers.old.items readers.new.items
            × ListsAt (T.tells self.now.teller.now) self.now.edge place readers.old.items (edges_in edges)
            × OnOk result (Contains (edges_in edges) self.now.edge) }
    {
        let found = &mut readers.as_mut_slice()[place];
        add_edge(self.alloc, self.teller, &mut found.edges, self.edge)
    }

    // One more edge of a facet, among those of a node.
    fn add_among(&self, readers: &mut Facets, facet: Facet) -> Result<(), AllocError>
        ensures lists { (n : ℕ) (l : Location ℕ)
            → Lists (T.tells self.now.teller.now) self.now.edge (edges_among n readers.old.items l) (edges_among n readers.new.items l) }
        ensures has { (n : ℕ) → OnOk result ((l : Location ℕ) → stands_for n facet l ≡ true → Contains (edges_among n readers.new.items l) self.now.edge) }
        ensures others { (n : ℕ) (l : Location ℕ) → stands_for n facet l ≡ false → edges_among n readers.new.items l ≡ edges_among n readers.old.items l }
    {
        match position_of(readers.as_slice(), facet) {
            Some(place) => self.add_at(readers, place),
            None => add_facet(readers, facet, self.edge),
        }
    }

    // One more edge of a facet of the node.
    fn add_reader(
        &self,
        readers: &mut Vec<Facets>,
        node: Node,
        facet: Facet,
    ) -> Result<(), AllocError>
        ensures lists { (l : Location ℕ) → Lists (T.tells self.now.teller.now) self.now.edge (edges_at readers.old.items l) (edges_at readers.new.items l) }
        ensures has { OnOk result ((l : Location ℕ) → stands_for node facet l ≡ true → Contains (edges_at readers.new.items l) self.now.edge) }
        ensures others { (l : Location ℕ) → stands_for node facet l ≡ false → edges_at readers.new.items l ≡ edges_at readers.old.items l }
        ensures short { length readers.old.items ≤ 2 ^ 32 → length readers.new.items ≤ 2 ^ 32 }
    {
        make_list(self.alloc, readers, node)?;
        let list = &mut readers[node.index()];
        self.add_among(list, facet)
    }

    // One more edge of the location, which is no drawer, and of those of its node behind it that have one facet with it; what is left of the
    // others. The node is noted if its index is among them.
    #[inline(always)]
    fn add_near<'b>(
        &self,
        readers: &mut Vec<Facets>,
        index_read: &mut Vec<Node>,
        location: Loc,
        others: &'b [Loc],
    ) -> Result<&'b [Loc], AllocError>
        ensures reads { Reads (T.tells self.now.teller.now) self.now.edge (loc_view location ∷ map loc_view others.now)
            (edges_at readers.old.items) (edges_at readers.new.items) }
        ensures stay { OnOk result (Stays self.now.edge (edges_at readers.old.items) (edges_at readers.new.items)) }
        ensures listed { IfOk result (λ left. ListsBut self.now.edge (loc_view location ∷ map loc_view others.now) (map loc_view left.now)
            (edges_at readers.new.items)) }
        ensures noted { AreNoted (edges_at readers.old.items) index_read.old.items → AreNoted (edges_at readers.new.items) index_read.new.items }
        ensures short { length readers.old.items ≤ 2 ^ 32 → length readers.new.items ≤ 2 ^ 32 }
        ensures fewer { IfOk result (λ left. length (map loc_view left.now) < length (loc_view location ∷ map loc_view others.now)) }
    {
        note(readers.as_slice(), index_read, location)?;
        let (facet, left) = first_facet(location, others)?;
        self.add_reader(readers, location.node(), facet)?;
        Ok(left)
    }

    // One more edge of the location, or of that and others of its node behind it; what is left of these.
    #[inline(always)]
    fn add_first<'b>(
        &self,
        desks: &mut AllDesks,
        readers: &mut Vec<Facets>,
        index_read: &mut Vec<Node>,
        location: Loc,
        others: &'b [Loc],
    ) -> Result<&'b [Loc], AllocError>
        ensures reads { Reads (T.tells self.now.teller.now) self.now.edge (loc_view location ∷ map loc_view others.now)
            (own_edges desks.old.entries readers.old.items) (own_edges desks.new.entries readers.new.items) }
        ensures stay { OnOk result (Stays self.now.edge (own_edges desks.old.entries readers.old.items) (own_edges desks.new.entries readers.new.items)) }
        ensures listed { IfOk result (λ left. ListsBut self.now.edge (loc_view location ∷ map loc_view others.now) (map loc_view left.now)
            (own_edges desks.new.entries readers.new.items)) }
        ensures noted { AreNoted (edges_at readers.old.items) index_read.old.items → AreNoted (edges_at readers.new.items) index_read.new.items }
        ensures short { length readers.old.items ≤ 2 ^ 32 → length readers.new.items ≤ 2 ^ 32 }
        ensures fewer { IfOk result (λ left. length (map loc_view left.now) < length (loc_view location ∷ map loc_view others.now)) }
    {
        match location {
            Loc::Drawer {
                node,
                part,
                first,
                token,
                classes,
                mark,
            } => {
                let spot = Spot {
                    part,
                    first,
                    token,
                    classes,
                    mark,
                };
                self.add_drawer(desks, node, spot)?;
                Ok(others)
            }
            _ => self.add_near(readers, index_read, location, others),
        }
    }

    // One more edge of each of these locations, of its own. The nodes whose index is among them are noted.
    fn add_each(
        &self,
        desks: &mut AllDesks,
        readers: &mut Vec<Facets>,
        index_read: &mut Vec<Node>,
        locations: &[Loc],
    ) -> Result<(), AllocError>
        ensures reads { Reads (T.tells self.now.teller.now) self.now.edge (map loc_view locations.now)
            (own_edges desks.old.entries readers.old.items) (own_edges desks.new.entries readers.new.items) }
        ensures stay { OnOk result (Stays self.now.edge (own_edges desks.old.entries readers.old.items) (own_edges desks.new.entries readers.new.items)) }
        ensures listed { OnOk result (AreListed self.now.edge (map loc_view locations.now) (own_edges desks.new.entries readers.new.items)) }
        ensures noted { AreNoted (edges_at readers.old.items) index_read.old.items → AreNoted (edges_at readers.new.items) index_read.new.items }
        ensures short { length readers.old.items ≤ 2 ^ 32 → length readers.new.items ≤ 2 ^ 32 }
    {
        let mut rest = locations;
        while let Some((location, others)) = rest.split_first() {
            rest = self.add_first(desks, readers, index_read, *location, others)?;
        }
        Ok(())
    }

    // The same among all readers.
    fn add_own(
        &self,
        readers: &mut AllReaders,
        index_read: &mut Vec<Node>,
        locations: &[Loc],
    ) -> Result<(), AllocError>
        ensures reads { Reads (T.tells self.now.teller.now) self.now.edge (map loc_view locations.now) (edges_to readers.old) (edges_to readers.new) }
        ensures stay { OnOk result (Stays self.now.edge (edges_to readers.old) (edges_to readers.new)) }
        ensures listed { OnOk result (AreListed self.now.edge (map loc_view locations.now) (edges_to readers.new)) }
        ensures noted { AreNoted (edges_to readers.old) index_read.old.items → AreNoted (edges_to readers.new) index_read.new.items }
    {
        self.add_each(&mut readers.desks, &mut readers.own, index_read, locations)
    }

    // One more edge for the first facet of these locations, and one for those behind it that sit in a run; what is left of them.
    fn add_further<'b>(
        &self,
        readers: &mut AllReaders,
        index_read: &mut Vec<Node>,
        locations: &'b [Loc],
    ) -> Result<&'b [Loc], AllocError>
        ensures reads { Reads (T.tells self.now.teller.now) self.now.edge (map loc_view locations.now) (edges_to readers.old) (edges_to readers.new) }
        ensures stay { OnOk result (Stays self.now.edge (edges_to readers.old) (edges_to readers.new)) }
        ensures listed { IfOk result (λ left. ListsBut self.now.edge (map loc_view locations.now) (map loc_view left.now) (edges_to readers.new)) }
        ensures noted { AreNoted (edges_to readers.old) index_read.old.items → AreNoted (edges_to readers.new) index_read.new.items }
    {
        let width = first_width(locations)?;
        let (front, others) = locations.split_at(width);
        self.add_own(readers, index_read, front)?;
        self.add_along(&mut readers.seats, &mut readers.runs, others)
    }

    // The same, where those of a fold have one edge for each part of a run in which they lie.
    fn add_fold(
        &self,
        readers: &mut AllReaders,
        index_read: &mut Vec<Node>,
        locations: &[Loc],
    ) -> Result<(), AllocError>
        ensures reads { Reads (T.tells self.now.teller.now) self.now.edge (map loc_view locations.now) (edges_to readers.old) (edges_to readers.new) }
        ensures listed { OnOk result (AreListed self.now.edge (map loc_view locations.now) (edges_to readers.new)) }
        ensures noted { AreNoted (edges_to readers.old) index_read.old.items → AreNoted (edges_to readers.new) index_read.new.items }
    {
        let place = before_fold(readers.seats.as_slice(), locations);
        let (front, others) = locations.split_at(place);
        self.add_own(readers, index_read, front)?;
        let mut rest = self.add_stretch(&mut readers.seats, &mut readers.runs, others)?;
        for _ in 0..PARTS {
            if rest.is_empty() {
                return Ok(());
            }
            rest = self.add_further(readers, index_read, rest)?;
        }
        self.add_own(readers, index_read, rest)
    }
}

/// One more edge of each of these locations, or one for several. The nodes whose index is among them are noted.
pub fn add_readers<T: Tells>(
    alloc: Global,
    teller: &T,
    readers: &mut AllReaders,
    index_read: &mut Vec<Node>,
    locations: &[Loc],
    edge: Edge,
) -> Result<(), AllocError>
    ensures reads { Reads (T.tells teller.now) edge (map loc_view locations.now) (edges_to readers.old) (edges_to readers.new) }
    ensures listed { OnOk result (AreListed edge (map loc_view locations.now) (edges_to readers.new)) }
    ensures noted { AreNoted (edges_to readers.old) index_read.old.items → AreNoted (edges_to readers.new) index_read.new.items }
{
    let adding = Adding {
        alloc,
        teller,
        edge,
    };
    if locations.len() < MANY {
        return adding.add_own(readers, index_read, locations);
    }
    adding.add_fold(readers, index_read, locations)
}
