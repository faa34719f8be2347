//! What it costs to fold an entry: what is counted of each, for the choice of those that are (`choosing.rt`). No proof rests on it.
//!
//! An entry that is folded is evaluated anew whenever one of those is that used it, and else only where something is touched that it
//! rests on itself. So an entry costs what it *weighs*, with what is folded into it, as often as an edit reaches its users and not the
//! entry: the *gap* between how far they *reach* and how far it does.
//!
//! Entries are looked at by their places, from the oldest to the newest: what one used stands before it.

use at_cache::entry::Entry;
use at_index::desk::{AllDesks, Desks};
use at_index::edge::{Edge, Edges, Slot};
use at_index::facet::{Facets, Readers, small};
use at_index::row::Row;
use at_index::run::{Reach, Run};

/// Into how many entries one is folded at most: so many slots stand inline.
pub const MANY: usize = 4;

/// How many edges more come at most by folding one into several: what it looked at is told of for each of these.
pub const COPIES: u32 = 8;

// How far a location reaches: so much is divided among those that looked at it.
const REACH: u32 = 256;

// What an entry weighs beside what it looked at.
const OWN: u32 = 8;

// The greatest weight.
const HEAVIEST: u64 = 4294967295;

/// What stands for no entry.
pub const NOWHERE: u32 = 4294967295;

/// What is known of an entry; it is new where it came to be kept since the last edit.
#[derive(Clone, Copy)]
pub struct Item {
    pub stamp: u64,
    pub slot: Slot,
    /// By how many it is used, and the place of the last one of these that was counted.
    pub uses: u32,
    pub user: u32,
    /// How many edges of locations tell of it.
    pub reads: u32,
    /// What it weighs alone; until these are counted without them.
    pub own: u32,
    /// How far it reaches, and the part of that which is each one's that uses it.
    pub reach: u32,
    pub part: u32,
    /// How much further one of its users does; the greatest number where the entry stays by any limit.
    pub gap: u32,
    /// What it weighs for those that use it: nothing where it stays.
    pub weight: u32,
    /// Into what it is folded, as far as that is one.
    pub into: Slot,
    pub is_new: bool,
}

/// Of the entry nothing more is known yet.
pub fn fresh(entry: &Entry, is_new: bool) -> Item {
    Item {
        stamp: entry.stamp,
        slot: entry.slot,
        uses: 0,
        user: NOWHERE,
        reads: 0,
        own: OWN,
        reach: 0,
        part: 0,
        gap: 0,
        weight: 0,
        into: NOWHERE,
        is_new,
    }
}

/// The one at that place uses the entry at the place, too; whether that wasn't counted before.
pub fn count_use(items: &mut [Item], place: u32, user: u32) -> bool {
    match items.get_mut(place as usize) {
        Some(item) => {
            if item.user == user {
                return false;
            }
            item.user = user;
            item.uses = item.uses.wrapping_add(1);
            true
        }
        None => false,
    }
}

// One more edge tells of the entry at the place, if it has that number: so much of its location is the entry's.
fn count_read(items: &mut [Item], place: u32, stamp: u64, part: u32) {
    if let Some(item) = items.get_mut(place as usize) {
        if item.stamp == stamp {
            item.reads = item.reads.wrapping_add(1);
            item.reach = item.reach.wrapping_add(part);
        }
    }
}

// The same of an edge of so many locations.
fn count_over(items: &mut [Item], place: u32, stamp: u64, locations: u32, part: u32) {
    count_read(items, place, stamp, part.saturating_mul(locations));
    if let Some(item) = items.get_mut(place as usize) {
        if item.stamp == stamp {
            item.own = item.own.saturating_add(locations.saturating_sub(1));
        }
    }
}

// Whether the entry stays by any limit: nothing uses it and it is new, or it would be copied into too many.
fn is_end(item: &Item) -> bool {
    if item.uses == 0 {
        return item.is_new;
    }
    item.uses as usize > MANY || item.reads.saturating_mul(item.uses.saturating_sub(1)) > COPIES
}

// What part of a location is each one's of so many that looked at it; nothing where these are too many.
fn part_among(count: usize) -> u32 {
    match small(count) {
        Ok(count) => REACH / count.max(1),
        Err(_) => 0,
    }
}

// How many edges these rows have.
fn count_along(rows: &[Row]) -> u32 {
    let mut count: u32 = 0;
    for row in rows {
        count = count.wrapping_add(u32::from(row.count));
    }
    count
}

/// The place of the entry in the slot.
pub fn place_of(places: &[u32], slot: Slot) -> u32 {
    match places.get(slot as usize) {
        Some(place) => *place,
        None => NOWHERE,
    }
}

fn count_edge(places: &[u32], items: &mut [Item], edge: Edge, part: u32) {
    let place = place_of(places, edge.slot);
    count_read(items, place, edge.stamp, part);
}

fn count_row(places: &[u32], items: &mut [Item], row: &Row, part: u32) {
    let mut rest = *row;
    while let Some((edge, others)) = rest.split_first() {
        count_edge(places, items, edge, part);
        rest = others;
    }
}

// The same of rows that have their locations together.
#[inline(never)]
fn count_rows(places: &[u32], items: &mut [Item], rows: &[Row]) {
    let part = REACH / count_along(rows).max(1);
    for row in rows {
        count_row(places, items, row, part);
    }
}

// The same of a row that has its locations to itself: mostly it is one edge.
#[inline(always)]
fn count_alone(places: &[u32], items: &mut [Item], row: Row) {
    if row.count == 1 {
        let edge = Edge {
            slot: row.slot,
            stamp: row.stamp,
        };
        count_edge(places, items, edge, REACH);
        return;
    }
    count_row(places, items, &row, REACH / u32::from(row.count.max(1)));
}

fn count_edges(places: &[u32], items: &mut [Item], edges: &Edges) {
    match edges {
        Edges::Empty => {}
        Edges::Few(count, step, slot, stamp) => {
            count_alone(places, items, Row::few(*count, *step, *slot, *stamp));
        }
        Edges::More(rows) => count_rows(places, items, rows.as_slice()),
    }
}

fn count_node(places: &[u32], items: &mut [Item], readers: &[Readers]) {
    for reader in readers {
        count_edges(places, items, &reader.edges);
    }
}

/// How many edges of locations tell of each, and what part of these locations is its.
#[inline(never)]
pub fn count_nodes(places: &[u32], items: &mut [Item], readers: &[Facets]) {
    for facets in readers {
        count_node(places, items, facets.as_slice());
    }
}

fn count_drawers(places: &[u32], items: &mut [Item], desks: &Desks) {
    for place in 0..desks.len() {
        if let Some((_, edges)) = desks.spots.get_index(place) {
            count_edges(places, items, edges);
        }
    }
}

/// The same of edges of drawers, each of which is one location.
pub fn count_desks(places: &[u32], items: &mut [Item], all: &AllDesks) {
    for place in 0..all.len() {
        if let Some((_, desks)) = all.get_index(place) {
            count_drawers(places, items, desks);
        }
    }
}

fn count_reaches(places: &[u32], items: &mut [Item], edges: &[Reach]) {
    let part = part_among(edges.len());
    for reach in edges {
        let locations = reach.last.saturating_sub(reach.behind);
        let place = place_of(places, reach.edge.slot);
        count_over(items, place, reach.edge.stamp, locations, part);
    }
}

/// The same of edges of runs, each of which is one, however many locations it tells of.
pub fn count_runs(places: &[u32], items: &mut [Item], runs: &[Run]) {
    for run in runs {
        count_reaches(places, items, run.edges.as_slice());
    }
}

// The entry at the place reaches so much further than what it looked at. So it is known what of that is each user's, and what it weighs
// alone.
fn set_reach(items: &mut [Item], place: usize, further: u32) {
    if let Some(item) = items.get_mut(place) {
        item.reach = item.reach.saturating_add(further);
        item.part = item.reach / item.uses.max(1);
        item.own = item.own.saturating_add(item.reads);
        if is_end(item) {
            item.gap = u32::MAX;
        }
    }
}

/// How far each reaches, from the oldest to the newest: as far as what it looked at, and its part of what it used.
#[inline(never)]
pub fn reach_all(items: &mut [Item], used: &[u32]) {
    let mut further: u32 = 0;
    let mut place: usize = 0;
    for number in used {
        match items.get(*number as usize) {
            Some(item) => further = further.saturating_add(item.part),
            None => {
                set_reach(items, place, further);
                place = place.wrapping_add(1);
                further = 0;
            }
        }
    }
}

// How far the entry at the place reaches.
fn reach_at(items: &[Item], place: usize) -> u32 {
    match items.get(place) {
        Some(item) => item.reach,
        None => 0,
    }
}

/// The gap of each, from the newest to the oldest.
#[inline(never)]
pub fn widen_all(items: &mut [Item], used: &[u32]) {
    let mut reach: u32 = 0;
    let mut place = items.len();
    for back in 0..used.len() {
        if let Some(number) = used.get(used.len() - back - 1) {
            match items.get_mut(*number as usize) {
                Some(item) => item.gap = item.gap.max(reach.saturating_sub(item.reach)),
                None => {
                    place = place.wrapping_sub(1);
                    reach = reach_at(items, place);
                }
            }
        }
    }
}

// What the entry at the place weighs with all that is folded into it, which weighs so much; whether it stays by the limit.
fn does_cut_at(items: &mut [Item], place: usize, folded: u64, limit: u32) -> bool {
    let Some(item) = items.get_mut(place) else {
        return false;
    };
    let weight = folded.wrapping_add(u64::from(item.own)).min(HEAVIEST);
    let stays = weight.wrapping_mul(u64::from(item.gap)) > u64::from(limit);
    item.weight = if stays { 0 } else { weight as u32 };
    stays
}

/// How many stay by the limit, from the oldest to the newest.
#[inline(never)]
pub fn cut_all(items: &mut [Item], used: &[u32], limit: u32) -> usize {
    let mut count: usize = 0;
    let mut folded: u64 = 0;
    let mut place: usize = 0;
    for number in used {
        match items.get(*number as usize) {
            Some(item) => folded = folded.wrapping_add(u64::from(item.weight)),
            None => {
                let stays = does_cut_at(items, place, folded, limit);
                count = count.wrapping_add(stays as usize);
                place = place.wrapping_add(1);
                folded = 0;
            }
        }
    }
    count
}
