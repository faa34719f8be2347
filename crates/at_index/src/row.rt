//! Edges that lie in a row.

ghost use Rattle.std.specs.Prelude.{◌≡◌, ◌+◌, ◌*◌, ◌++◌, ◌∷◌, ◌<◌, [], Contains, IfSome, IsTrue, MatchOption, length, nat_eq};
ghost use Rattle.at_index.specs.declared.edge.Edges.TheVariants as edges;
ghost use Rattle.at_index.specs.Prelude.{edges_in, edge_at, edges_from, edges_of, first_of};

use crate::edge::{Edge, Slot};

/// Edges of entries that came one after the other: the slot and the number of each are by the same step greater than those of the one
/// before. What reads a location mostly comes so, and a row takes 16 bytes, for up to 65,535 edges.
#[derive(Clone, Copy, Default, PartialEq, Eq)]
pub struct Row {
    /// The first one's slot.
    pub slot: Slot,
    pub step: u16,
    pub count: u16,
    /// The first one's number.
    pub stamp: u64,
}

// How far so many steps lead.
fn way(step: u16, places: u16) -> u64
    ensures { result ≡ places * step }
{
    u64::from(places) * u64::from(step)
}

// The same of so many steps as a row may not have.
fn way_to(step: u16, place: u32) -> u64
    ensures { result ≡ place * step }
{
    u64::from(place) * u64::from(step)
}

// Whether an edge lies so far behind the other one.
fn lies(first: Edge, edge: Edge, way: u64) -> bool
    ensures slot { IsTrue result → edge.slot ≡ first.slot + way }
    ensures stamp { IsTrue result → edge.stamp ≡ first.stamp + way }
{
    if edge.slot < first.slot || edge.stamp < first.stamp {
        return false;
    }
    u64::from(edge.slot - first.slot) == way && edge.stamp - first.stamp == way
}

impl Row {
    /// The edge alone.
    pub fn of(edge: Edge) -> Row
        ensures { edges_of result ≡ edge ∷ [] }
    {
        Row {
            slot: edge.slot,
            step: 0,
            count: 1,
            stamp: edge.stamp,
        }
    }

    /// A row of a few edges from that slot and number on.
    pub fn few(count: u8, step: u16, slot: Slot, stamp: u64) -> Row
        ensures { edges_of result ≡ edges_in (edges.Few count step slot stamp) }
    {
        Row {
            slot,
            step,
            count: u16::from(count),
            stamp,
        }
    }

    /// Whether it has none.
    pub fn is_empty(&self) -> bool
        ensures { result ≡ nat_eq (length (edges_of self.now)) 0 }
    {
        self.count == 0
    }

    /// Its first edge, and the row of the others.
    pub fn split_first(self) -> Option<(Edge, Row)>
        ensures { MatchOption result (edges_of self ≡ []) (λ r. edges_of self ≡ r.0 ∷ edges_of r.1) }
    {
        if self.count == 0 {
            return None;
        }
        let second = self.second();
        let rest = Row {
            slot: second.slot,
            step: self.step,
            count: self.count - 1,
            stamp: second.stamp,
        };
        Some((self.first(), rest))
    }

    /// Its edge, where it is just one.
    pub fn only(self) -> Option<Edge>
        ensures { IfSome result (λ edge. edges_of self ≡ edge ∷ []) }
    {
        if self.count == 1 {
            return Some(self.first());
        }
        None
    }

    // The edge with which it begins.
    fn first(&self) -> Edge
        ensures { result ≡ first_of self.now }
    {
        Edge {
            slot: self.slot,
            stamp: self.stamp,
        }
    }

    // The edge behind the first one.
    fn second(&self) -> Edge
        ensures { result ≡ edge_at (first_of self.now) self.now.step 1 }
    {
        Edge {
            slot: self.slot.wrapping_add(u32::from(self.step)),
            stamp: self.stamp.wrapping_add(u64::from(self.step)),
        }
    }

    /// The row with one more edge at its end, where that lies there and the row has room.
    pub fn extended(&self, edge: Edge) -> Option<Row>
        ensures { IfSome result (λ r. edges_of r ≡ edges_of self.now ++ edge ∷ []) }
    {
        let step = self.step_to(edge)?;
        let count = self.count.checked_add(1)?;
        if !lies(self.first(), edge, way(step, self.count)) {
            return None;
        }
        Some(Row {
            slot: self.slot,
            step,
            count,
            stamp: self.stamp,
        })
    }

    /// Whether the edge can't be one of a row that begins like this one: its slot is further from the first one's than its number, or less far.
    pub fn is_apart(&self, edge: Edge) -> bool {
        u64::from(edge.slot.wrapping_sub(self.slot)) != edge.stamp.wrapping_sub(self.stamp)
    }

    /// Whether its last edge is that one.
    pub fn ends_with(&self, edge: Edge) -> bool
        ensures { IsTrue result → Contains (edges_of self.now) edge }
    {
        match self.count.checked_sub(1) {
            Some(place) => lies(self.first(), edge, way(self.step, place)),
            None => false,
        }
    }

    /// Whether the edge is one of it.
    pub fn has(&self, edge: Edge) -> bool
        ensures { IsTrue result → Contains (edges_of self.now) edge }
    {
        let Some(distance) = edge.slot.checked_sub(self.slot) else {
            return false;
        };
        let place = distance / u32::from(self.step.max(1));
        if place >= u32::from(self.count) {
            return false;
        }
        lies(self.first(), edge, way_to(self.step, place))
    }

    // The step of the row with this edge at its end: a row of one edge takes any that leads on and isn't too far.
    fn step_to(&self, edge: Edge) -> Option<u16>
        ensures { IfSome result (λ step. edges_from (first_of self.now) step 0 self.now.count ≡ edges_of self.now) }
    {
        if self.count != 1 {
            return Some(self.step);
        }
        if edge.slot <= self.slot {
            return None;
        }
        let step = edge.slot - self.slot;
        if step > u32::from(u16::MAX) {
            return None;
        }
        Some(step as u16)
    }
}
