//! What is derived of conditions, and the components of graphs. What is expected was found by hand.

use at_solve::{Condition, components_of, derived};
use std::alloc::Global;
use std::process::Abort;

/// The condition with what is derived and what isn't exchanged.
fn turned(condition: Condition) -> Condition {
    match condition {
        Condition::Always => Condition::Never,
        Condition::Never => Condition::Always,
        Condition::When(of) => Condition::When(of),
        Condition::Both(one, other) => Condition::Either(one, other),
        Condition::Either(one, other) => Condition::Both(one, other),
    }
}

/// The greatest fixpoint of the conditions: what doesn't leave `true`.
fn greatest(rt: &impl Abort, alloc: Global, system: &[Condition]) -> Vec<bool> {
    let mut conditions = Vec::new(alloc);
    for condition in system {
        conditions
            .push(turned(*condition))
            .ok()
            .expect(rt, "memory");
    }
    let left = derived(alloc, &conditions).expect(rt, "memory");
    let mut stays = Vec::new(alloc);
    for has_left in &left {
        stays.push(!*has_left).expect(rt, "memory");
    }
    stays
}

/// What is derived of conditions, and their greatest fixpoint, where it is told.
struct System {
    conditions: &'static [Condition],
    least: &'static [bool],
    greatest: Option<&'static [bool]>,
}

/// Each waits for the next, and the last one for nothing.
const CHAIN: &[Condition] = &[Condition::When(1), Condition::When(2), Condition::Always];

/// The same, but that the last one never is.
const BROKEN_CHAIN: &[Condition] = &[Condition::When(1), Condition::When(2), Condition::Never];

/// Each waits for the next, and the last one for the first.
const RING: &[Condition] = &[Condition::When(1), Condition::When(2), Condition::When(0)];

/// A ring that is entered at its second place.
const ENTERED_RING: &[Condition] = &[
    Condition::When(1),
    Condition::Either(2, 3),
    Condition::When(0),
    Condition::Always,
];

/// Two rings, of two each; the first wants itself or the second, which wants itself or what always is.
const LED_RINGS: &[Condition] = &[
    Condition::Either(1, 2),
    Condition::When(0),
    Condition::Either(3, 4),
    Condition::When(2),
    Condition::Always,
];

/// The same, but that the first wants itself and the second.
const HELD_RINGS: &[Condition] = &[
    Condition::Both(1, 2),
    Condition::When(0),
    Condition::Either(3, 4),
    Condition::When(2),
    Condition::Always,
];

/// Each waits for itself: alone, or what always is, and what always is; and one for what there isn't.
const LOOPS: &[Condition] = &[
    Condition::When(0),
    Condition::Either(1, 4),
    Condition::Both(2, 4),
    Condition::When(9),
    Condition::Always,
];

const SYSTEMS: &[System] = &[
    System {
        conditions: CHAIN,
        least: &[true, true, true],
        greatest: None,
    },
    System {
        conditions: BROKEN_CHAIN,
        least: &[false, false, false],
        greatest: Some(&[false, false, false]),
    },
    System {
        conditions: RING,
        least: &[false, false, false],
        greatest: Some(&[true, true, true]),
    },
    System {
        conditions: ENTERED_RING,
        least: &[true, true, true, true],
        greatest: None,
    },
    System {
        conditions: LED_RINGS,
        least: &[true, true, true, true, true],
        greatest: None,
    },
    System {
        conditions: HELD_RINGS,
        least: &[false, false, true, true, true],
        greatest: Some(&[true, true, true, true, true]),
    },
    System {
        conditions: LOOPS,
        least: &[false, true, false, false, true],
        greatest: Some(&[true, true, true, true, true]),
    },
];

#[test]
fn what_is_derived_and_what_stays_are_the_fixpoints(rt: HostRuntime) {
    for system in SYSTEMS {
        let least = derived(rt.alloc(), system.conditions).expect(&rt, "memory");
        assert!(rt; least.as_slice() == system.least);
        if let Some(wanted) = system.greatest {
            let greatest = greatest(&rt, rt.alloc(), system.conditions);
            assert!(rt; greatest.as_slice() == wanted);
        }
    }
}

/// The nodes to which each node of a graph leads, and the components in the order in which they are listed.
struct Graph {
    edges: &'static [&'static [usize]],
    components: &'static [&'static [usize]],
}

const GRAPHS: &[Graph] = &[
    Graph {
        edges: &[&[1], &[2], &[]],
        components: &[&[2], &[1], &[0]],
    },
    Graph {
        edges: &[&[1], &[2], &[0]],
        components: &[&[0, 1, 2]],
    },
    Graph {
        edges: &[&[1], &[0, 2], &[3], &[2]],
        components: &[&[2, 3], &[0, 1]],
    },
    Graph {
        edges: &[&[0], &[0, 1]],
        components: &[&[0], &[1]],
    },
    Graph {
        edges: &[&[9], &[]],
        components: &[&[0], &[1]],
    },
    // a component goes on behind an edge back
    Graph {
        edges: &[&[1], &[2, 0], &[0]],
        components: &[&[0, 1, 2]],
    },
    Graph {
        edges: &[&[1], &[0, 2], &[0]],
        components: &[&[0, 1, 2]],
    },
    Graph {
        edges: &[&[1], &[2], &[1, 3], &[4], &[3, 0]],
        components: &[&[0, 1, 2, 3, 4]],
    },
];

/// The rows, each as a list.
fn lists_of(rt: &impl Abort, alloc: Global, rows: &[&[usize]]) -> Vec<Vec<usize>> {
    let mut lists = Vec::new(alloc);
    for row in rows {
        let list = Vec::from_slice(alloc, row).expect(rt, "memory");
        lists.push(list).ok().expect(rt, "memory");
    }
    lists
}

#[test]
fn components_are_listed_behind_those_to_which_they_lead(rt: HostRuntime) {
    for graph in GRAPHS {
        let edges = lists_of(&rt, rt.alloc(), graph.edges);
        let components = components_of(rt.alloc(), &edges).expect(&rt, "memory");
        assert!(rt; components == lists_of(&rt, rt.alloc(), graph.components));
    }
}
