//! What keepers keep of instances that are put by themselves, what they forget, and what they keep again with no evaluation: rows of
//! acts. What is expected was found by hand.

use crate::keepers::compared::KeepCompared;
use crate::keeping::{Act, How, Of, Sight, is_done};
use crate::rows::holds_at;
use Act::{Blocked, Look, Put, Refuse, See, Settle, Touch, Worked};
use Of::{Class, Drawer, Index, Parent, Slot, Token};
use Sight::{Kept, Nothing, Stands};
use at_cache::{KeepInTurns, KeepRecorded, Order};
use at_evict::Bounded;
use std::alloc::Global;
use std::process::Abort;

/// How many entries a flush leaves in memory at most where there is a bound: fewer than some rows put, and more.
const FEW: usize = 4;

const MANY: usize = 100;

/// A fresh keeper, and how entries are put.
#[derive(Clone, Copy)]
enum Way {
    Recorded,
    /// What entries use stands in any order.
    InAnyOrder,
    /// Turns keep again, too.
    InTurns,
    /// Compared with plain models.
    Compared,
    /// The same, which takes no entry.
    Starved,
    AtMostMany,
    AtMostFew,
    AtMostNone,
}

/// Acts on fresh keepers: the same front for each of the ends.
struct Script {
    ways: &'static [Way],
    front: &'static [Act],
    ends: &'static [&'static [Act]],
}

/// All that keep what no edit touches, of so few entries.
const KEEPING: &[Way] = &[
    Way::Recorded,
    Way::InAnyOrder,
    Way::InTurns,
    Way::Compared,
    Way::AtMostMany,
    Way::AtMostFew,
];

/// Those that keep again.
const AGAIN: &[Way] = &[Way::Recorded, Way::InTurns, Way::Compared, Way::AtMostMany];

const FEW_AT_MOST: &[Way] = &[Way::AtMostFew];

/// Each but the first uses the one before it.
const CHAIN: &[Act] = &[
    Put(0, Some(1), &[]),
    Put(1, Some(2), &[0]),
    Put(2, Some(3), &[1]),
];

/// Two use the first, and are used by the last.
const FORK: &[Act] = &[
    Put(0, Some(1), &[]),
    Put(1, Some(2), &[0]),
    Put(2, Some(3), &[0]),
    Put(3, Some(4), &[1, 2]),
];

/// Two without a value, each of which one with a value uses.
const PAIRS: &[Act] = &[
    Put(0, None, &[]),
    Put(1, None, &[]),
    Put(2, Some(7), &[0]),
    Put(3, Some(7), &[1]),
];

/// Of two pairs the first is gone.
const LINKS: &[Act] = &[
    Put(0, Some(1), &[]),
    Put(1, Some(2), &[0]),
    Put(2, Some(3), &[]),
    Put(3, Some(4), &[2]),
    Touch(0, Token(0)),
];

/// Twice as many as a keeper of few has.
const LONG_CHAIN: &[Act] = &[
    Put(0, Some(0), &[]),
    Put(1, Some(1), &[0]),
    Put(2, Some(2), &[1]),
    Put(3, Some(3), &[2]),
    Put(4, Some(4), &[3]),
    Put(5, Some(5), &[4]),
    Put(6, Some(6), &[5]),
    Put(7, Some(7), &[6]),
];

/// The same of drawers as of few others, among more that one node has.
const DRAWERS: &[Act] = &[
    Look(
        0,
        &[Class, Drawer(0, 1), Drawer(0, 2), Drawer(1, 3), Token(2)],
        &[],
    ),
    Look(1, &[Drawer(0, 2)], &[]),
];

/// The first looked at a drawer, and the second uses it.
const DRAWN: &[Act] = &[Look(0, &[Drawer(0, 1)], &[]), Put(1, Some(6), &[0])];

/// The first of a long chain looked at drawers alone.
const DRAWN_CHAIN: &[Act] = &[
    Look(0, &[Drawer(0, 2)], &[]),
    Put(1, Some(1), &[0]),
    Put(2, Some(2), &[1]),
    Put(3, Some(3), &[2]),
    Put(4, Some(4), &[3]),
    Put(5, Some(5), &[4]),
    Put(6, Some(6), &[5]),
    Put(7, Some(7), &[6]),
];

/// The second uses the first.
const USED: &[Act] = &[Put(0, Some(5), &[]), Put(1, Some(6), &[0])];

const TOKEN: &[Act] = &[Look(0, &[Class, Class, Token(0), Token(2)], &[])];

const SLOT: &[Act] = &[Look(0, &[Class, Class, Slot, Token(2)], &[])];

const PARENT: &[Act] = &[Look(0, &[Class, Class, Parent, Token(2)], &[])];

const INDEX: &[Act] = &[Look(0, &[Class, Class, Index, Token(2)], &[])];

/// The class twice, and each time something else of the node: three locations, of which one edge tells.
const TOGETHER: &[Act] = &[Look(0, &[Class, Token(0), Class, Slot], &[])];

/// The same with the index in between, which stands alone: an edge in front of it, and one behind it.
const APART: &[Act] = &[Look(0, &[Class, Token(0), Index, Class, Slot], &[])];

const SCRIPTS: &[Script] = &[
    // What uses an entry goes with it.
    Script {
        ways: KEEPING,
        front: CHAIN,
        ends: &[
            &[Touch(0, Token(0)), See(&[Nothing, Nothing, Nothing])],
            &[Touch(1, Token(0)), See(&[Kept(1), Nothing, Nothing])],
            &[Touch(2, Token(0)), See(&[Kept(1), Kept(2), Nothing])],
        ],
    },
    Script {
        ways: KEEPING,
        front: FORK,
        ends: &[
            &[
                Touch(0, Token(0)),
                See(&[Nothing, Nothing, Nothing, Nothing]),
            ],
            &[
                Touch(1, Token(0)),
                See(&[Kept(1), Nothing, Kept(3), Nothing]),
            ],
            &[
                Touch(2, Token(0)),
                See(&[Kept(1), Kept(2), Nothing, Nothing]),
            ],
            &[
                Touch(3, Token(0)),
                See(&[Kept(1), Kept(2), Kept(3), Nothing]),
            ],
        ],
    },
    // A node's class, looked at twice, what is looked at next, and a token rest on themselves alone.
    Script {
        ways: KEEPING,
        front: TOKEN,
        ends: &[
            &[Touch(0, Class), See(&[Nothing])],
            &[Touch(0, Token(0)), See(&[Nothing])],
            &[Touch(0, Token(2)), See(&[Nothing])],
            &[Touch(0, Token(1)), See(&[Kept(7)])],
            &[Touch(1, Class), See(&[Kept(7)])],
        ],
    },
    Script {
        ways: KEEPING,
        front: SLOT,
        ends: &[
            &[Touch(0, Class), See(&[Nothing])],
            &[Touch(0, Slot), See(&[Nothing])],
            &[Touch(0, Token(2)), See(&[Nothing])],
            &[Touch(0, Token(1)), See(&[Kept(7)])],
            &[Touch(1, Class), See(&[Kept(7)])],
        ],
    },
    Script {
        ways: KEEPING,
        front: PARENT,
        ends: &[
            &[Touch(0, Class), See(&[Nothing])],
            &[Touch(0, Parent), See(&[Nothing])],
            &[Touch(0, Token(2)), See(&[Nothing])],
            &[Touch(0, Token(1)), See(&[Kept(7)])],
            &[Touch(1, Class), See(&[Kept(7)])],
        ],
    },
    Script {
        ways: KEEPING,
        front: INDEX,
        ends: &[
            &[Touch(0, Class), See(&[Nothing])],
            &[Touch(0, Index), See(&[Nothing])],
            &[Touch(0, Token(2)), See(&[Nothing])],
            &[Touch(0, Token(1)), See(&[Kept(7)])],
            &[Touch(1, Class), See(&[Kept(7)])],
        ],
    },
    Script {
        ways: KEEPING,
        front: TOGETHER,
        ends: &[
            &[Touch(0, Class), See(&[Nothing])],
            &[Touch(0, Token(0)), See(&[Nothing])],
            &[Touch(0, Slot), See(&[Nothing])],
            &[Touch(0, Index), See(&[Kept(7)])],
            &[Touch(0, Token(1)), See(&[Kept(7)])],
        ],
    },
    Script {
        ways: KEEPING,
        front: APART,
        ends: &[
            &[Touch(0, Class), See(&[Nothing])],
            &[Touch(0, Token(0)), See(&[Nothing])],
            &[Touch(0, Index), See(&[Nothing])],
            &[Touch(0, Slot), See(&[Nothing])],
            &[Touch(0, Parent), See(&[Kept(7)])],
        ],
    },
    // Links follow their entries.
    Script {
        ways: KEEPING,
        front: LINKS,
        ends: &[&[
            Look(4, &[], &[3]),
            Touch(0, Token(0)),
            See(&[Nothing, Nothing, Kept(3), Kept(4), Kept(7)]),
            Touch(2, Token(0)),
            See(&[Nothing, Nothing, Nothing, Nothing, Nothing]),
        ]],
    },
    // Entries without a value are never told, and go with those that use them, and with none beside these.
    Script {
        ways: KEEPING,
        front: PAIRS,
        ends: &[&[
            Touch(4, Token(0)),
            See(&[Stands, Stands, Kept(7), Kept(7)]),
            Touch(0, Token(0)),
            See(&[Nothing, Stands, Nothing, Kept(7)]),
            Touch(1, Token(0)),
            See(&[Nothing, Nothing, Nothing, Nothing]),
        ]],
    },
    // With a bound of none all goes at each edit, and is neither kept again.
    Script {
        ways: &[Way::AtMostNone],
        front: USED,
        ends: &[&[
            Put(2, None, &[]),
            See(&[Kept(5), Kept(6), Stands]),
            Touch(3, Token(0)),
            See(&[Nothing, Nothing, Nothing]),
            Put(0, Some(5), &[]),
            Settle(1),
            Worked(0),
            See(&[Kept(5), Nothing, Nothing]),
        ]],
    },
    Script {
        ways: &[Way::Starved],
        front: &[],
        ends: &[&[
            Refuse(1, Some(5), &[]),
            See(&[Nothing, Nothing, Nothing]),
            Touch(2, Token(0)),
            See(&[Nothing, Nothing, Nothing]),
        ]],
    },
    // What entries are folded into goes with what these looked at.
    Script {
        ways: FEW_AT_MOST,
        front: LONG_CHAIN,
        ends: &[
            &[
                Touch(8, Token(0)),
                See(&[
                    Nothing,
                    Nothing,
                    Kept(2),
                    Nothing,
                    Nothing,
                    Kept(5),
                    Nothing,
                    Kept(7),
                ]),
            ],
            &[
                Touch(5, Token(0)),
                See(&[
                    Nothing,
                    Nothing,
                    Kept(2),
                    Nothing,
                    Nothing,
                    Nothing,
                    Nothing,
                    Nothing,
                ]),
            ],
            &[
                Touch(1, Token(0)),
                See(&[
                    Nothing, Nothing, Nothing, Nothing, Nothing, Nothing, Nothing, Nothing,
                ]),
            ],
        ],
    },
    // What was put in any order isn't kept again.
    Script {
        ways: &[Way::InAnyOrder],
        front: USED,
        ends: &[&[
            Touch(0, Token(0)),
            Put(0, Some(5), &[]),
            Settle(1),
            Worked(0),
            See(&[Kept(5), Nothing]),
            Blocked(1, None),
        ]],
    },
    // What is kept again: the second, and more.
    Script {
        ways: AGAIN,
        front: USED,
        ends: &[
            // What it used has the same value again.
            &[
                Touch(0, Token(0)),
                Put(0, Some(5), &[]),
                Settle(1),
                Worked(1),
                See(&[Kept(5), Kept(6)]),
                Blocked(1, None),
            ],
            // It has another one.
            &[
                Touch(0, Token(0)),
                Put(0, Some(7), &[]),
                Settle(1),
                Worked(0),
                See(&[Kept(7), Nothing]),
                Blocked(1, None),
            ],
            // What it used isn't kept again.
            &[
                Touch(0, Token(0)),
                Settle(1),
                Worked(0),
                See(&[Nothing, Nothing]),
                Blocked(1, Some(0)),
            ],
            // All between is settled with it, in a chain and beside one that was never touched.
            &[
                Put(2, Some(7), &[]),
                Put(3, Some(8), &[2, 1]),
                Touch(0, Token(0)),
                Put(0, Some(5), &[]),
                Settle(3),
                Worked(2),
                See(&[Kept(5), Kept(6), Kept(7), Kept(8)]),
                Blocked(3, None),
            ],
            // Its own location was touched.
            &[
                Touch(0, Token(0)),
                Touch(1, Token(0)),
                Put(0, Some(5), &[]),
                Settle(1),
                Worked(0),
                See(&[Kept(5), Nothing]),
                Blocked(1, None),
            ],
            // Those in front of the first that isn't kept again are.
            &[
                Put(2, Some(7), &[]),
                Put(3, Some(8), &[0]),
                Put(4, Some(9), &[1, 2, 3]),
                Touch(0, Token(0)),
                Touch(2, Token(0)),
                Put(0, Some(5), &[]),
                Settle(4),
                Worked(1),
                See(&[Kept(5), Kept(6), Nothing, Nothing, Nothing]),
                Blocked(4, Some(2)),
            ],
            // One that isn't kept again stands in the way two levels above it.
            &[
                Put(2, Some(7), &[1]),
                Touch(0, Token(0)),
                Settle(2),
                Worked(0),
                See(&[Nothing, Nothing, Nothing]),
                Blocked(2, Some(0)),
            ],
        ],
    },
    Script {
        ways: FEW_AT_MOST,
        front: &[],
        ends: &[
            // Of five in memory those go that aren't kept.
            &[
                Put(0, Some(5), &[]),
                Put(1, Some(6), &[0]),
                Touch(0, Token(0)),
                Put(2, Some(7), &[]),
                Put(3, Some(8), &[]),
                Put(4, Some(9), &[]),
                Touch(5, Token(0)),
                Put(0, Some(5), &[]),
                Settle(1),
                Worked(0),
                See(&[Kept(5), Nothing, Kept(7), Kept(8), Kept(9)]),
                Blocked(4, None),
            ],
            // What is kept then is kept again.
            &[
                Put(2, Some(7), &[]),
                Touch(2, Token(0)),
                Put(0, Some(5), &[]),
                Put(1, Some(6), &[0]),
                Put(3, Some(8), &[]),
                Put(4, Some(9), &[]),
                Touch(0, Token(0)),
                Put(0, Some(5), &[]),
                Settle(1),
                Worked(1),
                See(&[Kept(5), Kept(6), Nothing, Kept(8), Kept(9)]),
                Blocked(4, None),
            ],
            // What is left of a folding isn't.
            &[
                Put(0, Some(5), &[]),
                Put(1, Some(6), &[0]),
                Put(2, Some(7), &[]),
                Put(3, Some(8), &[]),
                Put(4, Some(9), &[0, 1]),
                Touch(0, Token(0)),
                Put(0, Some(5), &[]),
                Settle(1),
                Settle(4),
                Worked(0),
                See(&[Kept(5), Nothing, Kept(7), Kept(8), Nothing]),
                Blocked(4, None),
            ],
        ],
    },
];

/// The same of drawers: a table of its own, since one with all rows takes the prover too long.
const OF_DRAWERS: &[Script] = &[
    // What is looked at of drawers rests on those alone, by component and mark, however an edit names them.
    Script {
        ways: KEEPING,
        front: DRAWERS,
        ends: &[
            &[Touch(0, Class), See(&[Nothing, Kept(7)])],
            &[Touch(0, Drawer(0, 1)), See(&[Nothing, Kept(7)])],
            &[Touch(0, Drawer(0, 2)), See(&[Nothing, Kept(7)])],
            &[Touch(0, Drawer(1, 3)), See(&[Nothing, Kept(7)])],
            &[Touch(0, Token(2)), See(&[Nothing, Kept(7)])],
            &[Touch(1, Drawer(0, 2)), See(&[Kept(7), Nothing])],
            &[
                Touch(0, Drawer(1, 1)),
                Touch(0, Drawer(0, 3)),
                Touch(0, Slot),
                Touch(1, Drawer(0, 1)),
                See(&[Kept(7), Kept(7)]),
            ],
        ],
    },
    // What entries are folded into goes with the drawers at which these looked.
    Script {
        ways: FEW_AT_MOST,
        front: DRAWN_CHAIN,
        ends: &[
            &[
                Touch(0, Drawer(0, 1)),
                Touch(0, Drawer(1, 2)),
                See(&[
                    Nothing,
                    Nothing,
                    Kept(2),
                    Nothing,
                    Nothing,
                    Kept(5),
                    Nothing,
                    Kept(7),
                ]),
            ],
            &[
                Touch(0, Drawer(0, 2)),
                See(&[
                    Nothing, Nothing, Nothing, Nothing, Nothing, Nothing, Nothing, Nothing,
                ]),
            ],
        ],
    },
    // What is kept again, where what it used looked at a drawer.
    Script {
        ways: AGAIN,
        front: DRAWN,
        ends: &[
            &[
                Touch(0, Drawer(0, 1)),
                See(&[Nothing, Nothing]),
                Look(0, &[Drawer(0, 1)], &[]),
                Settle(1),
                Worked(1),
                See(&[Kept(7), Kept(6)]),
            ],
            &[
                Touch(0, Drawer(0, 1)),
                Put(0, Some(5), &[]),
                Settle(1),
                Worked(0),
                See(&[Kept(5), Nothing]),
            ],
        ],
    },
];

/// A bound, if it is one, acts on a keeper with it, and how many entries are in memory then.
const COUNTS: &[(Option<usize>, &[Act], &[Act], usize)] = &[
    (None, CHAIN, &[], 3),
    (None, FORK, &[], 4),
    // what isn't kept stays
    (None, CHAIN, &[Touch(0, Token(0))], 3),
    (None, LINKS, &[], 4),
    (None, LINKS, &[Put(0, Some(1), &[]), Settle(1)], 4),
    (None, LINKS, &[Look(4, &[], &[3]), Touch(2, Token(0))], 5),
    (Some(MANY), LONG_CHAIN, &[Touch(8, Token(0))], 8),
    // and first it goes for a bound
    (Some(FEW), LINKS, &[], 4),
    (Some(FEW), LINKS, &[Look(4, &[], &[3])], 5),
    (
        Some(FEW),
        LINKS,
        &[Look(4, &[], &[3]), Touch(5, Token(0))],
        3,
    ),
    // then three quarters of it are left
    (Some(FEW), LONG_CHAIN, &[], 8),
    (Some(FEW), LONG_CHAIN, &[Touch(8, Token(0))], 3),
    (Some(1), LONG_CHAIN, &[Touch(8, Token(0))], 1),
    (Some(0), LONG_CHAIN, &[Touch(8, Token(0))], 0),
    (
        Some(0),
        LONG_CHAIN,
        &[Touch(8, Token(0)), Put(0, Some(1), &[])],
        1,
    ),
];

/// Whether the acts go as told, one after the other; the work that they take is added.
fn are_done<K: Bounded>(
    rt: &impl Abort,
    alloc: Global,
    keeper: &mut K,
    how: How,
    acts: &[Act],
    work: &mut u64,
) -> bool {
    for act in acts {
        if !is_done(rt, alloc, keeper, how, act, work) {
            return false;
        }
    }
    true
}

/// Whether both lists of acts go as told, the second one behind the first.
fn goes<K: Bounded>(
    rt: &impl Abort,
    alloc: Global,
    keeper: &mut K,
    how: How,
    front: &[Act],
    end: &[Act],
) -> bool {
    let mut work: u64 = 0;
    are_done(rt, alloc, keeper, how, front, &mut work)
        && are_done(rt, alloc, keeper, how, end, &mut work)
}

/// How entries are put.
fn how_of(way: Way) -> How {
    let most = match way {
        Way::AtMostMany => Some(MANY),
        Way::AtMostFew => Some(FEW),
        Way::AtMostNone => Some(0),
        _ => None,
    };
    let order = match way {
        Way::InAnyOrder => Order::Any,
        _ => Order::AsTaken,
    };
    How { order, most }
}

/// Whether they go as told with a fresh keeper.
fn goes_with(rt: &impl Abort, alloc: Global, way: Way, front: &[Act], end: &[Act]) -> bool {
    let how = how_of(way);
    let keeper = KeepRecorded::new(alloc);
    match way {
        Way::InTurns => goes(rt, alloc, &mut KeepInTurns { keeper }, how, front, end),
        Way::Compared => {
            let mut keeper = KeepCompared::new(alloc, usize::MAX);
            goes(rt, alloc, &mut keeper, how, front, end) && !keeper.models.differs
        }
        Way::Starved => goes(rt, alloc, &mut KeepCompared::new(alloc, 0), how, front, end),
        _ => {
            let mut keeper = keeper;
            goes(rt, alloc, &mut keeper, how, front, end)
        }
    }
}

/// How many entries a keeper with that bound has in memory behind these acts, where they go as told.
fn count_of(
    rt: &impl Abort,
    alloc: Global,
    most: Option<usize>,
    front: &[Act],
    end: &[Act],
) -> Option<usize> {
    let mut keeper = KeepRecorded::new(alloc);
    let how = How {
        order: Order::AsTaken,
        most,
    };
    if goes(rt, alloc, &mut keeper, how, front, end) {
        return Some(keeper.len());
    }
    None
}

/// Each row goes as told with each of its keepers.
fn go_over(rt: &impl Abort, alloc: Global, scripts: &[Script]) {
    for (row, script) in scripts.iter().enumerate() {
        for way in script.ways {
            for end in script.ends {
                holds_at(rt, row, goes_with(rt, alloc, *way, script.front, end));
            }
        }
    }
}

#[test]
fn keepers_keep_and_forget_what_they_are_said_to(rt: HostRuntime) {
    go_over(&rt, rt.alloc(), SCRIPTS);
}

#[test]
fn keepers_keep_and_forget_by_drawers(rt: HostRuntime) {
    go_over(&rt, rt.alloc(), OF_DRAWERS);
}

#[test]
fn entries_in_memory_are_counted(rt: HostRuntime) {
    for (row, (most, front, end, count)) in COUNTS.iter().enumerate() {
        let found = count_of(&rt, rt.alloc(), *most, front, end);
        holds_at(&rt, row, found == Some(*count));
    }
}
