//! Searches over formulas: how far they lead, the fault that is met first, and the values of what is solved together.
//!
//! What is expected was found by hand from the definition: from `false` just what has a finite derivation is `true`, from `true` just
//! what has a finite derivation of `false` is `false`; and an instance whose formulas lead to a fault has no value.

ghost use Rattle.std.specs.Prelude.{option_map};
ghost use Rattle.std.specs.Map.{lookup};
ghost use Rattle.at_body.specs.Same.{same_instance};
ghost use Rattle.at_body.specs.Values.{value_view};

use crate::rows::holds_at;
use at_body::{Arguments, FaultKind, Formula, Inst, Known, Piece, Value};
use at_rules::AttrId;
use at_search::{Ended, Ending, Fault, Formed, Solved, closure, first_fault, put, solve};
use at_store::Node;
use indexmap::IndexMap;
use std::slice::from_ref;

/// A piece of a formula, instances by their numbers.
#[derive(Clone, Copy)]
enum Part {
    Is(bool),
    Of(usize),
    And,
    Or,
}

/// What there is of an instance: a formula, the operands before their operator; a fault; a value that is known; or nothing yet.
#[derive(Clone, Copy)]
enum Equation {
    Forms(&'static [Part]),
    Fails(FaultKind),
    Knows(bool),
    Waits,
}

use Equation::{Fails, Forms, Knows, Waits};
use Part::{And, Is, Of, Or};
use std::alloc::Global;
use std::process::Abort;

/// The value from which the instances start, and their equations by their numbers; their values by a search from the first one, no list
/// where that comes to an equation that hasn't ended; and the fault that such a search meets first: its kind, and where it is.
type Row = (
    bool,
    &'static [Equation],
    Option<&'static [Option<bool>]>,
    Option<(FaultKind, usize)>,
);

const NO: Option<bool> = Some(false);

const YES: Option<bool> = Some(true);

const ROWS: &[Row] = &[
    // A chain to `true` and to `false`.
    (
        false,
        &[Forms(&[Of(1)]), Forms(&[Of(2)]), Forms(&[Is(true)])],
        Some(&[YES, YES, YES]),
        None,
    ),
    (
        true,
        &[Forms(&[Of(1)]), Forms(&[Of(2)]), Forms(&[Is(false)])],
        Some(&[NO, NO, NO]),
        None,
    ),
    // A ring: nothing is derived, so each keeps the value from which it starts.
    (
        false,
        &[Forms(&[Of(1)]), Forms(&[Of(2)]), Forms(&[Of(0)])],
        Some(&[NO, NO, NO]),
        None,
    ),
    (
        true,
        &[Forms(&[Of(1)]), Forms(&[Of(2)]), Forms(&[Of(0)])],
        Some(&[YES, YES, YES]),
        None,
    ),
    // A ring that either side enters, or both do.
    (
        false,
        &[
            Forms(&[Of(1), Of(2), Or]),
            Forms(&[Of(0)]),
            Forms(&[Is(true)]),
        ],
        Some(&[YES, YES, YES]),
        None,
    ),
    (
        false,
        &[
            Forms(&[Of(1), Of(2), And]),
            Forms(&[Of(0)]),
            Forms(&[Is(true)]),
        ],
        Some(&[NO, NO, YES]),
        None,
    ),
    (
        true,
        &[
            Forms(&[Of(1), Of(2), And]),
            Forms(&[Of(0)]),
            Forms(&[Is(false)]),
        ],
        Some(&[NO, NO, NO]),
        None,
    ),
    (
        true,
        &[
            Forms(&[Of(1), Of(2), Or]),
            Forms(&[Of(0)]),
            Forms(&[Is(false)]),
        ],
        Some(&[YES, YES, NO]),
        None,
    ),
    // A fault within reach: what leads to it has no value, and what doesn't has one.
    (
        false,
        &[
            Forms(&[Of(1), Of(2), Or]),
            Forms(&[Is(true)]),
            Fails(FaultKind::Zero),
        ],
        Some(&[None, YES, None]),
        Some((FaultKind::Zero, 2)),
    ),
    // What is known is passed: it isn't told, and what it leads to isn't looked at.
    (
        false,
        &[Forms(&[Of(1), Of(2), And]), Knows(true), Forms(&[Is(true)])],
        Some(&[YES, None, YES]),
        None,
    ),
    // An equation that hasn't ended.
    (
        false,
        &[Forms(&[Of(1), Of(2), Or]), Forms(&[Is(true)]), Waits],
        None,
        None,
    ),
    // Two rings: the first leads to the second, which is entered.
    (
        false,
        &[
            Forms(&[Of(1), Of(2), Or]),
            Forms(&[Of(0)]),
            Forms(&[Of(3)]),
            Forms(&[Of(2), Is(true), Or]),
        ],
        Some(&[YES, YES, YES, YES]),
        None,
    ),
    // Depth first: what the left side leads to comes before the right side.
    (
        false,
        &[
            Forms(&[Of(1), Of(2), Or]),
            Forms(&[Of(3)]),
            Fails(FaultKind::Zero),
            Fails(FaultKind::Null),
        ],
        Some(&[None, None, None, None]),
        Some((FaultKind::Null, 3)),
    ),
    (
        false,
        &[Fails(FaultKind::Zero)],
        Some(&[None]),
        Some((FaultKind::Zero, 0)),
    ),
    // What is known is passed.
    (
        false,
        &[
            Forms(&[Of(1), Of(2), Or]),
            Knows(true),
            Fails(FaultKind::Cast),
        ],
        Some(&[None, None, None]),
        Some((FaultKind::Cast, 2)),
    ),
    // Formulas alone, and an equation that hasn't ended in front of the fault.
    (
        false,
        &[Forms(&[Of(1)]), Forms(&[Of(0)])],
        Some(&[NO, NO]),
        None,
    ),
    (
        false,
        &[Forms(&[Of(1), Of(2), Or]), Waits, Fails(FaultKind::Zero)],
        None,
        None,
    ),
];

/// The values that are known.
#[derive(Drop)]
struct Kept {
    values: IndexMap<Inst, Value>,
}

impl Known for Kept {
    ghost value_of = { λ k i. option_map value_view (lookup (same_instance i) k.values.entries) };

    fn known(&self, inst: &Inst) -> Option<&Value> {
        self.values.get(inst)
    }
}

/// The instance of that number: of a node of its own.
fn numbered(number: usize) -> Inst {
    Inst::new(
        Node::of(number).unwrap_or_default(),
        AttrId::new(0),
        Arguments::none(),
    )
}

/// The formula of these pieces.
fn formula(rt: &impl Abort, alloc: Global, parts: &[Part]) -> Formula {
    let mut pieces = Vec::new(alloc);
    for part in parts {
        let piece = match part {
            Part::Is(value) => Piece::Known(*value),
            Part::Of(number) => Piece::Asks(numbered(*number)),
            Part::And => Piece::Both,
            Part::Or => Piece::Either,
        };
        pieces.push(piece).ok().expect(rt, "memory");
    }
    Formula::of(pieces).expect(rt, "a formula")
}

/// The ending of an equation; none where it hasn't ended, or the value is known.
fn ending(rt: &impl Abort, alloc: Global, number: usize, equation: &Equation) -> Option<Ending> {
    match equation {
        Equation::Forms(parts) => Some(Ending::Formed(Formed {
            formula: formula(rt, alloc, parts),
            reads: Vec::new(alloc),
            kept: Vec::new(alloc),
            finds: Vec::new(alloc),
        })),
        Equation::Fails(kind) => Some(Ending::Spoilt(Fault {
            kind: *kind,
            at: numbered(number),
        })),
        Equation::Knows(_) | Equation::Waits => None,
    }
}

/// How the equations ended.
fn ended(rt: &impl Abort, alloc: Global, equations: &[Equation]) -> IndexMap<Inst, Ended> {
    let mut all = IndexMap::new(alloc);
    for (number, equation) in equations.iter().enumerate() {
        if let Some(ending) = ending(rt, alloc, number, equation) {
            let is_whole = false;
            let ended = Ended { ending, is_whole };
            put(&mut all, numbered(number), ended).expect(rt, "memory");
        }
    }
    all
}

/// The values that are known of them.
fn known_of(rt: &impl Abort, alloc: Global, equations: &[Equation]) -> Kept {
    let mut values = IndexMap::new(alloc);
    for (number, equation) in equations.iter().enumerate() {
        if let Equation::Knows(value) = equation {
            put(&mut values, numbered(number), Value::Bool(*value)).expect(rt, "memory");
        }
    }
    Kept { values }
}

/// The value that the instance is told in one of the groups.
fn told(groups: &[Vec<Solved>], seen: &IndexMap<Inst, ()>, inst: &Inst) -> Option<bool> {
    let position = seen.get_index_of(inst)?;
    for group in groups {
        for solved in group {
            if solved.position == position {
                return Some(solved.value);
            }
        }
    }
    None
}

/// Whether a search from the first instance tells these values, by the instances' numbers; none where it comes to what hasn't ended.
fn has_values(
    rt: &impl Abort,
    alloc: Global,
    start: bool,
    ended: &IndexMap<Inst, Ended>,
    known: &Kept,
    wanted: Option<&[Option<bool>]>,
) -> bool {
    let seen = closure(alloc, ended, known, &numbered(0)).expect(rt, "memory");
    let (Some(seen), Some(wanted)) = (&seen, wanted) else {
        return seen.is_none() && wanted.is_none();
    };
    let groups = solve(alloc, start, ended, known, seen).ok();
    let groups = groups.expect(rt, "memory");
    for (number, value) in wanted.iter().enumerate() {
        if told(groups.as_slice(), seen, &numbered(number)) != *value {
            return false;
        }
    }
    true
}

/// Whether this is the fault of the row.
fn is_fault(found: &Option<Fault>, wanted: &Option<(FaultKind, usize)>) -> bool {
    match (found, wanted) {
        (Some(found), Some((kind, number))) => {
            found.kind == *kind && found.at == numbered(*number)
        }
        (None, None) => true,
        _ => false,
    }
}

/// Whether a search from the first instance finds what the row says.
fn finds(rt: &impl Abort, alloc: Global, row: &Row) -> bool {
    let (start, equations, values, fault) = *row;
    let ended = ended(rt, alloc, equations);
    let known = known_of(rt, alloc, equations);
    let met = first_fault(alloc, &ended, &known, &numbered(0)).ok();
    let met = met.expect(rt, "memory");
    is_fault(&met, &fault) && has_values(rt, alloc, start, &ended, &known, values)
}

#[test]
fn a_search_finds_the_fixpoint_and_the_first_fault(rt: HostRuntime) {
    for (at, row) in ROWS.iter().enumerate() {
        holds_at(&rt, at, finds(&rt, rt.alloc(), row));
    }
}

#[test]
fn a_ring_is_solved_behind_the_one_to_which_it_leads(rt: HostRuntime) {
    let rings = &[
        Forms(&[Of(1), Of(2), Or]),
        Forms(&[Of(0)]),
        Forms(&[Of(3)]),
        Forms(&[Of(2)]),
    ];
    let ended = ended(&rt, rt.alloc(), rings);
    let known = known_of(&rt, rt.alloc(), rings);
    let seen = closure(rt.alloc(), &ended, &known, &numbered(0)).expect(&rt, "memory");
    let seen = seen.expect(&rt, "equations that ended");
    let groups = solve(rt.alloc(), false, &ended, &known, &seen)
        .ok()
        .expect(&rt, "memory");
    let [first, second] = groups.as_slice() else {
        panic!(rt; "not two groups");
    };
    assert!(rt; told(from_ref(first), &seen, &numbered(3)).is_some());
    assert!(rt; told(from_ref(second), &seen, &numbered(1)).is_some());
    assert!(rt; first.len() == 2 && second.len() == 2);
}
