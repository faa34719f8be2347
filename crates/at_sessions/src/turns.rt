//! Lines and turns one by one: questions in turns, and the tree between lines.

ghost use Rattle.at_start.specs.Starts.{IsReady};

use crate::hearing::calculator;
use crate::rows::holds_for;
use at_cache::KeepRecorded;
use at_engine::Engine;
use at_tree::tree::{depth, nodes};
use std::alloc::Global;
use std::process::Abort;

/// What is done with an engine, and what comes of it.
enum Step {
    /// A line is given: what is appended.
    Line(&'static str, &'static str),
    /// A turn is given: whether a question is open, and what is appended.
    Turn(bool, &'static str),
    /// So many questions of session 0 are posted: they are told the numbers from 1 on.
    Posts(u32),
    /// How many nodes and levels a copy of the engine's tree has.
    Tree(usize, usize),
    /// How many turns the open question of that number was given.
    Given(u64, Option<u128>),
}

/// Steps on a fresh engine.
struct Script {
    name: &'static str,
    steps: &'static [Step],
}

const SCRIPTS: &[Script] = &[
    Script {
        name: "a question is waited for by its session",
        steps: &[
            POST,
            Step::Given(1, Some(0)),
            Step::Given(2, None),
            Step::Line("", ""),
            Step::Line("1 wait 1", "1 refused 15 question\n"),
            Step::Turn(true, ""),
            Step::Given(1, Some(1)),
            Step::Line("0 wait 1", "0 done 1 0 = 3\n"),
            Step::Given(1, None),
            Step::Turn(false, ""),
            Step::Line("0 wait 1", "0 refused 15 question\n"),
        ],
    },
    Script {
        name: "an edit begins the count anew, a refused one doesn't",
        steps: &[
            POST,
            Step::Turn(true, ""),
            Step::Turn(true, ""),
            Step::Turn(true, ""),
            Step::Line("1 drop /Block", "1 refused 10 fixed\n"),
            Step::Given(1, Some(3)),
            Step::Line("1 token /Block/Stmt:1/Expr/Right Value 5", "1 ok 1\n"),
            Step::Given(1, Some(0)),
            Step::Turn(true, ""),
            Step::Given(1, Some(1)),
            Step::Line("0 wait 1", "0 done 1 1 = 6\n"),
        ],
    },
    Script {
        name: "what a question asks for is gone",
        steps: &[
            POST,
            Step::Line("0 drop /Block/Stmt:0", "0 ok 1\n"),
            Step::Turn(true, "0 done 1 1 refused 4 path\n"),
            Step::Turn(false, ""),
        ],
    },
    Script {
        name: "a circle",
        steps: &[
            Step::Line("0 post / circ()", "0 open 1\n"),
            Step::Given(1, Some(0)),
            Step::Turn(true, "0 done 1 0 circular /.circ\n"),
            Step::Given(1, None),
        ],
    },
    Script {
        name: "words that a turn refuses",
        steps: &[
            Step::Line("1 post / nosuch()", "1 open 1\n"),
            Step::Line("1 post /Block local(null)", "1 open 2\n"),
            Step::Turn(true, "1 done 1 0 refused 13 attribute\n"),
            Step::Line("1 wait 2", "1 done 2 0 refused 14 arguments\n"),
        ],
    },
    Script {
        name: "a mark whose node is gone",
        steps: &[
            MARK,
            Step::Line("0 post $u decl()", "0 open 1\n"),
            Step::Line("0 drop /Block/Stmt:1", "0 ok 1\n"),
            Step::Turn(true, "0 done 1 1 refused 3 mark\n"),
        ],
    },
    Script {
        name: "a mark that names another node behind the post",
        steps: &[
            MARK,
            Step::Line("0 post $u decl()", "0 open 1\n"),
            Step::Line("0 unmark u", "0 ok 0\n"),
            Step::Line("0 post $u decl()", "0 refused 3 mark\n"),
            Step::Line("0 mark u /Block", "0 ok 0\n"),
            Step::Line("0 post $u decl()", "0 open 2\n"),
            Step::Line("0 wait 2", "0 done 2 0 refused 13 attribute\n"),
            Step::Line("1 insert /Block Stmt 0 Decl(\"y\",-)", "1 ok 1\n"),
            Step::Line("0 wait 1", "0 done 1 1 = /Block/Stmt:1\n"),
        ],
    },
    Script {
        name: "a mark and a number that aren't there",
        steps: &[
            Step::Line("0 post $v decl()", "0 refused 3 mark\n"),
            Step::Line("0 wait 7", "0 refused 15 question\n"),
            Step::Line("0 wait 0", "0 refused 1 syntax\n"),
            Step::Line("0 wait 01", "0 refused 1 syntax\n"),
            Step::Line("0 wait 18446744073709551615", "0 refused 15 question\n"),
            POST,
        ],
    },
    Script {
        name: "a version is expected of the post alone",
        steps: &[
            Step::Line(
                "0 at 1 post /Block/Stmt:0/Init value()",
                "0 refused 2 stale 0\n",
            ),
            Step::Line("0 at 0 post /Block/Stmt:0/Init value()", "0 open 1\n"),
            Step::Line("0 token /Block/Stmt:0/Init Value 8", "0 ok 1\n"),
            Step::Line("0 at 0 wait 1", "0 refused 2 stale 1\n"),
            Step::Turn(true, "0 done 1 1 = 8\n"),
        ],
    },
    Script {
        name: "what is kept is answered by the first turn",
        steps: &[
            Step::Line("0 ask /Block/Stmt:1/Expr value()", "0 = 3\n"),
            POST,
            Step::Turn(true, "0 done 1 0 = 3\n"),
        ],
    },
    Script {
        name: "what is kept meanwhile is taken off by a turn",
        steps: &[
            POST,
            Step::Turn(true, ""),
            Step::Line("1 ask /Block/Stmt:1/Expr/Left value()", "1 = 1\n"),
            Step::Turn(true, ""),
            Step::Given(1, Some(2)),
            Step::Turn(true, ""),
            Step::Turn(true, ""),
            Step::Given(1, Some(4)),
            Step::Turn(true, "0 done 1 0 = 3\n"),
        ],
    },
    Script {
        name: "the question with the least number gets the turn",
        steps: &[
            POST,
            Step::Line("1 post /Block/Stmt:1/Expr/Right value()", "1 open 2\n"),
            Step::Line("2 post /Block/Stmt:0/Init value()", "2 open 3\n"),
            Step::Turn(true, ""),
            Step::Given(1, Some(1)),
            Step::Given(2, Some(0)),
            Step::Line("1 wait 2", "1 done 2 0 = 2\n"),
            Step::Given(1, Some(1)),
            Step::Line("0 wait 1", "0 done 1 0 = 3\n"),
            Step::Turn(true, "2 done 3 0 = 1\n"),
        ],
    },
    Script {
        name: "a session has 100 open questions and no more",
        steps: &[
            Step::Posts(100),
            Step::Line("0 post / circ()", "0 refused 12 limit\n"),
            Step::Line("1 post / circ()", "1 open 101\n"),
            Step::Line("0 wait 100", "0 done 100 0 circular /.circ\n"),
            Step::Line("0 post / circ()", "0 open 102\n"),
            Step::Line("0 post / circ()", "0 refused 12 limit\n"),
            Step::Turn(true, "0 done 1 0 circular /.circ\n"),
            Step::Line("0 post / circ()", "0 open 103\n"),
        ],
    },
    Script {
        name: "the tree is read between lines",
        steps: &[
            Step::Line("0 version", "0 ok 0\n"),
            Step::Tree(8, 5),
            Step::Line(
                "0 set /Block/Stmt:1/Expr/Right Add(Num(3),Add(Num(4),Num(5)))",
                "0 ok 1\n",
            ),
            Step::Tree(12, 7),
            Step::Line("0 drop /Block/Stmt:1/Expr/Right", "0 refused 10 fixed\n"),
            Step::Tree(12, 7),
            Step::Line("0 insert /Block Stmt 0 Decl(\"y\",-)", "0 ok 2\n"),
            Step::Tree(13, 7),
            Step::Line("0 drop /Block/Stmt:2", "0 ok 3\n"),
            Step::Tree(5, 4),
        ],
    },
];

/// The value of the sum is posted, which needs 17 turns: it comes to eight other instances, each of which a turn adds and
/// another one takes off.
const POST: Step = Step::Line("0 post /Block/Stmt:1/Expr value()", "0 open 1\n");

/// The use of `x` is marked.
const MARK: Step = Step::Line("0 mark u /Block/Stmt:1/Expr/Left", "0 ok 0\n");

/// Whether the step is taken as it says; what has to be appended is noted.
fn is_taken(
    rt: &impl Abort,
    alloc: Global,
    engine: &mut Engine<KeepRecorded>,
    step: &Step,
    out: &mut Vec<u8>,
    told: &mut String,
) -> bool
    requires { IsReady engine.old }
    ensures { IsReady engine.new }
{
    match step {
        Step::Line(line, reply) => {
            engine.line(line.as_bytes(), out).expect(rt, "memory");
            told.push_str(reply).expect(rt, "memory");
            true
        }
        Step::Turn(is_open, reply) => {
            told.push_str(reply).expect(rt, "memory");
            engine.turn(out).expect(rt, "memory") == *is_open
        }
        Step::Posts(posts) => {
            post(rt, engine, *posts, out, told);
            true
        }
        Step::Given(number, turns) => engine.turns(*number) == *turns,
        Step::Tree(nodes, levels) => size(rt, alloc, engine) == (*nodes, *levels),
    }
}

/// How many nodes and levels a copy of the engine's tree has.
fn size(rt: &impl Abort, alloc: Global, engine: &Engine<KeepRecorded>) -> (usize, usize)
    requires { IsReady engine.now }
{
    let store = engine.tree();
    let tree = store.tree_of(alloc, store.root()).expect(rt, "memory");
    (nodes(&tree), depth(&tree))
}

/// Posts so many questions of session 0.
fn post(
    rt: &impl Abort,
    engine: &mut Engine<KeepRecorded>,
    posts: u32,
    out: &mut Vec<u8>,
    told: &mut String,
)
    requires { IsReady engine.old }
    ensures { IsReady engine.new }
{
    for i in 1..=posts {
        engine.line(b"0 post / circ()", out).expect(rt, "memory");
        write!(told, "0 open {i}\n").expect(rt, "memory");
    }
}

/// The first step that a fresh engine doesn't take as it says, where there is one. All that is appended stands in one output.
fn first_wrong(rt: &impl Abort, alloc: Global, steps: &[Step]) -> Option<usize> {
    let mut engine = calculator(rt, alloc);
    let mut out = Vec::new(alloc);
    let mut told = String::new(alloc);
    for (at, step) in steps.iter().enumerate() {
        let is_taken = is_taken(rt, alloc, &mut engine, step, &mut out, &mut told);
        if !is_taken || out.as_slice() != told.as_bytes() {
            return Some(at);
        }
    }
    None
}

#[test]
fn lines_and_turns_are_taken_one_by_one(rt: HostRuntime) {
    for script in SCRIPTS {
        let wrong = first_wrong(&rt, rt.alloc(), script.steps);
        holds_for(&rt, script.name, wrong.is_none());
    }
}
