//! Laws of lists of nodes: each is the contract of a function that does nothing.

ghost use Rattle.std.specs.Prelude.{◌≡◌, ◌≤◌, ◌↔◌, length, List};
ghost use Rattle.at_model.specs.Bodies.{Close, fold_in, nodes_of};
ghost use Rattle.at_model.specs.Paths.{Node, node_eq};
ghost use Rattle.at_model.specs.Run.{Contents, FaultKind, Faulted, Instance, Known, Nodes, Run, Value, Valued, tried};
ghost use Rattle.at_model.specs.Rules.{Rules};
ghost use Rattle.at_model.specs.Meaning.{Among, Distinct, HasValue, equations};
ghost use Rattle.at_model.specs.Lists.{AreApart, IsApart, IsReached};

/// Whatever the rules are and the tree holds: in a list that is a value, each node stands once, where it does in the
/// lists among the arguments (of which a question has none).
pub fn each_node_stands_once()
    ensures { (rules : Rules) (look : Contents Node) (i : Instance Node) (v : Value Node) → AreApart i.arguments
        → HasValue look (equations rules) i v → IsApart v }
{}

/// The closure of nodes, where it has a value, is the list of just those that are reached.
pub fn what_is_reached_is_the_closure()
    ensures { (look : Contents Node) (known : Known Node) (what : Node → Run Node (Value Node)) (ns : List Node) (v : Value Node)
        → tried look known (fold_in node_eq Close what ns) ≡ Valued v
        → (ms : List Node) × (v ≡ Nodes ms) × ((n : Node) → Among n ms ↔ IsReached look known what ns n) }
{}

/// The closure of nodes fails only where what is asked of a node fails, where all that is given stands among at most as many
/// nodes as a tree may have.
pub fn a_closure_has_turns_enough()
    ensures { (look : Contents Node) (known : Known Node) (what : Node → Run Node (Value Node)) (all ns : List Node) (f : FaultKind)
        → length all ≤ 16777216 → Distinct ns → ((n : Node) → Among n ns → Among n all)
        → ((n : Node) (v : Value Node) → Among n all → tried look known (what n) ≡ Valued v → (m : Node) → Among m (nodes_of v) → Among m all)
        → tried look known (fold_in node_eq Close what ns) ≡ Faulted f
        → (n : Node) × Among n all × (tried look known (what n) ≡ Faulted f) }
{}
