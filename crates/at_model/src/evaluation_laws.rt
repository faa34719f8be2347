//! Laws of evaluation: each is the contract of a function that does nothing.

ghost use Rattle.std.specs.Prelude.{◌≡◌, ◌≤◌, ◌<◌, ◌↔◌, ℕ, length, Option, Some, true};
ghost use Rattle.at_model.specs.Paths.{Node, tree_at};
ghost use Rattle.at_model.specs.Run.{Contents, FaultKind, Faulted, Instance, Known, Location, demands, has_ended, reads, tried};
ghost use Rattle.at_model.specs.Meaning.{Among, Comes, Equations, Faults, HasValue, Holds, Leads, Right};
ghost use Rattle.at_model.specs.Support.{Sees};
ghost use Rattle.at_model.specs.Trees.{Tree, depth};
ghost use Rattle.at_model.specs.Terms.{max_depth};
ghost use Rattle.at_model.specs.Edits.{is_within_limits};

/// The place of a fault is an instance that the question leads to, and whose own equation has the fault,
/// over values that hold.
pub fn a_fault_is_where_its_equation_fails()
    ensures { (look : Contents Node) (equation : Equations Node) (q i : Instance Node) (f : FaultKind) → Holds look equation q (Faults f i)
        → Leads look equation q i × ((known : Known Node) × Right look equation known × (tried look known (equation i) ≡ Faulted f)) }
{}

/// Over values that hold, a try reads just what the evaluation sees up to where the try ends, and demands just
/// the instances that the evaluation comes to.
pub fn a_try_reads_what_is_seen()
    ensures some { (look : Contents Node) (equation : Equations Node) (known : Known Node) (i : Instance Node) (l : Location Node) → Right look equation known
        → Among l (reads look known (equation i)) → Sees look (HasValue look equation) (equation i) l }
    ensures all { (look : Contents Node) (equation : Equations Node) (known : Known Node) (i : Instance Node) (l : Location Node) → Right look equation known
        → has_ended (tried look known (equation i)) ≡ true → Among l (reads look known (equation i)) ↔ Sees look (HasValue look equation) (equation i) l }
    ensures demanded { (look : Contents Node) (equation : Equations Node) (known : Known Node) (i j : Instance Node) → Right look equation known
        → Among j (demands look known (equation i)) → Comes look equation i j }
    ensures each { (look : Contents Node) (equation : Equations Node) (known : Known Node) (i j : Instance Node) → Right look equation known
        → has_ended (tried look known (equation i)) ≡ true → Among j (demands look known (equation i)) ↔ Comes look equation i j }
{}

/// Fewer nodes stand above a node than the tree is deep: in a tree within the limits fewer than those among
/// which an inherited equation is looked for.
pub fn a_node_is_within_the_depth()
    ensures tree { (t : Tree) (n : Node) (u : Tree) → tree_at t n ≡ Some u → length n < depth t }
    ensures limit { (t : Tree) (n : Node) (u : Tree) → is_within_limits t ≡ true → tree_at t n ≡ Some u → length n ≤ max_depth }
{}
