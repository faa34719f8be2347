//! A search for components: a path of groups, in each of which each node leads to each, and each group leads to the next.

ghost use Rattle.std.specs.Prelude.{Vec, ◌≡◌, ◌⊎◌, ℕ, ◌+◌, ◌<◌, ◌≤◌, ◌++◌, List, [], drop, false, length, slice_get, replicate, take, IfNone, IfOk, IfSome, OnOk};
ghost use Rattle.at_model.specs.Meaning.{Among};
ghost use Rattle.at_solve.specs.Components.{listed_at};
ghost use Rattle.at_solve.specs.declared.search.Mark.TheVariants.{Unmet, Listed};
ghost use Rattle.at_solve.specs.Searching.{At, HasListed, HasMerged, IsFound, LeadsFromLast, Searches, StayMet, is_unmet, mark_at, weight};

use std::alloc::{AllocError, Global};

/// What is known of a node.
#[derive(Clone, Copy)]
pub enum Mark {
    /// Nothing yet.
    Unmet,
    /// It stands on the path, at this place.
    OnPath(usize),
    /// It is in a component that was found.
    Listed,
}

/// From where on the nodes of a group stand on the path, and what they lead to among what is still to be looked at.
#[derive(Clone, Copy)]
pub struct Group {
    pub nodes: usize,
    pub todo: usize,
}

/// How far a search has come. The last group is the one that is looked at.
#[derive(Drop)]
pub struct Search {
    marks: Vec<Mark>,
    path: Vec<usize>,
    todo: Vec<usize>,
    groups: Vec<Group>,
    lists: Vec<Vec<usize>>,
}

impl Search {
    // Nothing is known of so many nodes.
    pub fn new(alloc: Global, count: usize) -> Result<Search, AllocError>
        ensures searches { (edges : List (Vec ℕ Global)) → length edges ≡ count → IfOk result (Searches edges (λ w. ⊥)) }
        ensures groups { IfOk result (λ s. s.groups.items ≡ []) }
    {
        Ok(Search {
            marks: unmet(alloc, count)?,
            path: Vec::new(alloc),
            todo: Vec::new(alloc),
            groups: Vec::new(alloc),
            lists: Vec::new(alloc),
        })
    }

    // Searches from the node, if it wasn't met, until no group is left.
    pub fn begin_at(
        &mut self,
        alloc: Global,
        edges: &[Vec<usize>],
        node: usize,
    ) -> Result<(), AllocError>
        requires searches { Searches edges.now (λ w. ⊥) self.old }
        requires groups { self.old.groups.items ≡ [] }
        ensures searches { OnOk result (Searches edges.now (λ w. ⊥) self.new) }
        ensures groups { OnOk result (self.new.groups.items ≡ []) }
        ensures met { OnOk result (StayMet self.old self.new) }
        ensures node { OnOk result (is_unmet (mark_at self.new.marks.items node) ≡ false) }
    {
        if !is_unmet(&self.mark_of(node)) {
            return Ok(());
        }
        self.enter(edges, node)?;
        while let Some(group) = self.last_group() {
            self.step(alloc, edges, group)?;
        }
        Ok(())
    }

    // The lists that were found.
    pub fn into_lists(self) -> Vec<Vec<usize>>
        ensures { result.items ≡ self.lists.items }
    {
        let Search {
            marks: _,
            path: _,
            todo: _,
            groups: _,
            lists,
        } = self;
        lists
    }

    // The group that is looked at.
    fn last_group(&self) -> Option<Group>
        ensures some { IfSome result (λ g. (k : ℕ) × At self.now.groups.items k g × (length self.now.groups.items ≡ k + 1)) }
        ensures none { IfNone result (self.now.groups.items ≡ []) }
    {
        let group = self.groups.last()?;
        Some(*group)
    }

    // Looks at what the last group leads to next; where there is nothing left it is a component.
    fn step(&mut self, alloc: Global, edges: &[Vec<usize>], group: Group) -> Result<(), AllocError>
        requires searches { Searches edges.now (λ w. ⊥) self.old }
        requires last { (k : ℕ) × At self.old.groups.items k group × (length self.old.groups.items ≡ k + 1) }
        ensures searches { OnOk result (Searches edges.now (λ w. ⊥) self.new) }
        ensures met { OnOk result (StayMet self.old self.new) }
        ensures less { OnOk result (weight edges.now self.new < weight edges.now self.old) }
    {
        if self.todo.len() <= group.todo {
            return self.leave(group);
        }
        let Some(node) = self.todo.pop() else {
            return Ok(());
        };
        self.look_at(edges, node)
    }

    // Looks at a node to which the last group leads.
    fn look_at(&mut self, edges: &[Vec<usize>], node: usize) -> Result<(), AllocError>
        requires searches { Searches edges.now (λ w. w ≡ node) self.old }
        requires lead { LeadsFromLast edges.now self.old.path.items self.old.groups.items node }
        ensures searches { OnOk result (Searches edges.now (λ w. ⊥) self.new) }
        ensures met { OnOk result (StayMet self.old self.new) }
        ensures less { OnOk result (weight edges.now self.new ≤ weight edges.now self.old) }
    {
        match self.mark_of(node) {
            Mark::Unmet => self.enter(edges, node),
            Mark::OnPath(place) => {
                self.merge(place);
                Ok(())
            }
            Mark::Listed => Ok(()),
        }
    }

    // One more group, of a node that wasn't met.
    fn enter(&mut self, edges: &[Vec<usize>], node: usize) -> Result<(), AllocError>
        requires searches { Searches edges.now (λ w. w ≡ node) self.old }
        requires unmet { At self.old.marks.items node Unmet }
        requires lead { LeadsFromLast edges.now self.old.path.items self.old.groups.items node }
        ensures searches { OnOk result (Searches edges.now (λ w. ⊥) self.new) }
        ensures met { OnOk result (StayMet self.old self.new) }
        ensures node { OnOk result (is_unmet (mark_at self.new.marks.items node) ≡ false) }
        ensures less { OnOk result (weight edges.now self.new + 1 ≤ weight edges.now self.old) }
    {
        let place = self.path.len();
        let group = Group {
            nodes: place,
            todo: self.todo.len(),
        };
        self.groups.push(group)?;
        self.path.push(node)?;
        self.marks[node] = Mark::OnPath(place);
        self.add_targets(targets_of(edges, node))?;
        Ok(())
    }

    // What the node leads to is to be looked at.
    fn add_targets(&mut self, targets: &[usize]) -> Result<(), AllocError>
        ensures todo { OnOk result (self.new.todo.items ≡ self.old.todo.items ++ targets.now) }
        ensures marks { self.new.marks.items ≡ self.old.marks.items }
        ensures path { self.new.path.items ≡ self.old.path.items }
        ensures groups { self.new.groups.items ≡ self.old.groups.items }
        ensures lists { self.new.lists.items ≡ self.old.lists.items }
    {
        for target in targets {
            self.todo.push(*target)?;
        }
        Ok(())
    }

    // The last groups, down to the one that has the place, are one.
    fn merge(&mut self, place: usize)
        ensures groups { HasMerged place self.old.groups.items self.new.groups.items }
        ensures marks { self.new.marks.items ≡ self.old.marks.items }
        ensures path { self.new.path.items ≡ self.old.path.items }
        ensures todo { self.new.todo.items ≡ self.old.todo.items }
        ensures lists { self.new.lists.items ≡ self.old.lists.items }
    {
        let count = count_to(self.groups.as_slice(), place);
        self.groups.truncate(count);
    }

    // The nodes of the group are a component.
    fn leave(&mut self, group: Group) -> Result<(), AllocError>
        requires last { (k : ℕ) × At self.old.groups.items k group × (length self.old.groups.items ≡ k + 1) }
        requires nothing { length self.old.todo.items ≤ group.todo }
        requires nodes { group.nodes ≤ length self.old.path.items }
        ensures searches { (edges : List (Vec ℕ Global)) → Searches edges (λ w. ⊥) self.old → OnOk result (Searches edges (λ w. ⊥) self.new) }
        ensures met { (edges : List (Vec ℕ Global)) → Searches edges (λ w. ⊥) self.old → OnOk result (StayMet self.old self.new) }
        ensures less { (edges : List (Vec ℕ Global)) → Searches edges (λ w. ⊥) self.old
            → OnOk result (weight edges self.new < weight edges self.old) }
    {
        let nodes = self.path.split_off(group.nodes)?;
        self.mark_listed(nodes.as_slice());
        self.lists.push(nodes)?;
        let left = self.groups.len().saturating_sub(1);
        self.groups.truncate(left);
        Ok(())
    }

    // These are in a component.
    fn mark_listed(&mut self, nodes: &[usize])
        ensures listed { HasListed nodes.now self.old.marks.items self.new.marks.items }
        ensures path { self.new.path.items ≡ self.old.path.items }
        ensures todo { self.new.todo.items ≡ self.old.todo.items }
        ensures groups { self.new.groups.items ≡ self.old.groups.items }
        ensures lists { self.new.lists.items ≡ self.old.lists.items }
    {
        for node in nodes {
            self.list(*node);
        }
    }

    // It is in a component, if there is such a node.
    fn list(&mut self, node: usize)
        ensures size { length self.new.marks.items ≡ length self.old.marks.items }
        ensures listed { node < length self.old.marks.items → At self.new.marks.items node Listed }
        ensures others { (u : ℕ) → (u ≡ node → ⊥) → slice_get self.new.marks.items u ≡ slice_get self.old.marks.items u }
        ensures path { self.new.path.items ≡ self.old.path.items }
        ensures todo { self.new.todo.items ≡ self.old.todo.items }
        ensures groups { self.new.groups.items ≡ self.old.groups.items }
        ensures lists { self.new.lists.items ≡ self.old.lists.items }
    {
        if node >= self.marks.len() {
            return;
        }
        self.marks[node] = Mark::Listed;
    }

    // What is known of the node; of what is none it is as if it was listed.
    fn mark_of(&self, node: usize) -> Mark
        ensures { result ≡ mark_at self.now.marks.items node }
    {
        match self.marks.get(node) {
            Some(mark) => *mark,
            None => Mark::Listed,
        }
    }
}

// Whether nothing is known.
fn is_unmet(mark: &Mark) -> bool
    ensures { result ≡ is_unmet mark.now }
{
    matches!(mark, Mark::Unmet)
}

// What edges lead to from the node, nothing behind the last one.
fn targets_of(edges: &[Vec<usize>], node: usize) -> &[usize]
    ensures { result.now ≡ listed_at edges.now node }
{
    match edges.get(node) {
        Some(targets) => targets,
        None => &[],
    }
}

// How many groups there are up to the last one that begins at or before the place.
fn count_to(groups: &[Group], place: usize) -> usize
    ensures most { result ≤ length groups.now }
    ensures gone { (l : ℕ) (g : Group) → result ≤ l → At groups.now l g → place < g.nodes }
    ensures last { (result ≡ 0) ⊎ ((j : ℕ) × (g : Group) × (result ≡ j + 1) × At groups.now j g × (g.nodes ≤ place)) }
{
    let mut count = groups.len();
    while count > 0 {
        if groups[count - 1].nodes <= place {
            return count;
        }
        count -= 1;
    }
    0
}

// So many nodes of which nothing is known.
fn unmet(alloc: Global, count: usize) -> Result<Vec<Mark>, AllocError>
    ensures { IfOk result (λ v. v.items ≡ replicate count Unmet) }
{
    let mut marks = Vec::new(alloc);
    for position in 0..count {
        marks.push(Mark::Unmet)?;
    }
    Ok(marks)
}
