//! Folds over elements that are looked for by a key, in an evaluation in one go.

ghost use Rattle.std.specs.Prelude.{length};
ghost use Rattle.at_model.specs.Seeking.{is_in_drawer, those};
ghost use Rattle.at_class.specs.Keys.{key_view};
ghost use Rattle.at_store.specs.Shown.{contents};
ghost use Rattle.at_rules.specs.Bodies.{body_view};
ghost use Rattle.at_body.specs.Rest.{over};
ghost use Rattle.at_body.specs.Values.{value_view};
ghost use Rattle.at_evaluate.specs.Parts.{search_of};
ghost use Rattle.at_evaluate.specs.Place.{place_at};
ghost use Rattle.at_evaluate.specs.InParts.{EvaluatesTo, IsHeld, held_by};

use super::{asked_inside, inner_of_each};
use crate::applying::node_of;
use crate::basis::Basis;
use crate::direct::{Direct, Level};
use crate::folding::{Next, settle};
use crate::here::Here;
use crate::stop::Stop;
use at_body::{Fold, Value, come_to, mark_at};
use at_cache::Keeper;
use at_class::Key;
use at_rules::{Body, Lookup};
use at_store::{Loc, Node};

impl Direct {
    // A fold over the elements in a component of a node that are looked for: just these are looked at as one location.
    #[inline(never)]
    #[cycle(direct)]
    pub(super) fn under<K: Keeper>(
        &mut self,
        keeper: &mut K,
        basis: &Basis<'_>,
        level: &mut Level,
        here: &Here,
        fold: Fold,
        of: &Body,
        lookup: &Lookup,
        body: &Body,
        above: usize,
    ) -> Result<Value, Stop>
        requires { IsHeld basis.now.rules.now (contents basis.now.store.now) (held_by K.contents K.memories keeper.old self.old) }
        ensures { EvaluatesTo basis.now.rules.now basis.now.store.now
            (search_of basis.now.rules.now.classes (place_at here.now) fold of.now lookup.now body.now) value_view
            (held_by K.contents K.memories keeper.old self.old) (held_by K.contents K.memories keeper.new self.new) level.old level.new result }
    {
        let value = self.operand(keeper, basis, level, here, of, above)?;
        let node = node_of(&value)?;
        let mark = mark_at(&here.bound, here.arguments.as_slice(), &lookup.sought);
        level
            .reads
            .push(Loc::drawer(node, lookup.part, lookup.key, mark))?;
        self.each_under(
            keeper,
            basis,
            level,
            here,
            fold,
            body,
            lookup.key,
            mark,
            basis.store.children(node, lookup.part as usize),
            above,
        )
    }

    // A fold over those of these nodes that stand under the mark.
    #[cycle(direct)]
    fn each_under<K: Keeper>(
        &mut self,
        keeper: &mut K,
        basis: &Basis<'_>,
        level: &mut Level,
        here: &Here,
        fold: Fold,
        body: &Body,
        key: Key,
        mark: u32,
        nodes: &[Node],
        above: usize,
    ) -> Result<Value, Stop>
        requires { IsHeld basis.now.rules.now (contents basis.now.store.now) (held_by K.contents K.memories keeper.old self.old) }
        ensures { EvaluatesTo basis.now.rules.now basis.now.store.now
            (over basis.now.rules.now.classes fold (body_view body.now) (place_at here.now)
            (those (is_in_drawer (contents basis.now.store.now) (key_view key) mark) nodes.now)) value_view
            (held_by K.contents K.memories keeper.old self.old) (held_by K.contents K.memories keeper.new self.new) level.old level.new result }
    {
        let asked = inner_of_each(basis, here, body);
        let mut inside = here.copy()?;
        let mut going = fold;
        let mut rest = nodes;
        while let Some(found) = basis.store.next_under(rest, key, mark) {
            let node = found.0;
            inside.bound.push(node)?;
            let asked_here = asked_inside(basis, here, &inside, body, node, &asked);
            let value = self.element(
                keeper,
                basis,
                level,
                &inside,
                body,
                node,
                &asked_here,
                above,
            )?;
            let _ = inside.bound.pop();
            let next = settle(going, node, &value)?;
            match next {
                Next::On(further) => going = further,
                Next::End(value) => return Ok(value),
            }
            rest = found.1;
        }
        Ok(come_to(&going))
    }
}
