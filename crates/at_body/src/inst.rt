//! Instances: attributes of nodes, with arguments.

ghost use Rattle.std.specs.Prelude.{◌≡◌, [], IfOk, IsTrue, map};
ghost use Rattle.std.specs.Cmp.Lexicographic.{pointwise};
ghost use Rattle.std.specs.Hash as fed;
ghost use Rattle.std.specs.List.{fold};
ghost use Rattle.at_body.specs.Same.{place_number, same_value, value_writes};
ghost use Rattle.at_body.specs.Values.{value_view};

use super::arguments::Arguments;
use super::value::Value;
use at_rules::AttrId;
use at_store::Node;
use std::alloc::{AllocError, Global};
use std::hash::{Hash, Hasher};
use std::marker::Model;

/// The question for an attribute of a node, with arguments: texts, nodes and null.
#[derive(Debug)]
pub struct Inst {
    node: Node,
    attribute: AttrId,
    arguments: Arguments,
}

/// One call, where each exit that lets it go would else have a case for each field.
impl Drop for Inst {
    fn drop(self) {
        let Inst {
            node: _,
            attribute: _,
            arguments: _,
        } = self;
    }
}

impl Model for Inst {
    ghost use Rattle.std.specs.Prelude.{ℕ, map};
    ghost use Rattle.at_model.specs.Run.{Instance};
    ghost use Rattle.at_body.specs.Values.{value_view};

    ghost Value = { Instance ℕ };

    ghost view = { λ i. record { node = i.node; attribute = i.attribute; arguments = map value_view i.arguments } };
}

impl Inst {
    /// The instance of an attribute at a node, with these arguments.
    pub fn new(node: Node, attribute: AttrId, arguments: Arguments) -> Self
        ensures { result ≡ record { node = node; attribute = attribute; arguments = map value_view arguments } }
    {
        Inst {
            node,
            attribute,
            arguments,
        }
    }

    /// The node.
    pub fn node(&self) -> Node
        ensures { result ≡ self.now.node }
    {
        self.node
    }

    /// The attribute.
    pub fn attribute(&self) -> AttrId
        ensures { result ≡ self.now.attribute }
    {
        self.attribute
    }

    // The attribute and the node in one number, which a hash is made from.
    fn place(&self) -> u64
        ensures { result ≡ place_number self.now }
    {
        (self.attribute.index() as u64) << 32 ^ u64::from(self.node.number())
    }

    /// The arguments, in order.
    pub fn arguments(&self) -> &[Value]
        ensures { map value_view result.now ≡ self.now.arguments }
    {
        self.arguments.as_slice()
    }

    /// The arguments once more, shared with the instance. An error where memory is wanting.
    pub fn shared_arguments(&self) -> Result<Arguments, AllocError>
        ensures { IfOk result (λ vs. map value_view vs ≡ self.now.arguments) }
    {
        self.arguments.share()
    }

    /// The instance once more. An error where memory is wanting.
    pub fn copy(&self, _alloc: Global) -> Result<Inst, AllocError>
        ensures { IfOk result (λ i. i ≡ self.now) }
    {
        Ok(Inst {
            node: self.node,
            attribute: self.attribute,
            arguments: self.arguments.share()?,
        })
    }
}

// Whether both have none, as is seen at once.
#[inline(always)]
fn are_none(passed: &Arguments, others: &Arguments) -> bool
    ensures passed { IsTrue result → passed.now ≡ [] }
    ensures others { IsTrue result → others.now ≡ [] }
{
    if !passed.is_none() {
        return false;
    }
    others.is_none()
}

// Whether arguments are the same.
fn are_each_same(passed: &[Value], others: &[Value]) -> bool
    ensures { result ≡ pointwise (λ v w. same_value (value_view v) (value_view w)) passed.now others.now }
{
    passed == others
}

// The same of arguments that there are. Apart, so that what has none is compared with no frame.
#[inline(never)]
fn are_all_same(passed: &Arguments, others: &Arguments) -> bool
    ensures { result ≡ pointwise (λ v w. same_value (value_view v) (value_view w)) passed.now others.now }
{
    are_each_same(passed.as_slice(), others.as_slice())
}

// Whether the arguments are the same. Of most attributes nothing more is to be compared.
#[inline(always)]
fn are_same(passed: &Arguments, others: &Arguments) -> bool
    ensures { result ≡ pointwise (λ v w. same_value (value_view v) (value_view w)) passed.now others.now }
{
    if are_none(passed, others) {
        return true;
    }
    are_all_same(passed, others)
}

// Feeds arguments, of which most attributes have none.
#[inline(never)]
fn feed<H: Hasher>(passed: &[Value], state: &mut H)
    ensures { state.new ≡ fold H.write state.old (fed.slice (λ v. value_writes (value_view v)) passed.now) }
{
    passed.hash(state);
}

impl PartialEq for Inst {
    ghost use Rattle.std.specs.Cmp.{partial_equiv_from_equiv};
    ghost use Rattle.at_body.specs.Same.{same_instance};
    ghost use Rattle.at_body.specs.Sameness.{instances_equiv};

    ghost eq = { same_instance };

    ghost laws = { partial_equiv_from_equiv instances_equiv };

    // Apart: inlined, it would part look-ups from those who call them.
    #[inline(never)]
    fn eq(&self, other: &Inst) -> bool {
        if self.node != other.node || self.attribute != other.attribute {
            return false;
        }
        are_same(&self.arguments, &other.arguments)
    }
}

impl Eq for Inst {
    ghost use Rattle.at_body.specs.Sameness.{instances_equiv};

    ghost laws = { instances_equiv };
}

impl Hash for Inst {
    ghost use Rattle.at_body.specs.Same.{instance_writes};
    ghost use Rattle.at_body.specs.Sameness.{instances_fed};

    ghost hash_input = { instance_writes };

    ghost respects_eq = { instances_fed.fed };

    fn hash<H: Hasher>(&self, state: &mut H) {
        self.place().hash(state);
        let passed = self.arguments.as_slice();
        // Of most attributes nothing more is to be fed.
        if !passed.is_empty() {
            feed(passed, state);
        }
    }
}
