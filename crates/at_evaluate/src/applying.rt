//! What is done with one value and with two, in an evaluation in one go. It gives up at a value of another kind and at each fault.

ghost use Rattle.std.specs.Prelude.{◌≡◌, ◌++◌, ◌+◌, IfOk, IsTrue, Some, bytes_eq, length, nat_eq, nat_le, not, string_bytes};
ghost use Rattle.std.specs.Fmt.{signed_decimal};
ghost use Rattle.std.specs.Int.{int_wrapping_neg, w32};
ghost use Rattle.at_model.specs.Run.{Gives, Int, Ref, Truth};
ghost use Rattle.at_model.specs.Bodies.{cast_to, child_of, computed, count_of, element_at, element_of, has_of, int_of, is_in_order, is_instance, joined};
ghost use Rattle.at_model.specs.Bodies.{max_text, passed, ref_of, text_of, token_of, truth_of, value_eq};
ghost use Rattle.at_store.specs.Shown.{IsIdle, contents};
ghost use Rattle.at_rules.specs.Bodies.{operator_view, order_view};
ghost use Rattle.at_body.specs.Rest.{with_one, with_two};
ghost use Rattle.at_body.specs.ValueKinds.{AreAlike, IsInt, IsRef, IsText, IsTruth};
ghost use Rattle.at_body.specs.Values.{value_view};
ghost use Rattle.at_evaluate.specs.Looking.{HasLooked};

use crate::stop::Stop;
use at_body::{Binary, Reads, Unary, Value};
use at_class::ClassId;
use at_rules::{Operator, Order, Rules};
use at_store::{Loc, Node, Store};
use itoa::Buffer;

// The most bytes that a text has.
const MAX_TEXT: usize = 65535;

/// What is done with one value; each location that it looks at stands behind the reads. Gives up at a value of another kind and where the model
/// has a fault: at null where a node is wanted, at a child that isn't there, at a cast to a class of which the node isn't. Or memory is wanting.
#[inline(always)]
pub fn with_one(
    rules: &Rules,
    store: &Store,
    reads: &mut Reads,
    unary: Unary,
    value: &Value,
) -> Result<Value, Stop>
    requires idle { IsIdle store.now }
    ensures { IfOk result (λ v. HasLooked (contents store.now) reads.old reads.new (with_one rules.now.classes unary (value_view value.now)) (value_view v)) }
{
    match unary {
        Unary::Negate => negated(value),
        Unary::Not => turned(value),
        Unary::InstanceOf(class) => instance_of(rules, store, reads, class, value),
        Unary::CastTo(class) => cast_to(rules, store, reads, class, value),
        Unary::Child(part) => child(store, reads, part, value),
        Unary::Count(part) => count(store, reads, part, value),
        Unary::Has(part) => has(store, reads, part, value),
        Unary::Token(part) => token(store, reads, part, value),
        Unary::Passed => passed(value),
    }
}

// The int with the sign turned.
fn negated(value: &Value) -> Result<Value, Stop>
    ensures { IfOk result (λ v. value_view v ≡ Int (int_wrapping_neg w32 (int_of (value_view value.now)))) }
{
    if is_int(value) {
        return Ok(value.negated());
    }
    Err(Stop::GivesUp)
}

// The other truth value.
fn turned(value: &Value) -> Result<Value, Stop>
    ensures { IfOk result (λ v. value_view v ≡ Truth (not (truth_of (value_view value.now)))) }
{
    if is_truth(value) {
        return Ok(Value::Bool(!value.truth()));
    }
    Err(Stop::GivesUp)
}

// Whether it is a node of that class or below.
fn instance_of(
    rules: &Rules,
    store: &Store,
    reads: &mut Reads,
    class: ClassId,
    value: &Value,
) -> Result<Value, Stop>
    requires idle { IsIdle store.now }
    ensures { IfOk result (λ v. HasLooked (contents store.now) reads.old reads.new
        (is_instance rules.now.classes class (ref_of (value_view value.now))) (value_view v)) }
{
    match value {
        Value::Ref(node) => is_node_of(rules, store, reads, class, *node),
        _ => Err(Stop::GivesUp),
    }
}

// Whether it is a node of that class or below, and not null.
fn is_node_of(
    rules: &Rules,
    store: &Store,
    reads: &mut Reads,
    class: ClassId,
    node: Option<Node>,
) -> Result<Value, Stop>
    requires idle { IsIdle store.now }
    ensures { IfOk result (λ v. HasLooked (contents store.now) reads.old reads.new (is_instance rules.now.classes class node) (value_view v)) }
{
    match node {
        Some(node) => {
            reads.push(Loc::Is(node))?;
            Ok(Value::Bool(rules.classes().is_sub(store.class(node), class)))
        }
        None => Ok(Value::Bool(false)),
    }
}

// The node of that class or below, or null.
fn cast_to(
    rules: &Rules,
    store: &Store,
    reads: &mut Reads,
    class: ClassId,
    value: &Value,
) -> Result<Value, Stop>
    requires idle { IsIdle store.now }
    ensures { IfOk result (λ v. HasLooked (contents store.now) reads.old reads.new
        (cast_to rules.now.classes class (ref_of (value_view value.now))) (value_view v)) }
{
    match value {
        Value::Ref(node) => node_as(rules, store, reads, class, *node),
        _ => Err(Stop::GivesUp),
    }
}

// The node, where it is of that class or below, or null.
fn node_as(
    rules: &Rules,
    store: &Store,
    reads: &mut Reads,
    class: ClassId,
    node: Option<Node>,
) -> Result<Value, Stop>
    requires idle { IsIdle store.now }
    ensures { IfOk result (λ v. HasLooked (contents store.now) reads.old reads.new (cast_to rules.now.classes class node) (value_view v)) }
{
    match node {
        Some(node) => {
            reads.push(Loc::Is(node))?;
            if rules.classes().is_sub(store.class(node), class) {
                return Ok(Value::Ref(Some(node)));
            }
            Err(Stop::GivesUp)
        }
        None => Ok(Value::Ref(None)),
    }
}

// The child.
#[inline(always)]
fn child(store: &Store, reads: &mut Reads, part: usize, value: &Value) -> Result<Value, Stop>
    requires idle { IsIdle store.now }
    ensures { IfOk result (λ v. HasLooked (contents store.now) reads.old reads.new (child_of part (value_view value.now)) (value_view v)) }
{
    let node = node_of(value)?;
    reads.push(Loc::Slot(node, part))?;
    match store.child(node, part) {
        Some(child) => Ok(Value::Ref(Some(child))),
        None => Err(Stop::GivesUp),
    }
}

// How many nodes are in a component.
fn count(store: &Store, reads: &mut Reads, part: usize, value: &Value) -> Result<Value, Stop>
    requires idle { IsIdle store.now }
    ensures { IfOk result (λ v. HasLooked (contents store.now) reads.old reads.new (count_of part (value_view value.now)) (value_view v)) }
{
    let node = node_of(value)?;
    reads.push(Loc::Slot(node, part))?;
    Ok(Value::of_count(store.children(node, part).len()))
}

// Whether there is a node in a component.
fn has(store: &Store, reads: &mut Reads, part: usize, value: &Value) -> Result<Value, Stop>
    requires idle { IsIdle store.now }
    ensures { IfOk result (λ v. HasLooked (contents store.now) reads.old reads.new (has_of part (value_view value.now)) (value_view v)) }
{
    let node = node_of(value)?;
    reads.push(Loc::Slot(node, part))?;
    Ok(Value::Bool(store.children(node, part).len() > 0))
}

// The token.
#[inline(always)]
fn token(store: &Store, reads: &mut Reads, part: usize, value: &Value) -> Result<Value, Stop>
    requires idle { IsIdle store.now }
    ensures { IfOk result (λ v. HasLooked (contents store.now) reads.old reads.new (token_of part (value_view value.now)) (value_view v)) }
{
    let node = node_of(value)?;
    reads.push(Loc::Tok(node, part))?;
    Ok(Value::of_token(store.token(node, part))?)
}

/// What is done with two values; each location that it looks at stands behind the reads. Gives up at a value of another kind and where the model
/// has a fault: at null, at a division by zero, at an index of no element, at a text of over 65,535 bytes. Or memory is wanting.
#[inline(always)]
pub fn with_two(
    store: &Store,
    reads: &mut Reads,
    binary: Binary,
    left: Value,
    right: &Value,
) -> Result<Value, Stop>
    requires idle { IsIdle store.now }
    ensures { IfOk result (λ v. HasLooked (contents store.now) reads.old reads.new (with_two binary (value_view left) (value_view right.now)) (value_view v)) }
{
    match binary {
        Binary::Arithmetic(operator) => arithmetic(operator, &left, right),
        Binary::Compare(order) => compared(order, &left, right),
        Binary::Join => join(left, right),
        Binary::JoinInt => join_int(left, right),
        Binary::Same => same(&left, right),
        Binary::Differ => differ(&left, right),
        Binary::Equals => equals(&left, right),
        Binary::Element(part) => element(store, reads, part, &left, right),
    }
}

// What an operator gives for two ints.
fn arithmetic(operator: Operator, left: &Value, right: &Value) -> Result<Value, Stop>
    ensures { IfOk result (λ v. computed (operator_view operator) (int_of (value_view left.now)) (int_of (value_view right.now)) ≡ Gives (value_view v)) }
{
    if !is_int(left) {
        return Err(Stop::GivesUp);
    }
    if !is_int(right) {
        return Err(Stop::GivesUp);
    }
    computed(operator, left.int(), right.int())
}

// The value, where it may be passed.
fn passed(value: &Value) -> Result<Value, Stop>
    ensures { IfOk result (λ v. passed (value_view value.now) ≡ Gives (value_view v)) }
{
    if value.may_pass() {
        return Ok(value.copy()?);
    }
    Err(Stop::GivesUp)
}

// What an operator gives.
fn computed(operator: Operator, left: i32, right: i32) -> Result<Value, Stop>
    ensures { IfOk result (λ v. computed (operator_view operator) left right ≡ Gives (value_view v)) }
{
    match operator {
        Operator::Multiply => Ok(Value::Int(left.wrapping_mul(right))),
        Operator::Add => Ok(Value::Int(left.wrapping_add(right))),
        Operator::Subtract => Ok(Value::Int(left.wrapping_sub(right))),
        Operator::Divide => match right {
            0 => Err(Stop::GivesUp),
            divisor => Ok(Value::Int(left.wrapping_div(divisor))),
        },
        Operator::Remainder => match right {
            0 => Err(Stop::GivesUp),
            divisor => Ok(Value::Int(left.wrapping_rem(divisor))),
        },
    }
}

// Whether the comparison of two ints holds.
fn compared(order: Order, left: &Value, right: &Value) -> Result<Value, Stop>
    ensures { IfOk result (λ v. value_view v ≡ Truth (is_in_order (order_view order) (int_of (value_view left.now)) (int_of (value_view right.now)))) }
{
    if !is_int(left) {
        return Err(Stop::GivesUp);
    }
    if !is_int(right) {
        return Err(Stop::GivesUp);
    }
    Ok(Value::Bool(is_in_order(order, left.int(), right.int())))
}

// Whether the comparison holds.
fn is_in_order(order: Order, left: i32, right: i32) -> bool
    ensures { result ≡ is_in_order (order_view order) left right }
{
    match order {
        Order::Below => left < right,
        Order::AtMost => left <= right,
        Order::Above => right < left,
        Order::AtLeast => right <= left,
    }
}

// The texts behind each other.
fn join(left: Value, right: &Value) -> Result<Value, Stop>
    ensures { IfOk result (λ v. joined (text_of (value_view left) ++ text_of (value_view right.now)) ≡ Gives (value_view v)) }
{
    if !is_text(&left) {
        return Err(Stop::GivesUp);
    }
    if !is_text(right) {
        return Err(Stop::GivesUp);
    }
    joined(left.into_text()?, right.text())
}

// The text and the int in decimal.
fn join_int(left: Value, right: &Value) -> Result<Value, Stop>
    ensures { IfOk result (λ v. joined (text_of (value_view left) ++ signed_decimal (int_of (value_view right.now))) ≡ Gives (value_view v)) }
{
    if !is_text(&left) {
        return Err(Stop::GivesUp);
    }
    if !is_int(right) {
        return Err(Stop::GivesUp);
    }
    joined_int(left.into_text()?, right)
}

// The text and the int in decimal.
fn joined_int(left: String, right: &Value) -> Result<Value, Stop>
    requires { IsInt (value_view right.now) }
    ensures { IfOk result (λ v. joined (string_bytes left ++ signed_decimal (int_of (value_view right.now))) ≡ Gives (value_view v)) }
{
    let mut digits = Buffer::new();
    let number = right.int();
    joined(left, digits.format(number))
}

// The texts behind each other.
fn joined(left: String, right: &str) -> Result<Value, Stop>
    ensures { IfOk result (λ v. joined (string_bytes left ++ right.now) ≡ Gives (value_view v)) }
{
    if fits(left.as_str(), right) {
        let mut text = left;
        text.push_str(right)?;
        return Ok(Value::of_text(text)?);
    }
    Err(Stop::GivesUp)
}

// Whether the texts behind each other are no longer than a text may be.
fn fits(left: &str, right: &str) -> bool
    ensures { result ≡ nat_le (length left.now + length right.now) max_text }
{
    if left.len() > MAX_TEXT {
        return false;
    }
    right.len() <= MAX_TEXT - left.len()
}

// Whether both are equal.
fn same(left: &Value, right: &Value) -> Result<Value, Stop>
    ensures { IfOk result (λ v. value_view v ≡ Truth (value_eq nat_eq (value_view left.now) (value_view right.now))) }
{
    if are_alike(left, right) {
        return Ok(Value::Bool(left.is_same(right)));
    }
    Err(Stop::GivesUp)
}

// Whether both are not equal.
fn differ(left: &Value, right: &Value) -> Result<Value, Stop>
    ensures { IfOk result (λ v. value_view v ≡ Truth (not (value_eq nat_eq (value_view left.now) (value_view right.now)))) }
{
    if are_alike(left, right) {
        return Ok(Value::Bool(!left.is_same(right)));
    }
    Err(Stop::GivesUp)
}

// Whether both are the same text.
fn equals(left: &Value, right: &Value) -> Result<Value, Stop>
    ensures { IfOk result (λ v. value_view v ≡ Truth (bytes_eq (text_of (value_view left.now)) (text_of (value_view right.now)))) }
{
    if !is_text(left) {
        return Err(Stop::GivesUp);
    }
    if !is_text(right) {
        return Err(Stop::GivesUp);
    }
    Ok(Value::Bool(left.text() == right.text()))
}

// The element at an index.
fn element(
    store: &Store,
    reads: &mut Reads,
    part: usize,
    value: &Value,
    index: &Value,
) -> Result<Value, Stop>
    requires idle { IsIdle store.now }
    ensures { IfOk result (λ v. HasLooked (contents store.now) reads.old reads.new
        (element_of part (value_view value.now) (value_view index.now)) (value_view v)) }
{
    let node = node_of(value)?;
    if !is_int(index) {
        return Err(Stop::GivesUp);
    }
    reads.push(Loc::Slot(node, part))?;
    match element_at(store.children(node, part), index.int()) {
        Some(element) => Ok(Value::Ref(Some(element))),
        None => Err(Stop::GivesUp),
    }
}

// The node at an index.
fn element_at(nodes: &[Node], index: i32) -> Option<Node>
    ensures { result ≡ element_at nodes.now index }
{
    let index = usize::try_from(index).ok()?;
    nodes.get(index).copied()
}

/// The node to which the value refers. Gives up at null, and at a value of another kind.
pub fn node_of(value: &Value) -> Result<Node, Stop>
    ensures { IfOk result (λ n. value_view value.now ≡ Ref (Some n)) }
{
    match value {
        Value::Ref(node) => not_null(*node),
        _ => Err(Stop::GivesUp),
    }
}

// The node; it gives up at null.
fn not_null(node: Option<Node>) -> Result<Node, Stop>
    ensures { IfOk result (λ n. node ≡ Some n) }
{
    match node {
        Some(node) => Ok(node),
        None => Err(Stop::GivesUp),
    }
}

/// The truth value that it is. Gives up at a value of another kind.
pub fn truth_in(value: &Value) -> Result<bool, Stop>
    ensures { IfOk result (λ b. value_view value.now ≡ Truth b) }
{
    match value {
        Value::Bool(b) => Ok(*b),
        _ => Err(Stop::GivesUp),
    }
}

// Whether it is an int.
pub(crate) fn is_int(value: &Value) -> bool
    ensures { IsTrue result → IsInt (value_view value.now) }
{
    match value {
        Value::Int(_) => true,
        _ => false,
    }
}

// Whether it is a truth value.
fn is_truth(value: &Value) -> bool
    ensures { IsTrue result → IsTruth (value_view value.now) }
{
    match value {
        Value::Bool(_) => true,
        _ => false,
    }
}

// Whether it is a text.
fn is_text(value: &Value) -> bool
    ensures { IsTrue result → IsText (value_view value.now) }
{
    match value {
        Value::Text(_) => true,
        _ => false,
    }
}

// Whether it is a node or null.
fn is_ref(value: &Value) -> bool
    ensures { IsTrue result → IsRef (value_view value.now) }
{
    match value {
        Value::Ref(_) => true,
        _ => false,
    }
}

// Whether both are of one kind.
fn are_alike(left: &Value, right: &Value) -> bool
    ensures { IsTrue result → AreAlike (value_view left.now) (value_view right.now) }
{
    match left {
        Value::Int(_) => is_int(right),
        Value::Bool(_) => is_truth(right),
        Value::Text(_) => is_text(right),
        Value::Ref(_) => is_ref(right),
    }
}
