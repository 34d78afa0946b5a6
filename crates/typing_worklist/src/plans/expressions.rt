//! What is to be done for each kind of expression.

ghost use Rattle.std.specs.Prelude.{◌≡◌, ◌∷◌, ◌++◌, slice_get, Some, OnOk};
ghost use Rattle.pl_tree.specs.declared.tree.Argument.{out-Argument};
ghost use Rattle.pl_tree.specs.declared.tree.Expr.{out-Expr};
ghost use Rattle.pl_tree.specs.declared.tree.LambdaBody.{out-LambdaBody};
ghost use Rattle.typing_rules.specs.Typing.{read_at};
ghost use Rattle.typing_worklist.specs.Item as Item;
ghost use Rattle.typing_worklist.specs.Items.{item_of, word_item};
ghost use Rattle.typing_worklist.specs.Plans as spec;

use crate::item::{Act, ExpressionItem, StatementItem, UnbuiltItem, WordItem, WorkItem, Worklist};
use pl_tree::{Access, Argument, BinaryOperator, Entry, Expr, LambdaBody, TypeName, UnaryOperator};
use plain_data::{Items, Subtree, Text};
use std::alloc::AllocError;
use typed_tree::Gives;
use typing_actions::Config;

/// Puts on a value, and then what is done with it.
fn one<'a>(worklist: &mut Worklist<'a>, e: &'a Subtree<Expr>, then: Act) -> Result<(), AllocError>
    ensures { OnOk result (worklist.new ≡ Item.Value e.now ∷ Item.Do then ∷ worklist.old) }
{
    worklist.put(&[
        WorkItem::Expression(ExpressionItem::Value(e)),
        WorkItem::Do(then),
    ])
}

/// The same with two values.
fn two<'a>(
    worklist: &mut Worklist<'a>,
    left: &'a Subtree<Expr>,
    right: &'a Subtree<Expr>,
    then: Act,
) -> Result<(), AllocError>
    ensures { OnOk result (worklist.new ≡ Item.Value left.now ∷ Item.Value right.now ∷ Item.Do then ∷ worklist.old) }
{
    worklist.put(&[
        WorkItem::Expression(ExpressionItem::Value(left)),
        WorkItem::Expression(ExpressionItem::Value(right)),
        WorkItem::Do(then),
    ])
}

/// The same with what is read and written at a place.
fn written<'a>(
    worklist: &mut Worklist<'a>,
    target: &'a Subtree<Expr>,
    at: u32,
    then: Act,
) -> Result<(), AllocError>
    ensures { OnOk result (worklist.new ≡ Item.Target target.now (Some at) ∷ Item.Do then ∷ worklist.old) }
{
    worklist.put(&[
        WorkItem::Expression(ExpressionItem::Target(target, Some(at))),
        WorkItem::Do(then),
    ])
}

/// Where an assignment stands that reads too: one with an operator does.
fn read_at(at: u32, operator: Option<BinaryOperator>) -> Option<u32>
    ensures { result ≡ read_at at operator }
{
    match operator {
        None => None,
        Some(_) => Some(at),
    }
}

/// Puts on a value, and then what is done with it and a word.
fn with_word<'a>(
    worklist: &mut Worklist<'a>,
    e: &'a Subtree<Expr>,
    then: WordItem<'a>,
) -> Result<(), AllocError>
    ensures { OnOk result (worklist.new ≡ Item.Value e.now ∷ word_item then.entry ∷ worklist.old) }
{
    worklist.put(&[
        WorkItem::Expression(ExpressionItem::Value(e)),
        WorkItem::Word(then),
    ])
}

/// The same with a value and its index.
fn with_index<'a>(
    worklist: &mut Worklist<'a>,
    e: &'a Subtree<Expr>,
    index: &'a Subtree<Expr>,
    then: WordItem<'a>,
) -> Result<(), AllocError>
    ensures { OnOk result (worklist.new ≡ Item.Value e.now ∷ Item.Value index.now ∷ word_item then.entry ∷ worklist.old) }
{
    worklist.put(&[
        WorkItem::Expression(ExpressionItem::Value(e)),
        WorkItem::Expression(ExpressionItem::Value(index)),
        WorkItem::Word(then),
    ])
}

/// Puts on a type, which is looked at, and then another item.
fn behind_type<'a>(
    worklist: &mut Worklist<'a>,
    of: &'a TypeName,
    then: WorkItem<'a>,
) -> Result<(), AllocError>
    ensures { OnOk result (worklist.new ≡ Item.TypeOf of.now ∷ item_of then.entry ∷ worklist.old) }
{
    worklist.put(&[WorkItem::Word(WordItem::TypeOf(of)), then])
}

/// Puts on what is to be done for an operator before its operand.
fn unary<'a>(
    worklist: &mut Worklist<'a>,
    operator: UnaryOperator,
    at: u32,
    operand: &'a Subtree<Expr>,
) -> Result<(), AllocError>
    ensures { OnOk result (worklist.new ≡ spec.unary_plan operator at operand.now ++ worklist.old) }
{
    match operator {
        UnaryOperator::Minus => worklist.push(WorkItem::Expression(ExpressionItem::Negated(
            operand, at,
        ))),
        _ => one(worklist, operand, Act::Unary(at, operator)),
    }
}

/// The same, for a name of a value or of a type.
fn member<'a>(
    worklist: &mut Worklist<'a>,
    access: Access,
    at: u32,
    receiver: &'a Subtree<Expr>,
    name: &'a Text,
) -> Result<(), AllocError>
    ensures { OnOk result (worklist.new ≡ spec.member_plan access at receiver.now (spec.type_in (out-Expr receiver.now)) name.now ++ worklist.old) }
{
    match receiver.get() {
        Expr::Type { of } => worklist.push(WorkItem::Word(WordItem::Field(at, access, of, name))),
        _ => with_word(worklist, receiver, WordItem::Read(at, access, name)),
    }
}

/// The same, for a call on a value or on a type.
fn method<'a>(
    worklist: &mut Worklist<'a>,
    access: Access,
    at: u32,
    receiver: &'a Subtree<Expr>,
    name: &'a Text,
    given: &'a Items<Argument>,
) -> Result<(), AllocError>
    ensures { OnOk result (worklist.new ≡ spec.method_plan access at receiver.now (spec.type_in (out-Expr receiver.now)) name.now given.now ++ worklist.old) }
{
    match receiver.get() {
        Expr::Type { of } => worklist.put(&[
            WorkItem::Word(WordItem::TypeOf(of)),
            WorkItem::Expression(ExpressionItem::Static(at, access, of, name, given)),
        ]),
        _ => worklist.put(&[
            WorkItem::Expression(ExpressionItem::Value(receiver)),
            WorkItem::Expression(ExpressionItem::Method(at, access, name, given)),
        ]),
    }
}

/// The same, for an element by its number, of a value or of a type.
fn element<'a>(
    worklist: &mut Worklist<'a>,
    access: Access,
    at: u32,
    receiver: &'a Subtree<Expr>,
    digits: &'a Text,
) -> Result<(), AllocError>
    ensures { OnOk result (worklist.new ≡ spec.element_plan access at receiver.now (spec.type_in (out-Expr receiver.now)) digits.now ++ worklist.old) }
{
    match receiver.get() {
        Expr::Type { of } => behind_type(worklist, of, WorkItem::Do(Act::NoMember(at))),
        _ => with_word(worklist, receiver, WordItem::Numbered(at, access, digits)),
    }
}

/// The same, for an expression as a value.
fn value<'a>(worklist: &mut Worklist<'a>, e: &'a Subtree<Expr>) -> Result<(), AllocError>
    ensures { OnOk result (worklist.new ≡ spec.value_plan (out-Expr e.now) ++ worklist.old) }
{
    match e.get() {
        Expr::Assign {
            operator,
            at,
            target,
            value,
        } => worklist.put(&[
            WorkItem::Expression(ExpressionItem::Target(target, read_at(*at, *operator))),
            WorkItem::Expression(ExpressionItem::Value(value)),
            WorkItem::Do(Act::Assign(*at, *operator)),
        ]),
        Expr::Conditional {
            at,
            condition,
            yes,
            no,
        } => worklist.put(&[
            WorkItem::Expression(ExpressionItem::Value(condition)),
            WorkItem::Expression(ExpressionItem::Value(yes)),
            WorkItem::Expression(ExpressionItem::Value(no)),
            WorkItem::Do(Act::Choice(*at)),
        ]),
        Expr::Elvis { at, left, right } => two(worklist, left, right, Act::Elvis(*at)),
        Expr::Binary {
            operator,
            at,
            left,
            right,
        } => two(worklist, left, right, Act::Binary(*at, *operator)),
        Expr::Instanceof { at, operand, of } => worklist.put(&[
            WorkItem::Expression(ExpressionItem::Value(operand)),
            WorkItem::Word(WordItem::InstanceOf(*at, of)),
        ]),
        Expr::Unary {
            operator,
            at,
            operand,
        } => unary(worklist, *operator, *at, operand),
        Expr::Prefix { step, at, target } => written(
            worklist,
            target,
            *at,
            Act::Step(*at, *step, Gives::New),
        ),
        Expr::Postfix { step, at, target } => written(
            worklist,
            target,
            *at,
            Act::Step(*at, *step, Gives::Old),
        ),
        Expr::Cast { at, of, operand } => worklist.put(&[
            WorkItem::Word(WordItem::TypeOf(of)),
            WorkItem::Expression(ExpressionItem::Value(operand)),
            WorkItem::Word(WordItem::Asked(*at, of)),
        ]),
        Expr::Bracketed { at, inner } => one(worklist, inner, Act::Bracketed(*at)),
        Expr::Integer { at, spelling } => worklist.push(WorkItem::Word(WordItem::Integer(
            *at, spelling,
        ))),
        Expr::Text { at, spelling } => worklist.push(WorkItem::Word(WordItem::Text(*at, spelling))),
        Expr::Constant { constant, at } => worklist.push(WorkItem::Do(Act::Constant(
            *at, *constant,
        ))),
        Expr::List { at, items } => worklist.push(WorkItem::Expression(ExpressionItem::List(
            *at, items,
        ))),
        Expr::Map { at, entries } => worklist.push(WorkItem::Expression(ExpressionItem::Map(
            *at, entries,
        ))),
        Expr::Name { at, spelling } => worklist.push(WorkItem::Word(WordItem::Name(*at, spelling))),
        Expr::Call {
            at,
            spelling,
            arguments,
        } => worklist.push(WorkItem::Expression(ExpressionItem::Call(*at, spelling, arguments))),
        Expr::New { at, of, arguments } => behind_type(
            worklist,
            of,
            WorkItem::Expression(ExpressionItem::New(*at, of, arguments)),
        ),
        Expr::NewArray { at, of, sizes } => behind_type(
            worklist,
            of,
            WorkItem::Expression(ExpressionItem::Array(*at, of, sizes)),
        ),
        Expr::NewItems { at, of, items } => behind_type(
            worklist,
            of,
            WorkItem::Expression(ExpressionItem::ArrayWith(*at, of, items)),
        ),
        Expr::Type { of } => behind_type(worklist, of, WorkItem::Do(Act::Unbuilt(of.at))),
        Expr::Member {
            access,
            at,
            receiver,
            spelling,
        } => member(worklist, *access, *at, receiver, spelling),
        Expr::Method {
            access,
            at,
            receiver,
            spelling,
            arguments,
        } => method(worklist, *access, *at, receiver, spelling, arguments),
        Expr::Element {
            access,
            at,
            receiver,
            spelling,
        } => element(worklist, *access, *at, receiver, spelling),
        Expr::Index {
            at,
            receiver,
            index,
        } => with_index(worklist, receiver, index, WordItem::Indexed(*at)),
    }
}

/// The same, directly behind a minus that stands at a place.
fn negated<'a>(
    worklist: &mut Worklist<'a>,
    e: &'a Subtree<Expr>,
    minus: u32,
) -> Result<(), AllocError>
    ensures { OnOk result (worklist.new ≡ spec.negated_plan minus e.now (out-Expr e.now) ++ worklist.old) }
{
    match e.get() {
        Expr::Integer { at, spelling } => worklist.push(WorkItem::Word(WordItem::NegatedInteger(
            minus, *at, spelling,
        ))),
        _ => one(worklist, e, Act::Unary(minus, UnaryOperator::Minus)),
    }
}

/// The same, for a name behind a `.` as what is written to.
fn plain_target<'a>(
    worklist: &mut Worklist<'a>,
    e: &'a Subtree<Expr>,
    at: u32,
    receiver: &'a Subtree<Expr>,
    name: &'a Text,
    by: Option<u32>,
) -> Result<(), AllocError>
    ensures { OnOk result (worklist.new ≡ spec.member_target Access.Plain at e.now receiver.now (spec.type_in (out-Expr receiver.now)) name.now by ++ worklist.old) }
{
    match receiver.get() {
        Expr::Type { of: _ } => one(worklist, e, Act::Fixed),
        _ => with_word(worklist, receiver, WordItem::WrittenName(at, by, name)),
    }
}

/// The same, for a number.
fn plain_element<'a>(
    worklist: &mut Worklist<'a>,
    e: &'a Subtree<Expr>,
    at: u32,
    receiver: &'a Subtree<Expr>,
    digits: &'a Text,
    by: Option<u32>,
) -> Result<(), AllocError>
    ensures { OnOk result (worklist.new ≡ spec.element_target Access.Plain at e.now receiver.now (spec.type_in (out-Expr receiver.now)) digits.now by ++ worklist.old) }
{
    match receiver.get() {
        Expr::Type { of: _ } => one(worklist, e, Act::Fixed),
        _ => with_word(worklist, receiver, WordItem::WrittenNumber(at, by, digits)),
    }
}

/// The same, for a name behind a `.` or a `?.`.
fn member_target<'a>(
    worklist: &mut Worklist<'a>,
    e: &'a Subtree<Expr>,
    access: Access,
    at: u32,
    receiver: &'a Subtree<Expr>,
    name: &'a Text,
    by: Option<u32>,
) -> Result<(), AllocError>
    ensures { OnOk result (worklist.new ≡ spec.member_target access at e.now receiver.now (spec.type_in (out-Expr receiver.now)) name.now by ++ worklist.old) }
{
    match access {
        Access::Plain => plain_target(worklist, e, at, receiver, name, by),
        Access::Guarded => one(worklist, e, Act::Fixed),
    }
}

/// The same, for a number.
fn element_target<'a>(
    worklist: &mut Worklist<'a>,
    e: &'a Subtree<Expr>,
    access: Access,
    at: u32,
    receiver: &'a Subtree<Expr>,
    digits: &'a Text,
    by: Option<u32>,
) -> Result<(), AllocError>
    ensures { OnOk result (worklist.new ≡ spec.element_target access at e.now receiver.now (spec.type_in (out-Expr receiver.now)) digits.now by ++ worklist.old) }
{
    match access {
        Access::Plain => plain_element(worklist, e, at, receiver, digits, by),
        Access::Guarded => one(worklist, e, Act::Fixed),
    }
}

/// The same, as what is written to, and read too where an assignment stands at a place.
fn target<'a>(
    worklist: &mut Worklist<'a>,
    e: &'a Subtree<Expr>,
    by: Option<u32>,
) -> Result<(), AllocError>
    ensures { OnOk result (worklist.new ≡ spec.target_plan e.now by (out-Expr e.now) ++ worklist.old) }
{
    match e.get() {
        Expr::Name { at, spelling } => worklist.push(WorkItem::Word(WordItem::Written(
            *at, spelling,
        ))),
        Expr::Member {
            access,
            at,
            receiver,
            spelling,
        } => member_target(worklist, e, *access, *at, receiver, spelling, by),
        Expr::Element {
            access,
            at,
            receiver,
            spelling,
        } => element_target(worklist, e, *access, *at, receiver, spelling, by),
        Expr::Index {
            at,
            receiver,
            index,
        } => with_index(worklist, receiver, index, WordItem::WrittenIndex(*at, by)),
        _ => one(worklist, e, Act::Fixed),
    }
}

/// The same, for what is passed, assigned at a declaration, or returned.
fn argument<'a>(worklist: &mut Worklist<'a>, e: &'a Argument) -> Result<(), AllocError>
    ensures { OnOk result (worklist.new ≡ spec.argument_plan (out-Argument e.now) ++ worklist.old) }
{
    match e {
        Argument::Value(value) => worklist.push(WorkItem::Expression(ExpressionItem::Value(value))),
        Argument::Lambda {
            at,
            parameters,
            body,
        } => worklist.put(&[
            WorkItem::Do(Act::Enter),
            WorkItem::Unbuilt(UnbuiltItem::Parameters(parameters, 0)),
            WorkItem::Unbuilt(UnbuiltItem::Inner(body, *at)),
        ]),
        Argument::Reference { of, spelling: _ } => behind_type(
            worklist,
            of,
            WorkItem::Do(Act::Unbuilt(of.at)),
        ),
        Argument::NewReference { of } => behind_type(
            worklist,
            of,
            WorkItem::Do(Act::Unbuilt(of.at)),
        ),
        Argument::ThisReference { at, spelling: _ } => worklist.push(WorkItem::Do(Act::Unbuilt(
            *at,
        ))),
    }
}

/// The same, for the body of a function value, which stands at a place.
pub(crate) fn inner<'a>(
    worklist: &mut Worklist<'a>,
    e: &'a LambdaBody,
    at: u32,
) -> Result<(), AllocError>
    ensures { OnOk result (worklist.new ≡ spec.inner_plan at (out-LambdaBody e.now) ++ worklist.old) }
{
    match e {
        LambdaBody::Block(block) => worklist.put(&[
            WorkItem::Statement(StatementItem::Statements(&block.statements, 0, false, false)),
            WorkItem::Do(Act::Unbuilt(at)),
        ]),
        LambdaBody::Expression(value) => one(worklist, value, Act::Unbuilt(at)),
    }
}

/// Arguments from one on: this one, and then the rest.
fn arguments<'a>(
    worklist: &mut Worklist<'a>,
    all: &'a Items<Argument>,
    at: usize,
) -> Result<(), AllocError>
    ensures { OnOk result (worklist.new ≡ spec.arguments_plan all.now at (slice_get all.now at) ++ worklist.old) }
{
    let _count = all.len();
    match all.get(at) {
        None => Ok(()),
        Some(one) => worklist.put(&[
            WorkItem::Expression(ExpressionItem::Given(one)),
            WorkItem::Expression(ExpressionItem::Arguments(all, at + 1)),
        ]),
    }
}

/// Expressions from one on: this one, and then the rest.
fn values<'a>(
    worklist: &mut Worklist<'a>,
    all: &'a Items<Subtree<Expr>>,
    at: usize,
) -> Result<(), AllocError>
    ensures { OnOk result (worklist.new ≡ spec.values_plan all.now at (slice_get all.now at) ++ worklist.old) }
{
    let _count = all.len();
    match all.get(at) {
        None => Ok(()),
        Some(one) => worklist.put(&[
            WorkItem::Expression(ExpressionItem::Value(one)),
            WorkItem::Expression(ExpressionItem::Values(all, at + 1)),
        ]),
    }
}

/// Entries of a map from one on: this one, and then the rest.
fn entries<'a>(
    worklist: &mut Worklist<'a>,
    all: &'a Items<Entry>,
    at: usize,
) -> Result<(), AllocError>
    ensures { OnOk result (worklist.new ≡ spec.entries_plan all.now at (slice_get all.now at) ++ worklist.old) }
{
    let _count = all.len();
    match all.get(at) {
        None => Ok(()),
        Some(one) => worklist.put(&[
            WorkItem::Expression(ExpressionItem::Value(&one.key)),
            WorkItem::Expression(ExpressionItem::Value(&one.value)),
            WorkItem::Expression(ExpressionItem::Entries(all, at + 1)),
        ]),
    }
}

/// Values, and then what is done with them.
fn behind_values<'a>(
    worklist: &mut Worklist<'a>,
    all: &'a Items<Subtree<Expr>>,
    then: WorkItem<'a>,
) -> Result<(), AllocError>
    ensures { OnOk result (worklist.new ≡ Item.Values all.now 0 ∷ item_of then.entry ∷ worklist.old) }
{
    worklist.put(&[WorkItem::Expression(ExpressionItem::Values(all, 0)), then])
}

/// A call: its arguments, and then what is done with them.
fn call<'a>(
    worklist: &mut Worklist<'a>,
    all: &'a Items<Argument>,
    then: WordItem<'a>,
) -> Result<(), AllocError>
    ensures { OnOk result (worklist.new ≡ Item.Arguments all.now 0 ∷ word_item then.entry ∷ worklist.old) }
{
    worklist.put(&[
        WorkItem::Expression(ExpressionItem::Arguments(all, 0)),
        WorkItem::Word(then),
    ])
}

/// Puts on what is to be done for an expression, in what is known.
pub fn plan<'a>(
    config: &Config,
    worklist: &mut Worklist<'a>,
    item: ExpressionItem<'a>,
) -> Result<(), AllocError>
    ensures { OnOk result (worklist.new ≡ spec.expression_items config.now item.entry ++ worklist.old) }
{
    match item {
        ExpressionItem::Value(e) => value(worklist, e),
        ExpressionItem::Negated(e, minus) => negated(worklist, e, minus),
        ExpressionItem::Target(e, by) => target(worklist, e, by),
        ExpressionItem::Given(e) => argument(worklist, e),
        ExpressionItem::Arguments(all, at) => arguments(worklist, all, at),
        ExpressionItem::Call(at, name, all) => {
            call(
                worklist,
                all,
                WordItem::Called(at, name, config.parts.len()),
            )
        }
        ExpressionItem::Method(at, access, name, all) => call(
            worklist,
            all,
            WordItem::MethodCalled(at, access, name, config.parts.len()),
        ),
        ExpressionItem::Static(at, access, of, name, all) => call(
            worklist,
            all,
            WordItem::StaticCalled(at, access, of, name, config.parts.len()),
        ),
        ExpressionItem::New(at, of, all) => {
            call(worklist, all, WordItem::Made(at, of, config.parts.len()))
        }
        ExpressionItem::Values(all, at) => values(worklist, all, at),
        ExpressionItem::Entries(all, at) => entries(worklist, all, at),
        ExpressionItem::List(at, all) => behind_values(
            worklist,
            all,
            WorkItem::Do(Act::List(at, config.parts.len())),
        ),
        ExpressionItem::Map(at, all) => worklist.put(&[
            WorkItem::Expression(ExpressionItem::Entries(all, 0)),
            WorkItem::Do(Act::Map(at, config.parts.len())),
        ]),
        ExpressionItem::Array(at, of, all) => behind_values(
            worklist,
            all,
            WorkItem::Word(WordItem::ArrayMade(at, of, config.parts.len())),
        ),
        ExpressionItem::ArrayWith(at, of, all) => behind_values(
            worklist,
            all,
            WorkItem::Word(WordItem::ArrayFilled(at, of, config.parts.len())),
        ),
    }
}
