//! What is still to be typed.

ghost use Rattle.std.specs.Prelude.{◌≡◌, ◌∷◌, ◌++◌, [], map, OnOk};
ghost use Rattle.typing_worklist.specs.Items.{item_of, Pops};

use pl_tree::{
    Access, Argument, BinaryOperator, Block, Body, Catch, Constant, Declaration, Entry, Expr,
    First, LambdaBody, Parameter, Spelled, Statement, Step, TypeName, UnaryOperator, Variable,
};
use plain_data::{Items, Subtree, Text};
use std::alloc::{AllocError, Global};
use std::marker::Model;
use typed_tree::Gives;

/// What is done once the parts of an expression are typed. The first number of each is its place.
#[derive(Clone, Copy)]
pub enum Act {
    Unbuilt(u32),
    /// A class has no such member.
    NoMember(u32),
    Constant(u32, Constant),
    Binary(u32, BinaryOperator),
    Unary(u32, UnaryOperator),
    Choice(u32),
    Elvis(u32),
    Bracketed(u32),
    /// A list of the elements above a height.
    List(u32, usize),
    /// A map of the keys and values above a height.
    Map(u32, usize),
    /// A part that is no name is written to.
    Fixed,
    Assign(u32, Option<BinaryOperator>),
    Step(u32, Step, Gives),
    /// The body of a function value begins.
    Enter,
}

/// The same for a statement.
#[derive(Clone, Copy)]
pub enum StatementAct {
    Test,
    LoopTest,
    /// A test or an update is missing.
    NoTest,
    /// A declaration of the variables above a height.
    Declaration(u32, usize),
    Expression(u32, bool),
    ReturnValue(u32),
    ReturnNothing(u32),
    Throw(u32),
    Break(u32),
    Continue(u32),
    /// A block of the statements above a height.
    Block(u32, usize),
    IfAlone(u32),
    IfElse(u32),
    /// Whether a first step and a body are there.
    Loop(u32, bool, bool),
    DoLoop(u32),
    /// A loop over elements, whose body is typed.
    EachLoop(u32),
    /// A `try` with the catches above a height.
    Try(u32, usize),
    /// Names declared since there were so many are forgotten.
    Close(usize),
    Looped(bool),
}

/// An expression that is to be typed.
#[derive(Clone, Copy)]
pub enum ExpressionItem<'a> {
    Value(&'a Subtree<Expr>),
    /// Directly behind a minus that stands at a place.
    Negated(&'a Subtree<Expr>, u32),
    /// What is written to, and where an assignment stands that reads it too.
    Target(&'a Subtree<Expr>, Option<u32>),
    Given(&'a Argument),
    /// Those from one on.
    Arguments(&'a Items<Argument>, usize),
    Call(u32, &'a Text, &'a Items<Argument>),
    /// A call on a value that is typed.
    Method(u32, Access, &'a Text, &'a Items<Argument>),
    /// A call on a type.
    Static(u32, Access, &'a TypeName, &'a Text, &'a Items<Argument>),
    New(u32, &'a TypeName, &'a Items<Argument>),
    /// Those from one on.
    Values(&'a Items<Subtree<Expr>>, usize),
    /// Entries of a map from one on.
    Entries(&'a Items<Entry>, usize),
    List(u32, &'a Items<Subtree<Expr>>),
    Map(u32, &'a Items<Entry>),
    /// A new array of sizes.
    Array(u32, &'a TypeName, &'a Items<Subtree<Expr>>),
    /// A new array of elements.
    ArrayWith(u32, &'a TypeName, &'a Items<Subtree<Expr>>),
}

/// What is done with a name, a spelling or a type that the script has.
#[derive(Clone, Copy)]
pub enum WordItem<'a> {
    /// The arguments above a height are typed.
    Called(u32, &'a Text, usize),
    Integer(u32, &'a Text),
    NegatedInteger(u32, u32, &'a Text),
    Text(u32, &'a Text),
    Name(u32, &'a Text),
    Written(u32, &'a Text),
    TypeOf(&'a TypeName),
    Asked(u32, &'a TypeName),
    InstanceOf(u32, &'a TypeName),
    /// The arguments above a height of a call on a value are typed.
    MethodCalled(u32, Access, &'a Text, usize),
    /// Those of a call on a type.
    StaticCalled(u32, Access, &'a TypeName, &'a Text, usize),
    /// Those of a `new`.
    Made(u32, &'a TypeName, usize),
    /// A name of a value that is typed.
    Read(u32, Access, &'a Text),
    /// An element of a value that is typed, by its number.
    Numbered(u32, Access, &'a Text),
    /// An element in brackets, whose index is typed too.
    Indexed(u32),
    /// The sizes of a new array, above a height, are typed.
    ArrayMade(u32, &'a TypeName, usize),
    /// Its elements are typed.
    ArrayFilled(u32, &'a TypeName, usize),
    /// A name of a value that is typed, as what is written to, and where an assignment stands that reads it too.
    WrittenName(u32, Option<u32>, &'a Text),
    /// An element by its number.
    WrittenNumber(u32, Option<u32>, &'a Text),
    /// An element in brackets.
    WrittenIndex(u32, Option<u32>),
    /// A name of a type.
    Field(u32, Access, &'a TypeName, &'a Text),
    /// What a `for` begins with is typed.
    Begun(&'a Subtree<Expr>),
    /// What it goes on with is typed.
    Updated(&'a Subtree<Expr>),
}

/// What is done with a name that a statement declares, or with its type.
#[derive(Clone, Copy)]
pub enum BindingItem<'a> {
    /// The value that a variable of a type begins with is typed.
    CastInitial(&'a TypeName),
    Declare(&'a Spelled, &'a TypeName),
    /// The value that a loop goes over, whose variable has a type or is of type def, is typed.
    Each(u32, &'a Spelled, &'a TypeName),
    EachDef(u32, &'a Spelled),
    /// A name that a construct which is not built declares, of a type or of def.
    Named(&'a Spelled, &'a TypeName),
    NamedDef(&'a Spelled),
    /// The name of a catch.
    Catching(&'a TypeName, &'a Spelled),
    /// The block of a catch is typed.
    Caught(u32, &'a TypeName, &'a Text),
}

/// A statement that is to be typed.
#[derive(Clone, Copy)]
pub enum StatementItem<'a> {
    /// It may be the last of the main script.
    One(&'a Subtree<Statement>, bool),
    Body(&'a Body),
    /// With a scope of its own.
    Scoped(&'a Subtree<Statement>),
    /// A block with a scope of its own.
    Block(&'a Block),
    /// Those from one on, in the main script or not, behind one that escapes or not.
    Statements(&'a Items<Subtree<Statement>>, usize, bool, bool),
    /// The `else` of an `if`, whose test and first body are typed.
    Otherwise(u32, &'a Option<Body>),
    Returned(u32, &'a Option<Argument>),
}

/// A loop, or a part of one.
#[derive(Clone, Copy)]
pub enum LoopItem<'a> {
    /// A body with a loop around it.
    Looping(&'a Body),
    Body(&'a Option<Body>),
    Block(&'a Block),
    For(
        u32,
        &'a Option<First>,
        &'a Option<Subtree<Expr>>,
        &'a Option<Subtree<Expr>>,
        &'a Option<Body>,
    ),
    ForParts(
        u32,
        &'a Option<First>,
        &'a Option<Subtree<Expr>>,
        &'a Option<Subtree<Expr>>,
        &'a Option<Body>,
    ),
    /// A loop over elements, whose variable has a type or is of type def.
    Each(u32, &'a TypeName, &'a Spelled, &'a Subtree<Expr>, &'a Body),
    EachDef(u32, &'a Spelled, &'a Subtree<Expr>, &'a Body),
    FirstIf(&'a Option<First>),
    First(&'a First),
    Deed(&'a Subtree<Expr>),
    Condition(&'a Option<Subtree<Expr>>),
    UpdateIf(&'a Option<Subtree<Expr>>),
    Update(&'a Subtree<Expr>),
}

/// A declaration, or a part of one.
#[derive(Clone, Copy)]
pub enum DeclarationItem<'a> {
    Whole(&'a Declaration),
    /// Those from one on.
    Variables(&'a TypeName, &'a Items<Variable>, usize),
    Variable(&'a TypeName, &'a Variable),
    Initial(&'a TypeName, &'a Option<Argument>),
}

/// Parts of a node that is not built: behind them it is refused.
#[derive(Clone, Copy)]
pub enum UnbuiltItem<'a> {
    Parameters(&'a Items<Parameter>, usize),
    Inner(&'a LambdaBody, u32),
}

/// The catches of a `try`, or a part of one.
#[derive(Clone, Copy)]
pub enum CatchItem<'a> {
    /// Those of a `try` whose block is typed.
    Try(u32, &'a Items<Catch>),
    /// Those from one on.
    All(&'a Items<Catch>, usize),
    One(&'a Catch),
}

/// A part that is to be typed, or what is done once parts are.
#[derive(Clone, Copy)]
pub enum WorkItem<'a> {
    Expression(ExpressionItem<'a>),
    Word(WordItem<'a>),
    Binding(BindingItem<'a>),
    Do(Act),
    Statement(StatementItem<'a>),
    Loop(LoopItem<'a>),
    Declaration(DeclarationItem<'a>),
    DoStatement(StatementAct),
    Catch(CatchItem<'a>),
    Unbuilt(UnbuiltItem<'a>),
    /// The statement before those from one on, which stands at a place, is typed; in the main script or not, behind one that escapes or not.
    Reached(&'a Items<Subtree<Statement>>, usize, u32, bool, bool),
}

/// The items that are left. Contracts see the next one first.
pub struct Worklist<'a> {
    items: Vec<WorkItem<'a>>,
}

impl<'a> Drop for Worklist<'a> {
    fn drop(self) {
        let Worklist { items: _items } = self;
    }
}

impl<'a> Model for Worklist<'a> {
    ghost use Rattle.std.specs.Prelude.{List, reverse, map};
    ghost use Rattle.typing_worklist.specs.Item.{Item};
    ghost use Rattle.typing_worklist.specs.Items.{item_of};
    ghost use Rattle.std.specs.Coded.{codes};
    ghost use Rattle.pl_tree.specs.contracts.tree.Argument as r0;
    ghost use Rattle.pl_tree.specs.contracts.tree.Block as r1;
    ghost use Rattle.pl_tree.specs.contracts.tree.Body as r2;
    ghost use Rattle.pl_tree.specs.contracts.tree.Declaration as r3;
    ghost use Rattle.pl_tree.specs.contracts.tree.Expr as r4;
    ghost use Rattle.pl_tree.specs.contracts.tree.LambdaBody as r5;
    ghost use Rattle.pl_tree.specs.contracts.tree.Statement as r6;
    ghost use Rattle.pl_tree.specs.contracts.tree.Variable as r7;
    ghost use Rattle.pl_tree.specs.contracts.tree.First as r8;
    ghost use Rattle.pl_tree.specs.contracts.tree.Catch as r9;
    ghost use Rattle.pl_tree.specs.contracts.tree.Entry as r10;

    ghost Value = { List Item };

    ghost coded = { Prim.hlevel (codes, r0.the_row.coded, r1.the_row.coded, r2.the_row.coded, r3.the_row.coded, r4.the_row.coded, r5.the_row.coded, r6.the_row.coded, r7.the_row.coded, r8.the_row.coded, r9.the_row.coded, r10.the_row.coded) };

    ghost view = { λ c. reverse (map item_of c.items.items) };
}

impl<'a> Worklist<'a> {
    /// None.
    pub fn new(alloc: Global) -> Worklist<'a>
        ensures { result ≡ [] }
    {
        Worklist {
            items: Vec::new(alloc),
        }
    }

    /// Puts an item on.
    pub fn push(&mut self, item: WorkItem<'a>) -> Result<(), AllocError>
        ensures { OnOk result (self.new ≡ item_of item.entry ∷ self.old) }
    {
        self.items.push(item)?;
        Ok(())
    }

    /// Takes the next item.
    pub fn pop(&mut self) -> Option<WorkItem<'a>>
        ensures { Pops result self.old self.new }
    {
        self.items.pop()
    }

    /// Puts items on, the first first.
    pub fn put(&mut self, plan: &[WorkItem<'a>]) -> Result<(), AllocError>
        ensures { OnOk result (self.new ≡ map item_of plan.now ++ self.old) }
    {
        let mut left = plan.len();
        while left > 0 {
            left -= 1;
            self.push(plan[left])?;
        }
        Ok(())
    }
}
