//! The tree of a script. A place, `at`, is the first byte of a token, counted from 0.

ghost use Rattle.std.specs.Prelude.{◌≡◌, []};

use crate::operator::{Access, BinaryOperator, Constant, Step, UnaryOperator};
use pl_types::Primitive;
use plain_data::{Items, Subtree, Text};
use std::alloc::Global;

/// A script: its functions, then its statements.
#[derive(Drop)]
pub struct Tree {
    /// The functions, in their order.
    pub functions: Items<Function>,
    /// The statements, in their order.
    pub statements: Items<Subtree<Statement>>,
}

impl Tree {
    /// Of an empty script.
    pub fn new(alloc: Global) -> Tree
        ensures { result ≡ record { functions = []; statements = [] } }
    {
        Tree {
            functions: Items::new(alloc),
            statements: Items::new(alloc),
        }
    }

    /// Lets the tree go.
    pub fn discard(self) {}
}

/// A token with the bytes that spell it.
#[derive(Drop)]
pub struct Spelled {
    /// The place of the token.
    pub at: u32,
    /// Its bytes.
    pub spelling: Text,
}

/// A type, as it is written.
pub struct TypeName {
    /// The place of its first token.
    pub at: u32,
    /// What it begins with.
    pub base: TypeBase,
    /// Where each `[` of its `[]` stands.
    pub brackets: Items<u32>,
}

impl Drop for TypeName {
    fn drop(self) {
        let TypeName {
            at: _,
            base: _base,
            brackets: _brackets,
        } = self;
    }
}

impl TypeName {
    /// With these brackets in place of its own.
    pub fn with_brackets(self, brackets: Items<u32>) -> TypeName
        ensures { result ≡ record { at = self.at; base = self.base; brackets = brackets } }
    {
        let TypeName {
            at,
            base,
            brackets: _before,
        } = self;
        TypeName { at, base, brackets }
    }
}

/// What a type begins with.
#[derive(Drop)]
pub enum TypeBase {
    /// `def`
    Def,
    /// A primitive type.
    Primitive(Primitive),
    /// The number of a class.
    Class(u32),
    /// A name that means no class.
    Name(Text),
}

/// A user's function.
pub struct Function {
    /// The type of its result.
    pub result: TypeName,
    /// Its name.
    pub name: Spelled,
    /// Its parameters, in their order.
    pub parameters: Items<Parameter>,
    /// Its block.
    pub body: Block,
}

impl Drop for Function {
    fn drop(self) {
        let Function {
            result: _result,
            name: _name,
            parameters: _parameters,
            body: _body,
        } = self;
    }
}

/// A parameter of a function or of a lambda. A function's has a type.
pub struct Parameter {
    /// The type, if it has one.
    pub of: Option<TypeName>,
    /// The name.
    pub name: Spelled,
}

impl Drop for Parameter {
    fn drop(self) {
        let Parameter {
            of: _of,
            name: _name,
        } = self;
    }
}

/// `{ .. }`, at its `{`.
#[cycle(tree)]
pub struct Block {
    /// The place of the `{`.
    pub at: u32,
    /// The statements, in their order.
    pub statements: Items<Subtree<Statement>>,
}

impl Drop for Block {
    #[cycle(letting_go)]
    fn drop(self) {
        let Block {
            at: _,
            statements: _statements,
        } = self;
    }
}

/// What an `if` or a loop runs.
#[cycle(tree)]
#[derive(Drop)]
pub enum Body {
    /// A block.
    Block(Block),
    /// A statement alone.
    Statement(Subtree<Statement>),
}

/// A statement.
#[cycle(tree)]
pub enum Statement {
    /// `if (condition) then`, or with `else otherwise` behind it.
    If {
        at: u32,
        condition: Subtree<Expr>,
        then: Body,
        otherwise: Option<Body>,
    },
    /// The body is missing where a `;` stands in its place.
    While {
        at: u32,
        condition: Subtree<Expr>,
        body: Option<Body>,
    },
    /// `for (first; condition; update) body`. The body is missing where a `;` stands in its place.
    For {
        at: u32,
        first: Option<First>,
        condition: Option<Subtree<Expr>>,
        update: Option<Subtree<Expr>>,
        body: Option<Body>,
    },
    /// `for (of name : over) body`
    ForEach {
        at: u32,
        of: TypeName,
        name: Spelled,
        over: Subtree<Expr>,
        body: Body,
    },
    /// `for (name in over) body`
    ForIn {
        at: u32,
        name: Spelled,
        over: Subtree<Expr>,
        body: Body,
    },
    /// A `try`, with one catch at least.
    Try {
        at: u32,
        block: Block,
        catches: Items<Catch>,
    },
    /// `do block while (condition)`
    Do {
        at: u32,
        block: Block,
        condition: Subtree<Expr>,
    },
    /// A declaration.
    Declare(Declaration),
    /// `continue`
    Continue {
        at: u32,
    },
    /// `break`
    Break {
        at: u32,
    },
    /// `return`, or with a value.
    Return {
        at: u32,
        value: Option<Argument>,
    },
    /// `throw value`
    Throw {
        at: u32,
        value: Subtree<Expr>,
    },
    /// An expression, at its first token.
    Expression {
        at: u32,
        value: Subtree<Expr>,
    },
}

impl Drop for Statement {
    /// Statements inside statements are let go in a loop, since they may nest too deep for the machine's stack: it goes on with the
    /// one of most nodes, and the others are let go by calls, which nest at most as the logarithm of the number of nodes.
    #[cycle(letting_go)]
    fn drop(mut self) {
        loop {
            let last = match self {
                Statement::If {
                    at: _,
                    condition: _condition,
                    then,
                    otherwise,
                } => match otherwise {
                    Some(body) => {
                        if then.nodes() < body.nodes() {
                            body
                        } else {
                            then
                        }
                    }
                    None => then,
                },
                Statement::While {
                    at: _,
                    condition: _condition,
                    body,
                } => match body {
                    Some(body) => body,
                    None => return,
                },
                Statement::For {
                    at: _,
                    first: _first,
                    condition: _condition,
                    update: _update,
                    body,
                } => match body {
                    Some(body) => body,
                    None => return,
                },
                Statement::ForEach {
                    at: _,
                    of: _of,
                    name: _name,
                    over: _over,
                    body,
                } => body,
                Statement::ForIn {
                    at: _,
                    name: _name,
                    over: _over,
                    body,
                } => body,
                Statement::Try {
                    at: _,
                    block: _block,
                    catches: _catches,
                } => return,
                Statement::Do {
                    at: _,
                    block: _block,
                    condition: _condition,
                } => return,
                Statement::Declare(_declaration) => return,
                Statement::Continue { at: _ } => return,
                Statement::Break { at: _ } => return,
                Statement::Return {
                    at: _,
                    value: _value,
                } => return,
                Statement::Throw {
                    at: _,
                    value: _value,
                } => return,
                Statement::Expression {
                    at: _,
                    value: _value,
                } => return,
            };
            match last {
                Body::Statement(statement) => self = statement.into_inner(),
                Body::Block(_block) => return,
            }
        }
    }
}

/// What a `for` does first.
#[cycle(tree)]
pub enum First {
    /// A declaration.
    Declare(Declaration),
    /// An expression.
    Expression(Subtree<Expr>),
}

impl Drop for First {
    #[cycle(letting_go)]
    fn drop(self) {
        match self {
            First::Declare(_declaration) => {}
            First::Expression(_expr) => {}
        }
    }
}

/// Variables of one type, one at least.
#[cycle(tree)]
pub struct Declaration {
    /// The type.
    pub of: TypeName,
    /// The variables, in their order.
    pub variables: Items<Variable>,
}

impl Drop for Declaration {
    #[cycle(letting_go)]
    fn drop(self) {
        let Declaration {
            of: _of,
            variables: _variables,
        } = self;
    }
}

/// A variable, at its name.
#[cycle(tree)]
pub struct Variable {
    /// The name.
    pub name: Spelled,
    /// What is assigned to it, if anything is.
    pub value: Option<Argument>,
}

impl Drop for Variable {
    #[cycle(letting_go)]
    fn drop(self) {
        let Variable {
            name: _name,
            value: _value,
        } = self;
    }
}

/// `catch (of name) block`
#[cycle(tree)]
pub struct Catch {
    /// The place of the `catch`.
    pub at: u32,
    /// The class of the exceptions that are caught.
    pub of: TypeName,
    /// The name of the exception in the block.
    pub name: Spelled,
    /// The block.
    pub block: Block,
}

impl Drop for Catch {
    #[cycle(letting_go)]
    fn drop(self) {
        let Catch {
            at: _,
            of: _of,
            name: _name,
            block: _block,
        } = self;
    }
}

/// An expression.
#[cycle(tree)]
pub enum Expr {
    /// An assignment, at its operator. A compound one has the operator that it applies.
    Assign {
        operator: Option<BinaryOperator>,
        at: u32,
        target: Subtree<Expr>,
        value: Subtree<Expr>,
    },
    /// `condition ? yes : no`, at the `?`.
    Conditional {
        at: u32,
        condition: Subtree<Expr>,
        yes: Subtree<Expr>,
        no: Subtree<Expr>,
    },
    /// `left ?: right`, at the `?:`.
    Elvis {
        at: u32,
        left: Subtree<Expr>,
        right: Subtree<Expr>,
    },
    /// Two operands, at the operator between them.
    Binary {
        operator: BinaryOperator,
        at: u32,
        left: Subtree<Expr>,
        right: Subtree<Expr>,
    },
    /// `operand instanceof of`, at the `instanceof`.
    Instanceof {
        at: u32,
        operand: Subtree<Expr>,
        of: TypeName,
    },
    /// An operator before its operand, at the operator.
    Unary {
        operator: UnaryOperator,
        at: u32,
        operand: Subtree<Expr>,
    },
    /// `++` or `--` before its operand.
    Prefix {
        step: Step,
        at: u32,
        target: Subtree<Expr>,
    },
    /// `++` or `--` after its operand, at the operand's first token.
    Postfix {
        step: Step,
        at: u32,
        target: Subtree<Expr>,
    },
    /// `(of) operand`
    Cast {
        at: u32,
        of: TypeName,
        operand: Subtree<Expr>,
    },
    /// An expression in brackets.
    Bracketed {
        at: u32,
        inner: Subtree<Expr>,
    },
    /// A whole number.
    Integer {
        at: u32,
        spelling: Text,
    },
    /// A text, with its quotes.
    Text {
        at: u32,
        spelling: Text,
    },
    /// `true`, `false` or `null`.
    Constant {
        constant: Constant,
        at: u32,
    },
    /// `[items]`, at the `[`.
    List {
        at: u32,
        items: Items<Subtree<Expr>>,
    },
    /// `[key: value, ..]`, at the `[`.
    Map {
        at: u32,
        entries: Items<Entry>,
    },
    /// A name.
    Name {
        at: u32,
        spelling: Text,
    },
    /// A call of a user's function.
    Call {
        at: u32,
        spelling: Text,
        arguments: Items<Argument>,
    },
    /// `new of(arguments)`
    New {
        at: u32,
        of: TypeName,
        arguments: Items<Argument>,
    },
    /// `new of[size]..`, with one size at least.
    NewArray {
        at: u32,
        of: TypeName,
        sizes: Items<Subtree<Expr>>,
    },
    /// `new of[] { items }`
    NewItems {
        at: u32,
        of: TypeName,
        items: Items<Subtree<Expr>>,
    },
    /// A type, whose member is taken.
    Type {
        of: TypeName,
    },
    /// A member, at its name.
    Member {
        access: Access,
        at: u32,
        receiver: Subtree<Expr>,
        spelling: Text,
    },
    /// A call of a member, at its name.
    Method {
        access: Access,
        at: u32,
        receiver: Subtree<Expr>,
        spelling: Text,
        arguments: Items<Argument>,
    },
    /// A member whose name is a number, at the number.
    Element {
        access: Access,
        at: u32,
        receiver: Subtree<Expr>,
        spelling: Text,
    },
    /// `receiver[index]`, at the `[`.
    Index {
        at: u32,
        receiver: Subtree<Expr>,
        index: Subtree<Expr>,
    },
}

impl Drop for Expr {
    /// In a loop, as a `Statement`: it goes on with the expression of most nodes, and lets the others go by calls.
    #[cycle(letting_go)]
    fn drop(mut self) {
        loop {
            let last = match self {
                Expr::Assign {
                    operator: _,
                    at: _,
                    target,
                    value,
                } => {
                    if target.nodes() < value.nodes() {
                        value
                    } else {
                        target
                    }
                },
                Expr::Conditional {
                    at: _,
                    condition,
                    yes,
                    no,
                } => {
                    let side = if yes.nodes() < no.nodes() { no } else { yes };
                    if side.nodes() < condition.nodes() {
                        condition
                    } else {
                        side
                    }
                },
                Expr::Elvis { at: _, left, right } => {
                    if left.nodes() < right.nodes() {
                        right
                    } else {
                        left
                    }
                },
                Expr::Binary {
                    operator: _,
                    at: _,
                    left,
                    right,
                } => {
                    if left.nodes() < right.nodes() {
                        right
                    } else {
                        left
                    }
                },
                Expr::Instanceof {
                    at: _,
                    operand,
                    of: _of,
                } => operand,
                Expr::Unary {
                    operator: _,
                    at: _,
                    operand,
                } => operand,
                Expr::Prefix {
                    step: _,
                    at: _,
                    target,
                } => target,
                Expr::Postfix {
                    step: _,
                    at: _,
                    target,
                } => target,
                Expr::Cast {
                    at: _,
                    of: _of,
                    operand,
                } => operand,
                Expr::Bracketed { at: _, inner } => inner,
                Expr::Integer {
                    at: _,
                    spelling: _spelling,
                } => return,
                Expr::Text {
                    at: _,
                    spelling: _spelling,
                } => return,
                Expr::Constant { constant: _, at: _ } => return,
                Expr::List {
                    at: _,
                    items: _items,
                } => return,
                Expr::Map {
                    at: _,
                    entries: _entries,
                } => return,
                Expr::Name {
                    at: _,
                    spelling: _spelling,
                } => return,
                Expr::Call {
                    at: _,
                    spelling: _spelling,
                    arguments: _arguments,
                } => return,
                Expr::New {
                    at: _,
                    of: _of,
                    arguments: _arguments,
                } => return,
                Expr::NewArray {
                    at: _,
                    of: _of,
                    sizes: _sizes,
                } => return,
                Expr::NewItems {
                    at: _,
                    of: _of,
                    items: _items,
                } => return,
                Expr::Type { of: _of } => return,
                Expr::Member {
                    access: _,
                    at: _,
                    receiver,
                    spelling: _spelling,
                } => receiver,
                Expr::Method {
                    access: _,
                    at: _,
                    receiver,
                    spelling: _spelling,
                    arguments: _arguments,
                } => receiver,
                Expr::Element {
                    access: _,
                    at: _,
                    receiver,
                    spelling: _spelling,
                } => receiver,
                Expr::Index {
                    at: _,
                    receiver,
                    index,
                } => {
                    if receiver.nodes() < index.nodes() {
                        index
                    } else {
                        receiver
                    }
                },
            };
            self = last.into_inner();
        }
    }
}

/// A key of a map, and its value.
#[cycle(tree)]
pub struct Entry {
    /// The key.
    pub key: Subtree<Expr>,
    /// The value.
    pub value: Subtree<Expr>,
}

impl Drop for Entry {
    #[cycle(letting_go)]
    fn drop(self) {
        let Entry {
            key: _key,
            value: _value,
        } = self;
    }
}

/// What is passed, assigned at a declaration, or returned.
#[cycle(tree)]
pub enum Argument {
    /// An expression.
    Value(Subtree<Expr>),
    /// A lambda, at its first token.
    Lambda {
        at: u32,
        parameters: Items<Parameter>,
        body: LambdaBody,
    },
    /// `of::spelling`
    Reference {
        of: TypeName,
        spelling: Text,
    },
    /// `of::new`
    NewReference {
        of: TypeName,
    },
    /// `this::spelling`, at the `this`.
    ThisReference {
        at: u32,
        spelling: Text,
    },
}

impl Drop for Argument {
    #[cycle(letting_go)]
    fn drop(self) {
        match self {
            Argument::Value(_expr) => {}
            Argument::Lambda {
                at: _,
                parameters: _parameters,
                body: _body,
            } => {}
            Argument::Reference {
                of: _of,
                spelling: _spelling,
            } => {}
            Argument::NewReference { of: _of } => {}
            Argument::ThisReference {
                at: _,
                spelling: _spelling,
            } => {}
        }
    }
}

/// What a lambda runs.
#[cycle(tree)]
pub enum LambdaBody {
    /// A block.
    Block(Block),
    /// An expression.
    Expression(Subtree<Expr>),
}

impl Drop for LambdaBody {
    #[cycle(letting_go)]
    fn drop(self) {
        match self {
            LambdaBody::Block(_block) => {}
            LambdaBody::Expression(_expr) => {}
        }
    }
}
