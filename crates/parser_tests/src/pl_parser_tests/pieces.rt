//! What is still to be written of a tree. The nodes of a kind stand on a stack of their own, so that no value is of many kinds.

use super::piece::Piece;
use super::words::{
    access_sign, class_word, postfix_sign, prefix_sign, primitive_word, sign_of, unary_sign,
    word_of,
};
use pl_tree::{
    Access, Argument, Block, Body, Catch, Declaration, Entry, Expr, First, Function, LambdaBody,
    Parameter, Spelled, Statement, TypeBase, TypeName, Variable,
};
use plain_data::{Items, Subtree, Text};
use std::alloc::{AllocError, Global};

/// What is still to be written, the next at the end. What is put on is written before what stands there.
#[derive(Drop)]
pub struct Pieces<'a> {
    left: Vec<Piece>,
    spellings: Vec<&'a Text>,
    types: Vec<&'a TypeName>,
    parameters: Vec<&'a Parameter>,
    exprs: Vec<&'a Subtree<Expr>>,
    entries: Vec<&'a Entry>,
    arguments: Vec<&'a Argument>,
    blocks: Vec<&'a Block>,
    bodies: Vec<&'a Body>,
    statements: Vec<&'a Subtree<Statement>>,
    catches: Vec<&'a Catch>,
    declarations: Vec<&'a Declaration>,
    variables: Vec<&'a Variable>,
    functions: Vec<&'a Function>,
}

/// Puts on the nodes of a list, each with a piece before it.
fn put_list<'a, T>(
    nodes: &mut Vec<&'a T>,
    left: &mut Vec<Piece>,
    kind: Piece,
    before: Piece,
    items: &'a [T],
) -> Result<(), AllocError> {
    for item in items.iter().rev() {
        nodes.push(item)?;
        left.push(kind)?;
        left.push(before)?;
    }
    Ok(())
}

impl<'a> Pieces<'a> {
    /// With nothing to write.
    pub fn new(alloc: Global) -> Pieces<'a> {
        Pieces {
            left: Vec::new(alloc),
            spellings: Vec::new(alloc),
            types: Vec::new(alloc),
            parameters: Vec::new(alloc),
            exprs: Vec::new(alloc),
            entries: Vec::new(alloc),
            arguments: Vec::new(alloc),
            blocks: Vec::new(alloc),
            bodies: Vec::new(alloc),
            statements: Vec::new(alloc),
            catches: Vec::new(alloc),
            declarations: Vec::new(alloc),
            variables: Vec::new(alloc),
            functions: Vec::new(alloc),
        }
    }

    /// Takes the next piece.
    pub fn next(&mut self) -> Option<Piece> {
        self.left.pop()
    }

    /// Takes the next spelling.
    pub fn spelling(&mut self) -> Option<&'a Text> {
        self.spellings.pop()
    }

    fn put(&mut self, piece: Piece) -> Result<(), AllocError> {
        self.left.push(piece)?;
        Ok(())
    }

    fn word(&mut self, word: &'static str) -> Result<(), AllocError> {
        self.put(Piece::Word(word))
    }

    /// A word at its place.
    fn leaf(&mut self, word: &'static str, at: u32) -> Result<(), AllocError> {
        self.put(Piece::Place(at))?;
        self.put(Piece::Word(word))
    }

    /// What is spelled, at its place.
    fn spelled(&mut self, spelling: &'a Text, at: u32) -> Result<(), AllocError> {
        self.put(Piece::Place(at))?;
        self.spellings.push(spelling)?;
        self.put(Piece::Spelling)
    }

    fn name(&mut self, name: &'a Spelled) -> Result<(), AllocError> {
        self.spelled(&name.spelling, name.at)?;
        self.put(Piece::Blank)
    }

    fn type_name(&mut self, of: &'a TypeName) -> Result<(), AllocError> {
        self.types.push(of)?;
        self.put(Piece::Type)?;
        self.put(Piece::Blank)
    }

    fn expr(&mut self, expr: &'a Subtree<Expr>) -> Result<(), AllocError> {
        self.exprs.push(expr)?;
        self.put(Piece::Expr)?;
        self.put(Piece::Blank)
    }

    fn expr_if_any(&mut self, expr: &'a Option<Subtree<Expr>>) -> Result<(), AllocError> {
        match expr {
            Some(expr) => self.expr(expr),
            None => self.word(" _"),
        }
    }

    fn block(&mut self, block: &'a Block) -> Result<(), AllocError> {
        self.blocks.push(block)?;
        self.put(Piece::Block)?;
        self.put(Piece::Blank)
    }

    fn body(&mut self, body: &'a Body) -> Result<(), AllocError> {
        self.bodies.push(body)?;
        self.put(Piece::Body)?;
        self.put(Piece::Blank)
    }

    /// What a loop runs.
    fn body_if_any(&mut self, body: &'a Option<Body>) -> Result<(), AllocError> {
        match body {
            Some(body) => self.body(body),
            None => self.word(" ;"),
        }
    }

    fn argument(&mut self, argument: &'a Argument) -> Result<(), AllocError> {
        self.arguments.push(argument)?;
        self.put(Piece::Argument)?;
        self.put(Piece::Blank)
    }

    fn declaration(&mut self, declaration: &'a Declaration) -> Result<(), AllocError> {
        self.declarations.push(declaration)?;
        self.put(Piece::Declaration)?;
        self.put(Piece::Blank)
    }

    fn first_if_any(&mut self, first: &'a Option<First>) -> Result<(), AllocError> {
        match first {
            Some(First::Declare(declaration)) => self.declaration(declaration),
            Some(First::Expression(value)) => self.expr(value),
            None => self.word(" _"),
        }
    }

    fn exprs(&mut self, items: &'a Items<Subtree<Expr>>) -> Result<(), AllocError> {
        put_list(
            &mut self.exprs,
            &mut self.left,
            Piece::Expr,
            Piece::Blank,
            items.as_slice(),
        )
    }

    fn arguments(&mut self, items: &'a Items<Argument>) -> Result<(), AllocError> {
        put_list(
            &mut self.arguments,
            &mut self.left,
            Piece::Argument,
            Piece::Blank,
            items.as_slice(),
        )
    }

    /// Puts statements before what is left.
    pub fn statements(&mut self, items: &'a Items<Subtree<Statement>>) -> Result<(), AllocError> {
        put_list(
            &mut self.statements,
            &mut self.left,
            Piece::Statement,
            Piece::Blank,
            items.as_slice(),
        )
    }

    /// Puts functions before what is left.
    pub fn functions(&mut self, items: &'a Items<Function>) -> Result<(), AllocError> {
        put_list(
            &mut self.functions,
            &mut self.left,
            Piece::Function,
            Piece::Blank,
            items.as_slice(),
        )
    }

    /// All of them in brackets.
    fn parameters(&mut self, items: &'a Items<Parameter>) -> Result<(), AllocError> {
        self.word(")")?;
        put_list(
            &mut self.parameters,
            &mut self.left,
            Piece::Parameter,
            Piece::Comma,
            items.as_slice(),
        )?;
        self.put(Piece::Open("("))?;
        self.put(Piece::Blank)
    }

    /// The beginning of a node in brackets: its head in two words, and its place.
    fn head(&mut self, head: &'static str, end: &'static str, at: u32) -> Result<(), AllocError> {
        self.put(Piece::Place(at))?;
        self.word(end)?;
        self.word(head)?;
        self.word("(")
    }

    /// An expression of one.
    fn one(
        &mut self,
        head: &'static str,
        at: u32,
        part: &'a Subtree<Expr>,
    ) -> Result<(), AllocError> {
        self.word(")")?;
        self.expr(part)?;
        self.head(head, "", at)
    }

    /// An expression of two.
    fn two(
        &mut self,
        head: &'static str,
        end: &'static str,
        at: u32,
        first: &'a Subtree<Expr>,
        second: &'a Subtree<Expr>,
    ) -> Result<(), AllocError> {
        self.word(")")?;
        self.expr(second)?;
        self.expr(first)?;
        self.head(head, end, at)
    }

    fn conditional(
        &mut self,
        at: u32,
        condition: &'a Subtree<Expr>,
        yes: &'a Subtree<Expr>,
        no: &'a Subtree<Expr>,
    ) -> Result<(), AllocError> {
        self.word(")")?;
        self.expr(no)?;
        self.expr(yes)?;
        self.expr(condition)?;
        self.head("?", "", at)
    }

    fn instanceof(
        &mut self,
        at: u32,
        operand: &'a Subtree<Expr>,
        of: &'a TypeName,
    ) -> Result<(), AllocError> {
        self.word(")")?;
        self.type_name(of)?;
        self.expr(operand)?;
        self.head("instanceof", "", at)
    }

    fn cast(
        &mut self,
        at: u32,
        of: &'a TypeName,
        operand: &'a Subtree<Expr>,
    ) -> Result<(), AllocError> {
        self.word(")")?;
        self.expr(operand)?;
        self.type_name(of)?;
        self.head("cast", "", at)
    }

    fn list(&mut self, at: u32, items: &'a Items<Subtree<Expr>>) -> Result<(), AllocError> {
        self.leaf("]", at)?;
        self.exprs(items)?;
        self.put(Piece::Open("["))
    }

    fn map(&mut self, at: u32, entries: &'a Items<Entry>) -> Result<(), AllocError> {
        if entries.is_empty() {
            return self.leaf("[:]", at);
        }
        self.leaf("]", at)?;
        put_list(
            &mut self.entries,
            &mut self.left,
            Piece::Entry,
            Piece::Blank,
            entries.as_slice(),
        )?;
        self.put(Piece::Open("["))
    }

    fn call(
        &mut self,
        at: u32,
        spelling: &'a Text,
        arguments: &'a Items<Argument>,
    ) -> Result<(), AllocError> {
        self.word(")")?;
        self.arguments(arguments)?;
        self.spelled(spelling, at)?;
        self.word("(call ")
    }

    fn new_object(
        &mut self,
        at: u32,
        of: &'a TypeName,
        arguments: &'a Items<Argument>,
    ) -> Result<(), AllocError> {
        self.word(")")?;
        self.arguments(arguments)?;
        self.type_name(of)?;
        self.head("new", "", at)
    }

    fn new_array(
        &mut self,
        head: &'static str,
        at: u32,
        of: &'a TypeName,
        items: &'a Items<Subtree<Expr>>,
    ) -> Result<(), AllocError> {
        self.word(")")?;
        self.exprs(items)?;
        self.type_name(of)?;
        self.head(head, "", at)
    }

    fn member(
        &mut self,
        access: Access,
        receiver: &'a Subtree<Expr>,
        name: &'a Text,
        at: u32,
    ) -> Result<(), AllocError> {
        self.word(")")?;
        self.spelled(name, at)?;
        self.put(Piece::Blank)?;
        self.expr(receiver)?;
        self.word(access_sign(access))
    }

    fn method(
        &mut self,
        access: Access,
        receiver: &'a Subtree<Expr>,
        name: &'a Text,
        at: u32,
        arguments: &'a Items<Argument>,
    ) -> Result<(), AllocError> {
        self.word(")")?;
        self.arguments(arguments)?;
        self.leaf("()", at)?;
        self.spellings.push(name)?;
        self.put(Piece::Spelling)?;
        self.put(Piece::Blank)?;
        self.expr(receiver)?;
        self.word(access_sign(access))
    }

    fn type_parts(&mut self, of: &'a TypeName) -> Result<(), AllocError> {
        for at in of.brackets.as_slice().iter().rev() {
            self.put(Piece::Bracket(*at))?;
        }
        match &of.base {
            TypeBase::Def => self.leaf("def", of.at),
            TypeBase::Primitive(primitive) => self.leaf(primitive_word(*primitive), of.at),
            TypeBase::Class(class) => self.leaf(class_word(*class), of.at),
            TypeBase::Name(name) => self.spelled(name, of.at),
        }
    }

    fn expr_parts(&mut self, expr: &'a Expr) -> Result<(), AllocError> {
        match expr {
            Expr::Assign {
                operator: None,
                at,
                target,
                value,
            } => self.two("=", "", *at, target, value),
            Expr::Assign {
                operator: Some(operator),
                at,
                target,
                value,
            } => self.two(sign_of(*operator), "=", *at, target, value),
            Expr::Conditional {
                at,
                condition,
                yes,
                no,
            } => self.conditional(*at, condition, yes, no),
            Expr::Elvis { at, left, right } => self.two("?:", "", *at, left, right),
            Expr::Binary {
                operator,
                at,
                left,
                right,
            } => self.two(sign_of(*operator), "", *at, left, right),
            Expr::Instanceof { at, operand, of } => self.instanceof(*at, operand, of),
            Expr::Unary {
                operator,
                at,
                operand,
            } => self.one(unary_sign(*operator), *at, operand),
            Expr::Prefix { step, at, target } => self.one(prefix_sign(*step), *at, target),
            Expr::Postfix { step, at, target } => self.one(postfix_sign(*step), *at, target),
            Expr::Cast { at, of, operand } => self.cast(*at, of, operand),
            Expr::Bracketed { at, inner } => self.one("paren", *at, inner),
            Expr::Integer { at, spelling } => self.spelled(spelling, *at),
            Expr::Text { at, spelling } => self.spelled(spelling, *at),
            Expr::Constant { constant, at } => self.leaf(word_of(*constant), *at),
            Expr::List { at, items } => self.list(*at, items),
            Expr::Map { at, entries } => self.map(*at, entries),
            Expr::Name { at, spelling } => self.spelled(spelling, *at),
            Expr::Call {
                at,
                spelling,
                arguments,
            } => self.call(*at, spelling, arguments),
            Expr::New { at, of, arguments } => self.new_object(*at, of, arguments),
            Expr::NewArray { at, of, sizes } => self.new_array("array", *at, of, sizes),
            Expr::NewItems { at, of, items } => self.new_array("items", *at, of, items),
            Expr::Type { of } => self.type_parts(of),
            Expr::Member {
                access,
                at,
                receiver,
                spelling,
            } => self.member(*access, receiver, spelling, *at),
            Expr::Method {
                access,
                at,
                receiver,
                spelling,
                arguments,
            } => self.method(*access, receiver, spelling, *at, arguments),
            Expr::Element {
                access,
                at,
                receiver,
                spelling,
            } => self.member(*access, receiver, spelling, *at),
            Expr::Index {
                at,
                receiver,
                index,
            } => self.two("index", "", *at, receiver, index),
        }
    }

    fn choice(
        &mut self,
        at: u32,
        condition: &'a Subtree<Expr>,
        then: &'a Body,
        otherwise: &'a Option<Body>,
    ) -> Result<(), AllocError> {
        self.word(")")?;
        if let Some(otherwise) = otherwise {
            self.body(otherwise)?;
            self.word(" else")?;
        }
        self.body(then)?;
        self.expr(condition)?;
        self.head("if", "", at)
    }

    fn while_loop(
        &mut self,
        at: u32,
        condition: &'a Subtree<Expr>,
        body: &'a Option<Body>,
    ) -> Result<(), AllocError> {
        self.word(")")?;
        self.body_if_any(body)?;
        self.expr(condition)?;
        self.head("while", "", at)
    }

    fn for_loop(
        &mut self,
        at: u32,
        first: &'a Option<First>,
        condition: &'a Option<Subtree<Expr>>,
        update: &'a Option<Subtree<Expr>>,
        body: &'a Option<Body>,
    ) -> Result<(), AllocError> {
        self.word(")")?;
        self.body_if_any(body)?;
        self.expr_if_any(update)?;
        self.expr_if_any(condition)?;
        self.first_if_any(first)?;
        self.head("for", "", at)
    }

    /// What goes through items, and where they are.
    fn through(
        &mut self,
        name: &'a Spelled,
        over: &'a Subtree<Expr>,
        body: &'a Body,
    ) -> Result<(), AllocError> {
        self.word(")")?;
        self.body(body)?;
        self.expr(over)?;
        self.name(name)
    }

    fn attempt(
        &mut self,
        at: u32,
        block: &'a Block,
        catches: &'a Items<Catch>,
    ) -> Result<(), AllocError> {
        self.word(")")?;
        put_list(
            &mut self.catches,
            &mut self.left,
            Piece::Catch,
            Piece::Blank,
            catches.as_slice(),
        )?;
        self.block(block)?;
        self.head("try", "", at)
    }

    fn do_loop(
        &mut self,
        at: u32,
        block: &'a Block,
        condition: &'a Subtree<Expr>,
    ) -> Result<(), AllocError> {
        self.word(")")?;
        self.expr(condition)?;
        self.block(block)?;
        self.head("do", "", at)
    }

    fn returned(&mut self, at: u32, value: &'a Option<Argument>) -> Result<(), AllocError> {
        self.word(")")?;
        if let Some(value) = value {
            self.argument(value)?;
        }
        self.head("return", "", at)
    }

    fn statement_parts(&mut self, statement: &'a Statement) -> Result<(), AllocError> {
        match statement {
            Statement::If {
                at,
                condition,
                then,
                otherwise,
            } => self.choice(*at, condition, then, otherwise),
            Statement::While {
                at,
                condition,
                body,
            } => self.while_loop(*at, condition, body),
            Statement::For {
                at,
                first,
                condition,
                update,
                body,
            } => self.for_loop(*at, first, condition, update, body),
            Statement::ForEach {
                at,
                of,
                name,
                over,
                body,
            } => {
                self.through(name, over, body)?;
                self.type_name(of)?;
                self.head("each", "", *at)
            }
            Statement::ForIn {
                at,
                name,
                over,
                body,
            } => {
                self.through(name, over, body)?;
                self.head("in", "", *at)
            }
            Statement::Try { at, block, catches } => self.attempt(*at, block, catches),
            Statement::Do {
                at,
                block,
                condition,
            } => self.do_loop(*at, block, condition),
            Statement::Declare(declaration) => self.declaration(declaration),
            Statement::Continue { at } => self.leaf("continue", *at),
            Statement::Break { at } => self.leaf("break", *at),
            Statement::Return { at, value } => self.returned(*at, value),
            Statement::Throw { at, value } => self.one("throw", *at, value),
            Statement::Expression { at, value } => {
                self.exprs.push(value)?;
                self.put(Piece::Expr)?;
                self.put(Piece::Place(*at))
            }
        }
    }

    fn block_parts(&mut self, block: &'a Block) -> Result<(), AllocError> {
        self.leaf("}", block.at)?;
        self.statements(&block.statements)?;
        self.put(Piece::Open("{"))
    }

    fn body_parts(&mut self, body: &'a Body) -> Result<(), AllocError> {
        match body {
            Body::Block(block) => self.block_parts(block),
            Body::Statement(statement) => self.statement_parts(statement.get()),
        }
    }

    fn lambda(
        &mut self,
        at: u32,
        parameters: &'a Items<Parameter>,
        body: &'a LambdaBody,
    ) -> Result<(), AllocError> {
        self.word(")")?;
        match body {
            LambdaBody::Block(block) => self.block(block)?,
            LambdaBody::Expression(value) => self.expr(value)?,
        }
        self.parameters(parameters)?;
        self.head("->", "", at)
    }

    fn argument_parts(&mut self, argument: &'a Argument) -> Result<(), AllocError> {
        match argument {
            Argument::Value(value) => self.expr_parts(value.get()),
            Argument::Lambda {
                at,
                parameters,
                body,
            } => self.lambda(*at, parameters, body),
            Argument::Reference { of, spelling } => {
                self.word(")")?;
                self.spellings.push(spelling)?;
                self.put(Piece::Spelling)?;
                self.put(Piece::Blank)?;
                self.type_name(of)?;
                self.word("(::")
            }
            Argument::NewReference { of } => {
                self.word(" new)")?;
                self.type_name(of)?;
                self.word("(::")
            }
            Argument::ThisReference { at, spelling } => {
                self.word(")")?;
                self.spellings.push(spelling)?;
                self.put(Piece::Spelling)?;
                self.put(Piece::Blank)?;
                self.leaf("(:: this", *at)
            }
        }
    }

    fn parameter_parts(&mut self, parameter: &'a Parameter) -> Result<(), AllocError> {
        self.name(&parameter.name)?;
        match &parameter.of {
            Some(of) => self.type_name(of),
            None => Ok(()),
        }
    }

    fn variable_parts(&mut self, variable: &'a Variable) -> Result<(), AllocError> {
        if let Some(value) = &variable.value {
            self.arguments.push(value)?;
            self.put(Piece::Argument)?;
            self.word("=")?;
        }
        self.name(&variable.name)
    }

    fn entry_parts(&mut self, entry: &'a Entry) -> Result<(), AllocError> {
        self.exprs.push(&entry.value)?;
        self.put(Piece::Expr)?;
        self.word(":")?;
        self.expr(&entry.key)
    }

    fn catch_parts(&mut self, handler: &'a Catch) -> Result<(), AllocError> {
        self.word(")")?;
        self.block(&handler.block)?;
        self.name(&handler.name)?;
        self.type_name(&handler.of)?;
        self.head("catch", "", handler.at)
    }

    fn declaration_parts(&mut self, declaration: &'a Declaration) -> Result<(), AllocError> {
        self.word(")")?;
        put_list(
            &mut self.variables,
            &mut self.left,
            Piece::Variable,
            Piece::Blank,
            declaration.variables.as_slice(),
        )?;
        self.type_name(&declaration.of)?;
        self.word("(declare")
    }

    fn function_parts(&mut self, function: &'a Function) -> Result<(), AllocError> {
        self.word(")")?;
        self.block(&function.body)?;
        self.parameters(&function.parameters)?;
        self.name(&function.name)?;
        self.type_name(&function.result)?;
        self.word("(fun")
    }

    /// Puts on the parts of the next node of a kind.
    pub fn open(&mut self, kind: Piece) -> Result<(), AllocError> {
        match kind {
            Piece::Type => match self.types.pop() {
                Some(of) => self.type_parts(of),
                None => Ok(()),
            },
            Piece::Parameter => match self.parameters.pop() {
                Some(parameter) => self.parameter_parts(parameter),
                None => Ok(()),
            },
            Piece::Expr => match self.exprs.pop() {
                Some(expr) => self.expr_parts(expr.get()),
                None => Ok(()),
            },
            Piece::Entry => match self.entries.pop() {
                Some(entry) => self.entry_parts(entry),
                None => Ok(()),
            },
            Piece::Argument => match self.arguments.pop() {
                Some(argument) => self.argument_parts(argument),
                None => Ok(()),
            },
            Piece::Block => match self.blocks.pop() {
                Some(block) => self.block_parts(block),
                None => Ok(()),
            },
            Piece::Body => match self.bodies.pop() {
                Some(body) => self.body_parts(body),
                None => Ok(()),
            },
            Piece::Statement => match self.statements.pop() {
                Some(statement) => self.statement_parts(statement.get()),
                None => Ok(()),
            },
            Piece::Catch => match self.catches.pop() {
                Some(handler) => self.catch_parts(handler),
                None => Ok(()),
            },
            Piece::Declaration => match self.declarations.pop() {
                Some(declaration) => self.declaration_parts(declaration),
                None => Ok(()),
            },
            Piece::Variable => match self.variables.pop() {
                Some(variable) => self.variable_parts(variable),
                None => Ok(()),
            },
            Piece::Function => match self.functions.pop() {
                Some(function) => self.function_parts(function),
                None => Ok(()),
            },
            _ => Ok(()),
        }
    }
}
