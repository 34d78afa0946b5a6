//! Values that are taken off the stack by their kinds.

ghost use Rattle.std.specs.Prelude.{◌≡◌, true, ◌∷◌, Some};
ghost use Rattle.parse_values.specs.declared.value.Value.TheVariants as v;
ghost use Rattle.parse_values.specs.Values as spec;
ghost use Rattle.parse_values.specs.Values.{starts_with};

use crate::stack::{Stack, discard};
use parse_values::Value;
use pl_grammar::{ForRest, Member, New, Operation, Placed, Suffix, Tail, Three};
use pl_lexer::Token;
use pl_tree::{
    Argument, Block, Body, Catch, Declaration, Entry, Expr, First, Function, LambdaBody, Parameter,
    Spelled, Statement, TypeName, Variable,
};
use plain_data::{Items, Subtree};

impl Stack {
    /// Takes the value on the top, a token.
    pub fn token(&mut self) -> Token
        requires { starts_with spec.is_token self.old ≡ true }
        ensures { self.old ≡ v.Token (Some result) ∷ self.new }
    {
        let mut value = self.pop();
        let taken = match &mut value {
            Value::Token(tree) => tree.take(),
            _ => None,
        };
        discard(value);
        let Some(token) = taken else { unreachable!() };
        token
    }

    /// Takes the value on the top, a token with its bytes.
    pub fn spelled(&mut self) -> Spelled
        requires { starts_with spec.is_spelled self.old ≡ true }
        ensures { self.old ≡ v.Spelled (Some result) ∷ self.new }
    {
        let mut value = self.pop();
        let taken = match &mut value {
            Value::Spelled(tree) => tree.take(),
            _ => None,
        };
        discard(value);
        let Some(spelled) = taken else { unreachable!() };
        spelled
    }

    /// Takes the value on the top, a function.
    pub fn function(&mut self) -> Function
        requires { starts_with spec.is_function self.old ≡ true }
        ensures { self.old ≡ v.Function (Some result) ∷ self.new }
    {
        let mut value = self.pop();
        let taken = match &mut value {
            Value::Function(tree) => tree.take(),
            _ => None,
        };
        discard(value);
        let Some(function) = taken else {
            unreachable!()
        };
        function
    }

    /// Takes the value on the top, a parameter.
    pub fn parameter(&mut self) -> Parameter
        requires { starts_with spec.is_parameter self.old ≡ true }
        ensures { self.old ≡ v.Parameter (Some result) ∷ self.new }
    {
        let mut value = self.pop();
        let taken = match &mut value {
            Value::Parameter(tree) => tree.take(),
            _ => None,
        };
        discard(value);
        let Some(parameter) = taken else {
            unreachable!()
        };
        parameter
    }

    /// Takes the value on the top, parameters.
    pub fn parameters(&mut self) -> Items<Parameter>
        requires { starts_with spec.is_parameters self.old ≡ true }
        ensures { self.old ≡ v.Parameters (Some result) ∷ self.new }
    {
        let mut value = self.pop();
        let taken = match &mut value {
            Value::Parameters(tree) => tree.take(),
            _ => None,
        };
        discard(value);
        let Some(parameters) = taken else {
            unreachable!()
        };
        parameters
    }

    /// Takes the value on the top, a type.
    pub fn type_name(&mut self) -> TypeName
        requires { starts_with spec.is_type_name self.old ≡ true }
        ensures { self.old ≡ v.TypeName (Some result) ∷ self.new }
    {
        let mut value = self.pop();
        let taken = match &mut value {
            Value::TypeName(tree) => tree.take(),
            _ => None,
        };
        discard(value);
        let Some(type_name) = taken else {
            unreachable!()
        };
        type_name
    }

    /// Takes the value on the top, the place of a `[ ]`.
    pub fn place(&mut self) -> u32
        requires { starts_with spec.is_place self.old ≡ true }
        ensures { self.old ≡ v.Place (Some result) ∷ self.new }
    {
        let mut value = self.pop();
        let taken = match &mut value {
            Value::Place(tree) => tree.take(),
            _ => None,
        };
        discard(value);
        let Some(place) = taken else { unreachable!() };
        place
    }

    /// Takes the value on the top, places.
    pub fn places(&mut self) -> Items<u32>
        requires { starts_with spec.is_places self.old ≡ true }
        ensures { self.old ≡ v.Places (Some result) ∷ self.new }
    {
        let mut value = self.pop();
        let taken = match &mut value {
            Value::Places(tree) => tree.take(),
            _ => None,
        };
        discard(value);
        let Some(places) = taken else { unreachable!() };
        places
    }

    /// Takes the value on the top, a block.
    pub fn block(&mut self) -> Block
        requires { starts_with spec.is_block self.old ≡ true }
        ensures { self.old ≡ v.Block (Some result) ∷ self.new }
    {
        let mut value = self.pop();
        let taken = match &mut value {
            Value::Block(tree) => tree.take(),
            _ => None,
        };
        discard(value);
        let Some(block) = taken else { unreachable!() };
        block
    }

    /// Takes the value on the top, a statement.
    pub fn statement(&mut self) -> Subtree<Statement>
        requires { starts_with spec.is_statement self.old ≡ true }
        ensures { self.old ≡ v.Statement (Some result) ∷ self.new }
    {
        let mut value = self.pop();
        let taken = match &mut value {
            Value::Statement(tree) => tree.take(),
            _ => None,
        };
        discard(value);
        let Some(statement) = taken else {
            unreachable!()
        };
        statement
    }

    /// Takes the value on the top, statements.
    pub fn statements(&mut self) -> Items<Subtree<Statement>>
        requires { starts_with spec.is_statements self.old ≡ true }
        ensures { self.old ≡ v.Statements (Some result) ∷ self.new }
    {
        let mut value = self.pop();
        let taken = match &mut value {
            Value::Statements(tree) => tree.take(),
            _ => None,
        };
        discard(value);
        let Some(statements) = taken else {
            unreachable!()
        };
        statements
    }

    /// Takes the value on the top, a body.
    pub fn body(&mut self) -> Body
        requires { starts_with spec.is_body self.old ≡ true }
        ensures { self.old ≡ v.Body (Some result) ∷ self.new }
    {
        let mut value = self.pop();
        let taken = match &mut value {
            Value::Body(tree) => tree.take(),
            _ => None,
        };
        discard(value);
        let Some(body) = taken else { unreachable!() };
        body
    }

    /// Takes the value on the top, what a loop runs.
    pub fn run(&mut self) -> Option<Body>
        requires { starts_with spec.is_run self.old ≡ true }
        ensures { self.old ≡ v.Run (Some result) ∷ self.new }
    {
        let mut value = self.pop();
        let taken = match &mut value {
            Value::Run(tree) => tree.take(),
            _ => None,
        };
        discard(value);
        let Some(run) = taken else { unreachable!() };
        run
    }

    /// Takes the value on the top, the rest of the head of a `for`.
    pub fn for_rest(&mut self) -> ForRest
        requires { starts_with spec.is_for_rest self.old ≡ true }
        ensures { self.old ≡ v.ForRest (Some result) ∷ self.new }
    {
        let mut value = self.pop();
        let taken = match &mut value {
            Value::ForRest(tree) => tree.take(),
            _ => None,
        };
        discard(value);
        let Some(for_rest) = taken else {
            unreachable!()
        };
        for_rest
    }

    /// Takes the value on the top, the rest of the head of a `for` with `;`.
    pub fn three(&mut self) -> Three
        requires { starts_with spec.is_three self.old ≡ true }
        ensures { self.old ≡ v.Three (Some result) ∷ self.new }
    {
        let mut value = self.pop();
        let taken = match &mut value {
            Value::Three(tree) => tree.take(),
            _ => None,
        };
        discard(value);
        let Some(three) = taken else { unreachable!() };
        three
    }

    /// Takes the value on the top, the rest of that.
    pub fn tail(&mut self) -> Tail
        requires { starts_with spec.is_tail self.old ≡ true }
        ensures { self.old ≡ v.Tail (Some result) ∷ self.new }
    {
        let mut value = self.pop();
        let taken = match &mut value {
            Value::Tail(tree) => tree.take(),
            _ => None,
        };
        discard(value);
        let Some(tail) = taken else { unreachable!() };
        tail
    }

    /// Takes the value on the top, the first part of a `for`.
    pub fn first(&mut self) -> First
        requires { starts_with spec.is_first self.old ≡ true }
        ensures { self.old ≡ v.First (Some result) ∷ self.new }
    {
        let mut value = self.pop();
        let taken = match &mut value {
            Value::First(tree) => tree.take(),
            _ => None,
        };
        discard(value);
        let Some(first) = taken else { unreachable!() };
        first
    }

    /// Takes the value on the top, a catch.
    pub fn catch_clause(&mut self) -> Catch
        requires { starts_with spec.is_catch self.old ≡ true }
        ensures { self.old ≡ v.Catch (Some result) ∷ self.new }
    {
        let mut value = self.pop();
        let taken = match &mut value {
            Value::Catch(tree) => tree.take(),
            _ => None,
        };
        discard(value);
        let Some(catch_clause) = taken else {
            unreachable!()
        };
        catch_clause
    }

    /// Takes the value on the top, catches.
    pub fn catches(&mut self) -> Items<Catch>
        requires { starts_with spec.is_catches self.old ≡ true }
        ensures { self.old ≡ v.Catches (Some result) ∷ self.new }
    {
        let mut value = self.pop();
        let taken = match &mut value {
            Value::Catches(tree) => tree.take(),
            _ => None,
        };
        discard(value);
        let Some(catches) = taken else { unreachable!() };
        catches
    }

    /// Takes the value on the top, a declaration.
    pub fn declaration(&mut self) -> Declaration
        requires { starts_with spec.is_declaration self.old ≡ true }
        ensures { self.old ≡ v.Declaration (Some result) ∷ self.new }
    {
        let mut value = self.pop();
        let taken = match &mut value {
            Value::Declaration(tree) => tree.take(),
            _ => None,
        };
        discard(value);
        let Some(declaration) = taken else {
            unreachable!()
        };
        declaration
    }

    /// Takes the value on the top, a variable.
    pub fn variable(&mut self) -> Variable
        requires { starts_with spec.is_variable self.old ≡ true }
        ensures { self.old ≡ v.Variable (Some result) ∷ self.new }
    {
        let mut value = self.pop();
        let taken = match &mut value {
            Value::Variable(tree) => tree.take(),
            _ => None,
        };
        discard(value);
        let Some(variable) = taken else {
            unreachable!()
        };
        variable
    }

    /// Takes the value on the top, variables.
    pub fn variables(&mut self) -> Items<Variable>
        requires { starts_with spec.is_variables self.old ≡ true }
        ensures { self.old ≡ v.Variables (Some result) ∷ self.new }
    {
        let mut value = self.pop();
        let taken = match &mut value {
            Value::Variables(tree) => tree.take(),
            _ => None,
        };
        discard(value);
        let Some(variables) = taken else {
            unreachable!()
        };
        variables
    }

    /// Takes the value on the top, an argument.
    pub fn argument(&mut self) -> Argument
        requires { starts_with spec.is_argument self.old ≡ true }
        ensures { self.old ≡ v.Argument (Some result) ∷ self.new }
    {
        let mut value = self.pop();
        let taken = match &mut value {
            Value::Argument(tree) => tree.take(),
            _ => None,
        };
        discard(value);
        let Some(argument) = taken else {
            unreachable!()
        };
        argument
    }

    /// Takes the value on the top, arguments.
    pub fn arguments(&mut self) -> Items<Argument>
        requires { starts_with spec.is_arguments self.old ≡ true }
        ensures { self.old ≡ v.Arguments (Some result) ∷ self.new }
    {
        let mut value = self.pop();
        let taken = match &mut value {
            Value::Arguments(tree) => tree.take(),
            _ => None,
        };
        discard(value);
        let Some(arguments) = taken else {
            unreachable!()
        };
        arguments
    }

    /// Takes the value on the top, an expression with its place.
    pub fn placed(&mut self) -> Placed
        requires { starts_with spec.is_placed self.old ≡ true }
        ensures { self.old ≡ v.Placed (Some result) ∷ self.new }
    {
        let mut value = self.pop();
        let taken = match &mut value {
            Value::Placed(tree) => tree.take(),
            _ => None,
        };
        discard(value);
        let Some(placed) = taken else { unreachable!() };
        placed
    }

    /// Takes the value on the top, what follows `new` and a type.
    pub fn new_rest(&mut self) -> New
        requires { starts_with spec.is_new self.old ≡ true }
        ensures { self.old ≡ v.New (Some result) ∷ self.new }
    {
        let mut value = self.pop();
        let taken = match &mut value {
            Value::New(tree) => tree.take(),
            _ => None,
        };
        discard(value);
        let Some(new_rest) = taken else {
            unreachable!()
        };
        new_rest
    }

    /// Takes the value on the top, an expression.
    pub fn expr(&mut self) -> Subtree<Expr>
        requires { starts_with spec.is_expr self.old ≡ true }
        ensures { self.old ≡ v.Expr (Some result) ∷ self.new }
    {
        let mut value = self.pop();
        let taken = match &mut value {
            Value::Expr(tree) => tree.take(),
            _ => None,
        };
        discard(value);
        let Some(expr) = taken else { unreachable!() };
        expr
    }

    /// Takes the value on the top, expressions.
    pub fn exprs(&mut self) -> Items<Subtree<Expr>>
        requires { starts_with spec.is_exprs self.old ≡ true }
        ensures { self.old ≡ v.Exprs (Some result) ∷ self.new }
    {
        let mut value = self.pop();
        let taken = match &mut value {
            Value::Exprs(tree) => tree.take(),
            _ => None,
        };
        discard(value);
        let Some(exprs) = taken else { unreachable!() };
        exprs
    }

    /// Takes the value on the top, an entry.
    pub fn entry(&mut self) -> Entry
        requires { starts_with spec.is_entry self.old ≡ true }
        ensures { self.old ≡ v.Entry (Some result) ∷ self.new }
    {
        let mut value = self.pop();
        let taken = match &mut value {
            Value::Entry(tree) => tree.take(),
            _ => None,
        };
        discard(value);
        let Some(entry) = taken else { unreachable!() };
        entry
    }

    /// Takes the value on the top, entries.
    pub fn entries(&mut self) -> Items<Entry>
        requires { starts_with spec.is_entries self.old ≡ true }
        ensures { self.old ≡ v.Entries (Some result) ∷ self.new }
    {
        let mut value = self.pop();
        let taken = match &mut value {
            Value::Entries(tree) => tree.take(),
            _ => None,
        };
        discard(value);
        let Some(entries) = taken else { unreachable!() };
        entries
    }

    /// Takes the value on the top, a member or an index.
    pub fn suffix(&mut self) -> Suffix
        requires { starts_with spec.is_suffix self.old ≡ true }
        ensures { self.old ≡ v.Suffix (Some result) ∷ self.new }
    {
        let mut value = self.pop();
        let taken = match &mut value {
            Value::Suffix(tree) => tree.take(),
            _ => None,
        };
        discard(value);
        let Some(suffix) = taken else { unreachable!() };
        suffix
    }

    /// Takes the value on the top, members and indexes.
    pub fn suffixes(&mut self) -> Items<Suffix>
        requires { starts_with spec.is_suffixes self.old ≡ true }
        ensures { self.old ≡ v.Suffixes (Some result) ∷ self.new }
    {
        let mut value = self.pop();
        let taken = match &mut value {
            Value::Suffixes(tree) => tree.take(),
            _ => None,
        };
        discard(value);
        let Some(suffixes) = taken else {
            unreachable!()
        };
        suffixes
    }

    /// Takes the value on the top, a member.
    pub fn member(&mut self) -> Member
        requires { starts_with spec.is_member self.old ≡ true }
        ensures { self.old ≡ v.Member (Some result) ∷ self.new }
    {
        let mut value = self.pop();
        let taken = match &mut value {
            Value::Member(tree) => tree.take(),
            _ => None,
        };
        discard(value);
        let Some(member) = taken else { unreachable!() };
        member
    }

    /// Takes the value on the top, what follows `::`.
    pub fn ref_name(&mut self) -> Option<Spelled>
        requires { starts_with spec.is_ref_name self.old ≡ true }
        ensures { self.old ≡ v.RefName (Some result) ∷ self.new }
    {
        let mut value = self.pop();
        let taken = match &mut value {
            Value::RefName(tree) => tree.take(),
            _ => None,
        };
        discard(value);
        let Some(ref_name) = taken else {
            unreachable!()
        };
        ref_name
    }

    /// Takes the value on the top, what a lambda runs.
    pub fn lambda_body(&mut self) -> LambdaBody
        requires { starts_with spec.is_lambda_body self.old ≡ true }
        ensures { self.old ≡ v.LambdaBody (Some result) ∷ self.new }
    {
        let mut value = self.pop();
        let taken = match &mut value {
            Value::LambdaBody(tree) => tree.take(),
            _ => None,
        };
        discard(value);
        let Some(lambda_body) = taken else {
            unreachable!()
        };
        lambda_body
    }

    /// Takes the value on the top, an operation.
    pub fn operation(&mut self) -> Operation
        requires { starts_with spec.is_operation self.old ≡ true }
        ensures { self.old ≡ v.Operation (Some result) ∷ self.new }
    {
        let mut value = self.pop();
        let taken = match &mut value {
            Value::Operation(tree) => tree.take(),
            _ => None,
        };
        discard(value);
        let Some(operation) = taken else {
            unreachable!()
        };
        operation
    }

    /// Takes the value on the top, operations.
    pub fn operations(&mut self) -> Items<Operation>
        requires { starts_with spec.is_operations self.old ≡ true }
        ensures { self.old ≡ v.Operations (Some result) ∷ self.new }
    {
        let mut value = self.pop();
        let taken = match &mut value {
            Value::Operations(tree) => tree.take(),
            _ => None,
        };
        discard(value);
        let Some(operations) = taken else {
            unreachable!()
        };
        operations
    }
}
