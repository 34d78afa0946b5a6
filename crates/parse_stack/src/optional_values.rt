//! Values that are taken off the stack by their kinds, where they may be left out.

ghost use Rattle.std.specs.Prelude.{◌≡◌, true, ◌∷◌};
ghost use Rattle.parse_values.specs.declared.value.Value.TheVariants as v;
ghost use Rattle.parse_values.specs.Values as spec;
ghost use Rattle.parse_values.specs.Values.{starts_with, option_value, held};

use crate::stack::{Stack, discard};
use parse_values::Value;
use pl_grammar::{Contents, ElvisRest, ExprRest, More, Placed};
use pl_lexer::Token;
use pl_tree::{Argument, Body, Expr, Parameter};
use plain_data::{Items, Subtree};

impl Stack {
    /// Takes the value on the top, parameters, which may be left out.
    pub fn parameters_if_any(&mut self) -> Option<Items<Parameter>>
        requires { starts_with (spec.is_any spec.is_parameters) self.old ≡ true }
        ensures { self.old ≡ option_value (held v.Parameters) result ∷ self.new }
    {
        let mut value = self.pop();
        let taken = match &mut value {
            Value::Parameters(tree) => tree.take(),
            _ => None,
        };
        discard(value);
        taken
    }

    /// Takes the value on the top, a token, which may be left out.
    pub fn token_if_any(&mut self) -> Option<Token>
        requires { starts_with (spec.is_any spec.is_token) self.old ≡ true }
        ensures { self.old ≡ option_value (held v.Token) result ∷ self.new }
    {
        let mut value = self.pop();
        let taken = match &mut value {
            Value::Token(tree) => tree.take(),
            _ => None,
        };
        discard(value);
        taken
    }

    /// Takes the value on the top, a body, which may be left out.
    pub fn body_if_any(&mut self) -> Option<Body>
        requires { starts_with (spec.is_any spec.is_body) self.old ≡ true }
        ensures { self.old ≡ option_value (held v.Body) result ∷ self.new }
    {
        let mut value = self.pop();
        let taken = match &mut value {
            Value::Body(tree) => tree.take(),
            _ => None,
        };
        discard(value);
        taken
    }

    /// Takes the value on the top, an expression with its place, which may be left out.
    pub fn placed_if_any(&mut self) -> Option<Placed>
        requires { starts_with (spec.is_any spec.is_placed) self.old ≡ true }
        ensures { self.old ≡ option_value (held v.Placed) result ∷ self.new }
    {
        let mut value = self.pop();
        let taken = match &mut value {
            Value::Placed(tree) => tree.take(),
            _ => None,
        };
        discard(value);
        taken
    }

    /// Takes the value on the top, an argument, which may be left out.
    pub fn argument_if_any(&mut self) -> Option<Argument>
        requires { starts_with (spec.is_any spec.is_argument) self.old ≡ true }
        ensures { self.old ≡ option_value (held v.Argument) result ∷ self.new }
    {
        let mut value = self.pop();
        let taken = match &mut value {
            Value::Argument(tree) => tree.take(),
            _ => None,
        };
        discard(value);
        taken
    }

    /// Takes the value on the top, arguments, which may be left out.
    pub fn arguments_if_any(&mut self) -> Option<Items<Argument>>
        requires { starts_with (spec.is_any spec.is_arguments) self.old ≡ true }
        ensures { self.old ≡ option_value (held v.Arguments) result ∷ self.new }
    {
        let mut value = self.pop();
        let taken = match &mut value {
            Value::Arguments(tree) => tree.take(),
            _ => None,
        };
        discard(value);
        taken
    }

    /// Takes the value on the top, the rest of an expression, which may be left out.
    pub fn expr_rest_if_any(&mut self) -> Option<ExprRest>
        requires { starts_with (spec.is_any spec.is_expr_rest) self.old ≡ true }
        ensures { self.old ≡ option_value (held v.ExprRest) result ∷ self.new }
    {
        let mut value = self.pop();
        let taken = match &mut value {
            Value::ExprRest(tree) => tree.take(),
            _ => None,
        };
        discard(value);
        taken
    }

    /// Takes the value on the top, the right side of `?:`, which may be left out.
    pub fn elvis_rest_if_any(&mut self) -> Option<ElvisRest>
        requires { starts_with (spec.is_any spec.is_elvis_rest) self.old ≡ true }
        ensures { self.old ≡ option_value (held v.ElvisRest) result ∷ self.new }
    {
        let mut value = self.pop();
        let taken = match &mut value {
            Value::ElvisRest(tree) => tree.take(),
            _ => None,
        };
        discard(value);
        taken
    }

    /// Takes the value on the top, expressions, which may be left out.
    pub fn exprs_if_any(&mut self) -> Option<Items<Subtree<Expr>>>
        requires { starts_with (spec.is_any spec.is_exprs) self.old ≡ true }
        ensures { self.old ≡ option_value (held v.Exprs) result ∷ self.new }
    {
        let mut value = self.pop();
        let taken = match &mut value {
            Value::Exprs(tree) => tree.take(),
            _ => None,
        };
        discard(value);
        taken
    }

    /// Takes the value on the top, what stands in the brackets of a list or a map, which may be left out.
    pub fn contents_if_any(&mut self) -> Option<Contents>
        requires { starts_with (spec.is_any spec.is_contents) self.old ≡ true }
        ensures { self.old ≡ option_value (held v.Contents) result ∷ self.new }
    {
        let mut value = self.pop();
        let taken = match &mut value {
            Value::Contents(tree) => tree.take(),
            _ => None,
        };
        discard(value);
        taken
    }

    /// Takes the value on the top, what follows the first item of a list or the first key of a map, which may be left out.
    pub fn more_if_any(&mut self) -> Option<More>
        requires { starts_with (spec.is_any spec.is_more) self.old ≡ true }
        ensures { self.old ≡ option_value (held v.More) result ∷ self.new }
    {
        let mut value = self.pop();
        let taken = match &mut value {
            Value::More(tree) => tree.take(),
            _ => None,
        };
        discard(value);
        taken
    }
}
