//! Programs.

use crate::statement::TypedStatement;
use pl_types::Ty;
use plain_data::{Items, Subtree, Text};

/// What calls a function.
#[derive(Clone, Copy, Debug, PartialEq, Eq)]
pub enum FunctionKind {
    /// The main script, which is run.
    Main,
    /// A function of the script, which is called by its name.
    Named,
    /// A lambda, or `this::` and a function's name, which is called as a function value.
    Lambda,
}

/// A name, and the type of what it stands for.
pub struct Named {
    pub name: Text,
    pub of: Ty,
}

impl Drop for Named {
    fn drop(self) {
        let Named {
            name: _name,
            of: _of,
        } = self;
    }
}

/// What is run: the main script, a function or a lambda. One that ends without a return gives its result type's default.
pub struct TypedFunction {
    pub kind: FunctionKind,
    /// A function's name, or a lambda's first token.
    pub at: u32,
    /// The name of a function.
    pub name: Text,
    /// What a lambda copies when it is made, by the names in the function around it.
    pub captured: Items<Named>,
    /// The variables of the context, of the main script.
    pub parameters: Items<Named>,
    pub result: Ty,
    pub body: Items<Subtree<TypedStatement>>,
}

impl Drop for TypedFunction {
    fn drop(self) {
        let TypedFunction {
            kind: _,
            at: _,
            name: _name,
            captured: _captured,
            parameters: _parameters,
            result: _result,
            body: _body,
        } = self;
    }
}

/// A script whose names and types are settled.
///
/// The number of the main script is 0, and number k is `functions[k - 1]`: the script's functions in their order, and then the lambdas
/// by their first tokens.
pub struct Program {
    pub functions: Items<TypedFunction>,
    pub main: TypedFunction,
}

impl Drop for Program {
    fn drop(self) {
        let Program {
            functions: _functions,
            main: _main,
        } = self;
    }
}

impl Program {
    /// Lets it go.
    pub fn discard(self) {}
}
