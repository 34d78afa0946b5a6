//! The builders as the parser's actions.

use crate::reducing::reduce;
use crate::script::{take_function, take_statements};
use crate::series::{extend, push_none};
use parse_stack::Stack;
use parse_tables::{Rule, Series};
use parse_values::{Actions, Value};
use pl_lexer::Token;
use pl_tree::{Spelled, Tree};
use std::alloc::{AllocError, Global};

/// Builds the trees of what is read.
pub struct Builder {
    stack: Stack,
}

impl Drop for Builder {
    /// Written out, so that no crate above proves it again.
    fn drop(self) {
        let Builder { stack: _stack } = self;
    }
}

impl Actions for Builder {
    ghost values = { λ b. b.stack };

    fn new(alloc: Global) -> Builder {
        Builder {
            stack: Stack::new(alloc),
        }
    }

    fn push_token(&mut self, alloc: Global, token: Token) -> Result<(), AllocError> {
        self.stack.push(alloc, Value::Token(Some(token)))
    }

    fn push_spelled(&mut self, alloc: Global, spelled: Spelled) -> Result<(), AllocError> {
        self.stack.push(alloc, Value::Spelled(Some(spelled)))
    }

    fn push_nothing(&mut self, alloc: Global) -> Result<(), AllocError> {
        self.stack.push(alloc, Value::Nothing)
    }

    fn push_none(&mut self, alloc: Global, series: Series) -> Result<(), AllocError> {
        push_none(alloc, series, &mut self.stack)
    }

    fn extend(&mut self, alloc: Global, series: Series) -> Result<(), AllocError> {
        extend(alloc, series, &mut self.stack)
    }

    fn reduce(&mut self, alloc: Global, rule: Rule) -> Result<(), AllocError> {
        reduce(alloc, rule, &mut self.stack)
    }

    fn take_function(&mut self, script: &mut Tree) -> Result<(), AllocError> {
        take_function(&mut self.stack, script)
    }

    fn take_statements(&mut self, script: &mut Tree) -> Result<(), AllocError> {
        take_statements(&mut self.stack, script)
    }
}
