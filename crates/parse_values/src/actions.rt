//! What is done with what is read.

ghost use Rattle.std.specs.Prelude.{◌≡◌, List, [], ◌∷◌, Some, OnOk};
ghost use Rattle.parse_tables.specs.Names.{production_of, series_form};
ghost use Rattle.parse_values.specs.declared.value.Value as declared;
ghost use Rattle.parse_values.specs.declared.value.Value.TheVariants as v;
ghost use Rattle.parse_values.specs.Values.{list_value, value_of};
ghost use Rattle.parse_values.specs.Stack.{AreOnTop, Reduces, IsOnSeveral, Extends, FunctionOnTop, TakesFunction, StatementsOnTop, TakesStatements};

use parse_tables::{Rule, Series};
use pl_lexer::Token;
use pl_tree::{Spelled, Tree};
use std::alloc::{AllocError, Global};

/// The semantic actions of the parser. Each keeps what is read on a stack of values, one for each symbol that no rule has taken
/// yet.
///
/// An error is want of memory; nothing is known then of what is on the stack or of what the script has.
pub trait Actions: Drop {
    /// The values on the stack, the last of them first.
    ghost values: { Self → List declared.Value };

    /// With no values.
    fn new(alloc: Global) -> Self
        ensures { values result ≡ [] };

    /// Puts a token on the top.
    fn push_token(&mut self, alloc: Global, token: Token) -> Result<(), AllocError>
        ensures { OnOk result (values self.new ≡ v.Token (Some token) ∷ values self.old) };

    /// Puts a token with its bytes on the top.
    fn push_spelled(&mut self, alloc: Global, spelled: Spelled) -> Result<(), AllocError>
        ensures { OnOk result (values self.new ≡ v.Spelled (Some spelled) ∷ values self.old) };

    /// Puts on the top that a phrase is left out.
    fn push_nothing(&mut self, alloc: Global) -> Result<(), AllocError>
        ensures { OnOk result (values self.new ≡ v.Nothing ∷ values self.old) };

    /// Puts the value of no phrases on the top.
    fn push_none(&mut self, alloc: Global, series: Series) -> Result<(), AllocError>
        ensures { OnOk result (values self.new ≡ list_value (series_form series) [] ∷ values self.old) };

    /// Joins the phrase on the top to those below it.
    fn extend(&mut self, alloc: Global, series: Series) -> Result<(), AllocError>
        requires { IsOnSeveral (list_value (series_form series)) (value_of (series_form series)) (values self.old) }
        ensures { OnOk result (Extends (list_value (series_form series)) (value_of (series_form series)) (values self.old) (values self.new)) };

    /// Puts the value of what a rule makes of the values on the top, one for each of its symbols, in their place.
    fn reduce(&mut self, alloc: Global, rule: Rule) -> Result<(), AllocError>
        requires { AreOnTop (production_of rule) (values self.old) }
        ensures { OnOk result (Reduces (production_of rule) (values self.old) (values self.new)) };

    /// Takes a function off the top, to the end of those of a script.
    fn take_function(&mut self, script: &mut Tree) -> Result<(), AllocError>
        requires { FunctionOnTop (values self.old) }
        ensures { OnOk result (TakesFunction (values self.old) (values self.new) script.old script.new) };

    /// Takes statements off the top, and the one below them that they follow, to the end of those of a script.
    fn take_statements(&mut self, script: &mut Tree) -> Result<(), AllocError>
        requires { StatementsOnTop (values self.old) }
        ensures { OnOk result (TakesStatements (values self.old) (values self.new) script.old script.new) };
}
