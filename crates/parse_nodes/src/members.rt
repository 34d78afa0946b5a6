//! Names and members.

ghost use Rattle.std.specs.Prelude.{◌≡◌};
ghost use Rattle.pl_grammar.specs.Making as making;

use pl_grammar::{Member, Suffix};
use pl_tree::{Access, Argument, Expr, Spelled};
use plain_data::Items;

/// A variable, or a call if there are arguments.
pub fn name_or_call(name: Spelled, given: Option<Items<Argument>>) -> Expr
    ensures { result ≡ making.name_or_call name given }
{
    let Spelled { at, spelling } = name;
    match given {
        None => Expr::Name { at, spelling },
        Some(arguments) => Expr::Call {
            at,
            spelling,
            arguments,
        },
    }
}

/// A member that is reached like this.
pub fn suffix_of(access: Access, member: Member) -> Suffix
    ensures { result ≡ making.suffix_of access member }
{
    match member {
        Member::Named(name, given) => match given {
            None => Suffix::Member(access, name.at, name.spelling),
            Some(arguments) => Suffix::Method(access, name.at, name.spelling, arguments),
        },
        Member::Numbered(number) => Suffix::Element(access, number.at, number.spelling),
    }
}
