//! What each rule makes of the values on the stack.

ghost use Rattle.std.specs.Prelude.{OnOk};
ghost use Rattle.parse_tables.specs.Names.{production_of};
ghost use Rattle.parse_values.specs.Stack.{AreOnTop, Reduces};

use crate::arguments::{
    args_of, argued, arguments_of, block_lambda, expr_lambda, lambda, lambdas, ref_new, ref_word,
    reference, this_reference,
};
use crate::creations::{
    array_deeper, array_items, created, first_size, new_array, new_object, size_of,
};
use crate::expressions::{
    assign_rest, bracketed, cast, compound_rest, conditional_rest, elvis_of, elvises, expression,
    plain, prefix, products, signed, test, times,
};
use crate::literals::{
    collection, constant, entry_of, filled, integer, item_of, items_of, more_entries, more_items,
    no_entries, string,
};
use crate::loops::{
    declares, do_loop, each_in, each_of, expresses, for_loop, idle, looped, runs, tail_parts,
    three_empty, three_first, three_parts,
};
use crate::members::{dot_of, index, named, named_member, numbered, suffixed, typed};
use crate::projections::{keep_first, keep_second};
use crate::statements::{
    block_body, braces, catches, conditional, declaration_of, declared, jump, returned,
    statement_body, thrown, tried, value_statement, variable_of,
};
use crate::types::{
    bare_param, cast_type_of, formal_list, formal_of, function_of, known_element, name_element,
    name_type, square,
};
use parse_stack::Stack;
use parse_tables::Rule;
use std::alloc::{AllocError, Global};

/// Puts the value of what a rule makes of the values on the top, one for each of its symbols, in their place.
///
/// Not inlined: the frames of the reader stay small.
#[inline(never)]
pub fn reduce(alloc: Global, rule: Rule, stack: &mut Stack) -> Result<(), AllocError>
    requires { AreOnTop (production_of rule) stack.old }
    ensures { OnOk result (Reduces (production_of rule) stack.old stack.new) }
{
    match rule {
        Rule::FunctionOf => function_of(alloc, stack),
        Rule::FormalList => formal_list(alloc, stack),
        Rule::FormalOf => formal_of(alloc, stack),
        Rule::NameType => name_type(alloc, stack),
        Rule::KnownType => Ok(()),
        Rule::CastTypeOf => cast_type_of(alloc, stack),
        Rule::Square => square(alloc, stack),
        Rule::Braces => braces(alloc, stack),
        Rule::Opens => Ok(()),
        Rule::Closes => keep_first(stack),
        Rule::InnerOpens => Ok(()),
        Rule::InnerCloses => keep_first(stack),
        Rule::LastSemicolon => Ok(()),
        Rule::Semicolon => Ok(()),
        Rule::Conditional => conditional(alloc, stack),
        Rule::Looped => looped(alloc, stack),
        Rule::ForLoop => for_loop(alloc, stack),
        Rule::Tried => tried(alloc, stack),
        Rule::Alternative => keep_second(stack),
        Rule::Runs => runs(alloc, stack),
        Rule::Idle => idle(alloc, stack),
        Rule::ThreeEmpty => three_empty(alloc, stack),
        Rule::ThreeFirst => three_first(alloc, stack),
        Rule::EachOf => each_of(alloc, stack),
        Rule::EachIn => each_in(alloc, stack),
        Rule::ThreeParts => three_parts(alloc, stack),
        Rule::TailParts => tail_parts(alloc, stack),
        Rule::Declares => declares(alloc, stack),
        Rule::Expresses => expresses(alloc, stack),
        Rule::Catches => catches(alloc, stack),
        Rule::DoLoop => do_loop(alloc, stack),
        Rule::Declared => declared(alloc, stack),
        Rule::Jump => jump(alloc, stack),
        Rule::Returned => returned(alloc, stack),
        Rule::Thrown => thrown(alloc, stack),
        Rule::Value => value_statement(alloc, stack),
        Rule::Declaration => declaration_of(alloc, stack),
        Rule::Variable => variable_of(alloc, stack),
        Rule::Assigned => keep_second(stack),
        Rule::BlockBody => block_body(alloc, stack),
        Rule::StatementBody => statement_body(alloc, stack),
        Rule::Expression => expression(alloc, stack),
        Rule::ConditionalRest => conditional_rest(alloc, stack),
        Rule::AssignRest => assign_rest(alloc, stack),
        Rule::CompoundRest => compound_rest(alloc, stack),
        Rule::Elvises => elvises(alloc, stack),
        Rule::ElvisOf => elvis_of(alloc, stack),
        Rule::Prefix => prefix(alloc, stack),
        Rule::Signed => signed(alloc, stack),
        Rule::Negated => signed(alloc, stack),
        Rule::Cast => cast(alloc, stack),
        Rule::Plain => plain(alloc, stack),
        Rule::StepToken => Ok(()),
        Rule::Suffixed => suffixed(alloc, stack),
        Rule::Typed => typed(alloc, stack),
        Rule::Created => created(alloc, stack),
        Rule::NameElement => name_element(alloc, stack),
        Rule::KnownElement => known_element(alloc, stack),
        Rule::NewObject => new_object(alloc, stack),
        Rule::NewArray => new_array(alloc, stack),
        Rule::EmptyBracket => keep_second(stack),
        Rule::FirstSize => first_size(alloc, stack),
        Rule::ArrayItems => array_items(alloc, stack),
        Rule::ArrayObject => new_object(alloc, stack),
        Rule::ArrayDeeper => array_deeper(alloc, stack),
        Rule::SizeOf => size_of(alloc, stack),
        Rule::Bracketed => bracketed(alloc, stack),
        Rule::Integer => integer(alloc, stack),
        Rule::String => string(alloc, stack),
        Rule::Constant => constant(alloc, stack),
        Rule::Collection => collection(alloc, stack),
        Rule::Named => named(alloc, stack),
        Rule::NoEntries => no_entries(alloc, stack),
        Rule::Filled => filled(alloc, stack),
        Rule::MoreItems => more_items(alloc, stack),
        Rule::MoreEntries => more_entries(alloc, stack),
        Rule::EntryOf => entry_of(alloc, stack),
        Rule::ItemsOf => items_of(alloc, stack),
        Rule::ItemOf => item_of(alloc, stack),
        Rule::Access => Ok(()),
        Rule::Index => index(alloc, stack),
        Rule::DotOf => dot_of(alloc, stack),
        Rule::NamedMember => named_member(alloc, stack),
        Rule::Numbered => numbered(alloc, stack),
        Rule::ArgsOf => args_of(alloc, stack),
        Rule::ArgumentsOf => arguments_of(alloc, stack),
        Rule::Argued => argued(alloc, stack),
        Rule::Lambda => lambda(alloc, stack),
        Rule::Lambdas => lambdas(alloc, stack),
        Rule::Reference => reference(alloc, stack),
        Rule::ThisReference => this_reference(alloc, stack),
        Rule::RefWord => ref_word(alloc, stack),
        Rule::RefNew => ref_new(alloc, stack),
        Rule::ParamsOf => formal_list(alloc, stack),
        Rule::TypedParam => formal_of(alloc, stack),
        Rule::BareParam => bare_param(alloc, stack),
        Rule::BlockLambda => block_lambda(alloc, stack),
        Rule::ExprLambda => expr_lambda(alloc, stack),
        Rule::Products => products(alloc, stack),
        Rule::Tests => products(alloc, stack),
        Rule::Joins(_) => products(alloc, stack),
        Rule::Times => times(alloc, stack),
        Rule::Test => test(alloc, stack),
        Rule::Further(_) => times(alloc, stack),
        Rule::AfterComma(_) => keep_second(stack),
    }
}
