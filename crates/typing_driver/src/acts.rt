//! What is done once the parts of a node are typed.

ghost use Rattle.std.specs.Prelude.{◌≡◌};
ghost use Rattle.pl_types.specs.declared.rules.TheConstants.{OUT_OF_PROFILE, UNKNOWN_MEMBER};
ghost use Rattle.typing_rules.specs.Outcomes.{KeepsIn, refusal};
ghost use Rattle.typing_rules.specs.Typing.{reading};
ghost use Rattle.typing_actions.specs.Statements as deeds;
ghost use Rattle.typing_worklist.specs.Machine as spec;

use allowlist::Allow;
use pl_tree::Expr;
use pl_types::{Fail, Refusal, Ty, rules};
use std::alloc::Global;
use typing_actions::{Config, bodies, expressions, members, places, statements};
use typing_rules::Header;
use typing_worklist::{Act, BindingItem, StatementAct, WordItem, first_of};

/// What is not built is refused here.
fn unbuilt(at: u32) -> Fail
    ensures { result ≡ Fail.Refused (refusal OUT_OF_PROFILE at) }
{
    Fail::Refused(Refusal {
        number: rules::OUT_OF_PROFILE,
        offset: at,
    })
}

/// A class has no such member.
fn no_member(at: u32) -> Fail
    ensures { result ≡ Fail.Refused (refusal UNKNOWN_MEMBER at) }
{
    Fail::Refused(Refusal {
        number: rules::UNKNOWN_MEMBER,
        offset: at,
    })
}

/// Does what is to be done with an expression.
pub fn does(alloc: Global, config: &mut Config, act: Act) -> Result<(), Fail>
    ensures { KeepsIn (spec.does act config.old) result config.new }
{
    match act {
        Act::Unbuilt(at) => Err(unbuilt(at)),
        Act::NoMember(at) => Err(no_member(at)),
        Act::Constant(at, of) => expressions::constant(alloc, config, at, of),
        Act::Binary(at, operator) => expressions::binary(alloc, config, operator, at),
        Act::Unary(at, operator) => expressions::unary(alloc, config, operator, at),
        Act::Choice(at) => expressions::choice(alloc, config, at),
        Act::Elvis(at) => expressions::elvis(alloc, config, at),
        Act::Bracketed(at) => expressions::bracketed(config, at),
        Act::List(at, height) => expressions::list(alloc, config, at, height),
        Act::Map(at, height) => expressions::map(alloc, config, at, height),
        Act::Fixed => places::fixed(config),
        Act::Assign(at, operator) => places::assign(alloc, config, at, operator),
        Act::Step(at, step, gives) => places::step(alloc, config, at, step, gives),
        Act::Enter => {
            bodies::enter(config);
            Ok(())
        },
    }
}

/// Does what is to be done with a statement.
pub fn does_statement(alloc: Global, config: &mut Config, act: StatementAct) -> Result<(), Fail>
    ensures { KeepsIn (spec.does_statement act config.old) result config.new }
{
    match act {
        StatementAct::Test => statements::test(alloc, config),
        StatementAct::LoopTest => statements::loop_test(alloc, config),
        StatementAct::NoTest => statements::no_test(config),
        StatementAct::Declaration(at, height) => statements::declaration(alloc, config, at, height),
        StatementAct::Expression(at, last) => statements::expression(alloc, config, at, last),
        StatementAct::ReturnValue(at) => statements::return_value(alloc, config, at),
        StatementAct::ReturnNothing(at) => statements::return_nothing(alloc, config, at),
        StatementAct::Throw(at) => statements::throw(alloc, config, at),
        StatementAct::Break(at) => statements::break_loop(alloc, config, at),
        StatementAct::Continue(at) => statements::continue_loop(alloc, config, at),
        StatementAct::Block(at, height) => statements::block(alloc, config, at, height),
        StatementAct::IfAlone(at) => statements::if_alone(alloc, config, at),
        StatementAct::IfElse(at) => statements::if_else(alloc, config, at),
        StatementAct::Loop(at, has_first, has_body) => {
            statements::whole_loop(alloc, config, at, has_first, has_body)
        },
        StatementAct::DoLoop(at) => statements::do_loop(alloc, config, at),
        StatementAct::EachLoop(at) => statements::each_loop(alloc, config, at),
        StatementAct::Try(at, height) => statements::whole_try(alloc, config, at, height),
        StatementAct::Close(height) => {
            bodies::close(config, height);
            Ok(())
        },
        StatementAct::Looped(is) => {
            bodies::looped(config, is);
            Ok(())
        },
    }
}

/// What a `for` begins with, which is typed.
fn begun(
    alloc: Global,
    allow: &Allow,
    headers: &[Header],
    config: &mut Config,
    e: &Expr,
) -> Result<(), Fail>
    ensures { KeepsIn (deeds.deed (reading allow.now headers.now e.now).first config.old) result config.new }
{
    let first = first_of(allow, headers, e);
    statements::deed(alloc, config, first)
}

/// What a `for` goes on with, which is typed.
fn updated(allow: &Allow, headers: &[Header], config: &mut Config, e: &Expr) -> Result<(), Fail>
    ensures { KeepsIn (deeds.update (reading allow.now headers.now e.now).first config.old) result config.new }
{
    let first = first_of(allow, headers, e);
    statements::update(config, first)
}

/// Does what is to be done with a name, a spelling, a type or an expression of the script.
pub fn does_word<'a>(
    alloc: Global,
    allow: &Allow,
    headers: &[Header],
    config: &mut Config,
    word: WordItem<'a>,
) -> Result<(), Fail>
    ensures { KeepsIn (spec.does_word allow.now headers.now word.entry config.old) result config.new }
{
    match word {
        WordItem::Called(at, name, height) => {
            expressions::call(alloc, headers, config, at, name, height)
        }
        WordItem::Integer(at, spelling) => expressions::integer(alloc, config, at, spelling),
        WordItem::NegatedInteger(minus, at, spelling) => {
            expressions::negated_integer(alloc, config, minus, at, spelling)
        }
        WordItem::Text(at, spelling) => expressions::text(alloc, config, at, spelling),
        WordItem::Name(at, spelling) => expressions::local(alloc, config, at, spelling),
        WordItem::Written(at, spelling) => places::written(alloc, config, at, spelling),
        WordItem::TypeOf(of) => bodies::look_at(alloc, config, of),
        WordItem::Asked(at, of) => expressions::asked(alloc, config, at, of),
        WordItem::InstanceOf(at, of) => expressions::instance_of(alloc, config, at, of),
        WordItem::MethodCalled(at, access, name, height) => {
            members::method(alloc, allow, config, at, access, name, height)
        }
        WordItem::StaticCalled(at, access, of, name, height) => {
            members::static_call(alloc, allow, config, at, access, of, name, height)
        }
        WordItem::Made(at, of, height) => members::made(alloc, allow, config, at, of, height),
        WordItem::Read(at, access, name) => members::read(alloc, allow, config, at, access, name),
        WordItem::Numbered(at, access, digits) => {
            members::numbered(alloc, allow, config, at, access, digits)
        }
        WordItem::Indexed(at) => members::indexed(alloc, allow, config, at),
        WordItem::ArrayMade(at, of, height) => expressions::array(alloc, config, at, of, height),
        WordItem::ArrayFilled(at, of, height) => {
            expressions::array_with(alloc, config, at, of, height)
        }
        WordItem::WrittenName(at, by, name) => places::named(alloc, allow, config, by, at, name),
        WordItem::WrittenNumber(at, by, digits) => {
            places::numbered(alloc, allow, config, by, at, digits)
        }
        WordItem::WrittenIndex(at, by) => places::indexed(alloc, allow, config, by, at),
        WordItem::Field(at, access, of, name) => {
            members::field(alloc, allow, config, at, access, of, name)
        }
        WordItem::Begun(e) => begun(alloc, allow, headers, config, e.get()),
        WordItem::Updated(e) => updated(allow, headers, config, e.get()),
    }
}

/// Does what is to be done with a name that a statement declares, or with its type.
pub fn does_binding<'a>(
    alloc: Global,
    config: &mut Config,
    binding: BindingItem<'a>,
) -> Result<(), Fail>
    ensures { KeepsIn (spec.does_binding binding.entry config.old) result config.new }
{
    match binding {
        BindingItem::CastInitial(of) => statements::initial(alloc, config, of),
        BindingItem::Declare(name, of) => statements::variable(alloc, config, name, of),
        BindingItem::Each(at, name, of) => statements::each(alloc, config, at, name, of),
        BindingItem::EachDef(at, name) => statements::each_def(alloc, config, at, name),
        BindingItem::Named(name, of) => bodies::declare_of(alloc, config, name, of),
        BindingItem::NamedDef(name) => bodies::declare(alloc, config, name, Ty::Def),
        BindingItem::Catching(of, name) => statements::catching(alloc, config, of, name),
        BindingItem::Caught(at, of, name) => statements::catch(alloc, config, at, of, name),
    }
}
