//! Reading of allowlist files.

ghost use Rattle.std.specs.Prelude.{◌≡◌, ◌<◌, ◌==◌, ◌&&◌, ◌||◌, ◌+◌, take, drop, IfSome, length, option_map};
ghost use Rattle.std.specs.Option.{ForSome};
ghost use Rattle.allowlist.specs.Answers.{ReadAnswers};
ghost use Rattle.allowlist.specs.Files.{class_of_line, declared_member, declares, open_after, is_misplaced, with_class, with_member, with_declared, next_reading, line_result, line_len, allowlist_of};
ghost use Rattle.allowlist.specs.Seen.{seen_form};

use crate::allow::Allow;
use crate::declares::declares;
use crate::error::AllowErr;
use crate::form::{Form, bytes_before, form_of};
use crate::member::MemberType;
use pl_types::class_of_full_bytes;
use pl_types::classes::{CLASS_COUNT, PRELUDE};
use std::alloc::Global;

/// The class of a full name; the hidden classes have none in files.
fn class_of_line(name: &[u8]) -> Option<u32>
    ensures class { result ≡ class_of_line name.now }
    ensures within { IfSome result (λ class. class < CLASS_COUNT) }
{
    let class = class_of_full_bytes(name)?;
    if class < PRELUDE { Some(class) } else { None }
}

/// The member of a class that a line declares.
fn declared_member(allow: &Allow, class: u32, form: &Form<'_>) -> Option<u32>
    ensures member { result ≡ declared_member class (seen_form form.now) }
    ensures within { IfSome result (λ member. member < length allow.now.members) }
{
    for number in 0..allow.member_count() {
        if is_declared(allow.member_type(number), class, form) {
            return Some(number);
        }
    }
    None
}

fn is_declared(member: &MemberType, class: u32, form: &Form<'_>) -> bool
    ensures { result ≡ ((member.now.owner == class) && declares (seen_form form.now) member.now) }
{
    let owned = member.owner == class;
    let written = declares(form, member);
    owned && written
}

/// A class is listed once.
fn with_class(allow: &mut Allow, class: Option<u32>) -> Option<Option<u32>>
    requires { ForSome class (λ c. c < CLASS_COUNT) }
    ensures { option_map (λ inside. record { inside = inside; allow = allow.new }) result ≡ with_class allow.old class }
{
    let class = class?;
    if allow.has_class(class) {
        return None;
    }
    allow.add_class(class);
    Some(Some(class))
}

/// A member is allowed once.
fn with_member(allow: &mut Allow, class: u32, member: Option<u32>) -> Option<Option<u32>>
    requires { ForSome member (λ m. m < length allow.old.members) }
    ensures { option_map (λ inside. record { inside = inside; allow = allow.new }) result ≡ with_member class allow.old member }
{
    let member = member?;
    if allow.allows(member) {
        return None;
    }
    allow.add_member(member);
    Some(Some(class))
}

fn with_declared(allow: &mut Allow, inside: Option<u32>, form: &Form<'_>) -> Option<Option<u32>>
    ensures { option_map (λ i. record { inside = i; allow = allow.new }) result ≡ with_declared inside allow.old (seen_form form.now) }
{
    let class = inside?;
    let member = declared_member(allow, class, form);
    with_member(allow, class, member)
}

/// What a line makes of what was read. `None` where it names what the catalogue lacks, or the same twice.
#[tactic(auto, unfolding(crate::specs::Files::next_reading))]
fn next_reading(allow: &mut Allow, inside: Option<u32>, form: &Form<'_>) -> Option<Option<u32>>
    ensures { option_map (λ i. record { inside = i; allow = allow.new }) result
        ≡ next_reading (record { inside = inside; allow = allow.old }) (seen_form form.now) }
{
    match form {
        Form::Blank => Some(inside),
        Form::Imports => None,
        Form::Closes => Some(None),
        Form::Opens(name) => with_class(allow, class_of_line(name)),
        Form::Makes(_) => with_declared(allow, inside, form),
        Form::Calls(..) => with_declared(allow, inside, form),
        Form::Has(..) => with_declared(allow, inside, form),
    }
}

/// Whether a class is open after a line. One that the catalogue lacks opens none.
fn open_after(opened: bool, form: &Form<'_>) -> bool
    ensures { result ≡ open_after opened (seen_form form.now) }
{
    match form {
        Form::Opens(name) => class_of_line(name).is_some(),
        Form::Closes => false,
        Form::Blank => opened,
        Form::Imports => opened,
        Form::Makes(_) => opened,
        Form::Calls(..) => opened,
        Form::Has(..) => opened,
    }
}

/// Whether a line stands in a wrong place.
fn is_misplaced(opened: bool, form: &Form<'_>) -> bool
    ensures { result ≡ is_misplaced opened (seen_form form.now) }
{
    match form {
        Form::Blank => false,
        Form::Opens(_) => opened,
        Form::Imports => opened,
        Form::Closes => !opened,
        Form::Makes(_) => !opened,
        Form::Calls(..) => !opened,
        Form::Has(..) => !opened,
    }
}

fn form_fault(opened: bool, last: bool, form: &Form<'_>) -> bool
    ensures { result ≡ (is_misplaced opened (seen_form form.now) || last && open_after opened (seen_form form.now)) }
{
    let misplaced = is_misplaced(opened, form);
    let unended = open_after(opened, form);
    misplaced || (last && unended)
}

/// What one line makes of what was read.
#[tactic(auto, unfolding(crate::specs::Files::line_result))]
fn read_line(
    alloc: Global,
    allow: &mut Allow,
    inside: Option<u32>,
    number: u32,
    last: bool,
    line: &[u8],
) -> Result<Option<u32>, AllowErr>
    ensures { ReadAnswers (λ i. record { inside = i; allow = allow.new }) result (line_result number (record { inside = inside; allow = allow.old }) last line.now) }
{
    let Some(form) = form_of(alloc, line)? else {
        return Err(AllowErr::Syntax(number));
    };
    if form_fault(inside.is_some(), last, &form) {
        return Err(AllowErr::Syntax(number));
    }
    match next_reading(allow, inside, &form) {
        Some(class) => Ok(class),
        None => Err(AllowErr::Unknown(number)),
    }
}

/// The first line, without its newline.
fn first_line(text: &[u8]) -> &[u8]
    ensures { result.now ≡ take (line_len text.now) text.now }
{
    let end = bytes_before(text, b'\n');
    &text[..end]
}

/// What follows the first line and its newline.
fn past_line(text: &[u8]) -> &[u8]
    ensures { result.now ≡ drop (line_len text.now + 1) text.now }
{
    let end = bytes_before(text, b'\n');
    if end < text.len() {
        &text[end + 1..]
    } else {
        &text[end..]
    }
}

impl Allow {
    /// The list that an allowlist file denotes, or the first line that gives a fault. At one line Syntax is tried
    /// before Unknown; a line that opens a class which the catalogue lacks is Unknown, also where the file ends there.
    pub fn read(alloc: Global, bytes: &[u8]) -> Result<Allow, AllowErr>
        ensures { ReadAnswers (λ allow. allow) result (allowlist_of bytes.now) }
    {
        let mut allow = Allow::empty(alloc)?;
        let mut inside = None;
        let mut rest = bytes;
        let mut number: u32 = 1;
        while !rest.is_empty() {
            let line = first_line(rest);
            let after = past_line(rest);
            match read_line(alloc, &mut allow, inside, number, after.is_empty(), line) {
                Ok(class) => inside = class,
                Err(fault) => return Err(fault),
            }
            number = number.saturating_add(1);
            rest = after;
        }
        Ok(allow)
    }
}
