//! The numbers and names of refusals: of the rules that a script may break, and of what a job, an allowlist or a listing
//! is refused for.

ghost use Rattle.std.specs.Prelude.{◌≡◌, ◌≤◌, ℕ, List, map};
ghost use Rattle.std.specs.List.{range_with_len};
ghost use Rattle.pl_types.specs.Refusals.{refusal_rows, rule_name};

/// No token of the language.
pub const BAD_TOKEN: u8 = 1;
/// No derivation of the grammar goes on.
pub const SYNTAX: u8 = 2;
/// Brackets stand too deep.
pub const NESTING_DEEP: u8 = 3;
/// A name that no variable in sight has.
pub const UNKNOWN_VARIABLE: u8 = 4;
/// A name that is declared while it is visible.
pub const ALREADY_DEFINED: u8 = 5;
/// A name in a type's place that means no class.
pub const UNKNOWN_TYPE: u8 = 6;
/// A member that the allowlist does not give.
pub const UNKNOWN_MEMBER: u8 = 7;
/// A function that the script does not have.
pub const UNKNOWN_FUNCTION: u8 = 8;
/// No cast leads to the type that is wanted.
pub const BAD_CAST: u8 = 9;
/// An operator that the types do not have.
pub const BAD_OPERAND: u8 = 10;
/// An expression that is no statement.
pub const NOT_A_STATEMENT: u8 = 11;
/// A statement after one that escapes.
pub const UNREACHABLE: u8 = 12;
/// A function that wants a value and ends without one.
pub const MISSING_RETURN: u8 = 13;
/// A jump out of no loop.
pub const BAD_JUMP: u8 = 14;
/// A target that is not written to.
pub const NOT_ASSIGNABLE: u8 = 15;
/// A function value where none fits.
pub const BAD_FUNCTION_VALUE: u8 = 16;
/// A null-safe form that guards nothing.
pub const BAD_NULLABLE: u8 = 17;
/// An integer out of its type's range.
pub const LITERAL_RANGE: u8 = 18;
/// A construct that this profile leaves out.
pub const OUT_OF_PROFILE: u8 = 19;
/// A script of more than 65,535 bytes.
pub const TOO_LARGE: u8 = 20;

/// How many rules a script may break.
pub const RULE_COUNT: u8 = 20;

/// A job file that is not read as an object.
pub const JOB_SYNTAX: u8 = 21;
/// A key of a job file that is unknown, missing or of another type.
pub const JOB_FIELD: u8 = 22;
/// A line that has no form of an allowlist file.
pub const ALLOW_SYNTAX: u8 = 23;
/// A line of an allowlist file that names what is not known, or what was named before.
pub const ALLOW_UNKNOWN: u8 = 24;
/// A number of a job file out of its range.
pub const LIMIT_RANGE: u8 = 25;
/// A field of a mapping that has no name or none of the kinds.
pub const MAPPING_BAD: u8 = 26;
/// A line that has no form of a listing.
pub const LISTING_SYNTAX: u8 = 27;
/// A listing of a version that is not supported.
pub const LISTING_VERSION: u8 = 28;
/// A line of a listing whose stack has no shape or another one than its instruction needs.
pub const BAD_SHAPE: u8 = 29;
/// A line of a listing with a number of a function, a local, an instruction or a trap out of range.
pub const BAD_TARGET: u8 = 30;
/// A line of a listing that names a member or a class which is not there.
pub const BAD_MEMBER: u8 = 31;
/// A jump back in a listing that counts no turn.
pub const BACK_JUMP: u8 = 32;
/// A processor of a pipeline that breaks its form.
pub const PIPELINE_BAD: u8 = 33;
/// A function of a score's functions that breaks its form.
pub const FUNCTIONS_BAD: u8 = 34;

/// How many refusals there are.
pub const REFUSAL_COUNT: u8 = 34;

static NAMES: [&str; 34] = [
    "BadToken",
    "Syntax",
    "NestingDeep",
    "UnknownVariable",
    "AlreadyDefined",
    "UnknownType",
    "UnknownMember",
    "UnknownFunction",
    "BadCast",
    "BadOperand",
    "NotAStatement",
    "Unreachable",
    "MissingReturn",
    "BadJump",
    "NotAssignable",
    "BadFunctionValue",
    "BadNullable",
    "LiteralRange",
    "OutOfProfile",
    "TooLarge",
    "JobSyntax",
    "JobField",
    "AllowSyntax",
    "AllowUnknown",
    "LimitRange",
    "MappingBad",
    "ListingSyntax",
    "ListingVersion",
    "BadShape",
    "BadTarget",
    "BadMember",
    "BackJump",
    "PipelineBad",
    "FunctionsBad",
];

/// The name of a refusal, by its number: up to 20 that of a rule that a script may break.
pub fn name_of_rule(number: u8) -> &'static str
    requires known { 1 ≤ number }
    requires within { number ≤ REFUSAL_COUNT }
    ensures { result.now ≡ rule_name number }
{
    NAMES[number as usize - 1]
}

/// The laws of the numbers of refusals.
pub fn rule_laws()
    // A refusal's number is its place in the table, counted from 1.
    ensures numbers { map (λ (row : ℕ × ℕ × List ℕ). row.0) refusal_rows ≡ range_with_len 1 34 }
    // Each constant that names a refusal is its number.
    ensures constants { map (λ (row : ℕ × ℕ × List ℕ). row.1) refusal_rows ≡ map (λ (row : ℕ × ℕ × List ℕ). row.0) refusal_rows }
    ensures counts { (RULE_COUNT ≡ 20) × (REFUSAL_COUNT ≡ 34) }
{}
