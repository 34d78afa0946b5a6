//! What the functions of the host give.

ghost use Rattle.pl_types.specs.Host.{HostMeaning, no_host};

/// What the functions of the host give: functions that a script may call and that neither it nor the language defines.
/// An implementation is a rule for proofs alone, and runs nothing.
pub trait HostRule {
    /// What a host function gives, by its number and its arguments in their order: a signed 64-bit number, or none
    /// where it refuses the arguments.
    ghost value: { HostMeaning };
}

/// The host that has no functions: each call is refused.
#[derive(Clone, Copy)]
pub struct NoHost;

impl HostRule for NoHost {
    ghost value = { no_host };
}
