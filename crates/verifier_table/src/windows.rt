//! Kinds by 31, told by a number: two bits for each, so that 31 are compared in one step.

ghost use Rattle.std.specs.Prelude.{◌≡◌, ◌∷◌, ◌≤◌, ◌*◌, take, replicate};
ghost use Rattle.pl_code.specs.declared.kinds.Slot.{Slot as SlotData};
ghost use Rattle.std.specs.Prelude.{List};
ghost use Rattle.verifier_table.specs.Windows.{digit, numeral_of};

use pl_code::Slot;

/// How many kinds a window has. Of 32 the nodes of two windows would lie a power of two apart, and meet in the processor's caches.
pub(crate) const WINDOW: usize = 31;

/// The number from which on a window has 31 kinds: 4^30.
const FULL: u64 = 1_152_921_504_606_846_976;

/// The digit of a kind.
fn digit(kind: Slot) -> u64
    ensures digit { result ≡ digit kind }
    ensures small { result ≤ 3 }
{
    match kind {
        Slot::I => 1,
        Slot::J => 2,
        Slot::R => 3,
    }
}

/// The number of the top 31 kinds when one more is put on kinds whose top 31 have this number.
pub fn window_with(window: u64, kind: Slot) -> u64
    ensures { (kinds : List SlotData) → window ≡ numeral_of (take 31 kinds) → result ≡ numeral_of (take 31 (kind ∷ kinds)) }
{
    4 * (window % FULL) + digit(kind)
}

/// The number of 31 kinds that are all this one.
pub fn window_of_copies(kind: Slot) -> u64
    ensures { result ≡ numeral_of (replicate 31 kind) }
{
    match kind {
        Slot::I => 0x1555_5555_5555_5555,
        Slot::J => 0x2aaa_aaaa_aaaa_aaaa,
        Slot::R => 0x3fff_ffff_ffff_ffff,
    }
}
