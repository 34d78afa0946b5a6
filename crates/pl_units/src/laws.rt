//! Laws of texts that callers may cite: functions whose contracts are the laws, with nothing to run.
ghost use Rattle.std.specs.Prelude.{◌≡◌, ℕ};
ghost use Rattle.std.specs.Cmp.{IsTotalOrder};
ghost use Rattle.std.specs.Cmp.Lexicographic.{slice_cmp};
ghost use Rattle.std.specs.Ordering.{nat_cmp};
ghost use Rattle.pl_units.specs.Utf16.{units, bytes};

/// A law that callers may cite: a text read from UTF-8 is written as the same bytes.
pub fn utf8_is_kept(text: &str)
    ensures { bytes (units text.now) ≡ text.now }
{}

/// A law that callers may cite: the order of texts by their units is total.
pub fn order_is_total()
    ensures { IsTotalOrder (slice_cmp {A = ℕ} nat_cmp) }
{}
