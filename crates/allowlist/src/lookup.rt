//! A list as the lineage of classes and as the names of classes.

ghost use Rattle.std.specs.Prelude.{◌≡◌, ◌&&◌, ◌||◌, ◌<◌};
ghost use Rattle.pl_types.specs.Classes.{class_is_below};
ghost use Rattle.allowlist.specs.Allow.{class_named_of, is_named};

use crate::allow::Allow;
use crate::names::is_dotted;
use pl_types::classes::CLASS_COUNT;
use pl_types::{Lineage, TypeNames, class_below, class_full, class_short};

impl Lineage for Allow {
    ghost is_below = { λ _ a b. class_is_below a b };

    fn is_sub(&self, a: u32, b: u32) -> bool {
        class_below(a, b)
    }
}

impl TypeNames for Allow {
    ghost class_of = { class_named_of };

    fn class_named(&self, name: &str) -> Option<u32> {
        for class in 0..CLASS_COUNT {
            if means(self, name, class) {
                return Some(class);
            }
        }
        None
    }
}

/// Whether a class that the list has has this name, full or short, with `.` for its `$`.
fn means(allow: &Allow, name: &str, class: u32) -> bool
    requires { class < CLASS_COUNT }
    ensures { result ≡ is_named allow.now name.now class }
{
    let listed = allow.has_class(class);
    let full = is_dotted(class_full(class).as_bytes(), name.as_bytes());
    let short = is_dotted(class_short(class).as_bytes(), name.as_bytes());
    listed && (full || short)
}
