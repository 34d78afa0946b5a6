//! Parts of a line.

ghost use Rattle.std.specs.Prelude.{◌≡◌, option_map};
ghost use Rattle.listing_parts.specs.Split.{split_at_blank};
ghost use Rattle.listing_parts.specs.Seen.{seen_pair};

/// What stands before the first blank of a text, and what behind it. `None` where there is no blank.
#[tactic(auto, unfolding(crate::specs::Split::split_at_blank))]
pub fn split_at_blank(text: &str) -> Option<(&str, &str)>
    ensures { option_map seen_pair result ≡ split_at_blank text.now }
{
    text.split_once(' ')
}
