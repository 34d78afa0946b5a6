//! The type of texts, and what scripts ask of them.
ghost use Rattle.std.specs.Prelude.{◌≡◌, ◌+◌, ◌-◌, ◌^◌, ◌<◌, ◌≤◌, ◌↔◌, ◌++◌, ℕ, [], All, IsTrue, IfNone, IfOk, IfSome, length, slice_get, take, drop};
ghost use Rattle.std.specs.Cmp.Lexicographic.{slice_cmp};
ghost use Rattle.std.specs.Ordering.{nat_cmp};
ghost use Rattle.std.specs.Str.{bytes_eq};
ghost use Rattle.std.specs.String.{string_bytes};
ghost use Rattle.pl_units.specs.Order.{ComesBefore};
ghost use Rattle.pl_units.specs.Places.{StandsAt, IsFirstPlace, IsLastPlace, first_place, last_place, stands_at};
ghost use Rattle.pl_units.specs.Utf16.{units, bytes};

use crate::convert::push_scalar;
use crate::search::{find_in, rfind_in, stands_in};
use std::alloc::{AllocError, Global};
use std::cmp::Ordering;
use std::marker::Model;
use std::rc::RcSlice;

/// A text of scripts, as Java's `String`: a list of 16-bit code units, which is mostly UTF-16. Any unit may stand anywhere,
/// so a surrogate may lack its partner. Contracts see the list.
///
/// Lengths and places count units from 0, and a text never changes: one that is shared copies no unit. A method that makes a
/// text takes its memory from the allocator of its own text, and fails only where that has none.
#[derive(Debug, Drop)]
pub struct UText {
    // `None` for the text that has no unit, which takes no memory.
    content: Option<RcSlice<u16>>,
    alloc: Global,
}

impl Model for UText {
    ghost use Rattle.std.specs.Prelude.{ℕ, List};
    ghost use Rattle.std.specs.Rc.{rc_slice_items};
    ghost use Rattle.pl_units.specs.Shared.{items_in};

    ghost Value = { List ℕ };

    ghost view = { λ t. items_in rc_slice_items t.content };
}

impl UText {
    /// The text that UTF-8 bytes spell: one unit for a scalar value up to U+FFFF, a surrogate pair for one beyond it.
    pub fn from_utf8(alloc: Global, s: &str) -> Result<UText, AllocError>
        ensures { IfOk result (λ t. t ≡ units s.now) }
    {
        UText::from_units(encoded(alloc, s)?)
    }

    /// The text that has no unit. It takes no memory.
    pub fn empty(alloc: Global) -> UText
        ensures { result ≡ [] }
    {
        UText {
            content: None,
            alloc,
        }
    }

    /// The text of these units, whatever they are. It keeps the vector.
    pub fn from_units(units: Vec<u16>) -> Result<UText, AllocError>
        ensures { IfOk result (λ t. t ≡ units.items) }
    {
        let alloc = *units.allocator();
        let content = Some(RcSlice::from_vec(units)?);
        Ok(UText { content, alloc })
    }

    /// The text of a copy of these units, whatever they are.
    pub fn from_slice(alloc: Global, units: &[u16]) -> Result<UText, AllocError>
        ensures { IfOk result (λ t. t ≡ units.now) }
    {
        UText::from_units(Vec::from_slice(alloc, units)?)
    }

    /// The units of the text, lent.
    pub fn units(&self) -> &[u16]
        ensures { result.now ≡ self.now }
    {
        match &self.content {
            Some(content) => content.as_slice(),
            None => &[],
        }
    }

    /// The text in UTF-8: a surrogate pair is one scalar value, and an unpaired surrogate becomes U+FFFD.
    #[tactic(auto, using(crate::proofs::Utf16Lemmas::bytes_is))]
    pub fn to_utf8(&self) -> Result<String, AllocError>
        ensures { IfOk result (λ s. string_bytes s ≡ bytes self.now) }
    {
        String::from_utf16_lossy(self.alloc(), self.units())
    }

    /// How many units the text has.
    pub fn len(&self) -> usize
        ensures value { result ≡ length self.now }
        ensures in_range { All (λ unit. unit < 2 ^ 16) self.now }
    {
        let content = self.units();
        content.len()
    }

    /// Whether the text has no unit.
    pub fn is_empty(&self) -> bool
        ensures { IsTrue result ↔ (self.now ≡ []) }
    {
        self.units().is_empty()
    }

    /// The unit at a place before the end.
    pub fn at(&self, i: usize) -> u16
        requires { i < length self.now }
        ensures { slice_get self.now i ≡ Some result }
    {
        self.units()[i]
    }

    /// The same text once more. It copies no unit and takes no memory, and fails only where a number of 64 bits does not count
    /// how often the text is shared.
    pub fn share(&self) -> Result<UText, AllocError>
        ensures { IfOk result (λ t. t ≡ self.now) }
    {
        match &self.content {
            Some(content) => Ok(UText {
                content: Some(content.clone()?),
                alloc: self.alloc,
            }),
            None => Ok(UText::empty(self.alloc)),
        }
    }

    /// The units from the place `from` up to the place `to`, without the one at `to`. It may cut a surrogate pair in two.
    pub fn sub(&self, from: usize, to: usize) -> Result<UText, AllocError>
        requires ordered { from ≤ to }
        requires within { to ≤ length self.now }
        ensures { IfOk result (λ t. t ≡ take (to - from) (drop from self.now)) }
    {
        UText::from_slice(self.alloc(), &self.units()[from..to])
    }

    /// This text and then the other. A high surrogate at the end of this one and a low one at the start of the other become
    /// a pair.
    pub fn joined(&self, other: &UText) -> Result<UText, AllocError>
        ensures { IfOk result (λ t. t ≡ self.now ++ other.now) }
    {
        let mut content = Vec::from_slice(self.alloc(), self.units())?;
        content.extend_from_slice(other.units())?;
        UText::from_units(content)
    }

    /// The least place at or after `from` at which the part stands, or `None` if there is none.
    ///
    /// The empty part stands at each place from 0 to the text's length. Java's `indexOf` gives the start itself there, and so
    /// does this. Java first takes a start beyond the text's end for the end. Here no place is left at or after such a
    /// `from`, and the answer is `None`, also for the empty part: a caller that wants Java's answer passes the length.
    pub fn find(&self, part: &UText, from: usize) -> Option<usize>
        ensures value { result ≡ first_place self.now part.now from }
        ensures found { IfSome result (IsFirstPlace self.now part.now from) }
        ensures none { IfNone result
            ((place : ℕ) → from ≤ place → ¬ StandsAt self.now part.now place) }
    {
        find_in(self.units(), part.units(), from)
    }

    /// The greatest place at which the part stands, or `None` if there is none. For the empty part it is the text's length,
    /// as of Java's `lastIndexOf`.
    pub fn rfind(&self, part: &UText) -> Option<usize>
        ensures value { result ≡ last_place self.now part.now }
        ensures found { IfSome result (IsLastPlace self.now part.now) }
        ensures none { IfNone result ((place : ℕ) → ¬ StandsAt self.now part.now place) }
    {
        rfind_in(self.units(), part.units())
    }

    /// Whether the part stands at a place. It stands nowhere past the place that leaves room for it, and the empty part at
    /// each place up to the text's length.
    pub fn stands_at(&self, part: &UText, place: usize) -> bool
        ensures value { result ≡ stands_at self.now part.now place }
        ensures stands { IsTrue result ↔ StandsAt self.now part.now place }
    {
        stands_in(self.units(), part.units(), place)
    }

    /// Whether two texts have the same units.
    pub fn is(&self, other: &UText) -> bool
        ensures value { result ≡ bytes_eq self.now other.now }
        ensures same { IsTrue result ↔ (self.now ≡ other.now) }
    {
        self.units() == other.units()
    }

    /// The order of the texts by their units, as of Java's `compareTo`: at the first place where they differ the smaller
    /// unit comes first, and a text comes before each longer one that begins with it. So a character beyond U+FFFF comes
    /// before one from U+E000 to U+FFFF.
    pub fn compare(&self, other: &UText) -> Ordering
        ensures value { result ≡ slice_cmp nat_cmp self.now other.now }
        ensures less { (result ≡ Ordering.Less) ↔ ComesBefore self.now other.now }
        ensures equal { (result ≡ Ordering.Equal) ↔ (self.now ≡ other.now) }
        ensures greater { (result ≡ Ordering.Greater) ↔ ComesBefore other.now self.now }
    {
        self.units().cmp(&other.units())
    }

    fn alloc(&self) -> Global {
        self.alloc
    }
}

// The units that UTF-8 bytes spell.
fn encoded(alloc: Global, s: &str) -> Result<Vec<u16>, AllocError>
    ensures { IfOk result (λ content. content.items ≡ units s.now) }
{
    // A scalar value has as many units as bytes, or fewer.
    let mut content = Vec::with_capacity(alloc, s.len())?;
    for scalar in s.chars() {
        push_scalar(&mut content, scalar)?;
    }
    Ok(content)
}
