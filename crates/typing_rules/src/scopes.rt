//! The names in sight.

ghost use Rattle.std.specs.Prelude.{◌≡◌, ◌++◌, ◌∷◌, ◌-◌, [], length, take, slice_get, true, is_some, OnOk, None};
ghost use Rattle.std.specs.HashMap.{get_by_text};
ghost use Rattle.std.specs.Option.{option_copied};
ghost use Rattle.std.specs.String.{string_bytes};
ghost use Rattle.typing_rules.specs.Scopes as spec;

use pl_types::Ty;
use plain_data::Text;
use std::alloc::{AllocError, Global};
use std::collections::HashMap;
use std::marker::Model;

/// Whether a name is written to.
#[derive(Clone, Copy)]
pub enum Standing {
    Variable,
    /// A variable of the context, which is never written to.
    Fixed,
}

/// A name in sight.
pub struct Entry {
    pub name: Text,
    pub of: Ty,
    pub standing: Standing,
}

impl Drop for Entry {
    fn drop(self) {
        let Entry {
            name: _name,
            of: _of,
            standing: _,
        } = self;
    }
}

/// The names in sight. Contracts see the oldest first. Where a name stands first is found by its hash, at the same cost in few names and
/// in many.
pub struct Scopes {
    entries: Vec<Entry>,
    places: HashMap<String, usize>,
}

impl Drop for Scopes {
    fn drop(self) {
        let Scopes {
            entries: _entries,
            places: _places,
        } = self;
    }
}

impl Model for Scopes {
    ghost use Rattle.std.specs.Prelude.{◌≡◌, ℕ, List};
    ghost use Rattle.std.specs.HashMap.{get_by_text};
    ghost use Rattle.typing_rules.specs.declared.scopes.Entry.{Entry};
    ghost use Rattle.typing_rules.specs.contracts.scopes.Entry as e;
    ghost use Rattle.typing_rules.specs.Scopes.{find};
    ghost use Rattle.std.specs.Coded.{coded_list};

    ghost Value = { List Entry };

    ghost coded = { coded_list e.the_row.coded };

    ghost view = { λ s. s.entries.items };

    ghost invariant = { λ s. (name : List ℕ) → get_by_text s.places name ≡ find name s.entries.items };
}

/// Where a name stands first.
fn place_of(places: &HashMap<String, usize>, name: &Text) -> Option<usize>
    ensures { result ≡ get_by_text places.now name.now }
{
    match places.get(name.as_str()) {
        Some(at) => Some(*at),
        None => None,
    }
}

/// How many names there are.
fn count(entries: &Vec<Entry>) -> usize
    ensures { result ≡ length entries.now.items }
{
    entries.len()
}

/// Whether a name stands first at a place.
fn stands_at(places: &HashMap<String, usize>, name: &Text, at: usize) -> bool
    ensures { spec.StandsAt (get_by_text places.now name.now) at result }
{
    match place_of(places, name) {
        Some(first) => first == at,
        None => false,
    }
}

/// Notes where a name stands first. Where memory is wanted, nothing is noted.
fn note(places: &mut HashMap<String, usize>, name: String, at: usize) -> Result<(), AllocError>
    ensures { spec.Notes places.old places.new (string_bytes name) at result }
{
    places.insert(name, at)?;
    Ok(())
}

/// A name stands nowhere any more.
fn forget(places: &mut HashMap<String, usize>, name: &Text)
    ensures { spec.Forgets places.old places.new name.now }
{
    let _place = places.remove(name.as_str());
}

impl Scopes {
    /// No names.
    pub fn new(alloc: Global) -> Scopes
        ensures { result ≡ [] }
    {
        Scopes {
            entries: Vec::new(alloc),
            places: HashMap::new(alloc),
        }
    }

    /// How many there are.
    pub fn len(&self) -> usize
        ensures { result ≡ length self.now }
    {
        self.entries.len()
    }

    /// Where a name stands, if it is in sight.
    pub fn find(&self, name: &Text) -> Option<usize>
        ensures { result ≡ spec.find name.now self.now }
    {
        place_of(&self.places, name)
    }

    /// A name by its place.
    pub fn get(&self, at: usize) -> Option<&Entry>
        ensures { option_copied result ≡ slice_get self.now at }
    {
        self.entries.get(at)
    }

    /// Forgets the last name.
    fn pop(&mut self)
        ensures { self.new ≡ take (length self.old - 1) self.old }
    {
        let Some(entry) = self.entries.pop() else {
            return;
        };
        let at = count(&self.entries);
        if stands_at(&self.places, &entry.name, at) {
            forget(&mut self.places, &entry.name);
        }
    }

    /// Forgets the names that were declared since there were so many.
    #[tactic(auto, using(crate::proofs::NamePlaces::take_fewer, crate::proofs::NamePlaces::take_all))]
    pub fn close(&mut self, height: usize)
        ensures { self.new ≡ take height self.old }
    {
        while self.len() > height {
            self.pop();
        }
    }

    /// A name that is in sight already.
    fn push_again(&mut self, entry: Entry) -> Result<(), AllocError>
        requires { is_some (spec.find entry.name self.old) ≡ true }
        ensures { OnOk result (self.new ≡ self.old ++ entry ∷ []) }
    {
        self.entries.push(entry)?;
        Ok(())
    }

    /// A name that is not in sight.
    fn push_first(&mut self, alloc: Global, entry: Entry) -> Result<(), AllocError>
        requires { spec.find entry.name self.old ≡ None }
        ensures { OnOk result (self.new ≡ self.old ++ entry ∷ []) }
    {
        let at = count(&self.entries);
        let name = String::from_str(alloc, entry.name.as_str())?;
        self.entries.push(entry)?;
        match note(&mut self.places, name, at) {
            Ok(()) => Ok(()),
            Err(fail) => {
                let _entry = self.entries.pop();
                Err(fail)
            }
        }
    }

    /// One name more.
    pub fn push(&mut self, alloc: Global, entry: Entry) -> Result<(), AllocError>
        ensures { OnOk result (self.new ≡ self.old ++ entry ∷ []) }
    {
        match self.find(&entry.name) {
            Some(_) => self.push_again(entry),
            None => self.push_first(alloc, entry),
        }
    }
}
