//! The names in sight.

ghost use Rattle.std.specs.Prelude.{◌≡◌, [], ◌∷◌, length, drop, map, reverse, slice_get, true, is_some, OnOk};
ghost use Rattle.std.specs.HashMap.{get_by_text};
ghost use Rattle.std.specs.Option.{option_copied};
ghost use Rattle.std.specs.String.{string_bytes};
ghost use Rattle.codegen.specs.Symbols.{Finds, Notes, Sets, entry, entry_in};
ghost use Rattle.compiler_relation.specs.Stands.{entry_of};
ghost use Rattle.plain_stack.specs.Stacks.{lowest};

use pl_types::Ty;
use plain_data::Text;
use plain_stack::Stack;
use std::alloc::{AllocError, Global};
use std::collections::HashMap;
use std::marker::Model;

/// A name in sight, its type, and the number of its local.
pub struct Entry {
    /// The name.
    pub name: Text,
    /// Its type.
    pub of: Ty,
    /// The number of its local.
    pub local: u32,
}

impl Drop for Entry {
    fn drop(self) {
        let Entry {
            name: _name,
            of: _of,
            local: _,
        } = self;
    }
}

/// An entry, and the place of the older entry of the same name that it hides.
pub struct Symbol {
    /// The entry.
    pub entry: Entry,
    /// The place of the entry that it hides, counted from the oldest.
    pub hidden: Option<usize>,
}

impl Drop for Symbol {
    fn drop(self) {
        let Symbol {
            entry: _entry,
            hidden: _,
        } = self;
    }
}

/// The names in sight. Contracts see their entries, the newest first. The newest entry of a name is found by the name's hash, at the same
/// cost in few names and in many.
pub struct SymbolTable {
    symbols: Stack<Symbol>,
    places: HashMap<String, usize>,
}

impl Drop for SymbolTable {
    fn drop(self) {
        let SymbolTable {
            symbols: _symbols,
            places: _places,
        } = self;
    }
}

impl Model for SymbolTable {
    ghost use Rattle.std.specs.Prelude.{List};
    ghost use Rattle.std.specs.Coded.{coded_list};
    ghost use Rattle.codegen.specs.declared.symbols.Entry.{Entry};
    ghost use Rattle.codegen.specs.contracts.symbols.Entry as e;
    ghost use Rattle.codegen.specs.Symbols.{IsIndexed, entries};

    ghost Value = { List Entry };

    ghost coded = { coded_list e.the_row.coded };

    ghost view = { λ t. entries t.symbols };

    ghost invariant = { λ t. IsIndexed t.symbols t.places };
}

/// The place of the newest entry of a name.
fn place_of(places: &HashMap<String, usize>, name: &Text) -> Option<usize>
    ensures { result ≡ get_by_text places.now name.now }
{
    match places.get(name.as_str()) {
        Some(at) => Some(*at),
        None => None,
    }
}

/// The entry at a place.
fn entry_at<'a>(symbols: &'a Stack<Symbol>, at: usize) -> Option<&'a Entry>
    ensures { option_copied result ≡ entry_in (slice_get (reverse symbols.now) at) }
{
    match symbols.get(at) {
        Some(symbol) => Some(&symbol.entry),
        None => None,
    }
}

/// How many symbols there are.
fn count(symbols: &Stack<Symbol>) -> usize
    ensures { result ≡ length symbols.now }
{
    symbols.len()
}

/// Notes the place of a name's newest entry. Where memory is wanted, nothing is noted.
fn note(places: &mut HashMap<String, usize>, name: String, at: usize) -> Result<(), AllocError>
    ensures { Notes places.old places.new (string_bytes name) at result }
{
    places.insert(name, at)?;
    Ok(())
}

/// A name has no entry any more.
fn forget(places: &mut HashMap<String, usize>, name: &Text)
    ensures { Sets places.old places.new name.now None }
{
    let _place = places.remove(name.as_str());
}

/// The newest entry of a name is an older one again.
fn note_older(places: &mut HashMap<String, usize>, name: &Text, at: usize)
    requires { is_some (get_by_text places.old name.now) ≡ true }
    ensures { Sets places.old places.new name.now (Some at) }
{
    if let Some(place) = places.get_mut(name.as_str()) {
        *place = at;
    }
}

/// The newest entry of a name is gone: the one that it hid is the newest, where it hid one.
fn uncover(places: &mut HashMap<String, usize>, name: &Text, hidden: Option<usize>)
    requires { is_some (get_by_text places.old name.now) ≡ true }
    ensures { Sets places.old places.new name.now hidden }
{
    match hidden {
        Some(at) => note_older(places, name, at),
        None => forget(places, name),
    }
}

impl SymbolTable {
    /// No names.
    pub fn new(alloc: Global) -> SymbolTable
        ensures { result ≡ [] }
    {
        SymbolTable {
            symbols: Stack::new(alloc),
            places: HashMap::new(alloc),
        }
    }

    /// How many entries there are.
    pub fn len(&self) -> usize
        ensures { result ≡ length self.now }
    {
        self.symbols.len()
    }

    /// The newest entry of a name.
    pub fn find(&self, name: &Text) -> Option<&Entry>
        ensures { Finds result (entry_of (map entry self.now) name.now) }
    {
        match place_of(&self.places, name) {
            Some(at) => entry_at(&self.symbols, at),
            None => None,
        }
    }

    /// Forgets the newest entry.
    fn pop(&mut self)
        ensures { self.new ≡ drop 1 self.old }
    {
        let Some(symbol) = self.symbols.pop() else {
            return;
        };
        uncover(&mut self.places, &symbol.entry.name, symbol.hidden);
    }

    /// Forgets the entries that were declared since there were so many.
    #[tactic(auto, using(crate::proofs::Places::lowest_fewer, crate::proofs::Places::lowest_all))]
    pub fn lower(&mut self, height: usize)
        ensures { self.new ≡ lowest height self.old }
    {
        while self.len() > height {
            self.pop();
        }
    }

    /// One entry more.
    pub fn push(&mut self, alloc: Global, entry: Entry) -> Result<(), AllocError>
        ensures { OnOk result (self.new ≡ entry ∷ self.old) }
    {
        let at = count(&self.symbols);
        let hidden = place_of(&self.places, &entry.name);
        let name = String::from_str(alloc, entry.name.as_str())?;
        self.symbols.push(Symbol { entry, hidden })?;
        match note(&mut self.places, name, at) {
            Ok(()) => Ok(()),
            Err(fail) => {
                let _symbol = self.symbols.pop();
                Err(fail)
            }
        }
    }
}
