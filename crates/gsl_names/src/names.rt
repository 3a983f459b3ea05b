//! The table of names: one look-up for each name, however many scopes there are.

ghost use Rattle.std.specs.Prelude.{◌≡◌, ◌<◌, ◌≤◌, ◌+◌, ◌∷◌, [], ℕ, List as Plain, if◌then◌else◌, length, nat_lt, drop, IfOk, IfSome, IsSome};
ghost use Rattle.std.specs.BTreeMap.{get_by_text};
ghost use Rattle.std.specs.Str.{bytes_eq};
ghost use Rattle.gsl_names.specs.Scopes.{all_in, all_of, declare, find, find_here, outer};
ghost use Rattle.gsl_names.specs.Table.{hides, latest};

use crate::entry::{Entries, Entry};
use crate::stack::Stack;
use gsl_base::{List, Memory, Text};
use std::alloc::Global;
use std::collections::BTreeMap;
use std::marker::Model;

/// Names in scopes. Contracts see the scopes, the innermost first. A call that takes them by value gives them back with its
/// change; after `Memory` they are given up.
#[derive(Drop)]
pub struct Names {
    /// All declarations of the scopes that are open.
    all: Stack<(Text, Entry)>,
    /// For each of them the place of the one that it hides.
    hidden: Stack<Option<usize>>,
    /// How many declarations the innermost scope has.
    here: usize,
    /// How many each scope around it has, the innermost on top.
    around: Stack<usize>,
    /// The place of the last declaration of each name.
    places: BTreeMap<String, usize>,
}

impl Model for Names {
    ghost use Rattle.std.specs.Prelude.{◌≡◌, ◌∷◌, ℕ, List as Plain, length};
    ghost use Rattle.std.specs.BTreeMap.{get_by_text};
    ghost use Rattle.gsl_names.specs.Scopes.{Scopes};
    ghost use Rattle.gsl_names.specs.Table.{cut, hides, latest, together};

    ghost Value = { Scopes };

    ghost view = { λ n. cut (n.here ∷ n.around) n.all };

    ghost invariant = { λ n. ((name : Plain ℕ) → get_by_text n.places name ≡ latest n.all name) × (n.hidden ≡ hides n.all) × (together (n.here ∷ n.around) ≡ length n.all) };
}

/// Lets a name stand at the place where it stood before, if at any.
fn restore(places: &mut BTreeMap<String, usize>, name: &Text, before: Option<usize>)
    requires { IsSome (get_by_text places.old name.now) }
    ensures { (q : Plain ℕ) → get_by_text places.new q ≡ (if bytes_eq name.now q then before else get_by_text places.old q) }
{
    match before {
        Some(at) => {
            if let Some(place) = places.get_mut(name.as_str()) {
                *place = at;
            }
        }
        None => {
            places.remove(name.as_str());
        }
    }
}

/// Takes the last declaration off.
fn take_one(
    all: &mut Stack<(Text, Entry)>,
    hidden: &mut Stack<Option<usize>>,
    places: &mut BTreeMap<String, usize>,
)
    requires some { 0 < length all.old }
    requires hidden { hidden.old ≡ hides all.old }
    requires places { (q : Plain ℕ) → get_by_text places.old q ≡ latest all.old q }
    ensures all { all.new ≡ drop 1 all.old }
    ensures hidden { hidden.new ≡ hides all.new }
    ensures places { (q : Plain ℕ) → get_by_text places.new q ≡ latest all.new q }
{
    match all.pop() {
        Some((name, _)) => match hidden.pop() {
            Some(before) => restore(places, &name, before),
            None => {}
        },
        None => {}
    }
}

/// Takes so many declarations off.
fn take_off(
    count: usize,
    all: &mut Stack<(Text, Entry)>,
    hidden: &mut Stack<Option<usize>>,
    places: &mut BTreeMap<String, usize>,
)
    requires count { count ≤ length all.old }
    requires hidden { hidden.old ≡ hides all.old }
    requires places { (q : Plain ℕ) → get_by_text places.old q ≡ latest all.old q }
    ensures all { all.new ≡ drop count all.old }
    ensures hidden { hidden.new ≡ hides all.new }
    ensures places { (q : Plain ℕ) → get_by_text places.new q ≡ latest all.new q }
{
    for _ in 0..count {
        take_one(all, hidden, places);
    }
}

/// What the declarations of a name stand for, from the last one on, whose place is given.
fn walk(
    alloc: Global,
    all: &Stack<(Text, Entry)>,
    hidden: &Stack<Option<usize>>,
    last: Option<usize>,
    _name: &Text,
) -> Result<Entries, Memory>
    requires hidden { hidden.now ≡ hides all.now }
    requires last { last ≡ latest all.now _name.now }
    ensures { IfOk result (λ entries. entries ≡ all_in all.now _name.now) }
{
    let mut found = List::new(alloc);
    let mut at = last;
    while let Some(place) = at {
        found.push(all.above(place).1)?;
        at = *hidden.above(place);
    }
    Ok(found)
}

impl Names {
    /// No name, in one scope.
    pub fn new(alloc: Global) -> Names
        ensures { result ≡ [] ∷ [] }
    {
        Names {
            all: Stack::new(alloc),
            hidden: Stack::new(alloc),
            here: 0,
            around: Stack::new(alloc),
            places: BTreeMap::new(alloc),
        }
    }

    /// The names with one more scope, which has none yet.
    pub fn opened(self) -> Result<Names, Memory>
        ensures { IfOk result (λ names. names ≡ [] ∷ self) }
    {
        let Names {
            all,
            hidden,
            here,
            mut around,
            places,
        } = self;
        around.push(here)?;
        Ok(Names {
            all,
            hidden,
            here: 0,
            around,
            places,
        })
    }

    /// Whether there is a scope around the innermost one.
    #[tactic(auto, using(crate::proofs::Latest::cut_length))]
    pub fn is_nested(&self) -> bool
        ensures { result ≡ nat_lt 1 (length self.now) }
    {
        self.around.len() > 0
    }

    /// The names of the scopes around the innermost one.
    pub fn closed(self) -> Names
        requires inner { 1 < length self }
        ensures { result ≡ outer self }
    {
        let Names {
            mut all,
            mut hidden,
            here,
            mut around,
            mut places,
        } = self;
        take_off(here, &mut all, &mut hidden, &mut places);
        let here = match around.pop() {
            Some(count) => count,
            None => 0,
        };
        Names {
            all,
            hidden,
            here,
            around,
            places,
        }
    }

    /// The names with one more declaration in the innermost scope.
    pub fn with(self, alloc: Global, name: Text, entry: Entry) -> Result<Names, Memory>
        ensures { IfOk result (λ names. names ≡ declare name entry self) }
    {
        let Names {
            mut all,
            mut hidden,
            here,
            around,
            mut places,
        } = self;
        let key = String::from_str(alloc, name.as_str())?;
        hidden.push(places.insert(key, all.len())?)?;
        all.push((name, entry))?;
        Ok(Names {
            all,
            hidden,
            here: here + 1,
            around,
            places,
        })
    }

    /// What a name stands for: its last declaration in the innermost scope that has one.
    pub fn find(&self, name: &Text) -> Option<Entry>
        ensures { result ≡ find self.now name.now }
    {
        match self.places.get(name.as_str()) {
            Some(at) => Some(self.all.above(*at).1),
            None => None,
        }
    }

    /// What a name stands for by the innermost scope alone.
    pub fn find_here(&self, name: &Text) -> Option<Entry>
        ensures { result ≡ find_here self.now name.now }
    {
        match self.places.get(name.as_str()) {
            Some(at) => {
                if *at >= self.all.len() - self.here {
                    Some(self.all.above(*at).1)
                } else {
                    None
                }
            }
            None => None,
        }
    }

    /// What all declarations of a name stand for, hidden ones too, those of the innermost scope first.
    pub fn find_all(&self, alloc: Global, name: &Text) -> Result<Entries, Memory>
        ensures { IfOk result (λ entries. entries ≡ all_of self.now name.now) }
    {
        let last = self.places.get(name.as_str()).copied();
        walk(alloc, &self.all, &self.hidden, last, name)
    }
}
