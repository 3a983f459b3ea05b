//! Hide sets, shared by the tokens that have the same.

ghost use Rattle.std.specs.Prelude.{◌≡◌, [], ◌∷◌, ◌++◌, ◌||◌, IfOk, OnOk};
ghost use Rattle.std.specs.Option.{option_map};
ghost use Rattle.gsl_macros.specs.Hiding as spec;

use crate::chunk::{Chunk, add_all, has, has_in, with_chunk};
use gsl_base::{List, Memory};
use std::alloc::Global;
use std::marker::Model;
use std::rc::Rc;

/// How many numbers stand in front of the chunks, about.
const MOST: usize = 128;

/// The numbers of the macros that a token hides: those that came last in a list of their own, those before them in chunks, so that one
/// more number costs little.
#[derive(Drop)]
pub struct Hides {
    front: Option<Rc<List<usize>>>,
    chunks: Option<Rc<List<Chunk>>>,
}

impl Model for Hides {
    ghost use Rattle.std.specs.Prelude.{List as Plain, ℕ, ◌++◌};
    ghost use Rattle.std.specs.Option.{option_map};
    ghost use Rattle.gsl_macros.specs.Hiding.{shown, shown_all};

    ghost Value = { Plain ℕ };

    ghost view = { λ h. shown (option_map (λ numbers. numbers.value) h.front) ++ shown_all (option_map (λ chunks. chunks.value) h.chunks) };
}

fn front_of(front: &Option<Rc<List<usize>>>) -> &[usize]
    ensures { result.now ≡ spec.shown (option_map (λ numbers. numbers.value) front.now) }
{
    match front {
        Some(numbers) => numbers.as_slice(),
        None => &[],
    }
}

fn chunks_of(chunks: &Option<Rc<List<Chunk>>>) -> &[Chunk]
    ensures { spec.flat result.now ≡ spec.shown_all (option_map (λ chunks. chunks.value) chunks.now) }
{
    match chunks {
        Some(chunks) => chunks.as_slice(),
        None => &[],
    }
}

fn front_again(front: &Option<Rc<List<usize>>>) -> Result<Option<Rc<List<usize>>>, Memory>
    ensures { IfOk result (λ f. option_map (λ numbers. numbers.value) f ≡ option_map (λ numbers. numbers.value) front.now) }
{
    match front {
        Some(numbers) => Ok(Some(numbers.clone()?)),
        None => Ok(None),
    }
}

fn chunks_again(chunks: &Option<Rc<List<Chunk>>>) -> Result<Option<Rc<List<Chunk>>>, Memory>
    ensures { IfOk result (λ f. option_map (λ numbers. numbers.value) f ≡ option_map (λ numbers. numbers.value) chunks.now) }
{
    match chunks {
        Some(chunks) => Ok(Some(chunks.clone()?)),
        None => Ok(None),
    }
}

impl Hides {
    /// No macro.
    pub fn none() -> Hides
        ensures { result ≡ [] }
    {
        Hides {
            front: None,
            chunks: None,
        }
    }

    /// The same set once more.
    pub fn again(&self) -> Result<Hides, Memory>
        ensures { IfOk result (λ h. h ≡ self.now) }
    {
        let front = front_again(&self.front)?;
        let chunks = chunks_again(&self.chunks)?;
        Ok(Hides { front, chunks })
    }

    fn of(alloc: Global, numbers: List<usize>) -> Result<Hides, Memory>
        ensures { IfOk result (λ h. h ≡ numbers) }
    {
        Ok(Hides {
            front: Some(Rc::new(alloc, numbers)?),
            chunks: None,
        })
    }

    /// All numbers in a list.
    fn flattened(&self, alloc: Global) -> Result<List<usize>, Memory>
        ensures { IfOk result (λ l. l ≡ self.now) }
    {
        let mut list = List::new(alloc);
        list.extend_from_slice(front_of(&self.front))?;
        add_all(&mut list, chunks_of(&self.chunks))?;
        Ok(list)
    }

    /// Whether the macro is hidden.
    pub fn has(&self, number: usize) -> bool
        ensures { result ≡ spec.among number self.now }
    {
        let is_new = has(front_of(&self.front), number);
        let is_old = has_in(chunks_of(&self.chunks), number);
        either(is_new, is_old)
    }

    /// The numbers of a set and one more.
    pub fn with(alloc: Global, number: usize, set: &Hides) -> Result<Hides, Memory>
        ensures { IfOk result (λ h. h ≡ number ∷ set.now) }
    {
        match &set.front {
            Some(front) if front.len() >= MOST => {
                let chunk = Chunk::of(front.clone()?);
                let chunks = with_chunk(alloc, chunk, chunks_of(&set.chunks))?;
                Ok(Hides {
                    front: Some(Rc::new(alloc, List::from_slice(alloc, &[number])?)?),
                    chunks: Some(Rc::new(alloc, chunks)?),
                })
            }
            _ => set.longer(alloc, number),
        }
    }

    /// The same with the number in the front list.
    fn longer(&self, alloc: Global, number: usize) -> Result<Hides, Memory>
        ensures { IfOk result (λ h. h ≡ number ∷ self.now) }
    {
        let mut numbers = List::new(alloc);
        numbers.push(number)?;
        numbers.extend_from_slice(front_of(&self.front))?;
        let chunks = chunks_again(&self.chunks)?;
        Ok(Hides {
            front: Some(Rc::new(alloc, numbers)?),
            chunks,
        })
    }

    /// The numbers of the first that are in the second, and a number in front of them.
    #[tactic(auto, using(crate::proofs::Sets::shared_same))]
    pub fn common(
        alloc: Global,
        number: usize,
        first: &Hides,
        second: &Hides,
    ) -> Result<Hides, Memory>
        ensures { IfOk result (λ h. h ≡ number ∷ spec.shared first.now second.now) }
    {
        let all = first.flattened(alloc)?;
        let others = second.flattened(alloc)?;
        if same(all.as_slice(), others.as_slice()) {
            return Hides::with(alloc, number, first);
        }
        let mut numbers = List::new(alloc);
        numbers.push(number)?;
        add_shared(&mut numbers, all.as_slice(), others.as_slice())?;
        Hides::of(alloc, numbers)
    }

    /// The numbers of both; where the first are those of the second but for its first, nothing is made.
    #[tactic(auto, using(crate::proofs::Sets::apart_follows))]
    pub fn joined(&self, alloc: Global, more: &Hides) -> Result<Hides, Memory>
        ensures { IfOk result (λ h. h ≡ spec.joined self.now more.now) }
    {
        if self.front.is_none() {
            if self.chunks.is_none() {
                return more.again();
            }
        }
        let all = self.flattened(alloc)?;
        let others = more.flattened(alloc)?;
        if follows(all.as_slice(), others.as_slice()) {
            return more.again();
        }
        let mut numbers = List::new(alloc);
        add_apart(&mut numbers, all.as_slice(), others.as_slice())?;
        numbers.extend_from_slice(others.as_slice())?;
        Hides::of(alloc, numbers)
    }
}

fn either(a: bool, b: bool) -> bool
    ensures { result ≡ (a || b) }
{
    a || b
}

/// Whether two lists are the same.
fn same(mut a: &[usize], mut b: &[usize]) -> bool
    ensures { result ≡ spec.same a.entry.now b.entry.now }
{
    while let [first, more @ ..] = a {
        let [other, rest @ ..] = b else {
            return false;
        };
        if *first != *other {
            return false;
        }
        a = more;
        b = rest;
    }
    b.is_empty()
}

/// Whether the second list is the first with a number in front of it.
fn follows(numbers: &[usize], more: &[usize]) -> bool
    ensures { result ≡ spec.follows numbers.now more.now }
{
    match more {
        [_, rest @ ..] => same(numbers, rest),
        [] => false,
    }
}

fn add_shared(list: &mut List<usize>, mut numbers: &[usize], others: &[usize]) -> Result<(), Memory>
    ensures { OnOk result (list.new ≡ list.old ++ spec.shared numbers.entry.now others.now) }
{
    while let [first, more @ ..] = numbers {
        if has(others, *first) {
            list.push(*first)?;
        }
        numbers = more;
    }
    Ok(())
}

fn add_apart(list: &mut List<usize>, mut numbers: &[usize], others: &[usize]) -> Result<(), Memory>
    ensures { OnOk result (list.new ≡ list.old ++ spec.apart numbers.entry.now others.now) }
{
    while let [first, more @ ..] = numbers {
        if !has(others, *first) {
            list.push(*first)?;
        }
        numbers = more;
    }
    Ok(())
}
