//! Numbers in a chunk, which knows between which two they lie.

ghost use Rattle.std.specs.Prelude.{◌≡◌, [], ◌∷◌, ◌++◌, IfOk, OnOk};
ghost use Rattle.std.specs.Option.{option_map};
ghost use Rattle.gsl_macros.specs.Hiding as spec;

use gsl_base::{List, Memory};
use std::alloc::Global;
use std::marker::Model;
use std::rc::Rc;

/// Contracts see the numbers.
#[derive(Drop)]
pub(crate) struct Chunk {
    numbers: Rc<List<usize>>,
    low: usize,
    high: usize,
}

impl Model for Chunk {
    ghost use Rattle.std.specs.Prelude.{List as Plain, ℕ, ◌≡◌, ◌^◌, ◌-◌};
    ghost use Rattle.gsl_macros.specs.Hiding.{least, greatest};

    ghost Value = { Plain ℕ };

    ghost view = { λ c. c.numbers.value };

    ghost invariant = { λ c. (c.low ≡ least (2 ^ 64 - 1) c.numbers.value) × (c.high ≡ greatest 0 c.numbers.value) };
}

impl Chunk {
    pub fn of(numbers: Rc<List<usize>>) -> Chunk
        ensures { result ≡ numbers.value }
    {
        let low = least(numbers.as_slice());
        let high = greatest(numbers.as_slice());
        Chunk { numbers, low, high }
    }

    pub fn again(&self) -> Result<Chunk, Memory>
        ensures { IfOk result (λ c. c ≡ self.now) }
    {
        Ok(Chunk {
            numbers: self.numbers.clone()?,
            low: self.low,
            high: self.high,
        })
    }

    pub fn numbers(&self) -> &[usize]
        ensures { result.now ≡ self.now }
    {
        self.numbers.as_slice()
    }

    /// Whether the number is among them.
    #[tactic(auto, using(crate::proofs::Sets::below_least, crate::proofs::Sets::above_greatest))]
    pub fn has(&self, number: usize) -> bool
        ensures { result ≡ spec.among number self.now }
    {
        if number < self.low || number > self.high {
            return false;
        }
        has(self.numbers(), number)
    }
}

fn least(numbers: &[usize]) -> usize
    ensures { result ≡ spec.least usize.MAX numbers.now }
{
    let mut low = usize::MAX;
    let mut rest = numbers;
    while let [first, more @ ..] = rest {
        low = low.min(*first);
        rest = more;
    }
    low
}

fn greatest(numbers: &[usize]) -> usize
    ensures { result ≡ spec.greatest 0 numbers.now }
{
    let mut high = 0usize;
    let mut rest = numbers;
    while let [first, more @ ..] = rest {
        high = high.max(*first);
        rest = more;
    }
    high
}

pub(crate) fn has(mut numbers: &[usize], number: usize) -> bool
    ensures { result ≡ spec.among number numbers.entry.now }
{
    while let [first, more @ ..] = numbers {
        if *first == number {
            return true;
        }
        numbers = more;
    }
    false
}

/// Whether the number is in one of the chunks.
pub(crate) fn has_in(chunks: &[Chunk], number: usize) -> bool
    ensures { result ≡ spec.in_any number chunks.now }
{
    let mut rest = chunks;
    while let [chunk, more @ ..] = rest {
        if chunk.has(number) {
            return true;
        }
        rest = more;
    }
    false
}

/// Adds all numbers of chunks.
pub(crate) fn add_all(list: &mut List<usize>, chunks: &[Chunk]) -> Result<(), Memory>
    ensures { OnOk result (list.new ≡ list.old ++ spec.flat chunks.now) }
{
    let mut rest = chunks;
    while let [chunk, more @ ..] = rest {
        list.extend_from_slice(chunk.numbers())?;
        rest = more;
    }
    Ok(())
}

/// The chunks with one more in front.
pub(crate) fn with_chunk(
    alloc: Global,
    chunk: Chunk,
    chunks: &[Chunk],
) -> Result<List<Chunk>, Memory>
    ensures { IfOk result (λ l. spec.flat l ≡ chunk ++ spec.flat chunks.now) }
{
    let mut list = List::new(alloc);
    list.push(chunk)?;
    add_again(&mut list, chunks)?;
    Ok(list)
}

fn add_again(list: &mut List<Chunk>, chunks: &[Chunk]) -> Result<(), Memory>
    ensures { OnOk result (list.new ≡ list.old ++ chunks.now) }
{
    let mut rest = chunks;
    while let [chunk, more @ ..] = rest {
        list.push(chunk.again()?)?;
        rest = more;
    }
    Ok(())
}
