//! What an expression leads to, in ids, and the parts of it.

ghost use Rattle.std.specs.Prelude.{◌≡◌, ◌∷◌, [], IfOk, length, map, slice_index, None, Some};
ghost use Rattle.gsl_lower_values.specs.Building.{Does};
ghost use Rattle.gsl_lower_places.specs.Reached as spec;

use gsl_base::{List, Memory};
use gsl_instr::enumerant::storage_class;
use gsl_instr::op;
use gsl_lower_values::{Shape, give, type_of, vector_constant};
use gsl_spv::{BuildRefusal, Builder};
use gsl_types::Scalar;
use std::alloc::Global;

/// The number of a member, an element or a component.
#[derive(Clone, Copy, Debug)]
pub enum Part {
    /// One that is known.
    Fixed(u32),
    /// The word that an id stands for, of a scalar type, `int` or `uint`.
    By(Scalar, u32),
}

/// Numbers in their order, each within the part that those before it lead to.
pub type Parts = List<Part>;

/// What parts stand in.
#[derive(Clone, Copy, Debug)]
pub enum Base {
    /// A variable, by its id and its storage class.
    Variable(u32, u32),
    /// A value in no variable, by its id and that of its type.
    Value(u32, u32),
}

/// The positions of components, from zero on.
pub type Positions = List<u32>;

/// What is picked of a scalar or vector of a shape: its components at some positions; or, where one component is picked by a word that an
/// id stands for, that component as often as there are positions.
#[derive(Debug, Drop)]
pub struct Picked {
    pub shape: Shape,
    pub by: Option<Part>,
    pub positions: Positions,
}

/// What an expression leads to: the parts of what it stands in that lead there, and what is picked of that.
#[derive(Debug, Drop)]
pub struct Reached {
    pub base: Base,
    pub path: Parts,
    pub picked: Option<Picked>,
}

impl Reached {
    /// The whole of what parts stand in.
    pub fn whole(alloc: Global, base: Base) -> Reached
        ensures { result ≡ spec.whole base }
    {
        Reached {
            base,
            path: List::new(alloc),
            picked: None,
        }
    }

    /// The member or element of a number.
    pub fn part_of(self, part: Part) -> Result<Reached, Memory>
        ensures { IfOk result (λ r. r ≡ spec.part_of self part) }
    {
        let Reached {
            base,
            mut path,
            picked,
        } = self;
        path.push(part)?;
        Ok(Reached { base, path, picked })
    }

    /// A swizzle of what is of a shape.
    #[tactic(auto, unfolding(crate::specs::Reached::swizzled))]
    pub fn swizzled(
        self,
        alloc: Global,
        shape: Shape,
        positions: Positions,
    ) -> Result<Reached, Memory>
        ensures { IfOk result (λ r. r ≡ spec.swizzled shape positions self) }
    {
        let Reached { base, path, picked } = self;
        let picked = Some(swizzled_of(alloc, shape, positions, picked)?);
        Ok(Reached { base, path, picked })
    }

    /// The component at an index, of a vector of a shape or of a swizzle.
    #[tactic(auto, unfolding(crate::specs::Reached::component_at))]
    pub fn component_at(
        self,
        alloc: Global,
        b: &mut Builder,
        shape: Shape,
        part: Part,
    ) -> Result<Reached, BuildRefusal>
        ensures { Does result b.new (spec.component_at shape part self b.old) }
    {
        let Reached { base, path, picked } = self;
        let picked = Some(component_if(alloc, b, shape, part, picked)?);
        Ok(Reached { base, path, picked })
    }
}

/// A position of some, or 0 where there are too few.
fn position_at(positions: &[u32], index: u32) -> u32
    ensures { result ≡ slice_index positions.now index }
{
    if index as usize >= positions.len() {
        return 0;
    }
    positions[index as usize]
}

/// The positions that others pick of some.
fn positions_at(alloc: Global, before: &[u32], positions: &[u32]) -> Result<Positions, Memory>
    ensures { IfOk result (λ l. l ≡ map (slice_index before.now) positions.now) }
{
    let mut all = List::new(alloc);
    for k in 0..positions.len() {
        all.push(position_at(before, positions[k]))?;
    }
    Ok(all)
}

fn swizzled_of(
    alloc: Global,
    shape: Shape,
    positions: Positions,
    before: Option<Picked>,
) -> Result<Picked, Memory>
    ensures { IfOk result (λ p. p ≡ spec.swizzled_of shape positions before) }
{
    match before {
        None => Ok(Picked {
            shape,
            by: None,
            positions,
        }),
        Some(before) => Ok(Picked {
            positions: positions_at(alloc, before.positions.as_slice(), positions.as_slice())?,
            shape: before.shape,
            by: before.by,
        }),
    }
}

/// The component of a vector at an index.
fn component_of(alloc: Global, shape: Shape, part: Part) -> Result<Picked, Memory>
    ensures { IfOk result (λ p. p ≡ spec.component_of shape part) }
{
    match part {
        Part::Fixed(position) => Ok(Picked {
            shape,
            by: None,
            positions: List::from_slice(alloc, &[position])?,
        }),
        Part::By(s, id) => Ok(Picked {
            shape,
            by: Some(Part::By(s, id)),
            positions: List::from_slice(alloc, &[0])?,
        }),
    }
}

/// How many positions there are. No list has 2^32 of them.
pub(crate) fn count_of(positions: &[u32]) -> Result<u32, Memory>
    ensures { IfOk result (λ n. n ≡ length positions.now) }
{
    if positions.len() > u32::MAX as usize {
        return Err(Memory);
    }
    Ok(positions.len() as u32)
}

/// The position at an index that is computed, of some.
fn position_by(
    alloc: Global,
    b: &mut Builder,
    positions: &[u32],
    id: u32,
) -> Result<u32, BuildRefusal>
    ensures { Does result b.new (spec.position_by positions.now id b.old) }
{
    let table = vector_constant(alloc, b, (Scalar::Uint, count_of(positions)?), positions)?;
    let ty = type_of(b, (Scalar::Uint, 1))?;
    give(alloc, b, op::VECTOR_EXTRACT_DYNAMIC, &[table, id], ty)
}

fn repicked(by: Option<Part>, id: u32) -> Option<Part>
    ensures { result ≡ spec.repicked by id }
{
    match by {
        None => Some(Part::By(Scalar::Uint, id)),
        Some(by) => Some(by),
    }
}

/// The component of a swizzle at an index.
fn component_in(
    alloc: Global,
    b: &mut Builder,
    before: Picked,
    part: Part,
) -> Result<Picked, BuildRefusal>
    ensures { Does result b.new (spec.component_in before part b.old) }
{
    match part {
        Part::Fixed(index) => Ok(Picked {
            positions: List::from_slice(alloc, &[position_at(before.positions.as_slice(), index)])?,
            shape: before.shape,
            by: before.by,
        }),
        Part::By(_, id) => {
            let position = position_by(alloc, b, before.positions.as_slice(), id)?;
            Ok(Picked {
                shape: before.shape,
                by: repicked(before.by, position),
                positions: List::from_slice(alloc, &[0])?,
            })
        }
    }
}

fn component_if(
    alloc: Global,
    b: &mut Builder,
    shape: Shape,
    part: Part,
    before: Option<Picked>,
) -> Result<Picked, BuildRefusal>
    ensures { Does result b.new (spec.component_if shape part before b.old) }
{
    match before {
        None => Ok(component_of(alloc, shape, part)?),
        Some(before) => component_in(alloc, b, before, part),
    }
}

/// Whether a class is one of blocks, whose leaves are bytes.
pub fn is_block_class(class: u32) -> bool
    ensures { result ≡ spec.is_block_class class }
{
    class == storage_class::UNIFORM
        || class == storage_class::STORAGE_BUFFER
        || class == storage_class::PUSH_CONSTANT
}

/// The scalar type in which a scalar lies in a block: a truth value is a number.
pub fn stored_scalar(s: Scalar) -> Scalar
    ensures { result ≡ spec.stored_scalar s }
{
    match s {
        Scalar::Bool | Scalar::Uint => Scalar::Uint,
        Scalar::Int => Scalar::Int,
    }
}

/// The shape in which a scalar or vector lies in a class: truth values of a block are numbers.
pub(crate) fn stored_shape(class: u32, shape: Shape) -> Shape
    ensures { result ≡ spec.stored_shape class shape }
{
    if is_block_class(class) {
        (stored_scalar(shape.0), shape.1)
    } else {
        shape
    }
}
