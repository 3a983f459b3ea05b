ghost use Rattle.std.specs.Prelude.{◌≡◌, ◌++◌, ◌∷◌, [], ℕ, List as Plain, IfOk, map, get_or};
ghost use Rattle.gsl_types.specs.Structs.{meaning, members_over, over, struct_over, table_from};
ghost use Rattle.gsl_shapes.specs.Shaping as spec;
ghost use Rattle.gsl_meaning.specs.Accesses.{told as told_of};
ghost use Rattle.gsl_tree.specs.Values.{zero_value};

use crate::shape::Shape;
use crate::told::told;
use crate::zero::zero;
use gsl_base::{Boxed, List, Memory};
use gsl_types::{Member, StructType, Structs, Ty};
use gsl_values::Value;
use std::alloc::Global;
use std::marker::Model;

/// A copy of a shape.
#[cycle(copy)]
fn copy(alloc: Global, shape: &Shape) -> Result<Shape, Memory>
    ensures { IfOk result (λ s. s ≡ shape.now) }
{
    match shape {
        Shape::Void => Ok(Shape::Void),
        Shape::One(scalar) => Ok(Shape::One(*scalar)),
        Shape::Vector(scalar, count) => Ok(Shape::Vector(*scalar, *count)),
        Shape::Array(element, count) => {
            let element = copy(alloc, element.get())?;
            let element = Boxed::new(alloc, element)?;
            Ok(Shape::Array(element, *count))
        }
        Shape::Runtime(element) => {
            let element = copy(alloc, element.get())?;
            let element = Boxed::new(alloc, element)?;
            Ok(Shape::Runtime(element))
        }
        Shape::Struct(members) => {
            let members = copy_all(alloc, members.as_slice())?;
            Ok(Shape::Struct(members))
        }
    }
}

#[cycle(copy)]
fn copy_all(alloc: Global, shapes: &[Shape]) -> Result<List<Shape>, Memory>
    ensures { IfOk result (λ all. all ≡ shapes.now) }
{
    let mut all = List::new(alloc);
    for k in 0..shapes.len() {
        let shape = copy(alloc, &shapes[k])?;
        all.push(shape)?;
    }
    Ok(all)
}

/// The shape of a struct by its number; of one that is not there none.
fn numbered(alloc: Global, table: &[Shape], number: u32) -> Result<Shape, Memory>
    ensures { IfOk result (λ s. s ≡ spec.known table.now number) }
{
    if number as usize >= table.len() {
        return Ok(Shape::Void);
    }
    copy(alloc, &table[number as usize])
}

/// The shape of a type, over those of the structs.
fn shape_over(alloc: Global, table: &[Shape], ty: &Ty) -> Result<Shape, Memory>
    ensures { IfOk result (λ s. s ≡ over spec.shaping (spec.known table.now) ty.now) }
{
    match ty {
        Ty::Void => Ok(Shape::Void),
        Ty::One(scalar) => Ok(Shape::One(*scalar)),
        Ty::Vector(scalar, count) => Ok(Shape::Vector(*scalar, *count)),
        Ty::Array(element, count) => {
            let element = shape_over(alloc, table, element.get())?;
            let element = Boxed::new(alloc, element)?;
            Ok(Shape::Array(element, *count))
        }
        Ty::Runtime(element) => {
            let element = shape_over(alloc, table, element.get())?;
            let element = Boxed::new(alloc, element)?;
            Ok(Shape::Runtime(element))
        }
        Ty::Struct(number) => numbered(alloc, table, *number),
    }
}

/// The shapes of members, over those of the structs.
fn members_shapes(alloc: Global, table: &[Shape], members: &[Member]) -> Result<List<Shape>, Memory>
    ensures { IfOk result (λ all. all ≡ map (spec.member_shape table.now) members.now) }
{
    let mut all = List::new(alloc);
    for k in 0..members.len() {
        let shape = shape_over(alloc, table, &members[k].ty)?;
        all.push(shape)?;
    }
    Ok(all)
}

/// The shape of a struct, over those of the structs before it.
fn struct_shape(alloc: Global, table: &[Shape], s: &StructType) -> Result<Shape, Memory>
    ensures { IfOk result (λ x. x ≡ struct_over spec.shaping (spec.known table.now) s.now) }
{
    let members = members_shapes(alloc, table, s.members.as_slice())?;
    Ok(Shape::Struct(members))
}

/// The shapes of structs in their order.
fn table_of(alloc: Global, structs: &[StructType]) -> Result<List<Shape>, Memory>
    ensures { IfOk result (λ all. all ≡ table_from spec.shaping [] structs.now) }
{
    let mut all = List::new(alloc);
    for k in 0..structs.len() {
        let shape = struct_shape(alloc, all.as_slice(), &structs[k])?;
        all.push(shape)?;
    }
    Ok(all)
}

/// Struct types, with their shapes. Contracts see the struct types.
#[derive(Drop)]
pub struct Shapes<'a> {
    structs: &'a Structs,
    table: List<Shape>,
}

impl<'a> Model for Shapes<'a> {
    ghost use Rattle.std.specs.Prelude.{◌≡◌, [], List as Plain};
    ghost use Rattle.std.specs.Coded.{coded_list};
    ghost use Rattle.gsl_types.specs.declared.ty.StructType.{StructType as OneStruct};
    ghost use Rattle.gsl_types.specs.contracts.ty.StructType.{the_row};
    ghost use Rattle.gsl_types.specs.Structs.{table_from};
    ghost use Rattle.gsl_shapes.specs.Shaping.{shaping};

    ghost Value = { Plain OneStruct };

    ghost coded = { coded_list the_row.coded };

    ghost view = { λ s. s.structs.now };

    ghost invariant = { λ s. s.table ≡ table_from shaping [] s.structs.now };
}

impl<'a> Shapes<'a> {
    /// The struct types of a program, with their shapes.
    pub fn new(alloc: Global, structs: &'a Structs) -> Result<Shapes<'a>, Memory>
        ensures { IfOk result (λ s. s ≡ structs.now) }
    {
        let table = table_of(alloc, structs.as_slice())?;
        Ok(Shapes { structs, table })
    }

    /// The shape of a type.
    pub fn shape(&self, alloc: Global, ty: &Ty) -> Result<Shape, Memory>
        ensures { IfOk result (λ s. s ≡ meaning spec.shaping self.now ty.now) }
    {
        let shape = shape_over(alloc, self.table.as_slice(), ty)?;
        Ok(shape)
    }

    /// The value of a type whose leaves are all zero.
    pub fn zero(&self, alloc: Global, ty: &Ty) -> Result<Value, Memory>
        ensures { IfOk result (λ v. v ≡ zero_value self.now ty.now) }
    {
        let shape = shape_over(alloc, self.table.as_slice(), ty)?;
        let value = zero(alloc, &shape)?;
        Ok(value)
    }

    /// The value of a type that the words of its leaves tell: a word of a `bool` that is not 0 is true.
    pub fn told(&self, alloc: Global, ty: &Ty, words: &Value) -> Result<Value, Memory>
        ensures { IfOk result (λ v. v ≡ told_of self.now ty.now words.now) }
    {
        let shape = shape_over(alloc, self.table.as_slice(), ty)?;
        let value = told(alloc, &shape, words)?;
        Ok(value)
    }
}
