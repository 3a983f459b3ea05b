ghost use Rattle.std.specs.Prelude.{◌≡◌, ◌<◌, ◌∷◌, [], IfOk, length, replicate};
ghost use Rattle.std.specs.Borrow.{sem};
ghost use Rattle.gsl_layout.specs.Layout.{Array, End, Group, IsLayout, Leaf, Part, Runtime};
ghost use Rattle.gsl_views.specs.Lending.{EndsAt};
ghost use Rattle.gsl_views.specs.Mutable.{held};
ghost use Rattle.gsl_views.specs.Viewed.{HasMember};

use super::*;
use gsl_base::{Bytes, Memory};
use gsl_layout::{Laid, Laids, Offsets};
use std::alloc::Global;

// The layout std140 of `int; ivec3; int; int[2]; bool`.
fn five(alloc: Global) -> Result<Laid, Memory>
    ensures { IfOk result (λ l. l ≡ Group (Part 0 (Leaf 1) (Part 16 (Leaf 3) (Part 28 (Leaf 1) (Part 32 (Array 16 2 (Leaf 1)) (Part 64 (Leaf 1) End))))) 80) }
{
    let offsets = Offsets::from_slice(alloc, &[0, 16, 28, 32, 64])?;
    let mut laids = Laids::new(alloc);
    laids.push(Laid::leaf(1))?;
    laids.push(Laid::leaf(3))?;
    laids.push(Laid::leaf(1))?;
    laids.push(Laid::array(alloc, 16, Some(2), Laid::leaf(1))?)?;
    laids.push(Laid::leaf(1))?;
    Ok(Laid::group(offsets, laids, 80))
}

#[test]
fn words_are_read_where_members_stand(rt: HostRuntime) -> Result<(), std::test::Fail> {
    let laid = five(rt.alloc())?;
    let mut bytes = [0u8; 68];
    bytes[28] = 5;
    bytes[48] = 7;
    let view = View::new(&bytes, &laid);
    assert_eq!(rt; view.member(2).read_word(0), 5);
    assert_eq!(rt; view.member(3).element(1).read_word(0), 7);
    assert_eq!(rt; view.member(3).length(), 2);
    Ok(())
}

#[test]
fn a_word_is_its_least_byte_first(rt: HostRuntime) -> Result<(), std::test::Fail> {
    let laid = Laid::leaf(2);
    let view = View::new(&[1, 2, 3, 4, 255, 255, 255, 255], &laid);
    assert_eq!(rt; view.read_word(0), 0x0403_0201);
    assert_eq!(rt; view.read_word(1), 0xffff_ffff);
    Ok(())
}

// The layout of `int n; int pad; int a[];`.
fn open(alloc: Global) -> Result<Laid, Memory>
    ensures { IfOk result (λ l. l ≡ Group (Part 0 (Leaf 1) (Part 4 (Leaf 1) (Part 8 (Runtime 4 (Leaf 1)) End))) 8) }
{
    let offsets = Offsets::from_slice(alloc, &[0, 4, 8])?;
    let mut laids = Laids::new(alloc);
    laids.push(Laid::leaf(1))?;
    laids.push(Laid::leaf(1))?;
    laids.push(Laid::array(alloc, 4, None, Laid::leaf(1))?)?;
    Ok(Laid::group(offsets, laids, 8))
}

#[test]
fn a_runtime_array_has_the_whole_strides_that_fit(rt: HostRuntime) -> Result<(), std::test::Fail> {
    let laid = open(rt.alloc())?;
    assert_eq!(rt; laid.need(), 8);
    assert_eq!(rt; View::new(&[0; 8], &laid).member(2).length(), 0);
    assert_eq!(rt; View::new(&[0; 11], &laid).member(2).length(), 0);
    assert_eq!(rt; View::new(&[0; 12], &laid).member(2).length(), 1);
    assert_eq!(rt; View::new(&[0; 22], &laid).member(2).length(), 3);
    Ok(())
}

#[test]
fn a_word_is_written_in_its_place(rt: HostRuntime) -> Result<(), std::test::Fail> {
    let laid = five(rt.alloc())?;
    let mut bytes = [0u8; 68];
    let mut leaf = ViewMut::new(&mut bytes, &laid).member(1);
    leaf.write_word(2, 0x0102_0304);
    assert_eq!(rt; leaf.read_word(2), 0x0102_0304);
    assert_eq!(rt; leaf.read_word(1), 0);
    assert!(rt; &bytes[23..29] == [0, 4, 3, 2, 1, 0].as_slice());
    Ok(())
}

#[test]
fn an_element_is_written_in_its_place(rt: HostRuntime) -> Result<(), std::test::Fail> {
    let laid = five(rt.alloc())?;
    let mut bytes = [0u8; 68];
    let array = ViewMut::new(&mut bytes, &laid).member(3);
    assert_eq!(rt; array.length(), 2);
    array.element(1).write_word(0, 258);
    assert!(rt; &bytes[47..53] == [0, 2, 1, 0, 0, 0].as_slice());
    Ok(())
}

#[test]
fn members_that_are_split_are_written_apart(rt: HostRuntime) -> Result<(), std::test::Fail> {
    let laid = five(rt.alloc())?;
    let mut bytes = [0u8; 68];
    let (mut first, mut second) = ViewMut::new(&mut bytes, &laid).split_members(0, 2);
    first.write_word(0, 9);
    second.write_word(0, 9);
    for k in 0..68 {
        assert_eq!(rt; bytes[k], if k == 0 || k == 28 { 9 } else { 0 });
    }
    Ok(())
}

// Both parts of a split are given up as they are: the bytes end as they were.
fn both_given<'a>(view: ViewMut<'a>, i: u32, j: u32) -> &'a Laid
    requires order { i < j }
    requires member { HasMember (held view).layout j }
    ensures* { sem 𝓛 (EndsAt view.entry.bytes view.entry.bytes.now) }
{
    let (first, _second) = view.split_members(i, j);
    first.laid
}

#[test]
fn bytes_are_back_once_both_parts_are_given_up(rt: HostRuntime) -> Result<(), std::test::Fail> {
    let laid = five(rt.alloc())?;
    let mut bytes = [7u8; 68];
    both_given(ViewMut::new(&mut bytes, &laid), 0, 2);
    assert!(rt; bytes.as_slice() == [7; 68].as_slice());
    Ok(())
}

#[test]
fn elements_that_are_split_are_written_apart(rt: HostRuntime) -> Result<(), std::test::Fail> {
    let laid = five(rt.alloc())?;
    let mut bytes = [0u8; 68];
    let array = ViewMut::new(&mut bytes, &laid).member(3);
    let (mut first, mut second) = array.split_elements(0, 1);
    first.write_word(0, 1);
    second.write_word(0, 2);
    for k in 0..68 {
        assert_eq!(rt;
            bytes[k],
            if k == 32 {
                1
            } else if k == 48 {
                2
            } else {
                0
            }
        );
    }
    Ok(())
}
