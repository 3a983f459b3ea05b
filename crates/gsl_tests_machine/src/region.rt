use gsl_base::Memory;
use gsl_region::Region;
use gsl_slots::Slots;
use std::alloc::Global;
use std::test::Fail;

// Two words of a region of four: one that was put, and one behind it.
fn put(alloc: Global, word: u32) -> Result<(u32, u32, u64), Memory> {
    let mut region = Region::new(alloc, 4)?;
    region.put(1, word);
    Ok((region.word(1), region.word(2), region.len()))
}

// The same of slots, where the word was copied behind itself.
fn copied(alloc: Global, word: u32) -> Result<(u32, u32, usize), Memory> {
    let mut slots = Slots::new(alloc, 4)?;
    slots.put(1, word);
    slots.copy(1, 3, 1);
    Ok((slots.word(3), slots.word(2), slots.len()))
}

#[test]
fn words_are_there_as_they_were_put(rt: HostRuntime) -> Result<(), Fail> {
    let alloc = rt.alloc();
    assert_eq!(rt; put(alloc, 4_294_967_295)?, (4_294_967_295, 0, 4));
    assert_eq!(rt; copied(alloc, 258)?, (258, 0, 4));
    Ok(())
}
