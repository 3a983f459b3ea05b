use gsl_base::{Code, Fault, Kind, List, Memory, Place, Raw, Refusal, Text};
use gsl_lex::lex;
use gsl_macros::{Hid, Macro, Macros, Shift, Stream, Table, Unread, all, fault};
use std::alloc::Global;
use std::test::Fail;

/// A table in which `A` is 3.
fn table(alloc: Global) -> Result<Table, Memory> {
    let mut table = Table::new(alloc);
    let name = Text::from_str(alloc, "A")?;
    table.set(name, Macro::Number(3))?;
    Ok(table)
}

/// The table in which `A` is 3, for the first line.
fn macros(alloc: Global) -> Result<Macros, Memory> {
    Ok(Macros {
        table: table(alloc)?,
        shift: Shift {
            after: 0,
            number: 1,
            file: 0,
        },
    })
}

/// The kinds of the tokens that raw tokens give, with so much left of the count.
fn drawn(alloc: Global, raws: &[Raw], left: u32) -> Result<List<Kind>, Refusal> {
    let macros = macros(alloc)?;
    let tokens = replaced(alloc, &macros, raws, left)?;
    kinds(alloc, tokens.as_slice())
}

fn replaced(alloc: Global, macros: &Macros, raws: &[Raw], left: u32) -> Result<List<Hid>, Refusal> {
    let mut left = left;
    let mut stream = Stream::new(alloc, Unread::copy_of(alloc, raws)?);
    all(alloc, macros, 2, &mut stream, &mut left)
}

/// The kinds of the tokens that a text gives, where `A` is 3, with so much left of the count.
fn given(alloc: Global, text: &str, left: u32) -> Result<List<Kind>, Refusal> {
    let bytes = text.as_bytes();
    if bytes.len() >= 1000 {
        return Err(Refusal::Memory);
    }
    let raws = lex(alloc, 0, bytes)?;
    drawn(alloc, raws.as_slice(), left)
}

fn kinds(alloc: Global, tokens: &[Hid]) -> Result<List<Kind>, Refusal> {
    let mut kinds = List::new(alloc);
    for token in tokens {
        kinds.push(token.spelled.again(alloc)?.cook(alloc, token.place)?.kind)?;
    }
    Ok(kinds)
}

/// Whether these are two literals of 3 and 4.
fn are_three_and_four(kinds: &List<Kind>) -> bool {
    matches!(kinds.as_slice(), [Kind::Signed(3), Kind::Signed(4)])
}

#[test]
fn a_number_is_put(rt: HostRuntime) -> Result<(), Fail> {
    let found = given(rt.alloc(), "A 4", 4)?;
    assert!(rt; are_three_and_four(&found));
    Ok(())
}

#[test]
fn the_count_may_be_spent(rt: HostRuntime) {
    let fault = Fault {
        place: Place { unit: 0, line: 1 },
        code: Code::E0901,
    };
    assert!(rt;
        matches!(given(rt.alloc(), "A 4", 3), Err(Refusal::Source(found)) if found == fault)
    );
}
