use gsl_base::{Key, Kind, Memory, Place, Punct, Text, Token, Tokens};
use gsl_nesting::first_deep;
use std::alloc::Global;

/// One token of a line.
fn put(tokens: &mut Tokens, line: u32, kind: Kind) -> Result<(), Memory> {
    let place = Place { unit: 0, line };
    tokens.push(Token { place, kind })
}

/// As many times this punctuator, all on the line.
fn put_many(tokens: &mut Tokens, line: u32, times: u32, punct: Punct) -> Result<(), Memory> {
    for _turn in 0..times {
        put(tokens, line, Kind::Punct(punct))?;
    }
    Ok(())
}

/// As many times an `else` and a semicolon, all on the line.
fn put_elses(tokens: &mut Tokens, line: u32, times: u32) -> Result<(), Memory> {
    for _turn in 0..times {
        put(tokens, line, Kind::Key(Key::Else))?;
        put(tokens, line, Kind::Punct(Punct::Semicolon))?;
    }
    Ok(())
}

/// A name and a literal.
fn put_plain(tokens: &mut Tokens, name: Text) -> Result<(), Memory> {
    put(tokens, 1, Kind::Name(name))?;
    put(tokens, 1, Kind::Unsigned(7))
}

/// The line of the first token that is too deep, 0 if there is none.
fn deep_line(alloc: Global, tokens: &Tokens) -> Result<u32, Memory> {
    match first_deep(alloc, tokens.as_slice())? {
        Some(place) => Ok(place.line),
        None => Ok(0),
    }
}

/// The same of rows of a line, a count and a punctuator.
fn deep(alloc: Global, rows: &[(u32, u32, Punct)]) -> Result<u32, Memory> {
    let mut tokens = Tokens::new(alloc);
    for (line, times, punct) in rows {
        put_many(&mut tokens, *line, *times, *punct)?;
    }
    deep_line(alloc, &tokens)
}

/// Rows, how many of them are within the limit, and the line that is not.
const ROWS: [(&[(u32, u32, Punct)], usize, u32); 4] = [
    (&BRACES, 1, 2),
    (&CLOSED, 3, 4),
    (&ENDED, 4, 5),
    (&CHOSEN, 3, 4),
];

const BRACES: [(u32, u32, Punct); 2] = [(1, 256, Punct::LeftBrace), (2, 1, Punct::LeftBrace)];

/// What is closed is not counted.
const CLOSED: [(u32, u32, Punct); 4] = [
    (1, 256, Punct::LeftParen),
    (2, 128, Punct::RightParen),
    (3, 127, Punct::LeftParen),
    (4, 1, Punct::LeftParen),
];

/// Semicolons end what is counted.
const ENDED: [(u32, u32, Punct); 5] = [
    (1, 5_000, Punct::Semicolon),
    (2, 256, Punct::Dash),
    (3, 1, Punct::Semicolon),
    (4, 256, Punct::Dash),
    (5, 1, Punct::Dash),
];

/// A choice keeps what a comma forgets.
const CHOSEN: [(u32, u32, Punct); 6] = [
    (1, 200, Punct::Plus),
    (1, 1, Punct::Comma),
    (2, 200, Punct::Plus),
    (3, 1, Punct::Question),
    (3, 1, Punct::Comma),
    (4, 56, Punct::Plus),
];

#[test]
fn tokens_nest_256_deep(rt: HostRuntime) {
    for (rows, within, line) in &ROWS {
        let first = rows.get(..*within).unwrap_or(rows);
        assert_eq!(rt; deep(rt.alloc(), first), Ok(0));
        assert_eq!(rt; deep(rt.alloc(), rows), Ok(*line));
    }
}

/// The line that is too deep behind elses on one line, and with more on the next.
fn deep_elses(alloc: Global, first: u32, second: u32) -> Result<u32, Memory> {
    let mut tokens = Tokens::new(alloc);
    put_elses(&mut tokens, 1, first)?;
    put_elses(&mut tokens, 2, second)?;
    deep_line(alloc, &tokens)
}

#[test]
fn an_else_goes_on_with_its_statement(rt: HostRuntime) {
    let alloc = rt.alloc();
    assert_eq!(rt; deep_elses(alloc, 256, 0), Ok(0));
    assert_eq!(rt; deep_elses(alloc, 256, 1), Ok(2));
}

fn deep_plain(alloc: Global) -> Result<u32, Memory> {
    let mut tokens = Tokens::new(alloc);
    put_plain(&mut tokens, Text::from_str(alloc, "a")?)?;
    deep_line(alloc, &tokens)
}

#[test]
fn names_and_literals_count_nothing(rt: HostRuntime) {
    assert_eq!(rt; deep_plain(rt.alloc()), Ok(0));
}
