use gsl_base::{Memory, Text};
use gsl_names::{Entry, Names};
use std::alloc::Global;

/// The names with one more.
fn with(alloc: Global, names: Names, name: &str, entry: Entry) -> Result<Names, Memory> {
    let name = Text::from_str(alloc, name)?;
    names.with(alloc, name, entry)
}

/// What `x` stands for, and what in the innermost scope.
fn found(alloc: Global, names: &Names) -> Result<[Option<Entry>; 2], Memory> {
    let x = Text::from_str(alloc, "x")?;
    Ok([names.find(&x), names.find_here(&x)])
}

/// An inner scope, and what `x` stands for there.
fn opened(alloc: Global) -> Result<(Names, [Option<Entry>; 2]), Memory> {
    let names = with(alloc, Names::new(alloc), "x", Entry::Global(1))?;
    let names = names.opened()?;
    let found = found(alloc, &names)?;
    Ok((names, found))
}

/// The same, before it has an `x` of its own and then.
fn hidden(alloc: Global) -> Result<[[Option<Entry>; 2]; 2], Memory> {
    let (names, outer) = opened(alloc)?;
    let names = with(alloc, names, "x", Entry::Local(2, true))?;
    let inner = found(alloc, &names)?;
    Ok([outer, inner])
}

#[test]
fn an_inner_name_hides_an_outer_one(rt: HostRuntime) {
    let local = Some(Entry::Local(2, true));
    assert_eq!(rt;
        hidden(rt.alloc()),
        Ok([[Some(Entry::Global(1)), None], [local, local]])
    );
}

/// Two functions of one name.
fn functions(alloc: Global) -> Result<Names, Memory> {
    let names = with(alloc, Names::new(alloc), "f", Entry::Function(0))?;
    with(alloc, names, "f", Entry::Function(1))
}

/// Whether `f` stands for two functions, the later one first.
fn share(alloc: Global, names: &Names) -> Result<bool, Memory> {
    let f = Text::from_str(alloc, "f")?;
    let all = names.find_all(alloc, &f)?;
    Ok(all.as_slice() == [Entry::Function(1), Entry::Function(0)].as_slice())
}

fn shared(alloc: Global) -> Result<bool, Memory> {
    let names = functions(alloc)?;
    share(alloc, &names)
}

#[test]
fn functions_share_a_name(rt: HostRuntime) {
    assert_eq!(rt; shared(rt.alloc()), Ok(true));
}
