use gsl_base::Stage;
use gsl_lower_expr::Lowerer;
use gsl_lower_holders::{FlowPlace, Ids, TypeIds};
use gsl_lower_needs::{Asker, Needs};
use gsl_lower_stmt::{Body, Exits};
use gsl_shapes::Shapes;
use gsl_spv::{BuildRefusal, Builder};
use gsl_tree::{Interfaces, Prototypes, Stmt, Stmts};
use gsl_types::{Structs, Types};
use std::alloc::Global;
use std::test::Fail;

// A place at which nothing is known.
fn nowhere(alloc: Global) -> FlowPlace {
    FlowPlace {
        label: 0,
        locals: Ids::new(alloc),
        params: Ids::new(alloc),
        globals: Ids::new(alloc),
        blocks: Ids::new(alloc),
        classes: Ids::new(alloc),
        interfaces: Ids::new(alloc),
        stage_vars: Ids::new(alloc),
        functions: Ids::new(alloc),
        composites: TypeIds::new(alloc),
        holders: Ids::new(alloc),
        used: 0,
    }
}

// Whether a statement leaves, as it is lowered where `break` leads there.
fn leaves(alloc: Global, s: &Stmt, break_to: Option<u32>) -> Result<bool, BuildRefusal> {
    let structs = Structs::new(alloc);
    let shapes = Shapes::new(alloc, &structs)?;
    let interfaces = Interfaces::new(alloc);
    let prototypes = Prototypes::new(alloc);
    let locals = Types::new(alloc);
    let lowerer = Lowerer {
        alloc,
        shapes: &shapes,
        interfaces: &interfaces,
        prototypes: &prototypes,
    };
    let body = Body {
        lowerer,
        locals: &locals,
    };
    let exits = Exits {
        break_to,
        continue_to: None,
    };
    let mut b = Builder::new(alloc, Stage::Compute)?;
    let mut p = nowhere(alloc);
    body.statement(&mut b, &mut p, s, exits)
}

// Whether a row of one statement leaves, and how much was asked for.
fn asked(alloc: Global, s: Stmt) -> Result<(bool, usize), BuildRefusal> {
    let mut row = Stmts::new(alloc);
    row.push(s)?;
    let prototypes = Prototypes::new(alloc);
    let asker = Asker {
        alloc,
        prototypes: &prototypes,
    };
    let mut needs = Needs::new(alloc);
    let left = asker.body(&row, &mut needs)?;
    Ok((left, needs.len()))
}

#[test]
fn statements_leave_or_not(rt: HostRuntime) -> Result<(), Fail> {
    let alloc = rt.alloc();
    assert_eq!(rt; leaves(alloc, &Stmt::Break, Some(5)), Ok(true));
    assert_eq!(rt; leaves(alloc, &Stmt::Empty, None), Ok(false));
    assert_eq!(rt; asked(alloc, Stmt::Continue), Ok((true, 0)));
    Ok(())
}
