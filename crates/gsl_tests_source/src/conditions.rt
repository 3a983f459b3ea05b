use gsl_base::{Code, Fault, Memory, Place, Raw, Refusal, Text};
use gsl_conditions::holds;
use gsl_lex::lex;
use gsl_macros::{Macro, Macros, Shift, Table};
use std::alloc::Global;

/// The fault of a refusal.
fn fault_of<T: Drop>(answer: Result<T, Refusal>) -> Option<Fault> {
    match answer {
        Err(Refusal::Source(fault)) => Some(fault),
        _ => None,
    }
}

fn at(line: u32, code: Code) -> Option<Fault> {
    Some(Fault {
        place: Place { unit: 0, line },
        code,
    })
}

/// The table in which `A` is 3.
fn macros(alloc: Global) -> Result<Macros, Memory> {
    let mut table = Table::new(alloc);
    table.set(Text::from_str(alloc, "A")?, Macro::Number(3))?;
    Ok(Macros {
        table,
        shift: Shift {
            after: 0,
            number: 1,
            file: 0,
        },
    })
}

/// Whether a condition on the first line holds, where `A` is 3.
fn judged(alloc: Global, text: &str) -> Result<bool, Refusal> {
    let bytes = text.as_bytes();
    if bytes.len() >= 1000 {
        return Err(Refusal::Memory);
    }
    let raws = lex(alloc, 0, bytes)?;
    judged_raws(alloc, raws.as_slice())
}

fn judged_raws(alloc: Global, raws: &[Raw]) -> Result<bool, Refusal> {
    let macros = macros(alloc)?;
    let mut left = 30u32;
    holds(alloc, &macros, Place { unit: 0, line: 9 }, raws, &mut left)
}

/// Conditions, and whether they hold.
const CONDITIONS: [(&str, bool); 3] = [
    ("defined A && !defined(B) && A == 3", true),
    ("1 + 2 * A - 1 - 1 == 5 && -7 / 2 == -A", true),
    ("0 && B || 1 > 1 ^ 0 & 1", false),
];

#[test]
fn conditions_hold(rt: HostRuntime) {
    for (text, answer) in &CONDITIONS {
        assert_eq!(rt; judged(rt.alloc(), text), Ok(*answer));
    }
}

/// Conditions, and the lines and codes of their first faults.
const FAULTS: [(&str, u32, Code); 4] = [
    ("B + 1 / 0 +", 9, Code::E0205),
    ("B + 1 / 0", 1, Code::E0204),
    ("1 / \\\n0 + B", 1, Code::E0206),
    (
        "1 1 1 1 1 1 1 1 1 1 1 1 1 1 1 1 1 1 1 1 1 1 1 1 1 1 1 1 1 1 \\\n1",
        2,
        Code::E0901,
    ),
];

#[test]
fn faults_come_in_order(rt: HostRuntime) {
    for (text, line, code) in &FAULTS {
        assert_eq!(rt; fault_of(judged(rt.alloc(), text)), at(*line, *code));
    }
}
