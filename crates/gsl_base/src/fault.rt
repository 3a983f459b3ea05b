ghost use Rattle.std.specs.Prelude.{◌≡◌};
ghost use Rattle.gsl_base.specs.declared.fault.Refusal.TheVariants.{Memory as WantOfMemory};
ghost use Rattle.gsl_base.specs.Code.{number_of};

use crate::memory::Memory;
use std::alloc::{AllocError, AllocFailed};

/// Where a fault stands: the number of its source file from 0, and its line from 1.
#[derive(Clone, Copy, Debug, PartialEq, Eq)]
pub struct Place {
    pub unit: u32,
    pub line: u32,
}

/// What is wrong with a source. `docs/ERRORS.md` has an example of each.
#[derive(Clone, Copy, Debug, PartialEq, Eq)]
pub enum Code {
    /// The source is not of the form that is built so far.
    E0001,
    /// A byte that begins no token.
    E0101,
    /// A comment that is not closed.
    E0102,
    /// A literal that is malformed, or is 2^32 or more.
    E0103,
    /// A floating literal.
    E0104,
    /// A word of the language that the profile leaves out.
    E0105,
    /// A word of more than 1,024 bytes.
    E0106,
    /// A directive that is unknown or malformed.
    E0201,
    /// `#elif`, `#else` or `#endif` without a group, or behind `#else`.
    E0202,
    /// A group of a condition that is not closed.
    E0203,
    /// A name without a definition in a condition.
    E0204,
    /// A malformed condition.
    E0205,
    /// A zero divisor, or a shift amount out of range, in a condition.
    E0206,
    /// A wrong count of macro arguments.
    E0207,
    /// Macro arguments that are not closed.
    E0208,
    /// A macro that is defined otherwise already.
    E0209,
    /// A macro name that is reserved.
    E0210,
    /// `#version` is missing, is another than 450, or comes too late.
    E0211,
    /// An extension that is required and not there.
    E0212,
    /// `#error`.
    E0213,
    /// A malformed list of macro parameters.
    E0214,
    /// `#` in the replacement of a macro.
    E0215,
    /// The tokens are no sentence of the grammar.
    E0301,
    /// An unknown name, or a built-in variable of another stage.
    E0401,
    /// A name of another kind than its place needs.
    E0402,
    /// A name that is declared twice in one scope.
    E0403,
    /// A declared name that is reserved.
    E0404,
    /// A function that disagrees with its earlier declaration.
    E0405,
    /// No overload fits.
    E0501,
    /// No overload is best.
    E0502,
    /// Operands that do not fit their operator, or a condition that is no `bool`.
    E0503,
    /// A value that does not convert to the type needed.
    E0504,
    /// Arguments that do not fit a constructor or an initialiser list.
    E0505,
    /// An unknown member, or a wrong swizzle.
    E0506,
    /// A write where writing is not allowed, or a read of `writeonly`.
    E0507,
    /// A value without indexes, or an index that is no integer scalar.
    E0508,
    /// `.length()` of what is no array and no vector.
    E0509,
    /// `void` or a runtime array as a value.
    E0510,
    /// A label or statement that may not stand there in a `switch`.
    E0511,
    /// `break` or `continue` outside of what it leaves.
    E0512,
    /// `return` with a value in a void function, or without one in another.
    E0513,
    /// `discard` outside the fragment stage.
    E0514,
    /// A constant expression is required.
    E0601,
    /// A required constant expression whose value the language leaves open.
    E0602,
    /// An array size that is missing, or no integer scalar of at least 1.
    E0603,
    /// `const` without an initialiser.
    E0604,
    /// `gl_WorkGroupSize` before the local size is stated.
    E0605,
    /// A constant index that is out of range.
    E0606,
    /// A qualifier that is repeated, in conflict, or not allowed there.
    E0701,
    /// An interface variable of a wrong type or stage, or without `flat`.
    E0702,
    /// An initialiser where none is allowed.
    E0703,
    /// A layout name that is unknown or not allowed there.
    E0704,
    /// A layout value that is missing or out of range.
    E0705,
    /// `binding` or `location` is missing.
    E0706,
    /// A second push constant block.
    E0707,
    /// A type that no block member may have, or `std430` on a uniform block.
    E0708,
    /// An `offset` or `align` that does not fit the member.
    E0709,
    /// There is no `main`.
    E0801,
    /// A second definition of a function.
    E0802,
    /// A call of a function without a definition.
    E0803,
    /// A declaration that disagrees with one of an earlier source.
    E0804,
    /// A function that reaches itself by calls.
    E0805,
    /// Local sizes that disagree, or none.
    E0806,
    /// A location, or a set and binding, that is used twice.
    E0807,
    /// The file is longer than 1,048,576 bytes.
    E0900,
    /// More than 1,000,000 tokens are looked at and put by macros.
    E0901,
    /// Nested deeper than 256.
    E0902,
    /// The variables of a function, or the globals, have more than 65,536 leaves.
    E0903,
    /// A whole struct or array of more than 1,024 leaves is read, written or compared.
    E0904,
    /// A block of more than 16,777,216 bytes.
    E0905,
    /// The program's weight is more than 200,000.
    E0906,
    /// Calls nest more than 64 deep.
    E0907,
    /// A type, list, `switch` or function of more parts than the limits allow.
    E0908,
}

impl Code {
    /// The number that is printed with four digits after `E`.
    pub fn number(self) -> u16
        ensures { result ≡ number_of self }
    {
        match self {
            Code::E0001 => 1,
            Code::E0101 => 101,
            Code::E0102 => 102,
            Code::E0103 => 103,
            Code::E0104 => 104,
            Code::E0105 => 105,
            Code::E0106 => 106,
            Code::E0201 => 201,
            Code::E0202 => 202,
            Code::E0203 => 203,
            Code::E0204 => 204,
            Code::E0205 => 205,
            Code::E0206 => 206,
            Code::E0207 => 207,
            Code::E0208 => 208,
            Code::E0209 => 209,
            Code::E0210 => 210,
            Code::E0211 => 211,
            Code::E0212 => 212,
            Code::E0213 => 213,
            Code::E0214 => 214,
            Code::E0215 => 215,
            Code::E0301 => 301,
            Code::E0401 => 401,
            Code::E0402 => 402,
            Code::E0403 => 403,
            Code::E0404 => 404,
            Code::E0405 => 405,
            Code::E0501 => 501,
            Code::E0502 => 502,
            Code::E0503 => 503,
            Code::E0504 => 504,
            Code::E0505 => 505,
            Code::E0506 => 506,
            Code::E0507 => 507,
            Code::E0508 => 508,
            Code::E0509 => 509,
            Code::E0510 => 510,
            Code::E0511 => 511,
            Code::E0512 => 512,
            Code::E0513 => 513,
            Code::E0514 => 514,
            Code::E0601 => 601,
            Code::E0602 => 602,
            Code::E0603 => 603,
            Code::E0604 => 604,
            Code::E0605 => 605,
            Code::E0606 => 606,
            Code::E0701 => 701,
            Code::E0702 => 702,
            Code::E0703 => 703,
            Code::E0704 => 704,
            Code::E0705 => 705,
            Code::E0706 => 706,
            Code::E0707 => 707,
            Code::E0708 => 708,
            Code::E0709 => 709,
            Code::E0801 => 801,
            Code::E0802 => 802,
            Code::E0803 => 803,
            Code::E0804 => 804,
            Code::E0805 => 805,
            Code::E0806 => 806,
            Code::E0807 => 807,
            Code::E0900 => 900,
            Code::E0901 => 901,
            Code::E0902 => 902,
            Code::E0903 => 903,
            Code::E0904 => 904,
            Code::E0905 => 905,
            Code::E0906 => 906,
            Code::E0907 => 907,
            Code::E0908 => 908,
        }
    }
}

/// The first fault of the sources.
#[derive(Clone, Copy, Debug, PartialEq, Eq)]
pub struct Fault {
    pub place: Place,
    pub code: Code,
}

/// Why there is no answer: the sources have a fault, or memory is wanting.
#[derive(Clone, Copy, Debug, PartialEq, Eq)]
pub enum Refusal {
    Source(Fault),
    Memory,
}

impl From<Memory> for Refusal {
    ghost from_gives = { λ _ refusal. refusal ≡ WantOfMemory };

    fn from(_error: Memory) -> Refusal {
        Refusal::Memory
    }
}

impl From<AllocError> for Refusal {
    ghost from_gives = { λ _ refusal. refusal ≡ WantOfMemory };

    fn from(_error: AllocError) -> Refusal {
        Refusal::Memory
    }
}

impl<T: Drop> From<AllocFailed<T>> for Refusal {
    ghost from_gives = { λ _ refusal. refusal ≡ WantOfMemory };

    fn from(_error: AllocFailed<T>) -> Refusal {
        Refusal::Memory
    }
}
