//! Layout names that have values.

ghost use Rattle.std.specs.Prelude.{◌≡◌, Some};
ghost use Rattle.gsl_qualifiers.specs.Qualifiers as spec;

use crate::qualified::Role;
use gsl_base::Text;

/// A layout name that has a value.
#[derive(Clone, Copy, Debug, PartialEq, Eq)]
pub enum Valued {
    Location,
    Set,
    Binding,
    Offset,
    Align,
    SizeX,
    SizeY,
    SizeZ,
}

/// A name of an input or an output.
fn interface_name(name: &str) -> Option<Valued>
    ensures { result ≡ spec.interface_names name.now }
{
    if name == "location" {
        Some(Valued::Location)
    } else {
        None
    }
}

/// A name of a push constant block.
fn align_name(name: &str) -> Option<Valued>
    ensures { result ≡ spec.align_name name.now }
{
    if name == "align" {
        Some(Valued::Align)
    } else {
        None
    }
}

/// A name of a uniform or buffer block.
fn bound_name(name: &str) -> Option<Valued>
    ensures { result ≡ spec.bound_names name.now }
{
    if name == "set" {
        Some(Valued::Set)
    } else if name == "binding" {
        Some(Valued::Binding)
    } else {
        align_name(name)
    }
}

/// A name of a member of a block.
fn member_name(name: &str) -> Option<Valued>
    ensures { result ≡ spec.member_names name.now }
{
    if name == "offset" {
        Some(Valued::Offset)
    } else {
        align_name(name)
    }
}

/// A name of the size of the work group.
fn size_name(name: &str) -> Option<Valued>
    ensures { result ≡ spec.size_names name.now }
{
    if name == "local_size_x" {
        Some(Valued::SizeX)
    } else if name == "local_size_y" {
        Some(Valued::SizeY)
    } else if name == "local_size_z" {
        Some(Valued::SizeZ)
    } else {
        None
    }
}

/// Which name with a value a word is, where it may stand before what is declared.
pub(crate) fn valued_name(role: Role, name: &Text) -> Option<Valued>
    ensures { result ≡ spec.valued role name.now }
{
    let name = name.as_str();
    match role {
        Role::Variable | Role::Nothing => None,
        Role::Input | Role::Output => interface_name(name),
        Role::Uniform | Role::Buffer => bound_name(name),
        Role::Push => align_name(name),
        Role::Member(_) => member_name(name),
        Role::Size => size_name(name),
    }
}

/// The least value of a name.
fn least_of(which: Valued) -> u32
    ensures { result ≡ spec.least_of which }
{
    match which {
        Valued::Location | Valued::Set | Valued::Binding | Valued::Offset => 0,
        Valued::Align | Valued::SizeX | Valued::SizeY | Valued::SizeZ => 1,
    }
}

/// The greatest value of a name.
fn most_of(which: Valued) -> u32
    ensures { result ≡ spec.most_of which }
{
    match which {
        Valued::Location => 1023,
        Valued::Set => 31,
        Valued::Binding => 65535,
        Valued::Offset => 16777212,
        Valued::Align => 16777216,
        Valued::SizeX | Valued::SizeY | Valued::SizeZ => 1024,
    }
}

/// Whether a word is a value of a name.
pub(crate) fn is_value_of(which: Valued, word: u32) -> bool
    ensures { result ≡ spec.is_value_of (Some which) word }
{
    word >= least_of(which) && word <= most_of(which)
}

/// Whether a word is an alignment that is no power of two.
pub(crate) fn is_wrong(which: Valued, word: u32) -> bool
    ensures { result ≡ spec.is_wrong (Some which) word }
{
    which == Valued::Align && !word.is_power_of_two()
}
