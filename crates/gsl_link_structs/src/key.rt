//! The words by which the heads of functions and the struct types are found.

ghost use Rattle.std.specs.Prelude.{◌≡◌, ◌++◌, IfOk, OnOk, nat_eq};
ghost use Rattle.std.specs.Cmp.Lexicographic.{pointwise, nat_list_eq_equiv};
ghost use Rattle.std.specs.Cmp.{partial_equiv_from_equiv};
ghost use Rattle.std.specs.Cmp.Rules.{hashing};
ghost use Rattle.std.specs.Hash as fed;
ghost use Rattle.std.proofs.Common.{rules};
ghost use Rattle.gsl_link_structs.specs.Keys as spec;

use gsl_base::{List, Memory};
use gsl_tree::Prototype;
use gsl_types::{Direction, Member, Scalar, StructType, Ty};
use std::alloc::Global;
use std::hash::{Hash, Hasher};
use std::marker::Model;

/// The name of a function and the types of its parameters, or a struct, as words. Contracts see the words.
#[derive(Drop)]
pub struct Key {
    words: List<u32>,
}

impl Model for Key {
    ghost use Rattle.std.specs.Prelude.{List as Plain, ℕ};

    ghost Value = { Plain ℕ };

    ghost view = { λ k. k.words };
}

impl Key {
    /// The key of a head.
    pub fn of(alloc: Global, p: &Prototype) -> Result<Key, Memory>
        ensures { IfOk result (λ k. k ≡ spec.head_words p.now) }
    {
        let mut words = List::new(alloc);
        push_params(&mut words, p.params.as_slice())?;
        push_name(&mut words, p.name.as_str())?;
        Ok(Key { words })
    }

    /// The key of a struct, where the types of its members have numbers in one list.
    pub fn of_struct(alloc: Global, s: &StructType) -> Result<Key, Memory>
        ensures { IfOk result (λ k. k ≡ spec.struct_words s.now) }
    {
        let mut words = List::new(alloc);
        push_members(&mut words, s.members.as_slice())?;
        push_name(&mut words, s.name.as_str())?;
        Ok(Key { words })
    }
}

impl PartialEq for Key {
    ghost eq = { pointwise nat_eq };

    ghost laws = { partial_equiv_from_equiv nat_list_eq_equiv };

    fn eq(&self, other: &Key) -> bool {
        self.words.as_slice() == other.words.as_slice()
    }
}

impl Eq for Key {
    ghost laws = { nat_list_eq_equiv };
}

impl Hash for Key {
    ghost hash_input = { λ k. fed.slice fed.u32 k };

    ghost respects_eq = { Prim.search (hashing, rules) };

    fn hash<H: Hasher>(&self, state: &mut H) {
        self.words.as_slice().hash(state);
    }
}

fn scalar_word(s: Scalar) -> u32
    ensures { result ≡ spec.scalar_word s }
{
    match s {
        Scalar::Bool => 0,
        Scalar::Int => 1,
        Scalar::Uint => 2,
    }
}

fn push_type(words: &mut List<u32>, ty: &Ty) -> Result<(), Memory>
    ensures { OnOk result (words.new ≡ words.old ++ spec.type_words ty.now) }
{
    match ty {
        Ty::Void => {
            words.push(0)?;
            Ok(())
        }
        Ty::One(s) => {
            words.extend_from_slice(&[1, scalar_word(*s)])?;
            Ok(())
        }
        Ty::Vector(s, n) => {
            words.extend_from_slice(&[2, *n, scalar_word(*s)])?;
            Ok(())
        }
        Ty::Array(element, n) => {
            words.extend_from_slice(&[3, *n])?;
            push_type(words, element.get())?;
            Ok(())
        }
        Ty::Runtime(element) => {
            words.push(4)?;
            push_type(words, element.get())?;
            Ok(())
        }
        Ty::Struct(number) => {
            words.extend_from_slice(&[5, *number])?;
            Ok(())
        }
    }
}

fn push_params(words: &mut List<u32>, params: &[(Direction, Ty)]) -> Result<(), Memory>
    ensures { OnOk result (words.new ≡ words.old ++ spec.params_words params.now) }
{
    for k in 0..params.len() {
        words.push(1)?;
        push_type(words, &params[k].1)?;
    }
    words.push(0)?;
    Ok(())
}

fn push_name(words: &mut List<u32>, name: &str) -> Result<(), Memory>
    ensures { OnOk result (words.new ≡ words.old ++ name.now) }
{
    let bytes = name.as_bytes();
    for k in 0..bytes.len() {
        words.push(u32::from(bytes[k]))?;
    }
    Ok(())
}

/// A name of a member, with a 1 before each byte and a 0 at the end.
fn push_spelling(words: &mut List<u32>, name: &str) -> Result<(), Memory>
    ensures { OnOk result (words.new ≡ words.old ++ spec.spelling_words name.now) }
{
    let bytes = name.as_bytes();
    for k in 0..bytes.len() {
        words.extend_from_slice(&[1, u32::from(bytes[k])])?;
    }
    words.push(0)?;
    Ok(())
}

fn push_members(words: &mut List<u32>, members: &[Member]) -> Result<(), Memory>
    ensures { OnOk result (words.new ≡ words.old ++ spec.members_words members.now) }
{
    for k in 0..members.len() {
        words.push(1)?;
        push_spelling(words, members[k].name.as_str())?;
        push_type(words, &members[k].ty)?;
    }
    words.push(0)?;
    Ok(())
}
