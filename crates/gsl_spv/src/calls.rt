//! The calls of a builder that give or take an id.

ghost use Rattle.std.specs.Prelude.{◌≡◌, ◌⊎◌, Err, true};

use crate::builder::Builder;
use crate::plain::{PlainConst, PlainType};
use crate::refusal::BuildRefusal;
use gsl_instr::enumerant::decoration;
use gsl_instr::op;

impl Builder {
    ghost use Rattle.gsl_spv.specs.declared.refusal.BuildRefusal.TheVariants.{TooManyIds};
    ghost use Rattle.gsl_spv.specs.declared.plain.PlainType.TheVariants as plain;
    ghost use Rattle.gsl_spv.specs.Calls as spec;
    ghost use Rattle.gsl_spv.specs.Calls.{Answers, Does};
    ghost use Rattle.gsl_spv.specs.Growing.{Extends};

    /// The id of a type of few operands, which is declared where it is not there.
    pub fn plain_type(&mut self, ty: PlainType) -> Result<u32, BuildRefusal>
        ensures answer { Answers self.old result self.new (spec.plain_type ty self.old) }
        ensures full { result ≡ Err TooManyIds → self.new ≡ self.old }
        ensures grows { Extends self.old self.new }
    {
        match ty {
            PlainType::Void => self.intern(op::TYPE_VOID, None, &[]),
            PlainType::Bool => self.intern(op::TYPE_BOOL, None, &[]),
            PlainType::Int(signed) => self.intern(op::TYPE_INT, None, &[32, u32::from(signed)]),
            PlainType::Vector(component, count) => {
                self.intern(op::TYPE_VECTOR, None, &[component, count])
            }
            PlainType::Pointer(class, pointee) => {
                self.intern(op::TYPE_POINTER, None, &[class, pointee])
            }
        }
    }

    /// A new type of arrays, by the ids of its elements' type and of its length, and with its stride in
    /// bytes, if it has one.
    pub fn array_type(
        &mut self,
        element: u32,
        length: u32,
        stride: Option<u32>,
    ) -> Result<u32, BuildRefusal>
        ensures answer { Answers self.old result self.new (spec.array_type element length stride self.old) }
        ensures full { result ≡ Err TooManyIds → self.new ≡ self.old }
        ensures grows { Extends self.old self.new }
    {
        let id = self.declare(op::TYPE_ARRAY, &[element, length])?;
        if let Some(stride) = stride {
            self.decorate(id, None, decoration::ARRAY_STRIDE, Some(stride))?;
        }
        Ok(id)
    }

    /// A new type of arrays whose length is not said, with its stride in bytes.
    pub fn runtime_type(&mut self, element: u32, stride: u32) -> Result<u32, BuildRefusal>
        ensures answer { Answers self.old result self.new (spec.runtime_type element stride self.old) }
        ensures full { result ≡ Err TooManyIds → self.new ≡ self.old }
        ensures grows { Extends self.old self.new }
    {
        let id = self.declare(op::TYPE_RUNTIME_ARRAY, &[element])?;
        self.decorate(id, None, decoration::ARRAY_STRIDE, Some(stride))?;
        Ok(id)
    }

    /// A new type of structures, by the ids of its members' types.
    pub fn struct_type(&mut self, members: &[u32]) -> Result<u32, BuildRefusal>
        ensures answer { Answers self.old result self.new (spec.struct_type members.now self.old) }
        ensures full { result ≡ Err TooManyIds → self.new ≡ self.old }
        ensures grows { Extends self.old self.new }
    {
        self.declare(op::TYPE_STRUCT, members)
    }

    /// The id of a constant without parts, which is declared where it is not there. For a truth value its type
    /// is declared too.
    pub fn constant(&mut self, what: PlainConst) -> Result<u32, BuildRefusal>
        ensures answer { Answers self.old result self.new (spec.constant what self.old) }
        ensures full { result ≡ Err TooManyIds → (self.new ≡ self.old) ⊎ (self.new ≡ (spec.plain_type plain.Bool self.old).sections) }
        ensures grows { Extends self.old self.new }
    {
        match what {
            PlainConst::True => self.truth(true),
            PlainConst::False => self.truth(false),
            PlainConst::Word(ty, word) => self.intern(op::CONSTANT, Some(ty), &[word]),
            PlainConst::Null(ty) => self.intern(op::CONSTANT_NULL, Some(ty), &[]),
        }
    }

    /// The id of a constant with parts, by the ids of its type and of the parts, which is declared where it is
    /// not there.
    pub fn composite(&mut self, ty: u32, parts: &[u32]) -> Result<u32, BuildRefusal>
        ensures answer { Answers self.old result self.new (spec.composite ty parts.now self.old) }
        ensures full { result ≡ Err TooManyIds → self.new ≡ self.old }
        ensures grows { Extends self.old self.new }
    {
        self.intern(op::CONSTANT_COMPOSITE, Some(ty), parts)
    }

    /// The id of a truth value.
    fn truth(&mut self, value: bool) -> Result<u32, BuildRefusal>
        ensures answer { Answers self.old result self.new (spec.truth value self.old) }
        ensures full { result ≡ Err TooManyIds → (self.new ≡ self.old) ⊎ (self.new ≡ (spec.plain_type plain.Bool self.old).sections) }
        ensures grows { Extends self.old self.new }
    {
        let ty = self.plain_type(PlainType::Bool)?;
        if value {
            self.intern(op::CONSTANT_TRUE, Some(ty), &[])
        } else {
            self.intern(op::CONSTANT_FALSE, Some(ty), &[])
        }
    }
}
