//! The members of a block that were declared so far.

ghost use Rattle.std.specs.Prelude.{◌≡◌, ℕ, ◌≤◌, ◌++◌, ◌∷◌, [], IfOk, false, length, min};
ghost use Rattle.gsl_types.specs.Known.{AreStructs, IsSound};
ghost use Rattle.gsl_layout.specs.Outlines.{AreOutlined, EndsPlaced, most_told};
ghost use Rattle.gsl_layout.specs.Measures.{measure};
ghost use Rattle.gsl_tree.specs.Laying.{rule_of};
ghost use Rattle.gsl_check_blocks.specs.Blocks as spec;
ghost use Rattle.gsl_check_blocks.specs.Stands.{AreWith, EndsBehind, HasNames, IsMemberType, Stands};

use gsl_base::{List, Memory, Text};
use gsl_layout::{Outlines, Placing, Std140, Std430, end_of_placed, outline_structs};
use gsl_names::{Entry, Names};
use gsl_tree::{BlockMember, BlockMembers};
use gsl_types::{Structs, Ty};
use std::alloc::Global;

/// Members, with a table of their names and the end of the last one, and the outlines of the structs.
#[derive(Drop)]
pub struct SoFar {
    pub members: BlockMembers,
    names: Names,
    outlines: Outlines,
    /// In bytes, counted up to 2^32.
    end: u64,
}

/// The outlines of structs by one of the two rules.
fn outlines_of(alloc: Global, std140: bool, structs: &Structs) -> Result<Outlines, Memory>
    requires known { AreStructs structs.now }
    ensures outlined { IfOk result (AreOutlined (rule_of std140) structs.now) }
    ensures all { IfOk result (λ outlines. length outlines ≡ length structs.now) }
{
    if std140 {
        outline_structs(alloc, &Std140, structs)
    } else {
        outline_structs(alloc, &Std430, structs)
    }
}

/// The end of a member of a type behind an end, or `None` where it may not stand there.
fn end_behind(
    std140: bool,
    structs: &Structs,
    outlines: &Outlines,
    end: u64,
    placing: Placing,
    ty: &Ty,
) -> Option<u64>
    requires outlined { AreOutlined (rule_of std140) structs.now outlines.now }
    requires sound { IsSound (length outlines.now) ty.now }
    requires end { end ≤ most_told }
    ensures { (before : ℕ) → end ≡ min before most_told → EndsPlaced result before (placing, measure (rule_of std140) structs.now ty.now) }
{
    if std140 {
        end_of_placed(&Std140, structs, outlines, end, placing, ty)
    } else {
        end_of_placed(&Std430, structs, outlines, end, placing, ty)
    }
}

impl SoFar {
    /// No member.
    pub fn new(alloc: Global, std140: bool, structs: &Structs) -> Result<SoFar, Memory>
        requires known { AreStructs structs.now }
        ensures none { IfOk result (λ all. all.members ≡ []) }
        ensures stand { IfOk result (Stands std140 structs.now false) }
    {
        Ok(SoFar {
            members: List::new(alloc),
            names: Names::new(alloc),
            outlines: outlines_of(alloc, std140, structs)?,
            end: 0,
        })
    }

    /// Whether one of the members has a name.
    pub fn has(&self, name: &Text) -> bool
        requires names { HasNames self.now }
        ensures { result ≡ spec.has_member self.now.members name.now }
    {
        self.names.find(name).is_some()
    }

    /// The end of one more member, or `None` where it may not stand behind these.
    pub fn end_with(&self, std140: bool, structs: &Structs, member: &BlockMember) -> Option<u64>
        requires stand { Stands std140 structs.now false self.now }
        requires may { IsMemberType structs.now member.now.ty }
        ensures { EndsBehind result std140 structs.now (self.now.members ++ member.now ∷ []) }
    {
        let placing = Placing {
            offset: member.offset,
            align: member.align,
        };
        end_behind(
            std140,
            structs,
            &self.outlines,
            self.end,
            placing,
            &member.ty,
        )
    }

    /// One more member, which ends there.
    pub fn with(self, alloc: Global, member: BlockMember, end: u64) -> Result<SoFar, Memory>
        ensures { IfOk result (AreWith self member end) }
    {
        let SoFar {
            mut members,
            names,
            outlines,
            ..
        } = self;
        let name = Text::from_str(alloc, member.name.as_str())?;
        members.push(member)?;
        Ok(SoFar {
            members,
            names: names.with(alloc, name, Entry::Size)?,
            outlines,
            end,
        })
    }
}
