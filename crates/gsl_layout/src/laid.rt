ghost use Rattle.std.specs.Prelude.{◌≡◌, ◌≤◌, length, IfOk, IsSome, Some};
ghost use Rattle.gsl_layout.specs.Kinds.{kind_of};
ghost use Rattle.gsl_layout.specs.Layout.{IsLayout, Leaf, Group, array as array_of, count_of, members_of, need, offset_at, part_of, size, stride_of};
ghost use Rattle.gsl_layout.specs.Parts.{parts_of};

use crate::kind::Kind;
use gsl_base::{Boxed, List, Memory};
use std::alloc::Global;
use std::marker::Model;

/// Offsets of members in bytes.
pub type Offsets = List<u32>;

/// Layouts of members in their order.
pub type Laids = List<Laid>;

/// Where the leaves of a value lie in bytes.
#[derive(Debug, Drop)]
#[cycle(laid)]
pub struct Laid {
    node: Node,
}

#[derive(Debug, Drop)]
#[cycle(laid)]
enum Node {
    /// Scalar components in a row.
    Leaf(u32),
    /// The stride, the count of elements or none for a runtime array, and the element.
    Array(u32, Option<u32>, Boxed<Laid>),
    /// The members' offsets, the members, and the size.
    Group(Offsets, Laids, u32),
}

impl Model for Laid {
    ghost use Rattle.gsl_layout.specs.Codes.{layout_code};
    ghost use Rattle.gsl_layout.specs.Layout.{Layout, IsLayout};

    ghost Value = { Layout };

    ghost coded = { layout_code };

    ghost use Rattle.gsl_layout.specs.Nodes.{layout_of, nodes, IsPaired};

    ghost view = { λ l. layout_of l.node };

    ghost invariant = { λ l. IsPaired l.node × IsLayout (layout_of l.node) };

    ghost size = { nodes };

    ghost use Rattle.std.proofs.Common.{arith};
    ghost use Rattle.gsl_layout.specs.Falls.{falls};

    ghost size_decreases = { λ l h. omega (arith, falls l.node h.0) };
}

impl Laid {
    /// A run of scalar components, 4 bytes each.
    pub fn leaf(components: u32) -> Laid
        requires some { 1 ≤ components }
        requires most { components ≤ 4 }
        ensures { result ≡ Leaf components }
    {
        Laid {
            node: Node::Leaf(components),
        }
    }

    /// An array of a stride in bytes, with a count of elements or none for a runtime array.
    pub fn array(
        alloc: Global,
        stride: u32,
        count: Option<u32>,
        element: Laid,
    ) -> Result<Laid, Memory>
        requires { IsLayout (array_of stride count element) }
        ensures { IfOk result (λ l. l ≡ array_of stride count element) }
    {
        let element = Boxed::new(alloc, element)?;
        Ok(Laid {
            node: Node::Array(stride, count, element),
        })
    }

    /// Members at their offsets, with the size of the whole, in bytes.
    pub fn group(offsets: Offsets, members: Laids, size: u32) -> Laid
        requires paired { length offsets ≡ length members }
        requires layout { IsLayout (Group (parts_of offsets members) size) }
        ensures { result ≡ Group (parts_of offsets members) size }
    {
        Laid {
            node: Node::Group(offsets, members, size),
        }
    }

    /// What every layout keeps: parts stand in order and apart, at whole words.
    pub fn keeps(&self)
        ensures { IsLayout self.now }
    {
        let _ = &self.node;
    }

    /// What stands at the top.
    pub fn kind(&self) -> Kind
        ensures { result ≡ kind_of self.now }
    {
        match &self.node {
            Node::Leaf(components) => Kind::Leaf(*components),
            Node::Array(_, _, _) => Kind::Array,
            Node::Group(_, members, _) => Kind::Group(members.len() as u32),
        }
    }

    /// The bytes up to where the next may stand: 4 for each component, stride times count of an array, 0
    /// for a runtime array, and for a group the size that it was given.
    pub fn size(&self) -> u32
        ensures { result ≡ size self.now }
    {
        match &self.node {
            Node::Leaf(components) => 4 * *components,
            Node::Array(stride, Some(count), _) => *stride * *count,
            Node::Array(_, None, _) => 0,
            Node::Group(_, _, size) => *size,
        }
    }

    /// The end of the last leaf, or the offset of the runtime array, which is 0 for a runtime array itself.
    pub fn need(&self) -> u32
        ensures { result ≡ need self.now }
    {
        match &self.node {
            Node::Leaf(components) => 4 * *components,
            Node::Array(stride, Some(count), element) => {
                *stride * (*count - 1) + element.get().need()
            }
            Node::Array(_, None, _) => 0,
            Node::Group(offsets, members, _) => {
                let last = members.len() - 1;
                offsets[last] + members[last].need()
            }
        }
    }

    /// The offset of a member in bytes.
    pub fn offset(&self, i: u32) -> u32
        requires { IsSome (offset_at (members_of self.now) i) }
        ensures { offset_at (members_of self.now) i ≡ Some result }
    {
        match &self.node {
            Node::Group(offsets, _, _) => offsets[i as usize],
            _ => unreachable!(),
        }
    }

    /// The stride of an array in bytes.
    pub fn stride(&self) -> u32
        requires { IsSome (stride_of self.now) }
        ensures { stride_of self.now ≡ Some result }
    {
        match &self.node {
            Node::Array(stride, _, _) => *stride,
            _ => unreachable!(),
        }
    }

    /// How many elements an array has; none for a runtime array.
    pub fn count(&self) -> Option<u32>
        requires { IsSome (count_of self.now) }
        ensures { count_of self.now ≡ Some result }
    {
        match &self.node {
            Node::Array(_, count, _) => *count,
            _ => unreachable!(),
        }
    }

    /// A member of a group by its number, or the element of an array.
    pub fn part(&self, i: u32) -> &Laid
        requires { IsSome (part_of self.now i) }
        ensures { part_of self.now i ≡ Some result.now }
    {
        match &self.node {
            Node::Group(_, members, _) => &members[i as usize],
            Node::Array(_, _, element) => element.get(),
            Node::Leaf(_) => unreachable!(),
        }
    }
}
