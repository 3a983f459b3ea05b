//! Laws of the definitions: calls that do nothing, whose contracts are the laws.

ghost use Rattle.std.specs.Prelude.{◌≡◌, ◌+◌, ◌%◌, ◌≤◌, ◌<◌, IsTrue, List, None, Some, false, length, ℕ};
ghost use Rattle.std.specs.List.{AllByRecursion};
ghost use Rattle.gsl_types.specs.Known.{AreStructs, IsSound};
ghost use Rattle.gsl_types.specs.declared.ty.Member.{Member};
ghost use Rattle.gsl_types.specs.declared.ty.StructType.{StructType};
ghost use Rattle.gsl_types.specs.declared.ty.Ty.{Ty};
ghost use Rattle.gsl_types.specs.declared.ty.Ty.TheVariants as ty;
ghost use Rattle.gsl_layout.specs.Extents.{AreMembers, ArePlain, extent, most_bytes};
ghost use Rattle.gsl_layout.specs.Layout.{Group, IsLayout, Layout, Parts, closed, need, offset_at, part_at, size};
ghost use Rattle.gsl_layout.specs.Measures.{block, measure, misplaced_in};
ghost use Rattle.gsl_layout.specs.Placings.{Placed, misplaced, offset_behind};
ghost use Rattle.gsl_layout.specs.Rules.{IsAlignment, Raises, least_multiple, raise_std140, raise_std430};
ghost use Rattle.gsl_layout.specs.Sixteens.{StridesOf16};
ghost use Rattle.gsl_layout.specs.declared.placing.Placing.{Placing};

/// A place is rounded up to the least multiple of an alignment that is not below it.
pub fn places_are_rounded_up()
    ensures not_below { (align place : ℕ) → 1 ≤ align → place ≤ least_multiple align place }
    ensures multiple { (align place : ℕ) → least_multiple align place % align ≡ 0 }
    ensures least { (align place other : ℕ) → 1 ≤ align → other % align ≡ 0 → place ≤ other → least_multiple align place ≤ other }
{}

/// A member that may stand behind an end stands at a multiple of its base alignment and of its `align`, and below neither
/// that end nor its `offset`.
pub fn members_stand_where_they_are_placed()
    ensures base { (member : Placed) (end : ℕ) → IsAlignment member.1.align → misplaced end member ≡ false → offset_behind end member % member.1.align ≡ 0 }
    ensures align { (member : Placed) (end align : ℕ) → IsAlignment member.1.align → misplaced end member ≡ false → member.0.align ≡ Some align → offset_behind end member % align ≡ 0 }
    ensures end { (member : Placed) (end : ℕ) → IsAlignment member.1.align → misplaced end member ≡ false → end ≤ offset_behind end member }
    ensures offset { (member : Placed) (end offset : ℕ) → IsAlignment member.1.align → member.0.offset ≡ Some offset → offset ≤ offset_behind end member }
{}

/// Both rules give alignments, multiples of what they were given, and keep what they gave.
pub fn rules_raise()
    ensures std140 { (align : ℕ) → IsAlignment align → Raises raise_std140 align }
    ensures std430 { (align : ℕ) → IsAlignment align → Raises raise_std430 align }
{}

/// A block none of whose members is misplaced and that is not too large has a well-formed layout, by every rule.
pub fn blocks_are_well_formed()
    ensures { (raise : ℕ → ℕ) (structs : List StructType) (members : List Member) (placings : List Placing) → ((align : ℕ) → IsAlignment align → Raises raise align) → AreStructs structs → ArePlain structs → AllByRecursion (λ member. IsSound (length structs) member.ty) members → AreMembers members → misplaced_in raise structs members placings ≡ None → extent (block raise structs members placings) ≤ most_bytes → IsLayout (block raise structs members placings).laid }
{}

/// In a well-formed layout a member ends, as far as it needs bytes, before the next begins, and no
/// runtime array stands before another member.
pub fn members_stand_apart()
    ensures { (members : Parts) (all i j offset next : ℕ) (part : Layout) → IsLayout (Group members all) → i < j → part_at members i ≡ Some part → offset_at members i ≡ Some offset → offset_at members j ≡ Some next → IsTrue (closed part) × (offset + need part ≤ next) }
{}

/// A well-formed layout needs no more bytes than its size.
pub fn need_is_within_size()
    ensures { (layout : Layout) → IsLayout layout → need layout ≤ size layout }
{}

/// By std140 the stride of every array and the alignment of every struct is a multiple of 16.
pub fn std140_counts_in_16()
    ensures strides { (structs : List StructType) (ty : Ty) → StridesOf16 (measure raise_std140 structs ty).laid }
    ensures structs { (structs : List StructType) (number : ℕ) → AreStructs structs → number < length structs → (measure raise_std140 structs (ty.Struct number)).align % 16 ≡ 0 }
{}
