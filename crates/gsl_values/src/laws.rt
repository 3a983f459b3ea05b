//! Laws of the definitions: calls that do nothing, whose contracts are the laws.

ghost use Rattle.std.specs.Prelude.{◌≡◌, ◌<◌, ◌≤◌, ◌+◌, ◌-◌, ◌*◌, ◌%◌, ◌^◌, ℕ, ℤ, pos, ◌+ℤ◌, ◌-ℤ◌, ◌*ℤ◌, ◌≤ℤ◌, Bool, true, false, nat_lt, List, length, take, drop, slice_index, if◌then◌else◌};
ghost use Rattle.std.specs.Int.{bit_at};
ghost use Rattle.gsl_values.specs.declared.op.BinaryOp.{BinaryOp};
ghost use Rattle.gsl_values.specs.declared.op.BinaryOp.TheVariants.{Div, Mod};
ghost use Rattle.gsl_values.specs.declared.function.Builtin.TheVariants.{Clamp, BitfieldReverse, BitfieldExtract, BitfieldInsert};
ghost use Rattle.gsl_values.specs.declared.lane.Lanes.{Lanes};
ghost use Rattle.gsl_values.specs.Word.{value, word_of, word_of_bits};
ghost use Rattle.gsl_values.specs.Operators.{is_free, binary_word, binary_answer};
ghost use Rattle.gsl_values.specs.Vectors.{IsLanes, components, lanes_answer};
ghost use Rattle.gsl_values.specs.Functions.{is_free_field, builtin_word};
ghost use Rattle.gsl_values.specs.Laws.{IsRest, GiveDividend, draws};

/// A word is that of the number that it stands for; the word of a whole number is below 2^32 and differs
/// from it by a multiple of 2^32; the word of bits has these bits, and a word is that of its bits.
pub fn words_and_numbers()
    ensures stands { (signed : Bool) (a : ℕ) → a < 2 ^ 32 → word_of (value signed a) ≡ a }
    ensures below { (z : ℤ) → word_of z < 2 ^ 32 }
    ensures congruent { (z : ℤ) → (k : ℤ) × (z ≡ pos (word_of z) +ℤ k *ℤ pos (2 ^ 32)) }
    ensures bits { (bit : ℕ → ℕ) (i : ℕ) → ((j : ℕ) → j < 32 → bit j < 2) → i < 32 → bit_at (word_of_bits bit) i ≡ bit i }
    ensures whole { (a : ℕ) → a < 2 ^ 32 → word_of_bits (bit_at a) ≡ a }
{}

/// Where quotient and rest are not left open, the rest is smaller than the divisor and has its sign, and
/// quotient times divisor and rest give the dividend; or dividend and divisor together where they differ in
/// sign and the rest is not 0.
pub fn quotient_and_rest()
    ensures rest { (signed : Bool) (a b : ℕ) → a < 2 ^ 32 → b < 2 ^ 32 → is_free Mod signed a b ≡ false
        → IsRest (value signed (binary_word Mod signed a b)) (value signed b) }
    ensures dividend { (signed : Bool) (a b : ℕ) → a < 2 ^ 32 → b < 2 ^ 32 → is_free Div signed a b ≡ false
        → GiveDividend (value signed a) (value signed b) (value signed (binary_word Div signed a b)) (value signed (binary_word Mod signed a b)) }
{}

/// Each component of an operator on vectors is that of the operator on the words of the component, with the
/// choices that are left behind as many as components before it are left open; past the last stand zeros.
pub fn lanes_in_order()
    ensures component { (op : BinaryOp) (signed : Bool) (a b : Lanes) (choices : List ℕ) (i : ℕ) → IsLanes a → b.count ≡ a.count → length a.words ≡ 4 → length b.words ≡ 4 → i < a.count
        → slice_index (lanes_answer op signed a b choices).0.words i
        ≡ (binary_answer op signed (slice_index a.words i) (slice_index b.words i) (drop (draws op signed (take i a.words) (take i b.words)) choices)).0 }
    ensures past { (op : BinaryOp) (signed : Bool) (a b : Lanes) (choices : List ℕ) (i : ℕ) → a.count ≤ i
        → slice_index (lanes_answer op signed a b choices).0.words i ≡ 0 }
    ensures left { (op : BinaryOp) (signed : Bool) (a b : Lanes) (choices : List ℕ)
        → (lanes_answer op signed a b choices).1 ≡ drop (draws op signed (components a) (components b)) choices }
{}

/// `clamp` lies between its bounds where they are in order, and is its argument where that lies between them.
pub fn clamp_within()
    ensures within { (signed : Bool) (x low high : ℕ) → x < 2 ^ 32 → low < 2 ^ 32 → high < 2 ^ 32 → value signed low ≤ℤ value signed high
        → let clamped = value signed (builtin_word Clamp signed x low high 0) in (value signed low ≤ℤ clamped) × (clamped ≤ℤ value signed high) }
    ensures same { (signed : Bool) (x low high : ℕ) → x < 2 ^ 32 → value signed low ≤ℤ value signed x → value signed x ≤ℤ value signed high
        → builtin_word Clamp signed x low high 0 ≡ x }
{}

/// Reversing the bits twice changes nothing.
pub fn reversed_twice()
    ensures { (signed : Bool) (a : ℕ) → a < 2 ^ 32 → builtin_word BitfieldReverse signed (builtin_word BitfieldReverse signed a 0 0 0) 0 0 0 ≡ a }
{}

/// Extracting where bits were inserted gives the lowest bits of what was inserted: of a `uint` as they are, of an
/// `int` as the number that they stand for in two's complement.
pub fn field_put_back()
    ensures again { (signed : Bool) (base insert offset bits : ℕ) → offset < 2 ^ 32 → bits < 2 ^ 32 → is_free_field offset bits ≡ false
        → builtin_word BitfieldExtract signed (builtin_word BitfieldInsert signed base insert offset bits) offset bits 0 ≡ builtin_word BitfieldExtract signed insert 0 bits 0 }
    ensures uint { (insert bits : ℕ) → bits ≤ 32 → builtin_word BitfieldExtract false insert 0 bits 0 ≡ insert % 2 ^ bits }
    ensures int { (insert bits : ℕ) → 0 < bits → bits ≤ 32
        → let low = insert % 2 ^ bits in value true (builtin_word BitfieldExtract true insert 0 bits 0) ≡ (if nat_lt low (2 ^ (bits - 1)) then pos low else pos low -ℤ pos (2 ^ bits)) }
{}
