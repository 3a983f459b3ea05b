//! Laws of the definitions: calls that do nothing, whose contracts are the laws.

ghost use Rattle.std.specs.Prelude.{◌≡◌, ◌+◌, ◌^◌, ◌<◌, ◌≢◌, ◌↔◌, ℕ, true, IsTrue, List, ◌++◌, length, Option, Some, All};
ghost use Rattle.gsl_base.specs.Ranges.{AreWords, AreBytes};
ghost use Rattle.gsl_instr.specs.declared.form.Form.{Form};
ghost use Rattle.gsl_instr.specs.declared.instruction.Instruction.{Instruction as OneInstruction};
ghost use Rattle.gsl_instr.specs.Forms.{form_of, allows_words};
ghost use Rattle.gsl_instr.specs.Fitting.{Fits, fits_text};
ghost use Rattle.gsl_instr.specs.Instructions.{read, result_of, needs, mentions};
ghost use Rattle.gsl_instr.specs.Parts.{words_of, is_result, is_id, is_forward, ids_in};
ghost use Rattle.gsl_instr.specs.Strings.{string_words, IsText};
ghost use Rattle.gsl_instr.specs.Texts.{text_at};

/// The table has room for operand words exactly where their count is one of the form's and its text, if it
/// has one, stands among them.
pub fn what_fits()
    ensures { (op : ℕ) (form : Form) (args : List ℕ) → AreWords args → form_of op ≡ Some form → 1 + length args < 2 ^ 16 → ((IsTrue (allows_words form (length args)) × (fits_text form args ≡ true)) ↔ Fits op args) }
{}

/// A text is read from its words as it was, whatever stands behind it.
pub fn one_text()
    ensures { (text more : List ℕ) → IsText text → text_at (string_words text ++ more) ≡ Some (text, more) }
{}

/// The ids that an instruction defines, needs before it and mentions are those that its row of the table has as the result, as ids
/// that are defined before and as ids that may be defined later, each in their order.
pub fn one_table()
    ensures defines { (op : ℕ) (args : List ℕ) (form : Form) (instruction : OneInstruction) → Fits op args → form_of op ≡ Some form → read op args ≡ Some instruction → ids_in (result_of instruction) ≡ words_of is_result form args }
    ensures needs_before { (op : ℕ) (args : List ℕ) (form : Form) (instruction : OneInstruction) → Fits op args → form_of op ≡ Some form → read op args ≡ Some instruction → needs instruction ≡ words_of is_id form args }
    ensures mentions_later { (op : ℕ) (args : List ℕ) (form : Form) (instruction : OneInstruction) → Fits op args → form_of op ≡ Some form → read op args ≡ Some instruction → mentions instruction ≡ words_of is_forward form args }
{}
