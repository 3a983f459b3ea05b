//! Laws of the definitions: calls that do nothing, whose contracts are the laws.

ghost use Rattle.std.specs.Prelude.{◌≡◌, ◌≢◌, List, [], filter_map};
ghost use Rattle.std.specs.List.{AllByRecursion};
ghost use Rattle.gsl_instr.specs.declared.op.TheConstants as op;
ghost use Rattle.gsl_types.specs.declared.ty.StructType.{StructType};
ghost use Rattle.gsl_types.specs.declared.ty.Ty.{Ty};
ghost use Rattle.gsl_words.specs.declared.module.Instr.{Instr};
ghost use Rattle.gsl_tree.specs.declared.expr.Expr.{Expr};
ghost use Rattle.gsl_tree.specs.declared.stmt.Stmt.{Stmt};
ghost use Rattle.gsl_tree.specs.declared.unit.Interface.{Interface};
ghost use Rattle.gsl_tree.specs.declared.unit.Prototype.{Prototype};
ghost use Rattle.gsl_valid.specs.Instruction.{read};
ghost use Rattle.gsl_valid.specs.Kinds.{variable_is};
ghost use Rattle.gsl_valid.specs.Placed.{Code};
ghost use Rattle.gsl_lower_expr.specs.Coming.{setting_of};
ghost use Rattle.gsl_lower_expr.specs.Lowering.{Setting, lowers};
ghost use Rattle.gsl_lower_stmt.specs.Coming.{row};
ghost use Rattle.gsl_lower_stmt.specs.Lowering.{lowers_stmt};
ghost use Rattle.gsl_lower_stmt.specs.declared.exits.Exits.{Exits};
ghost use Rattle.gsl_lower_law_inner.specs.Inner.{AllPut, CallsInner, IsInner, LowersInner, RunsInner};

/// What any expression is lowered to, well typed or not, puts inner code alone wherever it stands, where
/// calls do: as what is read or stored, as its value, and as its length.
pub fn expressions_put_inner_code()
    ensures { (s : Setting) → CallsInner s → (e : Expr) → LowersInner (lowers s e) }
{}

/// Calls of functions of a program do.
pub fn calls_put_inner_code()
    ensures { (structs : List StructType) (interfaces : List Interface) (prototypes : List Prototype) → CallsInner (setting_of structs interfaces prototypes) }
{}

/// What any statement is lowered to puts inner code alone, wherever it stands and its exits lead.
pub fn statements_put_inner_code()
    ensures { (s : Setting) → CallsInner s → (locals : List Ty) (one : Stmt) → RunsInner (lowers_stmt s locals one) }
{}

/// So do statements one behind the other.
pub fn bodies_put_inner_code()
    ensures { (s : Setting) → CallsInner s → (locals : List Ty) (ss : List Stmt) (exits : Exits) → AllPut (row s locals ss exits) }
{}

/// Inner code declares no variables.
pub fn inner_code_declares_no_variables()
    ensures { (code : Code) → AllByRecursion IsInner code → filter_map (λ (i : Instr). variable_is (read i)) code ≡ [] }
{}

/// No function ends in inner code.
pub fn inner_code_goes_on()
    ensures { (code : Code) → AllByRecursion IsInner code → AllByRecursion (λ (i : Instr). i.op ≢ op.FUNCTION_END) code }
{}
