//! Laws of the definitions that the contracts of this crate cite. Each is proved as the contract of a function that does nothing.

ghost use Rattle.std.specs.Prelude.{◌≡◌, IsTrue, List, map};
ghost use Rattle.std.specs.List.{AllByRecursion};
ghost use Rattle.exact_num.specs.declared.fraction.Frac.{Frac};
ghost use Rattle.exact_num.specs.Rational.{Rational};
ghost use Rattle.model_sets.specs.Members.{AreSets, SetLists};
ghost use Rattle.row_core.specs.declared.RowName.{RowName};
ghost use Rattle.row_core.specs.declared.Var.{Var};
ghost use Rattle.row_core.specs.Numbers.{ascends, keys_of};
ghost use Rattle.row_core.specs.Order.{row_name_cmp, var_cmp};
ghost use Rattle.row_core.specs.Plans.{valued};
ghost use Rattle.plan_files.specs.declared.faults.PlanFault.{PlanFault};
ghost use Rattle.plan_files.specs.Answers.{AreMultipliers, IsMultiplierFault, IsPlan, IsPlanFault};
ghost use Rattle.plan_files.specs.Files.{Fields, records_of};
ghost use Rattle.plan_files.specs.Listed.{IsListedRow, IsListedVariable};
ghost use Rattle.plan_files.specs.Records.{multiplier_records, nonzero, plan_records};
ghost use Rattle.plan_files.specs.Texts.{records_text};

/// What is written of a plan with all variables is read as that plan, and what is written of the multipliers of all rows as
/// those that aren't 0.
pub fn reading_laws()
    ensures plan { (sets : SetLists) (vars : List Var) (plan : List (Var × Frac)) → AreSets sets → IsTrue (ascends var_cmp vars) → AllByRecursion (IsListedVariable sets) vars
        → keys_of plan ≡ vars → IsPlan sets vars (records_of (records_text (plan_records sets (map valued plan)))) (map valued plan) }
    ensures multipliers { (sets : SetLists) (names : List RowName) (multipliers : List (RowName × Frac)) → AreSets sets → IsTrue (ascends row_name_cmp names) → AllByRecursion (IsListedRow sets) names
        → keys_of multipliers ≡ names → AreMultipliers sets names (records_of (records_text (multiplier_records sets (map valued multipliers)))) (nonzero (map valued multipliers)) }
{}

/// Records tell one plan at most, one list of multipliers, and one fault, and no fault where they tell a plan or multipliers.
pub fn telling_laws()
    ensures plan { (sets : SetLists) (vars : List Var) (all : List Fields) (p q : List (Var × Rational)) → IsPlan sets vars all p → IsPlan sets vars all q → p ≡ q }
    ensures multipliers { (sets : SetLists) (names : List RowName) (all : List Fields) (p q : List (RowName × Rational)) → AreMultipliers sets names all p → AreMultipliers sets names all q → p ≡ q }
    ensures plan_or_fault { (sets : SetLists) (vars : List Var) (all : List Fields) (p : List (Var × Rational)) (fault : PlanFault) → IsPlan sets vars all p → ¬ (IsPlanFault sets vars all fault) }
    ensures multipliers_or_fault { (sets : SetLists) (names : List RowName) (all : List Fields) (p : List (RowName × Rational)) (fault : PlanFault) → AreMultipliers sets names all p → ¬ (IsMultiplierFault sets names all fault) }
    ensures one_plan_fault { (sets : SetLists) (vars : List Var) (all : List Fields) (fault other : PlanFault) → IsPlanFault sets vars all fault → IsPlanFault sets vars all other → fault ≡ other }
    ensures one_multiplier_fault { (sets : SetLists) (names : List RowName) (all : List Fields) (fault other : PlanFault) → IsMultiplierFault sets names all fault → IsMultiplierFault sets names all other → fault ≡ other }
{}
