//! Laws of what the file of a proof tells. Each is proved as the contract of a function that does nothing.

ghost use Rattle.std.specs.Prelude.{◌≡◌, Contains, IsTrue, List, [], map};
ghost use Rattle.std.specs.List.{AllByRecursion};
ghost use Rattle.exact_num.specs.declared.fraction.Frac.{Frac};
ghost use Rattle.model_sets.specs.Members.{AreSets, SetLists};
ghost use Rattle.row_core.specs.declared.RowName.{RowName};
ghost use Rattle.row_core.specs.declared.Var.{Var};
ghost use Rattle.row_core.specs.Numbers.{ascends, keys_of};
ghost use Rattle.row_core.specs.Order.{row_name_cmp, var_cmp};
ghost use Rattle.row_core.specs.Plans.{valued};
ghost use Rattle.plan_files.specs.declared.faults.PlanFault.{PlanFault};
ghost use Rattle.plan_files.specs.Files.{Fields, records_of};
ghost use Rattle.plan_files.specs.Listed.{IsListedRow, IsListedVariable};
ghost use Rattle.plan_files.specs.Records.{nonzero};
ghost use Rattle.proof_files.specs.declared.proof.Proof.{Proof};
ghost use Rattle.proof_files.specs.declared.proof.Proof.TheVariants as proofs;
ghost use Rattle.proof_files.specs.ProofRecords.{descent_file, optimum_file, refutation_file};
ghost use Rattle.proof_files.specs.Proofs.{IsProof, IsProofFault, KeysAreNames, NamesAreListed};

/// What is written is read as what was given, but multipliers of 0: a plan, of at least one variable, and multipliers as an
/// optimum, multipliers as a refutation, and a plan and a direction as these.
pub fn written_proof_laws()
    ensures optimum { (sets : SetLists) (vars : List Var) (names : List RowName) (plan : List (Var × Frac)) (multipliers : List (RowName × Frac))
        → NamesAreListed sets vars names → (vars ≡ [] → ⊥) → keys_of plan ≡ vars → KeysAreNames names (keys_of multipliers)
        → IsProof sets vars names (records_of (optimum_file sets (map valued plan) (map valued multipliers))) (proofs.Optimum (map valued plan) (nonzero (map valued multipliers))) }
    ensures refutation { (sets : SetLists) (vars : List Var) (names : List RowName) (multipliers : List (RowName × Frac))
        → NamesAreListed sets vars names → KeysAreNames names (keys_of multipliers)
        → IsProof sets vars names (records_of (refutation_file sets (map valued multipliers))) (proofs.Refutation (nonzero (map valued multipliers))) }
    ensures descent { (sets : SetLists) (vars : List Var) (names : List RowName) (plan direction : List (Var × Frac))
        → NamesAreListed sets vars names → (vars ≡ [] → ⊥) → keys_of plan ≡ vars → keys_of direction ≡ vars
        → IsProof sets vars names (records_of (descent_file sets (map valued plan) (map valued direction))) (proofs.Descent (map valued plan) (map valued direction)) }
{}

/// Records tell one proof at most, and one fault, and no fault where they tell a proof.
pub fn proof_telling_laws()
    ensures one_proof { (sets : SetLists) (vars : List Var) (names : List RowName) (all : List Fields) (p q : Proof) → IsProof sets vars names all p → IsProof sets vars names all q → p ≡ q }
    ensures proof_or_fault { (sets : SetLists) (vars : List Var) (names : List RowName) (all : List Fields) (p : Proof) (fault : PlanFault) → IsProof sets vars names all p → ¬ (IsProofFault sets vars names all fault) }
    ensures one_proof_fault { (sets : SetLists) (vars : List Var) (names : List RowName) (all : List Fields) (fault other : PlanFault) → IsProofFault sets vars names all fault → IsProofFault sets vars names all other → fault ≡ other }
{}
