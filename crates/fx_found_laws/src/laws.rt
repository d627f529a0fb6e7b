//! What the operations that lead a node's tables to those of a view name, and that they leave the rows of others. Each
//! law is a contract; no function does anything.
ghost use Rattle.std.specs.Prelude.{◌≡◌, ℕ, List, Ok};
ghost use Rattle.fx_names.specs.Digests.{Digest};
ghost use Rattle.fx_model.specs.declared.resources.Resources.{Resources};
ghost use Rattle.fx_model.specs.declared.view.View.{View};
ghost use Rattle.fx_model.specs.Tables.{Tables};
ghost use Rattle.fx_model.specs.Views.{view_of};
ghost use Rattle.fx_model.specs.ViewTables.{tables_of};
ghost use Rattle.fx_found.specs.Found.{found_of};
ghost use Rattle.fx_found.specs.declared.found.Found.{Found};
ghost use Rattle.fx_reconcile.specs.Operations.{operations};
ghost use Rattle.fx_found_laws.specs.OwnNames.{AreOwnSets, AreOwn, AllNameOwn};
ghost use Rattle.fx_found_laws.specs.OthersRows.{AllLeaveRows, AllLeaveNames};

/// The tables that rows are read as have own sets and own chains alone.
pub fn found_tables_are_own()
    ensures { (rows : List (List ℕ)) (found : Found) → found_of rows ≡ Ok found → AreOwn found.tables }
{}

/// So have the tables of a view whose sets have own names, as those of the view of any resources have.
pub fn view_tables_are_own()
    ensures named { (v : View) → AreOwnSets v.sets → AreOwn (tables_of v) }
    ensures wanted { (dg : Digest) (R : Resources) → AreOwn (tables_of (view_of dg R)) }
{}

/// Between tables of own sets and chains each operation names an own set or an own chain. So does each that leads the
/// tables of rows to those of a view whose sets have own names, as the view of any resources.
pub fn operations_name_own_sets_and_chains()
    ensures between { (n g : Tables) → AreOwn n → AreOwn g → AllNameOwn (operations n g) }
    ensures view { (rows : List (List ℕ)) (found : Found) (v : View) → found_of rows ≡ Ok found → AreOwnSets v.sets
        → AllNameOwn (operations found.tables (tables_of v)) }
    ensures wanted { (rows : List (List ℕ)) (found : Found) (dg : Digest) (R : Resources) → found_of rows ≡ Ok found
        → AllNameOwn (operations found.tables (tables_of (view_of dg R))) }
{}

/// No row of others is one of the set or the chain that an operation names which leads the tables of rows to those of
/// such a view. And none is a rule that names a set or a chain which an operation takes away, whatever the view.
pub fn operations_leave_rows_of_others()
    ensures rows { (rows : List (List ℕ)) (found : Found) (v : View) → found_of rows ≡ Ok found → AreOwnSets v.sets
        → AllLeaveRows found.foreign (operations found.tables (tables_of v)) }
    ensures names { (rows : List (List ℕ)) (found : Found) (v : View) → found_of rows ≡ Ok found
        → AllLeaveNames found.foreign (operations found.tables (tables_of v)) }
{}
