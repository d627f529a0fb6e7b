//! What holds of the operations from any tables to any others. Each law is a contract; no function does anything.
ghost use Rattle.std.specs.Prelude.{◌≡◌, ◌+◌, List, [], ◌∷◌, Some, None};
ghost use Rattle.fx_model.specs.Closed.{AreClosedTables};
ghost use Rattle.fx_model.specs.Ranks.{IsRanked};
ghost use Rattle.fx_model.specs.Tables.{Tables};
ghost use Rattle.fx_tables.specs.Invariant.{AreKept};
ghost use Rattle.fx_reconcile.specs.declared.op.Op.{Op};
ghost use Rattle.fx_reconcile.specs.Operations.{operations, next_operation, applied};
ghost use Rattle.fx_reconcile.specs.Goal.{AreAlike, after_all, AreNextInTurn, IsAllowed, AreAllowedInTurn, differences};

/// The first operation leaves the others.
pub fn first_operation_leaves_the_others()
    ensures { (n g : Tables) (op : Op) (rest : List Op) → operations n g ≡ op ∷ rest
        → operations (applied op n g) g ≡ rest }
{}

/// Each operation leaves one difference fewer.
pub fn operation_leaves_one_difference_fewer()
    ensures { (n g : Tables) (op : Op) → next_operation n g ≡ Some op
        → differences (applied op n g) g + 1 ≡ differences n g }
{}

/// There is an operation exactly while sets differ, or chains but for their tags.
pub fn operations_stop_at_the_goal()
    ensures reached { (n g : Tables) → next_operation n g ≡ None → AreAlike n g }
    ensures silent { (n g : Tables) → AreAlike n g → next_operation n g ≡ None }
{}

/// The operations may be made out once and done in order: each is the next one at its turn, and they end at the goal.
pub fn operations_lead_to_the_goal()
    ensures turns { (n g : Tables) → AreNextInTurn (operations n g) n g }
    ensures ends { (n g : Tables) → AreAlike (after_all (operations n g) n g) g }
{}

/// Between tables that the kernel takes it allows each operation at its turn, and takes the tables before and after it.
pub fn operations_are_allowed()
    ensures next { (n g : Tables) (op : Op) → AreKept n → AreKept g → next_operation n g ≡ Some op
        → IsAllowed op n g × AreKept (applied op n g) }
    ensures turns { (n g : Tables) → AreKept n → AreKept g → AreAllowedInTurn (operations n g) n g }
{}

/// Tables that name nothing that they lack, and whose chains lead to lower ranks alone, stay so on the way to others of that kind,
/// whatever the forms of their rules and members.
pub fn operations_keep_tables_closed()
    ensures closed { (n g : Tables) (op : Op) → AreClosedTables n → IsRanked n.chains → AreClosedTables g → IsRanked g.chains
        → next_operation n g ≡ Some op → AreClosedTables (applied op n g) }
    ensures ranked { (n g : Tables) (op : Op) → AreClosedTables n → IsRanked n.chains → AreClosedTables g → IsRanked g.chains
        → next_operation n g ≡ Some op → IsRanked (applied op n g).chains }
{}
