//! The laws of the language, each the contract of a function that does nothing.
ghost use Rattle.std.specs.Prelude.{◌≡◌, ◌≢◌, ℕ, List, true};
ghost use Rattle.fx_selector.specs.Tree.{Tree, IsTree};
ghost use Rattle.fx_selector.specs.Canonical.{canonical_text};
ghost use Rattle.fx_selector.specs.Truth.{LabelMap, holds};
ghost use Rattle.fx_selector.specs.Needs.{needed, meets};
ghost use Rattle.fx_selector.specs.Places.{Spells, IsSelectorFault};

use crate::fault::SelectorFault;

/// A text spells at most one tree.
pub fn one_tree()
    ensures { (text : List ℕ) (t u : Tree) → Spells text t → Spells text u → t ≡ u }
{}

/// A text has at most one fault, and so at most one place of a fault.
pub fn one_fault()
    ensures { (text : List ℕ) (f g : SelectorFault) → f ≢ SelectorFault.Memory → g ≢ SelectorFault.Memory →
        IsSelectorFault text f → IsSelectorFault text g → f ≡ g }
{}

/// The canonical text of a tree spells it. So equal canonical texts mean equal trees.
pub fn canonical_text_spells()
    ensures { (t : Tree) → IsTree t → Spells (canonical_text t) t }
{}

/// Labels on which a selector holds meet what it needs.
pub fn holding_meets()
    ensures { (t : Tree) (m : LabelMap) → holds t m ≡ true → meets (needed t) m ≡ true }
{}
