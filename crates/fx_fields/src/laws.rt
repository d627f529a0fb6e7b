//! What reading a selector's text gives, in the words of the selector language: the contract of a function that does
//! nothing.
ghost use Rattle.std.specs.Prelude.{◌≡◌, ◌↔◌, ℕ, List, Some, Ok, Err};
ghost use Rattle.fx_selector.specs.Tree.{Tree};
ghost use Rattle.fx_selector.specs.Places.{Means, IsSelectorFault};
ghost use Rattle.fx_selector.specs.declared.fault.SelectorFault.{SelectorFault};
ghost use Rattle.fx_fields.specs.Selectors.{fault_place, selector_of};

/// The tree that is read is the one that the text means, and the place that is told is that of the text's one fault.
pub fn selectors_are_read()
    ensures tree { (text : List ℕ) (t : Tree) → (selector_of text ≡ Ok t) ↔ Means text t }
    ensures place { (text : List ℕ) (at : ℕ) → (selector_of text ≡ Err at)
        ↔ ((f : SelectorFault) × IsSelectorFault text f × (fault_place f ≡ Some at)) }
{}
