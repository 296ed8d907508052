//! The laws of scopes: what is visible at a place by the text is what the declarations in scope there make visible.
#![tactic(auto)]

ghost use Rattle.scope_laws.specs.Laws.{ScopesAgree, UsesAgree, NamesFit, VisibleAreMeant, MeantAreVisible};

/// In a program in text order without a fault the two definitions of scope agree wherever an expression or a statement
/// stands, and so at each name: what is visible there by the text is what the declarations that are handed down the
/// tree make visible, with the same slots, types and kinds, and in the same order.
pub fn scopes_agree()
    ensures spots { ScopesAgree }
    ensures uses { UsesAgree }
{}

/// The variables that declarations make visible are those that words denote. So the name of one that is visible at a
/// place has its kind there, no fault, and its slot.
pub fn visible_names_fit()
    ensures meant { VisibleAreMeant }
    ensures visible { MeantAreVisible }
    ensures names { NamesFit }
{}
