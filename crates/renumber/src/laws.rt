// Theorems about renumberings, each the contract of a function without code.
ghost use Rattle.renumber.specs.Laws.{RenumberedBelow, RenumberedAscends, RenumberedTwice, InverseComposed, IdentityPositions, IdentityLists, RenumberingTruthful, RenumberingSame, RenumberIndex};

/// What a renumbered mesh has, whatever its lists were.
pub fn renumbered_lists()
    ensures below { RenumberedBelow }
    ensures ascend { RenumberedAscends }
{}

/// Renumberings one after another are one by the composition; by the identity positions stay and each list is sorted.
pub fn renumberings_compose()
    ensures twice { RenumberedTwice }
    ensures inverse { InverseComposed }
    ensures identity_positions { IdentityPositions }
    ensures identity_lists { IdentityLists }
{}

/// What a call does to the mark that the lists ascend, what depends on the mark, and what the index of a refusal tells.
pub fn mark_by_renumbering()
    ensures truthful { RenumberingTruthful }
    ensures nothing_depends { RenumberingSame }
    ensures index { RenumberIndex }
{}
