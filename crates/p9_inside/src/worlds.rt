//! What is inside in small worlds, node by node.

ghost use Rattle.p9_inside.specs.Worlds.{BoundInsideInsides, CoveredVaultInsides, DeepInsides};
ghost use Rattle.p9_inside.specs.Worlds.{RemovedInsides, VaultInsides, VaultOthers};

/// In the worlds `vault`, `covered_vault` and `bound_inside` one node is inside; in a deeper world
/// two are; and none any more once the hidden directory and what was in it are removed.
pub fn small_worlds()
    ensures vault { VaultInsides }
    ensures vault_others { VaultOthers }
    ensures covered_vault { CoveredVaultInsides }
    ensures removed { RemovedInsides }
    ensures bound_inside { BoundInsideInsides }
    ensures deep { DeepInsides }
{}
