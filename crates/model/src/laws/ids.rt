//! Laws of the hash of ids.
ghost use Rattle.model.specs.IdLaws.{HashIsOfTreeAndNode, EqualIdsHashAlike};

/// An id feeds a hasher its tree index, and then its node id.
pub fn hash_is_of_tree_and_node()
    ensures { HashIsOfTreeAndNode }
{}

/// Ids that are equal by `==` feed a hasher alike.
#[tactic(auto, using(crate::proofs::Worlds::Ids::equal_ids_hash_alike))]
pub fn equal_ids_hash_alike()
    ensures { EqualIdsHashAlike }
{}
