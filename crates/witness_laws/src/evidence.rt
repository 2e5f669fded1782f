//! Evidence of a tree. Each law is the contract of a function that does nothing.
ghost use Rattle.std.specs.Prelude.{[], ◌∷◌, Some};
ghost use Rattle.tree_laws.specs.Tree.{LeftOpen};
ghost use Rattle.evidence_laws.specs.Truth.{HandsOut, IsOfTree};
ghost use Rattle.evidence_laws.specs.Walking.{Follows};
ghost use Rattle.walk_laws.specs.Shown.{AreShown};
ghost use Rattle.witness_laws.specs.Evidence.{asking, evidence, validity};
ghost use Rattle.witness_laws.specs.Loops.{HasLoop, said, through};
ghost use Rattle.witness_laws.specs.Signed.{passes};
ghost use Rattle.witness_laws.specs.Zones.{c_s, child_ds, p, parent, s, x_u, zones};

/// There is evidence of a tree: a trust anchor and ten messages of two zones, whose signatures pass.
/// Nothing is forged in them, for whichever question of class IN they are judged. The parent, whose
/// chain of hashes opts out, hands out the DS set of the child.
pub fn some_evidence_is_of_a_tree()
    ensures tree { IsOfTree evidence 1 zones parent }
    ensures handed { HandsOut [] zones s (child_ds ∷ []) }
{}

/// This evidence tells of an alias what the tree says, through the alias and a DNAME: the address
/// that a wildcard gives, secure, by the name of the child, and for how long. Of a name below the
/// delegation that has no DS records it tells that opt-out leaves it open.
pub fn some_evidence_tells_verdicts()
    ensures secure { Follows evidence said (asking c_s) through (Some validity) }
    ensures insecure { Follows evidence (LeftOpen p) (asking x_u) [] (Some validity) }
{}

/// Its messages are those of name servers, with an alias that is followed, CNAMEs that are made, and
/// OPT records: they show the keys of both zones, which are in a roll, and what the zones answer.
pub fn some_messages_show()
    ensures { AreShown passes evidence (asking c_s) zones parent }
{}

/// So there is a loop of the laws of walks: one call over this evidence, a walk that ends in what
/// the tree says.
pub fn some_loop_is_over_a_tree()
    ensures { HasLoop }
{}
