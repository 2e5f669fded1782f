//! Laws of trees. Each is the contract of a function that does nothing.
ghost use Rattle.tree_laws.specs.Rows.{SmallTreeSays};
ghost use Rattle.tree_laws.specs.Laws.{TreesResolveToOne, TreesSayOne, VerdictsAreOfZonesAbove};

use denial_laws::laws::{aliases_lead_to_one, only_aliases_lead};

/// A tree whose zones are in order says one thing of a question, from one of its zones on: one
/// verdict of one zone, or that the name is insecure, or where it leads as an alias.
pub fn trees_say_one()
    ensures { TreesSayOne }
{
    only_aliases_lead();
    aliases_lead_to_one();
}

/// So it is at the end of aliases: they lead through the same names, to one thing.
pub fn trees_resolve_to_one()
    ensures { TreesResolveToOne }
{
    only_aliases_lead();
    aliases_lead_to_one();
}

/// A verdict is that of a zone at or above the name.
pub fn verdicts_are_of_zones_above()
    ensures { VerdictsAreOfZonesAbove }
{}

/// Worked rows of a small tree: an address two zones down, DS at a delegation and at a name that is
/// none, names below a delegation without DS and where opt-out leaves them open, an alias.
pub fn a_small_tree_says()
    ensures { SmallTreeSays }
{}
