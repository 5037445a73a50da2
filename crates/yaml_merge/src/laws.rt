//! Laws of resolving, for authors of rule files. Each holds of the definition that `resolve` meets.
ghost use Rattle.yaml_merge.specs.Laws.{SettledStays, ResolvedStays, PlainIsMerged, RemovalRemoves};
ghost use Rattle.yaml_merge.specs.Laws.{TopRemovalRemoves, ChildWins, EmptyGivesWay, ParentWins};

/// A law of settled forests, in which each key stands once in its list and nothing is left to
/// inherit or remove: such a forest resolves to itself, if it isn't too large. So does whatever
/// resolving gave.
pub fn settled_stays()
    ensures settled { SettledStays }
    ensures resolved { ResolvedStays }
{}

/// A law of files in which nothing is inherited or removed: where nothing is refused, resolving
/// them is merging them.
pub fn plain_is_merged()
    ensures { PlainIsMerged }
{}

/// A law of removals: directly after `-x` the list has no node `x`, and where the files have `-x`
/// at the top level, the answer has no top-level node `x`.
pub fn removals_remove()
    ensures below { RemovalRemoves }
    ensures top { TopRemovalRemoves }
{}

/// A law of values, in a list where nothing is refused and where the nodes after the one at hand
/// leave its key alone (none inherits, has the key or removes it). A value that isn't empty holds
/// against whatever stands before it. An empty value leaves the one that the key has before it. A
/// value that isn't empty and that an inherited parent has, as it is resolved, holds against
/// whatever stands before the `Inherits`.
pub fn values_win()
    ensures child { ChildWins }
    ensures empty { EmptyGivesWay }
    ensures parent { ParentWins }
{}
