//! That the lists of live locals are those of the source. `specs/SourceLists` says what that means.
#![tactic(auto)]

ghost use Rattle.rc_source_lists.specs.FlowNodes.{NodesAreAll, NodesStand};
ghost use Rattle.rc_source_lists.specs.ItemLists.{ItemsHaveTheirLists};
ghost use Rattle.rc_source_lists.specs.NodeRows.{NodeRows};
ghost use Rattle.rc_source_lists.specs.SourceLists.{ListsAreSourcePaths, NodesHaveTheirLists};

use rc_core::liveness::liveness_is_a_path;

/// In the region code of a program whose parts fit together there is one list of live locals for each
/// node of the source that deletes, at that node's deleting point, and no other. In increasing order it
/// has exactly the region and pointer locals that some way on from behind the node, along the nodes of
/// the source and whatever conditions say, uses before anything sets them, but for the local that the
/// node itself assigns. So has each item of the flow of a function that deletes (`items`).
pub fn lists_are_source_paths()
    ensures lists { ListsAreSourcePaths }
    ensures map { NodesHaveTheirLists }
    ensures items { ItemsHaveTheirLists }
{
    liveness_is_a_path();
}

/// In ten small statements the nodes that delete are those that they should be; the definitions are run
/// for it.
pub fn node_rows_compute()
    ensures { NodeRows }
{}

/// The nodes that delete are told by the flow alone: each stands in its function where the flow has it
/// (`stand`), and of all that stands there each that deletes is among them (`all`). So the lists are those
/// of each node that deletes, and of no others.
pub fn deleting_nodes_are_those_of_the_flow()
    ensures stand { NodesStand }
    ensures all { NodesAreAll }
{}
