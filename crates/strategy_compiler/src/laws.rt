//! The laws of trees, of walks and of wins, each as the contract of a function that computes nothing.
//!
//! A compiler only adds nodes at the end. So what was said of a node stays true of it, and a search can write a win piece by piece.
#![tactic(auto)]

ghost use Rattle.strategy_compiler.specs.Trees.{GrowthKeepsTrees};
ghost use Rattle.strategy_compiler.specs.Walks.{GrowthKeepsReach, TreeHasOneTable};
ghost use Rattle.strategy_compiler.specs.Starts.{BranchesHaveOneStart};
ghost use Rattle.strategy_compiler.specs.Wins.{GrowthKeepsWins};
ghost use Rattle.strategy_compiler.specs.Unfolded.{DifferentNodesAreApart};

/// A node stands for the same trees in each table that begins with this one.
pub fn growth_keeps_trees()
    ensures same { GrowthKeepsTrees }
{}

/// A node reaches the same nodes in each table that begins with this one.
pub fn growth_keeps_reach()
    ensures same { GrowthKeepsReach }
{}

/// A win that a search wrote stays one in each list of nodes that begins with these.
pub fn growth_keeps_wins()
    ensures same { GrowthKeepsWins }
{}

/// The table of a tree is one and the same, however it was compiled.
pub fn tree_has_one_table()
    ensures one { TreeHasOneTable }
{}

/// The table and the start of some branches are one and the same, however they were compiled.
pub fn branches_have_one_start()
    ensures one { BranchesHaveOneStart }
{}

/// No two nodes of a compiler are the same, even by what the nodes that they name say.
pub fn different_nodes_are_apart()
    ensures apart { DifferentNodesAreApart }
{}
