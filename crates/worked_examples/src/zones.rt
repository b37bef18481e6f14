//! A win that is accepted by a zone, as the contract of a function that computes nothing.

ghost use Rattle.game_rules.specs.declared.RuleKind.TheVariants.{Freestyle};
ghost use Rattle.game_rules.specs.declared.Side.TheVariants.{Black};
ghost use Rattle.position_files.specs.Tables.{table_text};
ghost use Rattle.relevance_zone.specs.Zones.{HasZone, AcceptedRootByZone};
ghost use Rattle.std.specs.Prelude.{◌≡◌, ◌++◌, codes};
ghost use Rattle.strategy_graph.specs.declared.roots.Root.TheVariants.{Attack};
ghost use Rattle.worked_examples.specs.HeldSessions.{three_board, two_roots};
ghost use Rattle.worked_examples.specs.Zones.{three_zone};

/// The table of `examples/two-move-win.txt`. Of the replies to its first attack only the block that it lists is walked: no other does
/// harm to the zone of the five at the other end.
pub fn a_win_is_accepted_by_a_zone()
    ensures text { table_text Freestyle three_board two_roots.table (Attack 2) 2
        ≡ codes "renju-table 1\nrule freestyle\nsize 15\nblack 5,7 6,7 7,7\nwhite 0,0 2,0 4,0\n"
        ++ codes "moves 2\nnodes 3\n3,7 wins\n8,7 wins\n4,7 rest 0 3,7>1\n" }
    ensures zone { HasZone Freestyle two_roots.table Black 2 three_board three_zone }
    ensures accepted { AcceptedRootByZone Freestyle two_roots.table (Attack 2) three_board }
{}
