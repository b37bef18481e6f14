//! Sessions in which a brain follows what it holds, each as the contract of a function that computes nothing: what is held is
//! accepted, the session's text is the one worked out by hand, and the law of held games gives the answers in it.

ghost use Rattle.brain_session.specs.Sessions.{session_text};
ghost use Rattle.brain_session.specs.ChosenMoves.{first_node};
ghost use Rattle.brain_session.specs.States.{new_brain, point_at};
ghost use Rattle.brain_commands.specs.Brains.{nothing_held};
ghost use Rattle.gomocup_text.specs.declared.Answer.TheVariants.{Move, Error};
ghost use Rattle.gomocup_text.specs.declared.ErrorText.TheVariants.{OpponentFoul};
ghost use Rattle.std.specs.Prelude.{◌≡◌, [], ◌∷◌, Some, codes};
ghost use Rattle.strategy_checker.specs.HeldRoots.{IsHeld};
ghost use Rattle.worked_examples.specs.HeldSessions.{PlaysHeldGame, PlaysOwnGame, block_input, blocked_input, elsewhere_input, one_five, one_start, overline_table, passed_game, passed_input, taken_back_input, two_roots};

/// A four that its opponent may not block: whatever is replied, the next attack wins.
pub fn a_reply_elsewhere_loses()
    ensures held { IsHeld overline_table }
    ensures text { session_text (new_brain overline_table) elsewhere_input ≡ codes "OK\r\n6,3\r\n7,3\r\nERROR game over\r\n" }
    ensures game { PlaysHeldGame overline_table elsewhere_input 1 (point_at 0 14 ∷ []) (Move (point_at 6 3) ∷ Move (point_at 7 3) ∷ []) 2 }
{}

/// The reply that blocks the four is a foul, and ends the game.
pub fn a_block_that_fouls_loses()
    ensures text { session_text (new_brain overline_table) block_input ≡ codes "OK\r\n6,3\r\nERROR opponent foul\r\nERROR game over\r\n" }
    ensures game { PlaysHeldGame overline_table block_input 1 (point_at 7 3 ∷ []) (Move (point_at 6 3) ∷ Error OpponentFoul ∷ []) 1 }
{}

/// Two roots over one table: the first is followed, and after two moves were taken back the start, by its answer to another move.
pub fn a_start_is_followed_after_moves_are_taken_back()
    ensures held { IsHeld two_roots }
    ensures text { session_text (new_brain two_roots) taken_back_input ≡ codes "OK\r\n4,7\r\n3,7\r\nOK\r\nOK\r\n8,7\r\n" }
    ensures first_game { PlaysHeldGame two_roots taken_back_input 2 (point_at 0 14 ∷ []) (Move (point_at 4 7) ∷ Move (point_at 3 7) ∷ []) 2 }
    ensures second_game { PlaysHeldGame two_roots taken_back_input 1 [] (Move (point_at 8 7) ∷ []) 1 }
{}

/// The start alone: the brain follows first a win that it found itself, and after two moves were taken back the held start.
pub fn a_held_start_is_followed_after_an_own_win()
    ensures held { IsHeld one_start }
    ensures text { session_text (new_brain one_start) taken_back_input ≡ codes "OK\r\n4,7\r\n3,7\r\nOK\r\nOK\r\n8,7\r\n" }
    ensures own_game { PlaysOwnGame one_start taken_back_input 2 (point_at 0 14 ∷ []) (Move (point_at 4 7) ∷ Move (point_at 3 7) ∷ []) 2 }
    ensures game { PlaysHeldGame one_start taken_back_input 0 [] (Move (point_at 8 7) ∷ []) 1 }
{}

/// A brain that holds nothing follows a win that it found itself. A reply that blocks one end of its four leaves the other.
pub fn an_own_win_is_followed_past_a_block()
    ensures text { session_text (new_brain nothing_held) blocked_input ≡ codes "OK\r\n4,7\r\n8,7\r\n" }
    ensures own_game { PlaysOwnGame nothing_held blocked_input 2 (point_at 3 7 ∷ []) (Move (point_at 4 7) ∷ Move (point_at 8 7) ∷ []) 2 }
{}

/// While a win of its own is followed no held root is asked: the game comes to the position of a root, whose attack is 8,7, and the
/// brain plays 3,7.
pub fn a_held_root_is_not_asked_over_an_own_win()
    ensures held { IsHeld one_five }
    ensures text { session_text (new_brain one_five) passed_input ≡ codes "OK\r\n4,7\r\n3,7\r\n" }
    ensures own_game { PlaysOwnGame one_five passed_input 2 (point_at 0 14 ∷ []) (Move (point_at 4 7) ∷ Move (point_at 3 7) ∷ []) 2 }
    ensures there { first_node passed_game one_five.roots ≡ Some 0 }
{}
