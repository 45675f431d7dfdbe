//! What the clients of a server were sent, in the histories that its passes have seen. The functions compute nothing: their
//! contracts are the laws.
#![tactic(auto)]

ghost use Rattle.std.specs.Prelude.{ℕ, List};
ghost use Rattle.served_history_laws.specs.Histories.{ServedTellsHistories};

use live_history_laws::{
    every_live_answer_stands_in_a_legal_history, every_live_history_is_linearizable,
    no_two_live_calls_have_one_name,
};

/// Where a server has served all connections by what its passes have seen: what they have seen of each object is what one
/// thread could have seen, each call that was answered stands in it with the reply that its connection was sent, and each
/// call in it is that of a message of a connection.
pub fn every_served_call_stands_in_a_legal_history()
    ensures { (given : List ℕ) → ServedTellsHistories given }
{
    no_two_live_calls_have_one_name();
    every_live_answer_stands_in_a_legal_history();
    every_live_history_is_linearizable();
}
