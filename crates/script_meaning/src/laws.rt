//! Laws of the meaning of scripts, apart from the code. Each contract is a law; the function does nothing.
ghost use Rattle.std.specs.Prelude.{◌≡◌, ◌<◌, ℕ, length, is_some};
ghost use Rattle.script_meaning.specs.Meaning.{State, IsReply};
ghost use Rattle.script_meaning.specs.Requests.{queue_at, state_at, AreNumberedInOrder, IsNumbered, accepted_in_all};
ghost use Rattle.script_meaning.specs.Replies.{is_ok_of_request};
ghost use Rattle.script_meaning.specs.Script.{Meant};
ghost use Rattle.script_meaning.specs.Taken.{accepted};
ghost use Rattle.script_meaning.specs.declared.script.What.{What};
ghost use Rattle.script_meaning.specs.declared.reply.Reply.{Reply};

use crate::queue_state::DEPTH_LIMIT;

/// The maximum depth as a number; the other clauses use its name.
pub fn depth_in_numbers()
    ensures { DEPTH_LIMIT ≡ 1000 }
{}

/// A request is accepted exactly if its reply has pieces: `Data` or `Written`.
pub fn accepted_replies()
    ensures { (s : State) (what : What) (reply : Reply) → IsReply s what reply → is_some (accepted s.queue what) ≡ is_ok_of_request reply }
{}

/// The accepted requests of a script are numbered from 0 in the order of its lines: the earlier of two has the smaller number, and
/// each number below their count belongs to one of them.
pub fn numbers_of_requests()
    ensures order { (script : Meant) → AreNumberedInOrder script }
    ensures each { (script : Meant) (number : ℕ) → number < accepted_in_all script → IsNumbered script number }
{}

/// The queue of the state at a position is the queue there, and its disk is as long as the script says.
pub fn states_of_queues()
    ensures queue { (script : Meant) (position : ℕ) → (state_at script position).queue ≡ queue_at script position }
    ensures disk { (script : Meant) (position : ℕ) → length (state_at script position).disk ≡ script.sectors }
{}
