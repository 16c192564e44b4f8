//! Laws about scripts, and about the runs of the machine on them. A law is a function that does nothing; its clauses are the
//! theorem.
ghost use Rattle.std.specs.Prelude.{◌≡◌, ◌↔◌, ℕ, List, Option, Result, map, slice_get, Some, Ok, zip};
ghost use Rattle.std.specs.Str.Lines.{lines};
ghost use Rattle.crawl_core.specs.State.{State, start};
ghost use Rattle.crawl_core.specs.Subqueue.{Subqueue};
ghost use Rattle.crawl_core.specs.Messages.{Message};
ghost use Rattle.crawl_core.specs.Run.{Run, IsRun};
ghost use Rattle.crawl_core.specs.History.{TakesOnce};
ghost use Rattle.crawl_core.specs.declared.event.Event.{Event};
ghost use Rattle.crawl_core.specs.declared.event.Event.TheVariants.{Take};
ghost use Rattle.crawl_core.specs.declared.reply.Reply.{Reply};
ghost use Rattle.crawl_core.specs.declared.reply.Reply.TheVariants.{Taken};
ghost use Rattle.crawl_keys.specs.Assignment.{subqueue_of};
ghost use Rattle.crawl_replay.specs.Assignment.{IsAssigned};
ghost use Rattle.crawl_replay.specs.Script.{Said, script_of, header_in, said_by};
ghost use Rattle.crawl_replay.specs.ScriptLines.{HeaderSays, LineSays, IsScript};
ghost use Rattle.crawl_replay.specs.declared.script.header.Header.{Header};
ghost use Rattle.crawl_replay.specs.declared.script.error.ScriptError.{ScriptError};

/// Hosts keep to their subqueues. If each admission names its URL's subqueue, as it does in a script that was read, then in every
/// state of a run each message is in its URL's subqueue, and a URL is taken at most once, and only from its subqueue.
#[tactic(auto, using(crate::proofs::Assigned::placed_at))]
pub fn hosts_keep_to_their_subqueues()
    ensures states { (workers max : ℕ) (history : List (Event × Reply)) (state : State) → Run (start workers max) history state → IsAssigned workers (map (λ x. x.0) history) → (queue k : ℕ) (found : Subqueue) (m : Message) → slice_get state.subqueues queue ≡ Some found → slice_get found.accepted k ≡ Some m → queue ≡ subqueue_of m.url workers }
    ensures once { (workers max : ℕ) (events : List Event) (replies : List Reply) → IsRun workers max events replies → IsAssigned workers events → TakesOnce (zip events replies) }
    ensures own_queue { (workers max : ℕ) (events : List Event) (replies : List Reply) → IsRun workers max events replies → IsAssigned workers events → (place queue : ℕ) (url : List ℕ) → slice_get (zip events replies) place ≡ Some (Take queue, Taken url) → queue ≡ subqueue_of url workers }
{
    crawl_core::laws::admitted_before();
    crawl_core::laws::taken_once_in_order();
}

/// The lines of a script mean what the format says. The meaning of a script is defined by `header_in` and `said_by`. They return a
/// content for a line if and only if the line has the bytes that the format defines for it: `workers N max M` for a header, and for
/// each event its word, spaces and digits, and the URL of an admission. They return an error if and only if the line is wrong in
/// the way that the format defines for that error. And bytes are a script if and only if the first line has its header, and the
/// others have its events, in order.
#[tactic(auto, using(crate::proofs::HeaderFields::header_means, crate::proofs::LineFields::line_means))]
pub fn lines_mean_what_the_format_says()
    ensures header { (line : List ℕ) (said : Result Header ScriptError) → (header_in line ≡ said) ↔ HeaderSays line said }
    ensures line { (workers number : ℕ) (line : List ℕ) (said : Result (Option Event) ScriptError) → (said_by workers number line ≡ said) ↔ LineSays workers number line said }
    ensures script { (bytes : List ℕ) (script : Said) → (script_of bytes ≡ Ok script) ↔ IsScript (lines bytes) script }
{}
