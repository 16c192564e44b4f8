//! Laws of sessions: what holds of any lines and their answers. None does anything when it is called.
ghost use Rattle.std.specs.Prelude.{◌≡◌, ◌≢◌, ◌≤◌, ℕ, List, [], ◌∷◌, ◌++◌, slice_get, ◌<◌, ◌^◌, true, is_some, not, Option, Some, None, IfSome, Ok};
ghost use Rattle.std.specs.Hash.DefaultHasher.{initial};
ghost use Rattle.std.specs.List.{All, concat, list_all};
ghost use Rattle.std.specs.declared.hash.DefaultHasher.{DefaultHasher};
ghost use Rattle.std.specs.Str.Lines.{lines};
ghost use Rattle.crawl_core.specs.History.{accepted_urls, taken_urls, done_in};
ghost use Rattle.crawl_core.specs.Invariants.{HasRoom};
ghost use Rattle.crawl_core.specs.Run.{Run};
ghost use Rattle.crawl_core.specs.declared.reply.Reply.TheVariants as says;
ghost use Rattle.crawl_core.specs.declared.word.Word.{Word};
ghost use Rattle.crawl_session.specs.Clients.{AgainIfPutBack, AllDone, EachOnceInOrder, IsReported, NonePutBack, accepted_of, line_answers, busy_in, done_of, elsewhere_of, first_of_each, puts_back, taken_of};
ghost use Rattle.crawl_session.specs.Compacting.{compacted, log_text};
ghost use Rattle.crawl_keys.specs.Assignment.{subqueue_of};
ghost use Rattle.crawl_session.specs.Exchanges.{exchange};
ghost use Rattle.crawl_session.specs.Frontiers.{Frontier, NoneDeferred, start};
ghost use Rattle.crawl_session.specs.Parts.{part_with, request_for};
ghost use Rattle.crawl_session.specs.Rebuilding.{KeepsUrls, inventory, rebuilt};
ghost use Rattle.crawl_session.specs.Requests.{request_of};
ghost use Rattle.crawl_session.specs.Listing as lists;
ghost use Rattle.crawl_session.specs.Listing.{AreReported};
ghost use Rattle.crawl_session.specs.LogStarts.{read_start, start_text};
ghost use Rattle.crawl_session.specs.Input.{IsUnfinished};
ghost use Rattle.crawl_session.specs.Logs.{settings_line};
ghost use Rattle.crawl_session.specs.Serving.{with_words};
ghost use Rattle.text_lines.specs.Fields.{is_space};
ghost use Rattle.crawl_session.specs.Sessions.{answered, answers, history_of, line_exchange, state_after};
ghost use Rattle.crawl_session.specs.Settings.{IsSession, Settings};
ghost use Rattle.crawl_session.specs.Stats.{stats_at};
ghost use Rattle.crawl_session.specs.Sums.{first_wrong, is_sum, sum_line, summed_each};
ghost use Rattle.crawl_session.specs.Tables.{CanBeAnswered};
ghost use Rattle.crawl_session.specs.declared.stats.Stats.{Stats};
ghost use Rattle.crawl_session.specs.declared.answer.Answer.TheVariants.{Replied, Unasked};
ghost use Rattle.crawl_session.specs.declared.part.Part.{Part};
ghost use Rattle.crawl_session.specs.declared.request.Request.TheVariants.{Later, Offer};
ghost use Rattle.crawl_session.specs.declared.request.RequestError.TheVariants as wrong;

/// The events of a session are a run of the machine, from any state. So the laws of `crawl_core` hold for them.
#[tactic(auto, using(crate::proofs::Runs::session_runs))]
pub fn sessions_are_runs()
    ensures { (settings : Settings) (state : Frontier) (lines : List (List ℕ)) → Run state.machine (history_of settings state lines) (state_after settings state lines).machine }
{}

/// The answers to more lines depend only on the state after the earlier ones. So a new session that is given the requests of
/// another reaches the same state.
pub fn sessions_go_on()
    ensures answers { (settings : Settings) (state : Frontier) (front back : List (List ℕ)) → answers settings state (front ++ back) ≡ answers settings state front ++ answers settings (state_after settings state front) back }
    ensures state { (settings : Settings) (state : Frontier) (front back : List (List ℕ)) → state_after settings state (front ++ back) ≡ state_after settings (state_after settings state front) back }
    ensures events { (settings : Settings) (state : Frontier) (front back : List (List ℕ)) → history_of settings state (front ++ back) ≡ history_of settings state front ++ history_of settings (state_after settings state front) back }
{}

/// A compacted log is as good as the whole one: a new session that is given its lines answers any further lines like one that was
/// given all lines of these bytes.
#[tactic(auto, using(crate::proofs::Compactions::compacted_answers))]
pub fn a_compacted_log_goes_on()
    ensures { (settings : Settings) (max : ℕ) (bytes : List ℕ) (more : List (List ℕ)) → 1 ≤ settings.workers → answers settings (state_after settings (start settings.workers max) (lines (log_text (compacted settings (start settings.workers max) (lines bytes))))) more
        ≡ answers settings (state_after settings (start settings.workers max) (lines bytes)) more }
{}

/// A compacted log has the same answers `elsewhere` as the whole one, one for each URL, in the order in which the URLs came first.
/// So the URLs of other parts can be sent to them again.
#[tactic(auto, using(crate::proofs::Elsewheres::compacted_elsewhere))]
pub fn a_compacted_log_tells_elsewhere()
    ensures { (settings : Settings) (max : ℕ) (bytes : List ℕ) → elsewhere_of (line_answers settings (start settings.workers max) (lines (log_text (compacted settings (start settings.workers max) (lines bytes))))) ≡ first_of_each [] (elsewhere_of (line_answers settings (start settings.workers max) (lines bytes))) }
{}

/// No answer depends on the words that senders remember. So if a line runs out of memory, each later line is answered as if that
/// line had not been sent.
#[tactic(auto, using(crate::proofs::Words::words_forgotten))]
pub fn words_are_forgotten()
    ensures { (settings : Settings) (state : Frontier) (words : List (ℕ × Word)) (lines : List (List ℕ)) → answers settings (with_words state words) lines ≡ answers settings state lines }
{}

/// The answers say what happened to the URLs: the URLs that were accepted into a subqueue are those of the events. As long as
/// nothing was put back, so are the URLs that were taken from it, and the number of those that are done.
#[tactic(auto, using(crate::proofs::Sees::sees_accepted, crate::proofs::Sees::sees_taken))]
pub fn clients_see_the_events()
    ensures accepted { (settings : Settings) (state : Frontier) (lines : List (List ℕ)) (queue : ℕ) → accepted_urls queue (history_of settings state lines) ≡ accepted_of queue (line_answers settings state lines) }
    ensures taken { (settings : Settings) (state : Frontier) (lines : List (List ℕ)) (queue : ℕ) → NoneDeferred state → NonePutBack (line_answers settings state lines) → taken_urls queue (history_of settings state lines) ≡ taken_of queue (line_answers settings state lines) }
    ensures done { (settings : Settings) (state : Frontier) (lines : List (List ℕ)) (queue : ℕ) → NoneDeferred state → NonePutBack (line_answers settings state lines) → done_in queue (history_of settings state lines) ≡ done_of queue (line_answers settings state lines) }
{}

/// No URL is accepted twice, and each subqueue gives out its URLs in order: those of its hosts.
#[tactic(auto, using(crate::proofs::Onces::each_once))]
pub fn each_once_in_order()
    ensures { (settings : Settings) (max : ℕ) (lines : List (List ℕ)) → EachOnceInOrder settings.workers (line_answers settings (start settings.workers max) lines) }
{}

/// A URL is taken again only if it was put back: at most once more than it was put back, only from its host's subqueue, and never
/// while it is in progress. It is done at most once.
#[tactic(auto, using(crate::proofs::Returns::again_if_put_back))]
pub fn taken_again_if_put_back()
    ensures { (settings : Settings) (max : ℕ) (lines : List (List ℕ)) → AgainIfPutBack settings.workers (line_answers settings (start settings.workers max) lines) }
{}

/// `later` puts a URL back if and only if its subqueue is busy, by the answers before. So it is then never refused.
#[tactic(auto, using(crate::proofs::Rooms::later_if_busy))]
pub fn later_needs_a_busy_queue()
    ensures { (settings : Settings) (max : ℕ) (front : List (List ℕ)) (line : List ℕ) (queue : ℕ) → HasRoom max → request_for settings line ≡ Ok (Later queue)
        → puts_back queue (Ok (Later queue)) (line_exchange settings (state_after settings (start settings.workers max) front) line).answer ≡ is_some (busy_in queue (line_answers settings (start settings.workers max) front)) }
{}

/// The numbers of a subqueue are those of the answers before: how many URLs were accepted and are done, whether the subqueue is
/// busy, and how many offers were answered `seen`. All others are waiting.
#[tactic(auto, using(crate::proofs::Counting::stats_answered))]
pub fn stats_are_what_was_told()
    ensures { (settings : Settings) (max : ℕ) (lines : List (List ℕ)) (queue : ℕ) (stats : Stats) → stats_at (state_after settings (start settings.workers max) lines) queue ≡ Some stats → IsReported queue (line_answers settings (start settings.workers max) lines) stats }
{}

/// A request has one of the answers that the table has for it. The answer to a line that is no request says why.
#[tactic(auto, using(crate::proofs::Rests::answers_fit))]
pub fn answers_are_those_of_the_table()
    ensures { (settings : Settings) (max : ℕ) (lines : List (List ℕ)) → 1 ≤ settings.workers → All (λ x. CanBeAnswered x.request x.answer) (line_answers settings (start settings.workers max) lines) }
{}

/// Closed means done, for good: if a line is answered `closed`, every URL that was accepted was taken and is done, and after that
/// none is accepted or taken, whatever the requests are.
#[tactic(auto, using(crate::proofs::Emptied::all_is_done))]
pub fn closed_means_done()
    ensures done { (settings : Settings) (max : ℕ) (front : List (List ℕ)) (line : List ℕ) → (line_exchange settings (state_after settings (start settings.workers max) front) line).answer ≡ Replied says.Closed → AllDone (line_answers settings (start settings.workers max) (front ++ line ∷ [])) }
    ensures for_good { (settings : Settings) (max : ℕ) (front : List (List ℕ)) (line : List ℕ) (back : List (List ℕ)) (queue : ℕ) → (line_exchange settings (state_after settings (start settings.workers max) front) line).answer ≡ Replied says.Closed
        → (accepted_of queue (line_answers settings (state_after settings (start settings.workers max) (front ++ line ∷ [])) back) ≡ []) × (taken_of queue (line_answers settings (state_after settings (start settings.workers max) (front ++ line ∷ [])) back) ≡ []) }
{}

/// A frontier that is not a part answers each line as if there were no parts.
#[tactic(auto, using(crate::proofs::PartLaws::whole_requests))]
pub fn a_frontier_alone_has_no_parts()
    ensures { (settings : Settings) (state : Frontier) (line : List ℕ) → settings.part ≡ None → line_exchange settings state line ≡ answered state (request_of settings.workers settings.suffixes line) }
{}

/// A part accepts only URLs of its own queues: each URL into the queue, among those of all parts, that its host key is assigned
/// to.
pub fn a_part_accepts_its_own()
    ensures { (settings : Settings) (part : Part) (state : Frontier) (lines : List (List ℕ)) (queue k : ℕ) (url : List ℕ) → settings.part ≡ Some part → slice_get (accepted_of queue (line_answers settings state lines)) k ≡ Some url → (queue ≡ subqueue_of url settings.workers) × (part_with part queue ≡ part.number) }
{}

/// No two parts of a crawl accept the same URL.
#[tactic(auto, using(crate::proofs::PartLaws::shares_no_url))]
pub fn parts_share_no_url()
    ensures { (first second : Settings) (own other : Part) (old older : Frontier) (lines others : List (List ℕ)) (queue there k l : ℕ) (url : List ℕ) → first.part ≡ Some own → second.part ≡ Some other → first.workers ≡ second.workers → own.queues ≡ other.queues
        → slice_get (accepted_of queue (line_answers first old lines)) k ≡ Some url → slice_get (accepted_of there (line_answers second older others)) l ≡ Some url → (queue ≡ there) × (own.number ≡ other.number) }
{}

/// The answer to an offer is `elsewhere` if and only if the URL's queue belongs to another part. It has that part's number, and
/// nothing changes. Any other offer is answered as if there were no parts.
#[tactic(auto, using(crate::proofs::PartLaws::answers_elsewhere, crate::proofs::PartLaws::offers_its_own))]
pub fn others_are_told_elsewhere()
    ensures other { (settings : Settings) (part : Part) (state : Frontier) (line url : List ℕ) (queue : ℕ) → settings.part ≡ Some part → request_of settings.workers settings.suffixes line ≡ Ok (Offer url queue) → part_with part queue ≢ part.number
        → line_exchange settings state line ≡ record { history = []; answer = Unasked (wrong.Elsewhere (part_with part queue) url); state = state } }
    ensures own { (settings : Settings) (part : Part) (state : Frontier) (line url : List ℕ) (queue : ℕ) → settings.part ≡ Some part → request_of settings.workers settings.suffixes line ≡ Ok (Offer url queue) → part_with part queue ≡ part.number
        → line_exchange settings state line ≡ exchange state (Offer url queue) }
{}

/// The part and the identity in the first line of a log are read as they were written, whatever settings follow.
#[tactic(auto, using(crate::proofs::LogStarts::starts_back))]
pub fn log_starts_come_back()
    ensures { (part : Option (ℕ × ℕ)) (identity : Option (List ℕ)) (workers max : ℕ) (suffixes : List (List ℕ)) → IfSome part (λ p. (p.0 < 2 ^ 32) × (p.1 < 2 ^ 32)) → IfSome identity (λ text. list_all (λ b. not (is_space b)) text ≡ true) → read_start (start_text part identity ++ settings_line workers max suffixes) ≡ (part, (identity, settings_line workers max suffixes)) }
{}

/// A log that was written by appends has no wrong checksum, whatever the bytes of the requests are.
pub fn a_written_log_is_right()
    ensures { (pieces : List (List ℕ)) → first_wrong (summed_each initial 0 pieces) ≡ None }
{}

/// A line that begins with `#` and is not the checksum of all bytes before it is found, unless an earlier one is.
pub fn a_wrong_sum_is_found()
    ensures { (front line more : List ℕ) → IsUnfinished line → is_sum line ≡ true → line ++ 10 ∷ [] ≢ sum_line (front ++ 10 ∷ []) → first_wrong ((front ++ 10 ∷ []) ++ (line ++ 10 ∷ more)) ≢ None }
{}

/// The checksums of a log change nothing: a session that is given what was appended reaches the state that it reaches by the
/// requests.
pub fn sums_change_nothing()
    ensures { (settings : Settings) (state : Frontier) (hash : DefaultHasher) (pieces : List (List ℕ)) → state_after settings state (lines (summed_each hash 0 pieces)) ≡ state_after settings state (lines (concat pieces)) }
{}

/// The lists of a session are those of its lines and their answers: in each queue, the URLs that are done, the one in progress, and
/// those that are pending, in the order in which they will be taken. Each URL that was accepted is in exactly one of them.
pub fn lists_are_what_was_told()
    ensures { (settings : Settings) (max : ℕ) (lines : List (List ℕ)) (queue : ℕ) → queue < settings.workers
        → AreReported (line_answers settings (start settings.workers max) lines) queue (lists.done_in settings lines (start settings.workers max)).rows (lists.in_progress_below settings.workers (state_after settings (start settings.workers max) lines)).rows (lists.pending_below settings.workers (state_after settings (start settings.workers max) lines)).rows }
{}

/// A rebuilt log keeps the URLs: a new session that is given its lines, and answers each as it has to, accepted the URLs that the old
/// session accepted, but for those whose offer it answers with `filtered`, and has the same ones done. Of each host, the URL that was in
/// progress is the first that waits, and the others wait in the same order.
#[tactic(auto, using(crate::proofs::KeptUrls::keeps))]
pub fn a_rebuilt_log_keeps_the_urls()
    ensures { (old new : Settings) (most room : ℕ) (lines : List (List ℕ)) (queue : ℕ) → IsSession old → IsSession new → (rebuilt new queue (inventory old most lines) (start new.workers room)).fits ≡ true
        → KeepsUrls old new (line_answers old (start old.workers most) lines) (line_answers new (start new.workers room) (rebuilt new queue (inventory old most lines) (start new.workers room)).lines) }
{}
