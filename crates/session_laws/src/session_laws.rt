//! Laws of sessions that read batch by batch, over bytes that stand for a journal.
ghost use Rattle.std.specs.Prelude.{◌≡◌, ◌<◌, ◌++◌, ◌∷◌, [], List, Ok, Result, length, max, ℕ};
ghost use Rattle.commit_journal.specs.Streaming.{ShowsGiven};
ghost use Rattle.cry_base.specs.Listed.{Listed};
ghost use Rattle.cry_base.specs.declared.client.Bundle.{Bundle};
ghost use Rattle.cry_base.specs.declared.client.Line.{Line};
ghost use Rattle.cry_base.specs.declared.ids.HolderId.{HolderId};
ghost use Rattle.holder_client.specs.Lines.{plain_view};
ghost use Rattle.journal_bytes.specs.Journals.{StandsWholeForJournal};
ghost use Rattle.log_visits.specs.Answering.{AnswersAs, AnswersBy, IsFault};
ghost use Rattle.log_visits.specs.Judging.{bundle_log, view_with};
ghost use Rattle.log_visits.specs.declared.fault.ClientFault.{ClientFault};
ghost use Rattle.public_fold.specs.Journal.{Journal};
ghost use Rattle.read_steps.specs.Steps.{IsSession, SessionView, next_batch};
ghost use Rattle.session_laws.specs.Seats.{Seat, new_seat, repinned, show_reply, stepped};
ghost use Rattle.session_laws.specs.Serving.{IsHonestKey};
ghost use Rattle.session_laws.specs.Sessions.{IsFromOutside, IsSeatOf, TellsReply};

/// Law: where bytes stand for a journal as a whole, each call of a session leaves what the definition of seats says: a session that is
/// begun is a new seat; one that is pinned or steps is the seat pinned anew or stepped; what it shows is the seat's reply.
pub fn sessions_are_their_seats()
    ensures begins { (owner : List ℕ) (m : Journal) (bytes : List ℕ) (h : HolderId) (key : List ℕ) (session : SessionView)
        → StandsWholeForJournal owner m bytes → session.bundle ≡ Bundle.Holder h key → session.log.given ≡ [] → IsSession session
        → AnswersBy (λ (s : SessionView) log. s.pinned ≡ length log) (Ok session) (bundle_log (Bundle.Holder h key) bytes)
        → IsSeatOf owner m (new_seat m h.0 key) session }
    ensures pins { (owner : List ℕ) (m : Journal) (bytes : List ℕ) (seat : Seat) (old new : SessionView)
        → StandsWholeForJournal owner m bytes → IsSeatOf owner m seat old
        → AnswersBy (λ (u : Unit {0}) log. new ≡ record old { pinned = max old.pinned (length log) }) (Ok tt) (bundle_log old.bundle bytes)
        → IsSeatOf owner m (repinned m seat) new }
    ensures steps { (owner : List ℕ) (m : Journal) (bytes : List ℕ) (seat : Seat) (old new : SessionView)
        → StandsWholeForJournal owner m bytes → IsSeatOf owner m seat old → seat.read < seat.pinned
        → new.bundle ≡ old.bundle → new.pinned ≡ old.pinned → IsSession new
        → AnswersBy (λ (u : Unit {0}) turn. new.log.given ≡ old.log.given ++ turn.placed ∷ []) (Ok tt) (next_batch old.log bytes)
        → IsSeatOf owner m (stepped seat) new }
    ensures can_show { (owner : List ℕ) (m : Journal) (bytes : List ℕ) (seat : Seat) (session : SessionView)
        → StandsWholeForJournal owner m bytes → IsSeatOf owner m seat session → ShowsGiven session.log bytes }
    ensures shows { (owner : List ℕ) (m : Journal) (bytes : List ℕ) (seat : Seat) (session : SessionView)
        (result : Result (Listed Line) ClientFault) → StandsWholeForJournal owner m bytes → IsSeatOf owner m seat session
        → seat.read ≡ seat.pinned → IsHonestKey m seat.holder seat.key
        → AnswersAs plain_view result (view_with session.bundle (Ok session.log.given)) → TellsReply result (show_reply m seat) }
{}

/// Law: over such bytes no session's log is damaged or tampered with, and no key is wrong: its reading fails for the disk or for
/// want of memory alone.
pub fn sessions_never_read_amiss()
    ensures log { (owner : List ℕ) (m : Journal) (bytes : List ℕ) (h : HolderId) (key : List ℕ) (fault : ClientFault)
        → StandsWholeForJournal owner m bytes → IsFault fault (bundle_log (Bundle.Holder h key) bytes) → IsFromOutside fault }
    ensures batch { (owner : List ℕ) (m : Journal) (bytes : List ℕ) (seat : Seat) (session : SessionView) (fault : ClientFault)
        → StandsWholeForJournal owner m bytes → IsSeatOf owner m seat session → seat.read < seat.pinned
        → IsFault fault (next_batch session.log bytes) → IsFromOutside fault }
{}

/// Law: a session stands for its seat whatever is added to the journal, and tells how many batches were read and are pinned.
pub fn seats_outlast_the_journal()
    ensures grows { (owner : List ℕ) (m more : Journal) (seat : Seat) (session : SessionView)
        → IsSeatOf owner m seat session → IsSeatOf owner (m ++ more) seat session }
    ensures counts { (owner : List ℕ) (m : Journal) (seat : Seat) (session : SessionView)
        → IsSeatOf owner m seat session → length session.log.given ≡ seat.read }
{}
