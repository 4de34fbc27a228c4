//! Laws of readers who stay, over the plain journal.
ghost use Rattle.std.specs.Prelude.{◌≡◌, ◌⊎◌, ◌++◌, [], List, Some, take, ℕ};
ghost use Rattle.commit_journal.specs.Holding.{IsPrefix};
ghost use Rattle.cry_base.specs.Sets.{In};
ghost use Rattle.cry_base.specs.declared.limits.Limits.{Limits};
ghost use Rattle.journal_bytes.specs.Script.{Going};
ghost use Rattle.public_fold.specs.Valid.{IsValid};
ghost use Rattle.script_text.specs.Seats.{SeatAsk, Turn};
ghost use Rattle.session_laws.specs.Seats.{GoesForward, IsWithin, Seat, seat_at};
ghost use Rattle.session_laws.specs.Serving.{AreWithin, HaveHonestKeys, IsHonestKey, Serving, served_text, served_then};

/// Law: whatever lines come, each seat stays its reader's, no fewer entries are pinned for it, and no fewer were read. The journal
/// goes on, so each view is of a prefix of it that begins with the one that the seat was shown before.
pub fn seats_go_forward()
    ensures seats { (limits : Limits) (s : Serving) (turns : List Turn) (n : ℕ) (seat : Seat) → seat_at s.seats n ≡ Some seat
        → (later : Seat) × (seat_at (served_then limits s turns).seats n ≡ Some later) × GoesForward seat later }
    ensures journal { (limits : Limits) (s : Serving) (turns : List Turn) →
        IsPrefix s.going.journal (served_then limits s turns).going.journal }
    ensures within { (limits : Limits) (s : Serving) (turns : List Turn) → AreWithin s → AreWithin (served_then limits s turns) }
    ensures prefixes { (limits : Limits) (s : Serving) (turns : List Turn) (n : ℕ) (seat later : Seat) → IsWithin s.going.journal seat
        → seat_at s.seats n ≡ Some seat → seat_at (served_then limits s turns).seats n ≡ Some later
        → IsPrefix (take seat.pinned s.going.journal) (take later.pinned (served_then limits s turns).going.journal) }
{}

/// Law: lines are answered one after another: what is printed to more of them comes behind what was printed before.
pub fn turns_follow_on()
    ensures text { (limits : Limits) (s : Serving) (first more : List Turn) →
        served_text limits s (first ++ more) ≡ served_text limits s first ++ served_text limits (served_then limits s first) more }
    ensures stands { (limits : Limits) (s : Serving) (first more : List Turn) →
        served_then limits s (first ++ more) ≡ served_then limits (served_then limits s first) more }
{}

/// Law: each seat has the key with which its session was begun. If all these keys are honest in the journal at the end, each seat's is
/// at its time.
pub fn seats_keep_honest_keys()
    ensures found { (seats : List Seat) (n : ℕ) (seat : Seat) → seat_at seats n ≡ Some seat → In seat seats }
    ensures begun { (limits : Limits) (s : Serving) (turns : List Turn) (seat : Seat) → In seat (served_then limits s turns).seats
        → ((old : Seat) × In old s.seats × (old.holder ≡ seat.holder) × (old.key ≡ seat.key))
        ⊎ In (Turn.ToSeat (SeatAsk.Begins seat.holder seat.key)) turns }
    ensures honest { (limits : Limits) (going : Going) (first more : List Turn) (seat : Seat)
        → let s : Serving = record { going = going; seats = [] } in
        IsValid (served_then limits s (first ++ more)).going.journal
        → HaveHonestKeys (served_then limits s (first ++ more)).going.journal (first ++ more)
        → In seat (served_then limits s first).seats
        → IsHonestKey (served_then limits s first).going.journal seat.holder seat.key }
{}
