//! Laws of the reads that lines ask for.
ghost use Rattle.std.specs.Prelude.{◌≡◌, false};
ghost use Rattle.pf_protocol.specs.Answers.{IsLegal};
ghost use Rattle.pf_protocol.specs.Histories.{History, IsPrefix, replay};
ghost use Rattle.pf_protocol.specs.Servers.{Setup};
ghost use Rattle.pf_chunk.specs.Telling.{WasTaken, is_answered, may_wait};
ghost use Rattle.pf_chunk_waiting.specs.declared.waiting.Waiting.{Waiting as WaitingIs};

/// A read of a line is told by the event that answers it, if any does: once it is not kept waiting any more, and was not answered, it
/// never is.
pub fn reads_are_answered_while_they_wait()
    ensures { (setup : Setup) (earlier history : History) (w : WaitingIs) → IsLegal setup history → IsPrefix earlier history → WasTaken setup earlier w
        → is_answered (replay setup earlier) w.number ≡ false → may_wait (replay setup earlier) w ≡ false
        → is_answered (replay setup history) w.number ≡ false }
{}
