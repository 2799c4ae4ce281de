//! Laws of every chunk that is served.
ghost use Rattle.std.specs.Prelude.{◌≡◌, ℕ, suc, ◌<◌, ◌≤◌, List, Some, slice_get, take};
ghost use Rattle.pf_base.specs.Asks.{Answers};
ghost use Rattle.pf_base.specs.Span.{Span};
ghost use Rattle.pf_base.specs.declared.asks.Ask.TheVariants.{Read as ReadAsk};
ghost use Rattle.pf_base.specs.declared.asks.Reply.{Reply as ReplyIs};
ghost use Rattle.pf_entry.specs.declared.ops.Op.{Op as OpIs};
ghost use Rattle.pf_protocol.specs.Groups.{Answered};
ghost use Rattle.pf_protocol.specs.Ports.{Submission};
ghost use Rattle.pf_protocol.specs.declared.answers.Answer.{Answer as AnswerIs};
ghost use Rattle.pf_protocol.specs.declared.events.Event.TheVariants.{Submit};
ghost use Rattle.pf_law_registers.specs.Firsts.{IsPorts};
ghost use Rattle.pf_asks.specs.Ports.{PortIs};
ghost use Rattle.pf_law_positions.specs.Deeds.{BringsBy, Deed, DeedsFit, Submits};
ghost use Rattle.pf_law_service.specs.Served.{AreLegal, IsAskAnsweredBy, ChunkIsServed, PortSteps, group_by_now};
ghost use Rattle.pf_law_service.specs.Services.{Owed, Service, groups_of, past_of, epoch_of_now, writes_of};

/// What the ports of a chunk's clients did fits its groups: each port follows its rule, each reply is the group's to what pended.
pub fn deeds_fit_the_service()
    ensures { (chunk : ℕ) (s : Service) (ds : List Deed) (moved : (chunk epoch : ℕ) → List Submission) → ChunkIsServed chunk s ds → AreLegal s
        → DeedsFit (groups_of s moved) ds chunk }
{}

/// A group answers no client any more once the asks have left it.
pub fn answers_come_before_the_asks_leave()
    ensures { (chunk epoch moment by : ℕ) (s : Service) (ds : List Deed) (deed : Deed) → ChunkIsServed chunk s ds → epoch < s.epoch
        → slice_get ds moment ≡ Some deed → BringsBy chunk epoch by deed → by ≤ s.left epoch }
{}

/// And nothing is handed to the next group before it began to serve.
pub fn clients_wait_for_the_switch()
    ensures serves { (chunk epoch moment client place : ℕ) (s : Service) (ds : List Deed) → ChunkIsServed chunk s ds
        → slice_get ds moment ≡ Some (Submits client chunk epoch place) → epoch ≤ epoch_of_now s }
    ensures since { (chunk epoch moment client place : ℕ) (s : Service) (ds : List Deed) → ChunkIsServed chunk s ds
        → slice_get ds moment ≡ Some (Submits client chunk (suc epoch) place) → s.since (suc epoch) ≤ place }
{}

/// Each write that a client's deed handed on is one of its port.
pub fn what_is_handed_on_is_of_ports()
    ensures { (chunk epoch moment client place server : ℕ) (s : Service) (ds : List Deed) (op : OpIs) (answer : AnswerIs) → ChunkIsServed chunk s ds
        → slice_get ds moment ≡ Some (Submits client chunk epoch place)
        → slice_get (s.history epoch) place ≡ Some (record { event = Submit server op; answer = answer })
        → IsPorts (writes_of s epoch client) (take place (s.history epoch)) server op answer }
{}

/// A reply is one to the ask that pended, and the bytes of a read are those that the group answered of its range.
pub fn replies_answer_asks()
    ensures kind { (chunk mount : ℕ) (s : Service) (ds : List Deed) (owed : Owed) (reply : ReplyIs) (next : PortIs) → ChunkIsServed chunk s ds → AreLegal s
        → PortSteps s mount owed (Some reply) (past_of s mount) next → Answers owed.ask reply }
    ensures range { (chunk mount its : ℕ) (span : Span) (s : Service) (ds : List Deed) (owed : Owed) (reply : ReplyIs) (answer : Answered) (next : PortIs)
        → ChunkIsServed chunk s ds → AreLegal s → PortSteps s mount owed (Some reply) (past_of s mount) next
        → IsAskAnsweredBy (s.port mount).sent (group_by_now s) reply answer → owed.ask ≡ ReadAsk its span → answer.range ≡ span }
{}
