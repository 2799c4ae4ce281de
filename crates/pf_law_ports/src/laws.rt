//! Laws of every port and its group.
ghost use Rattle.std.specs.Prelude.{◌≡◌, ℕ, ◌<◌, List, Some, None};
ghost use Rattle.pf_base.specs.declared.asks.Ask.{Ask as AskIs};
ghost use Rattle.pf_base.specs.declared.asks.Reply.{Reply as ReplyIs};
ghost use Rattle.pf_entry.specs.Lists.{Every};
ghost use Rattle.pf_protocol.specs.Answers.{IsLegal};
ghost use Rattle.pf_protocol.specs.Histories.{History};
ghost use Rattle.pf_protocol.specs.Ports.{FollowsRule};
ghost use Rattle.pf_protocol.specs.Servers.{Setup};
ghost use Rattle.pf_asks.specs.Desks.{DeskCall, CallIsLook};
ghost use Rattle.pf_asks.specs.Ports.{PortIs, rehomed};
ghost use Rattle.pf_law_ports.specs.Calls.{PortPast, new_past, SayInTurn};
ghost use Rattle.pf_law_ports.specs.Driven.{IsDriven, IsUndisturbedStep};
ghost use Rattle.pf_law_ports.specs.Replies.{IsReplied};
ghost use Rattle.pf_law_ports.specs.Rising.{TermsAreRising};

/// A port whose steps find no event of anybody else between their calls follows the rule of ports, in every legal history of its group.
pub fn driven_ports_follow_the_rule()
    ensures { (setup : Setup) (past : PortPast) (port : PortIs) → IsDriven setup past port → IsLegal setup past.history
        → FollowsRule setup past.history past.writes }
{}

/// Each write that it handed on went to a server that served as a leader then: none to a lower term than one before, and the same write
/// to a higher one where the one before was answered whole.
pub fn driven_ports_hand_writes_to_leaders()
    ensures { (setup : Setup) (past : PortPast) (port : PortIs) → IsDriven setup past port → IsLegal setup past.history → TermsAreRising setup past.writes }
{}

/// And what a step of it replies is the group's answer to the last time that it handed on the ask: a write was acknowledged, a read was
/// answered with these sectors.
pub fn replies_answer_the_last_submission()
    ensures { (setup : Setup) (old new : PortPast) (port next : PortIs) (ask : AskIs) (reply : ReplyIs) → IsDriven setup old port
        → IsUndisturbedStep setup old port ask (Some reply) new next → IsLegal setup new.history → IsReplied setup new ask reply }
{}

/// Where a step ends for want of memory its calls are looks alone, and so nothing has happened.
pub fn looks_do_nothing()
    ensures { (setup : Setup) (old new : PortPast) (calls : List DeskCall) → Every CallIsLook calls → SayInTurn setup old calls new → new ≡ old }
{}

/// A port that was taken to another group is, in that group, one that begins there with nothing to ask, and into which the pending ask was
/// put again, if there is one. So these laws hold of it in each group through which it goes.
pub fn rehomed_ports_begin_anew()
    ensures pending { (setup : Setup) (history : History) (port : PortIs) (ask : AskIs) (number : ℕ) → port.ask ≡ Some ask → 0 < number
        → IsDriven setup (record (new_past history) { asks = number }) (rehomed port) }
    ensures idle { (setup : Setup) (history : History) (port : PortIs) → port.ask ≡ None → IsDriven setup (new_past history) (rehomed port) }
{}
