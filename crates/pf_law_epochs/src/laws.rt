//! What the writes and reads of a sector are to those who asked them, while its chunk is moved from group to group.
ghost use Rattle.std.specs.Prelude.{◌≡◌, ℕ, ◌+◌, ◌*◌, ◌<◌, List, Option, Some, slice_get, take};
ghost use Rattle.pf_entry.specs.Ops.{Sector};
ghost use Rattle.pf_protocol.specs.Answers.{IsLegal};
ghost use Rattle.pf_protocol.specs.Groups.{Answered};
ghost use Rattle.pf_law_registers.specs.Orders.{Member};
ghost use Rattle.pf_paxos.specs.declared.block.Block.{Block};
ghost use Rattle.pf_paxos.specs.Deciding.{Decides};
ghost use Rattle.pf_paxos.specs.Journals.{ProposerDoing, AreAllRegisters};
ghost use Rattle.pf_paxos.specs.Registers.{AreRegisters};
ghost use Rattle.pf_paxos.specs.Runs.{ProposerEvent, turns_of};
ghost use Rattle.pf_law_positions.specs.Deeds.{Groups, Deed, Gets, Got, DeedIsPending, PortAsk, Takes};
ghost use Rattle.pf_law_positions.specs.Homes.{PositionHome, turns_in};
ghost use Rattle.pf_move.specs.Turns.{MoverTurn};
ghost use Rattle.pf_law_epochs.specs.Copying.{IsCarriedOut, WereCarried};
ghost use Rattle.pf_law_epochs.specs.Orders.{IsPart};
ghost use Rattle.pf_law_epochs.specs.Positions.{IsRoutedJournal, IsRoutedPosition};
ghost use Rattle.pf_law_epochs.specs.Routed.{IsRouted};
ghost use Rattle.pf_law_epochs.specs.InTurn.{AreEightInTurn, AreInTurn, AreWhole, eight_from, last_asked, last_put};
ghost use Rattle.pf_law_epochs.specs.Sectors.{GivesRouted, RoutedRead, RoutedSector};

/// Each sector of a chunk that is moved from group to group is one register. Every routed read is fresh: it gives the bytes of the last
/// of the writes that its group holds, which come first in the sector's order; among them are all copies of each write that was answered
/// before the read was asked, and all that a read showed which was answered before that, in whichever epochs. The writes of a client
/// stand in the order in which it asked them, through any number of moves.
pub fn routed_sectors_are_registers()
    ensures { (groups : Groups) (deeds : List Deed) (chunk piece nth : ℕ) → (routed : IsRouted groups deeds chunk piece) → nth < 8
        → RoutedSector groups deeds chunk (8 * piece + nth) routed.last }
{}

/// Where the writes of a sector are asked in turn, by whomever, each answered before the next one is asked, and all that were asked before a
/// read was answered had been answered before it was asked, the read gives the bytes of the last of them, or zeros if there is none; through
/// any number of moves. So does a read of eight sectors that are always written together.
pub fn reads_give_the_last_write()
    ensures sector { (groups : Groups) (deeds : List Deed) (chunk piece nth : ℕ) → IsRouted groups deeds chunk piece → nth < 8
        → (r : RoutedRead groups deeds chunk (8 * piece + nth)) → AreInTurn deeds chunk (8 * piece + nth) r.got.asked r.answered → (bytes : Sector)
        → GivesRouted groups deeds chunk (8 * piece + nth) r bytes → bytes ≡ last_asked chunk (8 * piece + nth) (take r.got.asked deeds) }
    ensures eight { (groups : Groups) (deeds : List Deed) (chunk piece : ℕ) → IsRouted groups deeds chunk piece
        → (client asked answered epoch by : ℕ) (read : Answered) (next : Option PortAsk)
        → slice_get deeds answered ≡ Some (Takes client (Some (Got chunk epoch by read)) next)
        → DeedIsPending deeds client asked answered (Gets chunk (eight_from (8 * piece))) → AreEightInTurn deeds chunk (8 * piece) asked answered
        → AreWhole deeds chunk (8 * piece) → read.bytes ≡ last_put chunk (8 * piece) (take asked deeds) }
{}

/// The writes of an epoch in the order of a sector are one list.
pub fn a_routed_sector_has_one_order()
    ensures { (groups : Groups) (chunk x epoch : ℕ) (last : Answered) (a b : List Member) → IsPart groups chunk x epoch last a
        → IsPart groups chunk x epoch last b → a ≡ b }
{}

/// The blocks of a position that lie in chunks that move are registers.
pub fn routed_positions_are_registers()
    ensures { (groups : Groups) (read : Sector → Block) (home : PositionHome) (deeds : List Deed) → IsRoutedPosition groups read home deeds
        → AreRegisters (turns_in read home deeds) }
{}

/// And so no position is decided with two values, through any number of moves.
pub fn routed_positions_have_one_value()
    ensures { (groups : Groups) (read : Sector → Block) (home : PositionHome) (deeds : List Deed) (events : List ProposerEvent)
        → IsRoutedPosition groups read home deeds → turns_of events ≡ turns_in read home deeds → (a b : ℕ) (v w : List ℕ)
        → Decides (turns_in read home deeds) a v → Decides (turns_in read home deeds) b w → v ≡ w }
{}

/// All positions of a journal that lies in chunks that move are registers. So, by pf_paxos, its mounts share one list.
pub fn routed_journals_are_registers()
    ensures { (groups : Groups) (read : Sector → Block) (sectors count : ℕ) (deeds : List Deed) (doings : List ProposerDoing)
        → IsRoutedJournal groups read sectors count deeds doings → AreAllRegisters doings }
{}

/// Where the calls of a mover went through its ports up to its switch, each piece of the chunk was written into the new group as the last
/// read of it in the old one gave it, where that is not zeros, and nothing else.
pub fn switched_chunks_were_carried()
    ensures { (groups : Groups) (chunk epoch pieces piece : ℕ) (last : ℕ → Answered) (turns : List MoverTurn)
        → IsCarriedOut groups chunk epoch pieces last turns → IsLegal (groups.setup chunk epoch) (groups.history chunk epoch) → piece < pieces
        → WereCarried groups chunk (8 * piece) epoch (last piece) }
{}
