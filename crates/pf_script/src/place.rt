//! The ranges of the numbers of a line, and its place in the script.
ghost use Rattle.std.specs.Prelude.{◌≡◌, ℕ, ◌≤◌, IsTrue, IfOk, Some, None};
ghost use Rattle.std.specs.Option.{ForSome};
ghost use Rattle.pf_script.specs.Calls.{call_from};
ghost use Rattle.pf_script.specs.Lines.{LineGives, placed, within, is_volume, is_server, is_up_to, server_command, packet_command};
ghost use Rattle.pf_script.specs.declared.command.Command.TheVariants as commands;

use crate::call_forms::CallForm;
use crate::form::{Form, PacketVerb, ServerVerb};
use crate::{Command, LineFault, NamedVolume};
use pf_base::ServerId;
use std::alloc::Global;

/// Sectors of a volume, packets of a group and counts of sectors stand below this number in a script.
const LIMIT: u64 = 65_536;

/// The most deliveries of one `settle` line.
const MOST_DELIVERIES: u64 = 1_000_000;

/// The most hosts of a `live` line, and the most workers.
const MOST_WORKERS: u64 = 8;

/// The most writes of each host of a `live` line.
const MOST_WRITES: u64 = 64;

/// The most deliveries of a `live` line.
const MOST_TURNS: u64 = 100_000;

/// The most mounts of a volume.
const MOUNTS: u64 = 16;

fn fits_volume(chunks: u64, sectors: u64, names: u64, format: u64) -> bool
    ensures { result ≡ is_volume chunks sectors names format }
{
    1 <= chunks
        && chunks <= 8
        && 16 <= sectors
        && sectors <= 4096
        && sectors % 8 == 0
        && names <= 16
        && (format == 2 || (format == 1 && names <= 2))
}

fn fits_server(named: NamedVolume, group: u64, server: u64) -> bool
    ensures { result ≡ is_server named.groups group server }
{
    group < u64::from(named.groups) && server < 3
}

impl ServerVerb {
    fn command(self, group: u8, server: ServerId) -> Command
        ensures { result ≡ server_command self group server }
    {
        match self {
            ServerVerb::Elect => Command::Elect { group, server },
            ServerVerb::Resend => Command::Resend { group, server },
            ServerVerb::Stop => Command::Stop { group, server },
            ServerVerb::Restart => Command::Restart { group, server },
            ServerVerb::Checkpoint => Command::Checkpoint { group, server },
            ServerVerb::Mark => Command::Mark { group, server },
            ServerVerb::ShowLog => Command::ShowLog { group, server },
            ServerVerb::ShowApplied => Command::ShowApplied { group, server },
            ServerVerb::ShowSectors => Command::ShowSectors { group, server },
        }
    }
}

impl PacketVerb {
    fn command(self, group: u8, packet: u32) -> Command
        ensures { result ≡ packet_command self group packet }
    {
        match self {
            PacketVerb::Deliver => Command::Deliver { group, packet },
            PacketVerb::Lose => Command::Lose { group, packet },
        }
    }
}

/// The command of a form before the volume.
fn place_first(form: Form) -> Result<Command, LineFault>
    ensures { result ≡ placed None form.entry }
{
    let Form::Volume {
        chunks,
        sectors,
        names,
        format,
    } = form
    else {
        return Err(LineFault::NoVolume);
    };
    if !fits_volume(chunks, sectors, names, format) {
        return Err(LineFault::OutOfRange);
    }
    Ok(Command::Volume {
        chunks: chunks as u32,
        sectors: sectors as u32,
        names: names as u8,
        format: format as u8,
    })
}

fn place_server(
    named: NamedVolume,
    verb: ServerVerb,
    group: u64,
    server: u64,
) -> Result<Command, LineFault>
    requires { named.groups ≤ 8 }
    ensures { result ≡ within named (server_command verb group server) }
{
    if !fits_server(named, group, server) {
        return Err(LineFault::OutOfRange);
    }
    Ok(verb.command(group as u8, server as u8))
}

fn place_packet(
    named: NamedVolume,
    verb: PacketVerb,
    group: u64,
    packet: u64,
) -> Result<Command, LineFault>
    requires { named.groups ≤ 8 }
    ensures { result ≡ within named (packet_command verb group packet) }
{
    if group >= u64::from(named.groups) || packet >= LIMIT {
        return Err(LineFault::OutOfRange);
    }
    Ok(verb.command(group as u8, packet as u32))
}

fn place_submit(
    named: NamedVolume,
    group: u64,
    server: u64,
    sector: u64,
    byte: u8,
    count: u64,
) -> Result<Command, LineFault>
    requires { named.groups ≤ 8 }
    ensures { result ≡ within named (commands.Submit group server sector byte count) }
{
    if !fits_server(named, group, server) || sector >= LIMIT || count >= LIMIT {
        return Err(LineFault::OutOfRange);
    }
    Ok(Command::Submit {
        group: group as u8,
        server: server as u8,
        sector: sector as u32,
        byte,
        count: count as u32,
    })
}

fn place_fetch(
    named: NamedVolume,
    group: u64,
    server: u64,
    sector: u64,
    count: u64,
) -> Result<Command, LineFault>
    requires { named.groups ≤ 8 }
    ensures { result ≡ within named (commands.Fetch group server sector count) }
{
    if !fits_server(named, group, server) || sector >= LIMIT || count >= LIMIT {
        return Err(LineFault::OutOfRange);
    }
    Ok(Command::Fetch {
        group: group as u8,
        server: server as u8,
        sector: sector as u32,
        count: count as u32,
    })
}

fn place_settle(limit: u64) -> Result<Command, LineFault>
    ensures { (named : NamedVolume) → result ≡ within named (commands.Settle limit) }
{
    if limit > MOST_DELIVERIES {
        return Err(LineFault::OutOfRange);
    }
    Ok(Command::Settle {
        limit: limit as u32,
    })
}

/// Whether the number is at least 1, and at most so many.
fn is_up_to(most: u64, number: u64) -> bool
    ensures { result ≡ is_up_to most number }
{
    1 <= number && number <= most
}

fn place_live(
    named: NamedVolume,
    group: u64,
    hosts: u64,
    writes: u64,
    workers: u64,
    turns: u64,
) -> Result<Command, LineFault>
    requires { named.groups ≤ 8 }
    ensures { result ≡ within named (commands.Live group hosts writes workers turns) }
{
    let fits = group < u64::from(named.groups)
        && is_up_to(MOST_WORKERS, hosts)
        && is_up_to(MOST_WRITES, writes)
        && is_up_to(MOST_WORKERS, workers)
        && is_up_to(MOST_TURNS, turns);
    if !fits {
        return Err(LineFault::OutOfRange);
    }
    Ok(Command::Live {
        group: group as u8,
        hosts: hosts as u32,
        writes: writes as u32,
        workers: workers as u32,
        turns: turns as u32,
    })
}

fn place_acked(named: NamedVolume, group: u64) -> Result<Command, LineFault>
    requires { named.groups ≤ 8 }
    ensures { result ≡ within named (commands.ShowAcked group) }
{
    if group >= u64::from(named.groups) {
        return Err(LineFault::OutOfRange);
    }
    Ok(Command::ShowAcked { group: group as u8 })
}

fn place_mark(named: NamedVolume, group: u64, server: u64, slot: u64) -> Result<Command, LineFault>
    requires { named.groups ≤ 8 }
    ensures { result ≡ within named (commands.ShowMark group server slot) }
{
    if !fits_server(named, group, server) || slot > u64::from(u32::MAX) {
        return Err(LineFault::OutOfRange);
    }
    Ok(Command::ShowMark {
        group: group as u8,
        server: server as u8,
        slot: slot as u32,
    })
}

fn place_kill(mount: u64) -> Result<Command, LineFault>
    ensures { (named : NamedVolume) → result ≡ within named (commands.Kill mount) }
{
    if mount >= MOUNTS {
        return Err(LineFault::OutOfRange);
    }
    Ok(Command::Kill { mount: mount as u8 })
}

fn place_show_mount(mount: u64) -> Result<Command, LineFault>
    ensures { (named : NamedVolume) → result ≡ within named (commands.ShowMount mount) }
{
    if mount >= MOUNTS {
        return Err(LineFault::OutOfRange);
    }
    Ok(Command::ShowMount { mount: mount as u8 })
}

/// The words of the call are copied once its numbers are judged.
fn place_call(alloc: Global, mount: u64, call: CallForm) -> Result<Command, LineFault>
    ensures { (named : NamedVolume) → LineGives (within named (commands.Call mount (call_from call.entry))) result }
{
    if mount >= MOUNTS || !call.fits() {
        return Err(LineFault::OutOfRange);
    }
    let call = call.call(alloc)?;
    Ok(Command::Call {
        mount: mount as u8,
        call,
    })
}

fn place_move(named: NamedVolume, chunk: u64) -> Result<Command, LineFault>
    requires { named.chunks ≤ 8 }
    ensures { result ≡ within named (commands.Move chunk) }
{
    if chunk >= u64::from(named.chunks) {
        return Err(LineFault::OutOfRange);
    }
    Ok(Command::Move { chunk: chunk as u8 })
}

/// The command of a form where lines may name so much.
#[tactic(auto, using(crate::proofs::Memory::exact_gives))]
fn place_later(alloc: Global, named: NamedVolume, form: Form) -> Result<Command, LineFault>
    requires chunks { named.chunks ≤ 8 }
    requires groups { named.groups ≤ 8 }
    ensures { LineGives (placed (Some named) form.entry) result }
{
    match form {
        Form::Volume { .. } => Err(LineFault::NoVolume),
        Form::OfServer {
            verb,
            group,
            server,
        } => place_server(named, verb, group, server),
        Form::OfPacket {
            verb,
            group,
            packet,
        } => place_packet(named, verb, group, packet),
        Form::Submit {
            group,
            server,
            sector,
            byte,
            count,
        } => place_submit(named, group, server, sector, byte, count),
        Form::Fetch {
            group,
            server,
            sector,
            count,
        } => place_fetch(named, group, server, sector, count),
        Form::Settle { limit } => place_settle(limit),
        Form::Live {
            group,
            hosts,
            writes,
            workers,
            turns,
        } => place_live(named, group, hosts, writes, workers, turns),
        Form::ShowAcked { group } => place_acked(named, group),
        Form::ShowMark {
            group,
            server,
            slot,
        } => place_mark(named, group, server, slot),
        Form::Anchors => Ok(Command::Anchors),
        Form::Mount => Ok(Command::Mount),
        Form::Kill { mount } => place_kill(mount),
        Form::Call { mount, call } => place_call(alloc, mount, call),
        Form::ShowMount { mount } => place_show_mount(mount),
        Form::Move { chunk } => place_move(named, chunk),
    }
}

/// The command of a form in a script whose lines may name so much, or whose volume has not come yet.
///
/// A form in the wrong place is `NoVolume` (24); else a number outside its range is `OutOfRange` (22). The words of a call
/// are copied, so there `NoMemory` (1) may come.
#[tactic(auto, using(crate::proofs::Memory::exact_gives))]
pub fn place(alloc: Global, volume: Option<NamedVolume>, form: Form) -> Result<Command, LineFault>
    requires { ForSome volume (λ named. (named.chunks ≤ 8) × (named.groups ≤ 8)) }
    ensures { LineGives (placed volume form.entry) result }
{
    match volume {
        None => place_first(form),
        Some(named) => place_later(alloc, named, form),
    }
}
