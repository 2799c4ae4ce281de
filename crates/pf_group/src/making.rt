//! The making of a group: first all its memory, then its disks.
ghost use Rattle.std.specs.Prelude.{◌≡◌, ◌+◌, ◌<◌, ◌≤◌, ◌++◌, [], IfOk, vec_capacity, vec_len};
ghost use Rattle.pf_protocol.specs.Answers.{IsSetup};
ghost use Rattle.pf_server_restart.specs.Beginning.{setup_of_seat};
ghost use Rattle.pf_group.specs.Making.{GroupIsMade, making_answer, setup_with, six_faults};
ghost use Rattle.pf_group.specs.Rooms.{NetworkIsEmpty, IsGroupPlan, IsPlanOf, halted_of, picked};

use crate::began::Began;
use crate::past::Past;
use crate::{Group, Six};
use pf_base::{NoMemory, ServerId};
use pf_disk::Disk;
use pf_disk_store::Kept;
use pf_group_network::{AckedList, Network, ReadTable, put};
use pf_protocol::{Answer, Refusal};
use pf_server_format::{ServerRoom, first_record};
use pf_server_restart::Seat;
use std::alloc::Global;

/// The most packets that a group sends, and their bytes.
const PLACES: usize = 65_536;

const PACKET_BYTES: u64 = 134_217_728;

/// What a group is to be made with, and all the memory for it.
#[derive(Drop)]
pub struct GroupPlan<D: Disk> {
    number: u8,
    sectors: u32,
    names: u8,
    format: u8,
    zero: ServerRoom,
    one: ServerRoom,
    two: ServerRoom,
    /// The body of the first record, which is the same for all three.
    image: Vec<u8>,
    failed: Vec<ServerId>,
    /// It has no servers yet.
    network: Network<Kept<D>>,
    past: Past,
}

/// The memory of one server with this number. `NoMemory` (1) where there is none for it.
fn room_of(alloc: Global, group: u8, seat: Seat, number: ServerId) -> Result<ServerRoom, NoMemory>
    requires setup { IsSetup (setup_of_seat seat) }
    requires number { number < 3 }
    ensures { IfOk result (λ room. room ≡ record { group = group; seat = record seat { number = number } }) }
{
    ServerRoom::new(alloc, group, Seat { number, ..seat })
}

/// The memory of servers 1 and 2. `NoMemory` (1) where there is none for it.
fn two_rooms(alloc: Global, group: u8, seat: Seat) -> Result<(ServerRoom, ServerRoom), NoMemory>
    requires { IsSetup (setup_of_seat seat) }
    ensures { IfOk result (λ made. (made.0 ≡ record { group = group; seat = record seat { number = 1 } })
        × (made.1 ≡ record { group = group; seat = record seat { number = 2 } })) }
{
    let one = room_of(alloc, group, seat, 1)?;
    match room_of(alloc, group, seat, 2) {
        Ok(two) => Ok((one, two)),
        Err(fault) => {
            drop(one);
            Err(fault)
        }
    }
}

/// The memory of the three servers. `NoMemory` (1) where there is none for it.
fn rooms(
    alloc: Global,
    number: u8,
    seat: Seat,
) -> Result<(ServerRoom, ServerRoom, ServerRoom), NoMemory>
    requires { IsSetup (setup_of_seat seat) }
    ensures { IfOk result (λ made. (made.0 ≡ record { group = number; seat = record seat { number = 0 } })
        × (made.1 ≡ record { group = number; seat = record seat { number = 1 } }) × (made.2 ≡ record { group = number; seat = record seat { number = 2 } })) }
{
    let zero = room_of(alloc, number, seat, 0)?;
    match two_rooms(alloc, number, seat) {
        Ok((one, two)) => Ok((zero, one, two)),
        Err(fault) => {
            drop(zero);
            Err(fault)
        }
    }
}

/// A network without servers. `NoMemory` (1) where there is none for it.
fn empty_network<D: Disk + Drop>(alloc: Global) -> Result<Network<Kept<D>>, NoMemory>
    ensures { IfOk result NetworkIsEmpty }
{
    Ok(Network {
        servers: Vec::with_capacity(alloc, 3)?,
        packets: Vec::with_capacity(alloc, PLACES)?,
        byte_room: PACKET_BYTES,
        acked: AckedList::new(alloc),
        readings: ReadTable::new(alloc),
        elections: 0,
    })
}

/// Notes a server where it could not be formatted. It takes no memory.
fn note(failed: &mut Vec<ServerId>, number: ServerId, answer: &Answer)
    requires { vec_len failed.old < vec_capacity failed.old }
    ensures items { failed.new.items ≡ failed.old.items ++ picked (halted_of answer.now) number }
    ensures len { vec_len failed.new ≤ vec_len failed.old + 1 }
    ensures capacity { vec_capacity failed.old ≤ vec_capacity failed.new }
{
    if let Answer::Refused(_) = answer {
        put(failed, number);
    }
}

/// How the making of a group is answered.
fn making_answer(failed: &[ServerId]) -> Answer
    ensures { result ≡ making_answer failed.now }
{
    match failed {
        [] => Answer::Done,
        _ => Answer::Refused(Refusal::Halted),
    }
}

impl<D: Disk + Drop> GroupPlan<D> {
    /// Takes all the memory. `NoMemory` (1) where there is none for it.
    pub fn new(
        alloc: Global,
        number: u8,
        sectors: u32,
        names: u8,
        format: u8,
    ) -> Result<GroupPlan<D>, NoMemory>
        requires { IsSetup (setup_with sectors names format []) }
        ensures plan { IfOk result IsGroupPlan }
        ensures numbers { IfOk result (IsPlanOf number sectors names format) }
    {
        let seat = Seat {
            number: 0,
            sectors,
            names,
            format,
        };
        let failed = Vec::with_capacity(alloc, 3)?;
        let network = empty_network(alloc)?;
        let image = first_record(alloc, &seat)?;
        let (zero, one, two) = rooms(alloc, number, seat)?;
        Ok(GroupPlan {
            number,
            sectors,
            names,
            format,
            zero,
            one,
            two,
            image,
            failed,
            network,
            past: Past::new(),
        })
    }

    /// Makes the group on these disks. It takes no memory.
    pub fn open(self, disks: Six<D>) -> (Group<D>, Answer)
        requires setup { IsSetup (setup_with self.sectors self.names self.format []) }
        requires plan { IsGroupPlan self }
        ensures { GroupIsMade self.number self.sectors self.names self.format D.tells (six_faults D.faults disks) result.0 result.1 }
    {
        let GroupPlan {
            number,
            sectors,
            names,
            format,
            zero,
            one,
            two,
            image,
            mut failed,
            mut network,
            past,
        } = self;
        let (zero, first) = zero.open(&image, disks.s0h0, disks.s0h1);
        let (one, second) = one.open(&image, disks.s1h0, disks.s1h1);
        let (two, third) = two.open(&image, disks.s2h0, disks.s2h1);
        note(&mut failed, 0, &first);
        note(&mut failed, 1, &second);
        note(&mut failed, 2, &third);
        put(&mut network.servers, zero);
        put(&mut network.servers, one);
        put(&mut network.servers, two);
        let answer = making_answer(&failed);
        let began = Began::now(&network, &past);
        let group = Group {
            number,
            sectors,
            names,
            format,
            failed,
            network,
            past,
            began,
        };
        (group, answer)
    }
}
