//! A half of the first format is saved anew.
ghost use Rattle.std.specs.Prelude.{◌≡◌, ◌⊎◌, ℕ, IfErr, IfOk, OnErr, OnOk};
ghost use Rattle.std.specs.Option.{option_map};
ghost use Rattle.pf_entry.specs.Records.{Durable, image_of, stored};
ghost use Rattle.pf_codec.specs.Spelling.{body_bytes};
ghost use Rattle.pf_protocol.specs.Saving.{renewed};
ghost use Rattle.pf_server_restart.specs.Beginning.{IsBegun, IsSeat};
ghost use Rattle.pf_server_restart.specs.Reviving.{IsImageFor, Lives, anew};
ghost use Rattle.pf_server_restart.specs.declared.seat.Seat.{Seat as SeatIs};

use crate::{HalfReading, RestartFault};
use pf_base::NoMemory;
use pf_server_memory::{Running, spell_state};
use pf_server_store::{DiskFault, Store};
use std::alloc::Global;

/// The body of the image of the server's state under the next generation.
fn spell_anew(alloc: Global, me: &Running) -> Result<Vec<u8>, NoMemory>
    requires { (d : Durable) × Lives d me.now }
    ensures { IfOk result (λ body. (d : Durable) → Lives d me.now → body.items ≡ body_bytes (image_of (anew d))) }
{
    let generation = me.generation + 1;
    spell_state(alloc, me, generation)
}

/// The body of the image with which a half of this format is saved anew. One of the second format needs none.
pub fn image_for(alloc: Global, me: &Running, format: u8) -> Result<Option<Vec<u8>>, NoMemory>
    requires { (d : Durable) × Lives d me.now }
    ensures { IfOk result (λ image. IsImageFor me.now format (option_map (λ body. body.items) image)) }
{
    if format != 1 {
        return Ok(None);
    }
    Ok(Some(spell_anew(alloc, me)?))
}

/// Saves the state under the next generation in the other half, which has the second format. A fault of a disk tells what
/// was read.
fn save_anew<S: Store>(
    store: &mut S,
    me: &mut Running,
    body: &[u8],
    read: HalfReading,
) -> Result<(), RestartFault>
    requires lives { (d : Durable) × S.model.holds store.old d d × Lives d me.old }
    requires body { (d : Durable) → Lives d me.old → body.now ≡ body_bytes (image_of (anew d)) }
    ensures saved { OnOk result ((d : Durable) (seat : SeatIs) (life : ℕ) → IsSeat seat → IsBegun S.model d store.old me.old seat life
        → IsBegun S.model (stored d (image_of (anew d))) store.new me.new seat life) }
    ensures halted { OnErr result ((d : Durable) → S.model.holds store.old d d → Lives d me.old → S.model.holds store.new d (stored d (image_of (anew d)))) }
    ensures any_moment { (d : Durable) → S.model.holds store.old d d → Lives d me.old
        → (store.new ≡ store.old) ⊎ S.model.was store.old store.new d (stored d (image_of (anew d))) }
    ensures told { S.model.told store.new ≡ S.model.told store.old }
    ensures fault { IfErr result (λ fault. fault ≡ RestartFault.SaveHalted read) }
    ensures cause { OnErr result (S.model.rose store.old store.new) }
{
    match store.save(body) {
        Ok(()) => {
            me.generation += 1;
            Ok(())
        }
        Err(DiskFault) => Err(RestartFault::SaveHalted(read)),
    }
}

/// Saves a half of the first format anew in the second. It then has the next generation. A fault of a disk tells
/// what was read. It takes no memory.
pub fn renew<S: Store>(
    store: &mut S,
    me: &mut Running,
    image: Option<Vec<u8>>,
    read: HalfReading,
) -> Result<(), RestartFault>
    requires lives { (d : Durable) × S.model.holds store.old d d × Lives d me.old }
    requires image { IsImageFor me.old (S.model.format store.old) (option_map (λ body. body.items) image) }
    ensures saved { OnOk result ((d : Durable) (seat : SeatIs) (life : ℕ) → IsSeat seat → IsBegun S.model d store.old me.old seat life
        → IsBegun S.model (renewed d) store.new me.new seat life) }
    ensures halted { OnErr result ((d : Durable) → S.model.holds store.old d d → Lives d me.old → S.model.format store.old ≡ d.format
        → S.model.holds store.new d (renewed d)) }
    ensures any_moment { (d : Durable) → S.model.holds store.old d d → Lives d me.old → S.model.format store.old ≡ d.format
        → (store.new ≡ store.old) ⊎ S.model.was store.old store.new d (renewed d) }
    ensures told { S.model.told store.new ≡ S.model.told store.old }
    ensures fault { IfErr result (λ fault. fault ≡ RestartFault.SaveHalted read) }
    ensures cause { OnErr result (S.model.rose store.old store.new) }
{
    match image {
        None => Ok(()),
        Some(body) => save_anew(store, me, &body, read),
    }
}
