//! Disks by sixes.
ghost use Rattle.std.specs.Prelude.{◌≡◌, ◌≤◌, ◌+◌, ◌++◌, IfSome, IsSome, reverse, vec_capacity, vec_len};
ghost use Rattle.pf_world.specs.Disks.{six_list};

use pf_disk::Disk;
use pf_live_session::pf_group::Six;

/// The last six disks, the first of them last.
pub(crate) fn take_six<D: Disk + Drop>(disks: &mut Vec<D>) -> Option<Six<D>>
    ensures enough { 6 ≤ vec_len disks.old → IsSome result }
    ensures taken { IfSome result (λ six. reverse disks.old.items ≡ six_list six ++ reverse disks.new.items) }
    ensures capacity { vec_capacity disks.new ≡ vec_capacity disks.old }
{
    let s0h0 = disks.pop()?;
    let s0h1 = disks.pop()?;
    let s1h0 = disks.pop()?;
    let s1h1 = disks.pop()?;
    let s2h0 = disks.pop()?;
    let s2h1 = disks.pop()?;
    Some(Six {
        s0h0,
        s0h1,
        s1h0,
        s1h1,
        s2h0,
        s2h1,
    })
}

/// Gives six disks back to the end of a list that has room for them, the first of them last.
pub(crate) fn put_six<D: Disk + Drop>(disks: &mut Vec<D>, six: Six<D>)
    requires { vec_len disks.old + 6 ≤ vec_capacity disks.old }
    ensures put { reverse disks.new.items ≡ six_list six ++ reverse disks.old.items }
    ensures len { vec_len disks.new ≡ vec_len disks.old + 6 }
    ensures capacity { vec_capacity disks.old ≤ vec_capacity disks.new }
{
    let Six {
        s0h0,
        s0h1,
        s1h0,
        s1h1,
        s2h0,
        s2h1,
    } = six;
    let _ = disks.push(s2h1);
    let _ = disks.push(s2h0);
    let _ = disks.push(s1h1);
    let _ = disks.push(s1h0);
    let _ = disks.push(s0h1);
    let _ = disks.push(s0h0);
}
