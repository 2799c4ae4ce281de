//! One file as the layers above see it: what a read gives, what a crash may leave, and how often a call failed.
ghost use Rattle.std.specs.Prelude.{◌≡◌, ◌≤◌, ◌+◌, List, Option, ℕ, Bool, IfOk, IfSome, IsTrue, OnOk, Some, is_some, length, min};
ghost use Rattle.pf_io.specs.Causes.{HasCause};
ghost use Rattle.pf_disk.specs.Files.{FileIsRead, overwritten, file_resized, end_of_write};
ghost use Rattle.pf_disk.specs.Crashes.{Cut, Elapses, ImagesFollow, KeepsImages, Only, Torn};

/// The disk has failed at this call.
#[derive(Clone, Copy, Debug, PartialEq, Eq)]
pub struct Failed;

/// A file on a disk. Writes and cuts may be lost in part by a crash, until a sync has succeeded. One that failed counts
/// as made. After a crash the file ends anywhere from the least to the greatest end since the last sync that succeeded;
/// each range written since then may hold any bytes, and all others stay.
pub trait Disk {
    /// The bytes that a read gives, where the disk tells them.
    ghost seen: { Self → Option (List ℕ) };

    /// What a crash now may leave: everything, where the disk does not tell.
    ghost may_leave: { Self → List ℕ → Type 0 };

    /// The moment, as a number that does not fall.
    ghost moment: { Self → ℕ };

    /// What a crash at some moment from that one on might have left, inside a call or between two: everything, where the
    /// disk does not tell.
    ghost left_since: { Self → ℕ → List ℕ → Type 0 };

    /// Whether disks of this type tell their content.
    ghost tells: { Bool };

    /// Whether it tells what a crash inside a call leaves.
    ghost tells_moments: { Bool };

    /// How often it has failed.
    ghost faults: { Self → ℕ };

    /// How many bytes a read gives.
    fn len(&mut self) -> Result<u64, Failed>
        ensures length { IfSome (seen self.old) (λ file. IfOk result (λ len. len ≡ length file)) }
        ensures seen { seen self.new ≡ seen self.old }
        ensures crash { KeepsImages (may_leave self.old) (may_leave self.new) }
        ensures time { Elapses (moment self.old) (moment self.new) (left_since self.old) (left_since self.new) (may_leave self.new) }
        ensures cause { HasCause (faults self.old) (faults self.new) result };

    /// Reads bytes from this offset on into the front of the buffer. Zero for a buffer that is not empty is the end of
    /// the file.
    fn read(&mut self, at: u64, buf: &mut [u8]) -> Result<usize, Failed>
        ensures bound { IfOk result (λ count. count ≤ length buf.new) }
        ensures bytes { IfSome (seen self.old) (λ file. IfOk result (λ count. FileIsRead file at (length buf.new) count buf.new)) }
        ensures seen { seen self.new ≡ seen self.old }
        ensures crash { KeepsImages (may_leave self.old) (may_leave self.new) }
        ensures time { Elapses (moment self.old) (moment self.new) (left_since self.old) (left_since self.new) (may_leave self.new) }
        ensures cause { HasCause (faults self.old) (faults self.new) result };

    /// Writes over what is there, and past the end. A write that begins past the end counts as written from there on.
    fn write_at(&mut self, at: u64, bytes: &[u8]) -> Result<(), Failed>
        ensures written { IfSome (seen self.old) (λ file. OnOk result (seen self.new ≡ Some (overwritten file at bytes.now))) }
        ensures told { is_some (seen self.new) ≡ is_some (seen self.old) }
        ensures crash { IfSome (seen self.old) (λ file. ImagesFollow (Torn (min (length file) at) (end_of_write at (length bytes.now))) (may_leave self.old)
            (may_leave self.new)) }
        ensures time { Elapses (moment self.old) (moment self.new) (left_since self.old) (left_since self.new) (may_leave self.new) }
        ensures cause { HasCause (faults self.old) (faults self.new) result };

    /// Cuts the file to a length, or lengthens it with zeros.
    fn cut(&mut self, len: u64) -> Result<(), Failed>
        ensures resized { IfSome (seen self.old) (λ file. OnOk result (seen self.new ≡ Some (file_resized file len))) }
        ensures told { is_some (seen self.new) ≡ is_some (seen self.old) }
        ensures crash { IfSome (seen self.old) (λ file. ImagesFollow (Cut (length file) len) (may_leave self.old) (may_leave self.new)) }
        ensures time { Elapses (moment self.old) (moment self.new) (left_since self.old) (left_since self.new) (may_leave self.new) }
        ensures cause { HasCause (faults self.old) (faults self.new) result };

    /// Once it has succeeded, a crash leaves what a read gives.
    fn sync(&mut self) -> Result<(), Failed>
        ensures durable { IfSome (seen self.old) (λ file. OnOk result (Only file (may_leave self.new))) }
        ensures seen { seen self.new ≡ seen self.old }
        ensures crash { KeepsImages (may_leave self.old) (may_leave self.new) }
        ensures time { Elapses (moment self.old) (moment self.new) (left_since self.old) (left_since self.new) (may_leave self.new) }
        ensures cause { HasCause (faults self.old) (faults self.new) result };

    /// Where disks of this type tell their content, each does.
    ghost told: { IsTrue tells → (disk : Self) → IsTrue (is_some (seen disk)) };

    /// What it reads is among what a crash now may leave.
    ghost among: { (disk : Self) → IfSome (seen disk) (may_leave disk) };

    /// This moment is one of those since an earlier one.
    ghost counts_now: { (disk : Self) (t : ℕ) (c : List ℕ) → t ≤ moment disk → may_leave disk c → left_since disk t c };

    /// Since this moment there is no other, where it tells what a crash inside a call leaves.
    ghost only_now: { IsTrue tells_moments → (disk : Self) (c : List ℕ) → left_since disk (moment disk) c → may_leave disk c };
}
