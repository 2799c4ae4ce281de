//! Short values that are kept in place.
ghost use Rattle.std.specs.Prelude.{◌≡◌, ◌↔◌, ◌+◌, ◌≤◌, ◌++◌, [], IsTrue, length};

use crate::numbers::put_bytes;
use std::marker::Model;

/// The most bytes of a value.
const MOST: usize = 400;

/// 0 to 400 bytes, kept in place with their count. No call takes memory.
///
/// A journal's block holds one: the transaction that a ballot proposes, or nothing (Disk Paxos).
#[derive(Clone, Copy, Debug, PartialEq, Eq)]
pub struct Value {
    bytes: [u8; MOST],
    len: usize,
}

impl Model for Value {
    ghost use Rattle.std.specs.Prelude.{◌≡◌, List, ℕ, length, take};
    ghost use Rattle.pf_base.specs.Values.{IsPadded, value_padded};

    ghost Value = { List ℕ };

    ghost view = { λ v. take v.len v.bytes };

    // what lies past the bytes is zero, so that equal values have equal fields
    ghost invariant = { λ v. IsPadded v.bytes v.len };

    ghost inverse = { λ bytes. record { bytes = value_padded bytes; len = length bytes } };

    ghost use Rattle.pf_base.specs.ValueFields.{value_given_back};

    ghost inverse_ok = { value_given_back };
}

impl Value {
    /// No bytes.
    pub fn empty() -> Value
        ensures { result ≡ [] }
    {
        Value {
            bytes: [0; MOST],
            len: 0,
        }
    }

    /// A copy of at most 400 bytes.
    pub fn copied(bytes: &[u8]) -> Value
        requires { length bytes.now ≤ 400 }
        ensures { result ≡ bytes.now }
    {
        let mut value = Value::empty();
        value.extend(bytes);
        value
    }

    /// The count of bytes, at most 400.
    pub fn len(&self) -> usize
        ensures count { result ≡ length self.now }
        ensures few { result ≤ 400 }
    {
        self.len
    }

    /// Whether there is no byte.
    pub fn is_empty(&self) -> bool
        ensures { IsTrue result ↔ (self.now ≡ []) }
    {
        self.len == 0
    }

    /// The bytes.
    pub fn as_slice(&self) -> &[u8]
        ensures value { result.now ≡ self.now }
        ensures few { length self.now ≤ 400 }
    {
        &self.bytes[..self.len]
    }

    /// Puts bytes at the end, where all of them are at most 400.
    pub fn extend(&mut self, bytes: &[u8])
        requires { length self.old + length bytes.now ≤ 400 }
        ensures { self.new ≡ self.old ++ bytes.now }
    {
        put_bytes(&mut self.bytes, self.len, bytes);
        self.len += bytes.len();
    }
}
