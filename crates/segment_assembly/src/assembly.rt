ghost use Rattle.std.specs.Prelude.{◌≡◌, ◌<◌, length, sum, replicate, slice_set, count_by, Some, None, IfNone, IfOk, OnOk, OnErr, MatchResult};
ghost use Rattle.std.specs.Int.{div_ceil};
ghost use Rattle.std.specs.Option.{is_none};
ghost use Rattle.segment_assembly.specs.Assembly.{AreSegments, CanTake, segment_fault, pieces_of};

use crate::copies::{none_came, write_at};
use crate::pieces::cut_parts;
use crate::segment_fault::SegmentFault;
use blob_words::{Limits, NoMemory, Octets, Plan, zeros};
use std::alloc::Global;
use std::marker::Model;

/// The segments of a build that came so far. Contracts see the lengths of its parts, those of a
/// segment and a page in bytes, and the bytes of each segment by its number, where it was taken.
#[derive(Debug, Drop)]
pub struct Assembly {
    alloc: Global,
    parts: Vec<u64>,
    segment: u64,
    page: u64,
    own: u64,
    /// All own bytes; those of a segment that hasn't come mean nothing.
    bytes: Vec<u8>,
    came: Vec<bool>,
    missing: u32,
}

impl Model for Assembly {
    ghost use Rattle.segment_assembly.specs.Assembly.{Sending};

    ghost Value = { Sending };

    ghost use Rattle.segment_assembly.specs.Slots.{sending_of, IsWhole};

    ghost view = { sending_of };

    ghost invariant = { IsWhole };
}

impl Assembly {
    /// For a shared plan of parts of these lengths. Takes the room for all their bytes.
    pub fn new(
        alloc: Global,
        parts: &[u64],
        plan: Plan,
        limits: &Limits,
    ) -> Result<Assembly, NoMemory>
        requires { plan ≡ Plan.Shared (div_ceil (sum parts.now) limits.now.segment) }
        ensures { IfOk result (λ assembly. assembly ≡ record {
          parts = parts.now;
          segment = limits.now.segment;
          page = limits.now.page;
          taken = replicate (div_ceil (sum parts.now) limits.now.segment) None;
        }) }
    {
        let Plan::Shared(count) = plan else {
            unreachable!()
        };
        let own = parts.iter().sum();
        let parts = Vec::from_slice(alloc, parts)?;
        let bytes = zeros(alloc, own as usize)?;
        let came = none_came(alloc, count as usize)?;
        Ok(Assembly {
            alloc,
            parts,
            segment: limits.segment,
            page: limits.page,
            own,
            bytes,
            came,
            missing: count,
        })
    }

    /// Why a segment of this number with so many bytes can't be taken.
    fn fault_of(&self, seg: u32, len: u64) -> Option<SegmentFault>
        ensures value { result ≡ segment_fault self.now seg len }
        ensures none { IfNone result (CanTake self.now seg len) }
    {
        let place = seg as usize;
        if place >= self.came.len() {
            return Some(SegmentFault::BadSegment(self.came.len() as u32));
        }
        if self.came[place] {
            return Some(SegmentFault::Taken);
        }
        let start = u64::from(seg) * self.segment;
        let want = self.segment.min(self.own - start);
        if len == want {
            None
        } else {
            Some(SegmentFault::Length(want))
        }
    }

    /// Takes the bytes of a segment, in any order of segments.
    pub fn take(&mut self, seg: u32, bytes: &[u8]) -> Result<(), SegmentFault>
        ensures fault { MatchResult result
            (λ _. segment_fault self.old seg (length bytes.now) ≡ None)
            (λ fault. segment_fault self.old seg (length bytes.now) ≡ Some fault) }
        ensures ok { OnOk result (self.new ≡ record self.old {
          taken = slice_set self.old.taken seg (Some bytes.now);
        }) }
        ensures err { OnErr result (self.new ≡ self.old) }
    {
        if let Some(fault) = self.fault_of(seg, bytes.len() as u64) {
            return Err(fault);
        }
        let start = u64::from(seg) * self.segment;
        write_at(self.bytes.as_mut_slice(), start as usize, bytes);
        self.came[seg as usize] = true;
        self.missing -= 1;
        Ok(())
    }

    /// The number of segments that were not taken.
    pub fn missing(&self) -> u32
        ensures value { result ≡ count_by is_none self.now.taken }
        ensures segments { AreSegments self.now }
    {
        self.missing
    }

    /// The pieces of the bytes that were sent, in order.
    pub fn into_pieces(self) -> Result<Vec<Octets>, NoMemory>
        requires { count_by is_none self.taken ≡ 0 }
        ensures pieces { IfOk result (λ pieces. pieces.items ≡ pieces_of self) }
        ensures segments { AreSegments self }
    {
        cut_parts(
            self.alloc,
            self.bytes.as_slice(),
            self.parts.as_slice(),
            self.page,
        )
    }
}
