//! The bytes of a reply's frame, an Update or a Change, held in place.
ghost use Rattle.std.specs.Prelude.{◌≡◌, ◌≤◌, [], length};
ghost use Rattle.ccp_base.specs.Limits.{most_answer_bytes};
ghost use Rattle.reply_frames.specs.Replies.{update_bytes, change_bytes};
ghost use Rattle.reply_frames.specs.ValueBytes.{AreTargets};

use ccp_base::Fields;
use reply_frames::{Version, encode_change, encode_update};
use std::marker::Model;

/// The bytes of a frame, held in place.
#[derive(Clone, Copy)]
pub struct Frame {
    bytes: [u8; 64],
    count: usize,
}

impl Model for Frame {
    ghost use Rattle.std.specs.Prelude.{ℕ, List, take, length};
    ghost use Rattle.ccp_base.specs.InPlace.{IsPadded, pad, pad-held, length-held};

    ghost Value = { List ℕ };

    ghost view = { λ f. take f.count f.bytes };

    ghost invariant = { λ f. IsPadded 64 0 f.bytes f.count };

    ghost inverse = { λ xs. record { bytes = pad 64 0 xs; count = length xs } };

    ghost inverse_ok = { λ a h. λ i. record {
      bytes = pad-held 64 0 a.bytes a.count h i;
      count = length-held 64 0 a.bytes a.count h i;
    } };
}

impl Frame {
    /// No bytes.
    pub fn empty() -> Self
        ensures { result ≡ [] }
    {
        Frame {
            bytes: [0; 64],
            count: 0,
        }
    }

    /// The frame that writes a few values on a flow.
    pub fn update(flow: u32, values: &Fields) -> Self
        requires targets { AreTargets values.now }
        requires few { length values.now ≤ 3 }
        ensures { result ≡ update_bytes Version.One flow values.now }
    {
        let mut bytes = [0; 64];
        let Ok(count) = encode_update(flow, values, &mut bytes) else {
            unreachable!()
        };
        Frame { bytes, count }
    }

    /// The frame that starts a program on a flow with a few values.
    pub fn change(flow: u32, program: u32, values: &Fields) -> Self
        requires targets { AreTargets values.now }
        requires few { length values.now ≤ 3 }
        ensures { result ≡ change_bytes Version.One flow program values.now }
    {
        let mut bytes = [0; 64];
        let Ok(count) = encode_change(flow, program, values, &mut bytes) else {
            unreachable!()
        };
        Frame { bytes, count }
    }

    /// The bytes in order.
    pub fn as_slice(&self) -> &[u8]
        ensures bytes { result.now ≡ self.now }
        ensures within { length self.now ≤ most_answer_bytes }
    {
        &self.bytes[..self.count]
    }
}
