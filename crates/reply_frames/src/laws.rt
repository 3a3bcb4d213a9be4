//! The laws of frames: their limits, their lengths, and that none is a proper prefix of another.
ghost use Rattle.std.specs.Prelude.{◌≡◌};
ghost use Rattle.ccp_base.specs.Limits.{most_operation, most_reason};
ghost use Rattle.reply_frames.specs.Kinds.{head_bytes};
ghost use Rattle.reply_frames.specs.Laws.{PrefixFree, Needed, Longest};

use crate::bodies::MOST_REASON;
use crate::encode::HEAD;
use crate::install_parts::MOST_OPERATION;

/// The constants of this crate are the numbers of the rules.
pub fn limits_hold()
    ensures operations { MOST_OPERATION ≡ most_operation }
    ensures reasons { MOST_REASON ≡ most_reason }
    ensures head { HEAD ≡ head_bytes }
{}

/// The laws of whole frames. No frame is a proper prefix of another; a frame that is cut after its head needs the
/// frame's length; and no frame is longer than 8,596 bytes.
pub fn frame_laws()
    ensures prefix_free { PrefixFree }
    ensures needed { Needed }
    ensures longest { Longest }
{}
