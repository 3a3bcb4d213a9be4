//! The laws of messages and frames: one frame for each version, and none a proper prefix of another.
ghost use Rattle.ccp_messages.specs.Laws.{OneFrame, NoOther, BothVersions};
ghost use Rattle.reply_frames.specs.Laws.{PrefixFree, Needed};

/// The laws of messages and frames. For each version a message that meets the conditions of `encode_into` has exactly
/// one frame of it, which is read as that message, and every other message has none. No frame is a proper prefix of
/// another. A message has a frame of version 1 exactly if it has one of version 2, its counts of acknowledgements are
/// below 2^32, and it has at most 32 fields or reports. A frame that is cut after its head needs the frame's length.
pub fn frame_laws()
    ensures one_frame { OneFrame }
    ensures no_other { NoOther }
    ensures prefix_free { PrefixFree }
    ensures both_versions { BothVersions }
    ensures needed { Needed }
{}
