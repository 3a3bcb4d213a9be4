//! Updates and Changes, written and read in place.

ghost use Rattle.reply_frames.specs.ValueBytes.{AreTargets};

use crate::frames::{CHANGE_3, INSTALL_5, UPDATE};
use ccp_base::{FieldReg, Fields};
use reply_frames::{
    FrameFault, ReplyHead, Short, Version, decode_fields, encode_change, encode_update,
};
use std::test::*;

/// The value that writes a window.
fn window(cwnd: u64) -> Fields
    ensures { AreTargets result }
{
    let mut values = Fields::new();
    values.push(FieldReg::Cwnd, cwnd);
    values
}

/// Whether a frame is read as this head and these values.
fn is_read(frame: &[u8], head: &ReplyHead, values: &Fields) -> bool {
    let mut read = Fields::new();
    decode_fields(frame, &mut read) == Ok(*head) && read == *values
}

/// Whether the Update of flow 3 with the values is `UPDATE`, and nothing is written after it.
fn update_is_written(values: &Fields, out: &mut [u8]) -> bool
    requires { AreTargets values.now }
{
    encode_update(3, values, out) == Ok(26) && out.starts_with(UPDATE) && out.ends_with(&[7; 4])
}

/// What `UPDATE` says beside its values.
const UPDATE_HEAD: ReplyHead = ReplyHead {
    flow: 3,
    program: None,
    version: Version::One,
    used: 26,
};

#[test]
fn an_update_is_written_and_read(rt: HostRuntime) {
    let values = window(8688);
    let mut out = [7; 30];
    assert!(rt; update_is_written(&values, &mut out));
    assert!(rt; is_read(&out, &UPDATE_HEAD, &values));
}

/// Whether the Change of flow 0 to program 3 with the values has no room in the bytes, of which none is written.
fn change_is_short(values: &Fields, out: &mut [u8]) -> bool
    requires { AreTargets values.now }
{
    encode_change(0, 3, values, out) == Err(Short(30)) && out.iter().all(|byte| *byte == 7)
}

/// Whether it is `CHANGE_3`.
fn change_is_written(values: &Fields, out: &mut [u8]) -> bool
    requires { AreTargets values.now }
{
    encode_change(0, 3, values, out) == Ok(30) && &*out == CHANGE_3
}

/// What `CHANGE_3` says beside its values.
const CHANGE_HEAD: ReplyHead = ReplyHead {
    flow: 0,
    program: Some(3),
    version: Version::One,
    used: 30,
};

#[test]
fn a_change_is_written_and_read(rt: HostRuntime) {
    let values = window(2896);
    let mut out = [7; 30];
    assert!(rt; change_is_short(&values, &mut out[..29]));
    assert!(rt; change_is_written(&values, &mut out));
    assert!(rt; is_read(&out, &CHANGE_HEAD, &values));
}

#[test]
fn a_frame_of_another_kind_is_ignored(rt: HostRuntime) {
    let mut values = Fields::new();
    assert!(rt; decode_fields(INSTALL_5, &mut values) == Err(FrameFault::Other(3)));
    assert!(rt; values.is_empty());
}
