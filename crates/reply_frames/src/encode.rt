//! Update and Change, written in place, and the parts that they are made of.

ghost use Rattle.std.specs.Prelude.{◌≡◌, ◌+◌, ◌*◌, ◌<◌, ◌≤◌, ◌↔◌, length, Some, None, IfOk, IfErr, OnOk, OnErr, IsErr};
ghost use Rattle.ccp_base.specs.FieldReg.{pair_of};
ghost use Rattle.reply_frames.specs.declared.outline.Version.TheVariants.{One};
ghost use Rattle.reply_frames.specs.Kinds.{head_bytes, update_size, change_size};
ghost use Rattle.reply_frames.specs.Replies.{update_bytes, change_bytes, reply_head, IsReply};
ghost use Rattle.reply_frames.specs.ValueBytes.{target_bytes, value_bytes, values_bytes, AreTargets, ValueFits};
ghost use Rattle.std.specs.List.{AllByRecursion};
ghost use Rattle.reply_frames.specs.FrameBytes.{outline_bytes};
ghost use Rattle.reply_frames.specs.Writing.{placed, over, WroteFront};

use crate::fault::Short;
use crate::outline::{
    FrameKind, Outline, Version, frame_size, head_with_count, kind_number, version_number,
};
use ccp_base::{FieldReg, Fields};

/// The length of a head, in bytes.
pub const HEAD: usize = 16;

/// The length of a value, in bytes.
const VALUE: usize = 10;

/// Puts bytes at a place; those before and after them stay.
pub fn put(out: &mut [u8], at: usize, bytes: &[u8])
    requires { at + length bytes.now ≤ length out.old }
    ensures { out.new ≡ placed at bytes.now out.old }
{
    let end = at + bytes.len();
    out[at..end].copy_from_slice(bytes);
}

/// The class and the index of what a value is written to.
fn target(reg: FieldReg) -> [u8; 2]
    ensures { result ≡ target_bytes reg }
{
    match reg {
        FieldReg::Control(number) => [3, number],
        FieldReg::Cwnd => [4, 4],
        FieldReg::Rate => [4, 5],
    }
}

/// Puts a head at the front: kind, version, counts, flow, and the length of the whole frame.
pub fn put_outline(out: &mut [u8], head: Outline)
    requires { head_bytes ≤ length out.old }
    ensures { out.new ≡ over (outline_bytes head) out.old }
{
    let size = frame_size(head.kind, head.version, head.counts);
    let numbers = [
        kind_number(head.kind),
        version_number(head.version),
        head.counts.n1,
        head.counts.n2,
    ];
    put(out, 0, &numbers);
    put(out, 4, &head.counts.n3.to_le_bytes());
    put(out, 6, &head.counts.n4.to_le_bytes());
    put(out, 8, &head.flow.to_le_bytes());
    put(out, 12, &size.to_le_bytes());
}

/// Puts a value at a place.
fn put_value(out: &mut [u8], at: usize, reg: FieldReg, value: u64)
    requires { at + 10 ≤ length out.old }
    ensures placed { out.new ≡ placed at (value_bytes (pair_of reg value)) out.old }
    ensures typed { ValueFits (pair_of reg value) }
{
    put(out, at, &target(reg));
    put(out, at + 2, &value.to_le_bytes());
}

/// Puts values at a place, one after the other.
pub fn put_values(out: &mut [u8], at: usize, values: &Fields)
    requires { at + 10 * length values.now ≤ length out.old }
    ensures placed { out.new ≡ placed at (values_bytes values.now) out.old }
    ensures typed { AllByRecursion ValueFits values.now }
{
    let mut end = at;
    for (reg, value) in values.as_slice() {
        put_value(out, end, *reg, *value);
        end += VALUE;
    }
}

/// Writes the frame that writes these values on a flow, in version 1, at the front of `out`, and gives its length.
/// `decode_fields` reads it back. Short exactly if `out` is shorter than that; then nothing is written.
pub fn encode_update(flow: u32, values: &Fields, out: &mut [u8]) -> Result<usize, Short>
    requires { AreTargets values.now }
    ensures ok { IfOk result
        (WroteFront (update_size (length values.now)) (update_bytes One flow values.now) out.old out.new) }
    ensures read_back { OnOk result (IsReply out.new (reply_head flow None values.now) values.now) }
    ensures short { IfErr result (λ short. short ≡ record { 0 = update_size (length values.now) }) }
    ensures only_short { IsErr result ↔ (length out.old < update_size (length values.now)) }
    ensures unchanged { OnErr result (out.new ≡ out.old) }
{
    let count = values.len();
    let size = HEAD + VALUE * count as usize;
    if out.len() < size {
        return Err(Short(size));
    }
    put_outline(
        out,
        head_with_count(FrameKind::Update, Version::One, count as u8, flow),
    );
    put_values(out, HEAD, values);
    Ok(size)
}

/// Writes the frame that starts a program on a flow with these values, in version 1, at the front of `out`, and gives
/// its length. `decode_fields` reads it back. Short exactly if `out` is shorter than that; then nothing is written.
pub fn encode_change(
    flow: u32,
    program: u32,
    values: &Fields,
    out: &mut [u8],
) -> Result<usize, Short>
    requires { AreTargets values.now }
    ensures ok { IfOk result
        (WroteFront (change_size (length values.now)) (change_bytes One flow program values.now) out.old out.new) }
    ensures read_back { OnOk result (IsReply out.new (reply_head flow (Some program) values.now) values.now) }
    ensures short { IfErr result (λ short. short ≡ record { 0 = change_size (length values.now) }) }
    ensures only_short { IsErr result ↔ (length out.old < change_size (length values.now)) }
    ensures unchanged { OnErr result (out.new ≡ out.old) }
{
    let count = values.len();
    let size = HEAD + 4 + VALUE * count as usize;
    if out.len() < size {
        return Err(Short(size));
    }
    put_outline(
        out,
        head_with_count(FrameKind::Change, Version::One, count as u8, flow),
    );
    put(out, HEAD, &program.to_le_bytes());
    put_values(out, HEAD + 4, values);
    Ok(size)
}
