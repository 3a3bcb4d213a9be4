//! Messages of every kind, written and read.

ghost use Rattle.std.specs.Prelude.{◌≡◌, [], IfOk};
ghost use Rattle.ccp_messages.specs.Messages.{Meets};
ghost use Rattle.ccp_messages.specs.declared.message.Message.TheVariants.{Install, Fault};
ghost use Rattle.ccp_base.specs.declared.arithmetic.FaultKind.TheVariants.{Overflow};
ghost use Rattle.reply_frames.specs.declared.outline.Version.TheVariants.{One};

use crate::frames::{
    ACK_BYTES, CHANGE_8, CREATE, FAULT, FAULT_1, INSTALL, INSTALL_5, MEASURE, MEASURE_WIDE,
    REFUSED_2, UPDATE, ack_frame,
};
use ccp_base::{Bytes, FaultKind, FieldReg, Fields, NoMemory, Notice, Values};
use ccp_messages::{Message, Reason, Short, Version, decode, encode_into};
use reg_code::{Code, Sequence};
use std::alloc::{AllocError, Global};
use std::test::*;

/// The fault of the frame `FAULT`.
fn overflow() -> Message
    ensures { result ≡ Fault (record {
      flow = 0;
      program = 0;
      epoch = 0;
      at = 0;
      kind = Overflow;
      index = 1;
      now = 5;
      cwnd = 4344;
    }) }
{
    Message::Fault(Notice {
        flow: 0,
        program: 0,
        epoch: 0,
        at: 0,
        kind: FaultKind::Overflow,
        index: 1,
        now: 5,
        cwnd: 4344,
    })
}

/// Whether what is written of a message is this frame.
fn is_written(message: &Message, version: Version, out: &mut [u8], frame: &[u8]) -> bool
    requires { Meets version message.now }
{
    encode_into(message, version, out) == Ok(frame.len()) && out.starts_with(frame)
}

/// Whether a Create is written, and nothing after it.
fn create_is_written() -> bool {
    let create = Message::Create {
        flow: 0,
        mss: 1448,
        cwnd: 4344,
    };
    let mut out = [9; 29];
    is_written(&create, Version::One, &mut out, CREATE) && out[28] == 9
}

fn fault_is_written() -> bool {
    is_written(&overflow(), Version::Two, &mut [9; 51], FAULT)
}

#[test]
fn messages_are_written(rt: HostRuntime) -> Result<(), Fail> {
    assert!(rt; create_is_written());
    assert!(rt; fault_is_written());
    assert!(rt; install_is_written(rt.alloc())?);
    Ok(())
}

/// An Install without registers, events and instructions.
fn empty_install(alloc: Global) -> Result<Message, NoMemory>
    ensures { IfOk result (λ message. message
        ≡ Install 0 5 (record { reports = []; controls = []; events = []; instrs = [] })) }
{
    let code = Code::new(
        alloc,
        Sequence::new(alloc),
        Sequence::new(alloc),
        Sequence::new(alloc),
        Sequence::new(alloc),
    )?;
    Ok(Message::Install {
        flow: 0,
        program: 5,
        code,
    })
}

/// The Change of flow 0 to program 3 with a window.
fn change() -> Message
    ensures { Meets One result }
{
    let mut values = Fields::new();
    values.push(FieldReg::Cwnd, 2896);
    Message::Change {
        flow: 0,
        program: 3,
        values,
    }
}

/// Whether a message whose frame has this size is short in the bytes, of which none is written.
fn is_short(message: &Message, out: &mut [u8], size: usize) -> bool
    requires { Meets One message.now }
{
    encode_into(message, Version::One, out) == Err(Short(size)) && out.iter().all(|byte| *byte == 9)
}

fn fault_is_short() -> bool {
    is_short(&overflow(), &mut [9; 46], 47)
}

fn change_is_short() -> bool {
    is_short(&change(), &mut [9; 29], 30)
}

fn install_is_short(alloc: Global) -> Result<bool, NoMemory> {
    let install = empty_install(alloc)?;
    Ok(is_short(&install, &mut [9; 19], 20))
}

fn install_is_written(alloc: Global) -> Result<bool, NoMemory> {
    let install = empty_install(alloc)?;
    Ok(is_written(&install, Version::One, &mut [9; 46], INSTALL_5))
}

/// What is short gets nothing.
#[test]
fn short_slices_are_left(rt: HostRuntime) -> Result<(), Fail> {
    assert!(rt; fault_is_short());
    assert!(rt; change_is_short());
    assert!(rt; install_is_short(rt.alloc())?);
    Ok(())
}

/// How long the message is that begins the bytes, if it comes back from what is written of it in the version it came
/// in.
fn back_in(alloc: Global, bytes: &[u8], out: &mut [u8]) -> Option<usize> {
    let (message, version, used) = decode(alloc, bytes).ok()?;
    let is_back = encode_into(&message, version, out) == Ok(used)
        && used <= out.len()
        && bytes.starts_with(&out[..used]);
    if is_back { Some(used) } else { None }
}

fn comes_back(alloc: Global, bytes: &[u8]) -> bool {
    let mut out = [0; ACK_BYTES];
    back_in(alloc, bytes, &mut out).is_some()
}

/// Frames of a kind whose frames differ by version.
const ONE_VERSION: [&[u8]; 4] = [MEASURE, MEASURE_WIDE, FAULT_1, FAULT];

/// Frames of a kind whose frames are the same in both versions but for the version.
const BOTH_VERSIONS: [&[u8]; 6] = [CREATE, INSTALL_5, INSTALL, UPDATE, CHANGE_8, REFUSED_2];

/// Each kind in both versions, with a byte more behind it.
#[test]
fn each_kind_comes_back(rt: HostRuntime) -> Result<(), Fail> {
    for frame in &ONE_VERSION {
        assert!(rt; comes_back(rt.alloc(), frame));
    }
    for frame in &BOTH_VERSIONS {
        assert!(rt; comes_back_in(rt.alloc(), frame, 1)?);
        assert!(rt; comes_back_in(rt.alloc(), frame, 2)?);
    }
    Ok(())
}

/// The same of an Ack with a time and a timeout.
#[test]
fn an_ack_comes_back(rt: HostRuntime) -> Result<(), Fail> {
    let ack = ack_frame(rt.alloc(), 8, 1)?;
    assert!(rt; comes_back_in(rt.alloc(), ack.as_slice(), 1)?);
    assert!(rt; comes_back_in(rt.alloc(), ack.as_slice(), 2)?);
    Ok(())
}

/// The same of a frame of a kind that has one form, in a version by number.
fn comes_back_in(alloc: Global, frame: &[u8], version: u8) -> Result<bool, AllocError> {
    let [kind, _, rest @ ..] = frame else {
        return Ok(false);
    };
    let mut bytes = Bytes::new(alloc);
    bytes.push(*kind)?;
    bytes.push(version)?;
    bytes.extend(rest)?;
    bytes.push(0)?;
    Ok(comes_back(alloc, bytes.as_slice()))
}

/// What the frames above say: each kind but an Install once.
fn is_said(message: &Message) -> bool {
    match message {
        Message::Create { flow, mss, cwnd } => *flow == 0 && *mss == 1448 && *cwnd == 4344,
        Message::Measure(report) => {
            let is_spanned = report.first == 0 && report.end == 1 && report.now == 0;
            let is_kept = report.cwnd == 4344 && report.rate == 0;
            is_spanned && is_kept && report.fields == Values::from_slice(&[7])
        }
        Message::Fault(notice) => {
            let is_placed = notice.kind == FaultKind::Overflow && notice.at == 0;
            is_placed && notice.index == 1 && notice.now == 5 && notice.cwnd == 4344
        }
        Message::Update { flow, values } => {
            *flow == 3 && values.len() == 1 && values.get(0) == Some((FieldReg::Cwnd, 8688))
        }
        Message::Refused {
            flow,
            reason,
            index,
        } => *flow == 0 && *reason == Reason::FlowExists && *index == 0,
        _ => false,
    }
}

/// Frames of each kind but an Install and a Change, with their versions.
const SAID: [(&[u8], Version); 5] = [
    (CREATE, Version::One),
    (MEASURE, Version::One),
    (UPDATE, Version::One),
    (FAULT, Version::Two),
    (REFUSED_2, Version::One),
];

fn is_read(alloc: Global, frame: &[u8], wanted: Version) -> bool {
    match decode(alloc, frame) {
        Ok((message, version, used)) => {
            is_said(&message) && version == wanted && used == frame.len()
        }
        Err(_) => false,
    }
}

#[test]
fn frames_are_read(rt: HostRuntime) {
    for (frame, version) in &SAID {
        assert!(rt; is_read(rt.alloc(), frame, *version), "{frame:?}");
    }
}
