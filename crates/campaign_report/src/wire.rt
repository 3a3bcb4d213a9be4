//! Programs' Install frames in hexadecimal, each of the version that its number of fields needs.
ghost use Rattle.std.specs.Prelude.{◌≡◌, ◌++◌, IfOk, OnOk, length};
ghost use Rattle.ccp_messages.specs.Messages.{Meets, frame_bytes};
ghost use Rattle.ccp_messages.specs.declared.message.Message.TheVariants.{Install};
ghost use Rattle.campaign_report.specs.WireText.{hex_line, install_frame, install_head, install_line, version_for};
ghost use Rattle.campaign_report.specs.WireText.{wire_text};

use ccp_base::{Bytes, NoMemory};
use ccp_messages::{Message, Short, Version, encode_into};
use reg_compiler::{Built, Builts};
use std::alloc::Global;

/// The most fields of a program whose Install has version 1.
const SHORT_FIELDS: usize = 32;

/// The text of the frames that install programs: for each, in order, its number and the hexadecimal digits of its
/// Install for flow 0. The frame has version 1 if the program has at most 32 fields, and version 2 otherwise.
pub fn wire_text(alloc: Global, programs: &Builts) -> Result<Bytes, NoMemory>
    ensures { IfOk result (λ text. text ≡ wire_text programs.now) }
{
    let mut text = Bytes::new(alloc);
    put_installs(alloc, &mut text, programs.as_slice())?;
    Ok(text)
}

fn put_installs(alloc: Global, text: &mut Bytes, programs: &[(u32, Built)]) -> Result<(), NoMemory>
    ensures { OnOk result (text.new ≡ text.old ++ wire_text programs.now) }
{
    let mut left = programs;
    while let Some((program, rest)) = left.split_first() {
        put_install(alloc, text, program.0, &program.1)?;
        left = rest;
    }
    Ok(())
}

fn put_install(alloc: Global, text: &mut Bytes, number: u32, built: &Built) -> Result<(), NoMemory>
    ensures { OnOk result (text.new ≡ text.old ++ install_line number built.now) }
{
    put_head(alloc, text, number)?;
    let frame = install_frame(alloc, number, built)?;
    put_digits(alloc, text, frame.as_slice())?;
    Ok(())
}

fn put_head(alloc: Global, text: &mut Bytes, number: u32) -> Result<(), NoMemory>
    ensures { OnOk result (text.new ≡ text.old ++ install_head number) }
{
    let head = format!(in alloc; "install {number} ")?;
    text.extend(head.as_bytes())?;
    Ok(())
}

fn put_digits(alloc: Global, text: &mut Bytes, bytes: &[u8]) -> Result<(), NoMemory>
    ensures { OnOk result (text.new ≡ text.old ++ hex_line bytes.now) }
{
    let digits = hex::encode(alloc, bytes)?;
    text.extend(digits.as_bytes())?;
    text.push(b'\n')?;
    Ok(())
}

fn install_frame(alloc: Global, number: u32, built: &Built) -> Result<Bytes, NoMemory>
    ensures { IfOk result (λ frame. frame ≡ install_frame number built.now) }
{
    let message = Message::Install {
        flow: 0,
        program: number,
        code: built.code.code().copy(alloc)?,
    };
    frame_of(alloc, &message, version_for(built.program.fields.len()))
}

fn version_for(fields: usize) -> Version
    ensures { result ≡ version_for fields }
{
    if fields > SHORT_FIELDS {
        Version::Two
    } else {
        Version::One
    }
}

/// The message's one frame of this version.
fn frame_of(alloc: Global, message: &Message, version: Version) -> Result<Bytes, NoMemory>
    requires { Meets version message.now }
    ensures { IfOk result (λ frame. frame ≡ frame_bytes version message.now) }
{
    let mut bytes = vec![in alloc; 0u8; frame_size(message, version)]?;
    let Ok(_) = encode_into(message, version, bytes.as_mut_slice()) else {
        unreachable!()
    };
    Ok(Bytes::from_vec(bytes))
}

/// The length of a message's frame, in bytes.
fn frame_size(message: &Message, version: Version) -> usize
    requires { Meets version message.now }
    ensures { result ≡ length (frame_bytes version message.now) }
{
    match encode_into(message, version, &mut []) {
        Ok(size) | Err(Short(size)) => size,
    }
}
