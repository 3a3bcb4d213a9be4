//! The window, the rate and the named fields of a program, as lines show them.
ghost use Rattle.std.specs.Prelude.{◌≡◌, ◌++◌, OnOk};
ghost use Rattle.report_lines.specs.FieldsText.{field_text, fields_text, window_text};

use crate::number::{put_labelled, put_number};
use ccp_base::{Bytes, NoMemory, Values};
use portus_core::Decl;

/// Appends the window, in bytes, and the rate, in bytes a second.
pub fn put_window(text: &mut Bytes, cwnd: u64, rate: u64) -> Result<(), NoMemory>
    ensures { OnOk result (text.new ≡ text.old ++ window_text cwnd rate) }
{
    put_labelled(text, b" cwnd=", cwnd)?;
    put_labelled(text, b" rate=", rate)
}

/// Appends each field with its value, in order of declaration.
pub fn put_fields(text: &mut Bytes, fields: &[Decl], values: &Values) -> Result<(), NoMemory>
    ensures { OnOk result (text.new ≡ text.old ++ fields_text fields.now values.now) }
{
    let mut left = values.as_slice();
    for decl in fields {
        let Some((value, rest)) = left.split_first() else {
            return Ok(());
        };
        put_field(text, decl, *value)?;
        left = rest;
    }
    Ok(())
}

fn put_field(text: &mut Bytes, decl: &Decl, value: u64) -> Result<(), NoMemory>
    ensures { OnOk result (text.new ≡ text.old ++ field_text decl.now value) }
{
    text.push(b' ')?;
    text.extend(decl.name.as_slice())?;
    text.push(b'=')?;
    put_number(text, value)
}
