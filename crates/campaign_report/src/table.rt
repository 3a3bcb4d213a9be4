//! The table of a campaign, a line for each case and the total, and the total of a generated campaign.
ghost use Rattle.std.specs.Prelude.{◌≡◌, ◌≤◌, ◌++◌, IfOk, OnOk, length, map};
ghost use Rattle.ccp_base.specs.Limits.{most_cases};
ghost use Rattle.campaign_report.specs.TableText.{after_space, heading, headings, row_head, row_line, row_lines, soak_head, soak_text};
ghost use Rattle.campaign_report.specs.TableText.{labelled_table, own_table_text, table_text, values};

use crate::total::put_total;
use agent_core::Agent;
use campaign_core::{Column, Row, Rows};
use ccp_base::{Bytes, Name, Names, NoMemory, Sequence};
use live_lines::{Label, Own};
use report_lines::{put_labelled, put_number};
use std::alloc::Global;

/// The agents of cases, in order.
pub type Agents = Sequence<Agent>;

/// The table of a campaign: a heading, a line for each case with its name, its agent and its row, and the total over
/// all cases. The three lists have one length, of at most 1,024 cases.
pub fn table_text(
    alloc: Global,
    names: &Names,
    agents: &Agents,
    rows: &Rows,
) -> Result<Bytes, NoMemory>
    requires within { length rows.now ≤ most_cases }
    requires names { length names.now ≡ length rows.now }
    requires agents { length agents.now ≡ length rows.now }
    ensures { IfOk result (λ text. text ≡ table_text names.now agents.now rows.now) }
{
    labelled_table(alloc, names.as_slice(), agents.as_slice(), rows.as_slice())
}

/// The most cases of a table.
const CASES: usize = 1024;

/// The table of flows that agents outside drive, with `own` as the agent of each. The two lists have one length, of at
/// most 1,024 cases.
pub fn own_table_text(alloc: Global, names: &Names, rows: &Rows) -> Result<Bytes, NoMemory>
    requires within { length rows.now ≤ most_cases }
    requires names { length names.now ≡ length rows.now }
    ensures { IfOk result (λ text. text ≡ own_table_text names.now rows.now) }
{
    let owns = [Own; CASES];
    table_of_owns(
        alloc,
        names.as_slice(),
        &owns[..rows.len()],
        rows.as_slice(),
    )
}

// A function of its own: its proof has the labels as an argument, of which only the length matters.
/// The table of at most 1,024 rows, with a label for each.
fn table_of_owns(
    alloc: Global,
    names: &[Name],
    owns: &[Own],
    rows: &[Row],
) -> Result<Bytes, NoMemory>
    requires within { length rows.now ≤ most_cases }
    requires owns { length owns.now ≡ length rows.now }
    ensures { IfOk result (λ text. text ≡ own_table_text names.now rows.now) }
{
    labelled_table(alloc, names, owns, rows)
}

/// The table of at most 1,024 rows, whose cases have these names and whose agents the words of these labels.
fn labelled_table<L: Label>(
    alloc: Global,
    names: &[Name],
    labels: &[L],
    rows: &[Row],
) -> Result<Bytes, NoMemory>
    requires { length rows.now ≤ most_cases }
    ensures { IfOk result (λ text. text ≡ labelled_table names.now (map L.word labels.now) rows.now) }
{
    let mut text = Bytes::new(alloc);
    put_heading(&mut text, Column::all())?;
    put_rows(&mut text, rows, names, labels)?;
    put_total(alloc, &mut text, rows)?;
    Ok(text)
}

/// The total of a generated campaign of at most 1,024 cases, after the campaign's number.
pub fn soak_text(alloc: Global, number: u32, rows: &Rows) -> Result<Bytes, NoMemory>
    requires { length rows.now ≤ most_cases }
    ensures { IfOk result (λ text. text ≡ soak_text number rows.now) }
{
    let mut text = soak_head(alloc, number)?;
    put_total(alloc, &mut text, rows.as_slice())?;
    Ok(text)
}

fn soak_head(alloc: Global, number: u32) -> Result<Bytes, NoMemory>
    ensures { IfOk result (λ text. text ≡ soak_head number) }
{
    let mut text = Bytes::new(alloc);
    put_labelled(&mut text, b"soak number=", u64::from(number))?;
    text.push(b'\n')?;
    Ok(text)
}

fn put_heading(text: &mut Bytes, columns: &[Column]) -> Result<(), NoMemory>
    ensures { OnOk result (text.new ≡ text.old ++ heading columns.now) }
{
    text.extend(b"case agent")?;
    put_headings(text, columns)?;
    text.push(b'\n')?;
    Ok(())
}

/// Appends the words above columns, each after a space.
fn put_headings(text: &mut Bytes, columns: &[Column]) -> Result<(), NoMemory>
    ensures { OnOk result (text.new ≡ text.old ++ headings columns.now) }
{
    let mut left = columns;
    while let Some((column, rest)) = left.split_first() {
        text.push(b' ')?;
        text.extend(column.heading().as_bytes())?;
        left = rest;
    }
    Ok(())
}

fn put_rows<L: Label>(
    text: &mut Bytes,
    rows: &[Row],
    names: &[Name],
    labels: &[L],
) -> Result<(), NoMemory>
    ensures { OnOk result (text.new ≡ text.old ++ row_lines rows.now names.now (map L.word labels.now)) }
{
    let mut left = rows;
    let mut left_names = names;
    let mut left_labels = labels;
    while let Some((row, rest)) = left.split_first() {
        let Some((name, rest_names)) = left_names.split_first() else {
            return Ok(());
        };
        let Some((label, rest_labels)) = left_labels.split_first() else {
            return Ok(());
        };
        put_row(text, name, label.label(), row)?;
        left = rest;
        left_names = rest_names;
        left_labels = rest_labels;
    }
    Ok(())
}

fn put_row(text: &mut Bytes, name: &Name, label: &str, row: &Row) -> Result<(), NoMemory>
    ensures { OnOk result (text.new ≡ text.old ++ row_line name.now label.now row.entry.now) }
{
    put_row_head(text, name, label)?;
    put_values(text, Column::all(), row)?;
    text.push(b'\n')?;
    Ok(())
}

fn put_row_head(text: &mut Bytes, name: &Name, label: &str) -> Result<(), NoMemory>
    ensures { OnOk result (text.new ≡ text.old ++ row_head name.now label.now) }
{
    text.extend(name.as_slice())?;
    text.push(b' ')?;
    text.extend(label.as_bytes())?;
    Ok(())
}

/// Appends a row's numbers in columns, each after a space.
fn put_values(text: &mut Bytes, columns: &[Column], row: &Row) -> Result<(), NoMemory>
    ensures { OnOk result (text.new ≡ text.old ++ values columns.now row.entry.now) }
{
    let mut left = columns;
    while let Some((column, rest)) = left.split_first() {
        put_after_space(text, column.value(row))?;
        left = rest;
    }
    Ok(())
}

fn put_after_space(text: &mut Bytes, number: u64) -> Result<(), NoMemory>
    ensures { OnOk result (text.new ≡ text.old ++ after_space number) }
{
    text.push(b' ')?;
    put_number(text, number)
}
