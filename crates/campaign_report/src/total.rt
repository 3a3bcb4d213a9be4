//! The total of a campaign's table: the number of its rows, and the sums of columns.
ghost use Rattle.std.specs.Prelude.{◌≡◌, ◌≤◌, ◌++◌, OnOk, length};
ghost use Rattle.ccp_base.specs.Limits.{most_cases};
ghost use Rattle.campaign_core.specs.CampaignRow.{is_summed};
ghost use Rattle.campaign_report.specs.TableText.{column_sum, sum_text, sums, total_line};

use campaign_core::{Column, Row};
use ccp_base::{Bytes, NoMemory};
use report_lines::put_labelled;
use std::alloc::Global;

/// Appends the total over all cases.
pub(crate) fn put_total(alloc: Global, text: &mut Bytes, rows: &[Row]) -> Result<(), NoMemory>
    requires { length rows.now ≤ most_cases }
    ensures { OnOk result (text.new ≡ text.old ++ total_line rows.now) }
{
    put_labelled(text, b"total cases=", rows.len() as u64)?;
    put_sums(alloc, text, Column::all(), rows)?;
    text.push(b'\n')?;
    Ok(())
}

/// Appends the sums of those columns that the total has.
fn put_sums(
    alloc: Global,
    text: &mut Bytes,
    columns: &[Column],
    rows: &[Row],
) -> Result<(), NoMemory>
    requires { length rows.now ≤ most_cases }
    ensures { OnOk result (text.new ≡ text.old ++ sums columns.now rows.now) }
{
    let mut left = columns;
    while let Some((column, rest)) = left.split_first() {
        put_sum(alloc, text, *column, rows)?;
        left = rest;
    }
    Ok(())
}

/// Appends the sum of a column with its word, if the total has it.
fn put_sum(alloc: Global, text: &mut Bytes, column: Column, rows: &[Row]) -> Result<(), NoMemory>
    requires { length rows.now ≤ most_cases }
    ensures { OnOk result (text.new ≡ text.old ++ sum_text (is_summed column) column rows.now) }
{
    if !column.is_summed() {
        return Ok(());
    }
    let heading = column.heading();
    let total = sum(rows, column);
    let piece = format!(in alloc; " {heading}={total}")?;
    text.extend(piece.as_bytes())?;
    Ok(())
}

/// The sum of a column over at most 1,024 rows.
fn sum(rows: &[Row], column: Column) -> u128
    requires { length rows.now ≤ most_cases }
    ensures { result ≡ column_sum column rows.now }
{
    let mut total: u128 = 0;
    let mut left = rows;
    while let Some((row, rest)) = left.split_first() {
        total += u128::from(column.value(row));
        left = rest;
    }
    total
}
