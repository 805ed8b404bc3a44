ghost use Rattle.std.specs.Prelude.{◌≡◌, ◌++◌, [], IfOk, OnOk};
ghost use Rattle.scanimage_cli.specs.Rounding.{is_rounded};
ghost use Rattle.scanimage_cli.specs.RoundedLines.{rounded_line, report_line, reported_option, rounded_text};

use crate::pieces::add_all;
use option_desc::{Constraint, Descriptor, show_text};
use sane_fixed::{Cap, Info, NoMem, Text, Unit};
use scan_job::Report;
use std::alloc::Global;

/// Whether a setting was given another value than it asked for.
fn is_rounded(report: &Report) -> bool
    ensures { result ≡ is_rounded report.now }
{
    report.info.0 / Info::INEXACT % 2 == 1
}

/// Adds the line of a setting that was given another value than it asked for.
fn add_rounded(
    alloc: Global,
    lines: &mut Vec<u8>,
    report: &Report,
    desc: &Descriptor,
) -> Result<(), NoMem>
    ensures { OnOk result (lines.new.items ≡ lines.old.items ++ rounded_line report.now desc.now) }
{
    let asked = show_text(alloc, desc, &report.asked)?;
    let given = show_text(alloc, desc, &report.given)?;
    add_all(
        lines,
        &[
            b"scanimage: rounded value of ",
            report.name.as_bytes(),
            b" from ",
            asked.as_bytes(),
            b" to ",
            given.as_bytes(),
            b"\n",
        ],
    )
}

/// An option that has the name and the kind of what a report is of, and no more.
fn reported_option(alloc: Global, report: &Report) -> Result<Descriptor, NoMem>
    ensures { IfOk result (λ desc. desc ≡ reported_option report.now) }
{
    Ok(Descriptor {
        name: report.name.try_clone(alloc)?,
        title: no_text(alloc)?,
        about: no_text(alloc)?,
        kind: report.kind,
        unit: Unit::None,
        size: 4,
        caps: Cap(Cap::SOFT_SELECT),
        constraint: Constraint::Free,
    })
}

fn no_text(alloc: Global) -> Result<Text, NoMem>
    ensures { IfOk result (λ text. text ≡ []) }
{
    Text::new(alloc, b"").map_err(|_| NoMem)
}

/// Adds the line of a report, where its setting was rounded.
fn add_report(alloc: Global, lines: &mut Vec<u8>, report: &Report) -> Result<(), NoMem>
    ensures { OnOk result (lines.new.items ≡ lines.old.items ++ report_line report.now) }
{
    if !is_rounded(report) {
        return Ok(());
    }
    let desc = reported_option(alloc, report)?;
    add_rounded(alloc, lines, report, &desc)
}

/// A line for each setting that was given another value than it asked for. The only error is out of memory.
pub fn rounded_lines(alloc: Global, reports: &[Report]) -> Result<Vec<u8>, NoMem>
    /// The text of the lines of rounded values.
    ensures { IfOk result (λ lines. lines.items ≡ rounded_text reports.now) }
{
    let mut lines = Vec::new(alloc);
    for report in reports {
        add_report(alloc, &mut lines, report)?;
    }
    Ok(lines)
}
