ghost use Rattle.std.specs.Prelude.{◌≡◌, [], IfOk};
ghost use Rattle.scanimage_cli.specs.Printing.{printed_table};

use crate::device_listing::device_list;
use crate::option_table::options_table;
use crate::rounding::rounded_lines;
use sane_fixed::NoMem;
use scan_job::{Reports, Task};
use std::alloc::Global;

/// What a job that is done prints.
#[derive(Drop)]
pub struct Printout {
    /// The table of options or the list of devices, for a job that shows or lists them: on standard output.
    pub table: Vec<u8>,
    /// A line for each setting that was rounded: on standard error.
    pub rounded: Vec<u8>,
}

/// The list or the table that a job with these reports prints.
fn printed_table(
    alloc: Global,
    prefix: &[u8],
    device: &[u8],
    task: Task,
    reports: &Reports,
) -> Result<Vec<u8>, NoMem>
    ensures { IfOk result (λ table. table.items
        ≡ printed_table task prefix.now device.now reports.now) }
{
    match task {
        Task::List => device_list(alloc, prefix, reports.devices.as_slice()),
        Task::Show => options_table(alloc, device, reports.options.as_slice()),
        Task::SetOnly | Task::Scan | Task::Batch(_) => Ok(Vec::new(alloc)),
    }
}

impl Printout {
    ghost use Rattle.std.specs.Prelude.{IfOk};
    ghost use Rattle.scanimage_cli.specs.Printing.{Prints};

    /// What a job of that task prints, on the device of that name, with these reports; the prefix stands before the names of
    /// the devices that it lists. The only error is out of memory.
    pub fn of(
        alloc: Global,
        prefix: &[u8],
        device: &[u8],
        task: Task,
        reports: &Reports,
    ) -> Result<Printout, NoMem>
        ensures { IfOk result (Prints task prefix.now device.now reports.now) }
    {
        let table = printed_table(alloc, prefix, device, task, reports)?;
        let rounded = rounded_lines(alloc, reports.settings.as_slice())?;
        Ok(Printout { table, rounded })
    }
}
