ghost use Rattle.std.specs.Prelude.{◌≡◌, IfErr, IfOk, OnOk, map};
ghost use Rattle.config_pages.specs.Devices.{AreDevicesOf, HasNoScanners, calls_of_lines};
ghost use Rattle.config_pages.specs.InputTexts.{with_calls};
ghost use Rattle.virtual_scanner.specs.Scanners.{scanner_state};

use crate::devices::{DeviceFault, scanner_of};
use crate::inputs::Inputs;
use dispatch::ConfigLine;
use sane_fixed::ByteOrder;
use std::alloc::Global;
use std::fs::File;
use thiserror::Error;
use virtual_scanner::Scanner;

/// The line of a config, by its number, that has no scanner.
#[derive(Clone, Copy, Debug, PartialEq, Eq, Error)]
#[error("config line {line}: {fault}")]
pub struct ScannerFault {
    pub line: u32,
    pub fault: DeviceFault,
}

/// That a line has no scanner.
fn fault_of(line: &ConfigLine, fault: DeviceFault) -> ScannerFault
    ensures { result ≡ record { line = line.now.line; fault = fault } }
{
    ScannerFault {
        line: line.line,
        fault,
    }
}

/// The scanners of the lines of a config, in their order. A fault names a line, and why it has none.
pub fn scanners<I: Inputs<Page = File>>(
    alloc: Global,
    inputs: &mut I,
    lines: &[ConfigLine],
    order: ByteOrder,
) -> Result<Vec<Scanner>, ScannerFault>
    /// The scanners of a config are one for each of its lines, in their order, of the line's kind. Each is new, has the line's
    /// name and gives samples in the order asked for. On it is the line's first page. A feeder's tray has all its pages in their
    /// order, each at the line's dots per inch.
    /// Carried by: `ok` of `scanners`: `AreDevicesOf`
    ensures ok { IfOk result (λ scanners.
        AreDevicesOf (I.seen inputs.old).texts order lines.now (map scanner_state scanners.items)) }
    /// The page files of these pages are asked for, each once and in their order, and nothing else is read.
    /// Carried by: `asked` of `scanners`: `calls_of_lines`
    ensures asked { OnOk result
        (I.seen inputs.new ≡ with_calls (calls_of_lines lines.now) (I.seen inputs.old)) }
    /// If there are none, the number of a line is told, and why it has none: one of its pages is not there, or memory ran out.
    /// Carried by: `fault` of `scanners`: `HasNoScanners`
    ensures fault { IfErr result
        (HasNoScanners lines.now (I.seen inputs.old) (I.seen inputs.new)) }
{
    let mut scanners = Vec::new(alloc);
    for line in lines {
        let scanner = match scanner_of(alloc, inputs, line, order) {
            Ok(scanner) => scanner,
            Err(fault) => return Err(fault_of(line, fault)),
        };
        let Ok(()) = scanners.push(scanner) else {
            return Err(fault_of(line, DeviceFault::NoMem));
        };
    }
    Ok(scanners)
}
