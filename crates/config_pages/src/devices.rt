ghost use Rattle.std.specs.Prelude.{◌≡◌, IfErr, IfOk, OnOk, OnErr, false, map, true};
ghost use Rattle.page_sources.specs.SourceView.{source_state};
ghost use Rattle.device_api.specs.Kinds.{is_feeder};
ghost use Rattle.dispatch.specs.ConfigLines.{device_name};
ghost use Rattle.config_pages.specs.Devices.{HasFirstPage, HasNoScanner, HasPageSources, IsDeviceOfKind, IsFeederOfLine, IsScannerOfLine, device_fault, pages_of_line};
ghost use Rattle.config_pages.specs.InputTexts.{with_calls};
ghost use Rattle.config_pages.specs.Pages.{HasNoPage, IsPageOfText, calls_of_page, calls_of_pages};
ghost use Rattle.virtual_scanner.specs.Scanners.{scanner_state};

use crate::inputs::Inputs;
use crate::no_page::{NoPage, PageSourceFault};
use crate::opening::page_source;
use dispatch::ConfigLine;
use page_picture::DeviceKind;
use page_sources::Source;
use sane_fixed::{ByteOrder, NoMem, Text};
use std::alloc::Global;
use std::fs::File;
use thiserror::Error;
use virtual_scanner::{Scanner, TRAY_ROOM, VirtualScanner};

/// Why there is no scanner for a line of a config.
#[derive(Clone, Copy, Debug, PartialEq, Eq, Error)]
pub enum DeviceFault {
    /// A page of it is not there.
    #[error("{0}")]
    NoPage(NoPage),
    #[error("out of memory")]
    NoMem,
}

/// Why there is no scanner for a line of which a page has no source.
fn device_fault(why: PageSourceFault) -> DeviceFault
    ensures { result ≡ device_fault why }
{
    match why {
        PageSourceFault::NoMem => DeviceFault::NoMem,
        PageSourceFault::NoPage(why) => DeviceFault::NoPage(why),
        // The dots per inch of a config are 1 to 1,200.
        PageSourceFault::BadDpi => DeviceFault::NoPage(NoPage::CannotRead),
    }
}

/// The name of the device of a config line.
fn name(alloc: Global, line: &ConfigLine) -> Result<Text, DeviceFault>
    ensures named { IfOk result (λ name. name ≡ device_name line.now.kind line.now.index) }
    ensures memory { IfErr result (λ fault. fault ≡ DeviceFault.NoMem) }
{
    line.name(alloc).map_err(|_| DeviceFault::NoMem)
}

/// The first page of a config line that is no feeder's.
fn first_page<I: Inputs<Page = File>>(
    alloc: Global,
    inputs: &mut I,
    line: &ConfigLine,
) -> Result<Source, DeviceFault>
    requires { is_feeder line.now.kind ≡ false }
    ensures page { IfOk result (λ source.
        HasFirstPage (I.seen inputs.old).texts line.now (source_state source)) }
    ensures asked { OnOk result (I.seen inputs.new
        ≡ with_calls (calls_of_pages (pages_of_line line.now)) (I.seen inputs.old)) }
    ensures fault { IfErr result
        (HasNoScanner line.now (I.seen inputs.old) (I.seen inputs.new)) }
{
    // A config has one page for each device that is no feeder.
    match line.pages.first() {
        Some(text) => match page_source(alloc, inputs, text.as_bytes(), line.dpi) {
            Ok(source) => Ok(source),
            Err(why) => Err(device_fault(why)),
        },
        None => Err(DeviceFault::NoPage(NoPage::CannotRead)),
    }
}

/// The pages of a config line, in their order.
fn pages<I: Inputs<Page = File>>(
    alloc: Global,
    inputs: &mut I,
    line: &ConfigLine,
) -> Result<Vec<Source>, DeviceFault>
    requires { is_feeder line.now.kind ≡ true }
    ensures pages { IfOk result (λ sources.
        HasPageSources (I.seen inputs.old).texts line.now (map source_state sources.items)) }
    ensures asked { OnOk result (I.seen inputs.new
        ≡ with_calls (calls_of_pages (pages_of_line line.now)) (I.seen inputs.old)) }
    ensures fault { IfErr result
        (HasNoScanner line.now (I.seen inputs.old) (I.seen inputs.new)) }
{
    let mut sources = Vec::new(alloc);
    for text in &line.pages {
        let source = match page_source(alloc, inputs, text.as_bytes(), line.dpi) {
            Ok(source) => source,
            Err(why) => return Err(device_fault(why)),
        };
        if sources.push(source).is_err() {
            return Err(DeviceFault::NoMem);
        }
    }
    Ok(sources)
}

/// A scanner of that kind, new, on the first page of a config line.
fn on_first_page<I: Inputs<Page = File>>(
    alloc: Global,
    inputs: &mut I,
    line: &ConfigLine,
    order: ByteOrder,
) -> Result<VirtualScanner, DeviceFault>
    requires { is_feeder line.now.kind ≡ false }
    ensures scanner { IfOk result
        (IsScannerOfLine (I.seen inputs.old).texts line.now.kind line.now order) }
    ensures asked { OnOk result (I.seen inputs.new
        ≡ with_calls (calls_of_pages (pages_of_line line.now)) (I.seen inputs.old)) }
    ensures fault { IfErr result
        (HasNoScanner line.now (I.seen inputs.old) (I.seen inputs.new)) }
{
    let source = first_page(alloc, inputs, line)?;
    match VirtualScanner::new(alloc, line.kind, name(alloc, line)?, source, order) {
        Ok(scanner) => Ok(scanner),
        Err(_) => Err(DeviceFault::NoMem),
    }
}

/// A feeder, new, with all pages of a config line in its tray.
fn feeder<I: Inputs<Page = File>>(
    alloc: Global,
    inputs: &mut I,
    line: &ConfigLine,
    order: ByteOrder,
) -> Result<VirtualScanner, DeviceFault>
    requires { is_feeder line.now.kind ≡ true }
    ensures feeder { IfOk result (IsFeederOfLine (I.seen inputs.old).texts line.now order) }
    ensures asked { OnOk result (I.seen inputs.new
        ≡ with_calls (calls_of_pages (pages_of_line line.now)) (I.seen inputs.old)) }
    ensures fault { IfErr result
        (HasNoScanner line.now (I.seen inputs.old) (I.seen inputs.new)) }
{
    let sources = pages(alloc, inputs, line)?;
    // A line of a config has no more.
    if sources.len() > TRAY_ROOM {
        return Err(DeviceFault::NoMem);
    }
    match VirtualScanner::feeder(alloc, name(alloc, line)?, sources, order) {
        Ok(scanner) => Ok(scanner),
        Err(_) => Err(DeviceFault::NoMem),
    }
}

/// The scanner of a config line, of the line's kind.
fn device_of<I: Inputs<Page = File>>(
    alloc: Global,
    inputs: &mut I,
    line: &ConfigLine,
    order: ByteOrder,
) -> Result<VirtualScanner, DeviceFault>
    ensures device { IfOk result
        (IsDeviceOfKind (I.seen inputs.old).texts line.now.kind line.now order) }
    ensures asked { OnOk result (I.seen inputs.new
        ≡ with_calls (calls_of_pages (pages_of_line line.now)) (I.seen inputs.old)) }
    ensures fault { IfErr result
        (HasNoScanner line.now (I.seen inputs.old) (I.seen inputs.new)) }
{
    match line.kind {
        DeviceKind::Flatbed | DeviceKind::Hand | DeviceKind::ThreePass => {
            on_first_page(alloc, inputs, line, order)
        }
        DeviceKind::Feeder => feeder(alloc, inputs, line, order),
    }
}

/// The scanner of a config line, of the line's kind, behind a pointer.
pub(crate) fn scanner_of<I: Inputs<Page = File>>(
    alloc: Global,
    inputs: &mut I,
    line: &ConfigLine,
    order: ByteOrder,
) -> Result<Scanner, DeviceFault>
    ensures device { IfOk result (λ scanner. IsDeviceOfKind
        (I.seen inputs.old).texts line.now.kind line.now order (scanner_state scanner)) }
    ensures asked { OnOk result (I.seen inputs.new
        ≡ with_calls (calls_of_pages (pages_of_line line.now)) (I.seen inputs.old)) }
    ensures fault { IfErr result
        (HasNoScanner line.now (I.seen inputs.old) (I.seen inputs.new)) }
{
    let device = device_of(alloc, inputs, line, order)?;
    match Scanner::new(alloc, device) {
        Ok(scanner) => Ok(scanner),
        Err(NoMem) => Err(DeviceFault::NoMem),
    }
}
