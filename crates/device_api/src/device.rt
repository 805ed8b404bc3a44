ghost use Rattle.std.specs.Prelude.{◌≡◌, ◌≢◌, ◌<◌, ◌≤◌, IfOk, IfErr, IsOk, OnOk, OnErr, length, true, false};
ghost use Rattle.device_api.specs.ScannerLimits.{HasLimits};
ghost use Rattle.device_api.specs.Options.{descriptors_of};
ghost use Rattle.device_api.specs.State.{DeviceState, is_at_rest, get_answer, set_answer, after_set, params_of, Starts, Reads, after_cancel, after_reset, takes_page, after_load};

use option_desc::{Descriptor, Value};
use page_picture::PageSource;
use page_sources::Source;
use sane_fixed::{ByteOrder, DeviceInfo, Info, Params, Status};
use std::alloc::Global;

/// A scanner (SANE Standard 1.06, "The SANE Application Programmer Interface").
///
/// A scanner is one plain state (what it is, its options, its pages, where a scan is). Each method of the trait `Device` is a
/// step of that state, with each refusal in its order.
/// Carried by: `Device`
///
/// A device is kind, options, pages and a phase: at rest (after a cancelled scan or not), between passes, or reading
/// a pass with so many bytes given.
/// Carried by: `DeviceState`, `Phase`
pub trait Device: Drop {
    // What it is, what its options say, its pages, and where it is in a scan.
    ghost state: { Self → DeviceState };

    /// What the scanner is. It never changes.
    fn info(&self) -> &DeviceInfo
        /// `info` and `order` never change.
        /// Carried by: `info`, `order`; `a_scanner_stays_what_it_is`
        ensures { result.now ≡ (state self.now).info };

    /// The order of the two bytes of a sample at depth 16. It never changes.
    fn order(&self) -> ByteOrder
        ensures { result ≡ (state self.now).setup.order };

    /// The options as they stand, in the order of their numbers.
    fn descriptors(&self, alloc: Global) -> Result<Vec<Descriptor>, Status>
        /// `descriptors` gives the options as they stand; its only refusal is NO_MEM.
        /// Carried by: `ok`, `err` of `descriptors`: `descriptors_of`
        ensures ok { IfOk result (λ all. all.items ≡ descriptors_of (state self.now).setup) }
        ensures err { IfErr result (λ status. status ≡ Status.NoMem) };

    /// Ends the scan, if one is under way, and puts all options to their defaults.
    fn reset(&mut self)
        /// `reset` cancels, puts all options to their defaults and keeps the pages, but for one that a feeder lets go
        /// of by the cancel.
        /// Carried by: `after` of `reset`: `after_reset`
        ensures after { state self.new ≡ after_reset (state self.old) }
        ensures limits { HasLimits (state self.new) };

    /// The value of option `n`.
    fn get(&self, alloc: Global, n: u32) -> Result<Value, Status>
        /// `get` refuses with INVAL where the number is unknown, the option is inactive or cannot be read, and with
        /// NO_MEM; it may be called during a scan.
        /// Carried by: `answer`, `memory` of `get`: `option_got`
        ensures answer { result ≢ Err Status.NoMem → result ≡ get_answer (state self.now) n }
        ensures memory { result ≡ Err Status.NoMem → IsOk (get_answer (state self.now) n) };

    /// Puts the admitted value nearest to `value` into option `n`, and answers it and what became of it.
    fn set(&mut self, alloc: Global, n: u32, value: &Value) -> Result<(Value, Info), Status>
        /// `set` refuses in this order: DEVICE_BUSY where not at rest; INVAL where the number is unknown, the option
        /// is inactive, cannot be set, or the value cannot be put; NO_MEM.
        /// Carried by: `answer`, `memory` of `set`: `set_answer`, `option_set`
        ///
        /// INEXACT stands exactly where the value in force differs from the one given.
        /// Carried by: `info_of`, `same_value`; `same_values_are_equal`
        ///
        /// RELOAD_OPTIONS stands exactly where the descriptors changed.
        /// Carried by: `info_of`, `reloads`; `reload_tells_of_changed_descriptors`
        ///
        /// RELOAD_PARAMS stands for each accepted set of an option marked so.
        /// Carried by: `info_of`, `bears_on_params`
        ensures answer { result ≢ Err Status.NoMem
            → result ≡ set_answer (state self.old) n value.now }
        ensures memory { result ≡ Err Status.NoMem
            → IsOk (set_answer (state self.old) n value.now) }
        // The option then has the value that was given.
        ensures ok { IfOk result (λ given. state self.new ≡ after_set (state self.old) n given.0) }
        /// A refused `set` changes nothing.
        ensures err { OnErr result (state self.new ≡ state self.old) };

    /// What is told of a frame.
    fn params(&self) -> Params
        /// `params` are those of the started frame until the next start or rest. At rest they are those of the first frame that a
        /// start would give; without a picture or page, their width, lines and bytes per line are 0.
        /// Carried by: `value` of `params`: `params_of`, `params_at`, `params_without`
        ensures value { result ≡ params_of (state self.now) }
        /// The limits hold in every state.
        /// Carried by: `limits` of `params` and of `reset`: `HasLimits`
        ensures limits { HasLimits (state self.now) };

    /// Begins the first frame of a scan of the first page, or the next one.
    fn start(&mut self, alloc: Global) -> Result<(), Status>
        /// `start` refuses: DEVICE_BUSY where a frame is being read, and nothing changes; NO_DOCS without a page;
        /// INVAL without a picture; NO_MEM; IO_ERROR where the source failed; after these four it is at rest.
        /// Carried by: `start`: `Starts`, `StartsOn`, `StartsFrame`
        ///
        /// A first start that is refused leaves the pages as they were.
        /// Carried by: `after_stop`; `a_refused_start_takes_no_page`
        ///
        /// A feeder lets go of the page that was scanned when it comes to rest.
        /// Carried by: `state_at_rest`, in `goes_to`, `cancelled_in` and `after_stop`
        ///
        /// Page and setup stay while a scan is under way, so each pass has those of the first start.
        /// Carried by: `a_scan_keeps_its_options_and_page` (`scan_laws`)
        ensures { Starts (state self.old) result (state self.new) };

    /// The next bytes of the frame.
    fn read(&mut self, buf: &mut [u8]) -> Result<usize, Status>
        requires { 0 < length buf.old }
        /// `read` gives at least one byte: as many as are left of the pass, the buffer holds, or `read-limit-size`
        /// lets, whichever is least.
        /// Carried by: `GivesBytes`
        ///
        /// The bytes read are a prefix of the frame's payload, if the page's source is steady.
        /// Carried by: `bytes`, `after` of `GivesBytes`
        ///
        /// EOF comes at the frame's end and only there, or where `read-return-value` says so.
        /// Carried by: `ReadsOn`, `FrameReads`
        ///
        /// IO_ERROR comes only of a source that can fail, where its failure was counted, and before the frame's last
        /// byte; or `read-return-value` says so.
        /// Carried by: `HasStopped`, `ReadsOn`, `FrameReads`
        ///
        /// The status of `read-return-value` comes at the first read of a frame, with no byte.
        /// Carried by: `read_status_at`, `FrameReads`
        ///
        /// CANCELLED comes after a cancelled scan until the next start or reset.
        /// Carried by: `ReadsIn`; `Starts`, `after_reset`
        ///
        /// INVAL comes where no frame is being read.
        /// Carried by: `ReadsIn`
        ///
        /// After the EOF of a frame that is not the last the device waits for the next start; after any other refusal
        /// that ended a frame it is at rest.
        /// Carried by: `after_pass`, `after_read_status`, `HasStopped`
        ///
        /// `read` takes no memory.
        /// Carried by: `ReadsOn`
        ensures reads { Reads (state self.old) result (state self.new) buf.new }
        // At most as many bytes were given as the buffer holds.
        ensures room { IfOk result (λ n. n ≤ length buf.new) };

    /// Ends the scan, if one is under way; a feeder then lets go of the page that was scanned.
    fn cancel(&mut self)
        /// `cancel` at rest does nothing.
        /// Carried by: `after_cancel`, `cancelled_in`
        ensures { state self.new ≡ after_cancel (state self.old) };

    /// Whether no scan is under way.
    fn at_rest(&self) -> bool
        /// `at_rest` is false from the first start that succeeds until the end of the last frame, a cancel, or a
        /// failure.
        /// Carried by: `at_rest`: `is_at_rest`; `Starts`, `after_pass`, `HasStopped`, `after_read_status`,
        /// `after_cancel`
        ensures { result ≡ is_at_rest (state self.now).phase };

    /// Puts another page in.
    fn load(&mut self, page: Source) -> Result<(), Source>
        /// `load` gives the new page back if the device is not at rest, or if a feeder has 16 pages. Else it drops the old page,
        /// or lays the new one behind a feeder's others.
        /// Carried by: `loaded`, `refused`, `ok`, `err` of `load`
        ensures loaded { takes_page (state self.old) ≡ true → IsOk result }
        ensures refused { takes_page (state self.old) ≡ false → result ≡ Err page }
        ensures ok { OnOk result (state self.new
            ≡ after_load (state self.old) (⟦<Source as PageSource>⟧.source page)) }
        ensures err { OnErr result (state self.new ≡ state self.old) };
}
