ghost use Rattle.std.specs.Prelude.{◌≡◌, ◌≢◌, ◌⊎◌, ℕ, List, take, slice_get, Option, Some, None, Result, Ok, Err, true};
ghost use Rattle.sane_fixed.specs.declared.byte_order.ByteOrder.{ByteOrder};
ghost use Rattle.sane_fixed.specs.declared.info.Info.{Info};
ghost use Rattle.sane_fixed.specs.declared.status.Status.{Status};
ghost use Rattle.sane_fixed.specs.declared.status.Status.TheVariants.{Good, Inval, Eof};
ghost use Rattle.option_desc.specs.declared.value.Value.{Value};
ghost use Rattle.page_picture.specs.declared.scene.DeviceKind.{DeviceKind};
ghost use Rattle.page_picture.specs.Source.{SourceState};
ghost use Rattle.scan_frames.specs.Frames.{frames_of};
ghost use Rattle.scan_frames.specs.declared.setup.Setup.{Setup};
ghost use Rattle.device_api.specs.ScannerLimits.{HasLimits, IsAllowed};
ghost use Rattle.device_api.specs.State.{DeviceState, Starts, Reads, after_cancel, after_load, after_reset, after_set, page_of, set_answer, steady_of, takes_page};
ghost use Rattle.device_api.specs.Values.{defaults, option_got, option_set, setup_after};
ghost use Rattle.option_desc.specs.declared.descriptor.Descriptor.{Descriptor};
ghost use Rattle.option_desc.specs.Put.{Puts};
ghost use Rattle.device_api.specs.InForce.{Placement, in_force, may_be_set};
ghost use Rattle.device_api.specs.Options.{descriptors_of};
ghost use Rattle.scan_laws.specs.NearestSet.{GivesNearest, PutAllNearest};
ghost use Rattle.device_api.specs.OwnOptions.{IsOwn};
ghost use Rattle.scan_laws.specs.Passes.{IsInScan, BeginsFrame, EndsEmpty, EndsWhole, GivesOn, place_of};
ghost use Rattle.scan_laws.specs.Stays.{IsSameScan, IsSourceShaped};
ghost use Rattle.scan_laws.specs.SetInfo.{MayRefuseStart, TellsOfSet};
ghost use Rattle.scan_laws.specs.Laws.{RefusesOnlyWhereNoneIs, SettingsAreNearest};

/// What a set answers tells a client whether to ask for the descriptors again: they changed just where the bit
/// RELOAD_OPTIONS stands.
pub fn what_a_set_tells()
    /// A set's answer tells whether the descriptors changed.
    ensures { (s : Setup) (n : ℕ) (asked given : Value) (info : Info)
        → option_set s n asked ≡ Ok (given, info) → TellsOfSet s n asked given info }
{}

pub fn no_refusal_is_good()
    /// No scanner refuses with GOOD, and only a read with EOF.
    ensures set { (s : Setup) (n : ℕ) (asked : Value) (status : Status)
        → option_set s n asked ≡ Err status → status ≡ Inval }
    ensures get { (s : Setup) (n : ℕ) (status : Status)
        → option_got s n ≡ Err status → status ≡ Inval }
    ensures start { (s t : DeviceState) (status : Status)
        → Starts s (Err status) t → MayRefuseStart status }
    ensures read { (s t : DeviceState) (buf : List ℕ)
        → IsAllowed s.setup → Reads s (Err Good) t buf → ⊥ }
{}

pub fn limits_last()
    /// The limits of a scanner last, whatever is called.
    ensures defaults { (kind : DeviceKind) (order : ByteOrder) → IsAllowed (defaults kind order) }
    ensures set { (s : Setup) (n : ℕ) (asked given : Value) (info : Info) → IsAllowed s
        → option_set s n asked ≡ Ok (given, info) → IsAllowed (setup_after s n given) }
    ensures reset { (s : DeviceState) → HasLimits s → HasLimits (after_reset s) }
    ensures load { (s : DeviceState) (source : SourceState) → HasLimits s
        → takes_page s ≡ true → IsSourceShaped source → HasLimits (after_load s source) }
    ensures scan { (s t : DeviceState) → HasLimits s → IsSameScan s t → HasLimits t }
{}

pub fn a_scan_keeps_its_options_and_page()
    /// A scan goes on with the options and pages with which it began; a feeder lets go of the first when it is over.
    ensures start { (s t : DeviceState) (result : Result Unit Status)
        → Starts s result t → IsSameScan s t }
    ensures read { (s t : DeviceState) (result : Result ℕ Status) (buf : List ℕ)
        → Reads s result t buf → IsSameScan s t }
    ensures cancel { (s : DeviceState) → IsSameScan s (after_cancel s) }
{}

pub fn passes_are_counted()
    /// A scan's passes are counted up to its last, and a pass's bytes up to their number.
    ensures reset { (s : DeviceState) → IsInScan (after_reset s) }
    ensures cancel { (s : DeviceState) → IsInScan (after_cancel s) }
    ensures set { (s : DeviceState) (n : ℕ) (asked given : Value) (info : Info)
        → set_answer s n asked ≡ Ok (given, info) → IsInScan (after_set s n given) }
    ensures start { (s t : DeviceState) (result : Result Unit Status)
        → IsInScan s → Starts s result t → IsInScan t }
    ensures read { (s t : DeviceState) (result : Result ℕ Status) (buf : List ℕ)
        → IsInScan s → Reads s result t buf → IsInScan t }
{}

pub fn a_scan_goes_frame_by_frame()
    /// A scan goes frame by frame. A start begins the first of those to come, and reads give its bytes. Its end comes behind the
    /// last of them, or before the first if the options say so.
    ensures start { (s t : DeviceState) → IsInScan s → Starts s (Ok tt) t
        → BeginsFrame (place_of s) (frames_of s.setup (page_of s)) (place_of t) }
    ensures read { (s t : DeviceState) (n : ℕ) (buf : List ℕ) → IsInScan s → steady_of s ≡ true
        → Reads s (Ok n) t buf → GivesOn (place_of s) (take n buf) (place_of t) }
    ensures end { (s t : DeviceState) (buf : List ℕ)
        → IsInScan s → Reads s (Err Eof) t buf → EndsWhole (place_of s) (place_of t)
        ⊎ ((s.setup.told ≡ Some Eof) × EndsEmpty (place_of s) (place_of t)) }
{}

pub fn only_own_options_change()
    /// An option that a kind does not have keeps its default.
    ensures defaults { (kind : DeviceKind) (order : ByteOrder) → IsOwn (defaults kind order) }
    ensures set { (s : Setup) (n : ℕ) (given : Value) → IsOwn s → IsOwn (setup_after s n given) }
{}

/// A set gives the admitted value that is nearest to the one asked for. It refuses only if there is none, or if the option may
/// not be set. So does each setting of a job, from the options that those before it left.
pub fn what_is_given_is_nearest()
    /// A set gives the nearest admitted value, and so does each setting of a job.
    ensures given { (s : Setup) (n : ℕ) (asked given : Value) (info : Info)
        → option_set s n asked ≡ Ok (given, info) → GivesNearest s n asked given }
    ensures refused { RefusesOnlyWhereNoneIs }
    ensures settings { SettingsAreNearest }
{}
