ghost use Rattle.std.specs.Prelude.{◌≡◌, ◌≢◌, ◌↔◌, ℕ, List, Result, Ok, Err, Some, false, true, map, slice_get};
ghost use Rattle.sane_fixed.specs.declared.info.Info.{Info};
ghost use Rattle.sane_fixed.specs.declared.status.Status.{Status};
ghost use Rattle.sane_fixed.specs.declared.byte_order.ByteOrder.{ByteOrder};
ghost use Rattle.page_picture.specs.declared.scene.DeviceKind.{DeviceKind};
ghost use Rattle.page_picture.specs.Source.{SourceState};
ghost use Rattle.device_api.specs.State.{DeviceState, HeldPage, is_at_rest, after_set, after_reset, after_cancel, after_load, Starts, Reads};
ghost use Rattle.device_api.specs.declared.scan_option.ScanOption.{ScanOption};
ghost use Rattle.device_api.specs.ScannerLimits.{IsAllowed};
ghost use Rattle.device_api.specs.Same.{IsSameDevice};
ghost use Rattle.option_desc.specs.declared.descriptor.Descriptor.{Descriptor};
ghost use Rattle.option_desc.specs.declared.value.Value.{Value};
ghost use Rattle.option_desc.specs.Reads.{read_value};
ghost use Rattle.scan_frames.specs.declared.setup.Setup.{Setup};
ghost use Rattle.device_api.specs.Options.{descriptors_of};
ghost use Rattle.device_api.specs.Values.{same_value, reloads, option_got, option_set, option_value, setup_after, with_value};
ghost use Rattle.device_api.specs.InForce.{number_named, IsPlacedBy, Placement, placement, in_force};
ghost use Rattle.device_api.specs.Laws.{SettingsArePutAsTheyAreSet};

/// A law: values are told to be the same where they are equal, and only there. So `INEXACT` stands just
/// where the value in force differs from the one given.
pub fn same_values_are_equal()
    ensures { (a b : Value) → (same_value a b ≡ true) ↔ (a ≡ b) }
{}

/// A law: `RELOAD_OPTIONS` stands just where the descriptors of a scanner changed.
pub fn reload_tells_of_changed_descriptors()
    ensures { (s t : Setup) → t.scene.kind ≡ s.scene.kind
        → (reloads s t ≡ false) ↔ (descriptors_of s ≡ descriptors_of t) }
{}

/// A law: a setting that finds its option and reads as a value is put as a `set` of that option answers,
/// and not put where that refuses. So the setups of a job's settings in force are those that one `set`
/// after another leaves.
pub fn settings_are_put_as_they_are_set()
    /// Settings in force are what one set after another leaves, and are allowed.
    /// Carried by: `settings_are_put_as_they_are_set`, `settings_in_force_are_allowed`
    ensures { SettingsArePutAsTheyAreSet }
{}

/// A law: no call changes what a scanner is, its kind or its byte order.
pub fn a_scanner_stays_what_it_is()
    /// No step changes what a scanner is.
    ensures set { (s : DeviceState) (n : ℕ) (given : Value) → IsSameDevice s (after_set s n given) }
    ensures reset { (s : DeviceState) → IsSameDevice s (after_reset s) }
    ensures cancel { (s : DeviceState) → IsSameDevice s (after_cancel s) }
    ensures load { (s : DeviceState) (source : SourceState) → IsSameDevice s (after_load s source) }
    ensures start { (s t : DeviceState) (result : Result Unit Status)
        → Starts s result t → IsSameDevice s t }
    ensures read { (s t : DeviceState) (result : Result ℕ Status) (buf : List ℕ)
        → Reads s result t buf → IsSameDevice s t }
{}

/// A law: a first start that is refused leaves all pages where they are.
pub fn a_refused_start_takes_no_page()
    ensures { (s t : DeviceState) (status : Status) → is_at_rest s.phase ≡ true
        → Starts s (Err status) t → map (λ (held : HeldPage). held.page) t.pages
        ≡ map (λ (held : HeldPage). held.page) s.pages }
{}

/// A law: what a set gave, a get gives.
pub fn what_is_set_is_read()
    /// A get reads what was set, and no other option changes.
    /// Carried by: `what_is_set_is_read`, `a_set_changes_one_option`, `get_option`
    ensures { (s : Setup) (n : ℕ) (asked given : Value) (info : Info) → option_set s n asked
        ≡ Ok (given, info) → option_got (setup_after s n given) n ≡ Ok given }
{}

/// A law: a value that is put into an option leaves the values of all others.
pub fn a_set_changes_one_option()
    ensures { (s : Setup) (option other : ScanOption) (value : Value)
        → option ≢ other → option_value (with_value s option value) other ≡ option_value s other }
{}

/// A law: what the settings of a job in force say stays within the limits of the options.
pub fn settings_in_force_are_allowed()
    ensures { (kind : DeviceKind)
        (order : ByteOrder) (settings : List (List ℕ × List ℕ)) (forced : Setup × List Placement)
        → in_force kind order settings ≡ Some forced → IsAllowed forced.0 }
{}
