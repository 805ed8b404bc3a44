//! Lines on standard error.
ghost use Rattle.worked_programs.specs.BadLine.{BadLineIsTold, IsNeverDone, bad_config};
ghost use Rattle.worked_programs.specs.DemoDot.{demo_config, demo_words};
ghost use Rattle.worked_programs.specs.MissingDevice.{MissingIsTold, missing_words};
ghost use Rattle.worked_programs.specs.RoundedSetting.{RoundedIsMissed, RoundedIsTold};
ghost use Rattle.worked_programs.specs.StrayWord.{StrayIsNeverDone, StrayIsRefused};

/// The second line of a config is bad.
#[tactic(none)]
pub fn a_bad_second_line_is_told()
    /// Of a config whose second line has 0 dots per inch nothing is done.
    /// Carried by: `never` of `a_bad_second_line_is_told`: `IsNeverDone`
    ensures never { IsNeverDone demo_words bad_config }
    /// Where it was read, scanimage ends with 65, and tells `scanimage: config line 2: bad dpi`, or no memory for line 1.
    /// Carried by: `told` of `a_bad_second_line_is_told`: `BadLineIsTold`
    ensures told { BadLineIsTold }
{}

/// A device is named that the config does not have.
#[tactic(none)]
pub fn a_missing_device_is_told()
    /// With `-d hand:7` nothing is done of the config of `make demo`, which has a flatbed alone.
    /// Carried by: `never` of `a_missing_device_is_told`: `IsNeverDone`
    ensures never { IsNeverDone missing_words demo_config }
    /// Where it was read, scanimage ends with 4, and tells `scanimage: SANE_STATUS_INVAL (setting)`; or it lacked memory.
    /// Carried by: `told` of `a_missing_device_is_told`: `MissingIsTold`
    ensures told { MissingIsTold }
{}

/// A setting is given another value than it asked for.
#[tactic(none)]
pub fn a_rounded_setting_is_told()
    /// With `--resolution 5000 -n` scanimage tells `scanimage: rounded value of resolution from 5000 to 1200`, where it ends with 0
    /// and no output failed. Standard output took nothing.
    /// Carried by: `well` of `a_rounded_setting_is_told`: `RoundedIsTold`
    ensures well { RoundedIsTold }
    /// Otherwise it ends with 10, 65 or 9, and tells why.
    /// Carried by: `otherwise` of `a_rounded_setting_is_told`: `RoundedIsMissed`
    ensures otherwise { RoundedIsMissed }
{}

/// A word is no option.
#[tactic(none)]
pub fn a_stray_word_is_refused()
    /// Of the words `--config - stray` nothing is ever done.
    /// Carried by: `never` of `a_stray_word_is_refused`: `StrayIsNeverDone`
    ensures never { StrayIsNeverDone }
    /// Scanimage ends with 64, and tells `scanimage: bad command line`, or with 10. Nothing was read, nor anything else written.
    /// Carried by: `told` of `a_stray_word_is_refused`: `StrayIsRefused`
    ensures told { StrayIsRefused }
{}
