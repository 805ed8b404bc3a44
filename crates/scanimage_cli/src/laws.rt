ghost use Rattle.std.specs.Prelude.{◌≡◌, ◌≤◌, ℕ, List, Some};
ghost use Rattle.scanimage_cli.specs.WordCut.{split_of};
ghost use Rattle.scanimage_cli.specs.CutOptions.{IsOfTheCut};
ghost use Rattle.scanimage_cli.specs.Plans.{IsPlanOf};
ghost use Rattle.scanimage_cli.specs.Written.{CarriedOutIsWritten};
ghost use Rattle.scanimage_cli.specs.declared.planning.Location.TheVariants.{There};
ghost use Rattle.scanimage_cli.specs.declared.planning.Plan.{Plan};
ghost use Rattle.scanimage_cli.specs.declared.planning.Remote.{Remote};

/// Where words are split, each option has the value, or is the flag, that stands for it among the pieces that they are
/// cut into: none is lost on the way, and none is taken from a setting, a measure or another option's value.
pub fn options_are_those_of_the_cut()
    ensures { (words program : List (List ℕ)) (settings : List (List ℕ × List ℕ))
        → split_of words ≡ Some (program, settings) → IsOfTheCut words program }
{}

/// Of a plan that is carried out, where the outputs tell all that their calls took, the file of a scan is whole, and alone on
/// standard output or in the one file that was named, by the plan's name; those of a batch are whole, numbered from 1, and kept;
/// and nothing else was written to a file.
pub fn what_is_carried_out_is_written()
    ensures { CarriedOutIsWritten }
{}

/// A plan that asks a host asks it at a port of 1 to 65,535.
pub fn a_plan_asks_a_port()
    ensures { (words : List (List ℕ)) (plan : Plan) (remote : Remote) → IsPlanOf words plan
        → plan.location ≡ There remote → (1 ≤ remote.port) × (remote.port ≤ 65535) }
{}
