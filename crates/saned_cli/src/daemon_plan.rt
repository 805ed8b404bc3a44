//! What the words of a command line have the daemon do, as a plain value.
ghost use Rattle.std.specs.Prelude.{IfErr, IfNone, IfOk, IfSome, map, option_map, string_bytes};
ghost use Rattle.saned_cli.specs.DaemonPlans.{HasBadSeed, IsDaemonPlanOf, IsDaemonPlanRefusal, IsSeedOf};

use crate::daemon_ending::DaemonEnding;
use crate::daemon_options::{DaemonOptions, DaemonOptionsFault, read_options};
use crate::seed::read_seed;
use std::alloc::Global;

/// The options of the command line, and the seed that they say.
#[derive(Drop)]
pub struct DaemonPlan {
    pub options: DaemonOptions,
    pub seed: [u8; 32],
}

/// The seed of the options; 32 bytes 0 where there is none.
fn seed_of(options: &DaemonOptions) -> Option<[u8; 32]>
    ensures some { IfSome result (IsSeedOf (option_map string_bytes options.now.seed)) }
    ensures none { IfNone result (HasBadSeed (option_map string_bytes options.now.seed)) }
{
    match &options.seed {
        None => Some([0; 32]),
        Some(text) => read_seed(text.as_bytes()),
    }
}

/// The plan of the words of a command line, of which the first is the program's name. `BadCommandLine` where there are no options,
/// then `BadSeed` just where the seed that they say is not 64 hexadecimal digits.
pub fn plan_of(alloc: Global, words: &[String]) -> Result<DaemonPlan, DaemonEnding>
    /// The words alone decide the plan: the options are those of the words, and the seed is the one that they say, or 32 bytes 0
    /// if they say none.
    /// Carried by: `planned`, `refused` of `plan_of`
    ensures planned { IfOk result (IsDaemonPlanOf (map string_bytes words.now)) }
    ensures refused { IfErr result (IsDaemonPlanRefusal (map string_bytes words.now)) }
{
    let options = match read_options(alloc, words) {
        Ok(options) => options,
        Err(fault) => return Err(DaemonEnding::of_options(fault)),
    };
    match seed_of(&options) {
        Some(seed) => Ok(DaemonPlan { options, seed }),
        None => Err(DaemonEnding::BadSeed),
    }
}
