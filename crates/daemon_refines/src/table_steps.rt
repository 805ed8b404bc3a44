//! Pages that are laid in, and devices that are unplugged.

ghost use Rattle.daemon_refines.specs.TableRefinement.{LoadsAgree, PagesAgree, RefusalsAgree, UnplugsAgree};

/// A device takes a page just where the model lets one be laid in, and is then as by the model, in its place as well.
#[tactic(none)]
pub fn a_load_follows_the_model()
    /// A page is taken just where the model lets one be laid in, and a device unplugged where nobody holds it.
    /// Carried by: `a_load_follows_the_model`, `an_unplug_follows_the_model`
    ensures taken { PagesAgree }
    ensures refused { RefusalsAgree }
    ensures in_its_place { LoadsAgree }
{}

/// A device is unplugged where the model lets it be, and is then listed no more.
#[tactic(none)]
pub fn an_unplug_follows_the_model()
    ensures { UnplugsAgree }
{}
