//! The lie against a job among strangers.

ghost use Rattle.worked_strangers.specs.Lies.{PictureIsNoStrangers};

use netpbm::one_picture;

#[tactic(none)]
pub fn a_picture_is_no_strangers()
    /// The smallest lie against a scan among strangers is refuted: that its file denotes another picture than its settings
    /// mean on the page of its first start.
    ensures { PictureIsNoStrangers }
{
    one_picture();
}
