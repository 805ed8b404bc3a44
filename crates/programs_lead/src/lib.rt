//! That the contracts of both programs, where each ended with exit status 0 and they acted together, lead into the law on loops: so
//! the file of a scan is the one that the words of its command line mean on a page of saned's config.
#![tactic(auto)]

ghost use Rattle.programs_lead.specs.ExitLaws.{ExitsInterleave, ExitsLead, ExitsScan, LinesArePages, WellAtHostsAreExits};

use programs_refine::{programs_keep_all_among_strangers, runs_are_among_strangers};

#[tactic(none)]
pub fn exits_at_hosts()
    /// Where scanimage's contract says that exit status 0 came of words whose device is at a host, its job was done there, as
    /// `NetExit` has it.
    ensures { WellAtHostsAreExits }
{}

#[tactic(none)]
pub fn exits_interleave()
    /// Take one order of what a daemon and scans at hosts did, each of which ended with exit status 0 by its contract. In it the
    /// journal of the server and the loops of jobs are interleaved.
    /// Carried by: `exits_interleave`: `ActTogether`, `Interleaves`
    ensures { ExitsInterleave }
{}

#[tactic(none)]
pub fn exits_lead()
    /// So if their connections hand on what they are given, all that a world promises is told of each of these scans, over the
    /// scanners of the daemon's config, whatever strangers say to the daemon.
    /// Carried by: `exits_lead`: `AreConnected`, `AllLoopsAreToldAmong`
    ensures { ExitsLead }
{
    exits_interleave();
    runs_are_among_strangers();
    programs_keep_all_among_strangers();
}

/// THE HEADLINE, OF BOTH PROGRAMS' CONTRACTS.
#[tactic(none)]
pub fn exits_scan()
    /// Exit status 0 of a scan at a host, and of the daemon there, say this if both acted together and their connections hand on.
    /// The scan's output took exactly the file of the picture that the words' settings mean on a page of the scanner of that name in
    /// saned's config, if each page of that scanner is steady.
    /// Carried by: `exits_scan`: `IsPictureOf`, `TookAt`
    ensures { ExitsScan }
{
    exits_lead();
}

#[tactic(none)]
pub fn lines_are_pages()
    /// A scanner whose line in saned's config has one page, as `hex:` and the digits of a page file, has the page of that file
    /// alone, and it is steady.
    ensures { LinesArePages }
{}
