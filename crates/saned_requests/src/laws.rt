//! Laws of what a request does.

ghost use Rattle.md5_auth.specs.declared.users.Entry.{Entry};
ghost use Rattle.std.specs.Prelude.{◌≡◌, ℕ, List, Option, Some};
ghost use Rattle.device_api.specs.State.{DeviceState, after_cancel};
ghost use Rattle.dispatch.specs.declared.table.place.Lease.{Lease as ALease};
ghost use Rattle.dispatch.specs.Table.{Table, TableInvariant, IsLeaseOf};
ghost use Rattle.wire_message.specs.declared.message.Request.{Request as AnyRequest};
ghost use Rattle.saned_requests.specs.declared.request_answer.RequestAnswer.{RequestAnswer as AnySaid};
ghost use Rattle.saned_requests.specs.Holding.{held_by, given_back};
ghost use Rattle.saned_requests.specs.LeaseLaws.{HoldsWell, IsElsewhere, IsIn, KeepsLeases};
ghost use Rattle.saned_requests.specs.RequestAnswers.{RequestContext, Answers, OutOfMemoryAt};
ghost use Rattle.saned_requests.specs.Laws.{EndGivesBack};

/// A request drops no lease. Each stays with its device word, or its device is in its place of the table again, cancelled. The
/// words stand for leases of the table with places of their own, and so do those of other sessions, before and after the request,
/// also where memory ran out for it.
pub fn a_request_keeps_leases()
    /// A request keeps the session's leases in order.
    ensures answered { (users : List Entry) (d new : RequestContext)
        (q : AnyRequest) (said : AnySaid) → Answers users d q said new → KeepsLeases d new }
    ensures faltered { (d new : RequestContext) (q : AnyRequest)
        → OutOfMemoryAt d q new → KeepsLeases d new }
{}

/// A session that ends gives all back: each device is in its place again, cancelled, and the leases of other sessions stay
/// leases of the table.
pub fn an_end_gives_all_back()
    /// The end of a session gives all its devices back, and leaves leases of others alone.
    ensures back { EndGivesBack }
    ensures others { (t : Table)
        (held : List (Option (ALease DeviceState))) (m : ALease DeviceState)
        → HoldsWell t held → IsElsewhere m t held → IsLeaseOf m (given_back t held) }
    ensures sound { (t : Table) (held : List (Option (ALease DeviceState)))
        → HoldsWell t held → TableInvariant (given_back t held) }
{}
