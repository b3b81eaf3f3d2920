// A plan's route and the line of it: where its minutes go is asked of the cost of a given walk (document 02, request 5).
ghost use Rattle.std.specs.Prelude.{◌≤◌, ℕ, List, length, IfOk};
ghost use Rattle.sheet.specs.Line.{line};
ghost use Rattle.sheet.specs.steps.Planning.{Found};
ghost use Rattle.sheet.specs.steps.Routes.{asked_fields, RoutePlanned};
ghost use Rattle.sheet.specs.steps.Storing.{Room, Put};

use super::{Page, Way};
use book::NodeNumber;
use search::{CheckedBook, Refusal, Routed, cost_of, split_in};

// A route from its origin: its cost and its links.
#[derive(Clone, Copy)]
pub struct RouteFound<'a> {
    pub origin: NodeNumber,
    pub cost: u32,
    pub links: &'a [u16],
}

// Both sheets take a plan's route from here; its links stay where the plan wrote them.
pub fn route_planned<'a>(
    way: Way,
    planned: Result<Routed, Refusal>,
    walk: &'a [u16],
) -> Result<RouteFound<'a>, Refusal>
    requires { IfOk planned (λ routed. routed.links ≤ length walk.now) }
    ensures { (book buffer : List ℕ) → Found book way.origin.0 way.destination.0 buffer planned walk.now → RoutePlanned book way.origin.0 way.destination.0 result }
{
    let routed = planned?;
    Ok(RouteFound {
        origin: way.origin,
        cost: routed.cost,
        links: &walk[..usize::from(routed.links)],
    })
}

pub fn print_route(book: CheckedBook<'_>, route: RouteFound<'_>, page: &mut Page<'_>)
    requires { Room page.old (line (asked_fields book.bytes.now route.origin.0 route.cost route.links.now)) }
    ensures { Put page.old (line (asked_fields book.entry.bytes.now route.entry.origin.0 route.entry.cost route.entry.links.now)) page.new }
{
    let split = split_in(cost_of(book.bytes, route.origin, route.links));
    page.put_route(route.cost, split, route.links);
}
