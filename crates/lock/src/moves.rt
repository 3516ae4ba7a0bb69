// The move entry, and the same for a table that was tested before.
ghost use Rattle.apply.specs.MoveMade.{MoveMade, MoveTried, TestedTable};

use crate::request::test_request;
use apply::apply_request;
use definitions::{Outcome, Refusal, Request};
use moving::Made;
use table::examine;

// A move on a table that was tested, of whose threads `forbidden` have forbidden 1.
pub fn try_move(table: &mut [u8], forbidden: usize, request: Request) -> Result<Made, Refusal>
    requires { TestedTable table.old forbidden }
    ensures { MoveTried table.old request table.new result }
{
    let mv = test_request(table, request)?;
    Ok(apply_request(table, forbidden, request, mv))
}

pub fn make_move(table: &mut [u8], request: Request) -> Result<Outcome, Refusal>
    ensures { MoveMade table.old request table.new result }
{
    let examined = examine(table)?;
    let made = try_move(table, examined.forbidden, request)?;
    Ok(made.outcome)
}
