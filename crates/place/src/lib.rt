// The place of one process goes on: a step stores its row and its registers, and touches nothing of the other seven.
#![tactic(auto)]

ghost use Rattle.std.specs.Prelude.{◌≡◌};
ghost use Rattle.place.specs.Place.{onward};

use machine::{Place, Row};

// "a step changes the place of one process and nothing of the other seven": that place is lent, and keeps its operation.
pub fn advance(p: &mut Place, row: Row, h: u16, t: u16, n: u16)
    ensures { p.new ≡ onward p.old row h t n }
{
    p.row = row;
    p.h = h;
    p.t = t;
    p.n = n;
}
