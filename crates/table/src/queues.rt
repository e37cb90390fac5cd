// Reading the queues.
ghost use Rattle.std.specs.Prelude.{◌≤◌};
ghost use Rattle.protocol.specs.Sets.{Max};
ghost use Rattle.table.specs.Code.Places.{Lengths};

use crate::Table;

// The length of the longest queue.
pub fn longest(lengths: &[u8; Table::RESOURCES]) -> u8
    ensures { Max ◌≤◌ (Lengths lengths.now 16) result }
{
    lengths.iter().copied().max().unwrap_or(0)
}
