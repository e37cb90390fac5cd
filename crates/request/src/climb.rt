// The walk of a P: up from holder to holder.
ghost use Rattle.std.specs.Prelude.{ℕ, ◌≤◌, ◌≡◌, List};
ghost use Rattle.request.specs.Climb.{Climbed, Rising};

use table::Table;
use table::workings::Graph;

// The numbers lent are those after the walk, and the result is how many threads were worked out.
// In a P numbers only rise: the requester's number v comes in below the first holder, so a thread's new number is the higher of its old
// one and v, and v is the same all the way up. The statement is that of working each thread out afresh from all its waiters, for any
// queues and own numbers from which the numbers rise so: the code reads neither. 17: the first thread and 16 holders above it.
pub fn climb(graph: &Graph, current: &mut [u32; Table::THREADS], start: u8, v: u32) -> u8
    requires { (queue lengths owns : List ℕ) × (k : ℕ) × (k ≤ 17) × Rising queue lengths graph.now.holders graph.now.waits owns v current.old start k }
    ensures { (queue lengths owns : List ℕ) (k : ℕ) → k ≤ 17 → Rising queue lengths graph.now.holders graph.now.waits owns v current.old start k →
        Climbed queue lengths graph.now.holders graph.now.waits owns current.old start result current.new }
{
    let mut at = usize::from(start);
    let mut n = 0;
    // No `for`: the walk ends where a holder says so, and no turn would read its bound.
    loop {
        n += 1;
        if v <= current[at] {
            break n;
        }
        current[at] = v;
        let Some(&holder) = graph.holders.get(usize::from(graph.waits[at])) else {
            break n;
        };
        at = usize::from(holder);
    }
}
