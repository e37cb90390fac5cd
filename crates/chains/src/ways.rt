// Going from a thread to the resource it waits for, from a resource to its holder, and so on.
ghost use Rattle.std.specs.Prelude.{◌≡◌, true, ◌↔◌, ℕ, ◌<◌};
ghost use Rattle.chains.specs.Ways.{thread_way, resource_way, EndsFrom};

use crate::marks::{mark, marked};
use table::Table;
use table::workings::Graph;

// The way from t: `way` with all threads marked that are on it, up to the first that is seen or waits for nothing. 0, which marks nobody,
// if the steps run out or there is no such thread or resource.
// A number and no `Option`, which is no plainer: whoever asks only who is on the way would have to open it first.
#[cycle(from_resource_from_thread)]
pub fn from_thread(graph: &Graph, seen: u32, way: u32, t: u8, steps: u32) -> u32
    ensures { result ≡ thread_way steps graph.now.waits graph.now.holders seen way t }
{
    if steps == 0 {
        return 0;
    }
    let i = usize::from(t);
    let Some(&r) = graph.waits.get(i) else {
        return 0;
    };
    let passed = mark(way, i);
    if marked(seen, i) || Table::NOTHING <= r {
        return passed;
    }
    from_resource(graph, seen, passed, r, steps - 1)
}

// The same from resource r: it goes on at the holder.
#[cycle(from_resource_from_thread)]
pub fn from_resource(graph: &Graph, seen: u32, way: u32, r: u8, steps: u32) -> u32
    ensures { result ≡ resource_way steps graph.now.waits graph.now.holders seen way r }
{
    if steps == 0 {
        return 0;
    }
    match graph.holders.get(usize::from(r)) {
        Some(&holder) => from_thread(graph, seen, way, holder, steps - 1),
        None => 0,
    }
}

// More nodes than a way without a circle has: it passes each of 32 threads and of 16 resources once at most.
pub const NODES: u32 = 64;

// Whether the way from every thread ends. Only threads that wait are looked at, each by the holder of what it waits for: the way from
// others ends at once. Seen are threads whose way is known to end, so that a later way stops where it meets one: each is walked over once.
// The way that is walked is marked beside them and is seen only when it has ended: one that comes back to its own marks is a circle.
pub fn no_circle(graph: &Graph) -> bool
    ensures { (result ≡ true) ↔ ((th : ℕ) → th < 32 → EndsFrom graph.now.waits graph.now.holders th) }
{
    let mut seen: u32 = 0;
    for i in 0..Table::THREADS {
        let r = usize::from(graph.waits[i]);
        if r < Table::RESOURCES {
            let holder = graph.holders[r];
            let h = usize::from(holder);
            if Table::THREADS <= h {
                return false;
            }
            if !marked(seen, h) {
                let way = from_thread(graph, seen, seen, holder, NODES);
                let endless = way == 0;
                if endless {
                    return false;
                }
                seen = way;
            }
            seen = mark(seen, i);
        }
    }
    true
}
