// What a call works out of its table once, and keeps beside it.
ghost use Rattle.std.specs.Prelude.{◌≡◌, replicate};
ghost use Rattle.table.specs.Code.Ready.{highest_ready};

use crate::Table;

// What each thread waits for (16: nothing), and who holds each resource (32: nobody). Numbers and no `Option`s: passes over the 32 compare
// them many at a time.
#[derive(Clone, Copy)]
pub struct Graph {
    pub waits: [u8; Table::THREADS],
    pub holders: [u8; Table::RESOURCES],
}

impl Graph {
    // Nobody waits, and nobody holds anything.
    pub fn empty() -> Graph
        ensures { result ≡ record { waits = replicate 32 16; holders = replicate 16 32 } }
    {
        Graph {
            waits: [Table::NOTHING; Table::THREADS],
            holders: [Table::NOBODY; Table::RESOURCES],
        }
    }
}

// The graph, and the numbers of the own and of the current precedences, 0 for a thread that isn't live.
#[derive(Clone, Copy)]
pub struct Workings {
    pub graph: Graph,
    pub own: [u32; Table::THREADS],
    pub current: [u32; Table::THREADS],
}

impl Workings {
    // The running thread: of the threads that wait for nothing the one of highest number, the first of them; 32, as the answers for C have
    // it, if none has a number above 0. In a sound table just the live threads have one. The numbers are compared first, since most fail.
    #[tactic(auto, unfolding(crate::specs::Code::Ready::highest_ready, crate::specs::Code::Ready::ready_number))]
    pub fn running(&self) -> u8
        ensures { result ≡ highest_ready self.now.graph.waits self.now.current 32 }
    {
        let mut best = Table::NOBODY;
        let mut high = 0;
        for i in 0..Table::THREADS {
            if high < self.current[i] && self.graph.waits[i] == Table::NOTHING {
                high = self.current[i];
                best = i as u8;
            }
        }
        best
    }
}
