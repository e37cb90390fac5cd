// Sets of threads as words: thread i is marked where bit i is 1.
ghost use Rattle.std.specs.Prelude.{◌≡◌};
ghost use Rattle.chains.specs.Marks.{marked, mark};

use table::Table;

// Whether thread i is marked; false if there is no such thread.
#[tactic(auto, unfolding(crate::specs::Marks::marked))]
pub fn marked(word: u32, i: usize) -> bool
    ensures { result ≡ marked word i }
{
    if Table::THREADS <= i {
        return false;
    }
    (word >> (i as u32)) % 2 == 1
}

// The word with thread i marked too, if there is such a thread.
#[tactic(auto, using(crate::proofs::marks::Bits::one_shifted), unfolding(crate::specs::Marks::mark))]
pub fn mark(word: u32, i: usize) -> u32
    ensures { result ≡ mark word i }
{
    if Table::THREADS <= i {
        return word;
    }
    word | (1 << (i as u32))
}
