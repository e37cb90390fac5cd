// Why a record is refused on a sound table: a test for each reason, in the order of their numbers. That the table is sound was tested before.
ghost use Rattle.std.specs.Prelude.{◌≡◌, ◌⊎◌, List, ℕ, ◌<◌, IfOk, false};
ghost use Rattle.table.specs.Compute.{runner};
ghost use Rattle.table.specs.Code.Tracks.{Known};
ghost use Rattle.chains.specs.Marks.{marked};
ghost use Rattle.chains.specs.Ways.{resource_way};
ghost use Rattle.refusals.specs.Numbers.{kind_number, refusal_number};
ghost use Rattle.refusals.specs.Refusals.{lowest, malformed, by_record, by_thread, by_queues, refusals};

use crate::{Kind, Reason, Record};
use chains::marks::marked;
use chains::ways::{NODES, from_resource};
use table::Table;
use table::workings::Graph;

// P or V with a resource above 15; Exit with an argument other than 0; fourth byte not 0.
#[tactic(auto, unfolding(crate::specs::Refusals::malformed))]
fn malformed(kind: Kind, e: Record) -> bool
    ensures form { kind_number kind ≡ e.kind → result ≡ malformed e }
    ensures resource { result ≡ false → (kind ≡ Kind.P) ⊎ (kind ≡ Kind.V) → e.argument < 16 }
{
    let wrong = match kind {
        Kind::P | Kind::V => Table::RESOURCES <= usize::from(e.argument),
        Kind::Exit => e.argument != 0,
        Kind::Create | Kind::Set => false,
    };
    wrong || e.zero != 0
}

// The reasons in the record alone.
#[tactic(auto, unfolding(crate::specs::Refusals::lowest, crate::specs::Refusals::by_record))]
fn by_record(e: Record) -> Result<Kind, Reason>
    ensures number { refusal_number result ≡ lowest (by_record e) }
    ensures kind { IfOk result (λ kind. kind_number kind ≡ e.kind) }
    ensures thread { IfOk result (λ _. e.thread < 32) }
    ensures resource { IfOk result (λ kind. (kind ≡ Kind.P) ⊎ (kind ≡ Kind.V) → e.argument < 16) }
{
    let kind = Kind::try_from(e.kind)?;
    if Table::THREADS <= usize::from(e.thread) {
        return Err(Reason::NoSuchThread);
    }
    if malformed(kind, e) {
        return Err(Reason::Malformed);
    }
    Ok(kind)
}

// The reasons in the clock and the thread.
#[tactic(auto, unfolding(crate::specs::Refusals::lowest, crate::specs::Refusals::by_thread, table::specs::Compute::is_live))]
fn by_thread(t: &Table, running: u8, kind: Kind, e: Record) -> Result<(), Reason>
    requires { e.thread < 32 }
    ensures number { kind_number kind ≡ e.kind → running ≡ runner t.now → refusal_number result ≡ lowest (by_thread t.now e) }
    ensures clock { IfOk result (λ _. t.now.clock < 65535) }
{
    let is_live = t.live[usize::from(e.thread)] == 1;
    if t.clock == Table::EVENTS {
        return Err(Reason::ClockAtEnd);
    }
    match kind {
        Kind::Create if is_live => Err(Reason::AlreadyLive),
        Kind::Create => Ok(()),
        _ if !is_live => Err(Reason::NotLive),
        _ if running != e.thread => Err(Reason::NotRunning),
        _ => Ok(()),
    }
}

// Whether a chain leads from resource r to thread th: whether th is on the way from r. From a free one none leads on.
fn leads(graph: &Graph, r: u8, th: u8) -> bool
    requires { r < 16 }
    ensures { result ≡ marked (resource_way 64 graph.now.waits graph.now.holders 0 0 r) th }
{
    if graph.holders[usize::from(r)] == Table::NOBODY {
        return false;
    }
    let way = from_resource(graph, 0, 0, r, NODES);
    marked(way, usize::from(th))
}

// The reasons in the queues. A P or V that names no resource was refused by its record.
#[tactic(auto, unfolding(crate::specs::Refusals::lowest, crate::specs::Refusals::by_queues))]
fn by_queues(graph: &Graph, kind: Kind, e: Record) -> Result<(), Reason>
    requires { (kind ≡ Kind.P) ⊎ (kind ≡ Kind.V) → e.argument < 16 }
    ensures { (t : Table) (owns currents : List ℕ) → Known t graph.now.waits graph.now.holders owns currents → kind_number kind ≡ e.kind → e.thread < 32 →
        refusal_number result ≡ lowest (by_queues t e) }
{
    match kind {
        Kind::P if leads(graph, e.argument, e.thread) => Err(Reason::ClosesCircle),
        Kind::V if graph.holders[usize::from(e.argument)] != e.thread => Err(Reason::DoesNotHold),
        Kind::Exit if graph.holders.contains(&e.thread) => Err(Reason::StillHolds),
        _ => Ok(()),
    }
}

// The kind of a record that may be carried out, or the reason of lowest number that refuses it.
pub fn refusal(t: &Table, graph: &Graph, running: u8, e: Record) -> Result<Kind, Reason>
    ensures number { (owns currents : List ℕ) → Known t.now graph.now.waits graph.now.holders owns currents → running ≡ runner t.now → refusal_number result ≡ lowest (refusals t.now e) }
    ensures kind { IfOk result (λ kind. kind_number kind ≡ e.kind) }
    ensures thread { IfOk result (λ _. e.thread < 32) }
    ensures clock { IfOk result (λ _. t.now.clock < 65535) }
{
    let kind = by_record(e)?;
    by_thread(t, running, kind, e)?;
    by_queues(graph, kind, e)?;
    Ok(kind)
}
