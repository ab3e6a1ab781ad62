// The checks before a command or a reading, the same for every store.
ghost use Rattle.std.specs.Prelude.{◌≡◌};
ghost use Rattle.std.specs.Option.{option_or};
ghost use Rattle.ir.specs.Instructions.{plain};
ghost use Rattle.program.specs.Programs.{operands, state_of as model_state};
ghost use Rattle.program.specs.Faults.{unless, range_fault, operand_fault, ranges_fault, first_fault, slot_fault, anchor_fault, make_fault, rewrite_fault, link_fault, placed_fault, unmake_fault, busy_fault};
ghost use Rattle.program.specs.Commands.{verdict};
ghost use Rattle.program.specs.Readings.{state_answer};
ghost use Rattle.program.specs.declared.fault.StoreFault.TheVariants.{WrongState};

use crate::fault::StoreFault;
use crate::look::Look;
use crate::state::State;
use ir::instruction::Record;

// The fault, unless the test holds.
pub fn ensure(test: bool, fault: StoreFault) -> Result<(), StoreFault>
    ensures { result ≡ verdict (unless test fault) }
{
    if test { Ok(()) } else { Err(fault) }
}

// The state of a number of the store.
pub fn state<L: Look>(store: &L, n: u32) -> Result<State, StoreFault>
    ensures { result ≡ state_answer (L.program store.now) n }
{
    store.find(n).ok_or(StoreFault::OutOfRange(n))
}

// The state of a number; one that the store has not counts as free.
fn state_of<L: Look>(store: &L, n: u32) -> State
    ensures { result ≡ model_state (L.program store.now) n }
{
    store.find(n).unwrap_or(State::Free)
}

// The number is one of the store's.
pub fn range<L: Look>(store: &L, n: u32) -> Result<(), StoreFault>
    ensures { result ≡ verdict (range_fault (L.program store.now) n) }
{
    state(store, n).map(|_| ())
}

// The number is one of the store's, where there is a number.
fn range_of<L: Look>(store: &L, x: Option<u32>) -> Result<(), StoreFault>
    ensures { result ≡ verdict (slot_fault (range_fault (L.program store.now)) x) }
{
    x.map_or(Ok(()), |x| range(store, x))
}

// In range: the number, then its operands, one line each: a loop over them was tried, and the check found no proof.
fn ranges<L: Look>(store: &L, n: u32, what: Record) -> Result<(), StoreFault>
    ensures { result ≡ verdict (ranges_fault (L.program store.now) n (plain what)) }
{
    let [a, b, c] = what.operands();
    range(store, n)?;
    range_of(store, a)?;
    range_of(store, b)?;
    range_of(store, c)
}

// Not free and not the instruction itself: an operand.
fn operand<L: Look>(store: &L, n: u32, x: u32) -> Result<(), StoreFault>
    ensures { result ≡ verdict (operand_fault (L.program store.now) n x) }
{
    ensure(
        !state_of(store, x).is_free() && x != n,
        StoreFault::BadOperand(x),
    )
}

// The same of an operand, where there is one.
fn operand_of<L: Look>(store: &L, n: u32, x: Option<u32>) -> Result<(), StoreFault>
    ensures { result ≡ verdict (slot_fault (operand_fault (L.program store.now) n) x) }
{
    x.map_or(Ok(()), |x| operand(store, n, x))
}

// Not free and not the instruction itself: each of its operands, one line each, as for the ranges.
fn operands<L: Look>(store: &L, n: u32, what: Record) -> Result<(), StoreFault>
    ensures { result ≡ verdict (first_fault (operand_fault (L.program store.now) n) (operands (plain what))) }
{
    let [a, b, c] = what.operands();
    operand_of(store, n, a)?;
    operand_of(store, n, b)?;
    operand_of(store, n, c)
}

// The number may hold the record; `right` says whether its state is one that may, which make and rewrite see differently.
fn hold<L: Look>(store: &L, n: u32, what: Record, right: bool) -> Result<(), StoreFault>
    ensures { result ≡ verdict (option_or (ranges_fault (L.program store.now) n (plain what)) (option_or (unless right (WrongState n)) (first_fault (operand_fault (L.program store.now) n) (operands (plain what))))) }
{
    ranges(store, n, what)?;
    ensure(right, StoreFault::WrongState(n))?;
    operands(store, n, what)
}

// A free number gets a record.
pub fn make<L: Look>(store: &L, n: u32, what: Record) -> Result<(), StoreFault>
    ensures { result ≡ verdict (make_fault (L.program store.now) n (plain what)) }
{
    hold(store, n, what, state_of(store, n).is_free())
}

// A number that is not free gets another record.
pub fn rewrite<L: Look>(store: &L, n: u32, what: Record) -> Result<(), StoreFault>
    ensures { result ≡ verdict (rewrite_fault (L.program store.now) n (plain what)) }
{
    hold(store, n, what, !state_of(store, n).is_free())
}

// The anchor is placed, where there is one.
fn anchor<L: Look>(store: &L, anchor: Option<u32>) -> Result<(), StoreFault>
    ensures { result ≡ verdict (anchor_fault (L.program store.now) anchor) }
{
    anchor.map_or(Ok(()), |a| {
        ensure(state_of(store, a).is_placed(), StoreFault::BadAnchor(a))
    })
}

// A loose number is put before a placed anchor, or at the end.
pub fn link<L: Look>(store: &L, n: u32, before: Option<u32>) -> Result<(), StoreFault>
    ensures { result ≡ verdict (link_fault (L.program store.now) n before) }
{
    let state = state(store, n)?;
    range_of(store, before)?;
    ensure(state.is_loose(), StoreFault::WrongState(n))?;
    anchor(store, before)
}

// The number is placed.
pub fn placed<L: Look>(store: &L, n: u32) -> Result<(), StoreFault>
    ensures { result ≡ verdict (placed_fault (L.program store.now) n) }
{
    let state = state(store, n)?;
    ensure(state.is_placed(), StoreFault::WrongState(n))
}

// A loose number that nothing reads is made free.
pub fn unmake<L: Look>(store: &L, n: u32) -> Result<(), StoreFault>
    ensures { result ≡ verdict (unmake_fault (L.program store.now) n) }
{
    let state = state(store, n)?;
    ensure(state.is_loose(), StoreFault::WrongState(n))?;
    ensure(store.is_unused(n), StoreFault::StillUsed(n))
}

// The number is not free.
pub fn busy<L: Look>(store: &L, n: u32) -> Result<(), StoreFault>
    ensures { result ≡ verdict (busy_fault (L.program store.now) n) }
{
    let state = state(store, n)?;
    ensure(!state.is_free(), StoreFault::WrongState(n))
}
