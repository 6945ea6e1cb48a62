//! Laws of the histories of a record buffer.

ghost use Rattle.std.specs.Prelude.{◌≡◌, ◌<◌, List, [], ◌∷◌, ◌++◌, fold};
ghost use Rattle.ctr_buffer.specs.History.{IsHistory, after, stack_of, deep_of, pointer_of, HasPointer, CanTake, CanTakeAll};
ghost use Rattle.ctr_buffer.specs.Entry.{valid_entries};
ghost use Rattle.ctr_buffer.specs.Facts.{BuffersStay};
ghost use Rattle.ctr_buffer.specs.Stack.{Stack, IsStack, empty};
ghost use Rattle.ctr_buffer.specs.Visible.{AreVisible, HeldIsVisible, IsUnwritten, OneIsVisible, TakenHaveTransfers, ValidAreVisible};
ghost use Rattle.ctr_buffer.specs.declared.event.Event.{Event};
ghost use Rattle.ctr_buffer.specs.declared.event.Event.TheVariants.{SetDepth};

use crate::event::Event;
use crate::store::CtrStore;
use ctr_csrs::Depth;

/// Makes the call of an event.
#[inline(always)]
pub fn perform<B: CtrStore>(store: &mut B, event: Event)
    requires { CanTake (B.means store.old) event }
    ensures { B.means store.new ≡ after (B.means store.old) event }
{
    match event {
        Event::Push(slot) => store.push(slot),
        Event::Swap(slot) => store.swap(slot),
        Event::Pop => store.pop(),
        Event::Clear => store.clear(),
        Event::SetDepth(depth) => store.set_depth(depth),
        Event::Turn(w) => store.set_wrptr(w),
        Event::Poke(i, part, value) => {
            let slot = store.slot(i).with_part(part, value);
            store.set_slot(i, slot);
        }
    }
}

/// Makes the call of each event, the oldest first.
pub fn perform_all<B: CtrStore>(store: &mut B, events: &[Event])
    requires { CanTakeAll (B.means store.old) events.now }
    ensures { B.means store.new ≡ fold after (B.means store.old) events.now }
{
    for event in events {
        perform(store, *event);
    }
}

/// The store that a history leaves: one of this depth, then the call of each later event, the oldest first.
pub fn replay<B: CtrStore>(depth: Depth, later: &[Event]) -> B
    requires { CanTakeAll (empty depth) later.now }
    ensures stack { B.means result ≡ stack_of (SetDepth depth ∷ later.now) }
    ensures pointer { (B.means result).pointer ≡ pointer_of (SetDepth depth ∷ later.now) }
    ensures depth { (B.means result).depth ≡ deep_of (SetDepth depth ∷ later.now) }

    // Where software wrote neither WRPTR nor an entry since the buffer was emptied last, the slots
    // with V are the unreturned transfers.
    ensures visible { IsUnwritten (SetDepth depth ∷ later.now) →
        AreVisible (SetDepth depth ∷ later.now) (valid_entries (B.means result).slots) }
{
    let mut store = B::fresh(depth);
    perform_all(&mut store, later);
    history_laws();
    visible_laws();
    store
}

/// Laws of histories, of every list of events: a proof and no work.
pub fn history_laws()
    ensures begins { (s : Stack) (history : List Event) → IsHistory history → fold after s history
        ≡ stack_of history }
    ensures newest { (history : List Event) (e : Event) → stack_of (history ++ e ∷ [])
        ≡ after (stack_of history) e }
    ensures depth_is_the_last { (history : List Event) → (stack_of history).depth
        ≡ deep_of history }
    ensures pointer_is_counted { (history : List Event) → (stack_of history).pointer
        ≡ pointer_of history }

    // The counted pointer is below the depth, and with the pops it is where it was set and the pushes, modulo the depth.
    ensures pointer_sum { (history : List Event) → HasPointer history (pointer_of history) }
    ensures shape { (history : List Event) → IsStack (stack_of history) }
    ensures buffers_stay { BuffersStay }
{}

/// Laws of unreturned transfers, of every history: a proof and no work. The second and the third
/// ask that each entry that the events record has V, as those of a hart have, and that software
/// wrote neither WRPTR nor an entry since the buffer was emptied last.
pub fn visible_laws()
    // Of all events that record an entry at most one leaves it so deep.
    ensures one { OneIsVisible }

    // Entry k of the stack has V and is r exactly if the history leaves r k entries deep: at each
    // depth, with return-stack emulation on, off, or both in turn.
    ensures held { HeldIsVisible }

    // And the entries with V, in order, are these.
    ensures valid { ValidAreVisible }

    // Events that a store can take record transfers.
    ensures taken { TakenHaveTransfers }
{}
