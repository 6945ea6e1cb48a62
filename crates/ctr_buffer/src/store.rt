//! What each record store does: the trait.

ghost use Rattle.std.specs.Prelude.{◌≡◌, ◌<◌, slice_get};
ghost use Rattle.ctr_buffer.specs.Stack.{Stack, IsStack, size_of, empty, after_push, after_pop, after_swap, after_clear, after_turn, after_resize, after_poke};

use crate::slot::Slot;
use ctr_csrs::Depth;

/// A record buffer. It means a depth, the slots from the youngest to the oldest, and WRPTR; how it keeps them is its own.
/// Slots that hold nothing are zero slots, so there are always as many slots as the depth says.
pub trait CtrStore {
    ghost means: { Self → Stack };

    /// A store of this depth with zero slots and WRPTR 0.
    fn fresh(depth: Depth) -> Self
        ensures { means result ≡ empty depth };

    /// How many slots there are.
    fn depth(&self) -> Depth
        ensures depth { result ≡ (means self.now).depth }
        ensures shape { IsStack (means self.now) };

    /// WRPTR, below the depth.
    fn wrptr(&self) -> u8
        ensures pointer { result ≡ (means self.now).pointer }
        ensures shape { IsStack (means self.now) };

    /// Slot `i`, where 0 is the youngest.
    fn slot(&self, i: u16) -> Slot
        requires { i < size_of (means self.now) }
        ensures { slice_get (means self.now).slots i ≡ Some result };

    /// Replaces slot `i` alone.
    fn set_slot(&mut self, i: u16, s: Slot)
        requires { i < size_of (means self.old) }
        ensures { means self.new ≡ after_poke (means self.old) i s };

    /// Puts a slot first, loses the last, and moves WRPTR on by 1 modulo the depth.
    fn push(&mut self, s: Slot)
        ensures { means self.new ≡ after_push (means self.old) s };

    /// Puts the first slot last with V cleared, and moves WRPTR back by 1 modulo the depth.
    fn pop(&mut self)
        ensures { means self.new ≡ after_pop (means self.old) };

    /// Replaces the first slot. WRPTR stays.
    fn swap(&mut self, s: Slot)
        ensures { means self.new ≡ after_swap (means self.old) s };

    /// Makes every slot the zero slot. WRPTR stays.
    fn clear(&mut self)
        ensures { means self.new ≡ after_clear (means self.old) };

    /// Moves WRPTR, below the depth, and so which slot is the youngest: slot `i` is what slot `(old - new + i)` modulo
    /// the depth was.
    fn set_wrptr(&mut self, w: u8)
        requires { w < size_of (means self.old) }
        ensures { means self.new ≡ after_turn (means self.old) w };

    /// Gives another depth, zero slots and WRPTR 0. The same depth changes nothing.
    fn set_depth(&mut self, d: Depth)
        ensures { means self.new ≡ after_resize (means self.old) d };
}
