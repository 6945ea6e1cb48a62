//! Sixteen harts, made once.

ghost use Rattle.std.specs.Bool.{OnTrue, OnFalse};
ghost use Rattle.std.specs.Prelude.{◌≡◌, ◌↔◌, ◌<◌, IsTrue, IfOk, Some, length, slice_get};
ghost use Rattle.rv_hart.specs.Hart.{fresh_harts};

use crate::hart::Hart;
use ctr_buffer::{CtrStore, RingStore};
use ctr_port::NoMemory;
use std::alloc::Global;
use std::marker::Model;

/// The store that the harts keep their records in.
pub type Store = RingStore;

/// Sixteen harts, numbered from 0, made once on the heap. Contracts see them as a list.
#[derive(Drop)]
pub struct Harts {
    list: Vec<Hart<Store>>,
}

impl Model for Harts {
    ghost use Rattle.std.specs.Prelude.{◌≡◌, List, length};
    ghost use Rattle.rv_hart.specs.Hart.{HartState};

    ghost Value = { List HartState };

    ghost view = { λ h. h.list.items };

    ghost invariant = { λ h. length h.list.items ≡ 16 };
}

impl Harts {
    ghost use Rattle.std.specs.Prelude.{slice_set};
    ghost use Rattle.std.specs.Borrow.{sem, Lends};
    ghost use Rattle.rv_hart.specs.contracts.harts.Harts.{the_row};
    ghost use Rattle.rv_hart.specs.contracts.hart.Hart as hart;
    ghost use Rattle.ctr_buffer.specs.contracts.ring_store.RingStore as store;

    /// Sixteen fresh harts.
    pub fn new(alloc: Global) -> Result<Harts, NoMemory>
        ensures { IfOk result (λ h. h ≡ fresh_harts) }
    {
        let mut list = Vec::with_capacity(alloc, 16)?;
        for _ in 0..16u8 {
            list.push(Hart::<Store>::fresh())?;
        }
        Ok(Harts { list })
    }

    /// Whether all of them have done nothing.
    pub fn is_fresh(&self) -> bool
        ensures { IsTrue result ↔ (self.now ≡ fresh_harts) }
    {
        are_fresh(self.list.as_slice())
    }

    /// Hart `h`, which is below 16.
    pub fn hart(&self, h: usize) -> &Hart<Store>
        requires { h < 16 }
        ensures hart { slice_get self.now h ≡ Some result.now }
        ensures sixteen { length self.now ≡ 16 }
    {
        &self.list[h]
    }

    /// Hart `h`, which is below 16, to change.
    pub fn hart_mut(&mut self, h: usize) -> &mut Hart<Store>
        requires { h < 16 }
        ensures* lends { sem 𝓛 (Lends the_row (hart.the_row store.the_row ⟦<Store as CtrStore>⟧)
            self.entry result (slice_set self.entry.now h)) }
        ensures hart { slice_get self.old h ≡ Some result.now }
        ensures sixteen { length self.old ≡ 16 }
    {
        &mut self.list[h]
    }
}

fn hart_at(list: &[Hart<Store>], i: usize) -> &Hart<Store>
    requires { i < length list.now }
    ensures { slice_get list.now i ≡ Some result.now }
{
    &list[i]
}

fn are_fresh(list: &[Hart<Store>]) -> bool
    requires { length list.now ≡ 16 }
    ensures yes { OnTrue result (list.now ≡ fresh_harts) }
    ensures no { OnFalse result (list.now ≡ fresh_harts → ⊥) }
{
    for i in 0..16 {
        if !hart_at(list, i).is_fresh() {
            return false;
        }
    }
    true
}
