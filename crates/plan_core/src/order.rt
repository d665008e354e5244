// The order in which criteria are made least.
ghost use Rattle.std.specs.Prelude.{◌≡◌, ◌<◌, Some, length, slice_get, SomeIff, ◌≢◌, ◌↔◌, IsTrue, AllPairs, Contains};
ghost use Rattle.plan_core.specs.Order.{IsOrder};

use crate::Criterion;
use arrayvec::ArrayVec;
use std::marker::Model;

/// One to four distinct criteria, the most important first.
#[derive(Drop)]
pub struct Order {
    list: ArrayVec<Criterion, 4>,
}

impl Model for Order {
    ghost use Rattle.std.specs.Prelude.{List};
    ghost use Rattle.plan_core.specs.declared.criterion.Criterion.{Criterion};
    ghost use Rattle.plan_core.specs.Order.{IsOrder};

    ghost Value = { List Criterion };

    ghost view = { λ o. o.list.items };

    ghost invariant = { λ o. IsOrder o.list.items };
}

/// Whether the criterion is in the list.
fn stands_in(c: Criterion, list: &[Criterion]) -> bool
    ensures { IsTrue result ↔ Contains list.now c }
{
    list.iter().any(|d| *d == c)
}

/// Whether no criterion is there twice.
fn are_distinct(list: &[Criterion]) -> bool
    ensures { IsTrue result ↔ AllPairs (λ c d. c ≢ d) list.now }
{
    for (i, c) in list.iter().enumerate() {
        if stands_in(*c, &list[..i]) {
            return false;
        }
    }
    true
}

impl Order {
    /// The order of these criteria, or `None` exactly where there is none or one is there twice.
    pub fn new(list: &[Criterion]) -> Option<Order>
        ensures { SomeIff result (IsOrder list.now) list.now }
    {
        if list.is_empty() || !are_distinct(list) {
            return None;
        }
        let mut order = ArrayVec::new();
        for c in list {
            order.push(*c);
        }
        Some(Order { list: order })
    }

    /// The same order once more, made without memory.
    pub fn copied(&self) -> Order
        ensures { result ≡ self.now }
    {
        match Order::new(self.list.as_slice()) {
            Some(order) => order,
            None => unreachable!(),
        }
    }

    /// The number of criteria, 1 to 4.
    pub fn len(&self) -> usize
        ensures value { result ≡ length self.now }
        ensures is_order { IsOrder self.now }
    {
        self.list.len()
    }

    /// The criterion at place `i`, counted from 0.
    pub fn get(&self, i: usize) -> Criterion
        requires { i < length self.now }
        ensures { slice_get self.now i ≡ Some result }
    {
        self.list[i]
    }
}
