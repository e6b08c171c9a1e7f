// The numbers of a machine's places.

ghost use Rattle.std.specs.Prelude.{◌≡◌, ◌<◌, [], IfOk, OnOk, Some, length};
ghost use Rattle.kex_machine.specs.Nodes.{MoveBelow, move_of};
ghost use Rattle.kex_tabfile.specs.PlaceNumbers.{ArePlaceNumbers, IsOrder, MeetsPlace, MeetsPlaces};
ghost use Rattle.kex_tabfile.specs.PlaceNumbers.{nexts_of};

use kex_code::memory::Memory;
use kex_machine::{MNode, Trimmed, node_at};
use std::alloc::Global;

// The places that were met, in their order, and the number of each place; a place that wasn't met
// has the count of places.
#[derive(Drop)]
struct PlaceOrder {
    order: Vec<u32>,
    numbers: Vec<u32>,
}

impl PlaceOrder {
    fn new(alloc: Global, count: usize) -> Result<PlaceOrder, Memory>
        requires { count < 4294967296 }
        ensures none { IfOk result (λ o. o.order.items ≡ []) }
        ensures numbers { IfOk result (λ o. IsOrder o.order.items o.numbers.items) }
        ensures long { IfOk result (λ o. length o.numbers.items ≡ count) }
    {
        let order = Vec::new(alloc);
        let numbers = vec![in alloc; count as u32; count]?;
        Ok(PlaceOrder { order, numbers })
    }

    // A place is met, perhaps again.
    fn meet(&mut self, place: u32) -> Result<(), Memory>
        requires place { place < length self.old.numbers.items }
        requires order { IsOrder self.old.order.items self.old.numbers.items }
        ensures met { OnOk result (MeetsPlace self.old.order.items place self.new.order.items) }
        ensures order { OnOk result (IsOrder self.new.order.items self.new.numbers.items) }
        ensures long { OnOk result (length self.new.numbers.items
            ≡ length self.old.numbers.items) }
    {
        let number = self.numbers[place as usize];
        if (number as usize) < self.numbers.len() {
            return Ok(());
        }
        self.numbers[place as usize] = self.order.len() as u32;
        self.order.push(place)?;
        Ok(())
    }

    // The places are met to which a node leads.
    fn leave(&mut self, node: &MNode) -> Result<(), Memory>
        requires node { MoveBelow (length self.old.numbers.items) (move_of (Some node.now)) }
        requires order { IsOrder self.old.order.items self.old.numbers.items }
        ensures met { OnOk result (MeetsPlaces self.old.order.items
            (nexts_of (move_of (Some node.now))) self.new.order.items) }
        ensures order { OnOk result (IsOrder self.new.order.items self.new.numbers.items) }
        ensures long { OnOk result (length self.new.numbers.items
            ≡ length self.old.numbers.items) }
    {
        match node {
            MNode::Accept => {}
            MNode::Read(_, next) => self.meet(*next)?,
            MNode::Choice(left, right) => {
                self.meet(*left)?;
                self.meet(*right)?;
            }
            MNode::Forced(_, next) => self.meet(*next)?,
            MNode::Do(_, next) => self.meet(*next)?,
            MNode::Skip(next) => self.meet(*next)?,
        }
        Ok(())
    }
}

/// The numbers of the machine's places, by node: breadth first from the start, the left side before
/// the right.
pub(crate) fn number_places(alloc: Global, machine: &Trimmed) -> Result<Vec<u32>, Memory>
    ensures { IfOk result (λ numbers. ArePlaceNumbers machine.now numbers.items) }
{
    let nodes = machine.nodes();
    let mut places = PlaceOrder::new(alloc, nodes.len())?;
    places.meet(machine.start())?;
    let mut left = 0;
    while left < places.order.len() {
        let place = places.order[left];
        places.leave(node_at(nodes, place as usize))?;
        left += 1;
    }
    Ok(places.numbers)
}
